/// A datum without parts, as it is read or given.
#[derive(Clone, Copy)]
pub enum Leaf<'d> {
    /// Null.
    Null,
    /// A boolean.
    Boolean(bool),
    /// An int.
    Int(i32),
    /// A long.
    Long(i64),
    /// Bytes.
    Bytes(&'d [u8]),
    /// A string.
    Text(&'d str),
    /// A fixed.
    Fixed(&'d [u8]),
    /// An enum, by the index of its symbol.
    Symbol(u32),
}
