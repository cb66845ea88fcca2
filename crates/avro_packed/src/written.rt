/// Where the bytes of a part are that was read into an output.
#[derive(Debug, Drop)]
pub enum Written {
    /// In the output, from one offset to another.
    Range(usize, usize),
    /// In a buffer of their own.
    Apart(Vec<u8>),
    /// Nowhere: so many bytes, which were only counted.
    Counted(usize),
}
