//! The entries of the tables of least data.

ghost use Rattle.std.specs.Prelude.{◌≤◌};

/// The number of nodes of a datum and its depth. For a datum of more nodes than the limit they are
/// the limit plus 1, and 0.
#[derive(Clone, Copy)]
pub struct Least {
    /// The number of nodes.
    pub nodes: u32,
    /// The depth.
    pub depth: u32,
    ghost few: { nodes ≤ 16777217 },
    ghost flat: { depth ≤ nodes },
}
