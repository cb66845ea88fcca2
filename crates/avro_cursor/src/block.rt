ghost use Rattle.std.specs.Prelude.{◌≡◌};

/// The head of an array's or a map's block: the number of items, and the block's size if given.
#[derive(Clone, Copy)]
pub struct Block {
    pub(crate) count: u32,
    pub(crate) size: Option<BlockSize>,
}

/// The size of a block's items in bytes, as given in its head.
#[derive(Clone, Copy)]
pub(crate) struct BlockSize {
    pub(crate) bytes: u64,
    /// The offset of the size.
    pub(crate) offset: usize,
    /// The offset of the items.
    pub(crate) items: usize,
}

impl Block {
    /// The number of items in the block.
    pub fn count(&self) -> u32
        ensures { result ≡ self.now.count }
    {
        self.count
    }
}
