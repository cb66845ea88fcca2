use crate::written::Written;
use std::alloc::AllocError;

/// Items or entries one after another, and how many they are.
#[derive(Debug, Drop)]
pub struct Gathered {
    // the branch of a union that all of them go into
    pub(crate) into: Option<u32>,
    pub(crate) count: u64,
    pub(crate) written: Written,
}

impl Gathered {
    ghost use Rattle.std.specs.Prelude.{◌≡◌, ◌+◌, OnErr, OnOk};

    /// Counts so many more. A count that no block can have is refused.
    #[inline(always)]
    pub(crate) fn count_more(&mut self, more: u32) -> Result<(), AllocError>
        ensures count { OnOk result (self.new.count ≡ self.old.count + more) }
        ensures written { self.new.written ≡ self.old.written }
        ensures into { self.new.into ≡ self.old.into }
        ensures none { OnErr result (self.new ≡ self.old) }
    {
        match self.count.checked_add(u64::from(more)) {
            Some(count) => {
                self.count = count;
                Ok(())
            }
            None => Err(AllocError),
        }
    }
}
