//! A list of numbers, by its index, and one of its numbers.

ghost use Rattle.std.specs.Prelude.{◌+◌, ◌*◌};
ghost use Rattle.std.specs.Hash as fed;
ghost use Rattle.std.specs.Cmp.Rules.{hashing};
ghost use Rattle.std.proofs.Common.{rules};

use std::hash::{Hash, Hasher};

/// A list, by its index, and a number in it.
#[derive(Clone, Copy, PartialEq, Eq)]
pub(crate) struct Place {
    pub list: u32,
    pub number: u32,
}

// Both are fed at once, which takes fewer steps than one after the other.
impl Hash for Place {
    ghost hash_input = { λ p. fed.u64 (p.list * 4294967296 + p.number) };

    ghost respects_eq = { Prim.search (hashing, rules) };

    fn hash<H: Hasher>(&self, state: &mut H) {
        state.write_u64(u64::from(self.list) * 0x1_0000_0000 + u64::from(self.number));
    }
}
