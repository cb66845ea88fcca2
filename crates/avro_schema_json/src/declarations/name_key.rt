//! A name to look up.

ghost use Rattle.std.specs.Prelude.{◌&&◌, ◌==◌, bytes_eq, string_bytes};
ghost use Rattle.std.proofs.Common.{rules};
ghost use Rattle.std.specs.Cmp.Rules.{hashing, comparing};

use indexmap::Equivalent;

/// A simple name in the namespace of a number. It is hashed and compared as the key that has these parts, so that no
/// text is copied to look it up.
#[derive(Clone, Copy, PartialEq, Eq, Hash)]
pub(crate) struct NameKey<'q> {
    pub number: u32,
    pub simple: &'q str,
}

impl<'q> Equivalent<(u32, String)> for NameKey<'q> {
    ghost equivalent = { λ q k. q.number == k.0 && bytes_eq q.simple.now (string_bytes k.1) };

    ghost respects_hash = { Prim.search (hashing, rules) };

    ghost respects_eq = { Prim.search (comparing, rules) };

    fn equivalent(&self, key: &(u32, String)) -> bool {
        self.number == key.0 && self.simple == key.1.as_str()
    }
}
