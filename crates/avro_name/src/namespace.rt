ghost use Rattle.std.specs.Prelude.{◌≡◌, Some, refl, bytes_eq};
ghost use Rattle.std.proofs.Common.{rules};
ghost use Rattle.std.specs.Hash as fed;
ghost use Rattle.std.specs.Ordering.{nat_cmp};
ghost use Rattle.std.specs.Cmp.{partial_equiv_from_equiv};
ghost use Rattle.std.specs.Cmp.Lexicographic.{slice_cmp, nat_list_eq_equiv, nat_list_cmp_total, texts_ties, texts_po};
ghost use Rattle.std.specs.Cmp.Rules.{hashing};

use crate::check::check_dotted_name;
use crate::error::NameError;
use std::alloc::{AllocError, Global};
use std::cmp::Ordering;
use std::hash::{Hash, Hasher};
use std::marker::Model;
use std::rc::RcStr;

/// A namespace: simple names joined by dots, or the empty text for the null namespace. Clones share
/// their text.
#[derive(Debug, Drop)]
pub struct Namespace {
    /// `None` for the null namespace.
    text: Option<RcStr>,
}

impl Model for Namespace {
    ghost use Rattle.std.specs.Prelude.{◌≡◌, ℕ, List, true};
    ghost use Rattle.avro_name.specs.Name.{is_namespace};
    ghost use Rattle.avro_name.specs.Shared.{shared_text};

    ghost Value = { List ℕ };

    ghost view = { λ n. shared_text n.text };

    ghost invariant = { λ n. is_namespace (shared_text n.text) ≡ true };
}

impl Namespace {
    ghost use Rattle.std.specs.Prelude.{◌≡◌, ◌⊎◌, true, [], Ok, IfOk, IfErr, OnOk, IsErrOf};
    ghost use Rattle.avro_name.specs.Name.{is_namespace};
    ghost use Rattle.avro_name.specs.NameFault.{IsNamespaceFault};

    /// The null namespace. It allocates nothing.
    pub fn null(_alloc: Global) -> Namespace
        ensures { result ≡ [] }
    {
        Namespace { text: None }
    }

    /// Reads a namespace. Each text that is one is read.
    ///
    /// # Errors
    ///
    /// `EmptyPart` or `BadCharacter` if the text has that fault; `OutOfMemory`.
    pub fn read(alloc: Global, text: &str) -> Result<Namespace, NameError>
        ensures spelled { IfOk result (λ namespace. namespace ≡ text.now) }
        ensures good { OnOk result (is_namespace text.now ≡ true) }
        ensures read { is_namespace text.now ≡ true → IsErrOf result NameError.OutOfMemory ⊎ (result ≡ Ok text.now) }
        ensures refused { IfErr result (IsNamespaceFault text.now) }
    {
        if text.is_empty() {
            return Ok(Namespace::null(alloc));
        }
        check_dotted_name(text.as_bytes())?;
        Namespace::of_text(alloc, text)
    }

    /// Makes a namespace from a text that was checked already.
    pub(crate) fn of_text(alloc: Global, text: &str) -> Result<Namespace, NameError>
        requires { is_namespace text.now ≡ true }
        ensures spelled { IfOk result (λ namespace. namespace ≡ text.now) }
        ensures refused { IfErr result (λ e. e ≡ NameError.OutOfMemory) }
    {
        Ok(Namespace {
            text: Some(RcStr::from_str(alloc, text)?),
        })
    }

    /// The namespace as text; empty for the null namespace.
    pub fn as_str(&self) -> &str
        ensures text { result.now ≡ self.now }
        ensures good { is_namespace self.now ≡ true }
    {
        match &self.text {
            Some(text) => text.as_str(),
            None => "",
        }
    }
}

impl Clone for Namespace {
    ghost is_clone = { λ a b. b ≡ a };

    fn clone(&self) -> Result<Namespace, AllocError> {
        Ok(Namespace {
            text: self.text.clone()?,
        })
    }
}

impl PartialEq for Namespace {
    ghost eq = { bytes_eq };

    ghost laws = { partial_equiv_from_equiv nat_list_eq_equiv };

    fn eq(&self, other: &Namespace) -> bool {
        self.as_str() == other.as_str()
    }
}

impl Eq for Namespace {
    ghost laws = { nat_list_eq_equiv };
}

impl PartialOrd for Namespace {
    ghost partial_cmp = { λ a b. Some (slice_cmp nat_cmp a b) };

    ghost laws = { texts_po };

    fn partial_cmp(&self, other: &Namespace) -> Option<Ordering> {
        Some(self.cmp(other))
    }
}

impl Ord for Namespace {
    ghost cmp = { slice_cmp nat_cmp };

    ghost total = { nat_list_cmp_total };

    ghost matches_partial_cmp = { λ a b. refl };

    ghost matches_eq = { texts_ties };

    fn cmp(&self, other: &Namespace) -> Ordering {
        self.as_str().cmp(other.as_str())
    }
}

impl Hash for Namespace {
    ghost hash_input = { fed.str };

    ghost respects_eq = { Prim.search (hashing, rules) };

    fn hash<H: Hasher>(&self, state: &mut H) {
        self.as_str().hash(state);
    }
}
