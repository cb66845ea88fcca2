ghost use Rattle.std.specs.Prelude.{◌≡◌, ◌++◌, true, IfOk, IfErr};
ghost use Rattle.std.proofs.Common.{rules};
ghost use Rattle.std.specs.Hash as fed;
ghost use Rattle.std.specs.Ordering.{nat_cmp, on, then_cmp, as_partial_cmp};
ghost use Rattle.std.specs.Cmp.{partial_order_from_own_ties};
ghost use Rattle.std.specs.Cmp.Lexicographic.{slice_cmp};
ghost use Rattle.std.specs.Cmp.Rules.{comparing, hashing};
ghost use Rattle.avro_name.specs.Name.{is_dotted_name, is_simple_name, same_name, split_name};

use crate::check::{check_dotted_name, is_primitive_word};
use crate::error::NameError;
use crate::namespace::Namespace;
use std::alloc::{AllocError, Global};
use std::cmp::Ordering;
use std::hash::{Hash, Hasher};
use std::marker::Model;

/// A fullname: a namespace and a simple name, which is not the name of a primitive type. Simple names are
/// compared first, so that most names in one long namespace are told apart without comparing it.
#[derive(Debug, Drop)]
pub struct FullName {
    namespace: Namespace,
    simple: String,
}

impl Model for FullName {
    ghost use Rattle.std.specs.Prelude.{◌≡◌, true, string_bytes};
    ghost use Rattle.avro_name.specs.Name.{Name, is_full_name};

    ghost Value = { Name };

    ghost view = { λ n. record { namespace = n.namespace; simple = string_bytes n.simple } };

    ghost invariant = { λ n. is_full_name (record { namespace = n.namespace; simple = string_bytes n.simple }) ≡ true };
}

/// Splits a dotted name into its namespace and simple name. A name without a dot gets the enclosing
/// namespace.
fn split<'a>(
    alloc: Global,
    text: &'a str,
    enclosing: &Namespace,
) -> Result<(Namespace, &'a str), NameError>
    requires { is_dotted_name text.now ≡ true }
    ensures parts { IfOk result (λ parts. split_name text.now enclosing.now ≡ record { namespace = parts.0; simple = parts.1.now }) }
    ensures good { IfOk result (λ parts. is_simple_name parts.1.now ≡ true) }
    ensures refused { IfErr result (λ e. e ≡ NameError.OutOfMemory) }
{
    match text.rsplit_once('.') {
        Some((namespace, simple)) => Ok((Namespace::of_text(alloc, namespace)?, simple)),
        None => Ok((enclosing.clone()?, text)),
    }
}

impl FullName {
    ghost use Rattle.std.specs.Prelude.{◌≡◌, ◌⊎◌, true, Some, Ok, IfOk, IfErr, IsErrOf};
    ghost use Rattle.avro_name.specs.Name.{Name, is_full_name, name_of};
    ghost use Rattle.avro_name.specs.NameFault.{IsNameFault};

    /// Reads the fullname that a text means inside a namespace: with a dot its own, without one in that namespace. Each text that
    /// means one is read.
    ///
    /// # Errors
    ///
    /// `EmptyPart`, `BadCharacter` or `PrimitiveName` if the text has that fault; `OutOfMemory`.
    pub fn read(alloc: Global, text: &str, enclosing: &Namespace) -> Result<FullName, NameError>
        ensures found { IfOk result (λ name. name_of text.now enclosing.now ≡ Some name) }
        ensures named { (name : Name) → name_of text.now enclosing.now ≡ Some name → IsErrOf result NameError.OutOfMemory ⊎ (result ≡ Ok name) }
        ensures refused { IfErr result (IsNameFault text.now enclosing.now) }
    {
        check_dotted_name(text.as_bytes())?;
        let (namespace, simple) = split(alloc, text, enclosing)?;
        if is_primitive_word(simple) {
            return Err(NameError::PrimitiveName);
        }
        FullName::from_parts(alloc, namespace, simple)
    }

    /// The simple name: the part after the last dot.
    pub fn simple(&self) -> &str
        ensures part { result.now ≡ self.now.simple }
        ensures full_name { is_full_name self.now ≡ true }
    {
        self.simple.as_str()
    }

    /// The namespace as text; empty for the null namespace.
    pub fn namespace(&self) -> &str
        ensures part { result.now ≡ self.now.namespace }
        ensures full_name { is_full_name self.now ≡ true }
    {
        self.namespace.as_str()
    }

    /// The namespace, which encloses the names inside a record of this name.
    pub fn space(&self) -> &Namespace
        ensures { result.now ≡ self.now.namespace }
    {
        &self.namespace
    }

    /// Makes a fullname from a namespace and a simple name.
    fn from_parts(alloc: Global, namespace: Namespace, simple: &str) -> Result<FullName, NameError>
        requires { is_full_name (record { namespace = namespace; simple = simple.now }) ≡ true }
        ensures { IsErrOf result NameError.OutOfMemory ⊎ (result ≡ Ok (record { namespace = namespace; simple = simple.now })) }
    {
        Ok(FullName {
            namespace,
            simple: String::from_str(alloc, simple)?,
        })
    }
}

impl Clone for FullName {
    ghost is_clone = { λ a b. b ≡ a };

    fn clone(&self) -> Result<FullName, AllocError> {
        Ok(FullName {
            namespace: self.namespace.clone()?,
            simple: self.simple.clone()?,
        })
    }
}

impl PartialEq for FullName {
    ghost eq = { same_name };

    ghost laws = { Prim.search (comparing, rules) };

    fn eq(&self, other: &FullName) -> bool {
        self.simple() == other.simple() && self.namespace() == other.namespace()
    }
}

impl Eq for FullName {
    ghost laws = { Prim.search (comparing, rules) };
}

impl PartialOrd for FullName {
    ghost partial_cmp = { as_partial_cmp (then_cmp (on (λ n. n.simple) (slice_cmp nat_cmp)) (on (λ n. n.namespace) (slice_cmp nat_cmp))) };

    ghost laws = { partial_order_from_own_ties (Prim.search (comparing, rules)) (Prim.search (comparing, rules)) };

    fn partial_cmp(&self, other: &FullName) -> Option<Ordering> {
        Some(self.cmp(other))
    }
}

impl Ord for FullName {
    ghost cmp = { then_cmp (on (λ n. n.simple) (slice_cmp nat_cmp)) (on (λ n. n.namespace) (slice_cmp nat_cmp)) };

    ghost total = { Prim.search (comparing, rules) };

    ghost matches_partial_cmp = { Prim.search (comparing, rules) };

    ghost matches_eq = { Prim.search (comparing, rules) };

    fn cmp(&self, other: &FullName) -> Ordering {
        match self.simple().cmp(other.simple()) {
            Ordering::Equal => self.namespace().cmp(other.namespace()),
            unequal => unequal,
        }
    }
}

impl Hash for FullName {
    ghost hash_input = { λ n. fed.str n.simple ++ fed.str n.namespace };

    ghost respects_eq = { Prim.search (hashing, rules) };

    fn hash<H: Hasher>(&self, state: &mut H) {
        self.simple().hash(state);
        self.namespace().hash(state);
    }
}
