//! The names that are known.

ghost use Rattle.std.proofs.Props.{props};
ghost use Rattle.avro_schema_json.specs.inside.KnownNames.{AreNumbered};

use crate::declarations::name_key::NameKey;
use avro_name::{FullName, Namespace};
use avro_texts::Seeded;
use indexmap::{IndexMap, IndexSet};
use std::alloc::{AllocError, Global};

/// A namespace, and its number in a table of names.
#[derive(Drop)]
pub(crate) struct Space {
    pub namespace: Namespace,
    pub number: u32,
}

/// The names of the definitions that have begun, in their order, with the ids of their nodes.
///
/// The namespaces are numbered, and a name is found by the number of its namespace and its simple
/// part, so that a long namespace is not looked at for each name in it. The hashes of names begin
/// with a digest of all of them, so that no choice of names makes it slow.
#[derive(Drop)]
pub(crate) struct NameTable {
    numbers: IndexSet<Namespace, Seeded>,
    ids: IndexMap<(u32, String), u32, Seeded>,
    ghost agree: { AreNumbered numbers ids } by { Prim.hlevel props },
}

impl NameTable {
    ghost use Rattle.std.specs.Prelude.{◌≡◌, ℕ, List, [], None, Some, IfOk, OnOk};
    ghost use Rattle.avro_schema_json.specs.Declares.{id_of, defining};
    ghost use Rattle.avro_schema_json.specs.inside.KnownNames.{number_of};
    ghost use Rattle.avro_schema_json.specs.inside.KnownSeen.{known_of, IsNumbered, KeepsNumbers};

    /// No names.
    pub fn new(alloc: Global, seed: Seeded) -> NameTable
        ensures { known_of result ≡ [] }
    {
        NameTable {
            numbers: IndexSet::with_hasher(alloc, seed),
            ids: IndexMap::with_hasher(alloc, seed),
        }
    }

    /// A namespace with its number, which it is given where it has none.
    pub fn space(&mut self, namespace: &Namespace) -> Result<Space, AllocError>
        ensures namespace { IfOk result (λ space. space.namespace ≡ namespace.now) }
        ensures numbered { IfOk result (λ space. IsNumbered self.new space) }
        ensures known { known_of self.new ≡ known_of self.old }
        ensures kept { KeepsNumbers self.old self.new }
    {
        let copy = namespace.clone()?;
        let number = self.add_number(namespace)?;
        Ok(Space {
            namespace: copy,
            number,
        })
    }

    /// The number of a namespace, which it is given where it has none.
    fn add_number(&mut self, namespace: &Namespace) -> Result<u32, AllocError>
        ensures numbered { IfOk result (λ number. number_of self.new.numbers namespace.now ≡ Some number) }
        ensures known { known_of self.new ≡ known_of self.old }
        ensures kept { KeepsNumbers self.old self.new }
    {
        let key = namespace.clone()?;
        let (number, _) = self.numbers.insert_full(key)?;
        match u32::try_from(number) {
            Ok(number) => Ok(number),
            Err(_) => Err(AllocError),
        }
    }

    /// The id of the definition of a name.
    pub fn id(&self, name: &FullName) -> Result<Option<u32>, AllocError>
        ensures { IfOk result (λ id. id ≡ id_of name.now (known_of self.now)) }
    {
        match self.numbers.get_index_of(name.space()) {
            Some(i) => {
                let Ok(number) = u32::try_from(i) else {
                    return Err(AllocError);
                };
                Ok(self.id_in(number, name.simple()))
            }
            None => Ok(None),
        }
    }

    /// The id of the definition of a simple name in the namespace of this number.
    pub fn id_in(&self, number: u32, simple: &str) -> Option<u32>
        ensures { (namespace : List ℕ) → number_of self.now.numbers namespace ≡ Some number
            → result ≡ id_of (record { namespace = namespace; simple = simple.now }) (known_of self.now) }
    {
        let key = NameKey { number, simple };
        self.ids.get(key).copied()
    }

    /// Adds a name that is not known, in a numbered namespace.
    pub fn add(
        &mut self,
        alloc: Global,
        space: &Space,
        name: &FullName,
        id: u32,
    ) -> Result<(), AllocError>
        requires { IsNumbered self.old space.now × (space.now.namespace ≡ name.now.namespace) × (id_of name.now (known_of self.old) ≡ None) }
        ensures added { OnOk result (known_of self.new ≡ defining name.now id (known_of self.old)) }
        ensures kept { KeepsNumbers self.old self.new }
    {
        let text = String::from_str(alloc, name.simple())?;
        let key = (space.number, text);
        self.ids.insert(key, id)?;
        Ok(())
    }
}
