ghost use Rattle.std.specs.Prelude.{◌≡◌, ◌<◌, true, Some, length, slice_set, IfOk, IfErr, Contains};
ghost use Rattle.avro_name.specs.Name.{name_of};
ghost use Rattle.avro_schema.specs.Node.Node.{null as NullNode};
ghost use Rattle.avro_schema_json.specs.DeclaredAttributes.{name_in};
ghost use Rattle.avro_schema_json.specs.Declares.RawNode.{plain as plain_node};
ghost use Rattle.avro_schema_json.specs.Declares.{reference, id_of};
ghost use Rattle.avro_schema_json.specs.inside.Reading.{made_at, IsRead, IsRefusal, IsAdded, IsBegun, limit_faults, beginning_faults};
ghost use Rattle.avro_schema_json.specs.inside.ReadingSeen.{state_of, IsEnclosed, Keeps};
ghost use Rattle.avro_schema_json.specs.inside.SeenRaw.{raw_node_of};
ghost use Rattle.serde_json.specs.View.{members_view};

use crate::declarations::attributes::{Members, full_name, has_dot, inherits, member, name, text};
use crate::declarations::name_table::{NameTable, Space};
use crate::error::SchemaError;
use crate::raw::RawNode;
use avro_name::FullName;
use avro_schema::{NodeId, Schema};
use avro_texts::Seeded;
use std::alloc::{AllocError, Global};

/// The nodes of a declaration that is being read, in the order in which they begin, and the
/// definitions that are known.
#[derive(Drop)]
pub(crate) struct Progress<'a> {
    /// The seed of the tables of symbols, if defaults are looked up in them.
    pub seed: Option<Seeded>,
    pub nodes: Vec<RawNode<'a>>,
    pub names: NameTable,
}

/// A definition that has begun.
#[derive(Drop)]
pub(crate) struct Definition {
    pub id: NodeId,
    pub name: FullName,
    /// The namespace of its parts, which is that of its name.
    pub space: Space,
}

impl<'a> Progress<'a> {
    /// Adds a node.
    pub fn add(&mut self, node: RawNode<'a>) -> Result<NodeId, SchemaError>
        ensures added { IfOk result (λ id. IsAdded (state_of self.old) (state_of self.new) (raw_node_of node.entry) id.0) }
        ensures refused { IfErr result (IsRefusal (limit_faults (state_of self.old))) }
        ensures kept { Keeps self.old self.new }
    {
        let id = self.nodes.len();
        if id >= Schema::MAX_NODES {
            return Err(SchemaError::LimitExceeded);
        }
        self.nodes.push(node)?;
        Ok(NodeId(id as u32))
    }

    /// Reserves an id for a node whose parts come after it.
    pub fn reserve(&mut self) -> Result<NodeId, SchemaError>
        ensures added { IfOk result (λ id. IsAdded (state_of self.old) (state_of self.new) (plain_node NullNode) id.0) }
        ensures refused { IfErr result (IsRefusal (limit_faults (state_of self.old))) }
        ensures kept { Keeps self.old self.new }
    {
        self.add(RawNode::Null)
    }

    /// Sets the node of an id.
    pub fn put(&mut self, id: NodeId, node: RawNode<'a>)
        requires { id.0 < length (state_of self.old).nodes }
        ensures nodes { (state_of self.new).nodes ≡ slice_set (state_of self.old).nodes id.0 (raw_node_of node.entry) }
        ensures names { (state_of self.new).known ≡ (state_of self.old).known }
        ensures kept { Keeps self.old self.new }
    {
        self.nodes[id.0 as usize] = node;
    }

    /// The node of the definition that a word refers to. Without a dot it is in the enclosing
    /// namespace, whose number is known.
    pub fn find(&self, alloc: Global, enclosing: &Space, word: &str) -> Result<NodeId, SchemaError>
        requires { IsEnclosed self.now enclosing.now }
        ensures found { IfOk result (λ id. IsRead (made_at (reference word.now) enclosing.now.namespace (state_of self.now)) (state_of self.now) (state_of self.now) id.0) }
        ensures refused { IfErr result (IsRefusal (made_at (reference word.now) enclosing.now.namespace (state_of self.now)).faults) }
    {
        let name = full_name(alloc, word, &enclosing.namespace)?;
        let id = self.id_of_word(enclosing, word, &name)?;
        match id {
            Some(id) => Ok(NodeId(id)),
            None => Err(SchemaError::UnknownName),
        }
    }

    /// The id of the definition that a word refers to, which means this name.
    fn id_of_word(
        &self,
        enclosing: &Space,
        word: &str,
        name: &FullName,
    ) -> Result<Option<u32>, AllocError>
        requires { IsEnclosed self.now enclosing.now × (name_of word.now enclosing.now.namespace ≡ Some name.now) }
        ensures { IfOk result (λ id. id ≡ id_of name.now (state_of self.now).known) }
    {
        if has_dot(word) {
            return self.names.id(name);
        }
        Ok(self.names.id_in(enclosing.number, name.simple()))
    }

    /// The numbered namespace of a definition's name, which may be inherited: it is the enclosing one.
    fn space_of(
        &mut self,
        enclosing: &Space,
        inherited: bool,
        name: &FullName,
    ) -> Result<Space, AllocError>
        requires { IsEnclosed self.old enclosing.now × (inherited ≡ true → name.now.namespace ≡ enclosing.now.namespace) }
        ensures namespace { IfOk result (λ space. space.namespace ≡ name.now.namespace) }
        ensures numbered { IfOk result (λ space. IsEnclosed self.new space) }
        ensures state { state_of self.new ≡ state_of self.old }
        ensures kept { Keeps self.old self.new }
    {
        if inherited {
            return Ok(Space {
                namespace: enclosing.namespace.clone()?,
                number: enclosing.number,
            });
        }
        self.names.space(name.space())
    }

    /// Begins a definition: reads its name, which is known from now on, and reserves an id for it.
    pub fn begin(
        &mut self,
        alloc: Global,
        enclosing: &Space,
        members: &Members,
    ) -> Result<Definition, SchemaError>
        requires { IsEnclosed self.old enclosing.now }
        ensures begun { IfOk result (λ d. IsBegun enclosing.now.namespace (members_view members.now.entries) (state_of self.old) (state_of self.new) d.name d.id.0) }
        ensures namespace { IfOk result (λ d. d.space.namespace ≡ d.name.namespace) }
        ensures numbered { IfOk result (λ d. IsEnclosed self.new d.space) }
        ensures refused { IfErr result (IsRefusal (beginning_faults (state_of self.old) (name_in enclosing.now.namespace (members_view members.now.entries)))) }
        ensures kept { Keeps self.old self.new }
    {
        let word = text(members, "name");
        let own = member(members, "namespace");
        let name = name(alloc, &enclosing.namespace, word, own)?;
        let space = self.space_of(enclosing, inherits(word, own), &name)?;
        if self.names.id_in(space.number, name.simple()).is_some() {
            return Err(SchemaError::DuplicateName);
        }
        let id = self.reserve()?;
        self.names.add(alloc, &space, &name, id.0)?;
        Ok(Definition { id, name, space })
    }
}
