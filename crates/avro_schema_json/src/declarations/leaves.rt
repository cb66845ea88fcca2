//! The types without parts: primitive types and references, enums, fixeds.

ghost use Rattle.std.specs.Prelude.{IfOk, IfErr, OnOk};
ghost use Rattle.avro_schema_json.specs.Declares.{type_of_word};
ghost use Rattle.avro_schema_json.specs.inside.Reading.{enum_meaning, fixed_meaning};
ghost use Rattle.avro_schema_json.specs.inside.ReadingSeen.{ReadsNode, RefusesAt, IsEnclosed, Keeps};
ghost use Rattle.serde_json.specs.View.{members_view};

use crate::declarations::attributes::{Members, aliases, size, symbols};
use crate::declarations::name_table::Space;
use crate::declarations::progress::{Definition, Progress};
use crate::declarations::words::{Word, word_of};
use crate::error::SchemaError;
use crate::raw::{RawEnum, RawNode};
use crate::symbol_indices::known_indices;
use avro_schema::{EnumNode, FixedNode, NodeId};
use std::alloc::Global;

impl Progress<'_> {
    /// A type that a word names.
    pub(crate) fn read_word(
        &mut self,
        alloc: Global,
        enclosing: &Space,
        word: &str,
    ) -> Result<NodeId, SchemaError>
        requires { IsEnclosed self.old enclosing.now }
        ensures read { IfOk result (ReadsNode (type_of_word word.now) enclosing.now.namespace self.old self.new) }
        ensures refused { IfErr result (RefusesAt (type_of_word word.now) enclosing.now.namespace self.old) }
        ensures kept { OnOk result (Keeps self.old self.new) }
    {
        match word_of(word) {
            Word::Null => self.add(RawNode::Null),
            Word::Boolean => self.add(RawNode::Boolean),
            Word::Int => self.add(RawNode::Int),
            Word::Long => self.add(RawNode::Long),
            Word::Bytes => self.add(RawNode::Bytes),
            Word::Str => self.add(RawNode::Str),
            Word::Unsupported => Err(SchemaError::UnsupportedType),
            Word::TypeName => self.find(alloc, enclosing, word),
        }
    }

    /// An enum.
    pub(crate) fn read_enum(
        &mut self,
        alloc: Global,
        enclosing: &Space,
        members: &Members,
    ) -> Result<NodeId, SchemaError>
        requires { IsEnclosed self.old enclosing.now }
        ensures read { IfOk result (ReadsNode (enum_meaning (members_view members.now.entries)) enclosing.now.namespace self.old self.new) }
        ensures refused { IfErr result (RefusesAt (enum_meaning (members_view members.now.entries)) enclosing.now.namespace self.old) }
        ensures kept { OnOk result (Keeps self.old self.new) }
    {
        let Definition { id, name, space } = self.begin(alloc, enclosing, members)?;
        let aliases = aliases(alloc, &space.namespace, members)?;
        let (symbols, default) = symbols(alloc, members)?;
        let indices = known_indices(alloc, self.seed, &symbols)?;
        let node = EnumNode {
            name,
            aliases,
            symbols,
            default,
        };
        self.put(id, RawNode::Enum(RawEnum { node, indices }));
        Ok(id)
    }

    /// A fixed.
    pub(crate) fn read_fixed(
        &mut self,
        alloc: Global,
        enclosing: &Space,
        members: &Members,
    ) -> Result<NodeId, SchemaError>
        requires { IsEnclosed self.old enclosing.now }
        ensures read { IfOk result (ReadsNode (fixed_meaning (members_view members.now.entries)) enclosing.now.namespace self.old self.new) }
        ensures refused { IfErr result (RefusesAt (fixed_meaning (members_view members.now.entries)) enclosing.now.namespace self.old) }
        ensures kept { OnOk result (Keeps self.old self.new) }
    {
        let Definition { id, name, space } = self.begin(alloc, enclosing, members)?;
        let aliases = aliases(alloc, &space.namespace, members)?;
        let size = size(members)?;
        self.put(
            id,
            RawNode::Fixed(FixedNode {
                name,
                aliases,
                size,
            }),
        );
        Ok(id)
    }
}
