//! What a tree declares (Avro 1.11, "Schema Declaration"): its nodes, in the order in which they begin.

ghost use Rattle.std.specs.Prelude.{◌≡◌, [], IfOk, IfErr, OnOk};
ghost use Rattle.avro_schema_json.specs.Declares.{made_of, meaning_of, union_of, branches_of, fields_from, field_meaning};
ghost use Rattle.avro_schema_json.specs.inside.Reading.{IsRefusal, array_meaning, map_meaning, record_meaning, fields_meaning};
ghost use Rattle.avro_schema_json.specs.inside.ReadingSeen.{ReadsAt, ReadsNode, RefusesAt, IsEnclosed, Keeps};
ghost use Rattle.avro_schema_json.specs.inside.SeenRaw.{raw_nodes_of, raw_field_of, raw_fields_of};
ghost use Rattle.serde_json.specs.Data.{object};
ghost use Rattle.serde_json.specs.View.{view, items_view, members_view};

pub(crate) mod attributes;
mod leaves;
mod name_key;
mod name_table;
mod progress;
pub(crate) mod words;

use crate::declarations::attributes::{Members, alias_texts, aliases, field_name, form, member};
use crate::declarations::name_table::{NameTable, Space};
use crate::declarations::progress::{Definition, Progress};
use crate::declarations::words::Form;
use crate::error::SchemaError;
use crate::raw::{RawField, RawNode, RawRecord};
use crate::seeds::Seeds;
use avro_name::Namespace;
use avro_schema::NodeId;
use serde_json::Value;
use std::alloc::Global;

impl<'a> Progress<'a> {
    /// The type that a tree declares.
    #[cycle(types)]
    fn read_type(
        &mut self,
        alloc: Global,
        enclosing: &Space,
        tree: &'a Value,
    ) -> Result<NodeId, SchemaError>
        requires { IsEnclosed self.old enclosing.now }
        ensures read { IfOk result (ReadsNode (meaning_of (view tree.now)) enclosing.now.namespace self.old self.new) }
        ensures refused { IfErr result (RefusesAt (meaning_of (view tree.now)) enclosing.now.namespace self.old) }
        ensures kept { OnOk result (Keeps self.old self.new) }
    {
        match tree {
            Value::String(word) => self.read_word(alloc, enclosing, word.as_str()),
            Value::Array(branches) => self.read_union(alloc, enclosing, branches),
            Value::Object(members) => self.read_object(alloc, enclosing, members),
            Value::Null | Value::Bool(_) | Value::Number(_) => {
                Err(SchemaError::InvalidDeclaration)
            }
        }
    }

    /// A union of its branches in order.
    #[cycle(types)]
    fn read_union(
        &mut self,
        alloc: Global,
        enclosing: &Space,
        branches: &'a [Value],
    ) -> Result<NodeId, SchemaError>
        requires { IsEnclosed self.old enclosing.now }
        ensures read { IfOk result (ReadsNode (union_of (branches_of (items_view branches.now))) enclosing.now.namespace self.old self.new) }
        ensures refused { IfErr result (RefusesAt (union_of (branches_of (items_view branches.now))) enclosing.now.namespace self.old) }
        ensures kept { OnOk result (Keeps self.old self.new) }
    {
        let id = self.reserve()?;
        let mut ids = Vec::with_capacity(alloc, branches.len())?;
        for branch in branches {
            ids.push(self.read_type(alloc, enclosing, branch)?)?;
        }
        self.put(id, RawNode::Union(ids));
        Ok(id)
    }

    /// The type that an object declares.
    #[cycle(types)]
    fn read_object(
        &mut self,
        alloc: Global,
        enclosing: &Space,
        members: &'a Members,
    ) -> Result<NodeId, SchemaError>
        requires { IsEnclosed self.old enclosing.now }
        ensures read { IfOk result (ReadsNode (meaning_of (object (members_view members.now.entries))) enclosing.now.namespace self.old self.new) }
        ensures refused { IfErr result (RefusesAt (meaning_of (object (members_view members.now.entries))) enclosing.now.namespace self.old) }
        ensures kept { OnOk result (Keeps self.old self.new) }
    {
        match form(members) {
            Form::Record => self.read_record(alloc, enclosing, members),
            Form::Enum => self.read_enum(alloc, enclosing, members),
            Form::Fixed => self.read_fixed(alloc, enclosing, members),
            Form::Array => match members.get("items") {
                Some(items) => self.read_array(alloc, enclosing, items),
                None => Err(SchemaError::InvalidDeclaration),
            },
            Form::Map => match members.get("values") {
                Some(values) => self.read_map(alloc, enclosing, values),
                None => Err(SchemaError::InvalidDeclaration),
            },
            Form::Error => Err(SchemaError::UnsupportedType),
            Form::Word(word) => self.read_word(alloc, enclosing, word),
            Form::Missing => Err(SchemaError::InvalidDeclaration),
        }
    }

    /// An array of a type.
    #[cycle(types)]
    fn read_array(
        &mut self,
        alloc: Global,
        enclosing: &Space,
        items: &'a Value,
    ) -> Result<NodeId, SchemaError>
        requires { IsEnclosed self.old enclosing.now }
        ensures read { IfOk result (ReadsNode (array_meaning (view items.now)) enclosing.now.namespace self.old self.new) }
        ensures refused { IfErr result (RefusesAt (array_meaning (view items.now)) enclosing.now.namespace self.old) }
        ensures kept { OnOk result (Keeps self.old self.new) }
    {
        let id = self.reserve()?;
        let part = self.read_type(alloc, enclosing, items)?;
        self.put(id, RawNode::Array(part));
        Ok(id)
    }

    /// A map of a type.
    #[cycle(types)]
    fn read_map(
        &mut self,
        alloc: Global,
        enclosing: &Space,
        values: &'a Value,
    ) -> Result<NodeId, SchemaError>
        requires { IsEnclosed self.old enclosing.now }
        ensures read { IfOk result (ReadsNode (map_meaning (view values.now)) enclosing.now.namespace self.old self.new) }
        ensures refused { IfErr result (RefusesAt (map_meaning (view values.now)) enclosing.now.namespace self.old) }
        ensures kept { OnOk result (Keeps self.old self.new) }
    {
        let id = self.reserve()?;
        let part = self.read_type(alloc, enclosing, values)?;
        self.put(id, RawNode::Map(part));
        Ok(id)
    }

    /// A record.
    #[cycle(types)]
    fn read_record(
        &mut self,
        alloc: Global,
        enclosing: &Space,
        members: &'a Members,
    ) -> Result<NodeId, SchemaError>
        requires { IsEnclosed self.old enclosing.now }
        ensures read { IfOk result (ReadsNode (record_meaning (members_view members.now.entries)) enclosing.now.namespace self.old self.new) }
        ensures refused { IfErr result (RefusesAt (record_meaning (members_view members.now.entries)) enclosing.now.namespace self.old) }
        ensures kept { OnOk result (Keeps self.old self.new) }
    {
        let Definition { id, name, space } = self.begin(alloc, enclosing, members)?;
        let aliases = aliases(alloc, &space.namespace, members)?;
        let fields = match members.get("fields") {
            Some(list) => self.read_fields(alloc, &space, list)?,
            None => return Err(SchemaError::InvalidDeclaration),
        };
        self.put(
            id,
            RawNode::Record(RawRecord {
                name,
                aliases,
                fields,
            }),
        );
        Ok(id)
    }

    /// The fields of a record in order.
    #[cycle(types)]
    fn read_fields(
        &mut self,
        alloc: Global,
        enclosing: &Space,
        list: &'a Value,
    ) -> Result<Vec<RawField<'a>>, SchemaError>
        requires { IsEnclosed self.old enclosing.now }
        ensures read { IfOk result (λ fields. ReadsAt (fields_meaning (fields_from (view list.now))) enclosing.now.namespace self.old self.new (raw_fields_of fields.items)) }
        ensures refused { IfErr result (RefusesAt (fields_meaning (fields_from (view list.now))) enclosing.now.namespace self.old) }
        ensures kept { OnOk result (Keeps self.old self.new) }
    {
        let Value::Array(items) = list else {
            return Err(SchemaError::InvalidDeclaration);
        };
        let mut fields = Vec::with_capacity(alloc, items.len())?;
        for item in items {
            fields.push(self.read_field(alloc, enclosing, item)?)?;
        }
        Ok(fields)
    }

    /// A field of a record.
    #[cycle(types)]
    fn read_field(
        &mut self,
        alloc: Global,
        enclosing: &Space,
        item: &'a Value,
    ) -> Result<RawField<'a>, SchemaError>
        requires { IsEnclosed self.old enclosing.now }
        ensures read { IfOk result (λ field. ReadsAt (field_meaning (view item.now)) enclosing.now.namespace self.old self.new (raw_field_of field)) }
        ensures refused { IfErr result (RefusesAt (field_meaning (view item.now)) enclosing.now.namespace self.old) }
        ensures kept { OnOk result (Keeps self.old self.new) }
    {
        let Value::Object(members) = item else {
            return Err(SchemaError::InvalidDeclaration);
        };
        let name = field_name(alloc, members)?;
        let aliases = alias_texts(alloc, members)?;
        let node = match members.get("type") {
            Some(tree) => self.read_type(alloc, enclosing, tree)?,
            None => return Err(SchemaError::InvalidDeclaration),
        };
        Ok(RawField {
            name,
            aliases,
            node,
            default: member(members, "default"),
        })
    }
}

/// The nodes that a tree declares, in the order in which they begin.
pub(crate) fn declarations<'a>(
    alloc: Global,
    seeds: Seeds,
    tree: &'a Value,
) -> Result<Vec<RawNode<'a>>, SchemaError>
    ensures found { IfOk result (λ raws. ((made_of (view tree.now)).faults ≡ []) × (raw_nodes_of raws.items ≡ (made_of (view tree.now)).nodes)) }
    ensures refused { IfErr result (IsRefusal (made_of (view tree.now)).faults) }
{
    let mut progress = Progress {
        seed: seeds.defaults,
        nodes: Vec::new(alloc),
        names: NameTable::new(alloc, seeds.names),
    };
    let root = progress.names.space(&Namespace::null(alloc))?;
    progress.read_type(alloc, &root, tree)?;
    let Progress {
        seed: _,
        nodes,
        names: _,
    } = progress;
    Ok(nodes)
}
