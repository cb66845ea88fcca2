ghost use Rattle.std.specs.Prelude.{◌≡◌, IfOk, option_map, string_bytes};
ghost use Rattle.avro_schema.specs.Fits.{is_null_node};
ghost use Rattle.avro_schema.specs.Seen.{node_of};
ghost use Rattle.avro_display.specs.DisplayTree.{name_text, branch_key as key_of_branch, symbol_at};
ghost use Rattle.avro_display.specs.Table.{opening_of};

use crate::text::Text;
use avro_name::FullName;
use avro_schema::{Memory, Node};
use std::alloc::Global;

/// A copy of a text.
fn copy_of_text(alloc: Global, text: &str) -> Result<String, Memory>
    ensures { IfOk result (λ copy. string_bytes copy ≡ text.now) }
{
    Ok(String::from_str(alloc, text)?)
}

/// The symbol of an enum at an index; empty if there is none.
pub fn symbol_text(node: &Node, index: u32) -> &str
    ensures { result.now ≡ symbol_at (node_of node.now) index }
{
    match node {
        Node::Enum(enumeration) => match enumeration.symbols.get(index as usize) {
            Some(symbol) => symbol.as_str(),
            None => "",
        },
        _ => "",
    }
}

/// A fullname as text.
fn full_text(alloc: Global, name: &FullName) -> Result<String, Memory>
    ensures { IfOk result (λ text. string_bytes text ≡ name_text name.now) }
{
    let namespace = name.namespace();
    if namespace.is_empty() {
        return copy_of_text(alloc, name.simple());
    }
    let mut text = copy_of_text(alloc, namespace)?;
    text.push('.')?;
    text.push_str(name.simple())?;
    Ok(text)
}

/// The key of a union's branch.
fn branch_key(alloc: Global, node: &Node) -> Result<String, Memory>
    ensures { IfOk result (λ text. string_bytes text ≡ key_of_branch (node_of node.now)) }
{
    match node {
        Node::Null => copy_of_text(alloc, "null"),
        Node::Boolean => copy_of_text(alloc, "boolean"),
        Node::Int => copy_of_text(alloc, "int"),
        Node::Long => copy_of_text(alloc, "long"),
        Node::Bytes => copy_of_text(alloc, "bytes"),
        Node::Str => copy_of_text(alloc, "string"),
        Node::Array(_) => copy_of_text(alloc, "array"),
        Node::Map(_) => copy_of_text(alloc, "map"),
        Node::Union(_) => Ok(String::new(alloc)),
        Node::Record(record) => full_text(alloc, &record.name),
        Node::Enum(enumeration) => full_text(alloc, &enumeration.name),
        Node::Fixed(fixed) => full_text(alloc, &fixed.name),
    }
}

/// Whether a node is null.
fn is_null(node: &Node) -> bool
    ensures { result ≡ is_null_node (node_of node.now) }
{
    matches!(node, Node::Null)
}

/// The text before the value of a union's branch; none if the branch is null.
pub(crate) fn opening(alloc: Global, node: &Node) -> Result<Option<Vec<u8>>, Memory>
    ensures { IfOk result (λ text. option_map (λ t. t.items) text ≡ opening_of (node_of node.now)) }
{
    if is_null(node) {
        return Ok(None);
    }
    let key = branch_key(alloc, node)?;
    let mut text = Text::new(alloc);
    text.append_byte(b'{')?;
    text.append_key(key.as_str())?;
    Ok(Some(text.into_inner()))
}
