//! Data without parts.

ghost use Rattle.std.specs.Prelude.{◌≡◌, Bool, ℕ, ℤ, IfSome, List, pos, true};
ghost use Rattle.avro_schema.specs.Fits.{fits};
ghost use Rattle.avro_schema.specs.Node.{Node as SeenNode};
ghost use Rattle.avro_schema.specs.Seen.{node_of};
ghost use Rattle.avro_schema.specs.Value.{Value};
ghost use Rattle.avro_zigzag.specs.Number.{SpellsInt, SpellsLong};
ghost use Rattle.avro_cursor.specs.Encoding.{Spells, SpellsBytes};
ghost use Rattle.avro_binary.specs.CursorReads.{ReadsNode};
ghost use Rattle.avro_binary.specs.LeafValue.{IsLeafOf, has_no_parts, leaf_value};
ghost use Rattle.avro_binary.specs.Making.{Made};

use crate::leaf::Leaf;
use crate::make::Make;
use avro_cursor::{Cursor, ReadError, drop_content, text_of};
use avro_schema::Node;
use avro_zigzag::read_long;
use std::alloc::Global;

/// Reads the datum of a node without parts, and makes it. A node with parts is read as null, and is not asked for.
#[inline(always)]
pub(crate) fn read_leaf<M: Make>(
    alloc: Global,
    node: &Node,
    cursor: &mut Cursor<'_>,
    maker: &mut M,
    at: M::At,
) -> Result<M::Out, ReadError>
    ensures reads { (nodes : List SeenNode) → has_no_parts (node_of node.now) ≡ true
        → ReadsNode (Made M.keeps (λ m. M.stands_for m nodes (node_of node.now) at) maker.old maker.new) nodes (node_of node.now) cursor.old cursor.new result }
    ensures stays { (front : List ℕ) → M.begins maker.old front → M.begins maker.new front }
{
    let read = next_leaf(node, cursor)?;
    Ok(maker.leaf(alloc, at, read)?)
}

/// Reads the datum of a node without parts.
#[inline(always)]
pub(crate) fn next_leaf<'c>(node: &Node, cursor: &mut Cursor<'c>) -> Result<Leaf<'c>, ReadError>
    ensures { (nodes : List SeenNode) → has_no_parts (node_of node.now) ≡ true → ReadsNode IsLeafOf nodes (node_of node.now) cursor.old cursor.new result }
{
    cursor.count()?;
    match node {
        Node::Boolean => {
            let value = cursor.boolean()?;
            Ok(Leaf::Boolean(value))
        }
        Node::Int => {
            let value = cursor.int()?;
            Ok(Leaf::Int(value))
        }
        Node::Long => {
            let value = cursor.long()?;
            Ok(Leaf::Long(value))
        }
        Node::Bytes => {
            let content = cursor.bytes()?;
            drop_content(content);
            Ok(Leaf::Bytes(content))
        }
        Node::Str => {
            let text = cursor.string()?;
            Ok(Leaf::Text(text))
        }
        Node::Enum(enumeration) => {
            let index = cursor.index(enumeration.symbols.len())?;
            Ok(Leaf::Symbol(index as u32))
        }
        Node::Fixed(fixed) => {
            let content = cursor.fixed(fixed.size)?;
            drop_content(content);
            Ok(Leaf::Fixed(content))
        }
        _ => Ok(Leaf::Null),
    }
}

/// The datum without parts of a node that is encoded as these bytes. No clause says that there is one.
#[inline(always)]
pub fn leaf_of<'b>(node: &Node, bytes: &'b [u8]) -> Option<Leaf<'b>>
    ensures { (nodes : List SeenNode) (v : Value) → fits nodes (node_of node.now) v ≡ true → Spells v bytes.now → IfSome result (λ leaf. leaf_value leaf ≡ v) }
{
    match node {
        Node::Null => Some(Leaf::Null),
        Node::Boolean => Some(Leaf::Boolean(is_true(bytes))),
        Node::Int => Some(Leaf::Int(int_of(bytes)?)),
        Node::Long => Some(Leaf::Long(number_of(bytes)?)),
        Node::Bytes => Some(Leaf::Bytes(content_of(bytes)?)),
        Node::Str => Some(Leaf::Text(string_of(bytes)?)),
        Node::Fixed(_) => Some(Leaf::Fixed(bytes)),
        Node::Enum(_) => Some(Leaf::Symbol(index_of(bytes)?)),
        Node::Array(_) | Node::Map(_) | Node::Union(_) | Node::Record(_) => None,
    }
}

/// Whether these bytes spell true.
#[inline(always)]
fn is_true(bytes: &[u8]) -> bool
    ensures { (b : Bool) → Spells (Value.boolean b) bytes.now → result ≡ b }
{
    bytes.first() == Some(&1)
}

/// The number that these bytes spell.
#[inline(always)]
fn number_of(bytes: &[u8]) -> Option<i64>
    ensures int { (i : ℤ) → SpellsInt i bytes.now → IfSome result (λ number. number ≡ i) }
    ensures long { (i : ℤ) → SpellsLong i bytes.now → IfSome result (λ number. number ≡ i) }
{
    match read_long(bytes) {
        Ok((number, _)) => Some(number),
        Err(_) => None,
    }
}

/// The int that these bytes spell.
#[inline(always)]
fn int_of(bytes: &[u8]) -> Option<i32>
    ensures { (i : ℤ) → SpellsInt i bytes.now → IfSome result (λ number. number ≡ i) }
{
    match i32::try_from(number_of(bytes)?) {
        Ok(number) => Some(number),
        Err(_) => None,
    }
}

/// The index that these bytes spell.
#[inline(always)]
fn index_of(bytes: &[u8]) -> Option<u32>
    ensures { (k : ℕ) → SpellsInt (pos k) bytes.now → IfSome result (λ index. index ≡ k) }
{
    match u32::try_from(number_of(bytes)?) {
        Ok(index) => Some(index),
        Err(_) => None,
    }
}

/// The content behind its length in these bytes.
#[inline(always)]
fn content_of(bytes: &[u8]) -> Option<&[u8]>
    ensures { (content : List ℕ) → SpellsBytes content bytes.now → IfSome result (λ c. c.now ≡ content) }
{
    match read_long(bytes) {
        Ok((_, len)) => {
            let (_, content) = bytes.split_at(len);
            Some(content)
        }
        Err(_) => None,
    }
}

/// The text behind its length in these bytes.
#[inline(always)]
fn string_of(bytes: &[u8]) -> Option<&str>
    ensures { (content : List ℕ) → SpellsBytes content bytes.now → IfSome result (λ text. text.now ≡ content) }
{
    match text_of(content_of(bytes)?) {
        Ok(text) => Some(text),
        Err(_) => None,
    }
}
