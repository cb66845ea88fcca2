//! Which of a writer's symbols the reader lacks.

ghost use Rattle.std.specs.Prelude.{◌≡◌, ◌<◌, ◌^◌, [], length, position, bytes_eq, unwrap_or, IfOk, IfSome, List, ℕ, true, false};
ghost use Rattle.avro_schema.specs.Node.{Node as SeenNode, node_at, symbols_of as texts_in};
ghost use Rattle.avro_schema.specs.Seen.{node_of, texts_of};
ghost use Rattle.avro_schema.specs.SeenSchema.{schema_nodes};
ghost use Rattle.avro_schema.proofs.public.Choices.{HasFewChoices};
ghost use Rattle.avro_compare.specs.Resolve.{enum_as, enum_or_default, symbol_at};
ghost use Rattle.avro_compare.specs.Pairs.{IsSymbol};
ghost use Rattle.avro_compare.specs.inside.NameTables.{symbols_at};
ghost use Rattle.avro_compare.specs.Children.{first_lacking, lacks};
ghost use Rattle.avro_compare.specs.Planned.{AreSymbols};

use crate::names::Names;
use avro_schema::{Node, NodeId, Schema};

/// The first index of a symbol.
fn index_of(symbols: &[String], symbol: &str) -> Option<usize>
    ensures index { result ≡ position (λ s. bytes_eq s symbol.now) (texts_of symbols.now) }
    ensures below { IfSome result (λ k. k < length symbols.now) }
{
    for index in 0..symbols.len() {
        if symbols[index].as_str() == symbol {
            return Some(index);
        }
    }
    None
}

/// An index, else the default.
fn or_default(index: Option<usize>, default: Option<u32>) -> Option<u32>
    requires { IfSome index (λ k. k < 2 ^ 32) }
    ensures { IsSymbol (enum_or_default index default) result }
{
    match index {
        Some(index) => Some(index as u32),
        None => default,
    }
}

/// The index of a symbol of a reader's node, or of its default.
fn symbol_in(node: &Node, symbol: &str) -> Option<u32>
    requires few { HasFewChoices (node_of node.now) }
    ensures { IsSymbol (enum_as symbol.now (node_of node.now)) result }
{
    match node {
        Node::Enum(enumeration) => {
            or_default(index_of(&enumeration.symbols, symbol), enumeration.default)
        }
        _ => None,
    }
}

/// The same of the node of an id.
pub(crate) fn symbol_of_id(reader: &Schema, q: NodeId, symbol: &str) -> Option<u32>
    ensures { IsSymbol (enum_as symbol.now (node_at (schema_nodes reader.now) q.0)) result }
{
    symbol_in(reader.get(q), symbol)
}

/// The text of a writer's symbol, and none where there is none.
fn text_at(node: &Node, symbol: usize) -> &str
    ensures { result.now ≡ symbol_at (node_of node.now) symbol }
{
    match node {
        Node::Enum(enumeration) => match enumeration.symbols.get(symbol) {
            Some(text) => text.as_str(),
            None => "",
        },
        _ => "",
    }
}

/// The reader's symbol for a writer's.
pub fn symbol_for(
    writer: &Schema,
    w: NodeId,
    symbol: u32,
    reader: &Schema,
    q: NodeId,
) -> Option<u32>
    ensures { IsSymbol (enum_as (symbol_at (node_at (schema_nodes writer.now) w.0) symbol) (node_at (schema_nodes reader.now) q.0)) result }
{
    symbol_of_id(reader, q, text_of(writer, w, symbol as usize))
}

/// The text of a symbol of a node, and none where there is none.
pub(crate) fn text_of(schema: &Schema, id: NodeId, symbol: usize) -> &str
    ensures { result.now ≡ symbol_at (node_at (schema_nodes schema.now) id.0) symbol }
{
    text_at(schema.get(id), symbol)
}

/// The symbols of a node, and none where it has none.
pub(crate) fn symbols_of(schema: &Schema, id: NodeId) -> &[String]
    ensures { texts_of result.now ≡ unwrap_or (texts_in (node_at (schema_nodes schema.now) id.0)) [] }
{
    schema.get(id).symbols().unwrap_or(&[])
}

/// The index of a symbol of a reader's enum that was looked up, or of its default.
pub(crate) fn symbol_of_place(
    reader: &Schema,
    q: NodeId,
    symbol: &str,
    index: Option<usize>,
) -> Option<u32>
    requires { index ≡ position (λ s. bytes_eq s symbol.now) (symbols_at (node_at (schema_nodes reader.now) q.0)) }
    ensures { IsSymbol (enum_as symbol.now (node_at (schema_nodes reader.now) q.0)) result }
{
    placed_symbol(reader.get(q), symbol, index)
}

/// The same, given the enum's node.
fn placed_symbol(node: &Node, _symbol: &str, index: Option<usize>) -> Option<u32>
    requires below { IfSome index (λ k. k < 2 ^ 32) }
    requires index { index ≡ position (λ s. bytes_eq s _symbol.now) (symbols_at (node_of node.now)) }
    ensures { IsSymbol (enum_as _symbol.now (node_of node.now)) result }
{
    match node {
        Node::Enum(enumeration) => or_default(index, enumeration.default),
        _ => None,
    }
}

/// The reader's symbol for the writer's at an index, as it is kept or else by name.
pub fn symbol_kept(
    names: &Names,
    w: NodeId,
    r: NodeId,
    kept: &[Option<u32>],
    index: usize,
) -> Option<u32>
    requires { AreSymbols (node_at (schema_nodes names.now.0) w.0) (node_at (schema_nodes names.now.1) r.0) kept.now }
    ensures { IsSymbol (enum_as (symbol_at (node_at (schema_nodes names.now.0) w.0) index) (node_at (schema_nodes names.now.1) r.0)) result }
{
    if index < kept.len() {
        kept[index]
    } else {
        names.symbol_at(w, index, r)
    }
}

/// The first of a writer's symbols that the reader lacks and has no default for. Those that are kept are not looked up.
pub(crate) fn find_lacking(
    names: &Names,
    w: NodeId,
    r: NodeId,
    kept: &[Option<u32>],
) -> Option<usize>
    requires { AreSymbols (node_at (schema_nodes names.now.0) w.0) (node_at (schema_nodes names.now.1) r.0) kept.now }
    ensures { result ≡ first_lacking (node_at (schema_nodes names.now.0) w.0) (node_at (schema_nodes names.now.1) r.0) }
{
    if has_default(names.reader().get(r)) {
        return None;
    }
    first_untaken(names, w, r, kept)
}

/// Whether a node is an enum with a default.
fn has_default(node: &Node) -> bool
    ensures { result ≡ true → (symbol : List ℕ) → lacks (node_of node.now) symbol ≡ false }
{
    match node {
        Node::Enum(enumeration) => enumeration.default.is_some(),
        _ => false,
    }
}

/// The same as [`find_lacking`], whether there is a default or not. It looks at no symbol after the one that it finds.
fn first_untaken(names: &Names, w: NodeId, r: NodeId, kept: &[Option<u32>]) -> Option<usize>
    requires { AreSymbols (node_at (schema_nodes names.now.0) w.0) (node_at (schema_nodes names.now.1) r.0) kept.now }
    ensures { result ≡ first_lacking (node_at (schema_nodes names.now.0) w.0) (node_at (schema_nodes names.now.1) r.0) }
{
    let count = symbols_of(names.writer(), w).len();
    for index in 0..count {
        if is_untaken(names, w, r, kept, index) {
            return Some(index);
        }
    }
    None
}

/// Whether the reader has neither the writer's symbol at an index nor a default for it.
fn is_untaken(names: &Names, w: NodeId, r: NodeId, kept: &[Option<u32>], index: usize) -> bool
    requires { AreSymbols (node_at (schema_nodes names.now.0) w.0) (node_at (schema_nodes names.now.1) r.0) kept.now }
    ensures { result ≡ lacks (node_at (schema_nodes names.now.1) r.0) (symbol_at (node_at (schema_nodes names.now.0) w.0) index) }
{
    symbol_kept(names, w, r, kept, index).is_none()
}
