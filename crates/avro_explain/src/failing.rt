//! What fails at a pair of nodes itself.

ghost use Rattle.std.specs.Prelude.{◌≡◌, ◌++◌, [], ◌∷◌, IfOk, OnOk, unwrap_or};
ghost use Rattle.avro_schema.specs.Node.{node_at, symbols_of};
ghost use Rattle.avro_schema.specs.Seen.{node_of, seen_fields, field_of, texts_of};
ghost use Rattle.avro_schema.specs.SeenSchema.{schema_nodes};
ghost use Rattle.avro_compare.specs.Planned.{AreInside, AreSources, IsComparison};
ghost use Rattle.avro_compare.specs.Source.{source_of};
ghost use Rattle.avro_explain.specs.Details.{details_of, details_of_kind, missing_from, missing_one};
ghost use Rattle.avro_explain.specs.inside.Walks.{detail_for, untaken_from, untaken_one};

use crate::found::Detail;
use avro_compare::{Comparison, FaultKind, Names, Target, first_entry, rest_entries, symbol_kept};
use avro_schema::{Field, Memory, Node};
use std::alloc::Global;

/// All that fails at a pair of nodes itself, in the order of the symbols or of the fields.
pub(crate) fn details(
    alloc: Global,
    names: &Names,
    pair: &Comparison,
) -> Result<Vec<Detail>, Memory>
    requires { IsComparison (schema_nodes names.now.0) (schema_nodes names.now.1) pair.now }
    ensures { IfOk result (λ found. found.items ≡ details_of (schema_nodes names.now.0) (schema_nodes names.now.1)
        (node_at (schema_nodes names.now.0) pair.now.w.0) (node_at (schema_nodes names.now.1) pair.now.r.0)) }
{
    let n = names.writer().get(pair.w);
    let q = names.reader().get(pair.r);
    details_of_nodes(alloc, names, n, q, pair)
}

/// The same, given the two nodes.
fn details_of_nodes(
    alloc: Global,
    names: &Names,
    n: &Node,
    q: &Node,
    pair: &Comparison,
) -> Result<Vec<Detail>, Memory>
    requires pair { IsComparison (schema_nodes names.now.0) (schema_nodes names.now.1) pair.now }
    requires from { node_of n.now ≡ node_at (schema_nodes names.now.0) pair.now.w.0 }
    requires to { node_of q.now ≡ node_at (schema_nodes names.now.1) pair.now.r.0 }
    ensures { IfOk result (λ found. found.items ≡ details_of (schema_nodes names.now.0) (schema_nodes names.now.1) (node_of n.now) (node_of q.now)) }
{
    match n {
        Node::Union(_) => Ok(Vec::new(alloc)),
        _ => match pair.target {
            Target::Fault(kind) => one_detail(alloc, detail_of(kind)),
            Target::To(Some(_), _) => Ok(Vec::new(alloc)),
            Target::To(None, _) => details_inside(alloc, names, n, q, pair),
        },
    }
}

/// A fault of a pair that leads nowhere.
fn detail_of(kind: FaultKind) -> Detail
    ensures { result ≡ detail_for kind }
{
    match kind {
        FaultKind::NoBranch => Detail::NoBranch,
        _ => Detail::NoMatch,
    }
}

/// One fault.
fn one_detail(alloc: Global, detail: Detail) -> Result<Vec<Detail>, Memory>
    ensures { IfOk result (λ found. found.items ≡ detail ∷ []) }
{
    let mut found = Vec::new(alloc);
    found.push(detail)?;
    Ok(found)
}

/// What fails at two nodes that match and are no unions.
fn details_inside(
    alloc: Global,
    names: &Names,
    n: &Node,
    q: &Node,
    pair: &Comparison,
) -> Result<Vec<Detail>, Memory>
    requires inside { AreInside (node_of n.now) (node_of q.now) pair.now }
    requires from { node_of n.now ≡ node_at (schema_nodes names.now.0) pair.now.w.0 }
    requires to { node_of q.now ≡ node_at (schema_nodes names.now.1) pair.now.r.0 }
    ensures { IfOk result (λ found. found.items ≡ details_of_kind (node_of n.now) (node_of q.now)) }
{
    match n {
        Node::Bytes => match q {
            Node::Str => one_detail(alloc, Detail::NotUtf8),
            _ => Ok(Vec::new(alloc)),
        },
        Node::Record(a) => match q {
            Node::Record(b) => missing_fields(alloc, &a.fields, &b.fields, &pair.sources),
            _ => Ok(Vec::new(alloc)),
        },
        Node::Enum(a) => match q {
            Node::Enum(_) => lacking_symbols(alloc, names, &a.symbols, pair),
            _ => Ok(Vec::new(alloc)),
        },
        _ => Ok(Vec::new(alloc)),
    }
}

/// The reader's fields without a source and a default.
fn missing_fields(
    alloc: Global,
    fields: &[Field],
    theirs: &[Field],
    sources: &[(usize, usize)],
) -> Result<Vec<Detail>, Memory>
    requires { AreSources (seen_fields fields.now) (seen_fields theirs.now) sources.now }
    ensures { IfOk result (λ found. found.items ≡ missing_from 0 (seen_fields fields.now) (seen_fields theirs.now)) }
{
    let mut found = Vec::new(alloc);
    let mut left = sources;
    for index in 0..theirs.len() {
        let field = &theirs[index];
        let source = first_entry(left, index);
        left = rest_entries(left, index);
        add_missing(&mut found, fields, source, field, index)?;
    }
    Ok(found)
}

/// Adds a reader's field, if it has neither a source nor a default.
fn add_missing(
    found: &mut Vec<Detail>,
    fields: &[Field],
    source: Option<usize>,
    field: &Field,
    index: usize,
) -> Result<(), Memory>
    requires { source ≡ source_of (seen_fields fields.now) (field_of field.now) }
    ensures { OnOk result (found.new.items ≡ found.old.items ++ missing_one index (seen_fields fields.now) (field_of field.now)) }
{
    if field.default.is_none() && source.is_none() {
        found.push(Detail::MissingField(index))?;
    }
    Ok(())
}

/// The writer's symbols that the reader's enum lacks, where it has no default. They are looked up only where it lacks one.
fn lacking_symbols(
    alloc: Global,
    names: &Names,
    symbols: &[String],
    pair: &Comparison,
) -> Result<Vec<Detail>, Memory>
    requires inside { AreInside (node_at (schema_nodes names.now.0) pair.now.w.0) (node_at (schema_nodes names.now.1) pair.now.r.0) pair.now }
    requires texts { texts_of symbols.now ≡ unwrap_or (symbols_of (node_at (schema_nodes names.now.0) pair.now.w.0)) [] }
    ensures { IfOk result (λ found. found.items ≡ untaken_from (node_at (schema_nodes names.now.1) pair.now.r.0) 0 (texts_of symbols.now)) }
{
    let mut found = Vec::new(alloc);
    if !pair.lacks_symbol() {
        return Ok(found);
    }
    for index in 0..symbols.len() {
        let symbol = symbol_kept(names, pair.w, pair.r, &pair.symbols, index);
        add_lacking(&mut found, symbol, index)?;
    }
    Ok(found)
}

/// Adds a writer's symbol, if the reader's enum lacks it and has no default.
fn add_lacking(found: &mut Vec<Detail>, symbol: Option<u32>, index: usize) -> Result<(), Memory>
    ensures { OnOk result (found.new.items ≡ found.old.items ++ untaken_one index symbol) }
{
    match symbol {
        None => found.push(Detail::NoSymbol(index))?,
        Some(_) => {}
    }
    Ok(())
}
