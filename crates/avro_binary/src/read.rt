ghost use Rattle.std.specs.Prelude.{◌≡◌, ◌<◌, ℕ, List, length};
ghost use Rattle.avro_schema.specs.Node.{node_at};
ghost use Rattle.avro_schema.specs.SeenSchema.{schema_nodes};
ghost use Rattle.avro_binary.specs.Making.{Made};
ghost use Rattle.avro_binary.specs.Reading.{BuildsExactly, ReadsExactly};

use crate::build::Build;
use crate::make::Make;
use crate::place::Place;
use crate::reading::read_at;
use crate::tree::Tree;
use crate::wrapping::Wrapping;
use avro_cursor::{Cursor, ReadError};
use avro_schema::{Datum, Limits, NodeId, Schema};
use std::alloc::Global;

/// Reads the datum of a node whose encoding within limits is at the start of bytes, whatever follows it, and returns it with the
/// length of that encoding. Each such encoding is read.
///
/// # Errors
///
/// The first fault that is met from left to right (Avro 1.11, "Binary Encoding"), with its offset; `OutOfMemory`. If the fault is no
/// limit, no encoding of any datum is at the start.
pub fn decode(
    alloc: Global,
    schema: &Schema,
    node: NodeId,
    bytes: &[u8],
    limits: &Limits,
) -> Result<(Datum, usize), ReadError>
    requires in_schema { node.0 < length (schema_nodes schema.now) }
    ensures { ReadsExactly (schema_nodes schema.now) (node_at (schema_nodes schema.now) node.0) limits.now bytes.now result }
{
    let mut tree = Tree;
    read_node(alloc, schema, node, bytes, limits, &mut tree)
}

/// Reads what [`decode`] reads at the root of the schema, for any builder: what is returned stands for that datum.
///
/// # Errors
///
/// Those of [`decode`].
pub fn read_own<B: Build>(
    alloc: Global,
    schema: &Schema,
    bytes: &[u8],
    limits: &Limits,
    builder: &mut B,
) -> Result<(B::Out, usize), ReadError>
    ensures { BuildsExactly B.stands_for (schema_nodes schema.now) (node_at (schema_nodes schema.now) 0) limits.now bytes.now result }
{
    read_node(alloc, schema, schema.root(), bytes, limits, builder)
}

/// Reads a datum of a node of the schema from the front of bytes by a builder.
pub(crate) fn read_node<B: Build>(
    alloc: Global,
    schema: &Schema,
    node: NodeId,
    bytes: &[u8],
    limits: &Limits,
    builder: &mut B,
) -> Result<(B::Out, usize), ReadError>
    ensures { BuildsExactly B.stands_for (schema_nodes schema.now) (node_at (schema_nodes schema.now) node.0) limits.now bytes.now result }
{
    let mut maker = Wrapping::new(builder);
    read_made(
        alloc,
        schema,
        node,
        bytes,
        limits,
        &mut maker,
        Place::of(node),
    )
}

/// Reads what [`decode`] reads, for any maker and by what the datum is for: what is returned stands, at the maker as it then is, for
/// that datum. The maker keeps what it began with, also after an error.
///
/// # Errors
///
/// Those of [`decode`].
pub fn read_made<M: Make>(
    alloc: Global,
    schema: &Schema,
    node: NodeId,
    bytes: &[u8],
    limits: &Limits,
    maker: &mut M,
    at: M::At,
) -> Result<(M::Out, usize), ReadError>
    ensures reads { BuildsExactly (Made M.keeps (λ m. M.stands_for m (schema_nodes schema.now) (node_at (schema_nodes schema.now) node.0) at) maker.old maker.new) (schema_nodes schema.now) (node_at (schema_nodes schema.now) node.0) limits.now bytes.now result }
    ensures stays { (front : List ℕ) → M.begins maker.old front → M.begins maker.new front }
{
    // Its contract says that the schema is well formed, which the laws of faults ask for.
    let _count = schema.len();
    let mut cursor = Cursor::new(bytes, limits);
    let made = read_at(alloc, schema, node, &mut cursor, maker, at)?;
    Ok((made, cursor.offset()))
}
