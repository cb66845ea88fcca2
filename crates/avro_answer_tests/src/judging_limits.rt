//! Verdicts at the limit of pairs.

use avro_answer::{Form, judge_schemas};
use avro_container::WriteOutput;
use avro_judge::JudgeLimits;
use avro_schema::{Draft, Limits, Node, Schema};
use avro_schema_json::read_schema;
use std::alloc::Global;
use std::test::Fail;

/// A schema of an int with a second node, to which the root does not lead.
fn two_nodes(alloc: Global) -> Result<Schema, Fail> {
    let mut draft = Draft::new(alloc);
    for node in [Node::Int, Node::Long] {
        draft.add(node)?;
    }
    Ok(draft.finish()?)
}

/// Limits of pairs in judging data of one node, and the verdict of a writer of two nodes for an int.
const PAIRS: [(u32, &str); 2] = [(1, "undecided Pairs\n"), (2, "yes\n")];

/// Whether this is the verdict of two schemas at a limit of pairs.
fn is_verdict(
    alloc: Global,
    writer: &Schema,
    reader: &Schema,
    row: &(u32, &str),
) -> Result<bool, Fail> {
    let limits = JudgeLimits::new(row.0, 1, Limits::default()).ok_or("limits of judging")?;
    let mut text = Vec::new(alloc);
    let mut out = WriteOutput::new(&mut text);
    let judged = judge_schemas(&mut out, alloc, writer, reader, &limits, Form::Text);
    Ok(judged.is_ok() && text.as_slice() == row.1.as_bytes())
}

/// The text of the first row, if any, that is not the verdict of a writer of two nodes.
fn wrong_verdict(
    alloc: Global,
    reader: &Schema,
    rows: &[(u32, &'static str)],
) -> Result<Option<&'static str>, Fail> {
    let writer = two_nodes(alloc)?;
    for row in rows {
        if !is_verdict(alloc, &writer, reader, row)? {
            return Ok(Some(row.1));
        }
    }
    Ok(None)
}

/// The same for an int.
fn wrong_verdict_for_int(alloc: Global) -> Result<Option<&'static str>, Fail> {
    let reader = read_schema(alloc, br#""int""#)?;
    wrong_verdict(alloc, &reader, &PAIRS[..])
}

#[test]
fn pairs_have_a_limit(rt: HostRuntime) -> Result<(), Fail> {
    assert_eq!(rt; wrong_verdict_for_int(rt.alloc())?, None);
    Ok(())
}
