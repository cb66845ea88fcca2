//! A history of no schemas.

use avro_history::{HistoryCert, confirm_history};
use avro_schema::Memory;
use avro_schema_json::read_schema;
use std::alloc::Global;
use std::test::Fail;

/// Whether a history is written as this text.
fn is_written(alloc: Global, history: &HistoryCert, text: &str) -> Result<bool, Memory> {
    Ok(history.write(alloc)?.as_slice() == text.as_bytes())
}

/// How many approvals a history confirms of no schemas, if it confirms them.
fn confirmed_of_none(alloc: Global, history: &HistoryCert) -> Result<Option<usize>, Fail> {
    let reader = read_schema(alloc, b"\"int\"".as_slice())?;
    Ok(confirm_history(alloc, &[], &reader, history)?.map(|approvals| approvals.len()))
}

/// Whether the history of no certificate is written as this text, and how many approvals it confirms.
fn empty_history(alloc: Global, text: &str) -> Result<(bool, Option<usize>), Fail> {
    let empty = HistoryCert::new(Vec::new(alloc));
    let written = is_written(alloc, &empty, text)?;
    Ok((written, confirmed_of_none(alloc, &empty)?))
}

#[test]
fn a_history_of_no_schemas_has_no_certificate(rt: HostRuntime) -> Result<(), Fail> {
    assert_eq!(rt;
        empty_history(rt.alloc(), "history 1\nend\n")?,
        (true, Some(0))
    );
    Ok(())
}
