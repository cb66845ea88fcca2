//! The number of nodes of a draft.

use avro_schema::{Draft, DraftError, Node};
use std::alloc::Global;
use std::test::Fail;

/// The first number, if any, that a node is not added by.
fn wrong_number(draft: &mut Draft) -> Result<Option<u32>, DraftError> {
    for number in 0u32..4096 {
        if draft.add(Node::Long)?.0 != number {
            return Ok(Some(number));
        }
    }
    Ok(None)
}

/// A draft with as many nodes as there may be, to which no more is added.
fn full(alloc: Global) -> Result<Draft, Fail> {
    let mut draft = Draft::new(alloc);
    if wrong_number(&mut draft)?.is_some() {
        return Err(Fail::new("a node has another number"));
    }
    if draft.add(Node::Int) == Err(DraftError::LimitExceeded) {
        Ok(draft)
    } else {
        Err(Fail::new("a node is added past the limit"))
    }
}

/// How many nodes its schema has, and whether the root is the first of them.
fn full_schema(alloc: Global) -> Result<(usize, bool), Fail> {
    let schema = full(alloc)?.finish()?;
    Ok((schema.len(), *schema.node(schema.root()) == Node::Long))
}

#[test]
fn drafts_have_nodes_up_to_the_limit(rt: HostRuntime) -> Result<(), Fail> {
    assert_eq!(rt; full_schema(rt.alloc())?, (4096, true));
    Ok(())
}

#[test]
fn a_draft_has_a_node(rt: HostRuntime) {
    let empty = Draft::new(rt.alloc()).finish().err();
    assert_eq!(rt; empty, Some(DraftError::LimitExceeded));
}
