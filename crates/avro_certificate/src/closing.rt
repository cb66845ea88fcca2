//! Checking that the sets of a certificate are closed for two schemas.

ghost use Rattle.std.specs.Prelude.{◌≡◌, ◌&&◌, true, is_some, nat_lt, length, map, IfOk, OnOk};
ghost use Rattle.std.specs.Option.{IfSome};
ghost use Rattle.std.specs.List.{list_all, list_any};
ghost use Rattle.avro_schema.specs.Node.{node_at, field_ids};
ghost use Rattle.avro_schema.specs.Seen.{ids_of, seen_fields};
ghost use Rattle.avro_schema.specs.SeenSchema.{schema_nodes};
ghost use Rattle.avro_compare.specs.Leads.{lead_pair};
ghost use Rattle.avro_compare.specs.Planned.{AreComparisons, IsComparison};
ghost use Rattle.avro_certificate.specs.Closed.{is_among, is_dead, is_dead_node, is_closed, is_closed_at};
ghost use Rattle.avro_certificate.specs.inside.ClosedParts.{stands, closed_live};
ghost use Rattle.avro_certificate.specs.SeenCertificate.{dead_of, pairs_in};
ghost use Rattle.avro_certificate.specs.SeenPair.{pair_of};

use crate::kept::Certificate;
use crate::lookup::{has, has_dead};
use avro_compare::{Comparison, Lead, Names, compare, has_fault, leads};
use avro_schema::{Field, Memory, Node, NodeId, Schema};
use std::alloc::Global;

/// Checks whether a certificate shows that no datum of a writer's schema fails for a reader's: its dead
/// nodes are nodes of the writer's that have no datum, the roots are accounted for, and each pair is closed.
/// Returns the comparisons of its pairs, or `None` if it does not show this.
///
/// # Errors
///
/// Memory ran out.
pub fn find_closed(
    alloc: Global,
    writer: &Schema,
    reader: &Schema,
    certificate: &Certificate,
) -> Result<Option<Vec<Comparison>>, Memory>
    ensures closed { IfOk result (λ o. is_some o ≡ is_closed (schema_nodes writer.now) (schema_nodes reader.now) (dead_of certificate.now) (pairs_in certificate.now)) }
    ensures found { IfOk result (λ o. IfSome o (λ found. AreComparisons (schema_nodes writer.now) (schema_nodes reader.now) found.items)) }
{
    if is_dead(writer, certificate) && has(certificate, 0, 0) {
        find_pairs(alloc, writer, reader, certificate)
    } else {
        Ok(None)
    }
}

/// Whether each dead node is a node of the writer's that has no datum.
fn is_dead(writer: &Schema, certificate: &Certificate) -> bool
    ensures { result ≡ is_dead (schema_nodes writer.now) (dead_of certificate.now) }
{
    let dead = certificate.dead();
    for number in dead {
        if !is_dead_id(writer, certificate, NodeId(*number)) {
            return false;
        }
    }
    true
}

fn is_dead_id(writer: &Schema, certificate: &Certificate, id: NodeId) -> bool
    ensures { result ≡ (nat_lt id.0 (length (schema_nodes writer.now)) && is_dead_node (dead_of certificate.now) (node_at (schema_nodes writer.now) id.0)) }
{
    if !writer.has(id) {
        return false;
    }
    match writer.node(id) {
        Node::Record(record) => has_dead_field(certificate, &record.fields),
        Node::Union(ids) => has_dead_branches(certificate, ids),
        _ => false,
    }
}

fn has_dead_field(certificate: &Certificate, fields: &[Field]) -> bool
    ensures { result ≡ list_any (is_among (dead_of certificate.now)) (field_ids (seen_fields fields.now)) }
{
    for field in fields {
        if has_dead(certificate, field.node.0) {
            return true;
        }
    }
    false
}

fn has_dead_branches(certificate: &Certificate, ids: &[NodeId]) -> bool
    ensures { result ≡ list_all (is_among (dead_of certificate.now)) (ids_of ids.now) }
{
    for id in ids {
        if !has_dead(certificate, id.0) {
            return false;
        }
    }
    true
}

/// The comparisons of a certificate's pairs, if each pair is closed.
fn find_pairs(
    alloc: Global,
    writer: &Schema,
    reader: &Schema,
    certificate: &Certificate,
) -> Result<Option<Vec<Comparison>>, Memory>
    ensures closed { IfOk result (λ o. is_some o ≡ list_all (is_closed_at (schema_nodes writer.now) (schema_nodes reader.now) (dead_of certificate.now) (pairs_in certificate.now)) (pairs_in certificate.now)) }
    ensures found { IfOk result (λ o. IfSome o (λ found. AreComparisons (schema_nodes writer.now) (schema_nodes reader.now) found.items)) }
{
    let names = Names::new(alloc, writer, reader)?;
    find_each(alloc, writer, reader, &names, certificate)
}

/// Like `find_pairs`, given the tables of names.
fn find_each(
    alloc: Global,
    writer: &Schema,
    reader: &Schema,
    names: &Names,
    certificate: &Certificate,
) -> Result<Option<Vec<Comparison>>, Memory>
    requires { names.now ≡ (writer.now, reader.now) }
    ensures closed { IfOk result (λ o. is_some o ≡ list_all (is_closed_at (schema_nodes writer.now) (schema_nodes reader.now) (dead_of certificate.now) (pairs_in certificate.now)) (pairs_in certificate.now)) }
    ensures found { IfOk result (λ o. IfSome o (λ found. AreComparisons (schema_nodes writer.now) (schema_nodes reader.now) found.items)) }
{
    let pairs = certificate.pairs();
    let mut found = Vec::new(alloc);
    for pair in pairs {
        if !is_closed_at(alloc, writer, reader, names, certificate, *pair, &mut found)? {
            return Ok(None);
        }
    }
    Ok(Some(found))
}

/// Whether a pair is one of existing nodes, and is closed unless its writer's node is dead. Appends its
/// comparison to `found`.
fn is_closed_at(
    alloc: Global,
    writer: &Schema,
    reader: &Schema,
    names: &Names,
    certificate: &Certificate,
    pair: (u32, u32),
    found: &mut Vec<Comparison>,
) -> Result<bool, Memory>
    requires { names.now ≡ (writer.now, reader.now) }
    ensures closed { IfOk result (λ b. b ≡ is_closed_at (schema_nodes writer.now) (schema_nodes reader.now) (dead_of certificate.now) (pairs_in certificate.now) (pair_of pair)) }
    ensures found { OnOk result (AreComparisons (schema_nodes writer.now) (schema_nodes reader.now) found.old.items
        → AreComparisons (schema_nodes writer.now) (schema_nodes reader.now) found.new.items) }
{
    let w = NodeId(pair.0);
    let r = NodeId(pair.1);
    if !writer.has(w) || !reader.has(r) {
        return Ok(false);
    }
    if has_dead(certificate, w.0) {
        return Ok(true);
    }
    let kept = compare(alloc, names, w, r)?;
    let closed = is_closed_live(alloc, names, certificate, &kept)?;
    found.push(kept)?;
    Ok(closed)
}

/// Whether a pair has no fault of its own, and each pair that it leads to is accounted for.
fn is_closed_live(
    alloc: Global,
    names: &Names,
    certificate: &Certificate,
    pair: &Comparison,
) -> Result<bool, Memory>
    requires { IsComparison (schema_nodes names.now.0) (schema_nodes names.now.1) pair.now }
    ensures { IfOk result (λ b. b ≡ closed_live (schema_nodes names.now.0) (schema_nodes names.now.1) (dead_of certificate.now) (pairs_in certificate.now) pair.now.w.0 pair.now.r.0) }
{
    if has_fault(names, pair) {
        return Ok(false);
    }
    let leads = leads(alloc, names, pair)?;
    Ok(all_stand(certificate, &leads))
}

/// Whether all pairs that these leads go to are accounted for.
fn all_stand(certificate: &Certificate, leads: &[Lead]) -> bool
    ensures { result ≡ list_all (stands (dead_of certificate.now) (pairs_in certificate.now)) (map lead_pair leads.now) }
{
    for lead in leads {
        if !has(certificate, lead.w.0, lead.r.0) {
            return false;
        }
    }
    true
}
