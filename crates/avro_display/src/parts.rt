ghost use Rattle.std.specs.Prelude.{◌≡◌, List, Some, slice_get, ℕ};
ghost use Rattle.avro_schema.specs.Seen.{entries_of, node_of, seen_fields};
ghost use Rattle.avro_schema.specs.Value.{keys_of};
ghost use Rattle.avro_display.specs.DisplayTree.{record_fields};

use avro_schema::{Datum, Field, Node};

/// The fields of a record; none for other nodes.
pub fn node_fields(node: &Node) -> &[Field]
    ensures { seen_fields result.now ≡ record_fields (node_of node.now) }
{
    match node.fields() {
        Some(fields) => fields,
        None => &[],
    }
}

/// The key of the entry at an index; empty if there is none.
#[tactic(auto, using(std::proofs::lemmas::Option::gets, crate::proofs::Plains::key_at))]
pub fn entry_key(entries: &[(String, Datum)], index: usize) -> &str
    ensures { (k : List ℕ) → slice_get (keys_of (entries_of entries.now)) index ≡ Some k → result.now ≡ k }
{
    match entries.get(index) {
        Some(entry) => entry.0.as_str(),
        None => "",
    }
}
