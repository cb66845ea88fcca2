//! Laws of matching.

ghost use Rattle.std.specs.Prelude.{◌≡◌, ◌↔◌, ◌<◌, ℕ, true, List, length};
ghost use Rattle.avro_schema.specs.Node.{Node, node_at};
ghost use Rattle.avro_schema.specs.WellFormed.{is_schema};
ghost use Rattle.avro_compare.specs.Match.{Matches, is_match};

/// The test of a match is the relation: it looks into arrays and maps deep enough.
pub fn match_is_the_test()
    ensures { (writer reader : List Node) (i : ℕ) (r : Node) → is_schema writer ≡ true → i < length writer
        → (is_match writer reader (node_at writer i) r ≡ true) ↔ Matches writer reader (node_at writer i) r }
{}
