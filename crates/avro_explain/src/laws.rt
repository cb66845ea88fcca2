//! Laws of the faults that are found.

ghost use Rattle.std.specs.Prelude.{◌≡◌, ◌↔◌, ℕ, true, false, List, []};
ghost use Rattle.avro_schema.specs.Node.{Node, node_at};
ghost use Rattle.avro_schema.specs.Value.{Value};
ghost use Rattle.avro_schema.specs.WellFormed.{is_schema};
ghost use Rattle.avro_compare.specs.Fault.{ResolutionFault};
ghost use Rattle.avro_compare.specs.Children.{Pair, has_local_fault};
ghost use Rattle.avro_certificate.specs.Closed.{is_dead};
ghost use Rattle.avro_certificate.specs.Compatible.{AreCompatible, ErrsWith};
ghost use Rattle.avro_certificate.specs.Evidence.{IsGreatestDead, IsReached};
ghost use Rattle.avro_explain.specs.Blamed.{IsAtOne};
ghost use Rattle.avro_explain.specs.Details.{details_of};
ghost use Rattle.avro_explain.specs.Places.{AreReached, AreFaults, pairs_of};
ghost use Rattle.avro_explain.specs.declared.found.Place.{Place};

/// A pair of nodes has a fault in the list of its faults exactly where it has a fault of its own.
pub fn fault_is_local()
    ensures { (writer reader : List Node) (n q : Node) → (details_of writer reader n q ≡ []) ↔ (has_local_fault writer reader n q ≡ false) }
{}

/// Where nothing is found at the pairs that the roots lead to, no datum fails.
pub fn none_found_is_compatible()
    ensures { (writer reader : List Node) (dead : List ℕ) (places : List Place) → is_schema writer ≡ true → is_schema reader ≡ true
        → IsGreatestDead writer dead → AreReached writer reader dead (pairs_of places) → AreFaults writer reader places [] → AreCompatible writer reader }
{}

/// The first fault of each datum that fails is, by its cause and its path, one of those at a pair that the roots
/// lead to.
pub fn first_fault_is_found()
    ensures { (writer reader : List Node) (dead : List ℕ) → is_schema reader ≡ true → is_dead writer dead ≡ true
        → (v : Value) (fault : ResolutionFault) → ErrsWith writer reader v fault → IsAtOne writer reader dead fault }
{}

/// Where the schemas are compatible, nothing is found at the pairs that the roots lead to.
pub fn compatible_finds_none()
    ensures { (writer reader : List Node) (dead : List ℕ) → is_schema writer ≡ true → is_schema reader ≡ true → IsGreatestDead writer dead
        → AreCompatible writer reader → (p : Pair) → IsReached writer reader dead p
        → details_of writer reader (node_at writer p.w) (node_at reader p.r) ≡ [] }
{}
