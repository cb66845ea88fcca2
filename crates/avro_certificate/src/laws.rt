//! Laws about certificates.

ghost use Rattle.std.specs.Prelude.{◌≡◌, ℕ, true, List};
ghost use Rattle.avro_schema.specs.Node.{Node};
ghost use Rattle.avro_schema.specs.WellFormed.{is_schema};
ghost use Rattle.avro_certificate.specs.Compatible.{AreCompatible};
ghost use Rattle.avro_compare.specs.Children.{Pair};
ghost use Rattle.avro_certificate.specs.Closed.{is_among_pairs, is_closed};
ghost use Rattle.avro_certificate.specs.Evidence.{IsReached};

/// If the two sets are closed, no datum of the writer's schema has a fault.
pub fn closed_is_compatible()
    ensures { (writer reader : List Node) (dead : List ℕ) (pairs : List Pair) → is_schema reader ≡ true → is_closed writer reader dead pairs ≡ true → AreCompatible writer reader }
{}

/// Every set of pairs that is closed, with the same dead nodes, contains the pairs that the roots lead
/// to.
pub fn reached_pairs_are_least()
    ensures { (writer reader : List Node) (dead : List ℕ) (pairs : List Pair) → is_closed writer reader dead pairs ≡ true
        → (p : Pair) → IsReached writer reader dead p → is_among_pairs pairs p ≡ true }
{}
