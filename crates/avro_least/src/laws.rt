//! Laws of the least data that fail.

ghost use Rattle.std.specs.Prelude.{◌≡◌, ℕ, true, ◌<◌, ◌≤◌, Bool, List, Some, None, Err, is_some};
ghost use Rattle.std.specs.List.{list_all};
ghost use Rattle.avro_schema.specs.Value.{Value, size, depth};
ghost use Rattle.avro_schema.specs.Node.{Node, node_at, root_of};
ghost use Rattle.avro_schema.specs.Fits.{fits};
ghost use Rattle.avro_schema.specs.WellFormed.{is_schema, meets_its_rules};
ghost use Rattle.avro_compare.specs.Fault.{ResolutionFault};
ghost use Rattle.avro_compare.specs.Resolve.{resolve};
ghost use Rattle.avro_compare.specs.Children.{Pair, children_of};
ghost use Rattle.avro_certificate.specs.Compatible.{AreCompatible, ErrsOnlyAbove, ErrsLeastDeep};
ghost use Rattle.avro_least.specs.Tables.{LeastTable, ErringTable, AtMost, IsLowForData, AreLow, AreDataShown, ShowsData, least_datum, AreErrorsShown, ShowsError, err_of, Least};

/// No datum of a node is below the node's entry, in a table that no step lowers.
pub fn least_data()
    ensures { (nodes : List Node) (limit : ℕ) (table : LeastTable) → IsLowForData nodes limit table → (v : Value) (p : ℕ) → fits nodes (node_at nodes p) v ≡ true
        → AtMost (table p) (size v) (depth v) }
{}

/// No datum that fails at a pair of nodes is below the pair's entry, in tables that no step lowers.
pub fn least_errors()
    ensures { (writer reader : List Node) (limit : ℕ) (table : LeastTable) (erring : ErringTable) → AreLow writer reader limit table erring → is_schema reader ≡ true
        → (v : Value) (w r : ℕ) → fits writer (node_at writer w) v ≡ true → (fault : ResolutionFault)
        → resolve writer reader (node_at writer w) (node_at reader r) v ≡ Err fault → AtMost (erring w r) (size v) (depth v) }
{}

/// If each entry is that of some datum, so is each entry that a step computes from them.
pub fn shown_data()
    ensures { (writer : List Node) (limit : ℕ) (table : LeastTable) → AreDataShown writer limit table → (n : Node) → meets_its_rules writer n ≡ true
        → is_some (least_datum limit table n) ≡ true → ShowsData writer limit n (least_datum limit table n) }
{}

/// If each entry is that of some datum that fails, so is each entry that a step computes from them.
pub fn shown_errors()
    ensures { (writer reader : List Node) (limit : ℕ) (table : LeastTable) (erring : ErringTable) (known : Pair → Bool) → is_schema reader ≡ true
        → AreDataShown writer limit table → AreErrorsShown writer reader limit known erring → (w r : ℕ)
        → list_all known (children_of writer reader w r (node_at writer w) (node_at reader r)) ≡ true
        → is_some (err_of writer reader limit table erring w r (node_at writer w) (node_at reader r)) ≡ true
        → ShowsError writer reader limit (node_at writer w) (node_at reader r)
        (err_of writer reader limit table erring w r (node_at writer w) (node_at reader r)) }
{}

/// If the entry of the roots is over the limit, each datum that fails has more nodes than the limit.
pub fn decided_above()
    ensures { (writer reader : List Node) (limit : ℕ) (table : LeastTable) (erring : ErringTable) → AreLow writer reader limit table erring → is_schema reader ≡ true
        → (e : Least) → erring 0 0 ≡ Some e → ShowsError writer reader limit (root_of writer) (root_of reader) (Some e) → limit < e.nodes
        → ErrsOnlyAbove writer reader limit }
{}

/// If the entry of the roots is within the limit but too deep, each least datum that fails is too deep.
pub fn decided_deep()
    ensures { (writer reader : List Node) (limit : ℕ) (table : LeastTable) (erring : ErringTable) → AreLow writer reader limit table erring → is_schema reader ≡ true
        → (e : Least) (deepest : ℕ) → erring 0 0 ≡ Some e → ShowsError writer reader limit (root_of writer) (root_of reader) (Some e)
        → e.nodes ≤ limit → deepest < e.depth → ErrsLeastDeep writer reader limit deepest }
{}

/// If the roots have no entry, no datum fails.
pub fn decided_compatible()
    ensures { (writer reader : List Node) (limit : ℕ) (table : LeastTable) (erring : ErringTable) → AreLow writer reader limit table erring → is_schema reader ≡ true
        → erring 0 0 ≡ None → AreCompatible writer reader }
{}
