//! Laws of encodings.

ghost use Rattle.std.specs.Prelude.{◌≡◌, ◌≢◌, ◌⊎◌, ℕ, ◌<◌, ◌≤◌, ◌^◌, true, List, ◌++◌, length, nat_lt};
ghost use Rattle.std.specs.List.{list_all};
ghost use Rattle.avro_schema.specs.Value.{Value};
ghost use Rattle.avro_schema.specs.Node.{Node, node_at};
ghost use Rattle.avro_schema.specs.Fits.{fits, LimitValues, is_within};
ghost use Rattle.avro_schema.specs.WellFormed.{is_schema};
ghost use Rattle.avro_cursor.specs.Encoding.{Encodes, Spells, plain};
ghost use Rattle.avro_cursor.specs.Fault.{ReadFault, limit_exceeded};
ghost use Rattle.avro_cursor.specs.Breaks.{Breaks};

/// The plain encoding of a datum that fits a schema's node is an encoding of it.
pub fn plain_encodes()
    ensures { (nodes : List Node) (id : ℕ) (v : Value) → is_schema nodes ≡ true → fits nodes (node_at nodes id) v ≡ true → Encodes nodes (node_at nodes id) v (plain v) }
{}

/// No encoding of a datum is shorter than its plain encoding.
pub fn plain_is_shortest()
    ensures { (v : Value) (bytes : List ℕ) → Spells v bytes → length (plain v) ≤ length bytes }
{}

/// No encoding at a node begins another: the bytes tell where a datum ends and which one it is.
pub fn prefix()
    ensures { (nodes : List Node) (n : Node) (v w : Value) (a b x y : List ℕ) → Encodes nodes n v a → Encodes nodes n w b → a ++ x ≡ b ++ y → (a ≡ b) × (v ≡ w) }
{}

/// Bytes with a fault that is no limit begin with no encoding of any datum.
pub fn fault_leaves_none()
    ensures { (nodes : List Node) (limits : LimitValues) (id : ℕ) (bytes : List ℕ) (f : ReadFault) (v : Value) (front rest : List ℕ) → is_schema nodes ≡ true
        → Breaks nodes limits (node_at nodes id) bytes f → f ≢ limit_exceeded → Encodes nodes (node_at nodes id) v front → bytes ≡ front ++ rest → ⊥ }
{}

/// Bytes with a fault begin with no encoding of a datum within limits.
pub fn fault_or_within()
    ensures { (nodes : List Node) (limits : LimitValues) (id : ℕ) (bytes : List ℕ) (f : ReadFault) (v : Value) (front rest : List ℕ) → is_schema nodes ≡ true
        → Breaks nodes limits (node_at nodes id) bytes f → Encodes nodes (node_at nodes id) v front → is_within limits v ≡ true → bytes ≡ front ++ rest → ⊥ }
{}

/// At most one fault holds of bytes: one code and one offset.
pub fn one_fault()
    ensures { (nodes : List Node) (limits : LimitValues) (id : ℕ) (bytes : List ℕ) (f g : ReadFault) → is_schema nodes ≡ true
        → Breaks nodes limits (node_at nodes id) bytes f → Breaks nodes limits (node_at nodes id) bytes g → f ≡ g }
{}

/// Bytes begin with an encoding of a datum of the node within limits, or have a fault: no case is missing among the faults.
/// The limit of nodes is below 2^32 and that of a blob below 2^63, as those of each `Limits` are: without them a count or
/// a length may be too large for an encoding.
pub fn encoding_or_fault()
    ensures { (nodes : List Node) (n : Node) (limits : LimitValues) (bytes : List ℕ) → list_all (λ b. nat_lt b 256) bytes ≡ true → limits.nodes < 2 ^ 32 → limits.blob < 2 ^ 63
        → ((v : Value) × (front rest : List ℕ) × Encodes nodes n v front × (is_within limits v ≡ true) × (bytes ≡ front ++ rest)) ⊎ ((f : ReadFault) × Breaks nodes limits n bytes f) }
{}
