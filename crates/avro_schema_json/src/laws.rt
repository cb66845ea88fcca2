//! Laws of what JSON declares.

ghost use Rattle.std.specs.Prelude.{◌≡◌, ◌≢◌, ℕ, ◌∷◌, true, List, None, Some};
ghost use Rattle.avro_schema.specs.Node.{Node, branches_of, node_at};
ghost use Rattle.avro_schema.specs.Value.{Value};
ghost use Rattle.avro_schema.specs.WellFormed.{is_schema};
ghost use Rattle.avro_schema_json.specs.DeclaredDefaults.{default_of};
ghost use Rattle.avro_schema_json.specs.DeclaredFaults.{HasFault};
ghost use Rattle.avro_schema_json.specs.DeclaredSchema.{DeclaresSchema, declared};
ghost use Rattle.avro_schema_json.specs.declared.error.SchemaError.{SchemaError};
ghost use Rattle.serde_json.specs.Data.{Data};

/// A tree declares one schema at most.
pub fn one_schema()
    ensures { (tree : Data) (a b : List Node) → DeclaresSchema tree a → DeclaresSchema tree b → a ≡ b }
{}

/// What a tree declares is a schema: each default in it fits the node of its field.
pub fn declared_is_schema()
    ensures { (tree : Data) (nodes : List Node) → DeclaresSchema tree nodes → is_schema nodes ≡ true }
{}

/// A tree with a fault declares no schema.
pub fn fault_leaves_none()
    ensures { (tree : Data) (fault : SchemaError) → HasFault tree fault → declared tree ≡ None }
{}

/// No fault of a tree says that a text is not JSON, or that memory ran out.
pub fn fault_is_of_tree()
    ensures { (tree : Data) (fault : SchemaError) → HasFault tree fault → (fault ≢ SchemaError.NotJson) × (fault ≢ SchemaError.OutOfMemory) }
{}

/// A tree that declares no schema has a fault: one without faults declares a schema.
pub fn schema_or_fault()
    ensures { (tree : Data) → declared tree ≡ None → (fault : SchemaError) × HasFault tree fault }
{}

/// A union's default is a datum of its first branch wherever the JSON is a default of that branch,
/// which is not a union.
pub fn first_branch_is_taken()
    ensures { (nodes : List Node) (tree : Data) (union : Node) (id : ℕ) (others : List ℕ) (v : Value) → branches_of union ≡ Some (id ∷ others)
        → branches_of (node_at nodes id) ≡ None → default_of nodes tree (node_at nodes id) ≡ Some v
        → default_of nodes tree union ≡ Some (Value.union 0 v) }
{}
