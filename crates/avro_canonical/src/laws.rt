//! Laws about canonical forms.

ghost use Rattle.std.specs.Prelude.{◌≡◌, ◌≤◌, ◌↔◌, ℕ, true, List, []};
ghost use Rattle.avro_schema.specs.Node.{Node, root_of};
ghost use Rattle.avro_schema.specs.Value.{Value};
ghost use Rattle.avro_schema.specs.WellFormed.{is_schema, max_nodes};
ghost use Rattle.avro_cursor.specs.Encoding.{Encodes};
ghost use Rattle.avro_canonical.specs.Canonical.{IsCanonical};
ghost use Rattle.avro_canonical.specs.CanonicalTree.{form_tree, keeps_names, nodes_in};
ghost use Rattle.avro_schema_json.specs.DeclaredSchema.{DeclaresSchema};

/// A schema has at most one canonical form.
pub fn one_text()
    ensures { (nodes : List Node) (a b : List ℕ) → IsCanonical nodes a → IsCanonical nodes b → a ≡ b }
{}

/// Schemas with the same canonical form have the same encodings.
pub fn same_encodings()
    ensures { (nodes others : List Node) (text : List ℕ) → is_schema nodes ≡ true → is_schema others ≡ true
        → IsCanonical nodes text → IsCanonical others text → (v : Value) (bytes : List ℕ)
        → Encodes nodes (root_of nodes) v bytes ↔ Encodes others (root_of others) v bytes }
{}

/// A canonical form, read as a declaration, declares a schema with the same canonical form and the same
/// encodings, provided that no type of the null namespace is defined or referred to inside a definition
/// of another namespace, and that the declared nodes are within their limit.
pub fn read_again()
    ensures { (nodes : List Node) (text : List ℕ) → is_schema nodes ≡ true → (it : IsCanonical nodes text)
        → keeps_names [] it.form ≡ true → nodes_in it.form ≤ max_nodes
        → (again : List Node) × DeclaresSchema (form_tree it.form) again × IsCanonical again text
        × ((v : Value) (bytes : List ℕ) → Encodes nodes (root_of nodes) v bytes ↔ Encodes again (root_of again) v bytes) }
{}
