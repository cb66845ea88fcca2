//! Laws about names.

ghost use Rattle.std.specs.Prelude.{◌≡◌, ◌↔◌, ◌&&◌, ℕ, true, not, List, Some};
ghost use Rattle.avro_name.specs.Name.{Name, is_dotted_name, is_namespace, is_full_name, name_of, same_name, has_empty_part, has_bad_character};

/// Two names are the same if and only if both parts are equal, including case.
pub fn same_name_is_equal()
    ensures { (a b : Name) → (same_name a b ≡ true) ↔ (a ≡ b) }
{}

/// A name that resolves in a namespace resolves to a fullname.
pub fn name_is_full()
    ensures { (text enclosing : List ℕ) (name : Name) → is_namespace enclosing ≡ true → name_of text enclosing ≡ Some name → is_full_name name ≡ true }
{}

/// A text is simple names joined by dots if and only if it has no empty part and no bad character.
pub fn dotted_or_fault()
    ensures { (text : List ℕ) → is_dotted_name text ≡ (not (has_empty_part text) && not (has_bad_character text)) }
{}
