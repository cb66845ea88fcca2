//! The attributes of a declaration (Avro 1.11, "Schema Declaration", "Names", "Aliases").

ghost use Rattle.std.specs.Prelude.{◌≡◌, ℕ, ◌⊎◌, ◌∷◌, [], true, false, List, is_some, filter_map, option_map, ok_or, string_bytes, codes, Some, None, Ok, IfOk, IfErr, IsErrOf};
ghost use Rattle.std.specs.List.{list_all};
ghost use Rattle.avro_name.specs.Name.{Name, has_dot, name_of};
ghost use Rattle.avro_schema.specs.Seen.{texts_of};
ghost use Rattle.avro_schema_json.specs.DeclaredAttributes.{text_in, needed, name_from, alias_texts_in, aliases_in, default_symbol_from, symbols_in, size_in, as_texts, texts_of as texts_in};
ghost use Rattle.avro_schema_json.specs.Declares.{form_of as form_of_text};
ghost use Rattle.avro_schema_json.specs.inside.Reading.{IsAttribute, IsRefusal};
ghost use Rattle.avro_schema_json.specs.inside.ReadingSeen.{form_seen};
ghost use Rattle.serde_json.specs.Find.{get_member};
ghost use Rattle.serde_json.specs.View.{view, items_view, members_view};

use crate::declarations::words::{Form, form_of};
use crate::error::SchemaError;
use crate::symbol_indices::index_of_symbol;
use avro_name::{FullName, Namespace};
use avro_schema::FixedNode;
use serde_json::{Map, Value};
use std::alloc::Global;

/// The members of an object.
pub(crate) type Members = Map<String, Value>;

/// The member of a key.
pub(crate) fn member<'a>(members: &'a Members, key: &str) -> Option<&'a Value>
    ensures { option_map (λ v. view v.now) result ≡ get_member key.now (members_view members.now.entries) }
{
    members.get(key)
}

/// The texts of an array of texts.
fn texts(alloc: Global, value: &Value) -> Result<Vec<String>, SchemaError>
    ensures found { IfOk result (λ texts. as_texts (view value.now) ≡ Some (texts_of texts.items)) }
    ensures refused { IfErr result (λ e. (e ≡ SchemaError.OutOfMemory) ⊎ ((e ≡ SchemaError.InvalidDeclaration) × (as_texts (view value.now) ≡ None))) }
{
    match value.as_array() {
        Some(items) => texts_of_items(alloc, items),
        None => Err(SchemaError::InvalidDeclaration),
    }
}

/// The texts of items that are texts.
fn texts_of_items(alloc: Global, items: &[Value]) -> Result<Vec<String>, SchemaError>
    ensures found { IfOk result (λ texts. texts_in (items_view items.now) ≡ Some (texts_of texts.items)) }
    ensures refused { IfErr result (λ e. (e ≡ SchemaError.OutOfMemory) ⊎ ((e ≡ SchemaError.InvalidDeclaration) × (texts_in (items_view items.now) ≡ None))) }
{
    let mut texts = Vec::with_capacity(alloc, items.len())?;
    for item in items {
        match item.as_str() {
            Some(text) => texts.push(String::from_str(alloc, text)?)?,
            None => return Err(SchemaError::InvalidDeclaration),
        }
    }
    Ok(texts)
}

/// The text under a key.
pub(crate) fn text<'a>(members: &'a Members, key: &str) -> Option<&'a str>
    ensures { option_map (λ s. s.now) result ≡ text_in key.now (members_view members.now.entries) }
{
    member(members, key)?.as_str()
}

/// What the `type` of an object is.
pub(crate) fn form<'a>(members: &'a Members) -> Form<'a>
    ensures { form_seen result ≡ form_of_text (text_in (codes "type") (members_view members.now.entries)) }
{
    match text(members, "type") {
        Some(word) => form_of(word),
        None => Form::Missing,
    }
}

/// Whether a text has a dot.
pub(crate) fn has_dot(text: &str) -> bool
    ensures { result ≡ has_dot text.now }
{
    text.as_bytes().iter().any(|byte| *byte == b'.')
}

/// The fullname that a text means where a namespace encloses it.
pub(crate) fn full_name(
    alloc: Global,
    text: &str,
    enclosing: &Namespace,
) -> Result<FullName, SchemaError>
    ensures { IsErrOf result SchemaError.OutOfMemory ⊎ (result ≡ ok_or (name_of text.now enclosing.now) SchemaError.InvalidName) }
{
    Ok(FullName::read(alloc, text, enclosing)?)
}

/// The fullname that the name and the namespace of a definition say. Beside a name with a dot, the namespace is not
/// looked at.
pub(crate) fn name(
    alloc: Global,
    enclosing: &Namespace,
    text: Option<&str>,
    namespace: Option<&Value>,
) -> Result<FullName, SchemaError>
    ensures { IsErrOf result SchemaError.OutOfMemory
        ⊎ (result ≡ name_from enclosing.now (option_map (λ v. view v.now) namespace.entry) (option_map (λ s. s.now) text.entry)) }
{
    let Some(text) = text else {
        return Err(SchemaError::InvalidDeclaration);
    };
    if has_dot(text) {
        return full_name(alloc, text, enclosing);
    }
    match namespace {
        Some(value) => match value.as_str() {
            Some(space) => full_name(alloc, text, &Namespace::read(alloc, space)?),
            None => Err(SchemaError::InvalidDeclaration),
        },
        None => full_name(alloc, text, enclosing),
    }
}

/// Whether a definition has no namespace of its own, so that it is in the enclosing one.
pub(crate) fn inherits(text: Option<&str>, namespace: Option<&Value>) -> bool
    ensures { result ≡ true → (enclosing : List ℕ) (name : Name)
        → name_from enclosing (option_map (λ v. view v.now) namespace.entry) (option_map (λ s. s.now) text.entry) ≡ Ok name → name.namespace ≡ enclosing }
{
    match text {
        Some(text) => !has_dot(text) && namespace.is_none(),
        None => false,
    }
}

/// The texts of `aliases`, which may be missing.
pub(crate) fn alias_texts(alloc: Global, members: &Members) -> Result<Vec<String>, SchemaError>
    ensures found { IfOk result (λ texts. IsAttribute (alias_texts_in (members_view members.now.entries)) (texts_of texts.items)) }
    ensures refused { IfErr result (IsRefusal (alias_texts_in (members_view members.now.entries)).faults) }
{
    match member(members, "aliases") {
        Some(value) => texts(alloc, value),
        None => Ok(Vec::new(alloc)),
    }
}

/// The aliases of a type in a namespace.
pub(crate) fn aliases(
    alloc: Global,
    namespace: &Namespace,
    members: &Members,
) -> Result<Vec<FullName>, SchemaError>
    ensures found { IfOk result (λ names. IsAttribute (aliases_in namespace.now (members_view members.now.entries)) names.items) }
    ensures refused { IfErr result (IsRefusal (aliases_in namespace.now (members_view members.now.entries)).faults) }
{
    let texts = alias_texts(alloc, members)?;
    let names = full_names(alloc, namespace, &texts)?;
    Ok(names)
}

/// The fullnames that texts mean in a namespace.
fn full_names(
    alloc: Global,
    namespace: &Namespace,
    texts: &[String],
) -> Result<Vec<FullName>, SchemaError>
    ensures found { IfOk result (λ names. filter_map (λ text. name_of text namespace.now) (texts_of texts.now) ≡ names.items) }
    ensures good { IfOk result (λ names. list_all (λ text. is_some (name_of text namespace.now)) (texts_of texts.now) ≡ true) }
    ensures refused { IfErr result (λ e. (e ≡ SchemaError.OutOfMemory) ⊎ ((e ≡ SchemaError.InvalidName)
        × (list_all (λ text. is_some (name_of text namespace.now)) (texts_of texts.now) ≡ false))) }
{
    let mut names = Vec::new(alloc);
    for text in texts {
        names.push(full_name(alloc, text, namespace)?)?;
    }
    Ok(names)
}

/// The name of a field.
pub(crate) fn field_name(alloc: Global, members: &Members) -> Result<String, SchemaError>
    ensures found { IfOk result (λ name. IsAttribute (needed [] (text_in (codes "name") (members_view members.now.entries))) (string_bytes name)) }
    ensures refused { IfErr result (IsRefusal (needed {A = List ℕ} [] (text_in (codes "name") (members_view members.now.entries))).faults) }
{
    match text(members, "name") {
        Some(name) => Ok(String::from_str(alloc, name)?),
        None => Err(SchemaError::InvalidDeclaration),
    }
}

/// The symbols of an enum, and the index of its default.
pub(crate) fn symbols(
    alloc: Global,
    members: &Members,
) -> Result<(Vec<String>, Option<u32>), SchemaError>
    ensures found { IfOk result (λ r. IsAttribute (symbols_in (members_view members.now.entries)) (texts_of r.0.items, r.1)) }
    ensures refused { IfErr result (IsRefusal (symbols_in (members_view members.now.entries)).faults) }
{
    let Some(value) = member(members, "symbols") else {
        return Err(SchemaError::InvalidDeclaration);
    };
    let symbols = texts(alloc, value)?;
    let default = default_symbol(members, &symbols)?;
    Ok((symbols, default))
}

/// The index of an enum's default among its symbols.
fn default_symbol(members: &Members, symbols: &[String]) -> Result<Option<u32>, SchemaError>
    ensures found { IfOk result (IsAttribute (default_symbol_from (texts_of symbols.now) (get_member (codes "default") (members_view members.now.entries)))) }
    ensures refused { IfErr result (IsRefusal (default_symbol_from (texts_of symbols.now) (get_member (codes "default") (members_view members.now.entries))).faults) }
{
    let Some(value) = member(members, "default") else {
        return Ok(None);
    };
    match value.as_str() {
        Some(word) => match index_of_symbol(symbols, word)? {
            Some(index) => Ok(Some(index)),
            None => Err(SchemaError::InvalidSymbols),
        },
        None => Err(SchemaError::InvalidDeclaration),
    }
}

/// The number of bytes of a fixed.
pub(crate) fn size(members: &Members) -> Result<u32, SchemaError>
    ensures found { IfOk result (IsAttribute (size_in (members_view members.now.entries))) }
    ensures refused { IfErr result (IsRefusal (size_in (members_view members.now.entries)).faults) }
{
    let Some(value) = member(members, "size") else {
        return Err(SchemaError::InvalidDeclaration);
    };
    match value.as_u64() {
        Some(size) => {
            if size > FixedNode::MAX_SIZE as u64 {
                return Err(SchemaError::LimitExceeded);
            }
            Ok(size as u32)
        }
        None => Err(SchemaError::InvalidDeclaration),
    }
}
