//! What is looked at in a whole tree before its declarations are read.

ghost use Rattle.std.specs.Prelude.{◌≡◌};
ghost use Rattle.serde_json.specs.View.{view, items_view, members_view};
ghost use Rattle.serde_json.specs.Written.{has_float as float_in, items_have_float as float_in_items, members_have_float as float_in_members};

use crate::declarations::attributes::{form, text};
use crate::declarations::words::Form;
use avro_texts::Seeding;
use serde_json::{Map, Value};

/// What was seen of a tree so far.
#[derive(Drop)]
pub(crate) struct Survey {
    /// The names and namespaces of definitions.
    pub names: Seeding,
    /// Whether a default is a text or has parts, so that tables help to read it.
    pub needs_tables: bool,
}

impl Survey {
    /// Nothing yet.
    pub fn new() -> Survey {
        Survey {
            names: Seeding::new(),
            needs_tables: false,
        }
    }

    /// Whether a number somewhere in a tree is not a whole number of 64 bits. The tree is looked at up to the first such number.
    #[cycle(floats)]
    pub fn has_float(&mut self, tree: &Value) -> bool
        ensures { result ≡ float_in (view tree.now) }
    {
        match tree {
            Value::Null | Value::Bool(_) | Value::String(_) => false,
            Value::Number(number) => number.is_f64(),
            Value::Array(items) => self.items_have_float(items),
            Value::Object(members) => {
                self.take_definition(members);
                self.members_have_float(members)
            }
        }
    }

    /// Whether one of some items has such a number.
    #[cycle(floats)]
    fn items_have_float(&mut self, items: &Vec<Value>) -> bool
        ensures { result ≡ float_in_items (items_view items.now.items) }
    {
        for item in items {
            if self.has_float(item) {
                return true;
            }
        }
        false
    }

    /// Whether one of the values of some members has such a number.
    #[cycle(floats)]
    fn members_have_float(&mut self, members: &Map<String, Value>) -> bool
        ensures { result ≡ float_in_members (members_view members.now.entries) }
    {
        for (_, value) in members.iter() {
            if self.has_float(value) {
                return true;
            }
        }
        false
    }

    /// Takes in the name and the namespace of a definition, and looks at the default of what is none.
    fn take_definition(&mut self, members: &Map<String, Value>) {
        match form(members) {
            Form::Record | Form::Enum | Form::Fixed => {
                self.take_text(text(members, "name"));
                self.take_text(text(members, "namespace"));
            }
            _ => self.take_default(members.get("default")),
        }
    }

    /// Looks at a default, if there is one.
    fn take_default(&mut self, default: Option<&Value>) {
        if let Some(default) = default {
            self.needs_tables = self.needs_tables || is_helped(default);
        }
    }

    /// Takes in a text, if there is one, and its end.
    fn take_text(&mut self, text: Option<&str>) {
        if let Some(text) = text {
            self.names.take(text.as_bytes());
        }
        self.names.take(&[0]);
    }
}

/// Whether tables help to read a default: a text, or what has parts.
fn is_helped(default: &Value) -> bool {
    match default {
        Value::String(_) => true,
        Value::Array(items) => items.len() > 0,
        Value::Object(members) => members.len() > 0,
        _ => false,
    }
}
