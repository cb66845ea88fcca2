//! The seeds of tables of names.

use crate::survey::Survey;
use avro_texts::Seeded;

/// The seeds by which the tables of a text's names are hashed. Whoever writes the text cannot plan them.
#[derive(Clone, Copy, Drop)]
pub(crate) struct Seeds {
    /// Of the names of definitions, from those names.
    pub names: Seeded,
    /// Of all that the defaults are read by, from the whole text, if tables help to read them.
    pub defaults: Option<Seeded>,
}

impl Seeds {
    /// The seeds of a text, of which this was seen.
    pub fn of(text: &[u8], survey: Survey) -> Seeds {
        let Survey {
            names,
            needs_tables,
        } = survey;
        Seeds {
            names: names.seed(),
            defaults: if needs_tables {
                Some(Seeded::of_text(text))
            } else {
                None
            },
        }
    }

    /// The same with tables for the defaults, also where they help to read none.
    pub fn with_tables(self, text: &[u8]) -> Seeds {
        Seeds {
            names: self.names,
            defaults: Some(Seeded::of_text(text)),
        }
    }
}
