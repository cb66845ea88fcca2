ghost use Rattle.std.specs.Prelude.{◌≡◌};
ghost use Rattle.avro_schema_json.specs.Declares.{type_of_word, form_of_word};
ghost use Rattle.avro_schema_json.specs.inside.ReadingSeen.{meaning_of_word, form_seen};

/// What a text is where a type is expected.
#[derive(Clone, Copy)]
pub(crate) enum Word {
    Null,
    Boolean,
    Int,
    Long,
    Bytes,
    Str,
    /// A primitive type that this program does not know.
    Unsupported,
    /// Any other, which is to name a definition.
    TypeName,
}

/// What the `type` of an object is.
#[derive(Clone, Copy)]
pub(crate) enum Form<'a> {
    Record,
    Enum,
    Fixed,
    Array,
    Map,
    Error,
    /// Any other word.
    Word(&'a str),
    /// There is none, or it is not a text.
    Missing,
}

/// What a word is where a type is expected.
pub(crate) fn word_of(word: &str) -> Word
    ensures { meaning_of_word word.now result ≡ type_of_word word.now }
{
    match word {
        "null" => Word::Null,
        "boolean" => Word::Boolean,
        "int" => Word::Int,
        "long" => Word::Long,
        "bytes" => Word::Bytes,
        "string" => Word::Str,
        "float" | "double" => Word::Unsupported,
        _ => Word::TypeName,
    }
}

/// What a word in the `type` of an object is.
pub(crate) fn form_of<'a>(word: &'a str) -> Form<'a>
    ensures { form_seen result ≡ form_of_word word.now }
{
    match word {
        "record" => Form::Record,
        "enum" => Form::Enum,
        "fixed" => Form::Fixed,
        "array" => Form::Array,
        "map" => Form::Map,
        "error" => Form::Error,
        _ => Form::Word(word),
    }
}
