//! Laws of container files.

ghost use Rattle.std.specs.Prelude.{◌≡◌, ℕ, List, ◌++◌};
ghost use Rattle.avro_schema.specs.Value.{Values};
ghost use Rattle.avro_file.specs.File.{HeaderValue, IsHeader, IsFile};

use avro_binary::laws::prefix;
use avro_schema_json::laws::one_schema;

/// Bytes begin with one header at most, and no header is a proper prefix of another.
pub fn one_header()
    ensures { (h k : HeaderValue) (a b x y : List ℕ) → IsHeader h a → IsHeader k b → a ++ x ≡ b ++ y → (h ≡ k) × (a ≡ b) }
{
    prefix();
    one_schema();
}

/// Bytes are one file at most: of one header and of one list of blocks.
pub fn one_file()
    ensures { (h k : HeaderValue) (blocks others : List Values) (bytes : List ℕ) → IsFile h blocks bytes → IsFile k others bytes → (h ≡ k) × (blocks ≡ others) }
{
    prefix();
    one_schema();
}
