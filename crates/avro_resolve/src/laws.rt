//! Laws of resolution.

ghost use Rattle.std.specs.Prelude.{◌≡◌, true, List, Ok};
ghost use Rattle.avro_schema.specs.Value.{Value};
ghost use Rattle.avro_schema.specs.Node.{Node, root_of};
ghost use Rattle.avro_schema.specs.Fits.{fits};
ghost use Rattle.avro_schema.specs.WellFormed.{is_schema};
ghost use Rattle.avro_compare.specs.Resolve.{resolve_root};

/// What a writer's datum resolves to is a datum of the reader's schema.
pub fn resolved_fits()
    ensures { (writer reader : List Node) (v u : Value) → is_schema reader ≡ true
        → fits writer (root_of writer) v ≡ true → resolve_root writer reader v ≡ Ok u → fits reader (root_of reader) u ≡ true }
{}
