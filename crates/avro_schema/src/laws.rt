//! Laws about data and schemas.

ghost use Rattle.std.specs.Prelude.{◌≡◌, ◌<◌, ◌↔◌, true, List};
ghost use Rattle.avro_schema.specs.Faulty.{NodeFault, IsThere};
ghost use Rattle.avro_schema.specs.Node.{Node};
ghost use Rattle.avro_schema.specs.Value.{Value, IsPart, size};
ghost use Rattle.avro_schema.specs.WellFormed.{is_schema};

/// A part of a datum has fewer nodes than the whole.
pub fn parts_are_smaller()
    ensures { (part whole : Value) → IsPart part whole → size part < size whole }
{}

/// Nodes form a schema if and only if they have no fault.
pub fn schema_where_no_fault()
    ensures { (nodes : List Node) → is_schema nodes ≡ true ↔ ((fault : NodeFault) → IsThere fault nodes → ⊥) }
{}
