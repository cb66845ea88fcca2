ghost use Rattle.std.specs.Prelude.{◌≡◌, ◌∷◌, [], OnOk, MatchOption};
ghost use Rattle.avro_canonical.specs.inside.Pending.{pending_of, pendings_of};

use crate::part::Part;
use avro_schema::Memory;

/// Pushes a part, which is then the next one.
pub(crate) fn put_part<'a>(parts: &mut Vec<Part<'a>>, part: Part<'a>) -> Result<(), Memory>
    ensures { OnOk result (pendings_of parts.new.items ≡ pending_of part.entry ∷ pendings_of parts.old.items) }
{
    parts.push(part)?;
    Ok(())
}

/// Takes the next part, if any is left.
pub(crate) fn next_part<'a>(parts: &mut Vec<Part<'a>>) -> Option<Part<'a>>
    ensures { MatchOption result (pendings_of parts.old.items ≡ [])
        (λ part. pendings_of parts.old.items ≡ pending_of part ∷ pendings_of parts.new.items) }
{
    parts.pop()
}
