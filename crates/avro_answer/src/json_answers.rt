//! Answers as lines of JSON.

ghost use Rattle.std.specs.Prelude.{◌≡◌, ◌≤◌, ◌-◌, ◌^◌, ◌++◌, ◌∷◌, [], List, true, codes, IfOk, OnOk, option_copied, string_bytes};
ghost use Rattle.serde_json.specs.Data.{Members, member, string};
ghost use Rattle.serde_json.specs.Written.{compact_text, members_text};
ghost use Rattle.avro_schema.specs.Node.{Node};
ghost use Rattle.avro_schema.specs.Seen.{value_of};
ghost use Rattle.avro_schema.specs.Value.{size as value_size};
ghost use Rattle.avro_judge.specs.Answered.{IfRefuted};
ghost use Rattle.avro_answer.specs.JsonAnswer.{json_line, confirmed_tree, counts_tree, NamedPath, missing_key, missing_member, fault_tree, verdict_members, datum_members, judged_tree, mode_member, history_tree};
ghost use Rattle.avro_answer.specs.Texts.{cause_text};
ghost use Rattle.avro_answer.specs.inside.JsonText.{PutsMembers, named_path};
ghost use Rattle.avro_answer.specs.inside.VerdictTexts.{verdict_datum};

use crate::fault_place::{FaultPlace, place_of_verdict};
use crate::json_object::JsonObject;
use crate::verdicts::cause_word;
use avro_compare::{Fault, FaultKind};
use avro_judge::{Cause, Verdict};
use avro_schema::{Memory, Schema, size};
use std::alloc::{AllocError, Global};

/// The front of the line of a verdict, up to the datum of a no, or to the end of another verdict's object.
pub(crate) fn judged_front(
    alloc: Global,
    writer: &Schema,
    reader: &Schema,
    verdict: &Verdict<'_>,
) -> Result<String, Memory>
    requires small { IfRefuted verdict.now (λ r. value_size (value_of r.datum) ≤ 2 ^ 64 - 1) }
    ensures { IfOk result (λ front. (named : NamedPath) × ((nodes : List Node) → (string_bytes front ++ verdict_datum nodes verdict.now) ++ codes "}\n" ≡ json_line (judged_tree nodes named verdict.now))) }
{
    let place = place_of_verdict(alloc, writer, reader, verdict)?;
    Ok(front_at(alloc, verdict, &place)?)
}

/// The same by the place of its fault.
fn front_at(
    alloc: Global,
    verdict: &Verdict<'_>,
    place: &FaultPlace<'_>,
) -> Result<String, AllocError>
    requires small { IfRefuted verdict.now (λ r. value_size (value_of r.datum) ≤ 2 ^ 64 - 1) }
    ensures { IfOk result (λ front. (nodes : List Node) → (string_bytes front ++ verdict_datum nodes verdict.now) ++ codes "}\n" ≡ json_line (judged_tree nodes (named_path place.now) verdict.now)) }
{
    let mut answer = JsonObject::new(alloc)?;
    put_verdict(&mut answer, verdict, place)?;
    put_nodes(&mut answer, verdict)?;
    Ok(answer.front())
}

/// Puts the number of nodes of the datum of a no, and the key of the datum.
fn put_nodes(answer: &mut JsonObject, verdict: &Verdict<'_>) -> Result<(), AllocError>
    requires small { IfRefuted verdict.now (λ r. value_size (value_of r.datum) ≤ 2 ^ 64 - 1) }
    ensures { OnOk result ((nodes : List Node) → (string_bytes answer.new.text ++ verdict_datum nodes verdict.now) ++ 125 ∷ []
        ≡ string_bytes answer.old.text ++ members_text answer.old.later (datum_members nodes verdict.now)) }
{
    match verdict {
        Verdict::Refuted(found) => {
            answer.put_number("nodes", size(&found.datum))?;
            answer.put_key("datum")
        }
        Verdict::Approved(_) => Ok(()),
        Verdict::Undecided(_) => Ok(()),
    }
}

/// The line of a verdict in a history: the file, the mode if there are two, and the verdict.
pub(crate) fn history_line(
    alloc: Global,
    file: &str,
    mode: Option<&str>,
    writer: &Schema,
    reader: &Schema,
    verdict: &Verdict<'_>,
) -> Result<String, Memory>
    ensures { IfOk result (λ line. (named : NamedPath) × (string_bytes line ≡ json_line (history_tree file.now (option_copied mode.entry) named verdict.now))) }
{
    let place = place_of_verdict(alloc, writer, reader, verdict)?;
    Ok(line_at(alloc, file, mode, verdict, &place)?)
}

/// The same by the place of its fault.
fn line_at(
    alloc: Global,
    file: &str,
    mode: Option<&str>,
    verdict: &Verdict<'_>,
    place: &FaultPlace<'_>,
) -> Result<String, AllocError>
    ensures { IfOk result (λ line. string_bytes line ≡ json_line (history_tree file.now (option_copied mode.entry) (named_path place.now) verdict.now)) }
{
    let mut answer = JsonObject::new(alloc)?;
    answer.put_text("file", file)?;
    put_mode(&mut answer, mode)?;
    put_verdict(&mut answer, verdict, place)?;
    answer.line()
}

/// Puts the mode, if there are two.
fn put_mode(answer: &mut JsonObject, mode: Option<&str>) -> Result<(), AllocError>
    ensures { answer.old.later ≡ true → OnOk result (PutsMembers answer.old (mode_member (option_copied mode.entry)) answer.new) }
{
    match mode {
        Some(mode) => answer.put_text("mode", mode),
        None => Ok(()),
    }
}

/// Puts the members of a verdict, by the place of its fault.
fn put_verdict(
    answer: &mut JsonObject,
    verdict: &Verdict<'_>,
    place: &FaultPlace<'_>,
) -> Result<(), AllocError>
    ensures { OnOk result (PutsMembers answer.old (verdict_members (named_path place.now) verdict.now) answer.new) }
{
    match verdict {
        Verdict::Approved(_) => answer.put_text("verdict", "yes"),
        Verdict::Refuted(found) => put_no(answer, &found.fault, place),
        Verdict::Undecided(cause) => put_undecided(answer, *cause),
    }
}

/// Puts the members of a no: the verdict and the fault.
fn put_no(answer: &mut JsonObject, fault: &Fault, place: &FaultPlace<'_>) -> Result<(), AllocError>
    ensures { OnOk result (PutsMembers answer.old (λ (rest : Members). member (codes "verdict") (string (codes "no"))
        (member (codes "fault") (fault_tree fault.now (named_path place.now)) rest)) answer.new) }
{
    answer.put_text("verdict", "no")?;
    let fault = fault_json(*answer.allocator(), fault, place)?;
    answer.put_json("fault", &fault)
}

/// Puts the members of an undecided.
fn put_undecided(answer: &mut JsonObject, cause: Cause) -> Result<(), AllocError>
    ensures { OnOk result (PutsMembers answer.old (λ (rest : Members). member (codes "verdict") (string (codes "undecided"))
        (member (codes "cause") (string (cause_text cause)) rest)) answer.new) }
{
    answer.put_text("verdict", "undecided")?;
    answer.put_text("cause", cause_word(cause))
}

/// The object of a fault: its kind, the name of the field or symbol that is missing, and where it is.
fn fault_json(alloc: Global, fault: &Fault, place: &FaultPlace<'_>) -> Result<String, AllocError>
    ensures { IfOk result (λ json. string_bytes json ≡ compact_text (fault_tree fault.now (named_path place.now))) }
{
    let mut object = JsonObject::new(alloc)?;
    object.put_text("kind", fault.kind.name())?;
    put_missing(&mut object, fault.kind, place.missing)?;
    object.put_numbers("path", &fault.path)?;
    object.put_text("at", &place.at)?;
    object.json()
}

/// Puts the name of what is missing, if there is one.
fn put_missing(
    object: &mut JsonObject,
    kind: FaultKind,
    missing: Option<&str>,
) -> Result<(), AllocError>
    ensures { object.old.later ≡ true → OnOk result (PutsMembers object.old (missing_member kind (option_copied missing.entry)) object.new) }
{
    match missing {
        Some(name) => object.put_text(key_of_missing(kind), name),
        None => Ok(()),
    }
}

/// The key of what is missing.
fn key_of_missing(kind: FaultKind) -> &'static str
    ensures { result.now ≡ missing_key kind }
{
    match kind {
        FaultKind::MissingField(_) => "field",
        FaultKind::NoSymbol => "symbol",
        FaultKind::NoMatch => "symbol",
        FaultKind::NoBranch => "symbol",
        FaultKind::NotUtf8 => "symbol",
    }
}

/// The line that says whether a certificate confirms its schemas.
pub(crate) fn confirmed_line(alloc: Global, is_confirmed: bool) -> Result<String, AllocError>
    ensures { IfOk result (λ line. string_bytes line ≡ json_line (confirmed_tree is_confirmed)) }
{
    let mut answer = JsonObject::new(alloc)?;
    answer.put_bool("confirmed", is_confirmed)?;
    answer.line()
}

/// The line of JSON that says how many data and blocks a container has, by the name of its file.
///
/// # Errors
///
/// Memory ran out.
pub fn counts_line(alloc: Global, file: &str, items: u64, blocks: u64) -> Result<String, AllocError>
    ensures { IfOk result (λ line. string_bytes line ≡ json_line (counts_tree file.now items blocks)) }
{
    let mut answer = JsonObject::new(alloc)?;
    answer.put_text("file", file)?;
    answer.put_number("data", items)?;
    answer.put_number("blocks", blocks)?;
    answer.line()
}
