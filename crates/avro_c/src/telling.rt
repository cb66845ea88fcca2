//! What is told of an answer and of a refusal.

ghost use Rattle.std.specs.Prelude.{◌≡◌, ◌⊎◌, ℕ, List, length, IfOk};
ghost use Rattle.avro_answer.specs.CutAnswer.{IsCut};
ghost use Rattle.avro_c.specs.Buffer.{IsPut, IsUntouched};
ghost use Rattle.avro_c.specs.Told.{refusal_line};
ghost use Rattle.avro_answer.specs.declared.refusal.Refusal.TheVariants.{OutOfMemory};

use crate::buffer::{put_all, put_nothing};
use crate::status;
use avro_answer::{Answer, CutAnswer, Refusal, certificate_refusal, schema_refusal};
use std::alloc::{AllocError, Global};

/// Puts the text of an answer, and answers its status.
pub(crate) fn tell(answer: Answer, out: &mut [u8], wanted: &mut usize) -> u32
    ensures status { result ≡ answer.status }
    ensures put { IsPut answer.text.items out.old out.new wanted.new }
{
    let Answer { text, status } = answer;
    *wanted = put_all(text, out);
    u32::from(status)
}

/// Puts the text of an answer of which as much was kept as there is room for, and answers its status.
pub(crate) fn tell_cut(cut: CutAnswer, out: &mut [u8], wanted: &mut usize) -> u32
    ensures status { result ≡ cut.answer.status }
    ensures put { (text : List ℕ) → IsCut (length out.old) text cut → IsPut text out.old out.new wanted.new }
{
    let CutAnswer { answer, length } = cut;
    let status = tell(answer, out, wanted);
    *wanted = length;
    status
}

/// Puts the line of a refusal.
pub(crate) fn tell_refusal(
    alloc: Global,
    refusal: Refusal,
    out: &mut [u8],
    wanted: &mut usize,
) -> u32
    ensures known { (result ≡ 3) ⊎ (result ≡ 5) }
    ensures refused { result ≡ 3 → IsPut (refusal_line refusal) out.old out.new wanted.new }
    ensures memory { result ≡ 5 → IsUntouched out.old out.new wanted.new }
    ensures out_of_memory { refusal ≡ OutOfMemory → result ≡ 5 }
{
    match line_of(alloc, refusal) {
        Ok(line) => {
            *wanted = put_all(line, out);
            status::REFUSED
        }
        Err(_) => put_nothing(status::OUT_OF_MEMORY, wanted),
    }
}

/// The line of a refusal.
fn line_of(alloc: Global, refusal: Refusal) -> Result<Vec<u8>, AllocError>
    ensures line { IfOk result (λ line. line.items ≡ refusal_line refusal) }
    ensures memory { IfOk result (λ _. refusal ≡ OutOfMemory → ⊥) }
{
    match refusal {
        Refusal::Writer(e) => schema_refusal(alloc, "writer", e),
        Refusal::Reader(e) => schema_refusal(alloc, "reader", e),
        Refusal::Certificate(e) => certificate_refusal(alloc, "certificate", e),
        Refusal::OutOfMemory => Err(AllocError),
    }
}
