//! An output that keeps the front of what is put.

ghost use Rattle.std.specs.Prelude.{◌≡◌, true, [], OnOk, OnErr};
ghost use Rattle.avro_answer.specs.inside.FrontKept.{Keeps, HasPut, keeps_none, keeps_chain};

use crate::answer::{Answer, CutAnswer};
use avro_device::{DeviceFault, Output};
use std::alloc::{AllocError, Global};

/// Keeps the front of what is put, and counts all of it. It fails only where memory runs out.
#[derive(Drop)]
pub(crate) struct Front {
    text: Vec<u8>,
    // how many bytes are kept at most
    capacity: usize,
    // how many were put
    length: usize,
    failures: u64,
    // the last call was a flush
    flushed: bool,
}

impl Front {
    /// Nothing is put yet.
    pub(crate) fn new(alloc: Global, capacity: usize) -> Front
        ensures empty { HasPut result [] }
        ensures capacity { result.capacity ≡ capacity }
    {
        Front {
            text: Vec::new(alloc),
            capacity,
            length: 0,
            failures: 0,
            flushed: false,
        }
    }

    /// Adds bytes.
    #[tactic(auto, using(crate::specs::inside::FrontKept::keeps_none))]
    fn add(&mut self, bytes: &[u8]) -> Result<(), AllocError>
        ensures added { OnOk result (Keeps self.old bytes.now self.new) }
        ensures kept { OnErr result (Keeps self.old [] self.new) }
        ensures failures { self.new.failures ≡ self.old.failures }
        ensures flushed { self.new.flushed ≡ self.old.flushed }
    {
        let Some(length) = self.length.checked_add(bytes.len()) else {
            return Err(AllocError);
        };
        let left = self.capacity.saturating_sub(self.text.len());
        let (front, _) = bytes.split_at(left.min(bytes.len()));
        self.text.extend_from_slice(front)?;
        self.length = length;
        Ok(())
    }

    /// The answer with this status whose text was put.
    pub(crate) fn answer(self, status: u8) -> CutAnswer
        ensures text { result.answer.text ≡ self.text }
        ensures length { result.length ≡ self.length }
        ensures status { result.answer.status ≡ status }
    {
        CutAnswer {
            answer: Answer {
                text: self.text,
                status,
            },
            length: self.length,
        }
    }
}

impl Output for Front {
    ghost keeps = { λ s bytes t. Keeps s bytes t };

    ghost stuck = { λ _. ⊥ };

    ghost flushed = { λ s. s.flushed ≡ true };

    ghost failures = { λ s. s.failures };

    ghost none = { λ s. keeps_none s };

    ghost chain = { λ s t u front back. keeps_chain s t u front back };

    fn put(&mut self, bytes: &[u8]) -> Result<usize, DeviceFault> {
        self.flushed = false;
        match self.add(bytes) {
            Ok(()) => Ok(bytes.len()),
            Err(_) => {
                self.failures = self.failures.wrapping_add(1);
                Err(DeviceFault)
            }
        }
    }

    fn flush(&mut self) -> Result<(), DeviceFault> {
        self.flushed = true;
        Ok(())
    }
}
