ghost use Rattle.std.specs.Prelude.{◌≡◌, IfOk};
ghost use Rattle.avro_resolve.specs.Ends.{turned};
ghost use Rattle.avro_compare.specs.Fault.{fault_here as here, fault_in as within};
ghost use Rattle.avro_compare.specs.Seen.{cause_of, fault_of};

use avro_compare::{Fault, FaultKind};
use std::alloc::{AllocError, Global};

/// A fault of the datum at hand.
pub(crate) fn faulty(alloc: Global, kind: FaultKind) -> Fault
    ensures { turned result ≡ here (cause_of kind) }
{
    Fault {
        kind,
        path: Vec::new(alloc),
    }
}

/// A fault of the datum at hand, kept apart.
#[inline(never)]
pub(crate) fn fault_apart(alloc: Global, kind: FaultKind) -> Result<Box<Fault>, AllocError>
    ensures { IfOk result (λ fault. turned fault.value ≡ here (cause_of kind)) }
{
    Ok(Box::new(alloc, faulty(alloc, kind))?)
}

/// The same fault, seen from the enclosing datum, where it is kept.
#[inline(never)]
pub(crate) fn step_apart(step: usize, fault: Box<Fault>) -> Result<Box<Fault>, AllocError>
    ensures { IfOk result (λ outer. turned outer.value ≡ within step (turned fault.value)) }
{
    let mut outer = fault;
    outer.path.push(step)?;
    Ok(outer)
}

/// A fault that kept its path in reverse, with its path from the root.
pub(crate) fn turn(fault: Fault) -> Fault
    ensures { fault_of result ≡ turned fault }
{
    let kind = fault.kind;
    let mut path = fault.path;
    path.reverse();
    Fault { kind, path }
}

/// The same of a fault that is kept apart.
#[inline(never)]
pub(crate) fn turn_apart(fault: Box<Fault>) -> Fault
    ensures { fault_of result ≡ turned fault.value }
{
    turn(Box::into_inner(fault))
}
