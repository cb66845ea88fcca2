//! The version of the program.

use crate::Finding;
use crate::failure::Failure;
use crate::printing::print;
use avro_device::Output;
use std::alloc::Global;

/// The version.
pub(crate) const VERSION: &str = "1.0.0";

/// Prints the version.
pub(crate) fn tell_version<'a, O: Output>(
    alloc: Global,
    out: &mut O,
) -> Result<Finding, Failure<'a>> {
    let line = format!(in alloc; "avro {VERSION}\n")?;
    print(out, &line)?;
    Ok(Finding::Good)
}
