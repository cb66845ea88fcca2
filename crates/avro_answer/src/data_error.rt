use avro_display::PutError;
use avro_resolve::ReadResolveError;
use thiserror::Error;

/// Why the text of a datum is not put.
#[derive(Debug, Drop, Error)]
pub enum DataError {
    /// The data are refused, or memory ran out; nothing was put.
    #[error("{0}")]
    Refused(ReadResolveError),
    /// The output failed, or memory ran out; some of the text may have been put.
    #[error("{0}")]
    Put(PutError),
}
