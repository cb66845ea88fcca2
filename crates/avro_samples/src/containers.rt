//! Container files.

use avro_zigzag::write_long;
use std::alloc::{AllocError, Global};

/// The sync marker of the files.
pub const MARK: [u8; 16] = [0, 1, 2, 3, 4, 5, 6, 7, 8, 9, 10, 11, 12, 13, 14, 15];

/// A header without blocks, 41 bytes.
pub const NULL_HEADER: &[u8] =
    b"Obj\x01\x02\x16avro.schema\x0c\"null\"\x00\x00\x01\x02\x03\x04\x05\x06\x07\x08\x09\x0a\x0b\x0c\x0d\x0e\x0f";

/// Three data in one block, 59 bytes.
pub const NULLS: &[u8] =
    b"Obj\x01\x02\x16avro.schema\x0c\"null\"\x00\x00\x01\x02\x03\x04\x05\x06\x07\x08\x09\x0a\x0b\x0c\x0d\x0e\x0f\x06\x00\x00\x01\x02\x03\x04\x05\x06\x07\x08\x09\x0a\x0b\x0c\x0d\x0e\x0f";

/// One int, 59 bytes.
pub const FIVE: &[u8] =
    b"Obj\x01\x02\x16avro.schema\x0a\"int\"\x00\x00\x01\x02\x03\x04\x05\x06\x07\x08\x09\x0a\x0b\x0c\x0d\x0e\x0f\x02\x02\x0a\x00\x01\x02\x03\x04\x05\x06\x07\x08\x09\x0a\x0b\x0c\x0d\x0e\x0f";

/// The reader's schema for the copy of the int.
pub const LONG_OR_INT: &str = r#"["long","int"]"#;

/// The copy of the int, 69 bytes.
pub const FIVE_COPIED: &[u8] =
    b"Obj\x01\x02\x16avro.schema\x1c[\"long\",\"int\"]\x00\x00\x01\x02\x03\x04\x05\x06\x07\x08\x09\x0a\x0b\x0c\x0d\x0e\x0f\x02\x04\x00\x0a\x00\x01\x02\x03\x04\x05\x06\x07\x08\x09\x0a\x0b\x0c\x0d\x0e\x0f";

/// A file with this encoded metadata and these blocks, each followed by the sync marker.
///
/// # Errors
///
/// Memory ran out.
fn file_with(alloc: Global, metadata: &[u8], blocks: &[&[u8]]) -> Result<Vec<u8>, AllocError> {
    let mut file = Vec::new(alloc);
    file.extend_from_slice(b"Obj\x01")?;
    file.extend_from_slice(metadata)?;
    file.extend_from_slice(&MARK)?;
    for block in blocks {
        file.extend_from_slice(block)?;
        file.extend_from_slice(&MARK)?;
    }
    Ok(file)
}

/// A file with this schema text and these blocks.
///
/// # Errors
///
/// Memory ran out.
pub fn file_of(alloc: Global, text: &str, blocks: &[&[u8]]) -> Result<Vec<u8>, AllocError> {
    let mut metadata = Vec::new(alloc);
    let (spelling, len) = write_long(i64::try_from(text.len()).unwrap_or(0));
    metadata.extend_from_slice(b"\x02\x16avro.schema")?;
    metadata.extend_from_slice(&spelling[..len])?;
    metadata.extend_from_slice(text.as_bytes())?;
    metadata.push(0)?;
    file_with(alloc, &metadata, blocks)
}
