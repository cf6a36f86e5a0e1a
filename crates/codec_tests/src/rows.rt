//! Rows of tables: bytes in hexadecimal, in words.
use std::alloc::Global;

/// Whether a line of a table is a row, and no heading.
pub fn is_row(line: &str) -> bool {
    !line.is_empty() && !line.starts_with('#')
}

/// The bytes of words.
pub fn bytes_of(alloc: Global, words: &str) -> Option<Vec<u8>> {
    let mut bytes = Vec::new(alloc);
    for word in words.split(' ') {
        let field = hex::decode(alloc, word).ok()?;
        bytes.extend_from_slice(field.as_slice()).ok()?;
    }
    Some(bytes)
}
