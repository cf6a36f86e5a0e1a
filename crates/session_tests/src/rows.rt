//! Tables of text, in which each line is a row.
use std::alloc::Global;
use std::process::Abort;

/// Of a row, what it wants and what was told. Nothing stands for a row that can't be read.
pub fn check(rt: &impl Abort, row: &str, found: Option<(&str, String)>) {
    match found {
        Some((want, told)) => assert_eq!(rt; told.as_str(), want, "{row}"),
        None => assert!(rt; false, "{row}"),
    }
}

/// The bytes of a text in which `/` stands for a line feed.
pub fn with_line_feeds(alloc: Global, text: &str) -> Option<Vec<u8>> {
    let mut bytes = Vec::new(alloc);
    for byte in text.as_bytes() {
        let byte = if *byte == b'/' { b'\n' } else { *byte };
        bytes.push(byte).ok()?;
    }
    Some(bytes)
}
