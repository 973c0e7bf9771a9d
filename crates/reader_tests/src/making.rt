// Texts at the limits.
use chart::pieces::Side;
use samples::texts::{Naming, lines};
use std::alloc::{AllocError, Global};

// `msc a; inst i00, i01, ..`: 12 bytes, 3 for each instance and 2 between.
pub(crate) fn list_of(heap: Global, count: u8) -> Result<Vec<u8>, AllocError> {
    let names = Naming { heap, between: b"" };
    let mut text = Vec::from_slice(heap, b"msc a; inst ")?;
    text.extend_from_slice(&names.instances(count)?)?;
    Ok(text)
}

// What stands before the lines: 17 bytes.
pub(crate) fn heading(heap: Global) -> Result<Vec<u8>, AllocError> {
    Vec::from_slice(heap, b"msc a; inst p, q;")
}

// An event line for each number, the message at the eighth byte: 16 bytes each for out lines, 17 for in lines.
pub(crate) fn add_lines(text: &mut Vec<u8>, side: Side, count: u8) -> Result<(), AllocError> {
    let lines = lines(*text.allocator(), side, count)?;
    text.extend_from_slice(&lines)
}

// The same byte over and over, up to a length.
pub(crate) fn filled(text: &mut Vec<u8>, byte: u8, length: usize) -> Result<(), AllocError> {
    let length = length.max(text.len());
    text.resize(length, byte)
}
