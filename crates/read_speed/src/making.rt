// A text at every limit: 16 instances, 64 messages with both events, names of 24 bytes, 16,384 bytes.
use chart::pieces::Side;
use reader::reading::TEXT_LIMIT;
use samples::texts::{INSTANCES, MESSAGES, Naming};
use std::alloc::{AllocError, Global};

// What a name of 24 bytes has between its letter and its two digits.
const BETWEEN: &[u8] = b"_23456789_123456789_1";

// A line for each message, from the last instance to another.
fn push_lines(text: &mut Vec<u8>, names: &Naming, side: Side) -> Result<(), AllocError> {
    let last = INSTANCES - 1;
    for message in 0..MESSAGES {
        text.extend_from_slice(&names.line(side, message, last, message % last)?)?;
    }
    Ok(())
}

// All sends, then all receives, and blanks up to the limit.
pub(crate) fn full_text(heap: Global) -> Result<Vec<u8>, AllocError> {
    let names = Naming {
        heap,
        between: BETWEEN,
    };
    let mut lines = Vec::new(heap);
    push_lines(&mut lines, &names, Side::Out)?;
    push_lines(&mut lines, &names, Side::In)?;
    let mut text = names.chart(b"c_23456789_123456789_100", INSTANCES, &lines)?;
    text.resize(TEXT_LIMIT, b' ')?;
    Ok(text)
}
