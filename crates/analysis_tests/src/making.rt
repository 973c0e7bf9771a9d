// A chart with as many messages as a chart can have.
use chart::pieces::Side;
use samples::texts::{MESSAGES, lines};
use std::alloc::{AllocError, Global};

// All are sent, and then all are received in the same order.
pub(crate) fn wide_text(heap: Global) -> Result<Vec<u8>, AllocError> {
    let mut text = Vec::from_slice(heap, b"msc wide; inst p, q;")?;
    text.extend_from_slice(&lines(heap, Side::Out, MESSAGES)?)?;
    text.extend_from_slice(&lines(heap, Side::In, MESSAGES)?)?;
    text.extend_from_slice(b"endmsc;")?;
    Ok(text)
}
