// A chart of 16 instances, 64 messages and 128 events: each message goes from one instance to another, and is received
// after eight more have been sent.
use chart::pieces::Side;
use samples::texts::{INSTANCES, MESSAGES, Naming};
use std::alloc::{AllocError, Global};

const ON_THE_WAY: u8 = 8;

fn sender(message: u8) -> u8 {
    message % INSTANCES
}

fn receiver(message: u8) -> u8 {
    (message % INSTANCES + 1 + message % (INSTANCES - 1)) % INSTANCES
}

fn push_line(
    text: &mut Vec<u8>,
    names: &Naming,
    side: Side,
    message: u8,
) -> Result<(), AllocError> {
    text.extend_from_slice(&names.line(side, message, sender(message), receiver(message))?)
}

fn push_lines(text: &mut Vec<u8>, names: &Naming) -> Result<(), AllocError> {
    for message in 0..MESSAGES {
        push_line(text, names, Side::Out, message)?;
        if message >= ON_THE_WAY {
            push_line(text, names, Side::In, message - ON_THE_WAY)?;
        }
    }
    for message in MESSAGES - ON_THE_WAY..MESSAGES {
        push_line(text, names, Side::In, message)?;
    }
    Ok(())
}

pub(crate) fn ring_text(heap: Global) -> Result<Vec<u8>, AllocError> {
    let names = Naming { heap, between: b"" };
    let mut lines = Vec::new(heap);
    push_lines(&mut lines, &names)?;
    names.chart(b"ring", INSTANCES, &lines)
}
