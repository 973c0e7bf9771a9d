// The pairs of events that a wiring lets come the other way round.
use super::piles::Rehearsal;
use analysis::listing::{LINE_ROOM, listing_line};
use delivery::meaning::Delivery;
use std::io;
use std::io::Write;

impl Rehearsal<'_> {
    // The listing, line by line up to its end.
    pub(crate) fn print_listing<D: Delivery>(&self, delivery: &D) -> io::Result<()> {
        println!(self.rt)?;
        let mut buffer = [0u8; LINE_ROOM];
        // A line of the listing is asked for by its number: no list of them is held, as the analysis has no heap.
        for line in 0usize.. {
            let Ok(length) = listing_line(self.chart, delivery, line, &mut buffer) else {
                break;
            };
            let Some(text) = buffer.get(..length) else {
                break;
            };
            self.rt.stdout().write_all(text)?;
        }
        Ok(())
    }
}
