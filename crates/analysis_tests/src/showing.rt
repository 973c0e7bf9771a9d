// Answers in words.
use analysis::listing::{LINE_ROOM, listing_line};
use analysis::reporting::report;
use chart::charting::Chart;
use delivery::meaning::Delivery;
use std::io;

// More lines than any listing that is shown whole.
const LINES: usize = 16;

// A chart over a wiring, and where its answers are shown.
#[derive(Drop)]
pub(crate) struct Trial<'a, D> {
    pub rt: &'a HostRuntime,
    pub chart: &'a Chart,
    pub delivery: D,
}

impl<D: Delivery> Trial<'_, D> {
    fn print_front(&self, buffer: &[u8], length: usize) -> io::Result<()> {
        match buffer.get(..length) {
            Some(front) => self.rt.write_all(front),
            None => println!(self.rt; "a line beyond its buffer"),
        }
    }

    pub(crate) fn print_line(&self, line: usize, buffer: &mut [u8]) -> io::Result<()> {
        match listing_line(self.chart, &self.delivery, line, buffer) {
            Ok(length) => self.print_front(buffer, length),
            Err(refusal) => println!(self.rt; "line {line}: refused {}", refusal.number()),
        }
    }

    fn print_lines(&self, buffer: &mut [u8]) -> io::Result<()> {
        for line in 0..LINES {
            let Ok(length) = listing_line(self.chart, &self.delivery, line, buffer) else {
                return Ok(());
            };
            self.print_front(buffer, length)?;
        }
        Ok(())
    }

    pub(crate) fn print_listing(&self, wiring: &str) -> io::Result<()> {
        println!(self.rt; "{wiring}")?;
        self.print_lines(&mut [0u8; LINE_ROOM])
    }

    // The answer to a call for a report, and the whole buffer after it.
    pub(crate) fn print_report(&self, buffer: &mut [u8]) -> io::Result<()> {
        self.print_answer(buffer)?;
        for byte in buffer.iter() {
            print!(self.rt; " {byte}")?;
        }
        println!(self.rt; "")
    }

    pub(crate) fn print_answer(&self, buffer: &mut [u8]) -> io::Result<()> {
        let room = buffer.len();
        match report(self.chart, &self.delivery, buffer) {
            Ok(pairs) => print!(self.rt; "{room} bytes: {pairs} pairs"),
            Err(refusal) => print!(self.rt; "{room} bytes: refused {}", refusal.number()),
        }
    }
}
