// The messages of a chart, sent through a delivery in drawn order.
ghost use Rattle.std.specs.Prelude.{Some};
ghost use Rattle.chart.specs.Charted.{content};
ghost use Rattle.rehearse_wired.specs.Sending.{put_words, rule_words, take_words};

use super::naming::Named;
use super::piles::Rehearsal;
use chart::charting::Chart;
use chart::charting::asking::Line;
use chart::numbers::EventId;
use chart::pieces::Side;
use delivery::meaning::Delivery;
use delivery::parcel::{Parcel, Tag};
use delivery::refusal::{Accepted, PutRefusal, TakeRefusal};
use order::tags::tag_of;
use std::{fmt, io};

// The heading of the messages' column is as wide as it is at least.
const HEADING: usize = 7;

// The call that an event on this side of its message makes.
#[derive(Clone, Copy)]
struct Call(Side);

impl fmt::Display for Call {
    fn fmt<W: fmt::Write>(&self, f: &mut fmt::Formatter<W>) -> fmt::Result {
        f.pad(match self.0 {
            Side::Out => "put",
            Side::In => "take",
        })
    }
}

#[derive(Clone, Copy)]
struct PutAnswer(Result<Accepted, PutRefusal>);

impl fmt::Display for PutAnswer {
    ghost output = { λ answer. Some (put_words answer.0) };

    fn fmt<W: fmt::Write>(&self, f: &mut fmt::Formatter<W>) -> fmt::Result {
        match self.0 {
            Ok(_) => write!(f, "accepted"),
            Err(PutRefusal::Far { layer }) => write!(f, "refused: far, layer {layer}"),
            Err(PutRefusal::Double { layer }) => write!(f, "refused: double, layer {layer}"),
            Err(PutRefusal::Full { layer }) => write!(f, "refused: full, layer {layer}"),
        }
    }
}

// What a delivery's hold rule says of a holder's tag, if it has one, and a message's.
#[derive(Clone, Copy)]
struct Rule<'a, D> {
    chart: &'a Chart,
    delivery: &'a D,
    holder: Option<Tag>,
    tag: Tag,
}

impl<D: Delivery> fmt::Display for Rule<'_, D> {
    ghost output = { λ told. Some (rule_words (content told.chart.now) (D.rule told.delivery.now) told.holder told.tag) };

    fn fmt<W: fmt::Write>(&self, f: &mut fmt::Formatter<W>) -> fmt::Result {
        let Some(holder) = self.holder else {
            return Ok(());
        };
        let verb = if self.delivery.holds(holder, self.tag) {
            "holds"
        } else {
            "does not hold"
        };
        let first = Named(self.chart, holder);
        let second = Named(self.chart, self.tag);
        write!(f, "; {first} {verb} {second}")
    }
}

// The answer to the take of a message with this tag.
#[derive(Clone, Copy)]
struct TakeAnswer<'a, D> {
    chart: &'a Chart,
    delivery: &'a D,
    tag: Tag,
    answer: Result<Parcel, TakeRefusal>,
}

impl<D: Delivery> fmt::Display for TakeAnswer<'_, D> {
    ghost output = { λ told. Some (take_words (content told.chart.now) (D.rule told.delivery.now) told.tag told.answer) };

    fn fmt<W: fmt::Write>(&self, f: &mut fmt::Formatter<W>) -> fmt::Result {
        match self.answer {
            Ok(parcel) => write!(f, "taken, {}", Named(self.chart, parcel.tag)),
            Err(TakeRefusal::Absent { layer }) => write!(f, "refused: absent, layer {layer}"),
            Err(TakeRefusal::Held { by, layer }) => {
                let holder = Named(self.chart, by);
                let rule = Rule {
                    chart: self.chart,
                    delivery: self.delivery,
                    holder: tag_of(self.chart, by),
                    tag: self.tag,
                };
                write!(f, "refused: held by message {holder}, layer {layer}{rule}")
            }
        }
    }
}

// The delivery goes from call to call beside `self`: a struct that held it by `&mut` got no proof, neither of the call that
// lends it to an answer nor of the loop over the events.
impl Rehearsal<'_> {
    // A call, its message's state after it, and the answer.
    fn print_call<D: Delivery, A: fmt::Display + Drop>(
        &self,
        delivery: &D,
        event: EventId,
        line: Line,
        width: usize,
        answer: A,
    ) -> io::Result<()> {
        let call = Call(line.side);
        let name = Named(self.chart, line.message);
        let waits = if delivery.waits(line.message) {
            "yes"
        } else {
            "no"
        };
        let count = delivery.count();
        let number = event.0;
        println!(self.rt;
            "{number:>8}  {call:<4}  {name:<width$}  {waits:<5}  {count:>5}  {answer}"
        )
    }

    // Puts the message of an out event, takes that of an in event, and tells the answer.
    fn send<D: Delivery>(&self, delivery: &mut D, event: EventId, width: usize) -> io::Result<()> {
        let Some(line) = self.chart.line(event) else {
            return Ok(());
        };
        let message = line.message;
        let Some(tag) = tag_of(self.chart, message) else {
            return Ok(());
        };
        match line.side {
            Side::Out => {
                let answer = PutAnswer(delivery.put(Parcel { message, tag }));
                self.print_call(delivery, event, line, width, answer)
            }
            Side::In => {
                let answer = delivery.take(message);
                let answer = TakeAnswer {
                    chart: self.chart,
                    delivery: &*delivery,
                    tag,
                    answer,
                };
                self.print_call(delivery, event, line, width, answer)
            }
        }
    }

    pub(crate) fn print_sending<D: Delivery>(&self, delivery: &mut D) -> io::Result<()> {
        delivery.empty();
        let capacity = delivery.capacity();
        let count = delivery.count();
        println!(self.rt; "capacity {capacity}, count {count}")?;
        let messages = self.chart.messages().iter();
        let width = messages
            .map(|message| message.name.text().len())
            .fold(HEADING, usize::max);
        println!(self.rt;
            "\n   event  call  {:<width$}  waits  count  answer",
            "message"
        )?;
        // The number is shown, and a line is told by the number of its event: the chart has no list of lines to walk.
        for event in (0..self.chart.events().len() as u16).map(EventId) {
            self.send(delivery, event, width)?;
        }
        Ok(())
    }
}
