// Numbers of a chart, told by the names that it has for them.
ghost use Rattle.std.specs.Prelude.{Some};
ghost use Rattle.chart.specs.Charted.{content};
ghost use Rattle.rehearse_wired.specs.Names.{ends_words, message_words, station_words};

use chart::charting::Chart;
use chart::numbers::{InstanceId, MessageId};
use console::table::shown;
use delivery::parcel::Tag;
use delivery::station::Station;
use std::fmt;

// A value that is told by names of the chart.
#[derive(Clone, Copy)]
pub(crate) struct Named<'a, T>(pub &'a Chart, pub T);

impl fmt::Display for Named<'_, MessageId> {
    ghost output = { λ named. Some (message_words (content named.0.now) named.1) };

    fn fmt<W: fmt::Write>(&self, f: &mut fmt::Formatter<W>) -> fmt::Result {
        let message = self.0.messages().get(self.1.0 as usize);
        f.pad(message.map_or("unknown", |message| shown(&message.name)))
    }
}

impl fmt::Display for Named<'_, InstanceId> {
    fn fmt<W: fmt::Write>(&self, f: &mut fmt::Formatter<W>) -> fmt::Result {
        let instance = self.0.instances().get(self.1.0 as usize);
        f.write_str(instance.map_or("", shown))
    }
}

impl fmt::Display for Named<'_, Station> {
    ghost output = { λ named. Some (station_words (content named.0.now) named.1) };

    fn fmt<W: fmt::Write>(&self, f: &mut fmt::Formatter<W>) -> fmt::Result {
        let instance = self.0.instances().get(u16::from(self.1) as usize);
        f.write_str(instance.map_or("unknown", shown))
    }
}

// From whom to whom.
impl fmt::Display for Named<'_, Tag> {
    ghost output = { λ named. Some (ends_words (content named.0.now) named.1) };

    fn fmt<W: fmt::Write>(&self, f: &mut fmt::Formatter<W>) -> fmt::Result {
        let sender = Named(self.0, self.1.sender);
        let receiver = Named(self.0, self.1.receiver);
        write!(f, "{sender} to {receiver}")
    }
}
