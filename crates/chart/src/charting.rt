// An accepted chart, and what always holds of it.
ghost use Rattle.std.specs.Prelude.{◌≡◌, ◌≤◌, is_some, vec_len, nat_lt};
ghost use Rattle.chart.specs.Content.{AllReceived, SentOnce, SentFirst, Inside};
ghost use Rattle.chart.specs.Shown.{content_of};

pub mod asking;

use super::pieces::Parts;

// A chart place: blank, or a chart that was accepted. No later call tests again what its ghost fields say.
#[derive(Drop)]
pub struct Chart {
    pub(crate) parts: Parts,
    // only a blank place has neither title nor instance
    ghost titled: { is_some parts.title ≡ nat_lt 0 (vec_len parts.instances) },
    ghost few_events: { vec_len parts.events ≤ 128 },
    // each message has exactly one out event and one in event, and the out event has the smaller number
    ghost sent_once: { SentOnce (content_of parts) },
    ghost received_once: { AllReceived (content_of parts) },
    ghost sent_first: { SentFirst (content_of parts) },
    // each event belongs to a message of the chart
    ghost inside: { Inside (content_of parts) },
}
