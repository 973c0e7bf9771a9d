// From a draft to a chart.
ghost use Rattle.std.specs.Prelude.{◌≡◌};
ghost use Rattle.std.specs.Option.{option_map};
ghost use Rattle.chart.specs.Charted.{content};
ghost use Rattle.chart.specs.Drafted.{drafted};
ghost use Rattle.chart.specs.Drafting.{finished};

use super::super::charting::Chart;
use super::Draft;

impl Draft {
    // The chart, if each of its messages is received.
    pub fn finish(self) -> Option<Chart>
        ensures { option_map content result ≡ finished (drafted self) }
    {
        // Tested before the parts move: the chart's invariant rests on it, and a closure under `then` has no proof of it.
        if !self.all_received() {
            return None;
        }
        let Draft { parts } = self;
        Some(Chart { parts })
    }
}
