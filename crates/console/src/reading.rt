// The chart of a text, for a program.
ghost use Rattle.console.specs.Reading.{ReadIn};

use super::failures::Failure;
use chart::charting::Chart;
use reader::reading::read;
use std::alloc::Global;

// The chart of the text, or why it has none.
pub fn chart_in<M>(heap: Global, text: &[u8]) -> Result<Chart, Failure<M>>
    ensures { ReadIn text.now result }
{
    let mut chart = Chart::blank(heap);
    read(&mut chart, text).map_err(|error| Failure::refused(error, text))?;
    Ok(chart)
}

#[cfg(test)]
mod tests {
    use super::chart_in;
    use std::test::Fail;

    const TEXT: &[u8] = b"msc a; inst p, q; p: out m to q; q: in m from p; endmsc;";

    #[test]
    fn good_text_has_its_chart(rt: HostRuntime) -> Result<(), Fail> {
        let read = chart_in::<&str>(rt.alloc(), TEXT);
        let chart = read.map_err(|_| Fail::new("the text comes back"))?;
        assert!(rt; chart.instances().len() == 2);
        assert!(rt; chart.messages().len() == 1);
        assert!(rt; chart.events().len() == 2);
        Ok(())
    }
}
