// Whether two charts say the same.
use chart::charting::Chart;

pub(crate) fn same_charts(a: &Chart, b: &Chart) -> bool {
    a.title() == b.title()
        && a.instances() == b.instances()
        && a.messages() == b.messages()
        && a.events() == b.events()
}
