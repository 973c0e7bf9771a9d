// The records of a report.
ghost use Rattle.std.specs.Prelude.{◌≡◌};
ghost use Rattle.analysis.specs.Records.{side_byte, record_of, Small};

use super::races::Race;
use chart::pieces::Side;

pub const RECORD_BYTES: usize = 4;

// The format of a record gives these numbers; a side has none of its own.
fn side_byte(side: Side) -> u8
    ensures { result ≡ side_byte side }
{
    match side {
        Side::Out => 1,
        Side::In => 2,
    }
}

// Not a `From`, which has to take any race: a record has a byte for each number, and only those of a chart surely fit one.
pub(crate) fn record_of(race: Race) -> [u8; RECORD_BYTES]
    requires { Small race }
    ensures { result ≡ record_of race }
{
    [
        race.first.0 as u8,
        race.second.0 as u8,
        race.instance.0 as u8,
        side_byte(race.side),
    ]
}
