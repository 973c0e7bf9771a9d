// The numbers that stand in tags.
ghost use Rattle.std.specs.Prelude.{◌≡◌, ◌<◌, ◌≤◌, MatchResult};

// A number that can stand in a tag as sender or receiver: that of an instance, or one that a layer shows in its place.
#[derive(Clone, Copy, PartialEq, Eq, Debug)]
pub struct Station {
    number: u8,
    ghost fits: { number < 128 },
}

// A number of no station: 128 or more.
#[derive(Clone, Copy, PartialEq, Eq, Debug)]
pub struct NoStation(pub u16);

impl TryFrom<u16> for Station {
    type Error = NoStation;

    ghost try_from_gives = { λ number made. MatchResult made (λ s. s.number ≡ number) (λ e. (128 ≤ number) × (e.0 ≡ number)) };

    fn try_from(number: u16) -> Result<Station, NoStation> {
        if number < 128 {
            Ok(Station {
                number: number as u8,
            })
        } else {
            Err(NoStation(number))
        }
    }
}

impl From<Station> for u16 {
    ghost from_gives = { λ station number. number ≡ station.number };

    fn from(station: Station) -> u16 {
        station.number as u16
    }
}
