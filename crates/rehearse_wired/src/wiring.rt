// The wiring that is asked for.
ghost use Rattle.std.specs.Prelude.{◌≡◌, Some};
ghost use Rattle.std.specs.Result.{result_ok};
ghost use Rattle.rehearse_wired.specs.Requests.{bottom_of};
ghost use Rattle.rehearse_wired.specs.Piles.{bottom_words, wiring_words};

use std::fmt;
use std::str::FromStr;

#[derive(Clone, Copy)]
pub(crate) enum Bottom {
    Bag,
    PairedLine,
    Mailbox,
    Meeting,
}

// A word that names no bottom.
#[derive(Clone, Copy)]
pub(crate) struct UnknownBottom;

impl FromStr for Bottom {
    type Err = UnknownBottom;

    ghost from_str_gives = { λ word r. result_ok r ≡ bottom_of word };

    fn from_str(word: &str) -> Result<Bottom, UnknownBottom> {
        match word {
            "bag" => Ok(Bottom::Bag),
            "paired" => Ok(Bottom::PairedLine),
            "mailbox" => Ok(Bottom::Mailbox),
            "meeting" => Ok(Bottom::Meeting),
            _ => Err(UnknownBottom),
        }
    }
}

// The relay's number, and the names of those that send through it, with commas between.
#[derive(Drop)]
pub(crate) struct RelayWish {
    pub number: u16,
    pub members: String,
}

// A pile of at most three deliveries: the relay stands over the bound, and the bound over the bottom.
#[derive(Drop)]
pub(crate) struct Wiring {
    pub bottom: Bottom,
    pub bound: Option<u16>,
    pub relay: Option<RelayWish>,
}

impl fmt::Display for Bottom {
    ghost output = { λ bottom. Some (bottom_words bottom) };

    fn fmt<W: fmt::Write>(&self, f: &mut fmt::Formatter<W>) -> fmt::Result {
        f.write_str(match self {
            Bottom::Bag => "bag",
            Bottom::PairedLine => "paired line",
            Bottom::Mailbox => "mailbox",
            Bottom::Meeting => "meeting",
        })
    }
}

// The pile from its top to its bottom.
impl fmt::Display for Wiring {
    ghost output = { λ wiring. Some (wiring_words wiring) };

    fn fmt<W: fmt::Write>(&self, f: &mut fmt::Formatter<W>) -> fmt::Result {
        if let Some(relay) = &self.relay {
            write!(f, "relay {} of {} over ", relay.number, relay.members)?;
        }
        if let Some(number) = self.bound {
            write!(f, "bound {number} over ")?;
        }
        write!(f, "{}", self.bottom)
    }
}
