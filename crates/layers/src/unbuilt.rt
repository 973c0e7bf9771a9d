// Why a layer cannot be made.
ghost use Rattle.std.specs.Prelude.{◌≡◌};
ghost use Rattle.layers.specs.Refusals.{refusal_number};

// The number asked for, and the delivery that was to stand below.
#[derive(Drop)]
pub enum Unbuilt<D> {
    // a bound's number is not 1 to 64
    BoundNumber { number: u16, below: D },
    // a relay's number is not 16 to 31
    RelayNumber { number: u16, below: D },
}

impl<D> Unbuilt<D> {
    pub fn refusal_number(&self) -> u8
        ensures { result ≡ refusal_number self.now }
    {
        match self {
            Unbuilt::BoundNumber { .. } => 11,
            Unbuilt::RelayNumber { .. } => 12,
        }
    }
}
