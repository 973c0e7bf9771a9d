// Answers of the delivery below, as the layer above tells them.
ghost use Rattle.std.specs.Prelude.{◌≡◌};
ghost use Rattle.layers.specs.Layers.{deeper, put_deeper, take_deeper, told};

use delivery::refusal::{PutRefusal, TakeRefusal};

// A layer of the pile below, counted from one layer higher; the count stops at 255.
fn deeper(layer: u8) -> u8
    ensures { result ≡ deeper layer }
{
    layer.saturating_add(1)
}

// A refusal that names a layer.
pub(crate) trait Layered {
    // the same, told one layer higher
    ghost told_higher: { Self → Self };

    fn higher(self) -> Self
        ensures { result ≡ told_higher self };
}

impl Layered for PutRefusal {
    ghost told_higher = { put_deeper };

    fn higher(self) -> PutRefusal {
        match self {
            PutRefusal::Far { layer } => PutRefusal::Far {
                layer: deeper(layer),
            },
            PutRefusal::Double { layer } => PutRefusal::Double {
                layer: deeper(layer),
            },
            PutRefusal::Full { layer } => PutRefusal::Full {
                layer: deeper(layer),
            },
        }
    }
}

impl Layered for TakeRefusal {
    ghost told_higher = { take_deeper };

    fn higher(self) -> TakeRefusal {
        match self {
            TakeRefusal::Absent { layer } => TakeRefusal::Absent {
                layer: deeper(layer),
            },
            TakeRefusal::Held { by, layer } => TakeRefusal::Held {
                by,
                layer: deeper(layer),
            },
        }
    }
}

// What the delivery below answers, told one layer higher.
pub(crate) fn told<T, R: Layered>(answer: Result<T, R>) -> Result<T, R>
    ensures { result ≡ told R.told_higher answer }
{
    answer.map_err(R::higher)
}
