// Handing a message over to a delivery, and taking it back.
ghost use Rattle.bench.specs.Steps.{Serves, SendsOff, TakesIn, HandsOver};

use crate::layout::Placed;
use crate::refusal::Obstacle;
use chart::numbers::MessageId;
use chart::pieces::Side;
use delivery::meaning::Delivery;
use delivery::parcel::Parcel;

// `Serves` is said by each of these: it tells what a delivery is after beside what it was before, so no type can hold it.
fn send_off<D: Delivery>(delivery: &mut D, parcel: Parcel) -> Result<(), Obstacle>
    ensures serves { Serves D.Delivery delivery.old delivery.new }
    ensures sends { SendsOff D.Delivery delivery.old parcel result delivery.new }
{
    delivery.put(parcel)?;
    Ok(())
}

fn take_in<D: Delivery>(delivery: &mut D, message: MessageId) -> Result<(), Obstacle>
    ensures serves { Serves D.Delivery delivery.old delivery.new }
    ensures takes { TakesIn D.Delivery delivery.old message.0 result delivery.new }
{
    delivery.take(message)?;
    Ok(())
}

// What an event does to the delivery.
pub(crate) fn hand_over<D: Delivery>(delivery: &mut D, place: Placed) -> Result<(), Obstacle>
    ensures serves { Serves D.Delivery delivery.old delivery.new }
    ensures hands { HandsOver D.Delivery delivery.old place result delivery.new }
{
    let message = place.line.message;
    let parcel = Parcel {
        message,
        tag: place.tag,
    };
    match place.line.side {
        Side::Out => send_off(delivery, parcel),
        Side::In => take_in(delivery, message),
    }
}
