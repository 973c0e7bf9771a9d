// Searches among waiting parcels.
ghost use Rattle.std.specs.Prelude.{◌≡◌, find, position};
ghost use Rattle.std.specs.Option.{option_map};
ghost use Rattle.delivery.specs.Waiting.{is_of, waits_in};

use crate::hold_rule::HoldRule;
use chart::numbers::MessageId;
use delivery::parcel::{Parcel, Tag};

pub(crate) fn waits_among(parcels: &[Parcel], message: MessageId) -> bool
    ensures { result ≡ waits_in message.0 parcels.now }
{
    parcels.iter().any(|parcel| parcel.message == message)
}

// Where the message's parcel stands.
pub(crate) fn place_of(parcels: &[Parcel], message: MessageId) -> Option<usize>
    ensures { result ≡ position (is_of message.0) parcels.now }
{
    parcels.iter().position(|parcel| parcel.message == message)
}

// The first message among these parcels whose tag holds the given one.
pub(crate) fn first_holding<R: HoldRule>(
    rule: &R,
    parcels: &[Parcel],
    tag: Tag,
) -> Option<MessageId>
    ensures { result ≡ option_map (λ p. p.message) (find (λ p. R.held rule.now p.tag tag) parcels.now) }
{
    parcels
        .iter()
        .find(|parcel| rule.holds(parcel.tag, tag))
        .map(|parcel| parcel.message)
}
