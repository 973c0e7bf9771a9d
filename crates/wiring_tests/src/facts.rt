// Facts about whole piles, each proved from the contracts of its parts alone.
ghost use Rattle.std.specs.Prelude.{◌≡◌, ◌≤◌, false, ◌&&◌, Err, ◌==◌};
ghost use Rattle.delivery.specs.declared.refusal.PutRefusal.TheVariants.{Far, Full};
ghost use Rattle.delivery.specs.declared.refusal.TakeRefusal.TheVariants.{Absent};
ghost use Rattle.delivery.specs.Answers.{full};
ghost use Rattle.delivery.specs.Waiting.{message_limit};
ghost use Rattle.wiring_tests.specs.Piles.{Apart, SecondIsFull};

use chart::numbers::MessageId;
use delivery::meaning::Delivery;
use delivery::parcel::{Parcel, Tag};
use delivery::refusal::{Accepted, PutRefusal, TakeRefusal};
use layers::bound::Bound;
use layers::relay::Relay;
use wirings::bottoms::{Bag, Mailbox, Meeting, PairedLine};

fn bag_holds(bag: &Bag, first: Tag, second: Tag) -> bool
    ensures { result ≡ false }
{
    bag.holds(first, second)
}

fn paired_line_holds(line: &PairedLine, first: Tag, second: Tag) -> bool
    ensures { result ≡ (first.sender.number == second.sender.number && first.receiver.number == second.receiver.number) }
{
    line.holds(first, second)
}

fn mailbox_holds(mailbox: &Mailbox, first: Tag, second: Tag) -> bool
    ensures { result ≡ (first.receiver.number == second.receiver.number) }
{
    mailbox.holds(first, second)
}

// A meeting is a bag but for its capacity.
fn meeting_holds(meeting: &Meeting, first: Tag, second: Tag) -> bool
    ensures { result ≡ false }
{
    meeting.holds(first, second)
}

// The two parcels stay two parameters: each clause names one of them, and a struct would be taken apart in each.

// Over any delivery of capacity 1 the second of two messages comes back as full, and names the layer laid down for it.
fn second_put<D: Delivery>(
    delivery: &mut D,
    first: Parcel,
    second: Parcel,
) -> Result<Accepted, PutRefusal>
    ensures { Apart first second → D.Delivery.room delivery.old ≡ 1 → SecondIsFull (D.Delivery.layer delivery.old 1 full) result }
{
    delivery.empty();
    let _ = delivery.put(first);
    delivery.put(second)
}

// Below a relay the meeting is layer 1.
fn relay_over_meeting(
    pile: &mut Relay<Meeting>,
    first: Parcel,
    second: Parcel,
) -> Result<Accepted, PutRefusal>
    ensures { Apart first second → pile.old.below.capacity ≡ 1 → result ≡ Err (Full 1) }
{
    second_put(pile, first, second)
}

// The bound at its limit is named, not the bottom.
fn tall_pile(
    pile: &mut Relay<Bound<Relay<PairedLine>>>,
    first: Parcel,
    second: Parcel,
) -> Result<Accepted, PutRefusal>
    ensures { Apart first second → pile.old.below.limit ≡ 1 → result ≡ Err (Full 1) }
{
    second_put(pile, first, second)
}

// The uppermost bound at its limit is named, and the bottom if no bound is.
fn bounds_over_meeting(
    pile: &mut Bound<Bound<Meeting>>,
    first: Parcel,
    second: Parcel,
) -> Result<Accepted, PutRefusal>
    ensures outer { Apart first second → pile.old.limit ≡ 1 → result ≡ Err (Full 0) }
    ensures inner { Apart first second → pile.old.limit ≡ 2 → pile.old.below.limit ≡ 1 → result ≡ Err (Full 1) }
    ensures bottom { Apart first second → pile.old.limit ≡ 2 → pile.old.below.limit ≡ 2 → pile.old.below.below.capacity ≡ 1 → result ≡ Err (Full 2) }
{
    second_put(pile, first, second)
}

// Every refusal but full names the bottom.
fn far_from_tall_pile(
    pile: &mut Relay<Bound<Relay<PairedLine>>>,
    parcel: Parcel,
) -> Result<Accepted, PutRefusal>
    ensures { message_limit ≤ parcel.message.0 → result ≡ Err (Far 3) }
{
    pile.empty();
    pile.put(parcel)
}

fn absent_from_tall_pile(
    pile: &mut Relay<Bound<Relay<PairedLine>>>,
    message: MessageId,
) -> Result<Parcel, TakeRefusal>
    ensures { result ≡ Err (Absent 3) }
{
    pile.empty();
    pile.take(message)
}
