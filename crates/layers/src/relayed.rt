// A relay over any delivery.
ghost use Rattle.std.specs.Prelude.{◌≡◌};
ghost use Rattle.std.proofs.Common.{◌∙◌};
ghost use Rattle.layers.specs.Layers.{layer_below};
ghost use Rattle.layers.specs.Made.{RelayMade};
ghost use Rattle.layers.specs.Shown.{shown, lifted, as_given, Agree};
ghost use Rattle.layers.specs.Tags.{length_as_given, distinct_as_given};

use crate::deeper::told;
use crate::group::Group;
use crate::relay::{GREATEST_RELAY, LEAST_RELAY, Relay};
use crate::unbuilt::Unbuilt;
use chart::numbers::MessageId;
use delivery::limits::MESSAGE_PLACES;
use delivery::meaning::Delivery;
use delivery::parcel::{Parcel, Tag};
use delivery::refusal::{Accepted, PutRefusal, TakeRefusal};
use delivery::station::Station;

impl<D: Delivery> Relay<D> {
    // A relay is 16 to 31; for another number the delivery comes back.
    pub fn new(below: D, group: Group, number: u16) -> Result<Relay<D>, Unbuilt<D>>
        ensures { RelayMade below group number result }
    {
        match Station::try_from(number) {
            Ok(station) if (LEAST_RELAY..=GREATEST_RELAY).contains(&number) => {
                let blank = Tag {
                    sender: station,
                    receiver: station,
                };
                Ok(Relay {
                    below,
                    group,
                    station,
                    given: [blank; MESSAGE_PLACES],
                })
            }
            _ => Err(Unbuilt::RelayNumber { number, below }),
        }
    }

    // Takes the layer off.
    pub fn into_below(self) -> D
        ensures { result ≡ self.below }
    {
        let Relay { below, .. } = self;
        below
    }

    // The tag as the delivery below sees it.
    fn show(&self, tag: Tag) -> Tag
        ensures { result ≡ shown self.now.group.0 self.now.station tag }
    {
        if self.group.has(tag.sender) {
            Tag {
                sender: self.station,
                ..tag
            }
        } else {
            tag
        }
    }

    // A parcel from below, with the tag that it was put with above.
    fn lift(&self, parcel: Parcel) -> Parcel
        ensures { result ≡ lifted self.now.given parcel }
    {
        let given = self.given.get(parcel.message.0 as usize);
        Parcel {
            tag: given.copied().unwrap_or(parcel.tag),
            ..parcel
        }
    }
}

impl<D: Delivery> Delivery for Relay<D> {
    ghost waiting = { λ s. as_given s.given (D.waiting s.below) };

    ghost rule = { λ s a b. D.rule s.below (shown s.group.0 s.station a) (shown s.group.0 s.station b) };

    ghost room = { λ s. D.room s.below };

    ghost started = { λ s. D.started s.below × Agree (shown s.group.0 s.station) s.given (D.waiting s.below) };

    ghost layer = { λ s count. layer_below (D.layer s.below count) };

    ghost transitive = { λ s _ _ _. D.transitive s.below _ _ _ };

    ghost some = { λ s. D.some s.below };

    ghost few = { λ s. D.few s.below };

    ghost fits = { λ s a. rw (length_as_given s.given (D.waiting s.below)) (D.fits s.below a.0) };

    ghost once = { λ s a. distinct_as_given s.given (D.waiting s.below) ∙ D.once s.below a.0 };

    #[tactic(auto, using(crate::proofs::Relays::relay_refuse))]
    fn put(&mut self, parcel: Parcel) -> Result<Accepted, PutRefusal> {
        let tag = self.show(parcel.tag);
        let accepted = told(self.below.put(Parcel { tag, ..parcel }))?;
        let i = parcel.message.0 as usize;
        if i < MESSAGE_PLACES {
            // by index, since of a write through an array's `get_mut` a proof knows no element
            self.given[i] = parcel.tag;
        }
        Ok(accepted)
    }

    #[tactic(auto, using(crate::proofs::Relays::relay_takes))]
    fn take(&mut self, message: MessageId) -> Result<Parcel, TakeRefusal> {
        told(self.below.take(message)).map(|parcel| self.lift(parcel))
    }

    fn empty(&mut self) {
        self.below.empty();
    }

    #[tactic(auto, using(crate::specs::Tags::length_as_given))]
    fn count(&self) -> usize {
        self.below.count()
    }

    #[tactic(auto, using(crate::specs::Tags::waits_as_given))]
    fn waits(&self, message: MessageId) -> bool {
        self.below.waits(message)
    }

    fn holds(&self, first: Tag, second: Tag) -> bool {
        self.below.holds(self.show(first), self.show(second))
    }

    fn capacity(&self) -> u16 {
        self.below.capacity()
    }
}
