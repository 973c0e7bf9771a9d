// The meaning that every delivery keeps, whatever wiring it stands for.
ghost use Rattle.std.specs.Prelude.{◌≡◌, ℕ, ◌≤◌, Bool, true, List, [], length, None, Option};
ghost use Rattle.delivery.specs.Waiting.{message_limit, waits_in, distinct};
ghost use Rattle.delivery.specs.Answers.{Ground, Put, Take, PutNames, TakeNames};
ghost use Rattle.delivery.specs.declared.parcel.Tag.{Tag};
ghost use Rattle.delivery.specs.declared.parcel.Parcel.{Parcel};

use crate::parcel::{Parcel, Tag};
use crate::refusal::{Accepted, PutRefusal, TakeRefusal};
use chart::numbers::MessageId;

pub trait Delivery {
    // the waiting parcels, in the order in which they were accepted
    ghost waiting: { Self → List Parcel };

    // the hold rule: whether a waiting parcel of the first tag holds a later one of the second
    ghost rule: { Self → Tag → Tag → Bool };

    // the capacity: how many parcels may wait at once
    ghost room: { Self → ℕ };

    // true from the first `empty` on; before it, only `holds` and `capacity` promise anything
    ghost started: { Self → Type 0 };

    // the layer that a refusal on this ground names while so many parcels wait; None where it may name any
    ghost layer: { Self → ℕ → Ground → Option ℕ } = { λ _ _ _. None };

    // That rule, room and layer stay as they are is said thrice, by a clause each: one clause of all three would be no plainer,
    // since whoever keeps or uses it proves and names them one by one.
    fn put(&mut self, parcel: Parcel) -> Result<Accepted, PutRefusal>
        ensures rule { rule self.new ≡ rule self.old }
        ensures room { room self.new ≡ room self.old }
        ensures layer { layer self.new ≡ layer self.old }
        ensures starts { started self.old → started self.new }
        ensures puts { started self.old → Put (room self.old) (waiting self.old) parcel result (waiting self.new) }
        ensures names { started self.old → PutNames (layer self.old (length (waiting self.old))) result };

    fn take(&mut self, message: MessageId) -> Result<Parcel, TakeRefusal>
        ensures rule { rule self.new ≡ rule self.old }
        ensures room { room self.new ≡ room self.old }
        ensures layer { layer self.new ≡ layer self.old }
        ensures starts { started self.old → started self.new }
        ensures takes { started self.old → Take (rule self.old) (waiting self.old) message.0 result (waiting self.new) }
        ensures names { started self.old → TakeNames (layer self.old (length (waiting self.old))) result };

    fn empty(&mut self)
        ensures rule { rule self.new ≡ rule self.old }
        ensures room { room self.new ≡ room self.old }
        ensures layer { layer self.new ≡ layer self.old }
        ensures starts { started self.new }
        ensures empties { waiting self.new ≡ [] };

    fn count(&self) -> usize
        ensures { started self.now → result ≡ length (waiting self.now) };

    fn waits(&self, message: MessageId) -> bool
        ensures { started self.now → result ≡ waits_in message.0 (waiting self.now) };

    fn holds(&self, first: Tag, second: Tag) -> bool
        ensures { result ≡ rule self.now first second };

    fn capacity(&self) -> u16
        ensures { result ≡ room self.now };

    ghost transitive: { (s : Self) (a b c : Tag) → rule s a b ≡ true → rule s b c ≡ true → rule s a c ≡ true };

    ghost some: { (s : Self) → 1 ≤ room s };

    ghost few: { (s : Self) → room s ≤ message_limit };

    ghost fits: { (s : Self) → started s → length (waiting s) ≤ room s };

    ghost once: { (s : Self) → started s → distinct (waiting s) ≡ true };
}
