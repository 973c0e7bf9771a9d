// Hold rules, each a type of its own: which waiting parcels keep a later one from being taken.
ghost use Rattle.std.specs.Prelude.{◌≡◌, Bool, true};
ghost use Rattle.delivery.specs.declared.parcel.Tag.{Tag};

pub mod no_hold;
pub mod same_pair;
pub mod same_receiver;

use delivery::parcel::Tag;
pub use no_hold::NoHold;
pub use same_pair::SamePair;
pub use same_receiver::SameReceiver;

pub trait HoldRule {
    // whether the first tag holds the second
    ghost held: { Self → Tag → Tag → Bool };

    fn holds(&self, first: Tag, second: Tag) -> bool
        ensures { result ≡ held self.now first second };

    ghost carries: { (s : Self) (a b c : Tag) → held s a b ≡ true → held s b c ≡ true → held s a c ≡ true };
}
