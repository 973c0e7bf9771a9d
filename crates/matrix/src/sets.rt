// Sets of events, a bit for each.
ghost use Rattle.std.specs.Prelude.{◌≡◌, ℕ, false, ◌&&◌, ◌||◌, ◌==◌};
ghost use Rattle.matrix.specs.Sets.{count_below, member, place_count};
ghost use Rattle.matrix.specs.Models.{has};

use super::places::Place;
use chart::drafting::EVENT_LIMIT;
use std::array;

const WORD_BITS: usize = 64;

// As many words as hold a bit for each event that a chart can have.
pub const WORDS: usize = (EVENT_LIMIT + WORD_BITS - 1) / WORD_BITS;

// Words of fixed number and no list of events: no call allocates.
#[derive(Clone, Copy)]
pub struct EventSet {
    words: [u64; WORDS],
}

// How many bits are set in all three.
fn shared_bits(first: &[u64; WORDS], second: &[u64; WORDS], third: &[u64; WORDS]) -> u32
    ensures { result ≡ count_below (λ x. member first.now x && (member second.now x && member third.now x)) place_count }
{
    first
        .iter()
        .zip(second)
        .zip(third)
        .map(|((first, second), third)| (first & (second & third)).count_ones())
        .sum()
}

impl EventSet {
    pub fn empty() -> EventSet
        ensures { (x : ℕ) → has result x ≡ false }
    {
        EventSet { words: [0; WORDS] }
    }

    pub fn contains(&self, place: Place) -> bool
        ensures { result ≡ has self.now place.number }
    {
        let at = place.index();
        self.words[at / WORD_BITS] >> (at % WORD_BITS) & 1 == 1
    }

    pub fn insert(&mut self, place: Place)
        ensures { (x : ℕ) → has self.new x ≡ (has self.old x || x == place.number) }
    {
        let at = place.index();
        self.words[at / WORD_BITS] |= 1 << (at % WORD_BITS);
    }

    pub fn union_with(&mut self, other: &EventSet)
        ensures { (x : ℕ) → has self.new x ≡ (has self.old x || has other.now x) }
    {
        // By place, since no proof knows what was written through a `zip` of `iter_mut`.
        self.words = array::from_fn(|i| self.words[i] | other.words[i]);
    }

    // How many events are in this set and in both of the others.
    pub fn meet_count(&self, second: &EventSet, third: &EventSet) -> u32
        ensures { result ≡ count_below (λ x. has self.now x && (has second.now x && has third.now x)) place_count }
    {
        shared_bits(&self.words, &second.words, &third.words)
    }
}
