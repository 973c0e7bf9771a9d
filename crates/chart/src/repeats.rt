// The one check for a repeat, over elements of any kind that can be told apart.
ghost use Rattle.std.specs.Prelude.{◌≡◌, Bool};
ghost use Rattle.chart.specs.Repeats.{FirstRepeat};

// Elements of which any two are the same or not. A trait of its own, since `PartialEq` has laws and one meaning for a type,
// and would ask more of callers: records of a schedule are the same if their events are.
pub trait Same {
    ghost same: { Self → Self → Bool };

    fn is_same(&self, other: &Self) -> bool
        ensures { result ≡ same self.now other.now };
}

// The first place whose element is the same as an earlier one.
pub fn first_repeat<T: Same>(items: &[T]) -> Option<usize>
    ensures { FirstRepeat T.Same.same items.now result }
{
    // A loop: of `position` over `enumerate` it is not found that no earlier place repeats one.
    for (k, item) in items.iter().enumerate() {
        if items[..k].iter().any(|earlier| earlier.is_same(item)) {
            return Some(k);
        }
    }
    None
}
