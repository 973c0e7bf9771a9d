// How often a program runs what it measures, and what it sums up.
ghost use Rattle.std.specs.Prelude.{◌≡◌, ◌+◌, ◌*◌, ◌%◌, ◌^◌, MatchOption, Ok, string_bytes};
ghost use Rattle.std.specs.Str.Parse.{ParsesUnsigned};

use std::num::ParseIntError;

// How often, where no word says it.
pub const FEW: u64 = 200;

// The number that the word says, or the usual one if there is no word.
pub fn times(word: Option<String>, usual: u64) -> Result<u64, ParseIntError>
    ensures { MatchOption word (result ≡ Ok usual) (λ w. ParsesUnsigned 64 10 (string_bytes w) result) }
{
    word.map_or(Ok(usual), |word| word.as_str().parse())
}

// A sum with one more number, in which the places of the numbers count.
pub fn mixed(sum: u64, number: u64) -> u64
    ensures { result ≡ (sum * 31 + number) % 2 ^ 64 }
{
    sum.wrapping_mul(31).wrapping_add(number)
}
