//! Words that are numbers in decimal.
ghost use Rattle.std.specs.Prelude.{◌≡◌, ◌<◌, ◌≤◌, ◌^◌, ℕ, List, decimal, length, map, IfSome, IfNone};
ghost use Rattle.std.specs.List.{All};
ghost use Rattle.clap.specs.Walk.{texts};

use arrayvec::ArrayVec;
use itoa::Buffer;

/// The most numbers of a command line.
pub const MOST_NUMBERS: usize = 6;

/// The numbers of a command line, in order.
pub type Numbers = ArrayVec<u32, MOST_NUMBERS>;

/// The number that a word writes: digits, with no zero in front of others.
fn number_of(word: &str) -> Option<u32>
    ensures found { IfSome result (λ n. word.now ≡ decimal n) }
    ensures none { IfNone result ((n : ℕ) → n < 2 ^ 32 → word.now ≡ decimal n → ⊥) }
{
    let Ok(n) = word.parse::<u32>() else {
        return None;
    };
    let mut buffer = Buffer::new();
    if buffer.format(n).as_bytes() == word.as_bytes() {
        Some(n)
    } else {
        None
    }
}

/// The numbers that words write, where each of them writes one and there are not too many.
pub fn numbers_of(words: &[&str]) -> Option<Numbers>
    ensures found { IfSome result (λ numbers. texts words.now ≡ map decimal numbers.items) }
    ensures small { IfSome result (λ numbers. All (λ n. n < 2 ^ 32) numbers.items) }
    ensures none { IfNone result ((numbers : List ℕ) → length numbers ≤ MOST_NUMBERS
        → All (λ n. n < 2 ^ 32) numbers → texts words.now ≡ map decimal numbers → ⊥) }
{
    let mut numbers = Numbers::new();
    for word in words {
        let Some(n) = number_of(word) else {
            return None;
        };
        let Ok(()) = numbers.try_push(n) else {
            return None;
        };
    }
    Some(numbers)
}
