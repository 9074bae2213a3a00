// Words that spell numbers.
ghost use Rattle.std.specs.Prelude.{◌≡◌, ◌<◌, ◌^◌, ℕ, decimal, IfSome, IfNone};
ghost use Rattle.command_words.specs.Words.{IsNumber};

use itoa::Buffer;

/// The number whose decimal digits the word is, without sign or leading zero.
fn spelled(word: &str) -> Option<u64>
    ensures number { IfSome result (λ number. word.now ≡ decimal number) }
    ensures none { IfNone result ((n : ℕ) → n < 2 ^ 64 → word.now ≡ decimal n → ⊥) }
{
    let Ok(number) = word.parse::<u64>() else {
        return None;
    };
    let mut buffer = Buffer::new();
    if buffer.format(number) == word {
        Some(number)
    } else {
        None
    }
}

/// The number that the word spells, where it is within the limits.
pub(crate) fn read_number(word: &str, low: u64, high: u64) -> Option<u64>
    ensures number { IfSome result (IsNumber low high word.now) }
    ensures none { IfNone result ((n : ℕ) → IsNumber low high word.now n → ⊥) }
{
    let Some(number) = spelled(word) else {
        return None;
    };
    if number < low {
        return None;
    }
    if high < number {
        return None;
    }
    Some(number)
}
