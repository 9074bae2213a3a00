// Integers of any length: an optional sign and digits (XML Schema Part 2, section 3.3.13).
ghost use Rattle.std.specs.Prelude.{◌≡◌, ◌≤◌, ◌==◌, length};
ghost use Rattle.std.specs.List.{list_all, prefix_len};
ghost use Rattle.rng_model.specs.Kinds.{has_minus, is_digit, without_sign, is_integer, magnitude, is_zero, same_integer};

pub(crate) fn has_minus(number: &str) -> bool
    ensures { result ≡ has_minus number.now }
{
    matches!(number.as_bytes(), [b'-', ..])
}

fn without_sign(number: &str) -> &str
    ensures { result.now ≡ without_sign number.now }
{
    match number.as_bytes() {
        [b'+' | b'-', ..] => &number[1..],
        _ => number,
    }
}

fn zero_count(digits: &[u8]) -> usize
    ensures value { result ≡ prefix_len (λ d. d == 48) digits.now }
    ensures within { result ≤ length digits.now }
{
    digits.iter().take_while(|digit| **digit == b'0').count()
}

// The digits without leading zeros: none for zero.
pub(crate) fn magnitude(number: &str) -> &str
    ensures { result.now ≡ magnitude number.now }
{
    let digits = without_sign(number);
    &digits[zero_count(digits.as_bytes())..]
}

pub(crate) fn is_zero(number: &str) -> bool
    ensures { result ≡ is_zero number.now }
{
    magnitude(number).is_empty()
}

fn are_digits(bytes: &[u8]) -> bool
    ensures { result ≡ list_all is_digit bytes.now }
{
    bytes.iter().all(|byte| byte.is_ascii_digit())
}

pub(crate) fn is_integer(number: &str) -> bool
    ensures { result ≡ is_integer number.now }
{
    let digits = without_sign(number);
    !digits.is_empty() && are_digits(digits.as_bytes())
}

// The same digits without leading zeros, and the same sign or both zero.
pub(crate) fn same_integer(a: &str, b: &str) -> bool
    ensures { result ≡ same_integer a.now b.now }
{
    let digits = magnitude(a);
    digits == magnitude(b) && (has_minus(a) == has_minus(b) || digits.is_empty())
}
