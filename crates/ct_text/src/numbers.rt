//! Numbers as words: decimal, without a sign, without leading zeros.
//! Exactly what printing a number writes is read.

ghost use Rattle.std.specs.Prelude.{◌≡◌, ℕ, ◌^◌, ◌<◌, IfSome, Some};
ghost use Rattle.std.specs.Fmt.{decimal};
ghost use Rattle.ct_text.specs.Numbers.{begins_as_number};

/// Whether the word begins with a digit, and with 0 only where that is all of it.
fn begins_as_number(word: &[u8]) -> bool
    ensures { result ≡ begins_as_number word.now }
{
    match word {
        [] => false,
        [digit] => digit.is_ascii_digit(),
        [digit, ..] => digit.is_ascii_digit() && *digit != b'0',
    }
}

/// The number that a word is the decimal form of, if there is one below 2^64.
pub fn read_number(word: &[u8]) -> Option<u64>
    ensures found { IfSome result (λ number. word.now ≡ decimal number) }
    ensures only { (number : ℕ) → number < 2 ^ 64 → word.now ≡ decimal number → result ≡ Some number }
{
    if !begins_as_number(word) {
        return None;
    }
    let Ok(text) = std::str::from_utf8(word) else {
        return None;
    };
    text.parse().ok()
}
