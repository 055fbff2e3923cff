//! The words behind a command's own: ids, names and numbers.
//! None of them begins with a hyphen, which would make it an option.

ghost use Rattle.std.specs.Prelude.{◌≡◌, ◌↔◌, IsTrue};
ghost use Rattle.ct_words.specs.Commands.{is_option, is_shelf_name, is_id, IsNumberWithin};

use ct_model::is_name;
use ct_text::read_number;

/// How long a store's id may be, in bytes.
pub(crate) const LONGEST_ID: usize = 16;
/// How many sessions a workload may have.
pub(crate) const MOST_SESSIONS: u64 = 64;
/// How many lines a workload may have.
pub(crate) const MOST_LINES: u64 = 1_000_000;

/// Whether a word is the text.
pub(crate) fn is(word: &[u8], text: &[u8]) -> bool
    ensures { IsTrue result ↔ (word.now ≡ text.now) }
{
    word == text
}

/// Whether a word begins as an option does.
fn is_option(word: &[u8]) -> bool
    ensures { result ≡ is_option word.now }
{
    match word {
        [] => false,
        [first, ..] => *first == b'-',
    }
}

/// Whether a word names a device of the shelf.
pub(crate) fn is_shelf_name(word: &[u8]) -> bool
    ensures { result ≡ is_shelf_name word.now }
{
    is_name(word) && !is_option(word)
}

/// Whether a word is a store's id.
pub(crate) fn is_id(word: &[u8]) -> bool
    ensures { result ≡ is_id word.now }
{
    is_shelf_name(word) && word.len() <= LONGEST_ID
}

/// Whether a word is a number from `least` to `most`.
pub(crate) fn is_number_within(least: u64, most: u64, word: &[u8]) -> bool
    ensures { IsTrue result ↔ IsNumberWithin least most word.now }
{
    match read_number(word) {
        Some(number) => least <= number && number <= most,
        None => false,
    }
}
