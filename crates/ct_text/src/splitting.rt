//! Splitting a line into its words, in one pass.
//! A part of a word without an escape is copied in one piece.

ghost use Rattle.std.specs.Prelude.{◌≡◌, ℕ, List, ◌+◌, ◌^◌, ◌<◌, ◌≤◌, drop, length, false, IfOk, IfErr, IfSome, Ok, Err};
ghost use Rattle.std.specs.List.{prefix_len};
ghost use Rattle.ct_text.specs.declared.word.Word.{Word};
ghost use Rattle.ct_text.specs.declared.splitting.SplitFault.TheVariants.{Bad};
ghost use Rattle.ct_text.specs.Words.{is_plain, HasWords, IsFirstFault, Splits, OrMemory};
ghost use Rattle.ct_text.specs.Splitting.{is_space, digit_at, escape_at, is_parted, IsCause, TakesWord};

use crate::spelling::is_plain;
use crate::word::{BACKSLASH, SPACE, Word, Words};
use ct_definitions::Bytes;
use ct_items::NoMemory;
use std::alloc::Global;
use thiserror::Error;

/// Why a line has no words to give.
#[derive(Clone, Copy, Debug, PartialEq, Eq, Error)]
pub enum SplitFault {
    /// A byte outside the word bytes, or a backslash without two hexadecimal digits, at this place.
    #[error("byte {at} of the line is outside the grammar of words")]
    Bad { at: usize },
    #[error("out of memory")]
    Memory,
}

impl From<NoMemory> for SplitFault {
    ghost use Rattle.ct_text.specs.declared.splitting.SplitFault.TheVariants.{Memory};

    ghost from_gives = { λ _ fault. fault ≡ Memory };

    fn from(_refusal: NoMemory) -> SplitFault {
        SplitFault::Memory
    }
}

/// How many spaces the text begins with.
fn space_len(text: &[u8]) -> usize
    ensures value { result ≡ prefix_len is_space text.now }
    ensures within { result ≤ length text.now }
{
    text.iter().take_while(|byte| **byte == SPACE).count()
}

/// How many plain bytes the text begins with.
fn plain_len(text: &[u8]) -> usize
    ensures value { result ≡ prefix_len is_plain text.now }
    ensures within { result ≤ length text.now }
{
    text.iter().take_while(|byte| is_plain(**byte)).count()
}

/// The value of a hexadecimal digit of either case.
pub fn digit_at(byte: u8) -> Option<u8>
    ensures value { result ≡ digit_at byte }
    ensures below { IfSome result (λ digit. digit < 16) }
{
    match byte {
        b'0'..=b'9' => Some(byte - b'0'),
        b'A'..=b'F' => Some(byte - b'A' + 10),
        b'a'..=b'f' => Some(byte - b'a' + 10),
        _ => None,
    }
}

/// The byte of the escape that the text begins with, if it begins with one.
fn escape_at(text: &[u8]) -> Option<u8>
    ensures { result ≡ escape_at text.now }
{
    match text {
        [BACKSLASH, high, low, ..] => {
            let high = digit_at(*high)?;
            let low = digit_at(*low)?;
            Some(16 * high + low)
        }
        _ => None,
    }
}

/// Whether a word before the text ends there.
fn is_parted(text: &[u8]) -> bool
    ensures { result ≡ is_parted text.now }
{
    match text {
        [] => true,
        [byte, ..] => *byte == SPACE,
    }
}

/// Reads the word that a text begins with, and how many bytes of the text it takes.
/// The text begins at place `at` of its line.
fn read_word(alloc: Global, text: &[u8], at: usize) -> Result<(Bytes, usize), SplitFault>
    requires begins { is_parted text.now ≡ false }
    requires place { at + length text.now < 2 ^ 64 }
    ensures found { IfOk result (λ found. TakesWord text.now found.0 found.1) }
    ensures cause { IfErr result (IsCause at text.now) }
{
    let (run, mut rest) = text.split_at(plain_len(text));
    let mut bytes = Bytes::from_slice(alloc, run)?;
    while !is_parted(rest) {
        let Some(byte) = escape_at(rest) else {
            return Err(SplitFault::Bad {
                at: at + (text.len() - rest.len()),
            });
        };
        bytes.push(byte)?;
        let after = rest.split_at(3).1;
        let (run, more) = after.split_at(plain_len(after));
        bytes.extend_from_slice(run)?;
        rest = more;
    }
    Ok((bytes, text.len() - rest.len()))
}

/// The text without the spaces that it begins with.
fn past_spaces(text: &[u8]) -> &[u8]
    ensures { result.now ≡ drop (prefix_len is_space text.now) text.now }
{
    text.split_at(space_len(text)).1
}

/// Reads word after word.
fn split_words(alloc: Global, line: &[u8]) -> Result<Words, SplitFault>
    ensures { Splits line.now result }
{
    let mut words = Words::new(alloc);
    let mut rest = past_spaces(line);
    while !rest.is_empty() {
        let at = line.len() - rest.len();
        let (bytes, len) = read_word(alloc, rest, at)?;
        words.push(Word { bytes, at })?;
        rest = past_spaces(rest.split_at(len).1);
    }
    Ok(words)
}

/// The words of a line, or its first fault.
pub fn split(alloc: Global, line: &[u8]) -> Result<Words, SplitFault>
    // The line has these words, or its first fault is there.
    ensures exact { Splits line.now result }
    // It has no other words, and none where it has a fault.
    ensures words { (words : List Word) → HasWords 0 line.now words → OrMemory result (result ≡ Ok words) }
    ensures fault { (at : ℕ) → IsFirstFault line.now at → OrMemory result (result ≡ Err (Bad at)) }
{
    split_words(alloc, line)
}
