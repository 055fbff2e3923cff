//! The words of the grammar: commands, modes and names.
//! Each function here is the one test or table of its word in `specs/Words.antt`.

ghost use Rattle.std.specs.Prelude.{◌≡◌};
ghost use Rattle.std.specs.Str.{bytes_eq};
ghost use Rattle.std.specs.List.{list_all};
ghost use Rattle.ct_definitions.specs.Validity.{is_name_byte, is_name};
ghost use Rattle.ct_line.specs.Table.{bare_call, walk_of, search_of, of_file, lock_of, mode_of, byte_of, number_of, name_of};
ghost use Rattle.ct_line.specs.Grammar.{Goes};

use crate::call::{Call, LockMode, Search, Walk};
use crate::reading::{Misfit, OfFile};
use ct_definitions::{LONGEST_NAME, Mode, Name};
use ct_text::{digit_at, read_number};
use std::alloc::Global;

/// Whether a word is the text.
pub(crate) fn is(word: &[u8], text: &[u8]) -> bool
    ensures { result ≡ bytes_eq word.now text.now }
{
    word == text
}

fn is_name_byte(byte: u8) -> bool
    ensures { result ≡ is_name_byte byte }
{
    byte.is_ascii_alphanumeric() || byte == b'_' || byte == b'.' || byte == b'-'
}

fn are_name_bytes(word: &[u8]) -> bool
    ensures { result ≡ list_all is_name_byte word.now }
{
    word.iter().all(|byte| is_name_byte(*byte))
}

/// Whether a word is a name: 1 to 32 letters, digits, `_`, `.` and `-`.
pub(crate) fn is_name(word: &[u8]) -> bool
    ensures { result ≡ is_name word.now }
{
    1 <= word.len() && word.len() <= LONGEST_NAME && are_name_bytes(word)
}

/// The call that is one word.
pub(crate) fn bare_call(word: &[u8]) -> Option<Call>
    ensures { result ≡ bare_call word.now }
{
    if is(word, b"BEGIN") {
        Some(Call::Begin)
    } else if is(word, b"COMMIT") {
        Some(Call::Commit)
    } else if is(word, b"ABORT") {
        Some(Call::Abort)
    } else if is(word, b"SAVE") {
        Some(Call::Save)
    } else if is(word, b"CHECKPOINT") {
        Some(Call::Checkpoint)
    } else if is(word, b"FRONT") {
        Some(Call::Front)
    } else if is(word, b"QUIT") {
        Some(Call::Quit)
    } else {
        None
    }
}

/// The search without a target that a word begins.
pub(crate) fn walk_of(word: &[u8]) -> Option<Walk>
    ensures { result ≡ walk_of word.now }
{
    if is(word, b"FIRST") {
        Some(Walk::First)
    } else if is(word, b"LAST") {
        Some(Walk::Last)
    } else if is(word, b"NEXT") {
        Some(Walk::Next)
    } else if is(word, b"PREV") {
        Some(Walk::Prev)
    } else if is(word, b"NEXTSET") {
        Some(Walk::NextSet)
    } else {
        None
    }
}

/// The search for a target that a word begins.
pub(crate) fn search_of(word: &[u8]) -> Option<Search>
    ensures { result ≡ search_of word.now }
{
    if is(word, b"GET") {
        Some(Search::Get)
    } else if is(word, b"GTE") {
        Some(Search::Gte)
    } else if is(word, b"GT") {
        Some(Search::Gt)
    } else if is(word, b"LTE") {
        Some(Search::Lte)
    } else if is(word, b"LT") {
        Some(Search::Lt)
    } else if is(word, b"FIRSTSET") {
        Some(Search::FirstSet)
    } else {
        None
    }
}

/// The call that a word begins, where a file's name comes next.
pub(crate) fn of_file(word: &[u8]) -> Option<OfFile>
    ensures { result ≡ of_file word.now }
{
    if is(word, b"CREATE") {
        return Some(OfFile::Create);
    }
    if is(word, b"ADD") {
        return Some(OfFile::Add);
    }
    if is(word, b"REWRITE") {
        return Some(OfFile::Rewrite);
    }
    if is(word, b"DELETE") {
        return Some(OfFile::Delete);
    }
    if let Some(walk) = walk_of(word) {
        return Some(OfFile::Walk(walk));
    }
    match search_of(word) {
        Some(search) => Some(OfFile::Search(search)),
        None => None,
    }
}

/// The lock mode of a word.
pub(crate) fn lock_of(word: &[u8]) -> Option<LockMode>
    ensures { result ≡ lock_of word.now }
{
    if is(word, b"FREE") {
        Some(LockMode::Free)
    } else if is(word, b"ENABLE") {
        Some(LockMode::Enable)
    } else if is(word, b"READREC") {
        Some(LockMode::ReadRec)
    } else {
        None
    }
}

/// The mode of a segment.
pub(crate) fn mode_of(word: &[u8]) -> Option<Mode>
    ensures { result ≡ mode_of word.now }
{
    if is(word, b"REGSEG") {
        Some(Mode::Reg)
    } else if is(word, b"UREGSEG") {
        Some(Mode::Ureg)
    } else if is(word, b"INTSEG") {
        Some(Mode::Int)
    } else if is(word, b"SGNSEG") {
        Some(Mode::Sgn)
    } else {
        None
    }
}

/// The byte that two hexadecimal digits of either case are.
pub(crate) fn byte_of(word: &[u8]) -> Option<u8>
    ensures { result ≡ byte_of word.now }
{
    match word {
        [high, low] => {
            let high = digit_at(*high)?;
            let low = digit_at(*low)?;
            Some(16 * high + low)
        }
        _ => None,
    }
}

/// The number that a word is.
pub(crate) fn number_of(word: &[u8]) -> Option<u64>
    ensures { result ≡ number_of word.now }
{
    match read_number(word) {
        Some(number) => Some(number),
        None => None,
    }
}

/// The name that a word is.
pub(crate) fn name_of(alloc: Global, word: &[u8]) -> Result<Name, Misfit>
    ensures { Goes result (name_of word.now) }
{
    if !is_name(word) {
        return Err(Misfit::Word);
    }
    Ok(Name::from_slice(alloc, word)?)
}
