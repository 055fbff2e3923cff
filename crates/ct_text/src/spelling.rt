//! Bytes as they are printed in a word.
//! Every plain byte is left as it is, every other one is written as `\xx`.

ghost use Rattle.std.specs.Prelude.{◌≡◌, ℕ, List, ◌<◌, ◌≤◌, ◌+◌, ◌*◌, ◌++◌, OnOk, OnErr, length, vec_len, vec_capacity};
ghost use Rattle.std.specs.Char.{digit_char};
ghost use Rattle.ct_text.specs.Words.{is_plain, byte_spelling, spelling};

use crate::word::BACKSLASH;
use ct_items::NoMemory;

/// Whether a byte stands for itself in a word.
pub(crate) fn is_plain(byte: u8) -> bool
    ensures { result ≡ is_plain byte }
{
    (0x21..=0x7e).contains(&byte) && byte != BACKSLASH
}

/// The lower-case hexadecimal digit of a number below 16.
fn hex_digit(value: u8) -> u8
    requires { value < 16 }
    ensures { result ≡ digit_char value }
{
    if value < 10 {
        b'0' + value
    } else {
        b'a' + (value - 10)
    }
}

/// Appends the spelling of one byte, or changes nothing.
fn spell_byte(byte: u8, into: &mut Vec<u8>) -> Result<(), NoMemory>
    ensures ok { OnOk result (into.new.items ≡ into.old.items ++ byte_spelling byte) }
    ensures err { OnErr result (into.new.items ≡ into.old.items) }
    ensures len { OnOk result (vec_len into.new ≤ vec_len into.old + 3) }
    ensures full { OnErr result (vec_capacity into.old < vec_len into.old + 3) }
    ensures capacity { vec_capacity into.old ≤ vec_capacity into.new }
{
    if is_plain(byte) {
        into.push(byte)?;
    } else {
        into.extend_from_slice(&[BACKSLASH, hex_digit(byte / 16), hex_digit(byte % 16)])?;
    }
    Ok(())
}

/// Appends the spellings of bytes, or some of them.
fn spell_each(bytes: &[u8], into: &mut Vec<u8>) -> Result<(), NoMemory>
    ensures ok { OnOk result (into.new.items ≡ into.old.items ++ spelling bytes.now) }
    ensures front { (more : List ℕ) × (into.new.items ≡ into.old.items ++ more) }
    ensures full { OnErr result (vec_capacity into.old < vec_len into.old + 3 * length bytes.now) }
    ensures capacity { vec_capacity into.old ≤ vec_capacity into.new }
{
    for byte in bytes {
        spell_byte(*byte, into)?;
    }
    Ok(())
}

/// Appends bytes as they are printed in a word, or changes nothing.
/// With room for three bytes each it succeeds.
pub fn spell(bytes: &[u8], into: &mut Vec<u8>) -> Result<(), NoMemory>
    ensures ok { OnOk result (into.new.items ≡ into.old.items ++ spelling bytes.now) }
    ensures err { OnErr result (into.new.items ≡ into.old.items) }
    ensures full { OnErr result (vec_capacity into.old < vec_len into.old + 3 * length bytes.now) }
    ensures capacity { vec_capacity into.old ≤ vec_capacity into.new }
{
    let len = into.len();
    let done = spell_each(bytes, into);
    if done.is_err() {
        into.truncate(len);
    }
    done
}
