//! What a line of a script says, by itself.
//! Which lines say what is written in `specs/Lines.antt`.

ghost use Rattle.std.specs.Prelude.{◌≡◌, ◌↔◌, IsTrue, length, drop, take};
ghost use Rattle.std.specs.List.{list_all};
ghost use Rattle.ct_definitions.specs.Validity.{is_name_byte, is_name};
ghost use Rattle.ct_line.specs.Table.{number_of};
ghost use Rattle.ct_script.specs.Lines.{begins, is_dump_line, is_delay_line, part_of, part_of_words};

use ct_definitions::LONGEST_NAME;
use ct_text::read_number;

/// The bytes before the name of a dump.
const DUMP: &[u8] = b"!DUMP ";

/// The bytes before a delay.
const DELAY: &[u8] = b"!DELAY ";

/// What a line says.
#[derive(Clone, Copy, Debug, PartialEq, Eq)]
pub(crate) enum Part {
    /// Nothing: the line has no byte.
    Blank,
    /// `!DUMP` and the dump's name.
    Dump,
    /// `!DELAY` and a number.
    Delay,
    /// `!FILES`: a list of files begins.
    Files,
    /// The name of a file.
    File,
    /// `*`: all files.
    All,
    /// `!ENDFILES`: the list ends.
    EndFiles,
    /// `!END`: the script ends.
    End,
}

/// Whether a line is the text.
fn is(line: &[u8], text: &[u8]) -> bool
    ensures { IsTrue result ↔ (line.now ≡ text.now) }
{
    line == text
}

/// Whether a line begins with the text.
fn begins(text: &[u8], line: &[u8]) -> bool
    ensures { result ≡ begins text.now line.now }
{
    line.starts_with(text)
}

fn is_name_byte(byte: u8) -> bool
    ensures { result ≡ is_name_byte byte }
{
    byte.is_ascii_alphanumeric() || byte == b'_' || byte == b'.' || byte == b'-'
}

fn are_name_bytes(word: &[u8]) -> bool
    ensures { result ≡ list_all is_name_byte word.now }
{
    word.iter().all(|byte| is_name_byte(*byte))
}

/// Whether a word is a name: 1 to 32 letters, digits, `_`, `.` and `-`.
fn is_name(word: &[u8]) -> bool
    ensures { result ≡ is_name word.now }
{
    1 <= word.len() && word.len() <= LONGEST_NAME && are_name_bytes(word)
}

/// The number that a word is.
fn number_of(word: &[u8]) -> Option<u64>
    ensures { result ≡ number_of word.now }
{
    match read_number(word) {
        Some(number) => Some(number),
        None => None,
    }
}

fn is_dump_line(line: &[u8]) -> bool
    ensures { result ≡ is_dump_line line.now }
{
    begins(DUMP, line) && is_name(behind(line, DUMP.len()))
}

fn is_delay_line(line: &[u8]) -> bool
    ensures { result ≡ is_delay_line line.now }
{
    begins(DELAY, line) && number_of(behind(line, DELAY.len())).is_some()
}

/// The line without its first bytes.
pub(crate) fn behind(line: &[u8], count: usize) -> &[u8]
    ensures { result.now ≡ drop count line.now }
{
    if line.len() < count {
        return &[];
    }
    line.split_at(count).1
}

/// What a line of two words or of one name says.
fn part_of_words(line: &[u8]) -> Option<Part>
    ensures { result ≡ part_of_words line.now }
{
    if is_dump_line(line) {
        Some(Part::Dump)
    } else if is_delay_line(line) {
        Some(Part::Delay)
    } else if is_name(line) {
        Some(Part::File)
    } else {
        None
    }
}

/// What a line says, if it is one of a script.
#[tactic(auto, unfolding(crate::specs::Lines::part_of))]
pub(crate) fn part_of(line: &[u8]) -> Option<Part>
    ensures { result ≡ part_of line.now }
{
    if line.is_empty() {
        Some(Part::Blank)
    } else if is(line, b"!FILES") {
        Some(Part::Files)
    } else if is(line, b"*") {
        Some(Part::All)
    } else if is(line, b"!ENDFILES") {
        Some(Part::EndFiles)
    } else if is(line, b"!END") {
        Some(Part::End)
    } else {
        part_of_words(line)
    }
}
