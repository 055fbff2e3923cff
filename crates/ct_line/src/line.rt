//! Reading a whole line: the call that it asks for, or the place where it leaves the grammar.
//! What a line asks for is said in `specs/Grammar.antt`.

ghost use Rattle.std.specs.Prelude.{◌≡◌, ℕ, IfOk, Ok, Err};
ghost use Rattle.ct_line.specs.declared.line.LineFault.TheVariants.{Bad};
ghost use Rattle.ct_line.specs.declared.reading.Reading.TheVariants.{Command, Target, AddImage, RewriteImage, Script, Savepoint, LockMode};
ghost use Rattle.ct_line.specs.Calls.{SpellsCall, OrMemory};
ghost use Rattle.ct_line.specs.Grammar.{next, whole_call, call_of, command_of, with_file, fault_at, place_of_missing, Goes, Gives, IsBadAt, IsRead};

use crate::call::{Call, Search};
use crate::commands::{bare_call, is, lock_of, name_of, number_of, of_file};
use crate::creating::{created, next_of_create};
use crate::reading::{Creating, Misfit, OfFile, Reading};
use ct_definitions::{Bytes, Name};
use ct_text::{SplitFault, Word, split};
use std::alloc::Global;
use thiserror::Error;

/// The longest line, in bytes, without its LF and the CR before it.
pub const LONGEST_LINE: usize = 16384;

/// Why a line asks for no call.
#[derive(Clone, Copy, Debug, PartialEq, Eq, Error)]
pub enum LineFault {
    /// The line leaves the grammar at this byte, counted from 0.
    #[error("the line leaves the grammar at byte {at}")]
    Bad { at: usize },
    #[error("out of memory")]
    Memory,
}

/// What the first word of a line begins.
fn command_of(word: &[u8]) -> Result<Reading, Misfit>
    ensures { Goes result (command_of word.now) }
{
    if is(word, b"RESTORE") {
        return Ok(Reading::Savepoint);
    }
    if is(word, b"LOCK") {
        return Ok(Reading::LockMode);
    }
    if is(word, b"DUMP") {
        return Ok(Reading::Script);
    }
    if let Some(call) = bare_call(word) {
        return Ok(Reading::Nothing(call));
    }
    match of_file(word) {
        Some(of) => Ok(Reading::File(of)),
        None => Err(Misfit::Word),
    }
}

/// What is read after a file's name.
fn with_file(of: OfFile, file: Name) -> Reading
    ensures { result ≡ with_file of file }
{
    match of {
        OfFile::Create => Reading::Creating(Creating::Kind { name: file }),
        OfFile::Add => Reading::AddImage { file },
        OfFile::Rewrite => Reading::RewriteImage { file },
        OfFile::Delete => Reading::Nothing(Call::Delete { file }),
        OfFile::Walk(walk) => Reading::WalkIndex { walk, file },
        OfFile::Search(search) => Reading::SearchIndex { search, file },
    }
}

/// The search for a target.
fn with_target(
    alloc: Global,
    search: Search,
    file: Name,
    index: Name,
    word: &[u8],
) -> Result<Reading, Misfit>
    ensures { Goes result (next (Target search file index) word.now) }
{
    let target = Bytes::from_slice(alloc, word)?;
    Ok(Reading::Nothing(Call::Search {
        search,
        file,
        index,
        target,
    }))
}

/// The call that adds an image.
fn with_new_image(alloc: Global, file: Name, word: &[u8]) -> Result<Reading, Misfit>
    ensures { Goes result (next (AddImage file) word.now) }
{
    let image = Bytes::from_slice(alloc, word)?;
    Ok(Reading::Nothing(Call::Add { file, image }))
}

/// The call that puts an image in the place of another.
fn with_other_image(alloc: Global, file: Name, word: &[u8]) -> Result<Reading, Misfit>
    ensures { Goes result (next (RewriteImage file) word.now) }
{
    let image = Bytes::from_slice(alloc, word)?;
    Ok(Reading::Nothing(Call::Rewrite { file, image }))
}

/// The call that makes a dump.
fn with_script(alloc: Global, word: &[u8]) -> Result<Reading, Misfit>
    ensures { Goes result (next Script word.now) }
{
    let script = Bytes::from_slice(alloc, word)?;
    Ok(Reading::Nothing(Call::Dump { script }))
}

/// The call that goes back to a savepoint.
fn with_savepoint(word: &[u8]) -> Result<Reading, Misfit>
    ensures { Goes result (next Savepoint word.now) }
{
    match number_of(word) {
        Some(savepoint) => Ok(Reading::Nothing(Call::Restore { savepoint })),
        None => Err(Misfit::Word),
    }
}

/// The call that sets the lock mode.
fn with_lock_mode(word: &[u8]) -> Result<Reading, Misfit>
    ensures { Goes result (next LockMode word.now) }
{
    match lock_of(word) {
        Some(mode) => Ok(Reading::Nothing(Call::Lock(mode))),
        None => Err(Misfit::Word),
    }
}

/// What is read after a word that may come next.
fn next(alloc: Global, reading: Reading, word: &[u8]) -> Result<Reading, Misfit>
    ensures { Goes result (next reading word.now) }
{
    match reading {
        Reading::Command => command_of(word),
        Reading::Nothing(_) => Err(Misfit::Word),
        Reading::File(of) => {
            let file = name_of(alloc, word)?;
            Ok(with_file(of, file))
        }
        Reading::WalkIndex { walk, file } => {
            let index = name_of(alloc, word)?;
            Ok(Reading::Nothing(Call::Walk { walk, file, index }))
        }
        Reading::SearchIndex { search, file } => {
            let index = name_of(alloc, word)?;
            Ok(Reading::Target {
                search,
                file,
                index,
            })
        }
        Reading::Target {
            search,
            file,
            index,
        } => with_target(alloc, search, file, index, word),
        Reading::AddImage { file } => with_new_image(alloc, file, word),
        Reading::RewriteImage { file } => with_other_image(alloc, file, word),
        Reading::Script => with_script(alloc, word),
        Reading::Savepoint => with_savepoint(word),
        Reading::LockMode => with_lock_mode(word),
        Reading::Creating(creating) => {
            let creating = next_of_create(alloc, creating, word)?;
            Ok(Reading::Creating(creating))
        }
    }
}

/// The call, where the line may end here.
fn whole_call(reading: Reading) -> Result<Call, Misfit>
    ensures { Goes result (whole_call reading) }
{
    match reading {
        Reading::Nothing(call) => Ok(call),
        Reading::Creating(creating) => Ok(Call::Create(created(creating)?)),
        _ => Err(Misfit::Word),
    }
}

/// The fault of a word that may not come next, or of want of memory.
fn fault_at(misfit: Misfit, at: usize) -> LineFault
    ensures { result ≡ fault_at misfit at }
{
    match misfit {
        Misfit::Word => LineFault::Bad { at },
        Misfit::Memory => LineFault::Memory,
    }
}

/// The call that words ask for, or the place of the first that may not come next.
/// What is missing has the place `end`.
fn call_of(alloc: Global, words: &[Word], end: usize) -> Result<Call, LineFault>
    ensures { Gives result (call_of end Command words.now) }
{
    let mut reading = Reading::Command;
    for word in words {
        reading = match next(alloc, reading, word.bytes.as_slice()) {
            Ok(more) => more,
            Err(misfit) => return Err(fault_at(misfit, word.at)),
        };
    }
    match whole_call(reading) {
        Ok(call) => Ok(call),
        Err(misfit) => Err(fault_at(misfit, end)),
    }
}

/// The place of what is missing in a line: its end, or 0 where the line has no words.
fn place_of_missing(line: &[u8], words: &[Word]) -> usize
    ensures { result ≡ place_of_missing line.now words.now }
{
    match words {
        [] => 0,
        [_, ..] => line.len(),
    }
}

/// The call that a line asks for, or the place where the line leaves the grammar.
/// The line is given without its LF and the CR before it.
pub fn read_line(alloc: Global, line: &[u8]) -> Result<Call, LineFault>
    // The line asks for this call, or leaves the grammar there.
    ensures exact { IsRead line.now result }
    // An answered call is one that the line spells, and a line that spells a call is answered by it.
    ensures spelled { IfOk result (SpellsCall line.now) }
    ensures call { (call : Call) → SpellsCall line.now call → OrMemory result (result ≡ Ok call) }
    // A line that leaves the grammar at a place is answered by that place.
    ensures place { (at : ℕ) → IsBadAt line.now at → OrMemory result (result ≡ Err (Bad at)) }
{
    if line.len() > LONGEST_LINE {
        return Err(LineFault::Bad { at: LONGEST_LINE });
    }
    let words = match split(alloc, line) {
        Ok(words) => words,
        Err(SplitFault::Bad { at }) => return Err(LineFault::Bad { at }),
        Err(SplitFault::Memory) => return Err(LineFault::Memory),
    };
    let words = words.as_slice();
    call_of(alloc, words, place_of_missing(line, words))
}
