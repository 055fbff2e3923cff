//! The top call: what the words ask for, done over two devices, an input and an output.

ghost use Rattle.std.specs.Prelude.{◌≡◌, ◌≢◌, ◌⊎◌, ◌<◌, ◌≤◌, ◌+◌, ◌^◌, ◌∷◌, [], ℕ, List, Some, None, true, false, map, codes, IsTrue, string_bytes};
ghost use Rattle.std.specs.Io.KnownBytes.{Keeps};
ghost use Rattle.ct_disk.specs.Disk.{AllImages};
ghost use Rattle.ct_log.specs.Heads.{has_open_header};
ghost use Rattle.ct_yard.specs.Telling.{telling};
ghost use Rattle.ct_log.specs.Reading.{IsRead, log_bytes};
ghost use Rattle.ct_recover.specs.Creating.{IsSyncedOnce, IsNoneOrMade};
ghost use Rattle.ct_yard.specs.Kept.{empty_directory};
ghost use Rattle.ct_recover.specs.Opening.{IsBad};
ghost use Rattle.ct_words.specs.Commands.{Asks, AskCreate, is_id};
ghost use Rattle.ct_words.specs.declared.commands.Command.TheVariants.{Unbuilt as Other};
ghost use Rattle.ct_tool.specs.Ends.{status_of};
ghost use Rattle.ct_tool.specs.Causes.{MadeBy, PutsOrKeeps, IsCreateCause, IsOpenCause, IsWordCause, HasRunCause};
ghost use Rattle.ct_tool.specs.Runs.{RanSession, RanNone, IsOver, KeepsStore, Checked, IsMade};
ghost use Rattle.ct_tool.specs.Talking.{input_of, output_of};

use crate::check::check;
use crate::create::create;
use crate::ended::{Cause, Ended};
use crate::exec::exec;
use ct_disk::Disk;
use ct_link::{Sink, Source};
use ct_words::{Command, command_of};
use std::alloc::Global;

/// Does what the words ask for over a page device and a log device, an input and an output.
/// `create` makes a store, `exec` opens it and runs one session over the input, `check` tells what it holds.
pub fn run_tool<P: Disk, L: Disk, I: Source, O: Sink>(
    alloc: Global,
    words: &[String],
    pages: P,
    log: L,
    input: &mut I,
    out: &mut O,
) -> Ended<P, L>
    ensures status { result.status ≡ status_of result.cause }

    // `exec`: one session ran, its transcript is what was written, and each acknowledged transaction is kept at each moment. Or none did.
    ensures exec { map string_bytes words.now ≡ codes "exec" ∷ [] →
        RanSession (telling L.tells L.faults L.content L.may_leave L.left_since) result.pages log result.log result.cause result.front
        (input_of I.taken I.left I.count I.faults input.old) (input_of I.taken I.left I.count I.faults input.new) (output_of O.written O.faults out.old) (output_of O.written O.faults out.new)
        ⊎ (RanNone result.cause result.front (input_of I.taken I.left I.count I.faults input.old) (input_of I.taken I.left I.count I.faults input.new) × Keeps (O.written out.old) (O.written out.new)
        × (IsTrue L.tells → IsRead L.content L.may_leave L.left_since log result.log)) }
    // A store that was kept at the start is kept at the end, by whatever was acknowledged.
    ensures exec_kept { map string_bytes words.now ≡ codes "exec" ∷ [] → IsTrue P.tells → IsTrue L.tells → KeepsStore (P.may_leave pages) (L.may_leave log) (P.may_leave result.pages) (L.may_leave result.log) }
    ensures exec_pages { map string_bytes words.now ≡ codes "exec" ∷ [] → IsTrue P.tells → IsRead P.content P.may_leave P.left_since pages result.pages }

    // `create`: an empty store was made, and then each image that a crash may leave is this store.
    ensures create { (verb id : List ℕ) → map string_bytes words.now ≡ verb ∷ id ∷ [] → AskCreate (map string_bytes words.now) → MadeBy result.cause →
        IsMade (telling P.tells P.faults P.content P.may_leave P.left_since) (telling L.tells L.faults L.content L.may_leave L.left_since) id result.pages result.log }
    ensures create_ends { AskCreate (map string_bytes words.now) → IsCreateCause result.cause }
    // On the way the log is only read until the page device has its directory for good. From the end of the log's first sync on
    // a crash leaves no store or the one that is made: of the log at each moment since, of both devices at the end.
    ensures create_order { AskCreate (map string_bytes words.now) → IsTrue P.tells → IsTrue L.tells →
        AllImages (λ p. p ≡ empty_directory) (P.may_leave result.pages) ⊎ IsRead L.content L.may_leave L.left_since log result.log }
    ensures create_left { (verb id : List ℕ) → map string_bytes words.now ≡ verb ∷ id ∷ [] → AskCreate (map string_bytes words.now) → IsTrue L.tells → L.calls log + 8 < L.calls result.log
        → IsSyncedOnce (telling L.tells L.faults L.content L.may_leave L.left_since) id result.log }
    ensures create_pairs { (verb id : List ℕ) → map string_bytes words.now ≡ verb ∷ id ∷ [] → AskCreate (map string_bytes words.now) → IsTrue P.tells → IsTrue L.tells → L.calls log + 8 < L.calls result.log
        → (p l : List ℕ) → P.may_leave result.pages p → L.may_leave result.log l → IsNoneOrMade id p l }
    ensures create_kept { AskCreate (map string_bytes words.now) → IsTrue L.tells → has_open_header (L.content log) ≡ true →
        (result.cause ≢ Cause.Done) × (result.cause ≢ Cause.Sink) × (result.pages ≡ pages) × IsRead L.content L.may_leave L.left_since log result.log }
    ensures create_put { AskCreate (map string_bytes words.now) → (result.front ≡ 0) × PutsOrKeeps result.cause (O.written out.old) (O.written out.new) (codes "OK 0\n") }

    // `check`: the store was opened and counted, and nothing changed.
    ensures check { map string_bytes words.now ≡ codes "check" ∷ [] →
        Checked (telling L.tells L.faults L.content L.may_leave L.left_since) result.pages log result.log result.cause result.front (O.written out.old) (O.written out.new)
        ⊎ (IsOpenCause result.cause × (result.front ≡ 0) × Keeps (O.written out.old) (O.written out.new)) }
    ensures check_kept { map string_bytes words.now ≡ codes "check" ∷ [] →
        (IsTrue P.tells → IsRead P.content P.may_leave P.left_since pages result.pages) × (IsTrue L.tells → IsRead L.content L.may_leave L.left_since log result.log) }

    // Other words change nothing.
    ensures nothing { IsWordCause result.cause → (result.pages ≡ pages) × (result.log ≡ log) × (result.front ≡ 0) × Keeps (I.taken input.old) (I.taken input.new) × Keeps (O.written out.old) (O.written out.new) }

    // Why it ended so.
    ensures usage { result.cause ≡ Cause.Usage → Asks (map string_bytes words.now) None }
    ensures only_usage { Asks (map string_bytes words.now) None → result.cause ≡ Cause.Usage }
    ensures unbuilt { result.cause ≡ Cause.Unbuilt → Asks (map string_bytes words.now) (Some Other) }
    ensures only_unbuilt { Asks (map string_bytes words.now) (Some Other) → result.cause ≡ Cause.Unbuilt }
    ensures undone { IsTrue L.tells → result.cause ≡ Cause.Undone → has_open_header (L.content log) ≡ false }
    ensures not_empty { IsTrue L.tells → result.cause ≡ Cause.NotEmpty → has_open_header (L.content log) ≡ true }
    ensures bad_log { IsTrue L.tells → (place : ℕ) → result.cause ≡ Cause.BadLog place → IsBad (log_bytes (L.content log)) place }
    ensures cause { HasRunCause result.cause (P.faults pages) (P.faults result.pages) (L.faults log) (L.faults result.log) (I.faults input.old) (I.faults input.new) (O.faults out.old) (O.faults out.new) }
    ensures done { map string_bytes words.now ≡ codes "exec" ∷ [] → result.cause ≡ Cause.Done → IsOver (I.left input.new) (I.taken input.old) (I.taken input.new) × (I.count input.new ≤ I.count input.old + 2 ^ 40) }
    ensures long { result.cause ≡ Cause.Long → I.count input.old + 2 ^ 40 < I.count input.new }
{
    match command_of(words) {
        Some(Command::Create) => create(pages, log, id_of(words), out),
        Some(Command::Exec) => exec(alloc, pages, log, input, out),
        Some(Command::Check) => check(alloc, pages, log, out),
        Some(Command::Unbuilt) => Ended::by(Cause::Unbuilt, pages, log, 0),
        None => Ended::by(Cause::Usage, pages, log, 0),
    }
}

/// The id that `create` is given, which is its second word.
fn id_of(words: &[String]) -> &[u8]
    requires { AskCreate (map string_bytes words.now) }
    ensures { (verb : List ℕ) × (map string_bytes words.now ≡ verb ∷ result.now ∷ []) × IsTrue (is_id result.now) }
{
    words[1].as_bytes()
}
