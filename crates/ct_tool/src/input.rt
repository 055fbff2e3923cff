//! The whole input of a session, taken block by block.

ghost use Rattle.std.specs.Prelude.{◌≡◌, ◌≤◌, ◌<◌, ◌+◌, ◌^◌, ℕ, List, [], Option, Some, None, true, false, vec_len, length, take};
ghost use Rattle.ct_yard.specs.Telling.{telling};
ghost use Rattle.ct_tool.specs.declared.session.TheConstants.{BLOCK};
ghost use Rattle.ct_tool.specs.Talking.{IsReady, ServesInput, scene_of, input_of, output_of};

use crate::talk::Talk;
use ct_disk::Disk;
use ct_lines::Held;
use ct_link::{Sink, SinkError, Source, SourceFault};

/// How many bytes of input a run takes at most. One more shows that the input has not ended.
const MOST_INPUT: u64 = 1 << 40;

/// How a session's input came to its end.
#[derive(Clone, Copy, Debug, PartialEq, Eq)]
pub(crate) enum Stop {
    /// The source is at its end, and each reply is written.
    End,
    /// QUIT ended the session, and each reply is written.
    Quit,
    /// The source failed.
    Source,
    /// The sink failed.
    Sink,
    /// The sink had no memory.
    Memory,
    /// The input is too long.
    Long,
}

impl From<SinkError> for Stop {
    ghost use Rattle.std.specs.Prelude.{◌≡◌};
    ghost use Rattle.ct_tool.specs.Talking.{stop_of};

    ghost from_gives = { λ error stop. stop ≡ stop_of error };

    fn from(error: SinkError) -> Stop {
        match error {
            SinkError::Fault => Stop::Sink,
            SinkError::Memory => Stop::Memory,
        }
    }
}

/// Takes the input of a talk in blocks, up to its end or to one in which QUIT ends the session, and answers its lines.
/// What is gathered is put before the next block is asked for.
pub(crate) fn listen<P: Disk, L: Disk, I: Source, O: Sink>(
    talk: &mut Talk<P, L>,
    held: &mut Held,
    block: &mut [u8],
    input: &mut I,
    out: &mut O,
) -> Stop
    requires ready { IsReady talk.old }
    requires open { talk.old.run.ended ≡ false }
    requires some { 0 < length block.old }
    requires few { length block.old ≤ BLOCK }
    requires beginning { held.old ≡ Some [] }
    requires none { talk.old.replies.items ≡ [] }
    ensures serves { (bytes : List ℕ) × ServesInput (telling L.tells L.faults L.content L.may_leave L.left_since) result bytes (scene_of talk.old) (scene_of talk.new)
        (input_of I.taken I.left I.count I.faults input.old) (input_of I.taken I.left I.count I.faults input.new) (output_of O.written O.faults out.old) (output_of O.written O.faults out.new) }
    ensures pages { talk.new.yard.pages ≡ talk.old.yard.pages }
    ensures quit { result ≡ Stop.Quit → talk.new.run.ended ≡ true }
{
    let mut taken = 0u64;
    while taken <= MOST_INPUT {
        if talk.run.has_ended() {
            return Stop::Quit;
        }
        match input.take(block) {
            Err(SourceFault) => return Stop::Source,
            Ok(0) => match talk.answer_end(held, out) {
                Ok(()) => return Stop::End,
                Err(error) => return Stop::from(error),
            },
            Ok(n) => {
                let piece = first_bytes(block, n);
                if let Err(error) = talk.answer_piece(held, piece, out) {
                    return Stop::from(error);
                }
                taken += n as u64;
            }
        }
    }
    Stop::Long
}

/// The first n bytes of a block.
fn first_bytes(block: &[u8], n: usize) -> &[u8]
    requires { n ≤ length block.now }
    ensures { result.now ≡ take n block.now }
{
    &block[..n]
}
