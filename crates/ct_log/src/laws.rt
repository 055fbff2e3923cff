//! What follows of a log: which chunks its bytes hold, and that no other do.

ghost use Rattle.std.specs.Prelude.{◌≡◌, ◌++◌, All, List, ℕ, length, IsTrue};
ghost use Rattle.ct_log.specs.Chunks.{chunks_text, IsShort, HasChunks, HoldsChunks};
ghost use Rattle.ct_log.specs.Flow.{in_flush};
ghost use Rattle.ct_log.specs.Log.{IsLog, durable_text};
ghost use Rattle.ct_log.specs.Stages.{Stands};

use crate::log::Log;
use crate::stage::Stage;
use ct_disk::Disk;

/// The chunks of a log are determined by its bytes.
pub fn chunks_are_determined()
    ensures { (front other bytes : List ℕ) (chunks more : List (List ℕ)) → length front ≡ length other
        → HasChunks front chunks bytes → HasChunks other more bytes → chunks ≡ more }
{}

/// Where the text is a front and chunks, bytes that it stands for hold these chunks, or these and
/// the one under way.
pub fn text_stands_for_chunks()
    ensures { (front : List ℕ) (chunks : List (List ℕ)) (groups text bytes : List ℕ) → All IsShort chunks → IsShort groups
        → text ≡ front ++ chunks_text chunks → Stands text groups bytes → HoldsChunks front chunks groups bytes }
{}

/// At each stage of a flush a read and a crash give the chunks of the durable text, or these and the
/// one under way; with none under way they give the durable ones.
pub fn log_holds_chunks<L: Disk>(log: &Log<L>)
    ensures read { IsTrue L.tells → IsLog L.content L.may_leave log.now → (front : List ℕ) (chunks : List (List ℕ)) → All IsShort chunks
        → durable_text L.content log.now ≡ front ++ chunks_text chunks
        → HoldsChunks front chunks log.now.flow.taken (L.content log.now.device) }
    ensures left { IsTrue L.tells → IsLog L.content L.may_leave log.now → (front : List ℕ) (chunks : List (List ℕ)) (c : List ℕ) → All IsShort chunks
        → durable_text L.content log.now ≡ front ++ chunks_text chunks → L.may_leave log.now.device c
        → HoldsChunks front chunks log.now.flow.taken c }
    ensures at_rest { IsTrue L.tells → IsLog L.content L.may_leave log.now → log.now.flow.stage ≡ Stage.Idle → (front : List ℕ) (chunks : List (List ℕ)) (c : List ℕ)
        → All IsShort chunks → durable_text L.content log.now ≡ front ++ chunks_text chunks → L.may_leave log.now.device c
        → HasChunks front chunks c }
{}
