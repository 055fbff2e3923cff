//! How many bytes a change of a record has in the log, without writing it.

ghost use Rattle.std.specs.Prelude.{◌≡◌, ◌<◌, ◌^◌, true};
ghost use Rattle.ct_change_codec.specs.ChangeFormat.{LengthsFit};
ghost use Rattle.ct_tran.specs.Owned.{encoded_len, is_of_record};

use ct_definitions::Change;

/// The kind, the file and the number of a change, and the length of one image.
const HEAD: u64 = 15;

/// The length of a second image.
const SECOND: u64 = 4;

/// How many bytes a change of a record has in the log.
#[tactic(auto, unfolding(ct_change_codec::specs::ChangeFormat::change_codec, ct_change_codec::specs::ChangeFormat::add_codec, ct_change_codec::specs::ChangeFormat::rewrite_codec, ct_change_codec::specs::ChangeFormat::delete_codec))]
pub fn encoded_len(change: &Change) -> u64
    requires record { is_of_record change.now ≡ true }
    requires fits { LengthsFit change.now }
    ensures len { result ≡ encoded_len change.now }
    ensures short { result < 2 ^ 34 }
{
    match change {
        Change::Make { .. } => 0,
        Change::Add { new, .. } => HEAD + new.as_slice().len() as u64,
        Change::Rewrite { old, new, .. } => {
            HEAD + SECOND + old.as_slice().len() as u64 + new.as_slice().len() as u64
        }
        Change::Delete { old, .. } => HEAD + old.as_slice().len() as u64,
    }
}
