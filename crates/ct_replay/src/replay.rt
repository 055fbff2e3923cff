//! The images of groups, placed over frames.

ghost use Rattle.std.specs.Prelude.{◌≡◌, ◌≤◌, ◌+◌, ◌^◌, ◌++◌, [], ℕ, List, All, length, take, IfErr, OnOk, OnErr};
ghost use Rattle.ct_frames.specs.Pages.{PageImage, ArePages, PlacesAll};
ghost use Rattle.ct_frames.specs.Tables.{SameFrames};
ghost use Rattle.ct_frames.specs.declared.table.FrameTable.{FrameTable};
ghost use Rattle.ct_replay.specs.Images.{images_in, images_from, IsPlaceable, ArePagesAfter};

use ct_disk::Disk;
use ct_frames::{FrameFault, Frames};
use ct_group::{Group, Image};
use ct_page::PAGE_SIZE;

/// Places the images of groups in their order. The first group has this position, each further one
/// the next.
///
/// At `Memory`, the only refusal, the images of a first part of the groups are placed.
pub fn replay_groups<P: Disk>(
    frames: &mut Frames<P>,
    groups: &[Group],
    position: u64,
) -> Result<(), FrameFault>
    requires positions { position + length groups.now ≤ 2 ^ 64 }
    requires images { All IsPlaceable groups.now }
    ensures frames { OnOk result (PlacesAll (images_from position groups.now) frames.old.table frames.new.table) }
    ensures pages { (base : ℕ → List ℕ) → ArePages base [] frames.old.table
        → OnOk result (ArePagesAfter base position groups.now frames.new.table) }
    ensures more { (base : ℕ → List ℕ) (before : List PageImage) → ArePages base before frames.old.table
        → OnOk result (ArePages base (before ++ images_from position groups.now) frames.new.table) }
    ensures part { OnErr result ((count : ℕ) × (count ≤ length groups.now) × PlacesAll (images_from position (take count groups.now)) frames.old.table frames.new.table) }
    ensures memory { IfErr result (λ fault. fault ≡ FrameFault.Memory) }
    ensures device { frames.new.device ≡ frames.old.device }
{
    for (place, group) in groups.iter().enumerate() {
        replay_group(frames, group, position + place as u64)?;
    }
    Ok(())
}

// Places the image of a group, if it is one.
fn replay_group<P: Disk>(
    frames: &mut Frames<P>,
    group: &Group,
    position: u64,
) -> Result<(), FrameFault>
    requires { IsPlaceable group.now }
    ensures placed { (from : FrameTable) (before : List PageImage) → PlacesAll before from frames.old.table
        → OnOk result (PlacesAll (before ++ images_in position group.now) from frames.new.table) }
    ensures pages { (base : ℕ → List ℕ) (before : List PageImage) → ArePages base before frames.old.table
        → OnOk result (ArePages base (before ++ images_in position group.now) frames.new.table) }
    ensures err { OnErr result (SameFrames frames.old.table frames.new.table) }
    ensures memory { IfErr result (λ fault. fault ≡ FrameFault.Memory) }
    ensures device { frames.new.device ≡ frames.old.device }
{
    let Group::Image(image) = group else {
        return Ok(());
    };
    frames.replay(image.page, page_of(image), position)
}

// The whole page that an image is of.
fn page_of(image: &Image) -> &[u8; PAGE_SIZE]
    requires { length image.now.bytes ≡ PAGE_SIZE }
    ensures { result.now ≡ image.now.bytes }
{
    let Some(bytes) = image.bytes.as_slice().as_array::<PAGE_SIZE>() else {
        unreachable!();
    };
    bytes
}
