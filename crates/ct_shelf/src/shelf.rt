//! The trait `Shelf`: devices by name, which are made, lent and given back.
//! What stands under a name is told where the type tells it.

ghost use Rattle.std.specs.Prelude.{◌≡◌, ℕ, Bool, List, IsTrue, IfOk};
ghost use Rattle.ct_shelf.specs.Shelf.{Place, Makes, Finds, OthersStay, IsMakeAnswer, IsFindAnswer, CountsShelfFault, returned};

use ct_disk::Disk;
use ct_items::NoMemory;
use std::alloc::AllocError;
use thiserror::Error;

/// Why a shelf gave no device.
#[derive(Clone, Copy, Debug, PartialEq, Eq, Error)]
pub enum ShelfRefusal {
    /// The name is taken, and its device may be lent.
    #[error("the shelf has the name already")]
    Exists,
    /// No device is at home under the name.
    #[error("the shelf has no device under the name")]
    Missing,
    /// The shelf failed.
    #[error("the shelf failed")]
    Fault,
    /// The call could not have the memory that it asked for.
    #[error("out of memory")]
    Memory,
}

impl From<NoMemory> for ShelfRefusal {
    ghost use Rattle.ct_shelf.specs.declared.shelf.ShelfRefusal.TheVariants.{Memory};

    ghost from_gives = { λ _ refusal. refusal ≡ Memory };

    fn from(_refusal: NoMemory) -> ShelfRefusal {
        ShelfRefusal::Memory
    }
}

/// Devices by name. Under a name there is none, or one that is at home or lent. A call that is
/// refused changes nothing, and no call changes what stands under another name.
pub trait Shelf {
    /// The devices on the shelf.
    type D: Disk;

    /// Whether the type tells what its shelves have. The clauses on that hold where it does.
    ghost tells: { Bool };

    /// What stands under a name.
    ghost place: { Self → List ℕ → Place Self.D };

    /// How often the shelf has failed. The count stops at 2^64 - 1.
    ghost faults: { Self → ℕ };

    /// Makes a device under a name that is free, and lends it.
    fn make(&mut self, name: &[u8]) -> Result<Self::D, ShelfRefusal>
        ensures place { IsTrue tells → Makes result (place self.old name.now) (place self.new name.now) }
        ensures others { IsTrue tells → OthersStay name.now (place self.old) (place self.new) }
        ensures empty { IfOk result (λ device. Self.D.size device ≡ 0) }
        ensures never { IsMakeAnswer result }
        ensures cause { CountsShelfFault result (faults self.old) (faults self.new) };

    /// Lends the device that is at home under a name.
    fn find(&mut self, name: &[u8]) -> Result<Self::D, ShelfRefusal>
        ensures place { IsTrue tells → Finds result (place self.old name.now) (place self.new name.now) }
        ensures others { IsTrue tells → OthersStay name.now (place self.old) (place self.new) }
        ensures never { IsFindAnswer result }
        ensures cause { CountsShelfFault result (faults self.old) (faults self.new) };

    /// Takes a device back. It is at home again where its name is lent; under any other name
    /// nothing changes. It takes no memory.
    fn give_back(&mut self, name: &[u8], device: Self::D)
        ensures place { IsTrue tells → place self.new name.now ≡ returned device (place self.old name.now) }
        ensures others { IsTrue tells → OthersStay name.now (place self.old) (place self.new) }
        ensures faults { faults self.new ≡ faults self.old };
}
