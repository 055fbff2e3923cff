//! Which changes are defined on a state, what they make of it, and what undoes them.
//! The rules stand in `specs/Changes.antt` of the definitions.

ghost use Rattle.std.specs.Prelude.{◌≡◌, ◌↔◌, true, false, Some, None, Ok, IfOk, OnOk, OnErr, IsErrOf};
ghost use Rattle.ct_definitions.specs.Changes.{allows, changed, inverse_of};

use crate::rows::{has_image, image_at};
use crate::state::{State, file_at, has_name, may_stand};
use crate::validity::valid;
use ct_definitions::{Bytes, Change, File, FileDef, MOST_FILES};
use ct_items::NoMemory;
use std::alloc::{AllocError, Global};
use thiserror::Error;

/// Why a change was not made.
#[derive(Clone, Copy, Debug, PartialEq, Eq, Error)]
pub enum Refused {
    /// The change is not defined on the state.
    #[error("the change is not defined on the state")]
    NotDefined,
    #[error("out of memory")]
    Memory,
}

/// Why a change has no inverse.
#[derive(Clone, Copy, Debug, PartialEq, Eq, Error)]
pub enum InverseFault {
    /// No change takes a file away.
    #[error("no change takes a file away")]
    Make,
    #[error("out of memory")]
    Memory,
}

impl From<NoMemory> for Refused {
    ghost use Rattle.std.specs.Prelude.{◌≡◌};
    ghost use Rattle.ct_model.specs.declared.change.Refused.TheVariants.{Memory};

    ghost from_gives = { λ _ refused. refused ≡ Memory };

    fn from(_refusal: NoMemory) -> Refused {
        Refused::Memory
    }
}

impl From<AllocError> for InverseFault {
    ghost use Rattle.std.specs.Prelude.{◌≡◌};
    ghost use Rattle.ct_model.specs.declared.change.InverseFault.TheVariants.{Memory};

    ghost from_gives = { λ _ fault. fault ≡ Memory };

    fn from(_refusal: AllocError) -> InverseFault {
        InverseFault::Memory
    }
}

fn allows_make(state: &State, file: u16, def: &FileDef) -> bool
    ensures { result ≡ allows state.now (Change.Make file def.now) }
{
    let count = state.files().len();
    if usize::from(file) != count || usize::from(file) >= MOST_FILES {
        return false;
    }
    valid(def) && !has_name(state, def.name.as_slice())
}

fn allows_add(state: &State, file: u16, num: u64, new: &Bytes) -> bool
    ensures { result ≡ allows state.now (Change.Add file num new.now) }
{
    let Some(found) = file_at(state, file) else {
        return false;
    };
    if num == 0 || image_at(num, found.records.as_slice()).is_some() {
        return false;
    }
    may_stand(state.allocator(), state, file, num, new.as_slice())
}

fn allows_rewrite(state: &State, file: u16, num: u64, old: &Bytes, new: &Bytes) -> bool
    ensures { result ≡ allows state.now (Change.Rewrite file num old.now new.now) }
{
    let Some(found) = file_at(state, file) else {
        return false;
    };
    if !has_image(num, old.as_slice(), found.records.as_slice()) {
        return false;
    }
    may_stand(state.allocator(), state, file, num, new.as_slice())
}

fn allows_delete(state: &State, file: u16, num: u64, old: &Bytes) -> bool
    ensures { result ≡ allows state.now (Change.Delete file num old.now) }
{
    let Some(found) = file_at(state, file) else {
        return false;
    };
    has_image(num, old.as_slice(), found.records.as_slice())
}

/// Whether the change is defined on the state.
pub fn allows(state: &State, change: &Change) -> bool
    ensures { result ≡ allows state.now change.now }
{
    match change {
        Change::Make { file, def } => allows_make(state, *file, def),
        Change::Add { file, num, new } => allows_add(state, *file, *num, new),
        Change::Rewrite {
            file,
            num,
            old,
            new,
        } => allows_rewrite(state, *file, *num, old, new),
        Change::Delete { file, num, old } => allows_delete(state, *file, *num, old),
    }
}

fn make(alloc: Global, state: &mut State, file: u16, def: FileDef) -> Result<(), Refused>
    ensures ok { OnOk result (state.new ≡ changed state.old (Change.Make file def)) }
    ensures allowed { OnOk result (allows state.old (Change.Make file def) ≡ true) }
    ensures refused { IsErrOf result Refused.NotDefined → allows state.old (Change.Make file def) ≡ false }
    ensures memory { IsErrOf result Refused.Memory → allows state.old (Change.Make file def) ≡ true }
    ensures err { OnErr result (state.new ≡ state.old) }
{
    if !allows_make(state, file, &def) {
        return Err(Refused::NotDefined);
    }
    state.push_file(alloc, def)?;
    Ok(())
}

fn rewrite(state: &mut State, file: u16, num: u64, old: Bytes, new: Bytes) -> Result<(), Refused>
    ensures ok { OnOk result (state.new ≡ changed state.old (Change.Rewrite file num old new)) }
    ensures allowed { OnOk result (allows state.old (Change.Rewrite file num old new) ≡ true) }
    ensures refused { IsErrOf result Refused.NotDefined → allows state.old (Change.Rewrite file num old new) ≡ false }
    ensures memory { IsErrOf result Refused.Memory → allows state.old (Change.Rewrite file num old new) ≡ true }
    ensures err { OnErr result (state.new ≡ state.old) }
{
    if !allows_rewrite(state, file, num, &old, &new) {
        return Err(Refused::NotDefined);
    }
    state.rewrite_row(file, num, new)?;
    Ok(())
}

fn delete(state: &mut State, file: u16, num: u64, old: Bytes) -> Result<(), Refused>
    ensures ok { OnOk result (state.new ≡ changed state.old (Change.Delete file num old)) }
    ensures allowed { OnOk result (allows state.old (Change.Delete file num old) ≡ true) }
    ensures refused { IsErrOf result Refused.NotDefined → allows state.old (Change.Delete file num old) ≡ false }
    ensures memory { IsErrOf result Refused.Memory → allows state.old (Change.Delete file num old) ≡ true }
    ensures err { OnErr result (state.new ≡ state.old) }
{
    if !allows_delete(state, file, num, &old) {
        return Err(Refused::NotDefined);
    }
    state.delete_row(file, num);
    Ok(())
}

/// Makes the change, where it is defined on the state. Its new image or definition moves into the state.
///
/// # Errors
///
/// `NotDefined` where it is not, and `Memory` where there is too little. Both leave the state as it
/// was: all memory is taken before anything changes.
pub fn apply(alloc: Global, state: &mut State, change: Change) -> Result<(), Refused>
    ensures ok { OnOk result (state.new ≡ changed state.old change) }
    ensures allowed { OnOk result (allows state.old change ≡ true) }
    ensures refused { IsErrOf result Refused.NotDefined → allows state.old change ≡ false }
    ensures memory { IsErrOf result Refused.Memory → allows state.old change ≡ true }
    ensures err { OnErr result (state.new ≡ state.old) }
{
    match change {
        Change::Make { file, def } => make(alloc, state, file, def),
        Change::Add { file, num, new } => state.add_row(file, num, new),
        Change::Rewrite {
            file,
            num,
            old,
            new,
        } => rewrite(state, file, num, old, new),
        Change::Delete { file, num, old } => delete(state, file, num, old),
    }
}

/// The change that undoes one.
///
/// # Errors
///
/// `Make` for a change that makes a file, since no change takes a file away, and `Memory`.
pub fn inverse(change: &Change) -> Result<Change, InverseFault>
    ensures ok { IfOk result (λ back. inverse_of change.now ≡ Some back) }
    ensures make { IsErrOf result InverseFault.Make ↔ (inverse_of change.now ≡ None) }
{
    match change {
        Change::Make { .. } => Err(InverseFault::Make),
        Change::Add { file, num, new } => Ok(Change::Delete {
            file: *file,
            num: *num,
            old: new.clone()?,
        }),
        Change::Rewrite {
            file,
            num,
            old,
            new,
        } => Ok(Change::Rewrite {
            file: *file,
            num: *num,
            old: new.clone()?,
            new: old.clone()?,
        }),
        Change::Delete { file, num, old } => Ok(Change::Add {
            file: *file,
            num: *num,
            new: old.clone()?,
        }),
    }
}
