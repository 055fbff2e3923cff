//! A record added to a file, under the lowest number that is free.

ghost use Rattle.std.specs.Prelude.{◌≡◌, List, ℕ, length, slice_get, true, Some, None, nat_le, is_none, ◌&&◌, IfOk, IfErr};
ghost use Rattle.ct_definitions.specs.Changes.{allows, may_stand};
ghost use Rattle.ct_definitions.specs.Room.{has_fitting_len, image_at};
ghost use Rattle.ct_line.specs.declared.call.Call.TheVariants.{Add as AddCall};
ghost use Rattle.ct_model.specs.Fitting.{is_fitting};
ghost use Rattle.ct_yard.specs.Telling.{telling};
ghost use Rattle.ct_yard.specs.Yards.{IsSettled};
ghost use Rattle.ct_isam.specs.Calls.{add_refusal};
ghost use Rattle.ct_isam.specs.Places.{IsRefusedBy};
ghost use Rattle.ct_isam.specs.Serving.{Serves, ServesBy, AddsAs};
ghost use Rattle.ct_isam.specs.Told.{reply_of};

use crate::places::{NamedFile, named_file};
use crate::reply::Reply;
use crate::session::Session;
use ct_disk::Disk;
use ct_items::{Items, NoMemory};
use ct_model::{Bytes, Change, File, Row, State, has_fitting_len, has_taken_key, lowest_free};
use ct_yard::Yard;
use std::alloc::Global;

/// Adds a record of the image to the file of the name, and makes it the session's current one.
pub(crate) fn add<P: Disk, L: Disk>(
    alloc: Global,
    yard: &mut Yard<P, L>,
    session: &mut Session,
    name: &[u8],
    image: Bytes,
) -> Reply
    requires running { yard.old.halt ≡ None }
    requires settled { IsSettled yard.old }
    ensures serves { Serves (telling L.tells L.faults L.content L.may_leave L.left_since) (AddCall name.now image) yard.old session.old (reply_of session.new result) yard.new session.new }
    ensures settled { IsSettled yard.new }
    ensures pages { yard.new.pages ≡ yard.old.pages }
{
    let NamedFile { file, found } = match named_file(&yard.state, name) {
        Ok(named) => named,
        Err(refusal) => return refusal,
    };
    let num = match number_for(alloc, &yard.state, file, found, image.as_slice()) {
        Ok(num) => num,
        Err(refusal) => return refusal,
    };
    add_as(alloc, yard, session, file, num, image)
}

/// The number of a new record, where it is not refused.
fn number_for(
    alloc: Global,
    state: &State,
    file: u16,
    found: &File,
    image: &[u8],
) -> Result<u64, Reply>
    requires file { slice_get state.now file ≡ Some found.now }
    requires fitting { is_fitting found.now ≡ true }
    ensures free { IfOk result (λ num. nat_le 1 num && is_none (image_at num found.now.records) && may_stand found.now num image.now ≡ true) }
    ensures fine { IfOk result (λ num. add_refusal image.now found.now ≡ None) }
    ensures err { IfErr result (IsRefusedBy (add_refusal image.now found.now)) }
{
    if !has_fitting_len(found.def.kind, image.len()) {
        return Err(Reply::BadLen);
    }
    let Some(num) = lowest_free(state, file, image.len()) else {
        return Err(Reply::Memory);
    };
    if has_taken_key(alloc, state, file, num, image) {
        return Err(Reply::Duplicate);
    }
    Ok(num)
}

/// Adds a record under its number. All memory for the session is taken before, and what it had is
/// put back where the record was not added.
fn add_as<P: Disk, L: Disk>(
    alloc: Global,
    yard: &mut Yard<P, L>,
    session: &mut Session,
    file: u16,
    num: u64,
    image: Bytes,
) -> Reply
    requires running { yard.old.halt ≡ None }
    requires settled { IsSettled yard.old }
    requires allowed { allows yard.old.state (Change.Add file num image) ≡ true }
    ensures serves { ServesBy (telling L.tells L.faults L.content L.may_leave L.left_since) (AddsAs file num image) yard.old session.old (reply_of session.new result) yard.new session.new }
    ensures settled { IsSettled yard.new }
    ensures pages { yard.new.pages ≡ yard.old.pages }
{
    let Ok(copy) = Items::from_slice(alloc, image.as_slice()) else {
        return Reply::Memory;
    };
    let Ok(before) = session.exchange(file, Row { num, image: copy }) else {
        return Reply::Memory;
    };
    let change = Change::Add {
        file,
        num,
        new: image,
    };
    match yard.commit(alloc, change) {
        Ok(_transaction) => Reply::Number(num),
        Err(fault) => {
            session.undo(file, before);
            Reply::from(fault)
        }
    }
}
