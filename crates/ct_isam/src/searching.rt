//! The searches of a session: what each looks for, and the record that it finds made the current one.

ghost use Rattle.std.specs.Prelude.{◌≡◌, ◌⊎◌, List, Some, None, IfOk, IfErr};
ghost use Rattle.ct_definitions.specs.Pairs.{Pair as SomePair};
ghost use Rattle.std.specs.Option.{option_copied};
ghost use Rattle.ct_key.specs.Target.{target_from};
ghost use Rattle.ct_pairs.specs.Finds.{found_pair};
ghost use Rattle.ct_isam.specs.Seats.{seat_of};
ghost use Rattle.ct_isam.specs.Searches.{in_index, walk_at, search_at, walk_finder, outcome_of, current_pair, key_finder, sought_key, whole_key};
ghost use Rattle.ct_isam.specs.Places.{IsPlace, IsIndex};
ghost use Rattle.ct_isam.specs.Looking.{Looks, IsFoundBy, row_numbered, seat_with, set_of};
ghost use Rattle.ct_isam.specs.Told.{reply_of};

use crate::finding::found_num;
use crate::places::{Place, place_of};
use crate::reply::Reply;
use crate::session::{KeySet, Session};
use ct_items::{Items, NoMemory};
use ct_key::{KeyBuf, key_len, key_of, target_key};
use ct_line::{Search, Walk};
use ct_model::{Row, State, has_fitting_len, row_at};
use ct_pairs::{Pair, Seek};
use std::alloc::Global;

/// A search without a target in the index of these names.
pub(crate) fn walk(
    alloc: Global,
    state: &State,
    session: &mut Session,
    walk: Walk,
    file: &[u8],
    index: &[u8],
) -> Reply
    ensures { Looks (in_index state.now file.now index.now (walk_at walk session.old)) session.old (reply_of session.new result) session.new }
{
    match place_of(state, file, index) {
        Ok(place) => walk_in(alloc, state, session, walk, &place),
        Err(refusal) => refusal,
    }
}

/// A search for a target in the index of these names.
pub(crate) fn search_for(
    alloc: Global,
    state: &State,
    session: &mut Session,
    kind: Search,
    file: &[u8],
    index: &[u8],
    target: &[u8],
) -> Reply
    ensures { Looks (in_index state.now file.now index.now (search_at kind target.now session.old)) session.old (reply_of session.new result) session.new }
{
    match place_of(state, file, index) {
        Ok(place) => search_in(alloc, state, session, kind, &place, target),
        Err(refusal) => refusal,
    }
}

/// A search without a target in an index.
fn walk_in(
    alloc: Global,
    state: &State,
    session: &mut Session,
    walk: Walk,
    place: &Place<'_>,
) -> Reply
    requires { IsPlace state.now place.now }
    ensures { Looks (walk_at walk session.old place.now.file place.now.found.now place.now.index place.now.def.now) session.old (reply_of session.new result) session.new }
{
    match walked(alloc, state, session, walk, place) {
        Ok(num) => show(alloc, session, place, num, None),
        Err(refusal) => refusal,
    }
}

/// The number of the record that a search without a target finds.
fn walked(
    alloc: Global,
    state: &State,
    session: &Session,
    walk: Walk,
    place: &Place<'_>,
) -> Result<Option<u64>, Reply>
    requires { IsPlace state.now place.now }
    ensures { IsFoundBy (walk_finder walk place.now.def.now place.now.index (seat_of place.now.file session.now)) place.now.def.now place.now.found.now.records result }
{
    match walk {
        Walk::First => sought(state, place, Seek::First),
        Walk::Last => sought(state, place, Seek::Last),
        Walk::Next => next(alloc, state, session, place),
        Walk::Prev => previous(alloc, state, session, place),
        Walk::NextSet => next_of_set(alloc, state, session, place),
    }
}

/// The number of the record that is found.
fn sought(state: &State, place: &Place<'_>, seek: Seek<'_>) -> Result<Option<u64>, Reply>
    requires { IsPlace state.now place.now }
    ensures { IsFoundBy (Some (found_pair seek.entry)) place.now.def.now place.now.found.now.records result }
{
    Ok(found_num(state, place, seek))
}

/// The number of the record behind the session's current one.
fn next(
    alloc: Global,
    state: &State,
    session: &Session,
    place: &Place<'_>,
) -> Result<Option<u64>, Reply>
    requires { IsPlace state.now place.now }
    ensures { IsFoundBy (walk_finder Walk.Next place.now.def.now place.now.index (seat_of place.now.file session.now)) place.now.def.now place.now.found.now.records result }
{
    match pair_of_current(alloc, session.current(place.file), place) {
        Ok(pair) => sought(state, place, Seek::Next(&pair)),
        Err(refusal) => Err(refusal),
    }
}

/// The number of the record before the session's current one.
fn previous(
    alloc: Global,
    state: &State,
    session: &Session,
    place: &Place<'_>,
) -> Result<Option<u64>, Reply>
    requires { IsPlace state.now place.now }
    ensures { IsFoundBy (walk_finder Walk.Prev place.now.def.now place.now.index (seat_of place.now.file session.now)) place.now.def.now place.now.found.now.records result }
{
    match pair_of_current(alloc, session.current(place.file), place) {
        Ok(pair) => sought(state, place, Seek::Prev(&pair)),
        Err(refusal) => Err(refusal),
    }
}

/// The number of the record behind the session's current one in its set.
fn next_of_set(
    alloc: Global,
    state: &State,
    session: &Session,
    place: &Place<'_>,
) -> Result<Option<u64>, Reply>
    requires { IsPlace state.now place.now }
    ensures { IsFoundBy (walk_finder Walk.NextSet place.now.def.now place.now.index (seat_of place.now.file session.now)) place.now.def.now place.now.found.now.records result }
{
    let Some(set) = session.set(place.file) else {
        return Err(Reply::NoCurrent);
    };
    if set.index != place.index {
        return Err(Reply::NoCurrent);
    }
    match pair_of_current(alloc, session.current(place.file), place) {
        Ok(pair) => sought(state, place, Seek::NextInSet(&pair, set.front.as_slice())),
        Err(refusal) => Err(refusal),
    }
}

/// The pair of the session's current record. A record of another length than the file allows, which
/// no session of this store has, is answered as want of memory.
fn pair_of_current(alloc: Global, current: Option<&Row>, place: &Place<'_>) -> Result<Pair, Reply>
    requires { IsIndex place.now }
    ensures ok { IfOk result (λ pair. current_pair place.now.def.now (option_copied current.entry) ≡ Some pair) }
    ensures err { IfErr result (λ reply. (reply ≡ Reply.Memory) ⊎ ((reply ≡ Reply.NoCurrent) × (current_pair place.now.def.now (option_copied current.entry) ≡ None))) }
{
    let Some(row) = current else {
        return Err(Reply::NoCurrent);
    };
    let image = row.image.as_slice();
    if !has_fitting_len(place.found.def.kind, image.len()) {
        return Err(Reply::Memory);
    }
    let mut key = KeyBuf::new(alloc);
    if !key_of(place.def.segs.as_slice(), place.def.null, image, &mut key) {
        return Err(Reply::NoCurrent);
    }
    match Pair::new(alloc, key.as_slice(), row.num) {
        Ok(pair) => Ok(pair),
        Err(_) => Err(Reply::Memory),
    }
}

/// A search for a target in an index.
fn search_in(
    alloc: Global,
    state: &State,
    session: &mut Session,
    kind: Search,
    place: &Place<'_>,
    target: &[u8],
) -> Reply
    requires { IsPlace state.now place.now }
    ensures { Looks (search_at kind target.now session.old place.now.file place.now.found.now place.now.index place.now.def.now) session.old (reply_of session.new result) session.new }
{
    let Some(key) = key_sought(alloc, kind, place, target) else {
        return Reply::BadLen;
    };
    let num = found_num(state, place, seek_of(kind, key.as_slice()));
    show(
        alloc,
        session,
        place,
        num,
        set_begun(kind, place.index, key),
    )
}

/// The key, or for a set its first bytes, that the target becomes.
fn key_sought(alloc: Global, kind: Search, place: &Place<'_>, target: &[u8]) -> Option<KeyBuf>
    requires { IsIndex place.now }
    ensures { result ≡ sought_key kind place.now.def.now target.now }
{
    match kind {
        Search::FirstSet => front_sought(alloc, place, target),
        Search::Get | Search::Gte | Search::Gt | Search::Lte | Search::Lt => {
            whole_key(alloc, place, target)
        }
    }
}

/// The key that a target becomes, or none where it has not the length of keys.
fn whole_key(alloc: Global, place: &Place<'_>, target: &[u8]) -> Option<KeyBuf>
    requires { IsIndex place.now }
    ensures { result ≡ whole_key place.now.def.now target.now }
{
    if target.len() != key_len(place.def.segs.as_slice()) {
        return None;
    }
    front_sought(alloc, place, target)
}

/// The first bytes of keys that a target becomes, or none where it may not be sought.
fn front_sought(alloc: Global, place: &Place<'_>, target: &[u8]) -> Option<KeyBuf>
    requires { IsIndex place.now }
    ensures { result ≡ target_from place.now.def.now.segs target.now }
{
    let mut key = KeyBuf::new(alloc);
    if !target_key(place.def.segs.as_slice(), target, &mut key) {
        return None;
    }
    Some(key)
}

/// What the search for the key looks for.
fn seek_of(kind: Search, key: &[u8]) -> Seek<'_>
    ensures { (pairs : List SomePair) → found_pair result pairs ≡ key_finder kind key.now pairs }
{
    match kind {
        Search::Get => Seek::Equal(key),
        Search::Gte => Seek::AtOrAbove(key),
        Search::Gt => Seek::Above(key),
        Search::Lte => Seek::AtOrBelow(key),
        Search::Lt => Seek::Below(key),
        Search::FirstSet => Seek::FirstInSet(key),
    }
}

/// The set that the search begins where it finds a record.
fn set_begun(kind: Search, index: usize, key: KeyBuf) -> Option<KeySet>
    ensures { result ≡ set_of kind index key }
{
    match kind {
        Search::FirstSet => Some(KeySet { index, front: key }),
        Search::Get | Search::Gte | Search::Gt | Search::Lte | Search::Lt => None,
    }
}

/// Makes the record of a number that was found the session's current one.
fn show(
    alloc: Global,
    session: &mut Session,
    place: &Place<'_>,
    num: Option<u64>,
    set: Option<KeySet>,
) -> Reply
    requires { IsIndex place.now }
    ensures { Looks (outcome_of (row_numbered num place.now.found.now.records) (seat_with set (seat_of place.now.file session.old))) session.old (reply_of session.new result) session.new }
{
    let Some(num) = num else {
        return Reply::NotFound;
    };
    let Some(row) = row_at(num, place.found.records.as_slice()) else {
        return Reply::NotFound;
    };
    let Ok(image) = Items::from_slice(alloc, row.image.as_slice()) else {
        return Reply::Memory;
    };
    let row = Row {
        num: row.num,
        image,
    };
    match session.keep(place.file, row, set) {
        Ok(()) => Reply::Found { file: place.file },
        Err(NoMemory) => Reply::Memory,
    }
}
