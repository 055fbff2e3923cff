//! The file and the index that a call names.
//! They are found by their names, the first of a name where there are more.

ghost use Rattle.std.specs.Prelude.{IfOk, IfErr, ℕ};
ghost use Rattle.ct_definitions.specs.declared.store.File.{File as SomeFile};
ghost use Rattle.ct_definitions.specs.declared.definition.IndexDef.{IndexDef as SomeIndex};
ghost use Rattle.ct_isam.specs.Searches.{Outcome, in_index};
ghost use Rattle.ct_isam.specs.Places.{IsNamed, IsPlace, LeadsTo, IsUnnamed, IsRefusal};

use crate::reply::Reply;
use ct_model::{File, IndexDef, State, file_named, index_named};

/// The file of a name.
#[derive(Clone, Copy)]
pub(crate) struct NamedFile<'a> {
    pub file: u16,
    pub found: &'a File,
}

/// An index in which a search looks.
#[derive(Clone, Copy)]
pub(crate) struct Place<'a> {
    /// The number of its file.
    pub file: u16,
    pub found: &'a File,
    /// Its place in the file's definition.
    pub index: usize,
    pub def: &'a IndexDef,
}

/// The file of the name. One whose number has more than 16 bits, which no store has, is answered as
/// want of memory.
pub(crate) fn named_file<'a>(state: &'a State, name: &[u8]) -> Result<NamedFile<'a>, Reply>
    ensures ok { IfOk result (IsNamed name.now state.now) }
    ensures err { IfErr result (IsUnnamed name.now state.now) }
{
    let Some(place) = file_named(state, name) else {
        return Err(Reply::NoFile);
    };
    let found = &state.files()[place];
    match u16::try_from(place) {
        Ok(file) => Ok(NamedFile { file, found }),
        Err(_) => Err(Reply::Memory),
    }
}

/// The index of the name in the file of the other name.
pub(crate) fn place_of<'a>(state: &'a State, name: &[u8], index: &[u8]) -> Result<Place<'a>, Reply>
    ensures ok { IfOk result (IsPlace state.now) }
    ensures leads { IfOk result (LeadsTo state.now name.now index.now) }
    ensures err { IfErr result (λ reply. (look : ℕ → SomeFile → ℕ → SomeIndex → Outcome) → IsRefusal (in_index state.now name.now index.now look) reply) }
{
    let NamedFile { file, found } = match named_file(state, name) {
        Ok(named) => named,
        Err(refusal) => return Err(refusal),
    };
    let Some(index) = index_named(&found.def, index) else {
        return Err(Reply::NoIndex);
    };
    let def = &found.def.indexes.as_slice()[index];
    Ok(Place {
        file,
        found,
        index,
        def,
    })
}
