//! What a session keeps between its calls.
//! Of each file that it has used it has a current record, and perhaps a set of keys.

ghost use Rattle.std.specs.Prelude.{◌≡◌, ◌==◌, [], position, find, IfOk, OnErr, OnOk, Some};
ghost use Rattle.std.specs.Option.{option_copied};
ghost use Rattle.ct_isam.specs.Seats.{seat_of, with_seat, with_current};
ghost use Rattle.ct_isam.specs.Looking.{seat_with};
ghost use Rattle.ct_isam.specs.Undoing.{put_back, with_old};

use ct_definitions::Row;
use ct_items::NoMemory;
use ct_key::KeyBuf;
use std::alloc::Global;
use std::marker::Model;

/// The keys of an index that begin with the bytes in front.
#[derive(Debug, Drop)]
pub struct KeySet {
    /// The place of the index in its file's definition.
    pub index: usize,
    pub front: KeyBuf,
}

/// What a session keeps of a file.
#[derive(Debug, Drop)]
pub struct Seat {
    pub file: u16,
    /// The record that it last had, as it was then.
    pub current: Option<Row>,
    pub set: Option<KeySet>,
}

/// What a session had of a file before a record became the current one.
#[derive(Debug, Drop)]
pub(crate) enum Before {
    /// It had not used the file.
    Unused,
    /// It had this record, or none.
    Used(Option<Row>),
}

/// One session: what it keeps of each file that it has used.
#[derive(Debug, Drop)]
pub struct Session {
    seats: Vec<Seat>,
}

impl Model for Session {
    ghost use Rattle.std.specs.Prelude.{List};
    ghost use Rattle.ct_isam.specs.declared.session.Seat.{Seat};

    ghost Value = { List Seat };

    ghost view = { λ session. session.seats.items };
}

impl Session {
    /// A session that has used no file.
    pub fn new(alloc: Global) -> Session
        ensures { result ≡ [] }
    {
        Session {
            seats: Vec::new(alloc),
        }
    }

    fn seat(&self, file: u16) -> Option<&Seat>
        ensures { option_copied result ≡ find (λ seat. seat.file == file) self.now }
    {
        self.seats.iter().find(|seat| seat.file == file)
    }

    fn place_of(&self, file: u16) -> Option<usize>
        ensures { result ≡ position (λ seat. seat.file == file) self.now }
    {
        self.seats.iter().position(|seat| seat.file == file)
    }

    /// The session's current record of the file.
    pub fn current(&self, file: u16) -> Option<&Row>
        ensures { option_copied result ≡ (seat_of file self.now).current }
    {
        match self.seat(file) {
            Some(seat) => seat.current.as_ref(),
            None => None,
        }
    }

    /// The session's set of the file.
    pub(crate) fn set(&self, file: u16) -> Option<&KeySet>
        ensures { option_copied result ≡ (seat_of file self.now).set }
    {
        match self.seat(file) {
            Some(seat) => seat.set.as_ref(),
            None => None,
        }
    }

    /// Makes a record that was found the current one of the file, and keeps the set that the search
    /// begins, where it begins one.
    pub(crate) fn keep(&mut self, file: u16, row: Row, set: Option<KeySet>) -> Result<(), NoMemory>
        ensures ok { OnOk result (self.new ≡ with_seat (record (seat_with set (seat_of file self.old)) { current = Some row }) self.old) }
        ensures err { OnErr result (self.new ≡ self.old) }
    {
        match self.place_of(file) {
            Some(place) => keep_in(&mut self.seats[place], row, set),
            None => self.seats.push(Seat {
                file,
                current: Some(row),
                set,
            })?,
        }
        Ok(())
    }

    /// Makes a new record the current one of the file, and gives back what was before.
    pub(crate) fn exchange(&mut self, file: u16, row: Row) -> Result<Before, NoMemory>
        ensures new { IfOk result (λ before. self.new ≡ with_current file row self.old) }
        ensures undone { IfOk result (λ before. put_back file before self.new ≡ self.old) }
        ensures err { OnErr result (self.new ≡ self.old) }
    {
        match self.place_of(file) {
            Some(place) => {
                let seat = &mut self.seats[place];
                let before = std::mem::replace(&mut seat.current, Some(row));
                Ok(Before::Used(before))
            }
            None => {
                self.seats.push(Seat {
                    file,
                    current: Some(row),
                    set: None,
                })?;
                Ok(Before::Unused)
            }
        }
    }

    /// Puts back what a file had before an exchange.
    pub(crate) fn undo(&mut self, file: u16, before: Before)
        ensures { self.new ≡ put_back file before self.old }
    {
        match before {
            Before::Unused => {
                let _seat = self.seats.pop();
            }
            Before::Used(current) => self.put_current(file, current),
        }
    }

    /// Gives the seat of a file, where it has one, another current record.
    fn put_current(&mut self, file: u16, current: Option<Row>)
        ensures { self.new ≡ with_old file current self.old }
    {
        let Some(place) = self.place_of(file) else {
            return;
        };
        let seat = &mut self.seats[place];
        let _old = std::mem::replace(&mut seat.current, current);
    }
}

/// Keeps a record, and a set where there is one.
fn keep_in(seat: &mut Seat, row: Row, set: Option<KeySet>)
    ensures { seat.new ≡ record (seat_with set seat.old) { current = Some row } }
{
    seat.current = Some(row);
    if set.is_some() {
        seat.set = set;
    }
}
