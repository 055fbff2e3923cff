//! `Slots`, the records of one block in one page.

ghost use Rattle.std.specs.Prelude.{◌≡◌, ◌≢◌, ◌≤◌, ◌+◌, ◌-◌, ◌%◌, [], ℕ, length, option_map, IfSome, IfNone};
ghost use Rattle.ct_definitions.specs.Changes.{without_row};
ghost use Rattle.ct_definitions.specs.Room.{image_at, use_of};
ghost use Rattle.ct_slots.specs.Pages.{RecordPage, Fits, page_of, with_rows, with_slot, rows_use};

use crate::check::is_record_page;
use crate::{edit, find};
use ct_definitions::RECORDS_PER_BLOCK;
use ct_page::{Header, NO_INDEX, PAGE_SIZE, PageKind, u16_at};
use std::marker::Model;

/// The records of one block of a file, each under its number within the block, which is its number
/// modulo 128. The bytes are those of a page: entries behind the header, images packed at the end.
#[derive(Drop)]
pub struct Slots {
    page: [u8; PAGE_SIZE],
}

impl Model for Slots {
    ghost use Rattle.ct_slots.specs.Pages.{RecordPage, shown_on, IsRecordPage};

    ghost Value = { RecordPage };

    ghost view = { λ slots. shown_on slots.page };

    ghost invariant = { λ slots. IsRecordPage slots.page };
}

impl Slots {
    /// No records of this file.
    pub fn new(file: u16) -> Slots
        ensures { result ≡ record { file = file; position = 0; rows = [] } }
    {
        let mut page = [0; PAGE_SIZE];
        let header = Header {
            kind: PageKind::Records,
            file,
            index: NO_INDEX,
            count: 0,
            position: 0,
            right: 0,
            key_len: 0,
        };
        header.write(&mut page);
        Slots { page }
    }

    /// The records of a page, or `None` where it is outside the grammar of record pages.
    pub fn from_page(bytes: &[u8; PAGE_SIZE]) -> Option<Slots>
        ensures shown { IfSome result (λ slots. bytes.now ≡ page_of slots) }
        ensures fits { IfSome result (λ slots. Fits slots) }
        ensures none { IfNone result ((shown : RecordPage) → Fits shown → bytes.now ≢ page_of shown) }
    {
        if !is_record_page(bytes) {
            return None;
        }
        Some(Slots { page: *bytes })
    }

    /// Writes the page of these records.
    pub fn to_page(&self, into: &mut [u8; PAGE_SIZE])
        ensures page { into.new ≡ page_of self.now }
        ensures fits { Fits self.now }
    {
        *into = self.page;
    }

    /// The file that the records are of.
    pub fn file(&self) -> u16
        ensures { result ≡ self.now.file }
    {
        u16_at(&self.page, 2)
    }

    /// The image of a record, or `None` where there is no such record.
    pub fn get(&self, num: u64) -> Option<&[u8]>
        ensures { option_map (λ image. image.now) result ≡ image_at (num % 128) self.now.rows }
    {
        let num = (num % RECORDS_PER_BLOCK) as u16;
        let place = find::place_of(&self.page, num);
        if !find::is_at(&self.page, place, num) {
            return None;
        }
        Some(find::image_of(&self.page, place))
    }

    /// How many bytes are left for further records. Each takes its image and 8 bytes.
    pub fn room(&self) -> usize
        ensures room { result ≡ 3968 - rows_use self.now.rows }
        ensures beside { (num : ℕ) → rows_use (without_row num self.now.rows) ≤ rows_use self.now.rows }
    {
        find::room(&self.page)
    }

    /// Puts an image under a number, in place of the one that is there.
    pub fn set(&mut self, num: u64, image: &[u8])
        requires { use_of image.now + rows_use (without_row (num % 128) self.old.rows) ≤ 3968 }
        ensures { self.new ≡ with_rows (with_slot (num % 128) image.now self.old.rows) self.old }
    {
        let num = (num % RECORDS_PER_BLOCK) as u16;
        edit::set(&mut self.page, num, image);
    }

    /// Takes the record of a number away, where there is one.
    pub fn clear(&mut self, num: u64)
        ensures { self.new ≡ with_rows (without_row (num % 128) self.old.rows) self.old }
    {
        let num = (num % RECORDS_PER_BLOCK) as u16;
        edit::clear(&mut self.page, num);
    }
}
