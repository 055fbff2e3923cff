//! The pages of a log's head as bytes: a header, and two start cells.

ghost use Rattle.std.specs.Prelude.{◌≡◌, ◌==◌, ◌<◌, ◌≤◌, ◌+◌, ◌^◌, length, take, drop, nat_lt, bytes_eq, slice_get, position, if◌then◌else◌, IsTrue, IfSome};
ghost use Rattle.ct_log.specs.Front.{signature};
ghost use Rattle.ct_log.specs.Heads.{is_open, are_zero, before_zero, number_at, id_field, id_of, is_header, is_cell_open, start_of, is_start, is_cell, first_start, told_by, counting};

use crate::head::Start;
use crate::make::is_id;
use crate::places::{
    BASE, CELL_GATE, FIRST_CHUNK, HEADER_END, ID, LAST_END, LAST_NUMBER, OPEN, SIGNATURE,
};

/// Whether the gate at a place is there and open.
pub(crate) fn is_open(page: &[u8], place: usize) -> bool
    ensures open { result ≡ is_open (slice_get page.now place) }
    ensures within { IsTrue result → place < length page.now }
{
    match page.get(place) {
        Some(gate) => *gate == OPEN,
        None => false,
    }
}

/// Whether a page is a header.
pub(crate) fn is_header(page: &[u8]) -> bool
    requires { 36 < length page.now }
    ensures { result ≡ is_header page.now }
{
    is_signed(page)
        && is_id(id_of(page))
        && is_id_padded(page)
        && number_at(page, BASE) <= LAST_NUMBER
        && are_zero(rest(page, HEADER_END))
}

/// The base number of a header.
pub(crate) fn base_of(page: &[u8]) -> u64
    requires long { 36 < length page.now }
    requires header { IsTrue (is_header page.now) }
    ensures base { result ≡ number_at 28 page.now }
    ensures last { result ≤ 2 ^ 63 }
{
    number_at(page, BASE)
}

/// Whether a page begins with the signature.
fn is_signed(page: &[u8]) -> bool
    requires { 36 < length page.now }
    ensures { result ≡ bytes_eq (take 12 page.now) signature }
{
    &page[..ID] == SIGNATURE.as_slice()
}

/// The id of a header.
pub(crate) fn id_of(page: &[u8]) -> &[u8]
    requires { 36 < length page.now }
    ensures id { result.now ≡ id_of page.now }
    ensures within { length result.now ≤ 16 }
{
    before_zero(id_field(page))
}

/// Whether zeros follow the id of a header.
fn is_id_padded(page: &[u8]) -> bool
    requires { 36 < length page.now }
    ensures { result ≡ are_zero (drop (length (id_of page.now)) (id_field page.now)) }
{
    let id = id_of(page);
    are_zero(rest(id_field(page), id.len()))
}

/// The sixteen bytes in which a header has its id.
fn id_field(page: &[u8]) -> &[u8]
    requires { 36 < length page.now }
    ensures field { result.now ≡ id_field page.now }
    ensures len { length result.now ≡ 16 }
{
    &page[ID..BASE]
}

/// The bytes before the first zero.
fn before_zero(bytes: &[u8]) -> &[u8]
    ensures before { result.now ≡ before_zero bytes.now }
    ensures within { length result.now ≤ length bytes.now }
{
    match first_zero(bytes) {
        Some(end) => &bytes[..end],
        None => bytes,
    }
}

/// The place of the first zero.
fn first_zero(bytes: &[u8]) -> Option<usize>
    ensures place { result ≡ position (λ byte. byte == 0) bytes.now }
    ensures within { IfSome result (λ place. place < length bytes.now) }
{
    bytes.iter().position(|byte| *byte == 0)
}

/// Whether all of these bytes are zero.
fn are_zero(bytes: &[u8]) -> bool
    ensures { result ≡ are_zero bytes.now }
{
    bytes.iter().all(|byte| *byte == 0)
}

/// The bytes from a place on.
fn rest(bytes: &[u8], at: usize) -> &[u8]
    requires { at ≤ length bytes.now }
    ensures { result.now ≡ drop at bytes.now }
{
    &bytes[at..]
}

/// The number in the eight bytes from a place on, the low byte first.
pub(crate) fn number_at(page: &[u8], place: usize) -> u64
    requires { place + 8 ≤ length page.now }
    ensures { result ≡ number_at place page.now }
{
    let mut bytes = [0; 8];
    bytes.copy_from_slice(&page[place..place + 8]);
    u64::from_le_bytes(bytes)
}

/// Whether a start cell is in order.
pub(crate) fn is_cell(page: &[u8]) -> bool
    ensures { result ≡ is_cell page.now }
{
    if !is_open(page, CELL_GATE) {
        return true;
    }
    is_start(start_of(page)) && are_zero(rest(page, CELL_GATE + 1))
}

/// The fields of a start cell.
fn start_of(page: &[u8]) -> Start
    requires { 32 < length page.now }
    ensures { result ≡ start_of page.now }
{
    Start {
        sequence: number_at(page, 0),
        place: number_at(page, 8),
        ordinal: number_at(page, 16),
        last: number_at(page, 24),
    }
}

/// Whether these are fields of a start cell.
fn is_start(start: Start) -> bool
    ensures { result ≡ is_start start }
{
    start.sequence <= LAST_NUMBER
        && FIRST_CHUNK <= start.place
        && start.place <= LAST_END
        && 1 <= start.ordinal
        && start.ordinal <= LAST_NUMBER
        && start.last <= LAST_NUMBER
}

/// What a start cell that is in order tells.
pub(crate) fn told_by(page: &[u8]) -> Option<Start>
    requires { IsTrue (is_cell page.now) }
    ensures told { result ≡ told_by page.now }
    ensures start { IfSome result (λ start. IsTrue (is_start start)) }
{
    if !is_open(page, CELL_GATE) {
        return None;
    }
    Some(start_of(page))
}

/// Where a log without an open cell starts.
pub(crate) fn first_start(base: u64) -> Start
    requires { base ≤ 2 ^ 63 }
    ensures first { result ≡ first_start base }
    ensures start { IsTrue (is_start result) }
{
    Start {
        sequence: 0,
        place: FIRST_CHUNK,
        ordinal: 1,
        last: base,
    }
}

/// The start that counts: that of the open cell with the greater sequence, else of the first.
pub(crate) fn counting(base: u64, first: Option<Start>, second: Option<Start>) -> Start
    requires base { base ≤ 2 ^ 63 }
    requires first { IfSome first (λ start. IsTrue (is_start start)) }
    requires second { IfSome second (λ start. IsTrue (is_start start)) }
    ensures counts { result ≡ counting base first second }
    ensures start { IsTrue (is_start result) }
{
    match (first, second) {
        (None, None) => first_start(base),
        (None, Some(second)) => second,
        (Some(first), None) => first,
        (Some(first), Some(second)) => later(first, second),
    }
}

/// Of two starts the one with the greater sequence, else the first.
fn later(first: Start, second: Start) -> Start
    ensures { result ≡ (if nat_lt first.sequence second.sequence then second else first) }
{
    if first.sequence < second.sequence {
        second
    } else {
        first
    }
}
