//! Which names and file definitions are valid: the limits of the format, tested part by part.
//! The rules stand in `specs/Validity.antt` of the definitions.

ghost use Rattle.std.specs.Prelude.{◌≡◌, ◌≤◌, length, nat_le};
ghost use Rattle.std.specs.List.{list_all};
ghost use Rattle.ct_definitions.specs.Validity.{is_between, is_name_byte, is_name, takes_len, least_len, is_valid_kind, is_valid_seg, key_len, is_valid_index, has_index, have_own_names, is_valid};
ghost use Rattle.ct_model.specs.Fitting.{longest_len};

use ct_definitions::{
    FileDef, IndexDef, Kind, LONGEST_IMAGE, LONGEST_KEY, LONGEST_NAME, MOST_INDEXES, MOST_SEGMENTS,
    Mode, Seg,
};

fn is_between(low: usize, high: usize, n: usize) -> bool
    ensures { result ≡ is_between low high n }
{
    low <= n && n <= high
}

fn is_name_byte(byte: u8) -> bool
    ensures { result ≡ is_name_byte byte }
{
    byte.is_ascii_alphanumeric() || byte == b'_' || byte == b'.' || byte == b'-'
}

fn are_name_bytes(name: &[u8]) -> bool
    ensures { result ≡ list_all is_name_byte name.now }
{
    name.iter().all(|byte| is_name_byte(*byte))
}

/// Whether the bytes are a name: 1 to 32 letters, digits, `_`, `.` and `-`.
pub fn is_name(name: &[u8]) -> bool
    ensures { result ≡ is_name name.now }
{
    is_between(1, LONGEST_NAME, name.len()) && are_name_bytes(name)
}

fn takes_len(mode: Mode, len: u16) -> bool
    ensures { result ≡ takes_len mode len }
{
    match mode {
        Mode::Reg | Mode::Ureg => len >= 1,
        Mode::Int | Mode::Sgn => len == 1 || len == 2 || len == 4 || len == 8,
    }
}

pub(crate) fn least_len(kind: Kind) -> u32
    ensures { result ≡ least_len kind }
{
    match kind {
        Kind::Fixed(len) => len,
        Kind::Variable { min, .. } => min,
    }
}

pub(crate) fn longest_len(kind: Kind) -> u32
    ensures { result ≡ longest_len kind }
{
    match kind {
        Kind::Fixed(len) => len,
        Kind::Variable { max, .. } => max,
    }
}

fn is_valid_kind(kind: Kind) -> bool
    ensures { result ≡ is_valid_kind kind }
{
    match kind {
        Kind::Fixed(len) => 1 <= len && len <= LONGEST_IMAGE,
        Kind::Variable { min, max } => 1 <= min && min <= max && max <= LONGEST_IMAGE,
    }
}

fn is_valid_seg(least: u32, seg: &Seg) -> bool
    ensures { result ≡ is_valid_seg least seg.now }
{
    takes_len(seg.mode, seg.len) && u32::from(seg.at) + u32::from(seg.len) <= least
}

fn are_valid_segs(least: u32, segs: &[Seg]) -> bool
    ensures { result ≡ list_all (is_valid_seg least) segs.now }
{
    segs.iter().all(|seg| is_valid_seg(least, seg))
}

fn has_short_keys(segs: &[Seg]) -> bool
    requires { length segs.now ≤ MOST_SEGMENTS }
    ensures { result ≡ nat_le (key_len segs.now) LONGEST_KEY }
{
    segs.iter().map(|seg| usize::from(seg.len)).sum::<usize>() <= LONGEST_KEY
}

fn is_valid_index(least: u32, index: &IndexDef) -> bool
    ensures { result ≡ is_valid_index least index.now }
{
    let segs = index.segs.as_slice();
    if !is_name(index.name.as_slice()) || !is_between(1, MOST_SEGMENTS, segs.len()) {
        return false;
    }
    are_valid_segs(least, segs) && has_short_keys(segs)
}

fn has_index(name: &[u8], indexes: &[IndexDef]) -> bool
    ensures { result ≡ has_index name.now indexes.now }
{
    indexes.iter().any(|index| index.name.as_slice() == name)
}

fn have_own_names(indexes: &[IndexDef]) -> bool
    ensures { result ≡ have_own_names indexes.now }
{
    for (i, index) in indexes.iter().enumerate() {
        if has_index(index.name.as_slice(), &indexes[i + 1..]) {
            return false;
        }
    }
    true
}

fn are_valid_indexes(least: u32, indexes: &[IndexDef]) -> bool
    ensures { result ≡ list_all (is_valid_index least) indexes.now }
{
    indexes.iter().all(|index| is_valid_index(least, index))
}

/// Whether the definition is valid: its name, the lengths of its images, and 1 to 8 valid indexes
/// with different names.
pub fn valid(def: &FileDef) -> bool
    ensures { result ≡ is_valid def.now }
{
    let indexes = def.indexes.as_slice();
    if !is_name(def.name.as_slice()) || !is_valid_kind(def.kind) {
        return false;
    }
    if !is_between(1, MOST_INDEXES, indexes.len()) {
        return false;
    }
    are_valid_indexes(least_len(def.kind), indexes) && have_own_names(indexes)
}
