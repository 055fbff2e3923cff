//! Readers of the basic fields: each takes a field from the front of some bytes, and gives its value and
//! the bytes after it.

ghost use Rattle.std.specs.Prelude.{length};
ghost use Rattle.std.specs.Int.{w16, w32, w64};
ghost use Rattle.ct_codec.specs.Formats.{number, any_byte, block, flag, sized};
ghost use Rattle.ct_codec.specs.Answers.{Gives, TakesNoMemory};

use crate::fault::Fault;
use ct_items::Items;
use std::alloc::Global;

/// One byte.
pub fn read_u8(bytes: &[u8]) -> Result<(u8, &[u8]), Fault>
    ensures reads { Gives (λ x. (x.0, x.1.now)) result (any_byte.read bytes.now) }
    ensures memory { TakesNoMemory result }
{
    match bytes {
        [] => Err(Fault::Bad(0)),
        [byte, rest @ ..] => Ok((*byte, rest)),
    }
}

/// Two bytes, as a number.
pub fn read_u16(bytes: &[u8]) -> Result<(u16, &[u8]), Fault>
    ensures reads { Gives (λ x. (x.0, x.1.now)) result ((number w16).read bytes.now) }
    ensures memory { TakesNoMemory result }
{
    if bytes.len() < 2 {
        return Err(Fault::Bad(0));
    }
    let (front, rest) = bytes.split_at(2);
    Ok((u16::from_le_bytes([front[0], front[1]]), rest))
}

/// Four bytes, as a number.
pub fn read_u32(bytes: &[u8]) -> Result<(u32, &[u8]), Fault>
    ensures reads { Gives (λ x. (x.0, x.1.now)) result ((number w32).read bytes.now) }
    ensures memory { TakesNoMemory result }
{
    if bytes.len() < 4 {
        return Err(Fault::Bad(0));
    }
    let (front, rest) = bytes.split_at(4);
    let number = u32::from_le_bytes([front[0], front[1], front[2], front[3]]);
    Ok((number, rest))
}

/// Eight bytes, as a number.
pub fn read_u64(bytes: &[u8]) -> Result<(u64, &[u8]), Fault>
    ensures reads { Gives (λ x. (x.0, x.1.now)) result ((number w64).read bytes.now) }
    ensures memory { TakesNoMemory result }
{
    if bytes.len() < 8 {
        return Err(Fault::Bad(0));
    }
    let (front, rest) = bytes.split_at(8);
    let number = u64::from_le_bytes([
        front[0], front[1], front[2], front[3], front[4], front[5], front[6], front[7],
    ]);
    Ok((number, rest))
}

/// A byte that is 1 or 0.
pub fn read_flag(bytes: &[u8]) -> Result<(bool, &[u8]), Fault>
    ensures reads { Gives (λ x. (x.0, x.1.now)) result (flag.read bytes.now) }
    ensures memory { TakesNoMemory result }
{
    match bytes {
        [] => Err(Fault::Bad(0)),
        [0, rest @ ..] => Ok((false, rest)),
        [1, rest @ ..] => Ok((true, rest)),
        [_, ..] => Err(Fault::Bad(bytes.len())),
    }
}

/// So many bytes, as they stand.
pub fn read_bytes(count: usize, bytes: &[u8]) -> Result<(&[u8], &[u8]), Fault>
    ensures reads { Gives (λ x. (x.0.now, x.1.now)) result ((block count).read bytes.now) }
    ensures memory { TakesNoMemory result }
{
    if bytes.len() < count {
        return Err(Fault::Bad(0));
    }
    Ok(bytes.split_at(count))
}

/// A count in one byte, and so many bytes.
pub fn read_sized_u8(alloc: Global, bytes: &[u8]) -> Result<(Items<u8>, &[u8]), Fault>
    ensures { Gives (λ x. (x.0, x.1.now)) result ((sized any_byte).read bytes.now) }
{
    let (count, rest) = read_u8(bytes)?;
    let (field, rest) = read_bytes(count as usize, rest)?;
    Ok((Items::from_slice(alloc, field)?, rest))
}

/// A count in four bytes, and so many bytes.
pub fn read_sized_u32(alloc: Global, bytes: &[u8]) -> Result<(Items<u8>, &[u8]), Fault>
    ensures { Gives (λ x. (x.0, x.1.now)) result ((sized (number w32)).read bytes.now) }
{
    let (count, rest) = read_u32(bytes)?;
    let (field, rest) = read_bytes(count as usize, rest)?;
    Ok((Items::from_slice(alloc, field)?, rest))
}
