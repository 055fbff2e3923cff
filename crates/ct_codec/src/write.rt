//! Writers of the basic fields: each adds a field at the end of some bytes, or leaves them as they are.

ghost use Rattle.std.specs.Prelude.{◌≡◌, ◌∷◌, [], ◌++◌, ◌<◌, ◌^◌, length, OnOk, OnErr};
ghost use Rattle.std.specs.Int.{w16, w32, w64};
ghost use Rattle.ct_codec.specs.Formats.{number, any_byte, flag, sized};

use byteorder::{ByteOrder, LittleEndian};
use ct_items::NoMemory;

/// A number, in one byte.
pub fn write_u8(value: u8, into: &mut Vec<u8>) -> Result<(), NoMemory>
    ensures ok { OnOk result (into.new.items ≡ into.old.items ++ any_byte.text value) }
    ensures err { OnErr result (into.new.items ≡ into.old.items) }
{
    into.push(value)?;
    Ok(())
}

/// A number, in two bytes.
pub fn write_u16(value: u16, into: &mut Vec<u8>) -> Result<(), NoMemory>
    ensures ok { OnOk result (into.new.items ≡ into.old.items ++ (number w16).text value) }
    ensures err { OnErr result (into.new.items ≡ into.old.items) }
{
    let mut bytes = [0; 2];
    LittleEndian::write_u16(&mut bytes, value);
    into.extend_from_slice(&bytes)?;
    Ok(())
}

/// A number, in four bytes.
pub fn write_u32(value: u32, into: &mut Vec<u8>) -> Result<(), NoMemory>
    ensures ok { OnOk result (into.new.items ≡ into.old.items ++ (number w32).text value) }
    ensures err { OnErr result (into.new.items ≡ into.old.items) }
{
    let mut bytes = [0; 4];
    LittleEndian::write_u32(&mut bytes, value);
    into.extend_from_slice(&bytes)?;
    Ok(())
}

/// A number, in eight bytes.
pub fn write_u64(value: u64, into: &mut Vec<u8>) -> Result<(), NoMemory>
    ensures ok { OnOk result (into.new.items ≡ into.old.items ++ (number w64).text value) }
    ensures err { OnErr result (into.new.items ≡ into.old.items) }
{
    let mut bytes = [0; 8];
    LittleEndian::write_u64(&mut bytes, value);
    into.extend_from_slice(&bytes)?;
    Ok(())
}

/// A byte that is 1 for yes and 0 for no.
pub fn write_flag(value: bool, into: &mut Vec<u8>) -> Result<(), NoMemory>
    ensures ok { OnOk result (into.new.items ≡ into.old.items ++ flag.text value) }
    ensures err { OnErr result (into.new.items ≡ into.old.items) }
{
    into.push(if value { 1 } else { 0 })?;
    Ok(())
}

/// Bytes as they stand.
pub fn write_bytes(field: &[u8], into: &mut Vec<u8>) -> Result<(), NoMemory>
    ensures ok { OnOk result (into.new.items ≡ into.old.items ++ field.now) }
    ensures err { OnErr result (into.new.items ≡ into.old.items) }
{
    into.extend_from_slice(field)?;
    Ok(())
}

/// The count of some bytes, in one byte, and these bytes.
pub fn write_sized_u8(field: &[u8], into: &mut Vec<u8>) -> Result<(), NoMemory>
    requires { length field.now < 2 ^ 8 }
    ensures ok { OnOk result (into.new.items ≡ into.old.items ++ (sized any_byte).text field.now) }
    ensures err { OnErr result (into.new.items ≡ into.old.items) }
{
    let before = into.len();
    write_u8(field.len() as u8, into)?;
    let written = write_bytes(field, into);
    if written.is_err() {
        into.truncate(before);
    }
    written
}

/// The count of some bytes, in four bytes, and these bytes.
pub fn write_sized_u32(field: &[u8], into: &mut Vec<u8>) -> Result<(), NoMemory>
    requires { length field.now < 2 ^ 32 }
    ensures ok { OnOk result (into.new.items ≡ into.old.items ++ (sized (number w32)).text field.now) }
    ensures err { OnErr result (into.new.items ≡ into.old.items) }
{
    let before = into.len();
    write_u32(field.len() as u32, into)?;
    let written = write_bytes(field, into);
    if written.is_err() {
        into.truncate(before);
    }
    written
}
