//! From a field and the bytes after it to how many bytes the field takes.

ghost use Rattle.std.specs.Prelude.{◌≡◌, List, ℕ};
ghost use Rattle.ct_codec.specs.Codec.{Codec};
ghost use Rattle.ct_codec.specs.Answers.{Gives, IsWithin, ReadsFront};

use crate::fault::{Fault, ReadFault};

/// The value that a reader found at the front of some bytes, with the number of bytes that it takes, or the
/// place of the first field that does not fit.
pub fn front_of<T>(bytes: &[u8], read: Result<(T, &[u8]), Fault>) -> Result<(T, usize), ReadFault>
    requires { IsWithin (λ x. x.1.now) bytes.now read }
    ensures reads { (c : Codec T) → Gives (λ x. (x.0, x.1.now)) read.entry (c.read bytes.now) → ReadsFront c bytes.now result }
    ensures memory { result ≡ Err ReadFault.Memory → read.entry ≡ Err Fault.Memory }
{
    match read {
        Ok((value, rest)) => Ok((value, bytes.len() - rest.len())),
        Err(Fault::Bad(left)) => Err(ReadFault::Bad {
            at: bytes.len() - left,
        }),
        Err(Fault::Memory) => Err(ReadFault::Memory),
    }
}
