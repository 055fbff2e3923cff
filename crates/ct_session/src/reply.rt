//! Reply lines, written behind those that wait.
//! No reply is longer than `LONGEST_REPLY`, so each is written in room that was taken before its call.

ghost use Rattle.std.specs.Prelude.{◌≡◌, ◌≤◌, ◌+◌, ◌++◌, codes, decimal, length, vec_len, vec_capacity};
ghost use Rattle.ct_definitions.specs.declared.definition.TheConstants.{LONGEST_IMAGE};
ghost use Rattle.ct_isam.specs.Replies.{number, found, bad_line, halt_err};
ghost use Rattle.ct_isam.specs.Told.{reply_of};
ghost use Rattle.ct_session.specs.Replies.{spelling, IsShort};

use ct_definitions::LONGEST_IMAGE;
use ct_disk::HaltCause;
use ct_isam::{Reply, Session};
use ct_text::spell;
use itoa::Buffer;

/// More bytes than any reply without an image has.
const LONGEST_PLAIN_REPLY: usize = 64;

/// More bytes than any reply has: of an image each byte may be written as three.
pub const LONGEST_REPLY: usize = LONGEST_PLAIN_REPLY + 3 * LONGEST_IMAGE as usize;

/// Writes a call's answer, with the record that the session then has.
pub(crate) fn write_reply(reply: Reply, session: &Session, out: &mut Vec<u8>)
    requires { vec_len out.old + LONGEST_REPLY ≤ vec_capacity out.old }
    ensures text { IsShort (reply_of session.now reply) → out.new.items ≡ out.old.items ++ spelling (reply_of session.now reply) }
    ensures capacity { vec_capacity out.old ≤ vec_capacity out.new }
{
    match reply {
        Reply::Ok => write_plain(b"OK\n", out),
        Reply::Number(n) => write_number(n, out),
        Reply::Found { file } => match session.current(file) {
            Some(row) => write_found(row.num, row.image.as_slice(), out),
            None => write_plain(b"ERR INOT_ERR\n", out),
        },
        Reply::Unbuilt => write_plain(b"ERR UNBUILT\n", out),
        Reply::NoFile => write_plain(b"ERR NOFILE\n", out),
        Reply::NoIndex => write_plain(b"ERR NOINDEX\n", out),
        Reply::Exists => write_plain(b"ERR EXISTS\n", out),
        Reply::BadDef => write_plain(b"ERR BADDEF\n", out),
        Reply::NoCurrent => write_plain(b"ERR ICUR_ERR\n", out),
        Reply::BadLen => write_plain(b"ERR BADLEN\n", out),
        Reply::FileFull => write_plain(b"ERR FILEFULL\n", out),
        Reply::Duplicate => write_plain(b"ERR KDUP_ERR\n", out),
        Reply::NotFound => write_plain(b"ERR INOT_ERR\n", out),
        Reply::Halted(cause) => write_halt(cause, out),
        Reply::Memory => write_plain(b"ERR MEMORY\n", out),
    }
}

/// Writes a reply that has no value.
pub(crate) fn write_plain(reply: &[u8], out: &mut Vec<u8>)
    requires short { length reply.now ≤ 64 }
    requires room { vec_len out.old + 64 ≤ vec_capacity out.old }
    ensures text { out.new.items ≡ out.old.items ++ reply.now }
    ensures capacity { vec_capacity out.old ≤ vec_capacity out.new }
{
    let _ = out.extend_from_slice(reply);
}

/// Writes `OK n`.
fn write_number(n: u64, out: &mut Vec<u8>)
    requires { vec_len out.old + 64 ≤ vec_capacity out.old }
    ensures text { out.new.items ≡ out.old.items ++ spelling (number n) }
    ensures capacity { vec_capacity out.old ≤ vec_capacity out.new }
{
    write_valued(b"OK ", n, b"\n", out);
}

/// Writes `OK r image`.
fn write_found(num: u64, image: &[u8], out: &mut Vec<u8>)
    requires { vec_len out.old + LONGEST_REPLY ≤ vec_capacity out.old }
    ensures text { length image.now ≤ LONGEST_IMAGE → out.new.items ≡ out.old.items ++ spelling (found num image.now) }
    ensures capacity { vec_capacity out.old ≤ vec_capacity out.new }
{
    write_valued(b"OK ", num, b" ", out);
    let _ = spell(image, out);
    let _ = out.extend_from_slice(b"\n");
}

/// Writes `ERR BADLINE place`.
pub(crate) fn write_bad_line(at: usize, out: &mut Vec<u8>)
    requires { vec_len out.old + 64 ≤ vec_capacity out.old }
    ensures text { out.new.items ≡ out.old.items ++ spelling (bad_line at) }
    ensures capacity { vec_capacity out.old ≤ vec_capacity out.new }
{
    write_valued(b"ERR BADLINE ", at as u64, b"\n", out);
}

/// Writes `ERR HALT_ERR cause`.
pub(crate) fn write_halt(cause: HaltCause, out: &mut Vec<u8>)
    requires { vec_len out.old + 64 ≤ vec_capacity out.old }
    ensures text { out.new.items ≡ out.old.items ++ spelling (halt_err cause) }
    ensures capacity { vec_capacity out.old ≤ vec_capacity out.new }
{
    let _ = out.extend_from_slice(b"ERR HALT_ERR ");
    match cause {
        HaltCause::Write => write_end(b"WRITE\n", out),
        HaltCause::Read => write_end(b"READ\n", out),
        HaltCause::Memory => write_end(b"MEMORY\n", out),
        HaltCause::BadPage(page) => write_valued(b"BADPAGE ", page, b"\n", out),
        HaltCause::BadLog(place) => write_valued(b"BADLOG ", place, b"\n", out),
        HaltCause::Limit => write_end(b"LIMIT\n", out),
    }
}

fn write_end(text: &[u8], out: &mut Vec<u8>)
    requires { vec_len out.old + length text.now ≤ vec_capacity out.old }
    ensures text { out.new.items ≡ out.old.items ++ text.now }
    ensures capacity { vec_capacity out.old ≤ vec_capacity out.new }
{
    let _ = out.extend_from_slice(text);
}

/// Writes a value between two texts.
fn write_valued(name: &[u8], value: u64, end: &[u8], out: &mut Vec<u8>)
    requires { vec_len out.old + length name.now + 20 + length end.now ≤ vec_capacity out.old }
    ensures text { out.new.items ≡ out.old.items ++ (name.now ++ decimal value ++ end.now) }
    ensures len { vec_len out.new ≤ vec_len out.old + length name.now + 20 + length end.now }
    ensures capacity { vec_capacity out.old ≤ vec_capacity out.new }
{
    let mut buffer = Buffer::new();
    let _ = out.extend_from_slice(name);
    let _ = out.extend_from_slice(buffer.format(value).as_bytes());
    let _ = out.extend_from_slice(end);
}
