//! The groups of one chunk, kept in the bytes that the device gets in one write.

ghost use Rattle.std.specs.Prelude.{◌≡◌, ◌<◌, ◌≤◌, ◌+◌, ◌-◌, ◌^◌, [], ◌++◌, length, take, drop, IfOk, OnOk, OnErr};
ghost use Rattle.ct_log.specs.Chunks.{groups_of, length_bytes, chunk_body, chunk_size};

use crate::places::FRAME;
use ct_items::NoMemory;
use std::alloc::Global;
use std::marker::Model;

/// The bytes of whole groups, one behind the other, fewer than 2^32.
#[derive(Drop)]
pub struct Groups {
    alloc: Global,
    bytes: Vec<u8>,
}

impl Model for Groups {
    ghost use Rattle.std.specs.Prelude.{◌≡◌, ◌<◌, ◌^◌, ℕ, List, length};
    ghost use Rattle.ct_log.specs.Chunks.{groups_of, framed};

    ghost Value = { List ℕ };

    ghost view = { λ g. groups_of g.bytes.items };

    ghost invariant = { λ g. (g.bytes.items ≡ framed (groups_of g.bytes.items)) × (length (groups_of g.bytes.items) < 2 ^ 32) };
}

impl Groups {
    /// No groups.
    pub(crate) fn new(alloc: Global) -> Groups
        ensures { result ≡ [] }
    {
        Groups {
            alloc,
            bytes: Vec::new(alloc),
        }
    }

    /// Their length in bytes.
    pub fn len(&self) -> usize
        ensures len { result ≡ length self.now }
        ensures short { length self.now < 2 ^ 32 }
    {
        self.bytes.len().saturating_sub(FRAME as usize)
    }

    /// The length of the chunk that they make, without its gate.
    pub(crate) fn size(&self) -> usize
        ensures { result ≡ chunk_size self.now }
    {
        self.bytes.len()
    }

    /// The body of the chunk: their length, the groups, and a closed gate.
    pub(crate) fn as_body(&self) -> &[u8]
        requires { 0 < length self.now }
        ensures { result.now ≡ chunk_body self.now }
    {
        self.bytes.as_slice()
    }

    /// Adds a group.
    pub(crate) fn append(&mut self, group: &[u8]) -> Result<(), NoMemory>
        requires some { 0 < length group.now }
        requires short { length self.old + length group.now < 2 ^ 32 }
        ensures ok { OnOk result (self.new ≡ self.old ++ group.now) }
        ensures err { OnErr result (self.new ≡ self.old) }
    {
        if self.bytes.is_empty() {
            self.bytes = first_body(self.alloc, group)?;
        } else {
            lengthen(&mut self.bytes, group)?;
        }
        Ok(())
    }
}

/// The body of a chunk with this group.
fn first_body(alloc: Global, group: &[u8]) -> Result<Vec<u8>, NoMemory>
    requires { length group.now < 2 ^ 32 }
    ensures { IfOk result (λ body. body.items ≡ chunk_body group.now) }
{
    let mut body = Vec::from_slice(alloc, &(group.len() as u32).to_le_bytes())?;
    body.extend_from_slice(group)?;
    body.push(0)?;
    Ok(body)
}

/// Adds a group to the body of a chunk.
fn lengthen(body: &mut Vec<u8>, group: &[u8]) -> Result<(), NoMemory>
    requires body { body.old.items ≡ chunk_body (groups_of body.old.items) }
    requires short { length (groups_of body.old.items) + length group.now < 2 ^ 32 }
    ensures ok { OnOk result (body.new.items ≡ chunk_body (groups_of body.old.items ++ group.now)) }
    ensures err { OnErr result (body.new.items ≡ body.old.items) }
{
    let gate = body.len() - 1;
    body.extend_from_slice(group)?;
    close_behind(body, gate);
    Ok(())
}

/// Moves the byte that stands at this place to the end, and writes the new length of the groups.
fn close_behind(body: &mut [u8], gate: usize)
    requires behind_length { 4 ≤ gate }
    requires within { gate < length body.old }
    requires short { length body.old < 2 ^ 32 + 5 }
    ensures { body.new ≡ length_bytes (length body.old - 5) ++ drop 4 (take gate body.old)
        ++ drop (gate + 1) body.old ++ take 1 (drop gate body.old) }
{
    body[gate..].rotate_left(1);
    let len = (body.len() - FRAME as usize) as u32;
    body[..4].copy_from_slice(&len.to_le_bytes());
}
