//! Formats of bytes made of smaller ones, with readers and writers of the basic fields.
//! Numbers have their low byte first. A format is exact where reading and spelling are inverse.
#![tactic(auto)]

mod fault;
mod front;
mod laws;
mod read;
mod write;

pub use fault::{Fault, ReadFault};
pub use front::front_of;
pub use laws::basic_formats_are_exact;
pub use read::{
    read_bytes, read_flag, read_sized_u8, read_sized_u32, read_u8, read_u16, read_u32, read_u64,
};
pub use write::{
    write_bytes, write_flag, write_sized_u8, write_sized_u32, write_u8, write_u16, write_u32,
    write_u64,
};

#[cfg(test)]
mod tests;
