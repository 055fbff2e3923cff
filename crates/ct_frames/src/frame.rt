//! One page in memory.

ghost use Rattle.std.specs.Prelude.{◌≡◌, None};
ghost use Rattle.ct_frames.specs.Tables.{blank, after_image, first_since};

use ct_page::{PAGE_SIZE, set_position};

/// A page in memory.
#[derive(Drop)]
pub struct Frame {
    pub bytes: [u8; PAGE_SIZE],
    /// The least position among the images of the page that are not written and synced since, or
    /// `None` where each of them is.
    pub dirty_since: Option<u64>,
}

impl Frame {
    /// A page of zeros, as the device has it.
    pub(crate) fn blank() -> Frame
        ensures { result ≡ blank }
    {
        Frame {
            bytes: [0; PAGE_SIZE],
            dirty_since: None,
        }
    }

    /// The page that an image gives, with its position in the header.
    pub(crate) fn of_image(bytes: &[u8; PAGE_SIZE], position: u64) -> Frame
        ensures { result ≡ after_image None bytes.now position }
    {
        let mut frame = Frame {
            bytes: *bytes,
            dirty_since: Some(position),
        };
        set_position(&mut frame.bytes, position);
        frame
    }

    /// Puts an image over the page, with its position in the header.
    pub(crate) fn put_image(&mut self, bytes: &[u8; PAGE_SIZE], position: u64)
        ensures { self.new ≡ after_image self.old.dirty_since bytes.now position }
    {
        self.bytes = *bytes;
        set_position(&mut self.bytes, position);
        self.dirty_since = Some(self.first_since(position));
    }

    /// The least position that is not written and synced, once an image at this position is there.
    fn first_since(&self, position: u64) -> u64
        ensures { result ≡ first_since self.now.dirty_since position }
    {
        match self.dirty_since {
            None => position,
            Some(first) => first.min(position),
        }
    }
}
