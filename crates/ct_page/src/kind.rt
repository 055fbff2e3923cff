//! What a page is for, and the number by which its first byte says so.

ghost use Rattle.std.specs.Prelude.{◌≡◌, ◌<◌};
ghost use Rattle.ct_page.specs.Kinds.{number_of, kind_of};

/// What a page is for.
#[derive(Clone, Copy, Debug, PartialEq, Eq)]
pub enum PageKind {
    /// Not written yet: each of its bytes is zero.
    Unwritten = 0,
    /// Page 0: how many pages there are, and the definition page of each file.
    Directory = 1,
    /// The definition of a file, and where its map and its indexes begin.
    Definition = 2,
    /// Which page has the records of each block of a file.
    SpaceMap = 3,
    /// The records of one block.
    Records = 4,
    /// Pairs of an index.
    Leaf = 5,
    /// Pairs of an index, each with a page of the level below.
    Inner = 6,
}

impl PageKind {
    /// The number by which a page says its kind.
    pub fn number(self) -> u8
        ensures number { result ≡ number_of self }
        ensures within { result < 7 }
    {
        self as u8
    }

    /// The kind of a number, or `None` where no kind has it.
    pub fn from_number(number: u8) -> Option<PageKind>
        ensures { result ≡ kind_of number }
    {
        match number {
            0 => Some(PageKind::Unwritten),
            1 => Some(PageKind::Directory),
            2 => Some(PageKind::Definition),
            3 => Some(PageKind::SpaceMap),
            4 => Some(PageKind::Records),
            5 => Some(PageKind::Leaf),
            6 => Some(PageKind::Inner),
            _ => None,
        }
    }
}
