//! What is read of a line, and what may come next.
//! The same is said of the grammar in `specs/Grammar.antt`.

ghost use Rattle.std.specs.Prelude.{◌≡◌};

use crate::call::{Call, NewFile, NewIndex, NewSeg, Search, Walk};
use ct_definitions::{Mode, Name};
use ct_items::NoMemory;

/// Calls whose second word is a file's name.
#[derive(Clone, Copy, Debug, PartialEq, Eq)]
pub(crate) enum OfFile {
    Create,
    Add,
    Rewrite,
    Delete,
    Walk(Walk),
    Search(Search),
}

/// A file to be made with the index that is being read.
#[derive(Debug, Drop)]
pub(crate) struct Indexed {
    pub file: NewFile,
    pub index: NewIndex,
}

/// What is read, named by what comes next.
#[derive(Debug, Drop)]
pub(crate) enum Reading {
    /// A command.
    Command,
    /// Nothing: the call is whole.
    Nothing(Call),
    /// A file's name.
    File(OfFile),
    /// An index's name.
    WalkIndex {
        walk: Walk,
        file: Name,
    },
    /// An index's name, and then a target.
    SearchIndex {
        search: Search,
        file: Name,
    },
    Target {
        search: Search,
        file: Name,
        index: Name,
    },
    AddImage {
        file: Name,
    },
    RewriteImage {
        file: Name,
    },
    Script,
    Savepoint,
    LockMode,
    /// The rest of a CREATE.
    Creating(Creating),
}

/// What is read of a CREATE, named by what comes next.
#[derive(Debug, Drop)]
pub(crate) enum Creating {
    /// FIX or VAR.
    Kind {
        name: Name,
    },
    FixedLen {
        name: Name,
    },
    Min {
        name: Name,
    },
    Max {
        name: Name,
        min: u64,
    },
    /// The word KEY.
    Key(NewFile),
    KeyName(NewFile),
    /// UNIQUE or DUP.
    Rule {
        file: NewFile,
        name: Name,
    },
    /// NULL or SEG.
    NullOrSeg(Indexed),
    NullByte(Indexed),
    /// The word SEG.
    Seg(Indexed),
    SegMode(Indexed),
    SegAt {
        indexed: Indexed,
        mode: Mode,
    },
    SegLen {
        indexed: Indexed,
        mode: Mode,
        at: u64,
    },
    /// DSCSEG, or what may come behind a segment.
    Desc {
        indexed: Indexed,
        seg: NewSeg,
    },
    /// SEG, KEY, or the end of the line.
    More(Indexed),
}

/// Why a word does not go on with what is read.
#[derive(Clone, Copy, Debug, PartialEq, Eq)]
pub(crate) enum Misfit {
    /// It is not what may come next.
    Word,
    Memory,
}

impl From<NoMemory> for Misfit {
    ghost use Rattle.ct_line.specs.declared.reading.Misfit.TheVariants.{Memory};

    ghost from_gives = { λ _ misfit. misfit ≡ Memory };

    fn from(_refusal: NoMemory) -> Misfit {
        Misfit::Memory
    }
}
