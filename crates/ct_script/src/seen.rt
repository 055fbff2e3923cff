//! What stands in the lines before one, and whether that one may follow.
//! The rules stand in `specs/Scripts.antt`.

ghost use Rattle.std.specs.Prelude.{◌≡◌, Some};
ghost use Rattle.ct_script.specs.Scripts.{is_listing, is_outside, allows};
ghost use Rattle.ct_script.specs.Reading.{seen_with};

use crate::part::Part;

/// What stands in some lines.
#[derive(Clone, Copy, Debug, PartialEq, Eq)]
pub(crate) struct Seen {
    pub(crate) dump: bool,
    pub(crate) delay: bool,
    pub(crate) files: bool,
    /// A name of a file.
    pub(crate) file: bool,
    pub(crate) all: bool,
    pub(crate) end_files: bool,
    pub(crate) end: bool,
}

impl Seen {
    /// Nothing stands there yet.
    pub(crate) const NOTHING: Seen = Seen {
        dump: false,
        delay: false,
        files: false,
        file: false,
        all: false,
        end_files: false,
        end: false,
    };

    fn is_listing(self) -> bool
        ensures { result ≡ is_listing self }
    {
        self.files && !self.end_files
    }

    fn is_outside(self) -> bool
        ensures { result ≡ is_outside self }
    {
        !self.is_listing() && !self.end
    }

    /// Whether a line that says this may follow.
    pub(crate) fn allows(self, part: Part) -> bool
        ensures { result ≡ allows self (Some part) }
    {
        match part {
            Part::Blank => true,
            Part::Dump => self.is_outside() && !self.dump,
            Part::Delay => self.is_outside() && !self.delay,
            Part::Files => self.is_outside() && !self.files,
            Part::File | Part::All => self.is_listing(),
            Part::EndFiles => self.is_listing() && (self.file || self.all),
            Part::End => self.is_outside() && (self.dump && self.end_files),
        }
    }

    /// What stands there with one more line.
    pub(crate) fn with(self, part: Part) -> Seen
        ensures { result ≡ seen_with self part }
    {
        match part {
            Part::Blank => self,
            Part::Dump => Seen { dump: true, ..self },
            Part::Delay => Seen {
                delay: true,
                ..self
            },
            Part::Files => Seen {
                files: true,
                ..self
            },
            Part::File => Seen { file: true, ..self },
            Part::All => Seen { all: true, ..self },
            Part::EndFiles => Seen {
                end_files: true,
                ..self
            },
            Part::End => Seen { end: true, ..self },
        }
    }
}
