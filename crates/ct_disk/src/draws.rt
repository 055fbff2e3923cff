//! Numbers drawn from a first one, for crashes that leave any bytes.

ghost use Rattle.std.specs.Prelude.{◌≡◌, ◌≤◌, ◌/◌, ◌%◌, ◌^◌};
ghost use Rattle.ct_disk.specs.Draws.{next_state};

/// The linear congruential generator of Knuth's MMIX, of which a draw gives the upper half.
#[derive(Clone, Copy, Debug, PartialEq, Eq)]
pub(crate) struct Draws {
    pub(crate) state: u64,
}

impl Draws {
    const FACTOR: u64 = 6364136223846793005;

    const STEP: u64 = 1442695040888963407;

    fn draw(&mut self) -> u64
        ensures state { self.new.state ≡ next_state self.old.state }
        ensures drawn { result ≡ self.new.state / 2 ^ 32 }
    {
        self.state = self
            .state
            .wrapping_mul(Draws::FACTOR)
            .wrapping_add(Draws::STEP);
        self.state >> 32
    }

    /// A byte.
    pub(crate) fn byte(&mut self) -> u8
        ensures state { self.new.state ≡ next_state self.old.state }
        ensures drawn { result ≡ self.new.state / 2 ^ 32 % 256 }
    {
        (self.draw() % 256) as u8
    }

    /// A number from `low` to `high`.
    pub(crate) fn between(&mut self, low: usize, high: usize) -> usize
        requires { low ≤ high }
        ensures from { low ≤ result }
        ensures to { result ≤ high }
        ensures state { self.new.state ≡ next_state self.old.state }
    {
        let count = (high - low).saturating_add(1);
        low + self.draw() as usize % count
    }
}
