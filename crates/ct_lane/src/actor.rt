//! The trait `Actor`, with what its turns keep.

ghost use Rattle.std.specs.Prelude.{◌≡◌, ◌≢◌, ℕ};
ghost use Rattle.ct_disk.specs.declared.turn.Turn.{Turn};

use ct_disk::Turn;

/// Who makes turns on a value that others make turns on, too.
///
/// A type of actors means a fact on the value that each turn keeps, what an actor remembers of the value,
/// which the turns of others keep, and the steps that a turn may make. A turn needs neither the fact nor
/// what is remembered to run: it promises to keep them where they stand.
pub trait Actor<Y> {
    /// What holds of the value at each turn.
    ghost fact: { Y → Type 0 };

    /// What an actor remembers of the value stands.
    ghost stands: { Self → Y → Type 0 };

    /// The steps that a turn may make, with its answer.
    ghost makes: { Self → Y → Turn (Unit {0}) → Self → Y → Type 0 };

    /// By which actors are told apart.
    ghost number: { Self → ℕ };

    /// Makes one turn.
    fn turn(&mut self, value: &mut Y) -> Turn<()>
        ensures number { number self.new ≡ number self.old }
        ensures stands { fact value.old → stands self.old value.old → fact value.new × stands self.new value.new }
        ensures makes { fact value.old → stands self.old value.old → makes self.old value.old result self.new value.new }
        ensures keeps { fact value.old → stands self.old value.old → (other : Self) → number other ≢ number self.old
            → stands other value.old → stands other value.new };
}
