//! Laws of runs. Each stands on a function without a body, whose contract it is.

ghost use Rattle.std.specs.Prelude.{List, ◌∷◌};
ghost use Rattle.ct_tool.specs.Runs.{KeepsStore, RunsKeep, last_of};

use ct_disk::Disk;

/// A store that each of some runs keeps is kept by all of them, where each run begins with what the one before has
/// left: a clause of `run_tool` says of each run that it keeps a store.
pub fn runs_keep<P: Disk, L: Disk>()
    ensures { (first next : P × L) (rest : List (P × L)) → RunsKeep P.may_leave L.may_leave first (next ∷ rest)
        → KeepsStore (P.may_leave first.0) (L.may_leave first.1) (P.may_leave (last_of next rest).0) (L.may_leave (last_of next rest).1) }
{}
