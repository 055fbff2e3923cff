//! A change as the transaction that the log gets.

ghost use Rattle.std.specs.Prelude.{◌≡◌, ◌≤◌, ◌<◌, ◌^◌, length, IfOk};
ghost use Rattle.ct_group.specs.Commit.{commit_text};
ghost use Rattle.ct_group.specs.Groups.{FitsTransaction};
ghost use Rattle.ct_yard.specs.Writes.{of_one, HasOne};

use ct_definitions::{Change, Changes, Made, Transaction};
use ct_group::write_commit;
use ct_items::NoMemory;
use ct_model::State;
use std::alloc::Global;

/// The one session that there is.
const SESSION: u16 = 1;

/// The change as a transaction of its own.
pub(crate) fn single(alloc: Global, number: u64, change: Change) -> Result<Transaction, NoMemory>
    ensures { IfOk result (λ t. t ≡ of_one number change) }
{
    let mut changes = Changes::new(alloc);
    changes.push(change)?;
    Ok(Transaction {
        number,
        session: SESSION,
        made: Made::BySession,
        changes,
    })
}

/// The transaction as a group of the log. It is short, since the state's files bound what a change holds.
pub(crate) fn group_of(
    alloc: Global,
    state: &State,
    transaction: &Transaction,
) -> Result<Vec<u8>, NoMemory>
    requires one { HasOne state.now transaction.now }
    ensures text { IfOk result (λ group. group.items ≡ commit_text transaction.now) }
    ensures some { IfOk result (λ group. 0 < length group.items) }
    ensures short { IfOk result (λ group. length group.items ≤ 8000) }
    ensures fits { IfOk result (λ group. transaction.now.number ≤ 2 ^ 63 → FitsTransaction transaction.now) }
{
    let _files = state.files();
    let mut group = Vec::new(alloc);
    write_commit(transaction, &mut group)?;
    Ok(group)
}
