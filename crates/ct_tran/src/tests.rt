//! A transaction that goes back to a savepoint, both of its limits, and searches beside own changes.

ghost use Rattle.std.specs.Prelude.{◌≡◌, ◌<◌, ◌^◌, true, length, IfOk};
ghost use Rattle.ct_change_codec.specs.ChangeFormat.{LengthsFit};
ghost use Rattle.ct_tran.specs.Owned.{is_of_record};

use super::*;
use ct_definitions::{Bytes, Change};
use ct_items::{Items, NoMemory};
use ct_pairs::{Pair, Pairs, Seek};

fn image(rt: &HostRuntime, len: usize) -> Result<Bytes, NoMemory>
    ensures { IfOk result (λ image. length image ≡ len) }
{
    Ok(Items::from_vec(Vec::from_elem(rt.alloc(), b'a', len)?))
}

fn add(rt: &HostRuntime, num: u64, len: usize) -> Result<Change, NoMemory>
    requires { len < 2 ^ 32 }
    ensures record { IfOk result (λ change. is_of_record change ≡ true) }
    ensures fits { IfOk result (λ change. LengthsFit change) }
{
    Ok(Change::Add {
        file: 0,
        num,
        new: image(rt, len)?,
    })
}

/// A transaction of so many records of this length.
fn filled(rt: &HostRuntime, count: u64, len: usize) -> Result<Own, NoMemory>
    requires { len < 2 ^ 32 }
{
    let mut own = Own::new(rt.alloc());
    for num in 0..count {
        if own.add(add(rt, num, len)?).is_err() {
            return Err(NoMemory);
        }
    }
    Ok(own)
}

#[test]
fn a_savepoint_gives_back_what_stood_at_it(rt: HostRuntime) -> Result<(), NoMemory> {
    let mut own = filled(&rt, 1, 4)?;
    assert_eq!(rt; own.save()?, 1);
    let old = image(&rt, 3)?;
    let gone = Change::Delete {
        file: 0,
        num: 7,
        old,
    };
    assert_eq!(rt; own.add_both(gone, add(&rt, 8, 5)?).is_ok(), true);
    assert_eq!(rt; own.restore(2), false);
    assert_eq!(rt; own.restore(1), true);
    assert_eq!(rt; own.into_changes().as_slice().len(), 1);
    Ok(())
}

#[test]
fn the_longest_images_fill_it_before_its_count(rt: HostRuntime) -> Result<(), NoMemory> {
    let mut own = filled(&rt, 2176, 3840)?;
    assert_eq!(rt; own.add(add(&rt, 2176, 3840)?), Err(OwnFault::Full));
    own.drop_all();
    assert_eq!(rt; own.changes().len(), own.saves());
    Ok(())
}

fn pair(rt: &HostRuntime, key: &[u8], num: u64) -> Result<Pair, NoMemory> {
    Pair::new(rt.alloc(), key, num)
}

#[test]
fn a_search_passes_over_what_is_taken_and_finds_what_is_put(
    rt: HostRuntime,
) -> Result<(), NoMemory> {
    let mut shared = Pairs::new(rt.alloc());
    shared.put(pair(&rt, b"d", 2)?)?;
    let mut own = Overlay::new(rt.alloc());
    own.take(pair(&rt, b"b", 1)?)?;
    own.put(pair(&rt, b"c", 7)?)?;
    assert_eq!(rt; own.passes_over(&pair(&rt, b"b", 1)?), true);
    let first = own.chosen(Seek::First, shared.find(Seek::First));
    assert_eq!(rt; first.is_some_and(|found| found.num() == 7), true);
    Ok(())
}
