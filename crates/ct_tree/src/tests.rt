//! Puts into one index beside a search, turn by turn.

ghost use Rattle.std.specs.Prelude.{◌≡◌, ◌≤◌, ◌<◌, map, length, IfOk};
ghost use Rattle.std.specs.List.{All, range_with_len};
ghost use Rattle.ct_tree.specs.Schedules.{IsNew, op_of};

use super::*;
use ct_disk::Turn;
use ct_items::NoMemory;
use ct_key::KeyBuf;
use ct_node::{Mark, MemNodes, Node, Nodes, Pair, Place, Root, Target};
use std::alloc::Global;

const FIRST: Root = Root { page: 0, index: 0 };

/// The orders in which pairs are put.
#[derive(Clone, Copy)]
enum Order {
    Rising,
    Falling,
    Mixed,
}

/// The number that the key of a pair begins with, by the pair's place.
fn first_at(place: u16, order: Order) -> u16 {
    match order {
        Order::Rising => place,
        Order::Falling => u16::MAX - place,
        Order::Mixed => place.wrapping_mul(26041),
    }
}

/// A pair with a key of 128 bytes, which begins with this number.
fn pair_of(alloc: Global, first: u16) -> Result<Pair, NoMemory>
    ensures { IfOk result (λ pair. length pair.key ≡ 128) }
{
    let two = first.to_be_bytes();
    let mut bytes = [0; 128];
    bytes[0] = two[0];
    bytes[1] = two[1];
    let key = KeyBuf::from_slice(alloc, bytes.as_slice())?;
    Ok(Pair { key, num: 7 })
}

/// Puts of so many pairs, numbered by their places.
fn puts(alloc: Global, count: u16, order: Order) -> Result<Vec<Program>, NoMemory>
    ensures new { IfOk result (λ programs. All (IsNew 128) programs.items) }
    ensures numbers { IfOk result (λ programs. map op_of programs.items ≡ range_with_len 0 count) }
{
    let mut programs = Vec::new(alloc);
    for n in 0..count {
        let pair = pair_of(alloc, first_at(n, order))?;
        let put = Put::new(alloc, u64::from(n), FIRST, Target::At(pair), Mark::NONE);
        programs.push(Program::Put(put))?;
    }
    Ok(programs)
}

/// The last answer of the program at a place.
fn last_of(happened: &[Happened], place: usize) -> Option<&Happened> {
    let mut last = None;
    for one in happened {
        if one.program == place {
            last = Some(one);
        }
    }
    last
}

/// So many turns of each of `count` programs, one after another.
fn rounds(alloc: Global, count: usize, turns: usize) -> Result<Vec<usize>, NoMemory>
    ensures { IfOk result (λ schedule. All (λ place. place < count) schedule.items) }
{
    let mut schedule = Vec::new(alloc);
    for _turn in 0..turns {
        add_round(&mut schedule, count)?;
    }
    Ok(schedule)
}

fn add_round(schedule: &mut Vec<usize>, count: usize) -> Result<(), NoMemory>
    requires { All (λ place. place < count) schedule.old.items }
    ensures { All (λ place. place < count) schedule.new.items }
{
    for place in 0..count {
        schedule.push(place)?;
    }
    Ok(())
}

#[test]
fn a_search_beside_splits_finds_the_first_pair(rt: HostRuntime) -> Result<(), NoMemory> {
    let mut programs = puts(rt.alloc(), 60, Order::Falling)?;
    programs.push(Program::Search(Search::new(
        rt.alloc(),
        60,
        FIRST,
        Target::First,
        Seek::AtOrAbove,
    )))?;
    let schedule = rounds(rt.alloc(), programs.len(), 400)?;
    let happened = run_in_memory(
        rt.alloc(),
        128,
        programs.as_mut_slice(),
        schedule.as_slice(),
    )?;
    let mut first = None;
    if let Some(one) = last_of(happened.as_slice(), 60) {
        if let Turn::Done(Answer::Found(Some(pair))) = &one.turn {
            first = pair.key.as_slice().get(1).copied();
        }
    }
    assert_eq!(rt; first, Some(196));
    Ok(())
}

/// So many turns of each of `count` programs, one program after another.
fn one_by_one(alloc: Global, count: usize, turns: usize) -> Result<Vec<usize>, NoMemory>
    ensures { IfOk result (λ schedule. All (λ place. place < count) schedule.items) }
{
    let mut schedule = Vec::new(alloc);
    for place in 0..count {
        add_turns(&mut schedule, count, place, turns)?;
    }
    Ok(schedule)
}

fn add_turns(
    schedule: &mut Vec<usize>,
    count: usize,
    place: usize,
    turns: usize,
) -> Result<(), NoMemory>
    requires place { place < count }
    requires before { All (λ place. place < count) schedule.old.items }
    ensures { All (λ place. place < count) schedule.new.items }
{
    for _turn in 0..turns {
        schedule.push(place)?;
    }
    Ok(())
}

/// Gives turns to these programs over new pages, which can be looked at afterwards.
fn run_on(
    alloc: Global,
    programs: &mut [Program],
    schedule: &[usize],
    nodes: &mut MemNodes,
) -> Result<Vec<Happened>, NoMemory>
    requires places { All (λ place. place < length programs.old) schedule.now }
    requires numbers { map op_of programs.old ≡ range_with_len 0 (length programs.old) }
    requires new { All (IsNew 128) programs.old }
{
    run(alloc, programs, schedule, nodes)
}

/// How many levels an index has.
fn levels(nodes: &mut MemNodes) -> usize {
    let mut page = 0;
    if let Turn::Done(root) = nodes.root(0, FIRST) {
        page = root;
    }
    for level in 0..10 {
        if !matches!(nodes.look(0, page), Turn::Done(())) {
            return level;
        }
        match nodes.node(page).next_place(&Target::First) {
            Place::Down(below) => page = below,
            _ => return level + 1,
        }
    }
    10
}

/// How many pairs stand in the leaves, from the first one on by right links.
pub(crate) fn pairs(nodes: &mut MemNodes) -> usize {
    let mut page = 1;
    let mut count: usize = 0;
    for _leaf in 0..1000 {
        if !matches!(nodes.look(0, page), Turn::Done(())) {
            return count;
        }
        let node = nodes.node(page);
        count = count.saturating_add(node.count());
        match node.next_place(&Target::Last) {
            Place::Right(right) => page = right,
            _ => return count,
        }
    }
    count
}

/// The levels and pairs after so many puts, each ended before the next one begins.
fn after_puts(alloc: Global, count: u16, order: Order) -> Result<(usize, usize), NoMemory> {
    let mut programs = puts(alloc, count, order)?;
    let schedule = one_by_one(alloc, programs.len(), 40)?;
    let mut nodes = MemNodes::new(alloc, 128)?;
    let _happened = run_on(
        alloc,
        programs.as_mut_slice(),
        schedule.as_slice(),
        &mut nodes,
    )?;
    Ok((levels(&mut nodes), pairs(&mut nodes)))
}

#[test]
fn puts_in_any_order_make_three_levels(rt: HostRuntime) -> Result<(), NoMemory> {
    assert_eq!(rt; after_puts(rt.alloc(), 400, Order::Rising)?, (3, 400));
    assert_eq!(rt; after_puts(rt.alloc(), 400, Order::Falling)?, (3, 400));
    assert_eq!(rt; after_puts(rt.alloc(), 600, Order::Mixed)?, (3, 600));
    Ok(())
}
