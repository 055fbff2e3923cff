//! `treebench WORK COUNT`: puts pairs of so many keys and perhaps finds them, and prints a sum of what it saw.
//! `bench/tree.py` runs it and compares the times.
#![tactic(auto)]

mod keys;
mod map;
mod tree;

use std::env;
use std::process::ExitCode;

fn main(rt: HostRuntime) -> ExitCode {
    let Some((work, count)) = arguments(&rt) else {
        let _ = eprintln!(&rt; "usage: treebench map-put|map-get|tree-put|tree-get COUNT");
        return ExitCode::from(1);
    };
    let sum = match work.as_str() {
        "map-put" => map::put(rt.alloc(), count),
        "map-get" => map::put_and_get(rt.alloc(), count),
        "tree-put" => tree::put(rt.alloc(), count),
        "tree-get" => tree::put_and_get(rt.alloc(), count),
        _ => None,
    };
    match sum {
        Some(sum) => {
            let _ = println!(&rt; "{sum}");
            ExitCode::from(0)
        }
        None => ExitCode::from(2),
    }
}

/// The kind of work, and how many pairs there are.
fn arguments(rt: &HostRuntime) -> Option<(String, u32)> {
    let mut words = env::args(rt).ok()?.skip(1);
    let work = words.next()?;
    let count = words.next()?;
    Some((work, count.parse::<u32>().ok()?))
}
