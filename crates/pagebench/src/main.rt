//! `pagebench WORK COUNT`: does one kind of work on pages so many times, and prints a sum of what it saw.
//! `bench/pages.py` runs it and compares the times.
#![tactic(auto)]

mod work;

use std::env;
use std::process::ExitCode;

fn main(rt: HostRuntime) -> ExitCode {
    let Some((work, count)) = arguments(&rt) else {
        let _ = eprintln!(&rt; "usage: pagebench copy|get|set|resize|clear|fetch COUNT");
        return ExitCode::from(1);
    };
    match work::sum_of(rt.alloc(), work.as_str(), count) {
        Some(sum) => {
            let _ = println!(&rt; "{sum}");
            ExitCode::from(0)
        }
        None => ExitCode::from(2),
    }
}

/// The kind of work, and how often it is done.
fn arguments(rt: &HostRuntime) -> Option<(String, u64)> {
    let mut words = env::args(rt).ok()?.skip(1);
    let work = words.next()?;
    let count = words.next()?;
    Some((work, count.parse::<u64>().ok()?))
}
