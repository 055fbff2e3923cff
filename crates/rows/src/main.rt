//! `rows`: runs the commands of a script over stores in memory, and writes what each comes to.
//! Where the script has `# NAME` a row begins, with empty devices; `> WORDS` is a command, and the lines behind it are its input.
//! `! WHAT NUMBER` before a command arranges what is to happen to the devices or in the command.
#![tactic(auto)]

mod row;

use anyhow::Result;
use row::{Outcome, Row};

fn main(rt: HostRuntime) -> Result<()> {
    let mut row = Row::new(rt.alloc());
    for line in rt.lines(rt.alloc()) {
        row = read(&rt, row, line?.as_str())?;
    }
    finish(&rt, row)?;
    Ok(())
}

/// Takes a line of the script.
fn read(rt: &HostRuntime, row: Row, line: &str) -> Result<Row> {
    if line.starts_with('#') {
        finish(rt, row)?;
        println!(rt; "{line}")?;
        return Ok(Row::new(rt.alloc()));
    }
    if let Some(words) = line.strip_prefix("> ") {
        let mut row = finish(rt, row)?;
        println!(rt; "{line}")?;
        row.begin(rt.alloc(), words)?;
        return Ok(row);
    }
    if let Some(words) = line.strip_prefix("! ") {
        let row = finish(rt, row)?;
        println!(rt; "{line}")?;
        return arrange(rt, row, words);
    }
    let mut row = row;
    row.add_line(line)?;
    Ok(row)
}

/// Arranges what these words say, of which the last is a number.
fn arrange(rt: &HostRuntime, row: Row, words: &str) -> Result<Row> {
    let Some((what, number)) = words.rsplit_once(' ') else {
        return Ok(row);
    };
    let Ok(number) = number.parse::<u64>() else {
        return Ok(row);
    };
    Ok(row.arrange(rt.alloc(), what, number)?)
}

/// Runs the command that has begun, where there is one, and writes its output, its cause and the last number.
fn finish(rt: &HostRuntime, row: Row) -> Result<Row> {
    if !row.has_command() {
        return Ok(row);
    }
    let Outcome {
        row,
        output,
        cause,
        front,
    } = row.run(rt.alloc())?;
    if let Ok(text) = str::from_utf8(output.bytes()) {
        print!(rt; "{text}")?;
    }
    println!(rt; "{cause} {front}")?;
    Ok(row)
}
