//! `ctisam DIR words`: the tool over the files of a folder, standard input and standard output.
//! It prints the cause on standard error where the status is not 0, and ends with the status.
#![tactic(auto)]

use ct_file::{
    FileDisk, OpenError, ReadSource, StoreFiles, WriteSink, hold_standard, make_folder, open_store,
};
use ct_tool::{Cause, Ended, run_tool};
use ct_words::{Command, command_of};
use std::process::ExitCode;
use std::{env, io};

fn main(rt: HostRuntime) -> ExitCode {
    let cause = match hold_standard(&rt) {
        Ok(()) => run(&rt),
        Err(error) => cause_of(error),
    };
    if !matches!(cause, Cause::Done) {
        let _ = eprintln!(&rt; "{cause}");
    }
    ExitCode::from(cause.status())
}

/// Runs the command line.
fn run(rt: &HostRuntime) -> Cause {
    match arguments(rt) {
        Ok(words) => run_words(rt, words.as_slice()),
        Err(cause) => cause,
    }
}

/// The folder and the words of the command line, without the program's own name. Words that are not
/// UTF-8 are no command.
fn arguments(rt: &HostRuntime) -> Result<Vec<String>, Cause> {
    let arguments = match env::args(rt) {
        Ok(arguments) => arguments,
        Err(error) if error.kind() == io::ErrorKind::InvalidData => return Err(Cause::Usage),
        Err(_) => return Err(Cause::Memory),
    };
    let mut words = Vec::new(rt.alloc());
    for word in arguments.skip(1) {
        if words.push(word).is_err() {
            return Err(Cause::Memory);
        }
    }
    Ok(words)
}

/// Runs the words over the files of the folder, which comes first. An empty word names no folder.
fn run_words(rt: &HostRuntime, arguments: &[String]) -> Cause {
    match arguments {
        [folder, words @ ..] if !folder.is_empty() => run_in(rt, folder.as_str(), words),
        _ => Cause::Usage,
    }
}

/// Opens the folder's files and runs the words. `create` makes the folder where it is missing.
fn run_in(rt: &HostRuntime, folder: &str, words: &[String]) -> Cause {
    match command_of(words) {
        None => return Cause::Usage,
        Some(Command::Unbuilt) => return Cause::Unbuilt,
        Some(Command::Create) => {
            if let Err(error) = make_folder(rt, folder) {
                return cause_of(error);
            }
        }
        Some(Command::Exec | Command::Check) => {}
    }
    match open_store(rt, rt.alloc(), folder) {
        Ok(store) => run_over(rt, store, words),
        Err(error) => cause_of(error),
    }
}

/// Runs the words over open files.
fn run_over(rt: &HostRuntime, store: StoreFiles, words: &[String]) -> Cause {
    let StoreFiles { pages, log } = store;
    let Ok(mut input) = ReadSource::new(rt.alloc(), rt.stdin()) else {
        return Cause::Memory;
    };
    let mut output = WriteSink::new(rt.stdout());
    let Ended {
        status: _,
        cause,
        pages: _,
        log: _,
        front: _,
    } = run_tool(rt.alloc(), words, pages, log, &mut input, &mut output);
    cause
}

fn cause_of(error: OpenError) -> Cause {
    match error {
        OpenError::Device => Cause::Device,
        OpenError::Memory => Cause::Memory,
    }
}
