//! The table of the commands, and words that are none of them.

use super::*;
use std::test::Fail;

/// The command of a line's words, parted by spaces.
fn asked(rt: &HostRuntime, line: &str) -> Result<Option<Command>, Fail> {
    let mut words = Vec::new(rt.alloc());
    for word in line.split(' ') {
        words.push(String::from_str(rt.alloc(), word)?)?;
    }
    Ok(command_of(&words))
}

#[test]
fn each_command_is_known(rt: HostRuntime) -> Result<(), Fail> {
    assert_eq!(rt;
        asked(&rt, "create store_16.bytes-x")?,
        Some(Command::Create)
    );
    assert_eq!(rt; asked(&rt, "exec")?, Some(Command::Exec));
    assert_eq!(rt; asked(&rt, "check")?, Some(Command::Check));
    let others = [
        "play",
        "work 18446744073709551615 64 1000000",
        "work 0 1 0",
        "ctrdmp dump",
        "ctfdmp copy",
        "ctfdmp copy 128",
    ];
    for line in others {
        assert_eq!(rt; asked(&rt, line)?, Some(Command::Unbuilt), "{line}");
    }
    Ok(())
}

#[test]
fn other_words_are_none(rt: HostRuntime) -> Result<(), Fail> {
    assert_eq!(rt; command_of(&[]), None);
    let lines = [
        "",
        "Exec",
        "exec exec",
        "create",
        "create seventeen_bytes_x",
        "create -store",
        "ctrdmp -",
        "ctfdmp a/b",
        "ctfdmp copy 01",
        "work 1 0 1",
        "work 1 65 1",
        "work 1 1 1000001",
        "work 1 1",
        "check 1",
    ];
    for line in lines {
        assert_eq!(rt; asked(&rt, line)?, None, "{line}");
    }
    Ok(())
}
