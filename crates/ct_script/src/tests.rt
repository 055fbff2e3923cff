//! Scripts on known texts: a whole one, and the first bad line of others.

use super::*;
use std::test::Fail;

#[test]
fn scripts_are_read(rt: HostRuntime) -> Result<(), Fail> {
    let text = b"!DUMP night.bak\r\n\n!DELAY 30\n!FILES\ncustomer\n\norders\n!ENDFILES\n!END\n";
    let script = read_script(rt.alloc(), text)?;
    assert_eq!(rt; script.name.as_slice(), b"night.bak".as_slice());
    let files: [&[u8]; 2] = [b"customer", b"orders"];
    assert_eq!(rt; script.files.as_slice().len(), files.len());
    for (file, name) in script.files.as_slice().iter().zip(files) {
        assert_eq!(rt; file.as_slice(), name);
    }
    assert_eq!(rt; script.lines.as_slice(), [5, 7].as_slice());
    assert!(rt; !script.all);
    Ok(())
}

#[test]
fn all_files_are_asked_for(rt: HostRuntime) -> Result<(), Fail> {
    let script = read_script(rt.alloc(), b"!FILES\n*\npart\n!ENDFILES\n!DUMP night\n!END")?;
    assert!(rt; script.all);
    assert_eq!(rt; script.lines.as_slice(), [3].as_slice());
    Ok(())
}

#[test]
fn first_bad_line_is_told(rt: HostRuntime) {
    let texts: [(&[u8], u64); 14] = [
        (b"!TIME 23:00", 1),
        (b"", 2),
        (b"!DUMP night\n!FILES\n*\n!ENDFILES", 5),
        (b"!DUMP night\n!FILES\n*\n!ENDFILES\n", 6),
        (b"!DUMP night\n!DUMP night\n", 2),
        (b"!END", 1),
        (b"!DUMP night\n!END\n!FILES", 2),
        (b"!DUMP night\n!FILES\n!ENDFILES", 3),
        (b"!DUMP night\n!FILES\n*\n!ENDFILES\n!END\r", 5),
        (b"!DUMP night\n!FILES\n*\n!ENDFILES\n!END\n\n!END", 7),
        (b"!DUMP  night", 1),
        (b"part", 1),
        (b"!DELAY 030", 1),
        (b"!FILES\n!DUMP night", 2),
    ];
    for (text, line) in texts {
        assert_eq!(rt;
            read_script(rt.alloc(), text).err(),
            Some(ScriptFault::Line { line })
        );
    }
}
