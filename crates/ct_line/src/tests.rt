//! Lines with their places, and a file with all that an index may have.

use super::*;
use std::test::Fail;

#[test]
fn faults_have_their_places(rt: HostRuntime) {
    let lines: [(&[u8], usize); 9] = [
        (b"HELLO", 0),
        (b"GET part", 8),
        (b"ADD part a\\0", 10),
        (b"FIRST part id extra", 14),
        (b"", 0),
        (b"   ", 0),
        (b"RESTORE 01", 8),
        (b"CREATE p FIX 4 KEY a UNIQUE", 27),
        (b"CREATE p FIX 4 KEY a DUP NULL 2 SEG REGSEG 0 4", 30),
    ];
    for (line, at) in lines {
        assert_eq!(rt;
            read_line(rt.alloc(), line).err(),
            Some(LineFault::Bad { at })
        );
    }
}

#[test]
fn long_lines_are_refused(rt: HostRuntime) -> Result<(), Fail> {
    let line = vec![in rt.alloc(); b'A'; 20_000]?;
    let fault = read_line(rt.alloc(), &line).err();
    assert_eq!(rt; fault, Some(LineFault::Bad { at: 16_384 }));
    Ok(())
}

#[test]
fn a_create_has_all_its_parts(rt: HostRuntime) -> Result<(), Fail> {
    let line =
        b"CREATE p VAR 4 9 KEY a DUP NULL 2F SEG INTSEG 0 2 DSCSEG SEG REGSEG 2 1 KEY b UNIQUE SEG SGNSEG 0 4";
    let Call::Create(file) = read_line(rt.alloc(), line)? else {
        assert!(rt; false, "no CREATE");
        return Ok(());
    };
    assert_eq!(rt; file.kind, NewKind::Variable { min: 4, max: 9 });
    let names: [&[u8]; 2] = [b"a", b"b"];
    let nulls = [Some(0x2f), None];
    let seg_counts = [2, 1];
    assert_eq!(rt; file.indexes.as_slice().len(), 2);
    for (i, index) in file.indexes.as_slice().iter().enumerate().take(2) {
        assert_eq!(rt; index.name.as_slice(), names[i % 2]);
        assert_eq!(rt; index.null, nulls[i % 2]);
        assert_eq!(rt; index.segs.as_slice().len(), seg_counts[i % 2]);
    }
    Ok(())
}
