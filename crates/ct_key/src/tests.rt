//! Worked rows: the keys and targets of a store of numbers, customers and orders.

ghost use Rattle.std.specs.Prelude.{◌≡◌, ◌≤◌, length, true};
ghost use Rattle.ct_definitions.specs.Validity.{is_valid_seg};

use super::*;
use std::process::Abort;
use std::test::Fail;

const ORDERS_OF_CUSTOMER: [Seg; 2] = [
    Seg {
        at: 4,
        len: 4,
        mode: Mode::Int,
        desc: false,
    },
    Seg {
        at: 8,
        len: 4,
        mode: Mode::Int,
        desc: true,
    },
];

fn expect_key(
    rt: &impl Abort,
    into: &mut KeyBuf,
    seg: Seg,
    null: Option<u8>,
    image: &[u8],
    key: Option<&[u8]>,
)
    requires valid { is_valid_seg (length image.now) seg ≡ true }
    requires short { seg.len ≤ LONGEST_KEY }
{
    let has_key = key_of(&[seg], null, image, into);
    assert_eq!(rt; has_key, key.is_some());
    if let Some(key) = key {
        assert_eq!(rt; into.as_slice(), key);
    }
}

#[test]
fn keys_by_mode_and_null_byte(rt: HostRuntime) {
    let mut into = KeyBuf::new(rt.alloc());
    let unsigned = Seg {
        at: 0,
        len: 2,
        mode: Mode::Int,
        desc: false,
    };
    let signed = Seg {
        at: 0,
        len: 2,
        mode: Mode::Sgn,
        desc: false,
    };
    let falling = Seg {
        at: 0,
        len: 2,
        mode: Mode::Int,
        desc: true,
    };
    for (image, rising_key, signed_key, falling_key) in [
        ([0x00, 0x00], [0x00, 0x00], [0x80, 0x00], [0xff, 0xff]),
        ([0xff, 0x00], [0x00, 0xff], [0x80, 0xff], [0xff, 0x00]),
        ([0x00, 0x01], [0x01, 0x00], [0x81, 0x00], [0xfe, 0xff]),
        ([0xff, 0xff], [0xff, 0xff], [0x7f, 0xff], [0x00, 0x00]),
    ] {
        expect_key(&rt, &mut into, unsigned, None, &image, Some(&rising_key));
        expect_key(&rt, &mut into, signed, None, &image, Some(&signed_key));
        expect_key(&rt, &mut into, falling, None, &image, Some(&falling_key));
    }
    let name = Seg {
        at: 4,
        len: 8,
        mode: Mode::Ureg,
        desc: false,
    };
    let city = Seg {
        at: 12,
        len: 8,
        mode: Mode::Reg,
        desc: false,
    };
    let miller = b"\x01\0\0\0Miller  Bonn    ";
    let adams = b"\x02\0\0\0adamsz{         ";
    expect_key(&rt, &mut into, name, None, miller, Some(b"MILLER  "));
    expect_key(&rt, &mut into, name, None, adams, Some(b"ADAMSZ{ "));
    expect_key(&rt, &mut into, city, Some(0x20), miller, Some(b"Bonn    "));
    expect_key(
        &rt,
        &mut into,
        city,
        Some(0x20),
        b"\x02\0\0\0adams           ",
        None,
    );
}

#[test]
fn targets_of_orders(rt: HostRuntime) {
    let mut into = KeyBuf::new(rt.alloc());
    for (target, found) in [
        (b"\x01\0\0\0".as_slice(), Some(b"\0\0\0\x01".as_slice())),
        (b"\x01\0\0\0\x05\0\0\0", Some(b"\0\0\0\x01\xff\xff\xff\xfa")),
        (b"", None),
        (b"\x01", None),
        (b"\x01\0\0\0\x05", None),
        (b"\x01\0\0\0\x05\0\0\0\0", None),
    ] {
        let is_target = target_key(&ORDERS_OF_CUSTOMER, target, &mut into);
        assert_eq!(rt; is_target, found.is_some());
        if let Some(found) = found {
            assert_eq!(rt; into.as_slice(), found);
        }
    }
    let name = Seg {
        at: 4,
        len: 8,
        mode: Mode::Ureg,
        desc: false,
    };
    assert!(rt; target_key(&[name], b"mil", &mut into));
    assert_eq!(rt; into.as_slice(), b"MIL".as_slice());
}

#[test]
fn key_buffers_grow_and_compare(rt: HostRuntime) -> Result<(), Fail> {
    let mut low = KeyBuf::new(rt.alloc());
    for _ in 0..=LONGEST_KEY {
        low.push(7)?;
    }
    let mut high = low.clone()?;
    assert!(rt; low == high);
    high.clear();
    high.push(8)?;
    assert!(rt; low < high);
    assert_eq!(rt; key_len(&ORDERS_OF_CUSTOMER), 8);
    Ok(())
}
