use items::read::read_item;
use readers::mismatch::Mismatch;
use readers::value::{read_ascii, read_list, read_value};
use secs::format::Format;
use secs::item::{Fault, Item};
use secs::scalar::{Binary, F4, I4, U1, U4};
use std::process::Abort;
use std::test::Fail;

// An item is read, and is this one.
fn reads(rt: &impl Abort, frame: &[u8], at: usize, expected: Item<'_>) -> Result<(), Fail> {
    let item = read_item(frame, at)?;
    assert_eq!(rt; item.format, expected.format);
    assert_eq!(rt; item.begin, expected.begin);
    assert_eq!(rt; item.length, expected.length);
    assert!(rt; item.content == expected.content);
    assert_eq!(rt; item.next, expected.next);
    Ok(())
}

fn faults(rt: &impl Abort, frame: &[u8], at: usize, fault: Fault) {
    assert_eq!(rt; read_item(frame, at).err(), Some(fault));
}

#[test]
fn good_items(rt: HostRuntime) -> Result<(), Fail> {
    reads(
        &rt,
        &[0x21, 0x01, 0x05],
        0,
        Item {
            format: Format::Binary,
            begin: 2,
            length: 1,
            content: &[5],
            next: 3,
        },
    )?;
    reads(
        &rt,
        &[9, 9, 0x41, 0x02, 0x48, 0x69, 7],
        2,
        Item {
            format: Format::Ascii,
            begin: 4,
            length: 2,
            content: b"Hi",
            next: 6,
        },
    )?;
    reads(
        &rt,
        &[0xa5, 0x03, 1, 2, 3],
        0,
        Item {
            format: Format::U1,
            begin: 2,
            length: 3,
            content: &[1, 2, 3],
            next: 5,
        },
    )?;
    reads(
        &rt,
        &[0x71, 0x04, 0xff, 0xff, 0xff, 0xfe],
        0,
        Item {
            format: Format::I4,
            begin: 2,
            length: 4,
            content: &[0xff, 0xff, 0xff, 0xfe],
            next: 6,
        },
    )?;
    reads(
        &rt,
        &[0xb1, 0x08, 0, 0, 0, 1, 0, 0, 0, 2],
        0,
        Item {
            format: Format::U4,
            begin: 2,
            length: 8,
            content: &[0, 0, 0, 1, 0, 0, 0, 2],
            next: 10,
        },
    )?;
    reads(
        &rt,
        &[0x41, 0x00],
        0,
        Item {
            format: Format::Ascii,
            begin: 2,
            length: 0,
            content: &[],
            next: 2,
        },
    )
}

#[test]
fn more_length_bytes(rt: HostRuntime) -> Result<(), Fail> {
    reads(
        &rt,
        &[0x22, 0, 1, 5],
        0,
        Item {
            format: Format::Binary,
            begin: 3,
            length: 1,
            content: &[5],
            next: 4,
        },
    )?;
    reads(
        &rt,
        &[0x23, 0, 0, 1, 5],
        0,
        Item {
            format: Format::Binary,
            begin: 4,
            length: 1,
            content: &[5],
            next: 5,
        },
    )?;
    reads(
        &rt,
        &[0x02, 0, 2],
        0,
        Item {
            format: Format::List,
            begin: 3,
            length: 2,
            content: &[],
            next: 3,
        },
    )
}

#[test]
fn lists(rt: HostRuntime) -> Result<(), Fail> {
    reads(
        &rt,
        &[0x01, 0x00],
        0,
        Item {
            format: Format::List,
            begin: 2,
            length: 0,
            content: &[],
            next: 2,
        },
    )?;
    reads(
        &rt,
        &[0x01, 0x02],
        0,
        Item {
            format: Format::List,
            begin: 2,
            length: 2,
            content: &[],
            next: 2,
        },
    )?;
    reads(
        &rt,
        &[0x03, 0xff, 0xff, 0xff],
        0,
        Item {
            format: Format::List,
            begin: 4,
            length: 16_777_215,
            content: &[],
            next: 4,
        },
    )
}

#[test]
fn damaged_items(rt: HostRuntime) {
    faults(&rt, &[0x21, 0x02, 0x05], 0, Fault::PastEnd);
    faults(&rt, &[], 0, Fault::PastEnd);
    faults(&rt, &[0x21, 0x01, 0x05], 3, Fault::PastEnd);
    faults(&rt, &[0x21], 0, Fault::PastEnd);
    faults(&rt, &[0x23, 0, 0], 0, Fault::PastEnd);
    faults(&rt, &[0x20, 0x01, 0x05], 0, Fault::NoLength);
    faults(&rt, &[0x05, 0x00], 0, Fault::UnknownFormat);
    faults(&rt, &[0xfd, 0x00], 0, Fault::UnknownFormat);
    faults(&rt, &[0xb1, 0x03, 1, 2, 3], 0, Fault::Uneven);
    faults(&rt, &[0x91, 0x06, 0, 0, 0, 0, 0, 0], 0, Fault::Uneven);
}

#[test]
fn f4_elements(rt: HostRuntime) -> Result<(), Fail> {
    reads(
        &rt,
        &[0x91, 0x04, 0x7f, 0x80, 0, 0],
        0,
        Item {
            format: Format::F4,
            begin: 2,
            length: 4,
            content: &[0x7f, 0x80, 0, 0],
            next: 6,
        },
    )?;
    reads(
        &rt,
        &[0x91, 0x04, 0xff, 0x80, 0, 0],
        0,
        Item {
            format: Format::F4,
            begin: 2,
            length: 4,
            content: &[0xff, 0x80, 0, 0],
            next: 6,
        },
    )?;
    reads(
        &rt,
        &[0x91, 0x04, 0x80, 0, 0, 0],
        0,
        Item {
            format: Format::F4,
            begin: 2,
            length: 4,
            content: &[0x80, 0, 0, 0],
            next: 6,
        },
    )?;
    faults(&rt, &[0x91, 0x04, 0x7f, 0x80, 0, 1], 0, Fault::NotNumber);
    faults(&rt, &[0x91, 0x04, 0xff, 0xc0, 0, 0], 0, Fault::NotNumber);
    faults(
        &rt,
        &[0x91, 0x08, 0, 0, 0, 0, 0x7f, 0xff, 0xff, 0xff],
        0,
        Fault::NotNumber,
    );
    Ok(())
}

#[test]
fn values_read(rt: HostRuntime) -> Result<(), Fail> {
    assert_eq!(rt; read_list(&[0x01, 0x03], 0, 3).ok(), Some(2));
    assert_eq!(rt;
        read_list(&[0x01, 0x03], 0, 2).err(),
        Some(Mismatch::Unexpected)
    );
    assert_eq!(rt;
        read_value::<Binary>(&[0x21, 0x01, 0x80], 0).ok(),
        Some((128, 3))
    );
    assert_eq!(rt;
        read_value::<Binary>(&[0x21, 0x02, 0x80, 0x01], 0).err(),
        Some(Mismatch::Unexpected)
    );
    assert_eq!(rt;
        read_value::<Binary>(&[0xa5, 0x01, 0x80], 0).err(),
        Some(Mismatch::Unexpected)
    );
    assert_eq!(rt;
        read_value::<Binary>(&[0x21, 0x02, 0x80], 0).err(),
        Some(Mismatch::Faulty(Fault::PastEnd))
    );
    assert_eq!(rt; read_value::<U1>(&[0xa5, 0x01, 0x01], 0).ok(), Some((1, 3)));
    assert_eq!(rt;
        read_value::<U4>(&[0xb1, 0x04, 0, 1, 0, 2], 0).ok(),
        Some((65_538, 6))
    );
    assert_eq!(rt;
        read_value::<I4>(&[0x71, 0x04, 0xff, 0xff, 0xff, 0xfe], 0).ok(),
        Some((-2, 6))
    );
    assert_eq!(rt;
        read_value::<F4>(&[0x91, 0x04, 0x3f, 0x80, 0, 0], 0).ok(),
        Some((0x3f80_0000, 6))
    );
    assert_eq!(rt;
        read_value::<F4>(&[0x91, 0x04, 0x7f, 0xc0, 0, 0], 0).err(),
        Some(Mismatch::Faulty(Fault::NotNumber))
    );
    let (text, next) = read_ascii(&[0x41, 0x02, 0x48, 0x69], 0)?;
    assert!(rt; text == b"Hi".as_slice() && next == 4);
    Ok(())
}
