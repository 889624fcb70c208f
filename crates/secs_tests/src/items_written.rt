use items::write::{write_item, write_list};
use secs::format::Format;
use secs::scalar::{Binary, F4, I4, U1, U4};
use values::writers::{write_ascii, write_value};

#[test]
fn at_a_place(rt: HostRuntime) {
    let mut out = [9u8; 8];
    assert_eq!(rt; write_item(&mut out, 2, Format::Ascii, b"Hi"), Some(6));
    assert!(rt; out == [9, 9, 0x41, 2, 0x48, 0x69, 9, 9]);
}

#[test]
fn refused(rt: HostRuntime) {
    let mut out = [9u8; 4];
    assert_eq!(rt; write_item(&mut out, 2, Format::Binary, &[5]), None);
    assert_eq!(rt; write_item(&mut out, 9, Format::Binary, &[]), None);
    assert_eq!(rt; write_item(&mut out, 0, Format::List, &[]), None);
    assert_eq!(rt; write_item(&mut out, 0, Format::U4, &[1]), None);
    assert_eq!(rt; write_list(&mut out, 0, 16_777_216), None);
    assert_eq!(rt; write_value::<F4>(&mut out, 0, 0), None);
    assert!(rt; out == [9, 9, 9, 9]);
}

#[test]
fn f4_written(rt: HostRuntime) {
    let mut out = [0u8; 6];
    assert_eq!(rt; write_value::<F4>(&mut out, 0, 0x7fc0_0000), None);
    assert_eq!(rt; write_value::<F4>(&mut out, 0, 0xff80_0001), None);
    assert!(rt; out == [0, 0, 0, 0, 0, 0]);
    assert_eq!(rt; write_value::<F4>(&mut out, 0, 0xff80_0000), Some(6));
    assert!(rt; out == [0x91, 4, 0xff, 0x80, 0, 0]);
}

#[test]
fn fewest_length_bytes(rt: HostRuntime) {
    let mut out = [0u8; 4];
    assert_eq!(rt; write_list(&mut out, 0, 255), Some(2));
    assert!(rt; out == [0x01, 0xff, 0, 0]);
    assert_eq!(rt; write_list(&mut out, 0, 256), Some(3));
    assert!(rt; out == [0x02, 1, 0, 0]);
    assert_eq!(rt; write_list(&mut out, 0, 65_535), Some(3));
    assert!(rt; out == [0x02, 0xff, 0xff, 0]);
    assert_eq!(rt; write_list(&mut out, 0, 65_536), Some(4));
    assert!(rt; out == [0x03, 1, 0, 0]);
    assert_eq!(rt; write_list(&mut out, 0, 16_777_215), Some(4));
    assert!(rt; out == [0x03, 0xff, 0xff, 0xff]);
}

#[test]
fn values_written(rt: HostRuntime) {
    let mut out = [0u8; 6];
    assert_eq!(rt; write_value::<Binary>(&mut out, 0, 5), Some(3));
    assert_eq!(rt; write_value::<U1>(&mut out, 3, 1), Some(6));
    assert!(rt; out == [0x21, 1, 5, 0xa5, 1, 1]);
    assert_eq!(rt; write_value::<U4>(&mut out, 0, 65_538), Some(6));
    assert!(rt; out == [0xb1, 4, 0, 1, 0, 2]);
    assert_eq!(rt; write_value::<I4>(&mut out, 0, -2), Some(6));
    assert!(rt; out == [0x71, 4, 0xff, 0xff, 0xff, 0xfe]);
    assert_eq!(rt; write_ascii(&mut out, 1, b"ok"), Some(5));
    assert!(rt; out == [0x71, 0x41, 2, 0x6f, 0x6b, 0xfe]);
}
