use bodies::body::Body;
use bodies::message::write_message;
use bodies::write::write_body;
use frames::frame::{split_frame, write_frame};
use frames::header::Header;
use std::process::Abort;
use std::test::Fail;

fn header(wait: bool, stream: u8, function: u8, transaction: u32) -> Header {
    Header {
        session: 0x0102,
        wait,
        stream,
        function,
        ptype: 0,
        stype: 0,
        transaction,
    }
}

#[test]
fn header_bytes(rt: HostRuntime) {
    assert!(rt; header(true, 6, 11, 1).bytes() == [1, 2, 0x86, 11, 0, 0, 0, 0, 0, 1]);
    assert!(rt; header(false, 127, 2, 0x0102_0304).bytes() == [1, 2, 127, 2, 0, 0, 1, 2, 3, 4]);
}

#[test]
fn frame_apart(rt: HostRuntime) -> Result<(), Fail> {
    assert!(rt; split_frame(&[1, 2, 0x86, 11, 0, 0, 0, 0, 0]).is_none());
    let frame = split_frame(&[1, 2, 0x86, 11, 0, 0, 0, 0, 0, 1, 0x21, 1, 0]).ok_or("no frame")?;
    assert_eq!(rt; frame.header, header(true, 6, 11, 1));
    assert!(rt; frame.body == [0x21, 1, 0].as_slice());
    Ok(())
}

#[test]
fn frame_at_a_place(rt: HostRuntime) {
    let mut out = [9u8; 18];
    assert_eq!(rt;
        write_frame(&mut out, 1, header(false, 1, 2, 7), &[0x01, 0]),
        Some(17)
    );
    assert!(rt; out == [9, 0, 0, 0, 12, 1, 2, 1, 2, 0, 0, 0, 0, 0, 7, 0x01, 0, 9]);
    assert_eq!(rt;
        write_frame(&mut out, 3, header(false, 1, 2, 7), &[0x01, 0]),
        None
    );
    assert_eq!(rt; out[3], 0);
}

#[test]
fn event_report(rt: HostRuntime) {
    let mut out = [0u8; 32];
    assert_eq!(rt;
        write_message(
            &mut out,
            0,
            header(true, 6, 11, 1),
            Body::Event {
                report: 1,
                event: 3,
            },
        ),
        Some(30)
    );
    assert!(rt; out[..14] == [0, 0, 0, 26, 1, 2, 0x86, 11, 0, 0, 0, 0, 0, 1]);
    assert!(rt; out[14..30] == [0x01, 3, 0xb1, 4, 0, 0, 0, 1, 0xb1, 4, 0, 0, 0, 3, 0x01, 0]);
}

fn body_is(rt: &impl Abort, body: Body, bytes: &[u8]) -> Result<(), Fail> {
    let mut out = [9u8; 24];
    assert_eq!(rt; body.length(), bytes.len());
    assert!(rt; body.bytes().as_slice() == bytes);
    let length = write_body(body, &mut out).ok_or("no body")?;
    assert!(rt; length <= 23);
    assert!(rt; &out[..length] == bytes);
    assert_eq!(rt; out[length], 9);
    Ok(())
}

#[test]
fn all_bodies(rt: HostRuntime) -> Result<(), Fail> {
    body_is(&rt, Body::Empty, &[])?;
    body_is(&rt, Body::Identity, b"\x01\x02\x41\x06BENCH1\x41\x06000001")?;
    body_is(
        &rt,
        Body::Accepted,
        b"\x01\x02\x21\x01\x00\x01\x02\x41\x06BENCH1\x41\x06000001",
    )?;
    body_is(
        &rt,
        Body::Alarm {
            alcd: 0x85,
            alarm: 32,
        },
        &[0x01, 3, 0x21, 1, 0x85, 0xb1, 4, 0, 0, 0, 32, 0x41, 0],
    )?;
    body_is(
        &rt,
        Body::Event {
            report: 258,
            event: 101,
        },
        &[0x01, 3, 0xb1, 4, 0, 0, 1, 2, 0xb1, 4, 0, 0, 0, 101, 0x01, 0],
    )?;
    body_is(
        &rt,
        Body::Header(header(true, 9, 9, 5)),
        &[0x21, 10, 1, 2, 0x89, 9, 0, 0, 0, 0, 0, 5],
    )?;
    body_is(&rt, Body::Acknowledge(2), &[0x21, 1, 2])
}

#[test]
fn body_too_long(rt: HostRuntime) {
    let mut out = [9u8; 2];
    assert_eq!(rt; write_body(Body::Acknowledge(2), &mut out), None);
    assert!(rt; out == [9, 9]);
}
