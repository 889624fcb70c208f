// Frames of the host and what is told about them.
use crate::driver::{Act, SETTINGS, Stage, answers, done, run};
use gem::equipment::Call;
use std::test::Fail;

// Another session: 20 at place 0, S9,F1, before the stream is looked at.
#[test]
fn wrong_session(rt: HostRuntime) -> Result<(), Fail> {
    let counts = run(
        &rt,
        SETTINGS,
        Stage::Ready,
        &[
            // the host's S1,F1 W; S9,F1: the header of the frame at fault
            answers(
                Act::Frame("0008 8101 0000 000000aa"),
                (20, 0),
                "00000016 0007 0901 0000 00000004 210a 0008 8101 0000 000000aa",
            ),
            // the host's S3,F1; S9,F1: the header of the frame at fault
            answers(
                Act::Frame("0107 0301 0000 000000aa"),
                (20, 0),
                "00000016 0007 0901 0000 00000005 210a 0107 0301 0000 000000aa",
            ),
        ],
    )?;
    assert_eq!(rt; counts, (0, 0));
    Ok(())
}

// Another stream than 1, 2, 5 and 6: 21 at place 2, S9,F3, with W or without.
#[test]
fn unknown_streams(rt: HostRuntime) -> Result<(), Fail> {
    let counts = run(
        &rt,
        SETTINGS,
        Stage::Ready,
        &[
            // the host's S3,F1 W; S9,F3: the header of the frame at fault
            answers(
                Act::Frame("0007 8301 0000 000000aa"),
                (21, 2),
                "00000016 0007 0903 0000 00000004 210a 0007 8301 0000 000000aa",
            ),
            // the host's S0,F1; S9,F3: the header of the frame at fault
            answers(
                Act::Frame("0007 0001 0000 000000aa"),
                (21, 2),
                "00000016 0007 0903 0000 00000005 210a 0007 0001 0000 000000aa",
            ),
            // the host's S127,F17 W; S9,F3: the header of the frame at fault
            answers(
                Act::Frame("0007 ff11 0000 000000aa"),
                (21, 2),
                "00000016 0007 0903 0000 00000006 210a 0007 ff11 0000 000000aa",
            ),
            // the host's S7,F23; S9,F3: the header of the frame at fault
            answers(
                Act::Frame("0007 0717 0000 000000aa"),
                (21, 2),
                "00000016 0007 0903 0000 00000007 210a 0007 0717 0000 000000aa",
            ),
        ],
    )?;
    assert_eq!(rt; counts, (0, 0));
    Ok(())
}

// A function that is not known in its stream: 22 at place 3, S9,F5.
#[test]
fn unknown_functions(rt: HostRuntime) -> Result<(), Fail> {
    let counts = run(
        &rt,
        SETTINGS,
        Stage::Ready,
        &[
            // the host's S1,F3 W; S9,F5: the header of the frame at fault
            answers(
                Act::Frame("0007 8103 0000 000000aa"),
                (22, 3),
                "00000016 0007 0905 0000 00000004 210a 0007 8103 0000 000000aa",
            ),
            // the host's S2,F1; S9,F5: the header of the frame at fault
            answers(
                Act::Frame("0007 0201 0000 000000aa"),
                (22, 3),
                "00000016 0007 0905 0000 00000005 210a 0007 0201 0000 000000aa",
            ),
            // the host's S5,F1; S9,F5: the header of the frame at fault
            answers(
                Act::Frame("0007 0501 0000 000000aa"),
                (22, 3),
                "00000016 0007 0905 0000 00000006 210a 0007 0501 0000 000000aa",
            ),
            // the host's S6,F11 W; S9,F5: the header of the frame at fault
            answers(
                Act::Frame("0007 860b 0000 000000aa"),
                (22, 3),
                "00000016 0007 0905 0000 00000007 210a 0007 860b 0000 000000aa",
            ),
            // the host's S1,F255; S9,F5: the header of the frame at fault
            answers(
                Act::Frame("0007 01ff 0000 000000aa"),
                (22, 3),
                "00000016 0007 0905 0000 00000008 210a 0007 01ff 0000 000000aa",
            ),
        ],
    )?;
    assert_eq!(rt; counts, (0, 0));
    Ok(())
}

// Off-line, function 0 of their stream for all primaries with W but S1,F13 and S1,F17.
#[test]
fn offline_primaries(rt: HostRuntime) -> Result<(), Fail> {
    let counts = run(
        &rt,
        SETTINGS,
        Stage::Communicating,
        &[
            // the host's S3,F1 W; S3,F0
            done(
                Act::Frame("0007 8301 0000 000000aa"),
                "0000000a 0007 0300 0000 000000aa",
                &[],
            ),
            // the host's S3,F1
            done(Act::Frame("0007 0301 0000 000000aa"), "", &[]),
            // the host's S1,F1 W; S1,F0
            done(
                Act::Frame("0007 8101 0000 000000aa"),
                "0000000a 0007 0100 0000 000000aa",
                &[],
            ),
            // the host's S6,F23 W; S6,F0
            done(
                Act::Frame("0007 8617 0000 000000aa"),
                "0000000a 0007 0600 0000 000000aa",
                &[],
            ),
            // the host's S1,F13 W; S1,F14: L,2 B 0, L,2 A "BENCH1" A "000001"
            done(
                Act::Frame("0007 810d 0000 000000aa"),
                "00000021 0007 010e 0000 000000aa 0102 210100 0102 4106 42454e434831 4106 303030303031",
                &[],
            ),
            // the host's S1,F17 W; S1,F18: B 1
            done(
                Act::Frame("0007 8111 0000 000000aa"),
                "0000000d 0007 0112 0000 000000aa 210101",
                &[],
            ),
        ],
    )?;
    assert_eq!(rt; counts, (0, 0));
    Ok(())
}

// S1,F1 is answered where it has W. The body of S1,F13 is not read, and it moves nothing.
#[test]
fn are_you_there(rt: HostRuntime) -> Result<(), Fail> {
    let counts = run(
        &rt,
        SETTINGS,
        Stage::Ready,
        &[
            // the host's S1,F1 W; S1,F2: L,2 A "BENCH1" A "000001"
            done(
                Act::Frame("0007 8101 0000 000000aa"),
                "0000001c 0007 0102 0000 000000aa 0102 4106 42454e434831 4106 303030303031",
                &[],
            ),
            // the host's S1,F1
            done(Act::Frame("0007 0101 0000 000000aa"), "", &[]),
            // the host's S1,F13 W; S1,F14: L,2 B 0, L,2 A "BENCH1" A "000001"
            done(
                Act::Frame("0007 810d 0000 000000aa ffff"),
                "00000021 0007 010e 0000 000000aa 0102 210100 0102 4106 42454e434831 4106 303030303031",
                &[],
            ),
            // the host's S1,F17 W; S1,F18: B 2
            done(
                Act::Frame("0007 8111 0000 000000aa"),
                "0000000d 0007 0112 0000 000000aa 210102",
                &[],
            ),
        ],
    )?;
    assert_eq!(rt; counts, (0, 0));
    Ok(())
}

// S1,F1, S1,F15 and S1,F17 with a body: 24 at place 10, S9,F7, and nothing moves.
#[test]
fn bodies_that_must_not_be(rt: HostRuntime) -> Result<(), Fail> {
    let counts = run(
        &rt,
        SETTINGS,
        Stage::Ready,
        &[
            // the host's S1,F1 W; S9,F7: the header of the frame at fault
            answers(
                Act::Frame("0007 8101 0000 000000aa ff"),
                (24, 10),
                "00000016 0007 0907 0000 00000004 210a 0007 8101 0000 000000aa",
            ),
            // the host's S1,F15 W; S9,F7: the header of the frame at fault
            answers(
                Act::Frame("0007 810f 0000 000000aa 0100"),
                (24, 10),
                "00000016 0007 0907 0000 00000005 210a 0007 810f 0000 000000aa",
            ),
            // the host's S1,F17; S9,F7: the header of the frame at fault
            answers(
                Act::Frame("0007 0111 0000 000000aa 00"),
                (24, 10),
                "00000016 0007 0907 0000 00000006 210a 0007 0111 0000 000000aa",
            ),
            // the host's S1,F17 W; S1,F18: B 2
            done(
                Act::Frame("0007 8111 0000 000000aa"),
                "0000000d 0007 0112 0000 000000aa 210102",
                &[],
            ),
        ],
    )?;
    assert_eq!(rt; counts, (0, 0));
    Ok(())
}

// S5,F3 with an item that faults: 23 at the place of its format byte, S9,F7.
#[test]
fn item_faults(rt: HostRuntime) -> Result<(), Fail> {
    let counts = run(
        &rt,
        SETTINGS,
        Stage::Ready,
        &[
            // the host's S5,F3; S9,F7: the header of the frame at fault
            answers(
                Act::Frame("0007 0503 0000 000000aa"),
                (23, 10),
                "00000016 0007 0907 0000 00000004 210a 0007 0503 0000 000000aa",
            ),
            // the host's S5,F3; S9,F7: the header of the frame at fault
            answers(
                Act::Frame("0007 0503 0000 000000aa 00"),
                (23, 10),
                "00000016 0007 0907 0000 00000005 210a 0007 0503 0000 000000aa",
            ),
            // the host's S5,F3; S9,F7: the header of the frame at fault
            answers(
                Act::Frame("0007 0503 0000 000000aa 01"),
                (23, 10),
                "00000016 0007 0907 0000 00000006 210a 0007 0503 0000 000000aa",
            ),
            // the host's S5,F3; S9,F7: the header of the frame at fault
            answers(
                Act::Frame("0007 0503 0000 000000aa fd0100"),
                (23, 10),
                "00000016 0007 0907 0000 00000007 210a 0007 0503 0000 000000aa",
            ),
        ],
    )?;
    assert_eq!(rt; counts, (0, 0));
    Ok(())
}

// The same at the later items; a missing one faults at the end.
#[test]
fn later_item_faults(rt: HostRuntime) -> Result<(), Fail> {
    let counts = run(
        &rt,
        SETTINGS,
        Stage::Ready,
        &[
            // the host's S5,F3; S9,F7: the header of the frame at fault
            answers(
                Act::Frame("0007 0503 0000 000000aa 0102"),
                (23, 12),
                "00000016 0007 0907 0000 00000004 210a 0007 0503 0000 000000aa",
            ),
            // the host's S5,F3; S9,F7: the header of the frame at fault
            answers(
                Act::Frame("0007 0503 0000 000000aa 0102 210280"),
                (23, 12),
                "00000016 0007 0907 0000 00000005 210a 0007 0503 0000 000000aa",
            ),
            // the host's S5,F3; S9,F7: the header of the frame at fault
            answers(
                Act::Frame("0007 0503 0000 000000aa 0102 210180"),
                (23, 15),
                "00000016 0007 0907 0000 00000006 210a 0007 0503 0000 000000aa",
            ),
            // the host's S5,F3; S9,F7: the header of the frame at fault
            answers(
                Act::Frame("0007 0503 0000 000000aa 0102 210180 b103000001"),
                (23, 15),
                "00000016 0007 0907 0000 00000007 210a 0007 0503 0000 000000aa",
            ),
        ],
    )?;
    assert_eq!(rt; counts, (0, 0));
    Ok(())
}

// S5,F3 with an item that is not the listed one: 24 at its place.
#[test]
fn other_items(rt: HostRuntime) -> Result<(), Fail> {
    let counts = run(
        &rt,
        SETTINGS,
        Stage::Ready,
        &[
            // the host's S5,F3; S9,F7: the header of the frame at fault
            answers(
                Act::Frame("0007 0503 0000 000000aa 0103 210180 b10400000001"),
                (24, 10),
                "00000016 0007 0907 0000 00000004 210a 0007 0503 0000 000000aa",
            ),
            // the host's S5,F3; S9,F7: the header of the frame at fault
            answers(
                Act::Frame("0007 0503 0000 000000aa 210180"),
                (24, 10),
                "00000016 0007 0907 0000 00000005 210a 0007 0503 0000 000000aa",
            ),
            // the host's S5,F3; S9,F7: the header of the frame at fault
            answers(
                Act::Frame("0007 0503 0000 000000aa 0102 410180"),
                (24, 12),
                "00000016 0007 0907 0000 00000006 210a 0007 0503 0000 000000aa",
            ),
            // the host's S5,F3; S9,F7: the header of the frame at fault
            answers(
                Act::Frame("0007 0503 0000 000000aa 0102 21028080"),
                (24, 12),
                "00000016 0007 0907 0000 00000007 210a 0007 0503 0000 000000aa",
            ),
        ],
    )?;
    assert_eq!(rt; counts, (0, 0));
    Ok(())
}

// The same at the last item, and at bytes left over.
#[test]
fn later_other_items(rt: HostRuntime) -> Result<(), Fail> {
    let counts = run(
        &rt,
        SETTINGS,
        Stage::Ready,
        &[
            // the host's S5,F3; S9,F7: the header of the frame at fault
            answers(
                Act::Frame("0007 0503 0000 000000aa 0102 210180 210101"),
                (24, 15),
                "00000016 0007 0907 0000 00000004 210a 0007 0503 0000 000000aa",
            ),
            // the host's S5,F3; S9,F7: the header of the frame at fault
            answers(
                Act::Frame("0007 0503 0000 000000aa 0102 210180 b1080000000100000001"),
                (24, 15),
                "00000016 0007 0907 0000 00000005 210a 0007 0503 0000 000000aa",
            ),
            // the host's S5,F3; S9,F7: the header of the frame at fault
            answers(
                Act::Frame("0007 0503 0000 000000aa 0102 210180 b10400000001 00"),
                (24, 21),
                "00000016 0007 0907 0000 00000006 210a 0007 0503 0000 000000aa",
            ),
        ],
    )?;
    assert_eq!(rt; counts, (0, 0));
    Ok(())
}

// S6,F23 has one U1, 0 or 1.
#[test]
fn unload_items(rt: HostRuntime) -> Result<(), Fail> {
    let counts = run(
        &rt,
        SETTINGS,
        Stage::Ready,
        &[
            // the host's S6,F23; S9,F7: the header of the frame at fault
            answers(
                Act::Frame("0007 0617 0000 000000aa"),
                (23, 10),
                "00000016 0007 0907 0000 00000004 210a 0007 0617 0000 000000aa",
            ),
            // the host's S6,F23; S9,F7: the header of the frame at fault
            answers(
                Act::Frame("0007 0617 0000 000000aa a50102"),
                (24, 10),
                "00000016 0007 0907 0000 00000005 210a 0007 0617 0000 000000aa",
            ),
            // the host's S6,F23; S9,F7: the header of the frame at fault
            answers(
                Act::Frame("0007 0617 0000 000000aa a5020000"),
                (24, 10),
                "00000016 0007 0907 0000 00000006 210a 0007 0617 0000 000000aa",
            ),
            // the host's S6,F23; S9,F7: the header of the frame at fault
            answers(
                Act::Frame("0007 0617 0000 000000aa a50100 a5"),
                (24, 13),
                "00000016 0007 0907 0000 00000007 210a 0007 0617 0000 000000aa",
            ),
            // the host's S6,F23; S9,F7: the header of the frame at fault
            answers(
                Act::Frame("0007 0617 0000 000000aa 210100"),
                (24, 10),
                "00000016 0007 0907 0000 00000008 210a 0007 0617 0000 000000aa",
            ),
        ],
    )?;
    assert_eq!(rt; counts, (0, 0));
    Ok(())
}

// More length bytes than needed are read as well.
#[test]
fn long_length(rt: HostRuntime) -> Result<(), Fail> {
    let counts = run(
        &rt,
        SETTINGS,
        Stage::Ready,
        &[
            // the host's S5,F3 W; S5,F4: B 0
            done(
                Act::Frame("0007 8503 0000 000000aa 020002 210100 b300000400000001"),
                "0000000d 0007 0504 0000 000000aa 210100",
                &[],
            ),
            // the host's S6,F23 W; S6,F24: B 2
            done(
                Act::Frame("0007 8617 0000 000000aa a6000100"),
                "0000000d 0007 0618 0000 000000aa 210102",
                &[],
            ),
        ],
    )?;
    assert_eq!(rt; counts, (0, 0));
    Ok(())
}

// Replies that answer nothing of ours are ignored, of every stream.
#[test]
fn even_functions(rt: HostRuntime) -> Result<(), Fail> {
    let counts = run(
        &rt,
        SETTINGS,
        Stage::Ready,
        &[
            // the host's S6,F12
            done(Act::Frame("0007 060c 0000 00000003"), "", &[]),
            // the host's S5,F2
            done(Act::Frame("0007 0502 0000 00000003"), "", &[]),
            // the host's S1,F2
            done(Act::Frame("0007 0102 0000 00000002"), "", &[]),
            // the host's S1,F14
            done(Act::Frame("0007 010e 0000 00000001"), "", &[]),
            // the host's S3,F2
            done(Act::Frame("0007 0302 0000 00000003"), "", &[]),
            // the host's S6,F0
            done(Act::Frame("0007 0600 0000 00000003"), "", &[]),
        ],
    )?;
    assert_eq!(rt; counts, (0, 0));
    Ok(())
}
