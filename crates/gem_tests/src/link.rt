// The communications state.
use crate::driver::{Act, SETTINGS, Stage, answers, done, run};
use gem::equipment::Call;
use std::test::Fail;

// ENABLE sends S1,F13 W: L,2 A "BENCH1" A "000001". A second ENABLE does nothing, nor does a second DISABLE.
#[test]
fn enable_and_disable(rt: HostRuntime) -> Result<(), Fail> {
    let counts = run(
        &rt,
        SETTINGS,
        Stage::Started,
        &[
            // DISABLE
            done(Call::Switch(2), "", &[]),
            // ENABLE; S1,F13 W
            done(
                Call::Switch(1),
                "0000001c 0007 810d 0000 00000001 0102 4106 42454e434831 4106 303030303031",
                &[],
            ),
            // ENABLE
            done(Call::Switch(1), "", &[]),
            // DISABLE
            done(Call::Switch(2), "", &[]),
            // DISABLE
            done(Call::Switch(2), "", &[]),
            // ENABLE; S1,F13 W
            done(
                Call::Switch(1),
                "0000001c 0007 810d 0000 00000002 0102 4106 42454e434831 4106 303030303031",
                &[],
            ),
        ],
    )?;
    assert_eq!(rt; counts, (0, 0));
    Ok(())
}

// WAIT CRA to WAIT DELAY by a failure, and back by expiry 1 with the next S1,F13.
#[test]
fn failure_and_delay(rt: HostRuntime) -> Result<(), Fail> {
    let counts = run(
        &rt,
        SETTINGS,
        Stage::Started,
        &[
            done(Call::Failure, "", &[]),
            // ENABLE; S1,F13 W
            done(
                Call::Switch(1),
                "0000001c 0007 810d 0000 00000001 0102 4106 42454e434831 4106 303030303031",
                &[],
            ),
            done(Call::Expiry(1), "", &[]),
            done(Call::Failure, "", &[]),
            done(Call::Failure, "", &[]),
            done(Call::Expiry(2), "", &[]),
            // S1,F13 W
            done(
                Call::Expiry(1),
                "0000001c 0007 810d 0000 00000002 0102 4106 42454e434831 4106 303030303031",
                &[],
            ),
        ],
    )?;
    assert_eq!(rt; counts, (0, 0));
    Ok(())
}

// A failure in COMMUNICATING sends S1,F13 again; expiry 2 moves WAIT CRA to WAIT DELAY.
#[test]
fn no_reply_in_time(rt: HostRuntime) -> Result<(), Fail> {
    let counts = run(
        &rt,
        SETTINGS,
        Stage::Communicating,
        &[
            done(Call::Expiry(1), "", &[]),
            done(Call::Expiry(2), "", &[]),
            // S1,F13 W
            done(
                Call::Failure,
                "0000001c 0007 810d 0000 00000002 0102 4106 42454e434831 4106 303030303031",
                &[],
            ),
            done(Call::Expiry(2), "", &[]),
            // S1,F13 W
            done(
                Call::Expiry(1),
                "0000001c 0007 810d 0000 00000003 0102 4106 42454e434831 4106 303030303031",
                &[],
            ),
        ],
    )?;
    assert_eq!(rt; counts, (0, 0));
    Ok(())
}

// S1,F13 of the host in WAIT CRA is answered and brings COMMUNICATING: ONLINE then sends S1,F1.
#[test]
fn host_establishes(rt: HostRuntime) -> Result<(), Fail> {
    let counts = run(
        &rt,
        SETTINGS,
        Stage::Started,
        &[
            // ENABLE; S1,F13 W
            done(
                Call::Switch(1),
                "0000001c 0007 810d 0000 00000001 0102 4106 42454e434831 4106 303030303031",
                &[],
            ),
            // the host's S1,F13 W; S1,F14: L,2 B 0, L,2 A "BENCH1" A "000001"
            done(
                Act::Frame("0007 810d 0000 000000aa"),
                "00000021 0007 010e 0000 000000aa 0102 210100 0102 4106 42454e434831 4106 303030303031",
                &[],
            ),
            // ONLINE; S1,F1 W
            done(Call::Switch(3), "0000000a 0007 8101 0000 00000002", &[]),
        ],
    )?;
    assert_eq!(rt; counts, (0, 0));
    Ok(())
}

// S1,F13 of the host in WAIT DELAY, without the W bit: no reply, COMMUNICATING.
#[test]
fn host_establishes_in_delay(rt: HostRuntime) -> Result<(), Fail> {
    let counts = run(
        &rt,
        SETTINGS,
        Stage::Started,
        &[
            // ENABLE; S1,F13 W
            done(
                Call::Switch(1),
                "0000001c 0007 810d 0000 00000001 0102 4106 42454e434831 4106 303030303031",
                &[],
            ),
            done(Call::Expiry(2), "", &[]),
            // the host's S1,F13
            done(Act::Frame("0007 010d 0000 000000aa"), "", &[]),
            // ONLINE; S1,F1 W
            done(Call::Switch(3), "0000000a 0007 8101 0000 00000002", &[]),
        ],
    )?;
    assert_eq!(rt; counts, (0, 0));
    Ok(())
}

// S1,F14 with COMMACK 0, its second item missing and not read: COMMUNICATING.
#[test]
fn accepted(rt: HostRuntime) -> Result<(), Fail> {
    let counts = run(
        &rt,
        SETTINGS,
        Stage::Started,
        &[
            // ENABLE; S1,F13 W
            done(
                Call::Switch(1),
                "0000001c 0007 810d 0000 00000001 0102 4106 42454e434831 4106 303030303031",
                &[],
            ),
            // the host's S1,F14
            done(Act::Frame("0007 010e 0000 00000001 0102 210100"), "", &[]),
            // ONLINE; S1,F1 W
            done(Call::Switch(3), "0000000a 0007 8101 0000 00000002", &[]),
        ],
    )?;
    assert_eq!(rt; counts, (0, 0));
    Ok(())
}

// S1,F14 with COMMACK 1: WAIT DELAY.
#[test]
fn denied(rt: HostRuntime) -> Result<(), Fail> {
    let counts = run(
        &rt,
        SETTINGS,
        Stage::Started,
        &[
            // ENABLE; S1,F13 W
            done(
                Call::Switch(1),
                "0000001c 0007 810d 0000 00000001 0102 4106 42454e434831 4106 303030303031",
                &[],
            ),
            // the host's S1,F14
            done(
                Act::Frame("0007 010e 0000 00000001 0102 210101 0100"),
                "",
                &[],
            ),
            // ONLINE
            done(Call::Switch(3), "", &[]),
            // S1,F13 W
            done(
                Call::Expiry(1),
                "0000001c 0007 810d 0000 00000002 0102 4106 42454e434831 4106 303030303031",
                &[],
            ),
        ],
    )?;
    assert_eq!(rt; counts, (0, 0));
    Ok(())
}

// S1,F14 without L,2 and a B of one byte is discarded and leaves the transaction open.
#[test]
fn malformed(rt: HostRuntime) -> Result<(), Fail> {
    let counts = run(
        &rt,
        SETTINGS,
        Stage::Started,
        &[
            // ENABLE; S1,F13 W
            done(
                Call::Switch(1),
                "0000001c 0007 810d 0000 00000001 0102 4106 42454e434831 4106 303030303031",
                &[],
            ),
            // the host's S1,F14
            done(Act::Frame("0007 010e 0000 00000001"), "", &[]),
            // the host's S1,F14
            done(Act::Frame("0007 010e 0000 00000001 0103 210100"), "", &[]),
            // the host's S1,F14
            done(Act::Frame("0007 010e 0000 00000001 0102 21020000"), "", &[]),
            // the host's S1,F14
            done(Act::Frame("0007 010e 0000 00000001 0102 410100"), "", &[]),
            // ONLINE
            done(Call::Switch(3), "", &[]),
            // the host's S1,F14
            done(
                Act::Frame("0007 010e 0000 00000001 0102 210100 0100"),
                "",
                &[],
            ),
            // ONLINE; S1,F1 W
            done(Call::Switch(3), "0000000a 0007 8101 0000 00000002", &[]),
        ],
    )?;
    assert_eq!(rt; counts, (0, 0));
    Ok(())
}

// In WAIT CRA other frames do nothing: S1,F14 of another number, S1,F0 of ours, primaries.
#[test]
fn discarded(rt: HostRuntime) -> Result<(), Fail> {
    let counts = run(
        &rt,
        SETTINGS,
        Stage::Started,
        &[
            // ENABLE; S1,F13 W
            done(
                Call::Switch(1),
                "0000001c 0007 810d 0000 00000001 0102 4106 42454e434831 4106 303030303031",
                &[],
            ),
            // the host's S1,F14
            done(Act::Frame("0007 010e 0000 00000002 0102 210100"), "", &[]),
            // the host's S1,F0
            done(Act::Frame("0007 0100 0000 00000001"), "", &[]),
            // the host's S1,F1 W
            done(Act::Frame("0007 8101 0000 000000aa"), "", &[]),
            // the host's S6,F23 W
            done(Act::Frame("0007 8617 0000 000000aa"), "", &[]),
            // ONLINE
            done(Call::Switch(3), "", &[]),
            // the host's S1,F14
            done(Act::Frame("0007 010e 0000 00000001 0102 210100"), "", &[]),
            // ONLINE; S1,F1 W
            done(Call::Switch(3), "0000000a 0007 8101 0000 00000002", &[]),
        ],
    )?;
    assert_eq!(rt; counts, (0, 0));
    Ok(())
}

// In WAIT DELAY any other frame, S1,F14 too, moves to WAIT CRA.
#[test]
fn any_frame_ends_the_delay(rt: HostRuntime) -> Result<(), Fail> {
    let counts = run(
        &rt,
        SETTINGS,
        Stage::Started,
        &[
            // ENABLE; S1,F13 W
            done(
                Call::Switch(1),
                "0000001c 0007 810d 0000 00000001 0102 4106 42454e434831 4106 303030303031",
                &[],
            ),
            done(Call::Expiry(2), "", &[]),
            // the host's S1,F14; S1,F13 W
            done(
                Act::Frame("0007 010e 0000 00000001 0102 210100"),
                "0000001c 0007 810d 0000 00000002 0102 4106 42454e434831 4106 303030303031",
                &[],
            ),
            done(Call::Expiry(2), "", &[]),
            // the host's S3,F1 W; S1,F13 W
            done(
                Act::Frame("0007 8301 0000 000000aa"),
                "0000001c 0007 810d 0000 00000003 0102 4106 42454e434831 4106 303030303031",
                &[],
            ),
        ],
    )?;
    assert_eq!(rt; counts, (0, 0));
    Ok(())
}

// A frame of another session is told in WAIT DELAY and does not end it.
#[test]
fn wrong_session_in_delay(rt: HostRuntime) -> Result<(), Fail> {
    let counts = run(
        &rt,
        SETTINGS,
        Stage::Started,
        &[
            // ENABLE; S1,F13 W
            done(
                Call::Switch(1),
                "0000001c 0007 810d 0000 00000001 0102 4106 42454e434831 4106 303030303031",
                &[],
            ),
            done(Call::Expiry(2), "", &[]),
            // the host's S1,F1 W; S9,F1: the header of the frame at fault
            answers(
                Act::Frame("0008 8101 0000 000000aa"),
                (20, 0),
                "00000016 0007 0901 0000 00000002 210a 0008 8101 0000 000000aa",
            ),
            // S1,F13 W
            done(
                Call::Expiry(1),
                "0000001c 0007 810d 0000 00000003 0102 4106 42454e434831 4106 303030303031",
                &[],
            ),
        ],
    )?;
    assert_eq!(rt; counts, (0, 0));
    Ok(())
}

// DISABLED ignores every frame.
#[test]
fn disabled_ignores(rt: HostRuntime) -> Result<(), Fail> {
    let counts = run(
        &rt,
        SETTINGS,
        Stage::Started,
        &[
            // the host's S1,F13 W
            done(Act::Frame("0007 810d 0000 000000aa"), "", &[]),
            // the host's S1,F13 W
            done(Act::Frame("0008 810d 0000 000000aa"), "", &[]),
            // the host's S3,F1 W
            done(Act::Frame("0007 8301 0000 000000aa"), "", &[]),
            // ENABLE; S1,F13 W
            done(
                Call::Switch(1),
                "0000001c 0007 810d 0000 00000001 0102 4106 42454e434831 4106 303030303031",
                &[],
            ),
        ],
    )?;
    assert_eq!(rt; counts, (0, 0));
    Ok(())
}

// DISABLE closes the open transaction: the reply to it is not awaited any more.
#[test]
fn disable_closes(rt: HostRuntime) -> Result<(), Fail> {
    let counts = run(
        &rt,
        SETTINGS,
        Stage::Started,
        &[
            // ENABLE; S1,F13 W
            done(
                Call::Switch(1),
                "0000001c 0007 810d 0000 00000001 0102 4106 42454e434831 4106 303030303031",
                &[],
            ),
            // DISABLE
            done(Call::Switch(2), "", &[]),
            // ENABLE; S1,F13 W
            done(
                Call::Switch(1),
                "0000001c 0007 810d 0000 00000002 0102 4106 42454e434831 4106 303030303031",
                &[],
            ),
            // the host's S1,F14
            done(Act::Frame("0007 010e 0000 00000001 0102 210100"), "", &[]),
            // ONLINE
            done(Call::Switch(3), "", &[]),
            // the host's S1,F14
            done(Act::Frame("0007 010e 0000 00000002 0102 210100"), "", &[]),
            // ONLINE; S1,F1 W
            done(Call::Switch(3), "0000000a 0007 8101 0000 00000003", &[]),
        ],
    )?;
    assert_eq!(rt; counts, (0, 0));
    Ok(())
}
