// The spool.
use crate::driver::{Act, ONE_AT_MOST, OVERWRITE, SETTINGS, Stage, done, run};
use gem::equipment::Call;
use std::test::Fail;

// A failure activates the spool: the queue goes there, then event 4.
#[test]
fn activated(rt: HostRuntime) -> Result<(), Fail> {
    let counts = run(
        &rt,
        SETTINGS,
        Stage::Online,
        &[
            // S1,F13 W
            done(
                Call::Failure,
                "0000001c 0007 810d 0000 00000003 0102 4106 42454e434831 4106 303030303031",
                &[(b'M', 2)],
            ),
            done(Call::Pump, "", &[]),
        ],
    )?;
    assert_eq!(rt; counts, (0, 2));
    Ok(())
}

// A spool at its capacity without OverWriteSpool turns reports away.
#[test]
fn turned_away(rt: HostRuntime) -> Result<(), Fail> {
    let counts = run(
        &rt,
        SETTINGS,
        Stage::Online,
        &[
            // S1,F13 W
            done(
                Call::Failure,
                "0000001c 0007 810d 0000 00000003 0102 4106 42454e434831 4106 303030303031",
                &[(b'M', 2)],
            ),
            done(
                Call::Alarm(1, true),
                "",
                &[(b'M', 3), (b'T', 3), (b'M', 4), (b'T', 4)],
            ),
        ],
    )?;
    assert_eq!(rt; counts, (0, 2));
    Ok(())
}

// With OverWriteSpool it overwrites the oldest.
#[test]
fn overwritten(rt: HostRuntime) -> Result<(), Fail> {
    let counts = run(
        &rt,
        OVERWRITE,
        Stage::Online,
        &[
            // S1,F13 W
            done(
                Call::Failure,
                "0000001c 0007 810d 0000 00000003 0102 4106 42454e434831 4106 303030303031",
                &[(b'M', 2)],
            ),
            done(
                Call::Alarm(1, true),
                "",
                &[(b'M', 3), (b'O', 1), (b'M', 4), (b'O', 2)],
            ),
        ],
    )?;
    assert_eq!(rt; counts, (0, 2));
    Ok(())
}

// A report that was open at the failure is closed: a late reply removes nothing.
#[test]
fn activation_closes(rt: HostRuntime) -> Result<(), Fail> {
    let counts = run(
        &rt,
        SETTINGS,
        Stage::Online,
        &[
            // S6,F11 W: report 1, event 3
            done(
                Call::Pump,
                "0000001a 0007 860b 0000 00000003 0103 b10400000001 b10400000003 0100",
                &[],
            ),
            // S1,F13 W
            done(
                Call::Failure,
                "0000001c 0007 810d 0000 00000004 0102 4106 42454e434831 4106 303030303031",
                &[(b'M', 2)],
            ),
            // the host's S1,F13
            done(Act::Frame("0007 010d 0000 000000aa"), "", &[]),
            // the host's S6,F12
            done(Act::Frame("0007 060c 0000 00000003"), "", &[]),
        ],
    )?;
    assert_eq!(rt; counts, (0, 2));
    Ok(())
}

// WAIT CRA to WAIT DELAY by expiry 2 activates the spool too.
#[test]
fn activated_in_wait(rt: HostRuntime) -> Result<(), Fail> {
    let counts = run(
        &rt,
        SETTINGS,
        Stage::Online,
        &[
            // DISABLE
            done(Call::Switch(2), "", &[(b'D', 1)]),
            // ENABLE; S1,F13 W
            done(
                Call::Switch(1),
                "0000001c 0007 810d 0000 00000003 0102 4106 42454e434831 4106 303030303031",
                &[],
            ),
            done(Call::Expiry(2), "", &[(b'M', 2)]),
            done(Call::Alarm(1, true), "", &[(b'M', 3), (b'M', 4), (b'T', 4)]),
            // S1,F13 W
            done(
                Call::Expiry(1),
                "0000001c 0007 810d 0000 00000004 0102 4106 42454e434831 4106 303030303031",
                &[],
            ),
        ],
    )?;
    assert_eq!(rt; counts, (0, 2));
    Ok(())
}

// And by COMMACK 1, and by a failure there.
#[test]
fn activated_by_denial(rt: HostRuntime) -> Result<(), Fail> {
    let counts = run(
        &rt,
        SETTINGS,
        Stage::Online,
        &[
            // DISABLE
            done(Call::Switch(2), "", &[(b'D', 1)]),
            // ENABLE; S1,F13 W
            done(
                Call::Switch(1),
                "0000001c 0007 810d 0000 00000003 0102 4106 42454e434831 4106 303030303031",
                &[],
            ),
            // the host's S1,F14
            done(
                Act::Frame("0007 010e 0000 00000003 0102 210101"),
                "",
                &[(b'M', 2)],
            ),
            done(Call::Failure, "", &[]),
        ],
    )?;
    assert_eq!(rt; counts, (0, 1));
    Ok(())
}

// Off-line there is no event 4; a later report goes to the spool.
#[test]
fn activated_offline(rt: HostRuntime) -> Result<(), Fail> {
    let counts = run(
        &rt,
        SETTINGS,
        Stage::Communicating,
        &[
            // S1,F13 W
            done(
                Call::Failure,
                "0000001c 0007 810d 0000 00000002 0102 4106 42454e434831 4106 303030303031",
                &[],
            ),
            // the host's S1,F13
            done(Act::Frame("0007 010d 0000 000000aa"), "", &[]),
            // ONLINE; S1,F1 W
            done(Call::Switch(3), "0000000a 0007 8101 0000 00000003", &[]),
            // the host's S1,F2
            done(Act::Frame("0007 0102 0000 00000003"), "", &[(b'M', 1)]),
            done(Call::Pump, "", &[]),
            // the host's S6,F23 W; S6,F24: B 0
            done(
                Act::Frame("0007 8617 0000 000000aa a50100"),
                "0000000d 0007 0618 0000 000000aa 210100",
                &[],
            ),
        ],
    )?;
    assert_eq!(rt; counts, (0, 1));
    Ok(())
}

// S6,F23 to an INACTIVE spool: B 2.
#[test]
fn inactive(rt: HostRuntime) -> Result<(), Fail> {
    let counts = run(
        &rt,
        SETTINGS,
        Stage::Ready,
        &[
            // the host's S6,F23 W; S6,F24: B 2
            done(
                Act::Frame("0007 8617 0000 000000aa a50100"),
                "0000000d 0007 0618 0000 000000aa 210102",
                &[],
            ),
            // the host's S6,F23 W; S6,F24: B 2
            done(
                Act::Frame("0007 8617 0000 000000aa a50101"),
                "0000000d 0007 0618 0000 000000aa 210102",
                &[],
            ),
            // the host's S6,F23
            done(Act::Frame("0007 0617 0000 000000aa a50100"), "", &[]),
            done(Call::Pump, "", &[]),
        ],
    )?;
    assert_eq!(rt; counts, (0, 0));
    Ok(())
}

// TRANSMIT sends and removes as acknowledged (B), then event 5; the queue is used again.
#[test]
fn transmit(rt: HostRuntime) -> Result<(), Fail> {
    let counts = run(
        &rt,
        SETTINGS,
        Stage::Online,
        &[
            // S1,F13 W
            done(
                Call::Failure,
                "0000001c 0007 810d 0000 00000003 0102 4106 42454e434831 4106 303030303031",
                &[(b'M', 2)],
            ),
            // the host's S1,F13
            done(Act::Frame("0007 010d 0000 000000aa"), "", &[]),
            // the host's S6,F23 W; S6,F24: B 0
            done(
                Act::Frame("0007 8617 0000 000000aa a50100"),
                "0000000d 0007 0618 0000 000000aa 210100",
                &[],
            ),
            // the host's S6,F23 W; S6,F24: B 1
            done(
                Act::Frame("0007 8617 0000 000000aa a50101"),
                "0000000d 0007 0618 0000 000000aa 210101",
                &[],
            ),
            // S6,F11 W: report 1, event 3
            done(
                Call::Pump,
                "0000001a 0007 860b 0000 00000004 0103 b10400000001 b10400000003 0100",
                &[],
            ),
            // the host's S6,F12
            done(Act::Frame("0007 060c 0000 00000004"), "", &[(b'B', 1)]),
            // S6,F11 W: report 2, event 4
            done(
                Call::Pump,
                "0000001a 0007 860b 0000 00000005 0103 b10400000002 b10400000004 0100",
                &[],
            ),
            // the host's S6,F12
            done(Act::Frame("0007 060c 0000 00000005"), "", &[(b'B', 2)]),
            done(Call::Pump, "", &[(b'M', 3)]),
            // S6,F11 W: report 3, event 5
            done(
                Call::Pump,
                "0000001a 0007 860b 0000 00000006 0103 b10400000003 b10400000005 0100",
                &[],
            ),
            // the host's S6,F12
            done(Act::Frame("0007 060c 0000 00000006"), "", &[(b'A', 3)]),
        ],
    )?;
    assert_eq!(rt; counts, (0, 0));
    Ok(())
}

// PURGE removes one report at a pump (P), then event 5.
#[test]
fn purge(rt: HostRuntime) -> Result<(), Fail> {
    let counts = run(
        &rt,
        SETTINGS,
        Stage::Online,
        &[
            // S1,F13 W
            done(
                Call::Failure,
                "0000001c 0007 810d 0000 00000003 0102 4106 42454e434831 4106 303030303031",
                &[(b'M', 2)],
            ),
            // the host's S1,F13
            done(Act::Frame("0007 010d 0000 000000aa"), "", &[]),
            // the host's S6,F23 W; S6,F24: B 0
            done(
                Act::Frame("0007 8617 0000 000000aa a50101"),
                "0000000d 0007 0618 0000 000000aa 210100",
                &[],
            ),
            // the host's S6,F23 W; S6,F24: B 1
            done(
                Act::Frame("0007 8617 0000 000000aa a50100"),
                "0000000d 0007 0618 0000 000000aa 210101",
                &[],
            ),
            done(Call::Pump, "", &[(b'P', 1)]),
            done(Call::Pump, "", &[(b'P', 2)]),
            done(Call::Pump, "", &[(b'M', 3)]),
            // the host's S6,F23 W; S6,F24: B 2
            done(
                Act::Frame("0007 8617 0000 000000aa a50101"),
                "0000000d 0007 0618 0000 000000aa 210102",
                &[],
            ),
        ],
    )?;
    assert_eq!(rt; counts, (1, 0));
    Ok(())
}

// PURGE goes on through a failure and DISABLE.
#[test]
fn purge_goes_on(rt: HostRuntime) -> Result<(), Fail> {
    let counts = run(
        &rt,
        SETTINGS,
        Stage::Online,
        &[
            // S1,F13 W
            done(
                Call::Failure,
                "0000001c 0007 810d 0000 00000003 0102 4106 42454e434831 4106 303030303031",
                &[(b'M', 2)],
            ),
            // the host's S1,F13
            done(Act::Frame("0007 010d 0000 000000aa"), "", &[]),
            // the host's S6,F23 W; S6,F24: B 0
            done(
                Act::Frame("0007 8617 0000 000000aa a50101"),
                "0000000d 0007 0618 0000 000000aa 210100",
                &[],
            ),
            // S1,F13 W
            done(
                Call::Failure,
                "0000001c 0007 810d 0000 00000004 0102 4106 42454e434831 4106 303030303031",
                &[],
            ),
            done(Call::Pump, "", &[(b'P', 1)]),
            // DISABLE
            done(Call::Switch(2), "", &[]),
            done(Call::Pump, "", &[(b'P', 2)]),
            done(Call::Pump, "", &[(b'M', 3), (b'D', 3)]),
        ],
    )?;
    assert_eq!(rt; counts, (0, 0));
    Ok(())
}

// MaxSpoolTransmit 1: TRANSMIT ends after one; an empty spool is looked at first.
#[test]
fn maximum(rt: HostRuntime) -> Result<(), Fail> {
    let counts = run(
        &rt,
        ONE_AT_MOST,
        Stage::Online,
        &[
            // S1,F13 W
            done(
                Call::Failure,
                "0000001c 0007 810d 0000 00000003 0102 4106 42454e434831 4106 303030303031",
                &[(b'M', 2)],
            ),
            // the host's S1,F13
            done(Act::Frame("0007 010d 0000 000000aa"), "", &[]),
            // the host's S6,F23 W; S6,F24: B 0
            done(
                Act::Frame("0007 8617 0000 000000aa a50100"),
                "0000000d 0007 0618 0000 000000aa 210100",
                &[],
            ),
            // S6,F11 W: report 1, event 3
            done(
                Call::Pump,
                "0000001a 0007 860b 0000 00000004 0103 b10400000001 b10400000003 0100",
                &[],
            ),
            // the host's S6,F12
            done(Act::Frame("0007 060c 0000 00000004"), "", &[(b'B', 1)]),
            // the host's S6,F23 W; S6,F24: B 1
            done(
                Act::Frame("0007 8617 0000 000000aa a50100"),
                "0000000d 0007 0618 0000 000000aa 210101",
                &[],
            ),
            done(Call::Pump, "", &[]),
            // the host's S6,F23 W; S6,F24: B 0
            done(
                Act::Frame("0007 8617 0000 000000aa a50100"),
                "0000000d 0007 0618 0000 000000aa 210100",
                &[],
            ),
            // S6,F11 W: report 2, event 4
            done(
                Call::Pump,
                "0000001a 0007 860b 0000 00000005 0103 b10400000002 b10400000004 0100",
                &[],
            ),
            // the host's S6,F12
            done(Act::Frame("0007 060c 0000 00000005"), "", &[(b'B', 2)]),
            done(Call::Pump, "", &[(b'M', 3)]),
        ],
    )?;
    assert_eq!(rt; counts, (1, 0));
    Ok(())
}

// A report of the spool that is not acknowledged stays and is sent again.
#[test]
fn spooled_again(rt: HostRuntime) -> Result<(), Fail> {
    let counts = run(
        &rt,
        SETTINGS,
        Stage::Online,
        &[
            // S1,F13 W
            done(
                Call::Failure,
                "0000001c 0007 810d 0000 00000003 0102 4106 42454e434831 4106 303030303031",
                &[(b'M', 2)],
            ),
            // the host's S1,F13
            done(Act::Frame("0007 010d 0000 000000aa"), "", &[]),
            // the host's S6,F23 W; S6,F24: B 0
            done(
                Act::Frame("0007 8617 0000 000000aa a50100"),
                "0000000d 0007 0618 0000 000000aa 210100",
                &[],
            ),
            // S6,F11 W: report 1, event 3
            done(
                Call::Pump,
                "0000001a 0007 860b 0000 00000004 0103 b10400000001 b10400000003 0100",
                &[],
            ),
            // S9,F9: the header of the report
            done(
                Call::Expiry(3),
                "00000016 0007 0909 0000 00000005 210a 0007 860b 0000 00000004",
                &[],
            ),
            // S6,F11 W: report 1, event 3
            done(
                Call::Pump,
                "0000001a 0007 860b 0000 00000006 0103 b10400000001 b10400000003 0100",
                &[],
            ),
            // the host's S6,F0
            done(Act::Frame("0007 0600 0000 00000006"), "", &[]),
            // S6,F11 W: report 1, event 3
            done(
                Call::Pump,
                "0000001a 0007 860b 0000 00000007 0103 b10400000001 b10400000003 0100",
                &[],
            ),
        ],
    )?;
    assert_eq!(rt; counts, (0, 2));
    Ok(())
}

// A FULL spool without OverWriteSpool does not fill the slots that are freed.
#[test]
fn full_stays(rt: HostRuntime) -> Result<(), Fail> {
    let counts = run(
        &rt,
        SETTINGS,
        Stage::Online,
        &[
            // S1,F13 W
            done(
                Call::Failure,
                "0000001c 0007 810d 0000 00000003 0102 4106 42454e434831 4106 303030303031",
                &[(b'M', 2)],
            ),
            done(
                Call::Alarm(1, true),
                "",
                &[(b'M', 3), (b'T', 3), (b'M', 4), (b'T', 4)],
            ),
            // the host's S1,F13
            done(Act::Frame("0007 010d 0000 000000aa"), "", &[]),
            // the host's S6,F23 W; S6,F24: B 0
            done(
                Act::Frame("0007 8617 0000 000000aa a50100"),
                "0000000d 0007 0618 0000 000000aa 210100",
                &[],
            ),
            // S6,F11 W: report 1, event 3
            done(
                Call::Pump,
                "0000001a 0007 860b 0000 00000004 0103 b10400000001 b10400000003 0100",
                &[],
            ),
            // the host's S6,F12
            done(Act::Frame("0007 060c 0000 00000004"), "", &[(b'B', 1)]),
            done(
                Call::Alarm(1, false),
                "",
                &[(b'M', 5), (b'T', 5), (b'M', 6), (b'T', 6)],
            ),
        ],
    )?;
    assert_eq!(rt; counts, (0, 1));
    Ok(())
}

// With OverWriteSpool it fills them, overwriting none.
#[test]
fn full_with_overwriting(rt: HostRuntime) -> Result<(), Fail> {
    let counts = run(
        &rt,
        OVERWRITE,
        Stage::Online,
        &[
            // S1,F13 W
            done(
                Call::Failure,
                "0000001c 0007 810d 0000 00000003 0102 4106 42454e434831 4106 303030303031",
                &[(b'M', 2)],
            ),
            done(
                Call::Alarm(1, true),
                "",
                &[(b'M', 3), (b'O', 1), (b'M', 4), (b'O', 2)],
            ),
            // the host's S1,F13
            done(Act::Frame("0007 010d 0000 000000aa"), "", &[]),
            // the host's S6,F23 W; S6,F24: B 0
            done(
                Act::Frame("0007 8617 0000 000000aa a50100"),
                "0000000d 0007 0618 0000 000000aa 210100",
                &[],
            ),
            // S5,F1 W: ALCD 132, alarm 1
            done(
                Call::Pump,
                "00000017 0007 8501 0000 00000004 0103 210184 b10400000001 4100",
                &[],
            ),
            // the host's S5,F2
            done(Act::Frame("0007 0502 0000 00000004"), "", &[(b'B', 3)]),
            // LOCAL
            done(Call::Switch(5), "", &[(b'M', 5)]),
        ],
    )?;
    assert_eq!(rt; counts, (0, 2));
    Ok(())
}

// A spool that was filled and met no further report is not FULL.
#[test]
fn not_full(rt: HostRuntime) -> Result<(), Fail> {
    let counts = run(
        &rt,
        SETTINGS,
        Stage::Online,
        &[
            // S1,F13 W
            done(
                Call::Failure,
                "0000001c 0007 810d 0000 00000003 0102 4106 42454e434831 4106 303030303031",
                &[(b'M', 2)],
            ),
            // the host's S1,F13
            done(Act::Frame("0007 010d 0000 000000aa"), "", &[]),
            // the host's S6,F23 W; S6,F24: B 0
            done(
                Act::Frame("0007 8617 0000 000000aa a50100"),
                "0000000d 0007 0618 0000 000000aa 210100",
                &[],
            ),
            // S6,F11 W: report 1, event 3
            done(
                Call::Pump,
                "0000001a 0007 860b 0000 00000004 0103 b10400000001 b10400000003 0100",
                &[],
            ),
            // the host's S6,F12
            done(Act::Frame("0007 060c 0000 00000004"), "", &[(b'B', 1)]),
            // LOCAL
            done(Call::Switch(5), "", &[(b'M', 3)]),
        ],
    )?;
    assert_eq!(rt; counts, (0, 2));
    Ok(())
}

// Overwriting the open report closes it: its reply does nothing, and the next is sent.
#[test]
fn open_one_overwritten(rt: HostRuntime) -> Result<(), Fail> {
    let counts = run(
        &rt,
        OVERWRITE,
        Stage::Online,
        &[
            // S1,F13 W
            done(
                Call::Failure,
                "0000001c 0007 810d 0000 00000003 0102 4106 42454e434831 4106 303030303031",
                &[(b'M', 2)],
            ),
            // the host's S1,F13
            done(Act::Frame("0007 010d 0000 000000aa"), "", &[]),
            // the host's S6,F23 W; S6,F24: B 0
            done(
                Act::Frame("0007 8617 0000 000000aa a50100"),
                "0000000d 0007 0618 0000 000000aa 210100",
                &[],
            ),
            // S6,F11 W: report 1, event 3
            done(
                Call::Pump,
                "0000001a 0007 860b 0000 00000004 0103 b10400000001 b10400000003 0100",
                &[],
            ),
            // LOCAL
            done(Call::Switch(5), "", &[(b'M', 3), (b'O', 1)]),
            // the host's S6,F12
            done(Act::Frame("0007 060c 0000 00000004"), "", &[]),
            // S6,F11 W: report 2, event 4
            done(
                Call::Pump,
                "0000001a 0007 860b 0000 00000005 0103 b10400000002 b10400000004 0100",
                &[],
            ),
        ],
    )?;
    assert_eq!(rt; counts, (0, 2));
    Ok(())
}

// A failure in TRANSMIT: to no output, event 6; S6,F23 starts it again.
#[test]
fn transmit_fails(rt: HostRuntime) -> Result<(), Fail> {
    let counts = run(
        &rt,
        SETTINGS,
        Stage::Online,
        &[
            // S1,F13 W
            done(
                Call::Failure,
                "0000001c 0007 810d 0000 00000003 0102 4106 42454e434831 4106 303030303031",
                &[(b'M', 2)],
            ),
            // the host's S1,F13
            done(Act::Frame("0007 010d 0000 000000aa"), "", &[]),
            // the host's S6,F23 W; S6,F24: B 0
            done(
                Act::Frame("0007 8617 0000 000000aa a50100"),
                "0000000d 0007 0618 0000 000000aa 210100",
                &[],
            ),
            // S6,F11 W: report 1, event 3
            done(
                Call::Pump,
                "0000001a 0007 860b 0000 00000004 0103 b10400000001 b10400000003 0100",
                &[],
            ),
            // the host's S6,F12
            done(Act::Frame("0007 060c 0000 00000004"), "", &[(b'B', 1)]),
            // S1,F13 W
            done(
                Call::Failure,
                "0000001c 0007 810d 0000 00000005 0102 4106 42454e434831 4106 303030303031",
                &[(b'M', 3)],
            ),
            // the host's S1,F13
            done(Act::Frame("0007 010d 0000 000000aa"), "", &[]),
            done(Call::Pump, "", &[]),
            // the host's S6,F23 W; S6,F24: B 0
            done(
                Act::Frame("0007 8617 0000 000000aa a50100"),
                "0000000d 0007 0618 0000 000000aa 210100",
                &[],
            ),
            // S6,F11 W: report 2, event 4
            done(
                Call::Pump,
                "0000001a 0007 860b 0000 00000006 0103 b10400000002 b10400000004 0100",
                &[],
            ),
            // the host's S6,F12
            done(Act::Frame("0007 060c 0000 00000006"), "", &[(b'B', 2)]),
            // S6,F11 W: report 3, event 6
            done(
                Call::Pump,
                "0000001a 0007 860b 0000 00000007 0103 b10400000003 b10400000006 0100",
                &[],
            ),
        ],
    )?;
    assert_eq!(rt; counts, (0, 1));
    Ok(())
}

// DISABLE leaves TRANSMIT as it is: it goes on when COMMUNICATING again.
#[test]
fn transmit_disabled(rt: HostRuntime) -> Result<(), Fail> {
    let counts = run(
        &rt,
        SETTINGS,
        Stage::Online,
        &[
            // S1,F13 W
            done(
                Call::Failure,
                "0000001c 0007 810d 0000 00000003 0102 4106 42454e434831 4106 303030303031",
                &[(b'M', 2)],
            ),
            // the host's S1,F13
            done(Act::Frame("0007 010d 0000 000000aa"), "", &[]),
            // the host's S6,F23 W; S6,F24: B 0
            done(
                Act::Frame("0007 8617 0000 000000aa a50100"),
                "0000000d 0007 0618 0000 000000aa 210100",
                &[],
            ),
            // DISABLE
            done(Call::Switch(2), "", &[]),
            done(Call::Pump, "", &[]),
            // ENABLE; S1,F13 W
            done(
                Call::Switch(1),
                "0000001c 0007 810d 0000 00000004 0102 4106 42454e434831 4106 303030303031",
                &[],
            ),
            // the host's S1,F14
            done(Act::Frame("0007 010e 0000 00000004 0102 210100"), "", &[]),
            // S6,F11 W: report 1, event 3
            done(
                Call::Pump,
                "0000001a 0007 860b 0000 00000005 0103 b10400000001 b10400000003 0100",
                &[],
            ),
        ],
    )?;
    assert_eq!(rt; counts, (0, 2));
    Ok(())
}

// FULL ends with INACTIVE: the next activation stores again.
#[test]
fn full_ends(rt: HostRuntime) -> Result<(), Fail> {
    let counts = run(
        &rt,
        SETTINGS,
        Stage::Online,
        &[
            // S1,F13 W
            done(
                Call::Failure,
                "0000001c 0007 810d 0000 00000003 0102 4106 42454e434831 4106 303030303031",
                &[(b'M', 2)],
            ),
            done(
                Call::Alarm(1, true),
                "",
                &[(b'M', 3), (b'T', 3), (b'M', 4), (b'T', 4)],
            ),
            // the host's S1,F13
            done(Act::Frame("0007 010d 0000 000000aa"), "", &[]),
            // the host's S6,F23 W; S6,F24: B 0
            done(
                Act::Frame("0007 8617 0000 000000aa a50101"),
                "0000000d 0007 0618 0000 000000aa 210100",
                &[],
            ),
            done(Call::Pump, "", &[(b'P', 1)]),
            done(Call::Pump, "", &[(b'P', 2)]),
            done(Call::Pump, "", &[(b'M', 5)]),
            // S1,F13 W
            done(
                Call::Failure,
                "0000001c 0007 810d 0000 00000004 0102 4106 42454e434831 4106 303030303031",
                &[(b'M', 6)],
            ),
        ],
    )?;
    assert_eq!(rt; counts, (0, 2));
    Ok(())
}
