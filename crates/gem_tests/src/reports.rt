// Reports in the queue.
use crate::driver::{Act, SETTINGS, Stage, done, run};
use gem::equipment::Call;
use std::test::Fail;

// Only the reply of the right stream, function and number removes the open report.
#[test]
fn acknowledgement(rt: HostRuntime) -> Result<(), Fail> {
    let counts = run(
        &rt,
        SETTINGS,
        Stage::Online,
        &[
            // S6,F11 W: report 1, event 3
            done(
                Call::Pump,
                "0000001a 0007 860b 0000 00000003 0103 b10400000001 b10400000003 0100",
                &[],
            ),
            done(Call::Pump, "", &[]),
            // the host's S5,F2
            done(Act::Frame("0007 0502 0000 00000003"), "", &[]),
            // the host's S6,F12
            done(Act::Frame("0007 060c 0000 00000002"), "", &[]),
            // the host's S6,F14
            done(Act::Frame("0007 060e 0000 00000003"), "", &[]),
            // the host's S6,F12
            done(Act::Frame("0007 060c 0000 00000003"), "", &[(b'A', 1)]),
            // the host's S6,F12
            done(Act::Frame("0007 060c 0000 00000003"), "", &[]),
            done(Call::Pump, "", &[]),
        ],
    )?;
    assert_eq!(rt; counts, (0, 0));
    Ok(())
}

// S6,F0 and expiry 3 close the report and do not remove it; expiry 3 sends S9,F9.
#[test]
fn sent_again(rt: HostRuntime) -> Result<(), Fail> {
    let counts = run(
        &rt,
        SETTINGS,
        Stage::Online,
        &[
            done(Call::Expiry(3), "", &[]),
            // S6,F11 W: report 1, event 3
            done(
                Call::Pump,
                "0000001a 0007 860b 0000 00000003 0103 b10400000001 b10400000003 0100",
                &[],
            ),
            // the host's S6,F0
            done(Act::Frame("0007 0600 0000 00000003"), "", &[]),
            // S6,F11 W: report 1, event 3
            done(
                Call::Pump,
                "0000001a 0007 860b 0000 00000004 0103 b10400000001 b10400000003 0100",
                &[],
            ),
            // S9,F9: the header of the report
            done(
                Call::Expiry(3),
                "00000016 0007 0909 0000 00000005 210a 0007 860b 0000 00000004",
                &[],
            ),
            done(Call::Expiry(3), "", &[]),
            // S6,F11 W: report 1, event 3
            done(
                Call::Pump,
                "0000001a 0007 860b 0000 00000006 0103 b10400000001 b10400000003 0100",
                &[],
            ),
            // the host's S6,F12
            done(Act::Frame("0007 060c 0000 00000004"), "", &[]),
            // the host's S6,F12
            done(Act::Frame("0007 060c 0000 00000006"), "", &[(b'A', 1)]),
        ],
    )?;
    assert_eq!(rt; counts, (0, 0));
    Ok(())
}

// DISABLE drops the queue, oldest first; a report made in DISABLED is dropped.
#[test]
fn disable_drops(rt: HostRuntime) -> Result<(), Fail> {
    let counts = run(
        &rt,
        SETTINGS,
        Stage::Online,
        &[
            // LOCAL
            done(Call::Switch(5), "", &[(b'M', 2)]),
            // DISABLE
            done(Call::Switch(2), "", &[(b'D', 1), (b'D', 2)]),
            done(
                Call::Alarm(1, true),
                "",
                &[(b'M', 3), (b'D', 3), (b'M', 4), (b'D', 4)],
            ),
            done(Call::Pump, "", &[]),
        ],
    )?;
    assert_eq!(rt; counts, (0, 0));
    Ok(())
}

// A queue that is full drops the newer report.
#[test]
fn full_queue(rt: HostRuntime) -> Result<(), Fail> {
    let counts = run(
        &rt,
        SETTINGS,
        Stage::Ready,
        &[
            done(Call::Alarm(1, true), "", &[(b'M', 2), (b'M', 3)]),
            done(
                Call::Alarm(32, true),
                "",
                &[(b'M', 4), (b'D', 4), (b'M', 5), (b'D', 5)],
            ),
            // S5,F1 W: ALCD 132, alarm 1
            done(
                Call::Pump,
                "00000017 0007 8501 0000 00000004 0103 210184 b10400000001 4100",
                &[],
            ),
        ],
    )?;
    assert_eq!(rt; counts, (2, 0));
    Ok(())
}

// The reply to a report that DISABLE closed removes nothing.
#[test]
fn disable_closes_the_report(rt: HostRuntime) -> Result<(), Fail> {
    let counts = run(
        &rt,
        SETTINGS,
        Stage::Online,
        &[
            // S6,F11 W: report 1, event 3
            done(
                Call::Pump,
                "0000001a 0007 860b 0000 00000003 0103 b10400000001 b10400000003 0100",
                &[],
            ),
            // DISABLE
            done(Call::Switch(2), "", &[(b'D', 1)]),
            // ENABLE; S1,F13 W
            done(
                Call::Switch(1),
                "0000001c 0007 810d 0000 00000004 0102 4106 42454e434831 4106 303030303031",
                &[],
            ),
            // the host's S1,F14
            done(Act::Frame("0007 010e 0000 00000004 0102 210100"), "", &[]),
            // the host's S6,F12
            done(Act::Frame("0007 060c 0000 00000003"), "", &[]),
            // LOCAL
            done(Call::Switch(5), "", &[(b'M', 2)]),
            // S6,F11 W: report 2, event 2
            done(
                Call::Pump,
                "0000001a 0007 860b 0000 00000005 0103 b10400000002 b10400000002 0100",
                &[],
            ),
        ],
    )?;
    assert_eq!(rt; counts, (1, 0));
    Ok(())
}
