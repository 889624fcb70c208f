// Alarms and samples.
use crate::driver::{Act, SETTINGS, Stage, done, run};
use gem::equipment::Call;
use std::test::Fail;
use zone::variable::Sample;

// An alarm that is set: S5,F1, then event 101. Set again it makes nothing.
#[test]
fn set_alarm(rt: HostRuntime) -> Result<(), Fail> {
    let counts = run(
        &rt,
        SETTINGS,
        Stage::Ready,
        &[
            done(Call::Alarm(1, true), "", &[(b'M', 2), (b'M', 3)]),
            done(Call::Alarm(1, true), "", &[]),
            // S5,F1 W: ALCD 132, alarm 1
            done(
                Call::Pump,
                "00000017 0007 8501 0000 00000004 0103 210184 b10400000001 4100",
                &[],
            ),
            // the host's S5,F2
            done(Act::Frame("0007 0502 0000 00000004"), "", &[(b'A', 2)]),
            // S6,F11 W: report 3, event 101
            done(
                Call::Pump,
                "0000001a 0007 860b 0000 00000005 0103 b10400000003 b10400000065 0100",
                &[],
            ),
            // the host's S6,F12
            done(Act::Frame("0007 060c 0000 00000005"), "", &[(b'A', 3)]),
            done(Call::Pump, "", &[]),
        ],
    )?;
    assert_eq!(rt; counts, (0, 0));
    Ok(())
}

// An alarm that is cleared: ALCD without 128, event 201.
#[test]
fn clear_alarm(rt: HostRuntime) -> Result<(), Fail> {
    let counts = run(
        &rt,
        SETTINGS,
        Stage::Ready,
        &[
            done(Call::Alarm(1, false), "", &[]),
            done(Call::Alarm(1, true), "", &[(b'M', 2), (b'M', 3)]),
            // the host's S1,F15
            done(
                Act::Frame("0007 010f 0000 000000aa"),
                "",
                &[(b'M', 4), (b'D', 4)],
            ),
            done(Call::Alarm(1, false), "", &[]),
            // the host's S1,F17
            done(
                Act::Frame("0007 0111 0000 000000aa"),
                "",
                &[(b'M', 5), (b'D', 5)],
            ),
            done(Call::Alarm(1, false), "", &[]),
            // S5,F1 W: ALCD 132, alarm 1
            done(
                Call::Pump,
                "00000017 0007 8501 0000 00000004 0103 210184 b10400000001 4100",
                &[],
            ),
        ],
    )?;
    assert_eq!(rt; counts, (2, 0));
    Ok(())
}

// The reports of a cleared alarm, of the greatest number and category: ALCD 127, event 232.
#[test]
fn cleared_report(rt: HostRuntime) -> Result<(), Fail> {
    let counts = run(
        &rt,
        SETTINGS,
        Stage::Communicating,
        &[
            done(Call::Alarm(32, true), "", &[]),
            // ONLINE; S1,F1 W
            done(Call::Switch(3), "0000000a 0007 8101 0000 00000002", &[]),
            // the host's S1,F2
            done(Act::Frame("0007 0102 0000 00000002"), "", &[(b'M', 1)]),
            // S6,F11 W: report 1, event 3
            done(
                Call::Pump,
                "0000001a 0007 860b 0000 00000003 0103 b10400000001 b10400000003 0100",
                &[],
            ),
            // the host's S6,F12
            done(Act::Frame("0007 060c 0000 00000003"), "", &[(b'A', 1)]),
            done(Call::Alarm(32, false), "", &[(b'M', 2), (b'M', 3)]),
            // S5,F1 W: ALCD 127, alarm 32
            done(
                Call::Pump,
                "00000017 0007 8501 0000 00000004 0103 21017f b10400000020 4100",
                &[],
            ),
            // the host's S5,F2
            done(Act::Frame("0007 0502 0000 00000004"), "", &[(b'A', 2)]),
            // S6,F11 W: report 3, event 232
            done(
                Call::Pump,
                "0000001a 0007 860b 0000 00000005 0103 b10400000003 b104000000e8 0100",
                &[],
            ),
        ],
    )?;
    assert_eq!(rt; counts, (1, 0));
    Ok(())
}

// ALCD 255 and event 132.
#[test]
fn greatest_alarm(rt: HostRuntime) -> Result<(), Fail> {
    let counts = run(
        &rt,
        SETTINGS,
        Stage::Ready,
        &[
            done(Call::Alarm(32, true), "", &[(b'M', 2), (b'M', 3)]),
            // S5,F1 W: ALCD 255, alarm 32
            done(
                Call::Pump,
                "00000017 0007 8501 0000 00000004 0103 2101ff b10400000020 4100",
                &[],
            ),
            // the host's S5,F2
            done(Act::Frame("0007 0502 0000 00000004"), "", &[(b'A', 2)]),
            // S6,F11 W: report 3, event 132
            done(
                Call::Pump,
                "0000001a 0007 860b 0000 00000005 0103 b10400000003 b10400000084 0100",
                &[],
            ),
        ],
    )?;
    assert_eq!(rt; counts, (1, 0));
    Ok(())
}

// An alarm that the host disabled makes its event only; another one is as it was.
#[test]
fn disabled_alarm(rt: HostRuntime) -> Result<(), Fail> {
    let counts = run(
        &rt,
        SETTINGS,
        Stage::Ready,
        &[
            // the host's S5,F3 W; S5,F4: B 0
            done(
                Act::Frame("0007 8503 0000 000000aa 0102 21017f b10400000001"),
                "0000000d 0007 0504 0000 000000aa 210100",
                &[],
            ),
            done(Call::Alarm(1, true), "", &[(b'M', 2)]),
            // S6,F11 W: report 2, event 101
            done(
                Call::Pump,
                "0000001a 0007 860b 0000 00000004 0103 b10400000002 b10400000065 0100",
                &[],
            ),
            // the host's S6,F12
            done(Act::Frame("0007 060c 0000 00000004"), "", &[(b'A', 2)]),
            done(Call::Alarm(32, true), "", &[(b'M', 3), (b'M', 4)]),
            // S5,F1 W: ALCD 255, alarm 32
            done(
                Call::Pump,
                "00000017 0007 8501 0000 00000005 0103 2101ff b10400000020 4100",
                &[],
            ),
        ],
    )?;
    assert_eq!(rt; counts, (2, 0));
    Ok(())
}

// Bit 128 enables; without W there is no reply.
#[test]
fn enabled_again(rt: HostRuntime) -> Result<(), Fail> {
    let counts = run(
        &rt,
        SETTINGS,
        Stage::Ready,
        &[
            // the host's S5,F3 W; S5,F4: B 0
            done(
                Act::Frame("0007 8503 0000 000000aa 0102 210100 b10400000001"),
                "0000000d 0007 0504 0000 000000aa 210100",
                &[],
            ),
            // the host's S5,F3
            done(
                Act::Frame("0007 0503 0000 000000aa 0102 210180 b10400000001"),
                "",
                &[],
            ),
            done(Call::Alarm(1, true), "", &[(b'M', 2), (b'M', 3)]),
            // S5,F1 W: ALCD 132, alarm 1
            done(
                Call::Pump,
                "00000017 0007 8501 0000 00000004 0103 210184 b10400000001 4100",
                &[],
            ),
        ],
    )?;
    assert_eq!(rt; counts, (2, 0));
    Ok(())
}

// S5,F3 for an alarm that is not set up: B 1.
#[test]
fn unknown_alarm(rt: HostRuntime) -> Result<(), Fail> {
    let counts = run(
        &rt,
        SETTINGS,
        Stage::Ready,
        &[
            // the host's S5,F3 W; S5,F4: B 1
            done(
                Act::Frame("0007 8503 0000 000000aa 0102 210180 b10400000002"),
                "0000000d 0007 0504 0000 000000aa 210101",
                &[],
            ),
            // the host's S5,F3 W; S5,F4: B 1
            done(
                Act::Frame("0007 8503 0000 000000aa 0102 210100 b10400000000"),
                "0000000d 0007 0504 0000 000000aa 210101",
                &[],
            ),
            // the host's S5,F3 W; S5,F4: B 1
            done(
                Act::Frame("0007 8503 0000 000000aa 0102 210100 b10400000021"),
                "0000000d 0007 0504 0000 000000aa 210101",
                &[],
            ),
            // the host's S5,F3 W; S5,F4: B 1
            done(
                Act::Frame("0007 8503 0000 000000aa 0102 210100 b104ffffffff"),
                "0000000d 0007 0504 0000 000000aa 210101",
                &[],
            ),
        ],
    )?;
    assert_eq!(rt; counts, (0, 0));
    Ok(())
}

// A sample that moves two bands makes one event 301; one that moves none makes nothing.
#[test]
fn samples_of_bands(rt: HostRuntime) -> Result<(), Fail> {
    let counts = run(
        &rt,
        SETTINGS,
        Stage::Ready,
        &[
            done(Call::Sample(1, Sample::Whole(16)), "", &[]),
            done(Call::Sample(1, Sample::Whole(20)), "", &[(b'M', 2)]),
            done(Call::Sample(1, Sample::Whole(25)), "", &[]),
            // S6,F11 W: report 2, event 301
            done(
                Call::Pump,
                "0000001a 0007 860b 0000 00000004 0103 b10400000002 b1040000012d 0100",
                &[],
            ),
            // the host's S6,F12
            done(Act::Frame("0007 060c 0000 00000004"), "", &[(b'A', 2)]),
            done(Call::Sample(1, Sample::Whole(12)), "", &[(b'M', 3)]),
            done(Call::Sample(1, Sample::Whole(12)), "", &[]),
            done(Call::Sample(1, Sample::Whole(10)), "", &[(b'M', 4)]),
        ],
    )?;
    assert_eq!(rt; counts, (2, 0));
    Ok(())
}

// The same of a real variable: event 302.
#[test]
fn samples_of_a_real(rt: HostRuntime) -> Result<(), Fail> {
    let counts = run(
        &rt,
        SETTINGS,
        Stage::Ready,
        &[
            done(Call::Sample(2, Sample::Real(1.0)), "", &[]),
            done(Call::Sample(2, Sample::Real(1.5)), "", &[(b'M', 2)]),
            done(Call::Sample(2, Sample::Real(1.0)), "", &[]),
            done(Call::Sample(2, Sample::Real(0.5)), "", &[(b'M', 3)]),
            // S6,F11 W: report 2, event 302
            done(
                Call::Pump,
                "0000001a 0007 860b 0000 00000004 0103 b10400000002 b1040000012e 0100",
                &[],
            ),
        ],
    )?;
    assert_eq!(rt; counts, (2, 0));
    Ok(())
}

// Off-line a sample moves its bands and an alarm changes, without a report.
#[test]
fn samples_offline(rt: HostRuntime) -> Result<(), Fail> {
    let counts = run(
        &rt,
        SETTINGS,
        Stage::Communicating,
        &[
            done(Call::Sample(1, Sample::Whole(20)), "", &[]),
            done(Call::Alarm(1, true), "", &[]),
            // ONLINE; S1,F1 W
            done(Call::Switch(3), "0000000a 0007 8101 0000 00000002", &[]),
            // the host's S1,F2
            done(Act::Frame("0007 0102 0000 00000002"), "", &[(b'M', 1)]),
            done(Call::Sample(1, Sample::Whole(20)), "", &[]),
            done(Call::Alarm(1, true), "", &[]),
            done(Call::Sample(1, Sample::Whole(10)), "", &[(b'M', 2)]),
        ],
    )?;
    assert_eq!(rt; counts, (2, 0));
    Ok(())
}
