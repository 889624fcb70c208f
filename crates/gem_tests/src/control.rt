// The control state.
use crate::driver::{Act, HOST_FALLBACK, SETTINGS, Stage, done, run};
use gem::equipment::Call;
use std::test::Fail;

// ONLINE while not COMMUNICATING, fallback EQUIPMENT OFF-LINE: S1,F17 is denied then.
#[test]
fn online_without_communication(rt: HostRuntime) -> Result<(), Fail> {
    let counts = run(
        &rt,
        SETTINGS,
        Stage::Started,
        &[
            // ONLINE
            done(Call::Switch(3), "", &[]),
            // ENABLE; S1,F13 W
            done(
                Call::Switch(1),
                "0000001c 0007 810d 0000 00000001 0102 4106 42454e434831 4106 303030303031",
                &[],
            ),
            // the host's S1,F14
            done(Act::Frame("0007 010e 0000 00000001 0102 210100"), "", &[]),
            // the host's S1,F17 W; S1,F18: B 1
            done(
                Act::Frame("0007 8111 0000 000000aa"),
                "0000000d 0007 0112 0000 000000aa 210101",
                &[],
            ),
        ],
    )?;
    assert_eq!(rt; counts, (0, 0));
    Ok(())
}

// The same with fallback HOST OFF-LINE: S1,F17 is granted, and REMOTE makes report 1.
#[test]
fn online_to_host_offline(rt: HostRuntime) -> Result<(), Fail> {
    let counts = run(
        &rt,
        HOST_FALLBACK,
        Stage::Started,
        &[
            // ONLINE
            done(Call::Switch(3), "", &[]),
            // ENABLE; S1,F13 W
            done(
                Call::Switch(1),
                "0000001c 0007 810d 0000 00000001 0102 4106 42454e434831 4106 303030303031",
                &[],
            ),
            // the host's S1,F14
            done(Act::Frame("0007 010e 0000 00000001 0102 210100"), "", &[]),
            // the host's S1,F17 W; S1,F18: B 0
            done(
                Act::Frame("0007 8111 0000 000000aa"),
                "0000000d 0007 0112 0000 000000aa 210100",
                &[(b'M', 1)],
            ),
        ],
    )?;
    assert_eq!(rt; counts, (1, 0));
    Ok(())
}

// The awaited S1,F2 brings ON-LINE by the switch, here LOCAL: event 2.
#[test]
fn attempt_ends_local(rt: HostRuntime) -> Result<(), Fail> {
    let counts = run(
        &rt,
        SETTINGS,
        Stage::Communicating,
        &[
            // LOCAL
            done(Call::Switch(5), "", &[]),
            // ONLINE; S1,F1 W
            done(Call::Switch(3), "0000000a 0007 8101 0000 00000002", &[]),
            // the host's S1,F2
            done(Act::Frame("0007 0102 0000 00000002"), "", &[(b'M', 1)]),
            // S6,F11 W: report 1, event 2
            done(
                Call::Pump,
                "0000001a 0007 860b 0000 00000003 0103 b10400000001 b10400000002 0100",
                &[],
            ),
        ],
    )?;
    assert_eq!(rt; counts, (1, 0));
    Ok(())
}

// In ATTEMPT the switches ONLINE and OFFLINE and expiry 1 do nothing, and the host gets S1,F0 and B 1.
#[test]
fn attempt_is_left_by_its_answer_only(rt: HostRuntime) -> Result<(), Fail> {
    let counts = run(
        &rt,
        SETTINGS,
        Stage::Communicating,
        &[
            // ONLINE; S1,F1 W
            done(Call::Switch(3), "0000000a 0007 8101 0000 00000002", &[]),
            // ONLINE
            done(Call::Switch(3), "", &[]),
            // OFFLINE
            done(Call::Switch(4), "", &[]),
            done(Call::Expiry(1), "", &[]),
            // the host's S1,F1 W; S1,F0
            done(
                Act::Frame("0007 8101 0000 000000aa"),
                "0000000a 0007 0100 0000 000000aa",
                &[],
            ),
            // the host's S1,F17 W; S1,F18: B 1
            done(
                Act::Frame("0007 8111 0000 000000aa"),
                "0000000d 0007 0112 0000 000000aa 210101",
                &[],
            ),
            // the host's S1,F2
            done(Act::Frame("0007 0102 0000 00000001"), "", &[]),
            // the host's S1,F2
            done(Act::Frame("0007 0102 0000 00000002"), "", &[(b'M', 1)]),
            // ONLINE
            done(Call::Switch(3), "", &[]),
        ],
    )?;
    assert_eq!(rt; counts, (1, 0));
    Ok(())
}

// The awaited S1,F0: back to EQUIPMENT OFF-LINE, where ONLINE starts anew.
#[test]
fn attempt_refused(rt: HostRuntime) -> Result<(), Fail> {
    let counts = run(
        &rt,
        SETTINGS,
        Stage::Communicating,
        &[
            // ONLINE; S1,F1 W
            done(Call::Switch(3), "0000000a 0007 8101 0000 00000002", &[]),
            // the host's S1,F0
            done(Act::Frame("0007 0100 0000 00000002"), "", &[]),
            // the host's S1,F2
            done(Act::Frame("0007 0102 0000 00000002"), "", &[]),
            // ONLINE; S1,F1 W
            done(Call::Switch(3), "0000000a 0007 8101 0000 00000003", &[]),
        ],
    )?;
    assert_eq!(rt; counts, (0, 0));
    Ok(())
}

// The awaited S1,F0 with fallback HOST OFF-LINE: ONLINE does nothing there, S1,F17 is granted.
#[test]
fn attempt_refused_to_host_offline(rt: HostRuntime) -> Result<(), Fail> {
    let counts = run(
        &rt,
        HOST_FALLBACK,
        Stage::Communicating,
        &[
            // ONLINE; S1,F1 W
            done(Call::Switch(3), "0000000a 0007 8101 0000 00000002", &[]),
            // the host's S1,F0
            done(Act::Frame("0007 0100 0000 00000002"), "", &[]),
            // ONLINE
            done(Call::Switch(3), "", &[]),
            // the host's S1,F17 W; S1,F18: B 0
            done(
                Act::Frame("0007 8111 0000 000000aa"),
                "0000000d 0007 0112 0000 000000aa 210100",
                &[(b'M', 1)],
            ),
        ],
    )?;
    assert_eq!(rt; counts, (1, 0));
    Ok(())
}

// Expiry 2 in ATTEMPT: the fallback; a late S1,F2 does nothing.
#[test]
fn attempt_expires(rt: HostRuntime) -> Result<(), Fail> {
    let counts = run(
        &rt,
        SETTINGS,
        Stage::Communicating,
        &[
            // ONLINE; S1,F1 W
            done(Call::Switch(3), "0000000a 0007 8101 0000 00000002", &[]),
            done(Call::Expiry(2), "", &[]),
            // the host's S1,F2
            done(Act::Frame("0007 0102 0000 00000002"), "", &[]),
            // ONLINE; S1,F1 W
            done(Call::Switch(3), "0000000a 0007 8101 0000 00000003", &[]),
            // the host's S1,F2
            done(Act::Frame("0007 0102 0000 00000002"), "", &[]),
            // the host's S1,F2
            done(Act::Frame("0007 0102 0000 00000003"), "", &[(b'M', 1)]),
        ],
    )?;
    assert_eq!(rt; counts, (1, 0));
    Ok(())
}

// The same with fallback HOST OFF-LINE.
#[test]
fn attempt_expires_to_host_offline(rt: HostRuntime) -> Result<(), Fail> {
    let counts = run(
        &rt,
        HOST_FALLBACK,
        Stage::Communicating,
        &[
            // ONLINE; S1,F1 W
            done(Call::Switch(3), "0000000a 0007 8101 0000 00000002", &[]),
            done(Call::Expiry(2), "", &[]),
            // ONLINE
            done(Call::Switch(3), "", &[]),
            // the host's S1,F17 W; S1,F18: B 0
            done(
                Act::Frame("0007 8111 0000 000000aa"),
                "0000000d 0007 0112 0000 000000aa 210100",
                &[(b'M', 1)],
            ),
        ],
    )?;
    assert_eq!(rt; counts, (1, 0));
    Ok(())
}

// A failure in ATTEMPT: the fallback, and S1,F13. The spool is ACTIVE then and takes report 1.
#[test]
fn attempt_fails(rt: HostRuntime) -> Result<(), Fail> {
    let counts = run(
        &rt,
        HOST_FALLBACK,
        Stage::Communicating,
        &[
            // ONLINE; S1,F1 W
            done(Call::Switch(3), "0000000a 0007 8101 0000 00000002", &[]),
            // S1,F13 W
            done(
                Call::Failure,
                "0000001c 0007 810d 0000 00000003 0102 4106 42454e434831 4106 303030303031",
                &[],
            ),
            // the host's S1,F2
            done(Act::Frame("0007 0102 0000 00000002"), "", &[]),
            // the host's S1,F14
            done(Act::Frame("0007 010e 0000 00000003 0102 210100"), "", &[]),
            // the host's S1,F17 W; S1,F18: B 0
            done(
                Act::Frame("0007 8111 0000 000000aa"),
                "0000000d 0007 0112 0000 000000aa 210100",
                &[(b'M', 1)],
            ),
        ],
    )?;
    assert_eq!(rt; counts, (0, 1));
    Ok(())
}

// DISABLE in ATTEMPT: the fallback.
#[test]
fn attempt_is_disabled(rt: HostRuntime) -> Result<(), Fail> {
    let counts = run(
        &rt,
        SETTINGS,
        Stage::Communicating,
        &[
            // ONLINE; S1,F1 W
            done(Call::Switch(3), "0000000a 0007 8101 0000 00000002", &[]),
            // DISABLE
            done(Call::Switch(2), "", &[]),
            // ENABLE; S1,F13 W
            done(
                Call::Switch(1),
                "0000001c 0007 810d 0000 00000003 0102 4106 42454e434831 4106 303030303031",
                &[],
            ),
            // the host's S1,F14
            done(Act::Frame("0007 010e 0000 00000003 0102 210100"), "", &[]),
            // ONLINE; S1,F1 W
            done(Call::Switch(3), "0000000a 0007 8101 0000 00000004", &[]),
        ],
    )?;
    assert_eq!(rt; counts, (0, 0));
    Ok(())
}

// OFFLINE from REMOTE: event 1, then EQUIPMENT OFF-LINE, where pump sends nothing.
#[test]
fn operator_goes_offline(rt: HostRuntime) -> Result<(), Fail> {
    let counts = run(
        &rt,
        SETTINGS,
        Stage::Ready,
        &[
            // OFFLINE
            done(Call::Switch(4), "", &[(b'M', 2)]),
            done(Call::Pump, "", &[]),
            // the host's S1,F17 W; S1,F18: B 1
            done(
                Act::Frame("0007 8111 0000 000000aa"),
                "0000000d 0007 0112 0000 000000aa 210101",
                &[],
            ),
            // OFFLINE
            done(Call::Switch(4), "", &[]),
            // ONLINE; S1,F1 W
            done(Call::Switch(3), "0000000a 0007 8101 0000 00000004", &[]),
            // the host's S1,F2
            done(Act::Frame("0007 0102 0000 00000004"), "", &[(b'M', 3)]),
            // S6,F11 W: report 2, event 1
            done(
                Call::Pump,
                "0000001a 0007 860b 0000 00000005 0103 b10400000002 b10400000001 0100",
                &[],
            ),
        ],
    )?;
    assert_eq!(rt; counts, (2, 0));
    Ok(())
}

// S1,F15: event 1 and HOST OFF-LINE; there S1,F15 gets S1,F0, and OFFLINE makes no event.
#[test]
fn host_takes_offline(rt: HostRuntime) -> Result<(), Fail> {
    let counts = run(
        &rt,
        SETTINGS,
        Stage::Ready,
        &[
            // the host's S1,F15 W; S1,F16: B 0
            done(
                Act::Frame("0007 810f 0000 000000aa"),
                "0000000d 0007 0110 0000 000000aa 210100",
                &[(b'M', 2)],
            ),
            // the host's S1,F15 W; S1,F0
            done(
                Act::Frame("0007 810f 0000 000000aa"),
                "0000000a 0007 0100 0000 000000aa",
                &[],
            ),
            // OFFLINE
            done(Call::Switch(4), "", &[]),
            // the host's S1,F17 W; S1,F18: B 1
            done(
                Act::Frame("0007 8111 0000 000000aa"),
                "0000000d 0007 0112 0000 000000aa 210101",
                &[],
            ),
        ],
    )?;
    assert_eq!(rt; counts, (1, 0));
    Ok(())
}

// S1,F15 without W moves and gets no reply; S1,F17 goes back by the switch: event 3.
#[test]
fn host_takes_offline_and_online(rt: HostRuntime) -> Result<(), Fail> {
    let counts = run(
        &rt,
        SETTINGS,
        Stage::Ready,
        &[
            // the host's S1,F15
            done(Act::Frame("0007 010f 0000 000000aa"), "", &[(b'M', 2)]),
            // the host's S1,F17
            done(Act::Frame("0007 0111 0000 000000aa"), "", &[(b'M', 3)]),
            // S6,F11 W: report 2, event 1
            done(
                Call::Pump,
                "0000001a 0007 860b 0000 00000004 0103 b10400000002 b10400000001 0100",
                &[],
            ),
            // the host's S6,F12
            done(Act::Frame("0007 060c 0000 00000004"), "", &[(b'A', 2)]),
            // S6,F11 W: report 3, event 3
            done(
                Call::Pump,
                "0000001a 0007 860b 0000 00000005 0103 b10400000003 b10400000003 0100",
                &[],
            ),
        ],
    )?;
    assert_eq!(rt; counts, (1, 0));
    Ok(())
}

// S1,F17 when ON-LINE: B 2, no move.
#[test]
fn host_asks_online_again(rt: HostRuntime) -> Result<(), Fail> {
    let counts = run(
        &rt,
        SETTINGS,
        Stage::Ready,
        &[
            // the host's S1,F17 W; S1,F18: B 2
            done(
                Act::Frame("0007 8111 0000 000000aa"),
                "0000000d 0007 0112 0000 000000aa 210102",
                &[],
            ),
            // the host's S1,F17
            done(Act::Frame("0007 0111 0000 000000aa"), "", &[]),
            // ONLINE
            done(Call::Switch(3), "", &[]),
        ],
    )?;
    assert_eq!(rt; counts, (0, 0));
    Ok(())
}

// LOCAL and REMOTE move to the other state with an event, and do nothing in their own.
#[test]
fn local_and_remote(rt: HostRuntime) -> Result<(), Fail> {
    let counts = run(
        &rt,
        SETTINGS,
        Stage::Ready,
        &[
            // REMOTE
            done(Call::Switch(6), "", &[]),
            // LOCAL
            done(Call::Switch(5), "", &[(b'M', 2)]),
            // LOCAL
            done(Call::Switch(5), "", &[]),
            // REMOTE
            done(Call::Switch(6), "", &[(b'M', 3)]),
            // S6,F11 W: report 2, event 2
            done(
                Call::Pump,
                "0000001a 0007 860b 0000 00000004 0103 b10400000002 b10400000002 0100",
                &[],
            ),
            // the host's S6,F12
            done(Act::Frame("0007 060c 0000 00000004"), "", &[(b'A', 2)]),
            // S6,F11 W: report 3, event 3
            done(
                Call::Pump,
                "0000001a 0007 860b 0000 00000005 0103 b10400000003 b10400000003 0100",
                &[],
            ),
        ],
    )?;
    assert_eq!(rt; counts, (1, 0));
    Ok(())
}

// LOCAL off-line makes no event and is remembered for S1,F17.
#[test]
fn switch_is_remembered(rt: HostRuntime) -> Result<(), Fail> {
    let counts = run(
        &rt,
        SETTINGS,
        Stage::Ready,
        &[
            // the host's S1,F15
            done(Act::Frame("0007 010f 0000 000000aa"), "", &[(b'M', 2)]),
            // LOCAL
            done(Call::Switch(5), "", &[]),
            // the host's S1,F17
            done(Act::Frame("0007 0111 0000 000000aa"), "", &[(b'M', 3)]),
            // LOCAL
            done(Call::Switch(5), "", &[]),
            // S6,F11 W: report 2, event 1
            done(
                Call::Pump,
                "0000001a 0007 860b 0000 00000004 0103 b10400000002 b10400000001 0100",
                &[],
            ),
            // the host's S6,F12
            done(Act::Frame("0007 060c 0000 00000004"), "", &[(b'A', 2)]),
            // S6,F11 W: report 3, event 2
            done(
                Call::Pump,
                "0000001a 0007 860b 0000 00000005 0103 b10400000003 b10400000002 0100",
                &[],
            ),
        ],
    )?;
    assert_eq!(rt; counts, (1, 0));
    Ok(())
}
