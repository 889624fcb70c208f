// Calls that are refused.
use crate::driver::{Act, SETTINGS, Stage, answers, run, run_with};
use gem::equipment::Call;
use std::process::Abort;
use std::test::Fail;
use zone::variable::Sample;

// Switches, expiries, alarms and variables that there are not: 5 with the number.
#[test]
fn unknown_numbers(rt: HostRuntime) -> Result<(), Fail> {
    let counts = run(
        &rt,
        SETTINGS,
        Stage::Started,
        &[
            answers(Call::Switch(0), (5, 0), ""),
            answers(Call::Switch(7), (5, 7), ""),
            answers(Call::Switch(4294967295), (5, 4294967295), ""),
            answers(Call::Expiry(0), (5, 0), ""),
            answers(Call::Expiry(4), (5, 4), ""),
            answers(Call::Alarm(2, true), (5, 2), ""),
            answers(Call::Alarm(0, false), (5, 0), ""),
            answers(Call::Alarm(33, true), (5, 33), ""),
        ],
    )?;
    assert_eq!(rt; counts, (0, 0));
    Ok(())
}

// A sample of an unknown variable is 5; of the other kind 6, even where it is no number; not a number 7.
#[test]
fn samples(rt: HostRuntime) -> Result<(), Fail> {
    let counts = run(
        &rt,
        SETTINGS,
        Stage::Started,
        &[
            answers(Call::Sample(3, Sample::Real(f32::NAN)), (5, 3), ""),
            answers(Call::Sample(0, Sample::Whole(1)), (5, 0), ""),
            answers(Call::Sample(33, Sample::Whole(1)), (5, 33), ""),
            answers(Call::Sample(1, Sample::Real(1.0)), (6, 1), ""),
            answers(Call::Sample(1, Sample::Real(f32::NAN)), (6, 1), ""),
            answers(Call::Sample(2, Sample::Whole(1)), (6, 2), ""),
            answers(Call::Sample(2, Sample::Real(f32::NAN)), (7, 2), ""),
        ],
    )?;
    assert_eq!(rt; counts, (0, 0));
    Ok(())
}

// A frame below 10 or above 490 bytes: 8 with its length, before its header is looked at.
#[test]
fn frame_lengths(rt: HostRuntime) -> Result<(), Fail> {
    let counts = run(
        &rt,
        SETTINGS,
        Stage::Ready,
        &[
            answers(Act::Frame(""), (8, 0), ""),
            answers(Act::Frame("0007 8101 0101 000000"), (8, 9), ""),
            answers(Call::Host(&[0; 491]), (8, 491), ""),
            answers(Call::Host(&[0; 512]), (8, 512), ""),
        ],
    )?;
    assert_eq!(rt; counts, (0, 0));
    Ok(())
}

// A frame of 490 bytes is taken: session 0, function 0 of stream 0, so 20.
#[test]
fn longest_frame(rt: HostRuntime) -> Result<(), Fail> {
    let counts = run(
        &rt,
        SETTINGS,
        Stage::Ready,
        &[
            // S9,F1: the header of the frame at fault
            answers(
                Call::Host(&[0; 490]),
                (20, 0),
                "00000016 0007 0901 0000 00000004 210a 0000 0000 0000 00000000",
            ),
        ],
    )?;
    assert_eq!(rt; counts, (0, 0));
    Ok(())
}

// Header byte 4 or 5 not zero: 9 with the earlier place, even in DISABLED.
#[test]
fn header_bytes(rt: HostRuntime) -> Result<(), Fail> {
    let counts = run(
        &rt,
        SETTINGS,
        Stage::Started,
        &[
            answers(Act::Frame("0007 8101 0100 00000001"), (9, 4), ""),
            answers(Act::Frame("0007 8101 0001 00000001"), (9, 5), ""),
            answers(Act::Frame("0008 8301 ff80 00000001"), (9, 4), ""),
        ],
    )?;
    assert_eq!(rt; counts, (0, 0));
    Ok(())
}

// An equipment that was started on stores of these capacities answers every call with 1.
fn answers_unfit(rt: &(impl Abort + AllocGlobal), capacities: (usize, usize)) -> Result<(), Fail> {
    let counts = run_with(
        rt,
        capacities,
        SETTINGS,
        Stage::Started,
        &[
            answers(Act::Frame(""), (1, 0), ""),
            answers(Call::Switch(1), (1, 0), ""),
            answers(Call::Expiry(9), (1, 0), ""),
            answers(Call::Failure, (1, 0), ""),
            answers(Call::Sample(1, Sample::Whole(1)), (1, 0), ""),
            answers(Call::Alarm(1, true), (1, 0), ""),
            answers(Call::Pump, (1, 0), ""),
            answers(Call::Power, (1, 0), ""),
        ],
    )?;
    assert_eq!(rt; counts, (0, 0));
    Ok(())
}

#[test]
fn unfit(rt: HostRuntime) -> Result<(), Fail> {
    answers_unfit(&rt, (9, 2))
}

#[test]
fn unfit_spool(rt: HostRuntime) -> Result<(), Fail> {
    answers_unfit(&rt, (2, 0))
}
