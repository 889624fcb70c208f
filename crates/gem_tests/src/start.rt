// Setups and the start.
use crate::driver::{Lent, SETTINGS, ended, slots, started};
use gem::equipment::{Call, Equipment};
use gem::start;
use lines::line::Line;
use setup::plan::Setup;
use std::alloc::{AllocError, Global};
use std::process::Abort;
use std::test::Fail;
use store::Store;
use store::report::Report;
use store::ring::Ring;
use zone::variable::{Bounds, Kind, Sample};

// Alarms: number 1 to 32, category 0 to 127, each number once; else 10 with the number.
#[test]
fn alarms(rt: HostRuntime) {
    let mut setup = Setup::new();
    assert_eq!(rt; setup.add_alarm(0, 1), (10, 0));
    assert_eq!(rt; setup.add_alarm(33, 1), (10, 33));
    assert_eq!(rt; setup.add_alarm(4294967295, 1), (10, 4294967295));
    assert_eq!(rt; setup.add_alarm(1, 128), (10, 1));
    assert_eq!(rt; setup.add_alarm(1, 127), (0, 0));
    assert_eq!(rt; setup.add_alarm(1, 5), (10, 1));
    assert_eq!(rt; setup.add_alarm(32, 0), (0, 0));
}

// Variables: number 1 to 32, each once; else 10 with the number.
#[test]
fn variables(rt: HostRuntime) {
    let mut setup = Setup::new();
    assert_eq!(rt; setup.add_variable(0, Kind::Whole), (10, 0));
    assert_eq!(rt; setup.add_variable(33, Kind::Real), (10, 33));
    assert_eq!(rt; setup.add_variable(32, Kind::Real), (0, 0));
    assert_eq!(rt; setup.add_variable(32, Kind::Whole), (10, 32));
    assert_eq!(rt; setup.add_variable(1, Kind::Whole), (0, 0));
}

// A band of an unknown variable, out of 1 to 7 or taken: 10 with the band number, before its bounds are looked at.
#[test]
fn band_numbers(rt: HostRuntime) {
    let good = Bounds::Whole { lower: 1, upper: 1 };
    let bad = Bounds::Whole { lower: 2, upper: 1 };
    let mut setup = Setup::new();
    assert_eq!(rt; setup.add_variable(1, Kind::Whole), (0, 0));
    assert_eq!(rt; setup.add_band(2, 3, good), (10, 3));
    assert_eq!(rt; setup.add_band(0, 3, bad), (10, 3));
    assert_eq!(rt; setup.add_band(1, 0, good), (10, 0));
    assert_eq!(rt; setup.add_band(1, 8, bad), (10, 8));
    assert_eq!(rt; setup.add_band(1, 7, good), (0, 0));
    assert_eq!(rt; setup.add_band(1, 7, bad), (10, 7));
}

// Bounds of the other kind, not a number, or lower above upper: 11 with the band number.
#[test]
fn band_bounds(rt: HostRuntime) {
    let whole = Bounds::Whole { lower: 2, upper: 1 };
    let real = Bounds::Real {
        lower: f32::NAN,
        upper: 1.0,
    };
    let mut setup = Setup::new();
    assert_eq!(rt; setup.add_variable(1, Kind::Whole), (0, 0));
    assert_eq!(rt; setup.add_variable(2, Kind::Real), (0, 0));
    assert_eq!(rt; setup.add_band(1, 3, whole), (11, 3));
    assert_eq!(rt; setup.add_band(1, 4, real), (11, 4));
    assert_eq!(rt; setup.add_band(2, 5, whole), (11, 5));
    assert_eq!(rt; setup.add_band(2, 6, real), (11, 6));
    assert_eq!(rt;
        setup.add_band(
            2,
            6,
            Bounds::Real {
                lower: 1.0,
                upper: 1.0,
            },
        ),
        (0, 0)
    );
}

// Puts reports of the numbers from 0 on.
fn fill(ring: &mut Ring, count: u32) {
    for number in 0..count {
        let _ = ring.put(Report {
            number,
            stream: 6,
            function: 11,
            body: b"",
        });
    }
}

// What the check says of a queue and a spool of these capacities that hold so many reports.
fn checked(
    heap: Global,
    capacities: (usize, usize),
    held: (u32, u32),
) -> Result<(u8, usize), Fail> {
    let first = slots(heap, capacities.0)?;
    let second = slots(heap, capacities.1)?;
    let mut queue = Ring::new(first);
    let mut spool = Ring::new(second);
    fill(&mut queue, held.0);
    fill(&mut spool, held.1);
    let answer = start::check(&queue, &spool);
    queue.into_slots();
    spool.into_slots();
    Ok(answer)
}

// A queue of 1 to 8 and a spool of 1 to 60,000 are fit; detail 0 in any case.
#[test]
fn capacities(rt: HostRuntime) -> Result<(), Fail> {
    let heap = rt.alloc();
    assert_eq!(rt; checked(heap, (0, 1), (0, 0))?, (1, 0));
    assert_eq!(rt; checked(heap, (1, 1), (0, 0))?, (0, 0));
    assert_eq!(rt; checked(heap, (8, 1), (0, 0))?, (0, 0));
    assert_eq!(rt; checked(heap, (9, 1), (0, 0))?, (1, 0));
    assert_eq!(rt; checked(heap, (1, 0), (0, 0))?, (1, 0));
    assert_eq!(rt; checked(heap, (1, 60_000), (0, 0))?, (0, 0));
    assert_eq!(rt; checked(heap, (1, 60_001), (0, 0))?, (1, 0));
    Ok(())
}

// A store that holds a report is unfit (put refuses the number 0, so two puts store one).
#[test]
fn stores_in_use(rt: HostRuntime) -> Result<(), Fail> {
    let heap = rt.alloc();
    assert_eq!(rt; checked(heap, (2, 2), (1, 1))?, (0, 0));
    assert_eq!(rt; checked(heap, (2, 2), (2, 0))?, (1, 0));
    assert_eq!(rt; checked(heap, (2, 2), (0, 2))?, (1, 0));
    Ok(())
}

// What a call answers: code, detail, bytes and lines.
type Answer = (u8, usize, usize, usize);

// Moves a switch of an equipment just started, with a queue of a capacity, lending so many bytes and lines; answers
// what it answers, and whether bytes and lines are as they were.
fn switched(
    rt: &(impl Abort + AllocGlobal),
    capacity: usize,
    room: (usize, usize),
    number: u32,
) -> Result<(Answer, bool), Fail> {
    let (bytes, lines) = room;
    assert!(rt; bytes <= 512);
    assert!(rt; lines <= 32);
    let mut equipment = started(rt.alloc(), (capacity, 2), SETTINGS)?;
    let mut lent = Lent::marked();
    let answer = equipment.switch(number, &mut lent.out[..bytes], &mut lent.ledger[..lines]);
    ended(equipment);
    Ok((answer, lent.holds(&[], &[])))
}

// Unfit is 1 before a short output buffer is 2, a short ledger is 3 and an unknown switch is 5; none writes.
#[test]
fn order_of_refusals(rt: HostRuntime) -> Result<(), Fail> {
    assert_eq!(rt; switched(&rt, 0, (511, 31), 9)?, ((1, 0, 0, 0), true));
    assert_eq!(rt; switched(&rt, 2, (511, 31), 9)?, ((2, 511, 0, 0), true));
    assert_eq!(rt; switched(&rt, 2, (0, 32), 1)?, ((2, 0, 0, 0), true));
    assert_eq!(rt; switched(&rt, 2, (512, 31), 9)?, ((3, 31, 0, 0), true));
    assert_eq!(rt; switched(&rt, 2, (512, 0), 1)?, ((3, 0, 0, 0), true));
    assert_eq!(rt; switched(&rt, 2, (512, 32), 9)?, ((5, 9, 0, 0), true));
    assert_eq!(rt; switched(&rt, 2, (512, 32), 1)?, ((0, 0, 32, 0), false));
    Ok(())
}

// Two equipments that are taken through the same calls, one by values and one by names.
#[derive(Drop)]
struct Pair<'a, R> {
    rt: &'a R,
    by_value: &'a mut Equipment<Ring, Ring>,
    by_name: &'a mut Equipment<Ring, Ring>,
}

impl<R: Abort> Pair<'_, R> {
    fn take<F>(&mut self, call: Call<'_>, named: F, expected: Answer)
    where
        F: FnOnce(&mut Equipment<Ring, Ring>, &mut [u8], &mut [Line]) -> Answer,
        requires { F.IsAlwaysCallable named }
    {
        let mut first = Lent::marked();
        let mut second = Lent::marked();
        let answer = self.by_value.call(call, &mut first.out, &mut first.ledger);
        assert_eq!(self.rt; answer, expected);
        let answer = named(self.by_name, &mut second.out, &mut second.ledger);
        assert_eq!(self.rt; answer, expected);
        assert!(self.rt; first == second);
    }

    fn take_refused(&mut self) {
        self.take(
            Call::Host(b"1234567"),
            |e, out, ledger| e.host(b"1234567", out, ledger),
            (8, 7, 0, 0),
        );
        self.take(
            Call::Switch(9),
            |e, out, ledger| e.switch(9, out, ledger),
            (5, 9, 0, 0),
        );
        self.take(
            Call::Expiry(8),
            |e, out, ledger| e.expiry(8, out, ledger),
            (5, 8, 0, 0),
        );
        let sample = Sample::Whole(1);
        self.take(
            Call::Sample(6, sample),
            |e, out, ledger| e.sample(6, sample, out, ledger),
            (5, 6, 0, 0),
        );
        self.take(
            Call::Alarm(5, true),
            |e, out, ledger| e.alarm(5, true, out, ledger),
            (5, 5, 0, 0),
        );
    }

    fn take_done(&mut self) {
        self.take(
            Call::Pump,
            |e, out, ledger| e.pump(out, ledger),
            (0, 0, 0, 0),
        );
        self.take(
            Call::Switch(1),
            |e, out, ledger| e.switch(1, out, ledger),
            (0, 0, 32, 0),
        );
        self.take(
            Call::Failure,
            |e, out, ledger| e.failure(out, ledger),
            (0, 0, 0, 0),
        );
        self.take(
            Call::Expiry(1),
            |e, out, ledger| e.expiry(1, out, ledger),
            (0, 0, 32, 0),
        );
        self.take(
            Call::Power,
            |e, out, ledger| e.power(out, ledger),
            (0, 0, 0, 0),
        );
        // Power has set communications to DISABLED, so ENABLE sends S1,F13.
        self.take(
            Call::Switch(1),
            |e, out, ledger| e.switch(1, out, ledger),
            (0, 0, 32, 0),
        );
    }
}

// Takes an equipment through the calls by values, and another one by names.
fn take_both(
    rt: &(impl Abort + AllocGlobal),
    by_value: &mut Equipment<Ring, Ring>,
) -> Result<(), AllocError> {
    let mut by_name = started(rt.alloc(), (8, 1), SETTINGS)?;
    let mut pair = Pair {
        rt,
        by_value,
        by_name: &mut by_name,
    };
    pair.take_refused();
    pair.take_done();
    ended(by_name);
    Ok(())
}

// A call as a value does what the call of its name does.
#[test]
fn calls_as_values(rt: HostRuntime) -> Result<(), Fail> {
    let mut equipment = started(rt.alloc(), (8, 1), SETTINGS)?;
    let result = take_both(&rt, &mut equipment);
    ended(equipment);
    result?;
    Ok(())
}
