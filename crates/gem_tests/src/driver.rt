// Runs an equipment step by step and holds each call's whole answer to what the step expects.
use gem::equipment::{Call, Equipment};
use lines::line::{Letter, Line};
use setup::plan::Setup;
use setup::settings::Settings;
use states::control::Fallback;
use std::alloc::{AllocError, Global};
use std::process::Abort;
use std::test::Fail;
use store::Store;
use store::record::Record;
use store::ring::Ring;
use zone::variable::{Bounds, Kind};

// What a step does.
#[derive(Clone, Copy)]
pub(crate) enum Act<'a> {
    // A frame of the host, in hex.
    Frame(&'a str),
    Call(Call<'a>),
}

impl<'a> From<Call<'a>> for Act<'a> {
    fn from(call: Call<'a>) -> Act<'a> {
        Act::Call(call)
    }
}

// A step with what it answers: code, detail, the frame that it sends in hex, and its lines.
#[derive(Clone, Copy)]
pub(crate) struct Step<'a> {
    act: Act<'a>,
    answer: (u8, usize),
    sent: &'a str,
    // By the characters that a ledger shows, so that the tests hold these too.
    lines: &'a [(u8, u32)],
}

// A step that is done.
pub(crate) fn done<'a>(act: impl Into<Act<'a>>, sent: &'a str, lines: &'a [(u8, u32)]) -> Step<'a> {
    Step {
        act: act.into(),
        answer: (0, 0),
        sent,
        lines,
    }
}

// A step with another code, without lines.
pub(crate) fn answers<'a>(act: impl Into<Act<'a>>, answer: (u8, usize), sent: &'a str) -> Step<'a> {
    Step {
        answer,
        ..done(act, sent, &[])
    }
}

// The bytes of a text in hex, in which blanks may stand anywhere.
fn from_hex(heap: Global, text: &str) -> Result<Vec<u8>, AllocError> {
    let digits: Vec<u8> = text
        .chars()
        .filter_map(|c| u8::try_from(c.to_digit(16)?).ok())
        .collect(heap)?;
    let (pairs, _) = digits.as_chunks::<2>();
    pairs
        .iter()
        .map(|[high, low]| high << 4 | low)
        .collect(heap)
}

// Whether these values stand at the front and the mark everywhere after them.
fn are_at_front<T: Copy + PartialEq>(all: &[T], front: &[T], mark: T) -> bool {
    all.strip_prefix(front)
        .is_some_and(|rest| rest.iter().all(|value| *value == mark))
}

const MARK: u8 = 0xee;

const MARKED_LINE: Line = Line {
    letter: Letter::Made,
    number: u32::MAX,
};

// What a call is lent, marked so that it shows what the call leaves as it was.
#[derive(PartialEq, Drop)]
pub(crate) struct Lent {
    pub(crate) out: [u8; 512],
    pub(crate) ledger: [Line; 32],
}

impl Lent {
    pub(crate) fn marked() -> Lent {
        Lent {
            out: [MARK; 512],
            ledger: [MARKED_LINE; 32],
        }
    }

    // Whether a call wrote these bytes and lines and nothing else.
    pub(crate) fn holds(&self, sent: &[u8], lines: &[(u8, u32)]) -> bool {
        let shown = |line: Line| (line.letter.character(), line.number);
        are_at_front(&self.out, sent, MARK)
            && are_at_front(&self.ledger.map(shown), lines, shown(MARKED_LINE))
    }
}

// The memory of a ring.
pub(crate) fn slots(heap: Global, capacity: usize) -> Result<Vec<Record>, AllocError> {
    vec![in heap; Record::blank(); capacity]
}

// Alarms 1 and 32 of categories 4 and 127, whole variable 1 with two bands and real variable 2 with one.
fn plan() -> Setup {
    let mut setup = Setup::new();
    setup.add_alarm(1, 4);
    setup.add_alarm(32, 127);
    setup.add_variable(1, Kind::Whole);
    setup.add_band(
        1,
        1,
        Bounds::Whole {
            lower: 10,
            upper: 20,
        },
    );
    setup.add_band(
        1,
        2,
        Bounds::Whole {
            lower: 15,
            upper: 20,
        },
    );
    setup.add_variable(2, Kind::Real);
    setup.add_band(
        2,
        7,
        Bounds::Real {
            lower: 0.5,
            upper: 1.5,
        },
    );
    setup
}

// Session 7; on failure to go on-line EQUIPMENT OFF-LINE; no overwriting, no maximum.
pub(crate) const SETTINGS: Settings = Settings {
    session: 7,
    fallback: Fallback::EquipmentOffline,
    overwrite: false,
    max_transmit: 0,
};

// The same with the fallback HOST OFF-LINE.
pub(crate) const HOST_FALLBACK: Settings = Settings {
    fallback: Fallback::HostOffline,
    ..SETTINGS
};

// The same with OverWriteSpool.
pub(crate) const OVERWRITE: Settings = Settings {
    overwrite: true,
    ..SETTINGS
};

// The same with MaxSpoolTransmit 1.
pub(crate) const ONE_AT_MOST: Settings = Settings {
    max_transmit: 1,
    ..SETTINGS
};

// How far an equipment is taken before the steps of a test.
#[derive(Clone, Copy, PartialEq, Eq, PartialOrd, Ord)]
pub(crate) enum Stage {
    // Just started.
    Started,
    // COMMUNICATING, after transaction 1.
    Communicating,
    // REMOTE too, after transaction 2; report 1, of event 3, is queued.
    Online,
    // The same with report 1 sent and acknowledged, after transaction 3.
    Ready,
}

// Takes an equipment through steps.
#[derive(Drop)]
struct Driver<'a, R> {
    rt: &'a R,
    heap: Global,
    equipment: &'a mut Equipment<Ring, Ring>,
}

impl<R: Abort> Driver<'_, R> {
    fn take_step(&mut self, i: usize, step: Step<'_>) -> Result<(), AllocError> {
        let mut lent = Lent::marked();
        let answer = match step.act {
            Act::Frame(text) => {
                let frame = from_hex(self.heap, text)?;
                self.equipment.host(&frame, &mut lent.out, &mut lent.ledger)
            }
            Act::Call(call) => self.equipment.call(call, &mut lent.out, &mut lent.ledger),
        };
        let sent = from_hex(self.heap, step.sent)?;
        let (code, detail) = step.answer;
        let expected = (code, detail, sent.len(), step.lines.len());
        assert_eq!(self.rt; answer, expected, "at step {i}");
        assert!(self.rt;
            lent.holds(&sent, step.lines),
            "at step {i}: bytes and lines"
        );
        Ok(())
    }

    fn take_steps(&mut self, steps: &[Step<'_>]) -> Result<(), AllocError> {
        for (i, step) in steps.iter().enumerate() {
            self.take_step(i, *step)?;
        }
        Ok(())
    }

    // ENABLE, and the host accepts.
    fn connect(&mut self) -> Result<(), AllocError> {
        self.take_steps(&[
            // S1,F13 W, transaction 1: L,2 A "BENCH1" A "000001"
            done(
                Call::Switch(1),
                "0000001c 0007 810d 0000 00000001 0102 4106 42454e434831 4106 303030303031",
                &[],
            ),
            // S1,F14: L,2 B 0 L,0
            done(
                Act::Frame("0007 010e 0000 00000001 0102 210100 0100"),
                "",
                &[],
            ),
        ])
    }

    // ONLINE, and the host answers.
    fn go_online(&mut self) -> Result<(), AllocError> {
        self.take_steps(&[
            // S1,F1 W, transaction 2
            done(Call::Switch(3), "0000000a 0007 8101 0000 00000002", &[]),
            // S1,F2
            done(Act::Frame("0007 0102 0000 00000002 0100"), "", &[(b'M', 1)]),
        ])
    }

    // The pump sends report 1, and the host acknowledges it.
    fn send_first(&mut self) -> Result<(), AllocError> {
        self.take_steps(&[
            // S6,F11 W, transaction 3: L,3 U4 1, U4 3, L,0
            done(
                Call::Pump,
                "0000001a 0007 860b 0000 00000003 0103 b10400000001 b10400000003 0100",
                &[],
            ),
            // S6,F12
            done(
                Act::Frame("0007 060c 0000 00000003 210100"),
                "",
                &[(b'A', 1)],
            ),
        ])
    }

    // Takes an equipment that is just started to a stage.
    fn bring(&mut self, stage: Stage) -> Result<(), AllocError> {
        if stage >= Stage::Communicating {
            self.connect()?;
        }
        if stage >= Stage::Online {
            self.go_online()?;
        }
        if stage >= Stage::Ready {
            self.send_first()?;
        }
        Ok(())
    }

    fn bring_and_take(&mut self, stage: Stage, steps: &[Step<'_>]) -> Result<(), AllocError> {
        self.bring(stage)?;
        self.take_steps(steps)
    }
}

// An equipment just started, with a queue and a spool of these capacities.
pub(crate) fn started(
    heap: Global,
    capacities: (usize, usize),
    settings: Settings,
) -> Result<Equipment<Ring, Ring>, AllocError> {
    let first = slots(heap, capacities.0)?;
    let second = slots(heap, capacities.1)?;
    let queue = Ring::new(first);
    let spool = Ring::new(second);
    Ok(Equipment::start(plan(), settings, queue, spool))
}

// Ends an equipment; answers how many reports its queue and its spool hold.
pub(crate) fn ended(equipment: Equipment<Ring, Ring>) -> (usize, usize) {
    let (queue, spool) = equipment.into_stores();
    let counts = (queue.count(), spool.count());
    queue.into_slots();
    spool.into_slots();
    counts
}

// Runs an equipment with a queue and a spool of these capacities; answers how many reports the two hold in the end.
pub(crate) fn run_with(
    rt: &(impl Abort + AllocGlobal),
    capacities: (usize, usize),
    settings: Settings,
    stage: Stage,
    steps: &[Step<'_>],
) -> Result<(usize, usize), Fail> {
    let heap = rt.alloc();
    let mut equipment = started(heap, capacities, settings)?;
    let mut driver = Driver {
        rt,
        heap,
        equipment: &mut equipment,
    };
    let result = driver.bring_and_take(stage, steps);
    let counts = ended(equipment);
    result?;
    Ok(counts)
}

// The same with a queue of 2 and a spool of 2.
pub(crate) fn run(
    rt: &(impl Abort + AllocGlobal),
    settings: Settings,
    stage: Stage,
    steps: &[Step<'_>],
) -> Result<(usize, usize), Fail> {
    run_with(rt, (2, 2), settings, stage, steps)
}
