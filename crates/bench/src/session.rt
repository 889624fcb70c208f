// The equipment through its public calls: it connects, goes on-line, reports alarms and samples, loses the link, spools,
// reconnects and unloads the spool.
use crate::frames_of_host::{frame, primary, reply_to, unload_frame};
use crate::show;
use anyhow::Context;
use bodies::body::Body;
use frames::frame::split_frame;
use frames::header::Header;
use gem::equipment::{Call, Equipment};
use gem::start::check;
use lines::line::Line;
use setup::plan::Setup;
use setup::settings::Settings;
use states::control::Fallback;
use store::record::Record;
use store::ring::Ring;
use zone::variable::{Bounds, Kind, Sample};

// The equipment with the buffers that its calls are lent.
#[derive(Drop)]
struct Bench<'a> {
    rt: &'a HostRuntime,
    equipment: &'a mut Equipment<Ring, Ring>,
    out: [u8; 512],
    ledger: [Line; 32],
    // The header of the last frame that was sent.
    last: Option<Header>,
}

impl Bench<'_> {
    // Makes a call, prints what it answers and writes, and keeps the header of the frame that it sends.
    fn call(&mut self, title: &str, call: Call<'_>) -> anyhow::Result<()> {
        let rt = self.rt;
        println!(rt; "{title}")?;
        if let Call::Host(frame) = call {
            show::text(rt, frame)?;
        }
        let answer = self.equipment.call(call, &mut self.out, &mut self.ledger);
        let (code, detail, bytes, lines) = answer;
        println!(rt; "    answer {code} {detail}, {bytes} bytes, {lines} lines")?;
        if let Some(sent @ [_, _, _, _, frame @ ..]) = self.out.get(..bytes) {
            show::hex(rt, sent)?;
            show::text(rt, frame)?;
            self.last = split_frame(frame).map(|parts| parts.header);
        }
        for line in self.ledger.iter().take(lines) {
            show::line(rt, *line)?;
        }
        Ok(())
    }

    // A frame of the host with one of our bodies.
    fn host(&mut self, title: &str, header: Header, body: Body) -> anyhow::Result<()> {
        let bytes = frame(self.rt.alloc(), header, &body.bytes())?;
        self.call(title, Call::Host(&bytes))
    }

    // The header of the host's reply to what was sent last.
    fn reply_header(&self) -> anyhow::Result<Header> {
        let ours = self.last.context("no frame was sent")?;
        Ok(reply_to(ours))
    }

    // The host's reply to what was sent last.
    fn reply(&mut self, title: &str, body: Body) -> anyhow::Result<()> {
        let header = self.reply_header()?;
        self.host(title, header, body)
    }

    fn acknowledge(&mut self) -> anyhow::Result<()> {
        self.reply("The host acknowledges it", Body::Acknowledge(0))
    }

    fn connect(&mut self) -> anyhow::Result<()> {
        self.call("The operator enables communications", Call::Switch(1))?;
        self.reply("The host accepts", Body::Accepted)?;
        self.call("The operator switches on-line", Call::Switch(3))?;
        self.reply("The host is there: control is remote", Body::Identity)?;
        self.call("The report is sent", Call::Pump)?;
        let wrong = Header {
            transaction: 99,
            ..self.reply_header()?
        };
        let title = "The host acknowledges another transaction";
        self.host(title, wrong, Body::Acknowledge(0))?;
        self.acknowledge()
    }

    fn report(&mut self) -> anyhow::Result<()> {
        self.call("Alarm 1 is set", Call::Alarm(1, true))?;
        let above = Call::Sample(1, Sample::Whole(25));
        self.call("Variable 1 is 25: above its band", above)?;
        self.call("The alarm report is sent", Call::Pump)?;
        self.acknowledge()?;
        self.call("The event report is sent", Call::Pump)?;
        self.acknowledge()
    }

    fn spool(&mut self) -> anyhow::Result<()> {
        let title = "The link fails: the queue goes to the spool";
        self.call(title, Call::Failure)?;
        self.call("Alarm 1 is cleared", Call::Alarm(1, false))?;
        self.reply("The host accepts again", Body::Accepted)?;
        self.call("Nothing is sent while the spool waits", Call::Pump)
    }

    // Sends the oldest report of the spool, and the host acknowledges it.
    fn unload_one(&mut self) -> anyhow::Result<()> {
        self.call("A spooled report is sent", Call::Pump)?;
        self.acknowledge()
    }

    fn unload(&mut self) -> anyhow::Result<()> {
        let title = "The host asks for the spool, with a body that is no U1";
        self.host(title, primary(6, 23, 500), Body::Acknowledge(0))?;
        let title = "An expiry that no timer has is refused";
        self.call(title, Call::Expiry(9))?;
        let bytes = unload_frame(self.rt.alloc(), primary(6, 23, 501), 0)?;
        self.call("The host asks for the spool", Call::Host(&bytes))?;
        self.unload_one()?;
        self.unload_one()?;
        self.unload_one()
    }

    // The last spooled report, the end of the spool, and the report of that end.
    fn finish(&mut self) -> anyhow::Result<()> {
        self.unload_one()?;
        self.call("The spool is empty: it becomes inactive", Call::Pump)?;
        self.call("The report of that is sent from the queue", Call::Pump)?;
        self.acknowledge()?;
        self.call("The operator disables communications", Call::Switch(2))
    }

    // The whole run, after the check before the start answered this code.
    fn sitting(&mut self, code: u8) -> anyhow::Result<()> {
        println!(self.rt; "The check before the start answers {code}")?;
        self.connect()?;
        self.report()?;
        self.spool()?;
        self.unload()?;
        self.finish()
    }
}

fn plan() -> Setup {
    let mut plan = Setup::new();
    plan.add_alarm(1, 4);
    plan.add_variable(1, Kind::Whole);
    plan.add_band(
        1,
        1,
        Bounds::Whole {
            lower: 10,
            upper: 20,
        },
    );
    plan
}

const SETTINGS: Settings = Settings {
    session: 7,
    fallback: Fallback::HostOffline,
    overwrite: false,
    max_transmit: 0,
};

pub fn run(rt: &HostRuntime) -> anyhow::Result<()> {
    println!(rt; "== The equipment ==")?;
    let queue_slots = vec![in rt.alloc(); Record::blank(); 4]?;
    let spool_slots = vec![in rt.alloc(); Record::blank(); 10]?;
    let queue = Ring::new(queue_slots);
    let spool = Ring::new(spool_slots);
    let (code, _) = check(&queue, &spool);
    let mut equipment = Equipment::start(plan(), SETTINGS, queue, spool);
    let mut bench = Bench {
        rt,
        equipment: &mut equipment,
        out: [0; 512],
        ledger: [Line::default(); 32],
        last: None,
    };
    let result = bench.sitting(code);
    let (queue, spool) = equipment.into_stores();
    queue.into_slots();
    spool.into_slots();
    result
}
