// One event report from its making to its end, with each part of the library called by hand.
use crate::frames_of_host::{frame, primary, reply_to};
use crate::show;
use bodies::body::Body;
use frames::frame::{split_frame, write_frame};
use frames::header::Header;
use host::answers::answers_primary;
use lines::line::{Letter, Line};
use store::Store;
use store::answers::answer_number;
use store::oldest::read_oldest;
use store::record::Record;
use store::report::{BODY_LIMIT, Report};
use store::ring::Ring;

// A queue whose reports we send and remove ourselves.
#[derive(Drop)]
struct QueueByHand<'a> {
    rt: &'a HostRuntime,
    queue: &'a mut Ring,
}

impl QueueByHand<'_> {
    // Makes report 1 of event 3 and puts it into the queue.
    fn make(&mut self) -> anyhow::Result<()> {
        let rt = self.rt;
        let body = Body::Event {
            report: 1,
            event: 3,
        }
        .bytes();
        let made = Line {
            letter: Letter::Made,
            number: 1,
        };
        println!(rt; "An event report is made")?;
        show::line(rt, made)?;
        let report = Report {
            number: made.number,
            stream: 6,
            function: 11,
            body: &body,
        };
        let answer = answer_number(self.queue.put(report));
        println!(rt; "The queue takes it: put answers {answer}")?;
        Ok(())
    }

    // Reads the oldest report of the queue and sends it with a header.
    fn send(&self, header: Header) -> anyhow::Result<()> {
        let rt = self.rt;
        let mut body = [0; BODY_LIMIT];
        let Some(report) = read_oldest(&*self.queue, &mut body) else {
            return Ok(());
        };
        let mut out = [0; 512];
        let end = write_frame(&mut out, 0, header, report.body);
        if let Some(sent @ [_, _, _, _, frame @ ..]) = end.and_then(|end| out.get(..end)) {
            let transaction = header.transaction;
            println!(rt; "It is read from the queue and sent with transaction {transaction}")?;
            show::hex(rt, sent)?;
            show::text(rt, frame)?;
        }
        Ok(())
    }

    // Takes a reply of the host: one that answers the report removes it.
    fn take(&mut self, reply: Header) -> anyhow::Result<()> {
        let rt = self.rt;
        let bytes = frame(rt.alloc(), reply, &Body::Acknowledge(0).bytes())?;
        let transaction = reply.transaction;
        println!(rt; "The host replies to transaction {transaction}")?;
        show::text(rt, &bytes)?;
        let Some(parts) = split_frame(&bytes) else {
            return Ok(());
        };
        if !answers_primary(parts.header, 6, 11, 1) {
            println!(rt; "    it answers no report of ours: nothing is removed")?;
            return Ok(());
        }
        if let Some(number) = self.queue.oldest() {
            let ended = Line {
                letter: Letter::Acknowledged,
                number,
            };
            self.queue.remove();
            show::line(rt, ended)?;
        }
        Ok(())
    }

    fn tell_count(&self) -> anyhow::Result<()> {
        let count = self.queue.count();
        println!(self.rt; "    the queue holds {count}")?;
        Ok(())
    }

    // The report from its making to its end; a reply to another transaction comes first.
    fn follow(&mut self) -> anyhow::Result<()> {
        let ours = primary(6, 11, 1);
        let good = reply_to(ours);
        let wrong = Header {
            transaction: 9,
            ..good
        };
        self.make()?;
        self.send(ours)?;
        self.take(wrong)?;
        self.tell_count()?;
        self.take(good)?;
        self.tell_count()
    }
}

pub fn one_report(rt: &HostRuntime) -> anyhow::Result<()> {
    println!(rt; "== One report by hand ==")?;
    let slots = vec![in rt.alloc(); Record::blank(); 2]?;
    let mut queue = Ring::new(slots);
    let mut by_hand = QueueByHand {
        rt,
        queue: &mut queue,
    };
    let result = by_hand.follow();
    queue.into_slots();
    result
}
