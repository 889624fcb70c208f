// One table of steps, run over both makes of store.
#![tactic(auto)]

#[cfg(test)]
mod tests {
    use blocks::block_store::BlockStore;
    use replay::steps::{Step, put_and_read, replay};
    use std::process::Abort;
    use std::test::Fail;
    use store::Store;
    use store::answers::answer_number;
    use store::record::Record;
    use store::report::Report;
    use store::ring::Ring;

    // number, answer of put, count after it
    const ROWS: [(u32, u8, usize); 7] = [
        (0, 3, 0),
        (7, 0, 1),
        (7, 2, 1),
        (6, 2, 1),
        (8, 0, 2),
        (9, 1, 2),
        (8, 2, 2),
    ];

    // An S6,F11 report.
    fn event(number: u32, body: &[u8]) -> Report<'_> {
        Report {
            number,
            stream: 6,
            function: 11,
            body,
        }
    }

    // The table on an empty store of capacity 2, then removals down to nothing.
    fn table<S: Store>(rt: &impl Abort, store: &mut S) {
        assert_eq!(rt; store.oldest(), None);
        for (number, answer, count) in ROWS {
            assert_eq!(rt; answer_number(store.put(event(number, b"body"))), answer);
            assert_eq!(rt; store.count(), count);
        }
        assert_eq!(rt; store.oldest(), Some(7));
        store.remove();
        assert_eq!(rt; store.oldest(), Some(8));
        store.remove();
        store.remove();
        assert_eq!(rt; store.count(), 0);
        assert_eq!(rt; store.capacity(), 2);
    }

    // Capacity 1 holding 7: put 7 answers 2, put 8 answers 1.
    fn edge<S: Store>(rt: &impl Abort, store: &mut S) {
        for (number, answer) in [(7, 0), (7, 2), (8, 1)] {
            assert_eq!(rt; answer_number(store.put(event(number, b""))), answer);
        }
    }

    // More steps than places, so that a ring wraps, and a report that is read back.
    fn wrapped<S: Store>(rt: &impl Abort, store: &mut S) {
        let steps = [
            Step::Put(event(1, b"a")),
            Step::Put(event(2, b"b")),
            Step::Remove,
            Step::Put(event(3, b"c")),
            Step::Remove,
        ];
        replay(store, &steps);
        assert_eq!(rt; store.oldest(), Some(3));
        let mut buffer = [1u8; 480];
        let alarm = Report {
            number: 4,
            stream: 5,
            function: 1,
            body: b"wet",
        };
        let copied = put_and_read(store, alarm, &mut buffer);
        assert_eq!(rt; copied.is_some(), true);
        assert_eq!(rt; buffer[0], b'w');
        assert_eq!(rt; buffer[2], b't');
        assert_eq!(rt; buffer[3], 1);
        assert_eq!(rt; store.count(), 1);
    }

    #[test]
    fn ring_table(rt: HostRuntime) -> Result<(), Fail> {
        let mut ring = Ring::new(vec![in rt.alloc(); Record::blank(); 2]?);
        table(&rt, &mut ring);
        let _ = ring.into_slots();
        Ok(())
    }

    #[test]
    fn ring_edge(rt: HostRuntime) -> Result<(), Fail> {
        let mut ring = Ring::new(vec![in rt.alloc(); Record::blank(); 1]?);
        edge(&rt, &mut ring);
        let _ = ring.into_slots();
        Ok(())
    }

    #[test]
    fn ring_wraps(rt: HostRuntime) -> Result<(), Fail> {
        let mut ring = Ring::new(vec![in rt.alloc(); Record::blank(); 2]?);
        wrapped(&rt, &mut ring);
        let _ = ring.into_slots();
        Ok(())
    }

    #[test]
    fn blocks_table(rt: HostRuntime) -> Result<(), Fail> {
        let mut blocks = BlockStore::new(vec![in rt.alloc(); 0; 1024]?);
        table(&rt, &mut blocks);
        Ok(())
    }

    #[test]
    fn blocks_edge(rt: HostRuntime) -> Result<(), Fail> {
        let mut blocks = BlockStore::new(vec![in rt.alloc(); 0; 512]?);
        edge(&rt, &mut blocks);
        Ok(())
    }

    #[test]
    fn blocks_wrap(rt: HostRuntime) -> Result<(), Fail> {
        let mut blocks = BlockStore::new(vec![in rt.alloc(); 0; 1024]?);
        wrapped(&rt, &mut blocks);
        Ok(())
    }
}
