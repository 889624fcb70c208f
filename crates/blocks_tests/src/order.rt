// Reports by number, whatever the order of their blocks.
use crate::sample::{block, pair, put};
use blocks::block_store::BlockStore;
use std::test::Fail;
use store::Store;
use store::answers::{Copied, answer_number};
use store::report::Report;

#[test]
fn oldest_first_in_any_block(rt: HostRuntime) -> Result<(), Fail> {
    let mut bytes = pair(rt.alloc(), block(5), block(3))?;
    bytes.extend_from_slice(&block(9))?;
    let mut store = BlockStore::new(bytes);
    assert_eq!(rt; store.count(), 3);
    for number in [3, 5, 9] {
        assert_eq!(rt; store.oldest(), Some(number));
        store.remove();
    }
    assert_eq!(rt; store.oldest(), None);
    assert_eq!(rt; store.count(), 0);
    assert!(rt; store.into_bytes() == vec![in rt.alloc(); 0; 1536]?);
    Ok(())
}

#[test]
fn a_put_takes_the_first_free_block(rt: HostRuntime) -> Result<(), Fail> {
    let mut bytes = pair(rt.alloc(), block(5), block(3))?;
    bytes.extend_from_slice(&block(9))?;
    let mut store = BlockStore::new(bytes);
    store.remove();
    store.remove();
    let puts: [(u32, &[u8], u8); 4] = [
        (9, &[], 2),
        (10, &[0xa5, 10, 0x5a], 0),
        (11, &[0xa5, 11, 0x5a], 0),
        (12, &[], 1),
    ];
    for (number, body, answer) in puts {
        assert_eq!(rt; put(&mut store, number, body), answer);
    }
    let mut after = pair(rt.alloc(), block(10), block(11))?;
    after.extend_from_slice(&block(9))?;
    assert!(rt; store.into_bytes() == after);
    Ok(())
}

#[test]
fn a_read_copies_the_oldest(rt: HostRuntime) -> Result<(), Fail> {
    let store = BlockStore::new(pair(rt.alloc(), block(5), block(3))?);
    let mut short = [7; 479];
    assert!(rt; store.read(&mut short).is_none());
    assert!(rt; short == [7; 479]);
    let mut buffer = [7; 480];
    let copied = store.read(&mut buffer).ok_or("nothing was read")?;
    let expected = Copied {
        number: 3,
        stream: 6,
        function: 11,
        length: 3,
    };
    assert_eq!(rt; copied, expected);
    assert!(rt; buffer[0..3] == [0xa5, 3, 0x5a]);
    assert!(rt; buffer[3..480] == [7; 477]);
    assert_eq!(rt; store.count(), 2);
    Ok(())
}

#[test]
fn a_store_from_the_bytes_given_back(rt: HostRuntime) -> Result<(), Fail> {
    let mut store = BlockStore::new(vec![in rt.alloc(); 0; 2048]?);
    for number in 1..5 {
        assert_eq!(rt; put(&mut store, number, &[1, 2]), 0);
    }
    store.remove();
    let alarm = Report {
        number: 5,
        stream: 5,
        function: 1,
        body: &[3],
    };
    assert_eq!(rt; answer_number(store.put(alarm)), 0);
    let mut again = BlockStore::new(store.into_bytes());
    assert_eq!(rt; again.capacity(), 4);
    for number in 2..6 {
        assert_eq!(rt; again.oldest(), Some(number));
        again.remove();
    }
    assert_eq!(rt; again.count(), 0);
    Ok(())
}
