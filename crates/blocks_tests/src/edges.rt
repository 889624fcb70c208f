// Answers and bytes at the edges.
use crate::sample::{block, pair, put};
use blocks::block_store::BlockStore;
use std::test::Fail;
use store::Store;
use store::answers::{Copied, answer_number};
use store::report::Report;

#[test]
fn the_block_of_number_1(rt: HostRuntime) -> Result<(), Fail> {
    let mut store = BlockStore::new(vec![in rt.alloc(); 0; 512]?);
    assert_eq!(rt; put(&mut store, 1, &[]), 0);
    let mut expected = [0; 512];
    expected[3] = 1;
    expected[4] = 6;
    expected[5] = 11;
    expected[511] = 0x12;
    assert!(rt; store.into_bytes().as_slice() == expected.as_slice());
    Ok(())
}

#[test]
fn the_block_of_a_body(rt: HostRuntime) -> Result<(), Fail> {
    let mut store = BlockStore::new(vec![in rt.alloc(); 0; 1024]?);
    assert_eq!(rt; put(&mut store, 200, &[0xa5, 200, 0x5a]), 0);
    assert!(rt; store.into_bytes() == pair(rt.alloc(), block(200), [0; 512])?);
    Ok(())
}

#[test]
fn capacity_1_holding_7(rt: HostRuntime) -> Result<(), Fail> {
    let mut store = BlockStore::new(block(7).to_vec(rt.alloc())?);
    assert_eq!(rt; store.capacity(), 1);
    let puts: [(u32, &[u8], u8); 5] = [
        (7, &[], 2),
        (8, &[], 1),
        (0, &[], 3),
        (7, &[0; 481], 3),
        (8, &[0; 480], 1),
    ];
    for (number, body, answer) in puts {
        assert_eq!(rt; put(&mut store, number, body), answer);
    }
    assert_eq!(rt; store.oldest(), Some(7));
    assert!(rt; store.into_bytes().as_slice() == block(7).as_slice());
    Ok(())
}

#[test]
fn capacity_0(rt: HostRuntime) -> Result<(), Fail> {
    let mut none = BlockStore::new(vec![in rt.alloc(); 0; 511]?);
    assert_eq!(rt; none.capacity(), 0);
    assert_eq!(rt; put(&mut none, 1, &[]), 1);
    assert_eq!(rt; put(&mut none, 0, &[]), 3);
    assert_eq!(rt; none.count(), 0);
    assert!(rt; none.into_bytes() == vec![in rt.alloc(); 0; 511]?);
    Ok(())
}

#[test]
fn a_partial_block_at_the_end(rt: HostRuntime) -> Result<(), Fail> {
    let mut bytes = block(7).to_vec(rt.alloc())?;
    bytes.extend_from_slice(&[0xff; 511])?;
    let mut after = [0; 512].to_vec(rt.alloc())?;
    after.extend_from_slice(&[0xff; 511])?;
    let mut store = BlockStore::new(bytes);
    assert_eq!(rt; store.capacity(), 1);
    assert_eq!(rt; store.count(), 1);
    assert_eq!(rt; put(&mut store, 8, &[]), 1);
    store.remove();
    assert!(rt; store.into_bytes() == after);
    Ok(())
}

#[test]
fn the_highest_number_and_the_longest_body(rt: HostRuntime) -> Result<(), Fail> {
    let mut store = BlockStore::new(vec![in rt.alloc(); 0; 512]?);
    let highest = Report {
        number: u32::MAX,
        stream: 127,
        function: 255,
        body: &[0xff; 480],
    };
    assert_eq!(rt; answer_number(store.put(highest)), 0);
    assert_eq!(rt; store.oldest(), Some(u32::MAX));
    let mut buffer = [0; 481];
    let copied = store.read(&mut buffer).ok_or("nothing was read")?;
    let expected = Copied {
        number: u32::MAX,
        stream: 127,
        function: 255,
        length: 480,
    };
    assert_eq!(rt; copied, expected);
    assert!(rt; buffer[0..480] == [0xff; 480] && buffer[480] == 0);
    Ok(())
}
