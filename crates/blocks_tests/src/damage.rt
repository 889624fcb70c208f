// Bytes that no puts and removals leave: the store has capacity 0 and an empty list, and its bytes stay as they are.
use crate::sample::{block, pair, put, sealed};
use blocks::block_store::BlockStore;
use std::process::Abort;
use std::test::Fail;
use store::Store;

// Every question to a broken store, and the bytes after it.
fn check_broken(rt: &impl Abort, bytes: Vec<u8>) -> Result<(), Fail> {
    let before = bytes.clone()?;
    let mut store = BlockStore::new(bytes);
    assert_eq!(rt; store.capacity(), 0);
    assert_eq!(rt; store.count(), 0);
    assert_eq!(rt; store.oldest(), None);
    let mut buffer = [7; 480];
    assert!(rt; store.read(&mut buffer).is_none());
    assert!(rt; buffer == [7; 480]);
    assert_eq!(rt; put(&mut store, 9, &[1]), 1);
    assert_eq!(rt; put(&mut store, 0, &[1]), 3);
    store.remove();
    assert_eq!(rt; store.capacity(), 0);
    assert!(rt; store.into_bytes() == before);
    Ok(())
}

#[test]
fn wrong_check(rt: HostRuntime) -> Result<(), Fail> {
    let mut high = block(1);
    high[510] ^= 1;
    check_broken(&rt, pair(rt.alloc(), block(2), high)?)?;
    let mut low = block(1);
    low[511] ^= 0x80;
    check_broken(&rt, pair(rt.alloc(), low, block(2))?)
}

#[test]
fn length_above_the_limit(rt: HostRuntime) -> Result<(), Fail> {
    let mut longest = block(1);
    longest[6] = 1;
    longest[7] = 0xe0;
    let store = BlockStore::new(pair(rt.alloc(), sealed(longest), [0; 512])?);
    assert_eq!(rt; store.count(), 1);
    let mut above = block(1);
    above[6] = 1;
    above[7] = 0xe1;
    check_broken(&rt, pair(rt.alloc(), sealed(above), [0; 512])?)
}

#[test]
fn bytes_after_the_body(rt: HostRuntime) -> Result<(), Fail> {
    let mut next = block(1);
    next[11] = 1;
    check_broken(&rt, pair(rt.alloc(), [0; 512], sealed(next))?)?;
    let mut last = block(1);
    last[509] = 1;
    check_broken(&rt, pair(rt.alloc(), [0; 512], sealed(last))?)
}

#[test]
fn number_0_but_not_free(rt: HostRuntime) -> Result<(), Fail> {
    check_broken(&rt, pair(rt.alloc(), block(0), block(1))?)?;
    let mut check_alone = [0; 512];
    check_alone[511] = 1;
    check_broken(&rt, pair(rt.alloc(), block(1), check_alone)?)
}

#[test]
fn two_equal_numbers(rt: HostRuntime) -> Result<(), Fail> {
    check_broken(&rt, pair(rt.alloc(), block(4), block(4))?)?;
    let mut other = block(4);
    other[4] = 5;
    check_broken(&rt, pair(rt.alloc(), block(4), sealed(other))?)?;
    let mut apart = pair(rt.alloc(), block(4), [0; 512])?;
    apart.extend_from_slice(&block(4))?;
    check_broken(&rt, apart)
}
