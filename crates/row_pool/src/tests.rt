use crate::{Pool, Ticket};
use std::test::Fail;

#[test]
fn texts_take_whole_blocks(rt: HostRuntime) -> Result<(), Fail> {
    let mut pool = Pool::new(rt.alloc());
    pool.reserve(4)?;
    let empty = pool.put(&[]);
    assert_eq!(rt; pool.used(), 1);
    let full = pool.put(&[1; 64]);
    assert_eq!(rt; pool.used(), 2);
    let longer = pool.put(&[2; 65]);
    assert_eq!(rt; pool.used(), 4);
    pool.free(full);
    pool.free(longer);
    pool.free(empty);
    assert_eq!(rt; pool.used(), 0);
    Ok(())
}

#[test]
fn a_text_is_given_back(rt: HostRuntime) -> Result<(), Fail> {
    let mut text = [0; 66];
    for i in 0..66 {
        text[i] = i as u8;
    }
    let mut pool = Pool::new(rt.alloc());
    pool.reserve(2)?;
    let spare = pool.spare();
    let ticket = pool.put(&text);
    assert_eq!(rt; (pool.used(), pool.spare() + 2), (2, spare));
    assert_eq!(rt; pool.len_of(&ticket), 66);
    let mut copy = [0; 66];
    pool.get(&ticket, &mut copy);
    assert_eq!(rt; copy, text);
    pool.free(ticket);
    assert_eq!(rt; (pool.used(), pool.spare()), (0, spare));
    Ok(())
}
