ghost use Rattle.std.specs.Prelude.{◌≡◌, ◌≤◌, ◌<◌, ◌^◌, length, IfOk};
ghost use Rattle.tk_block.specs.Blocks.{IsSmall, key_of, value_of};

use super::*;
use std::alloc::Global;
use std::test::Fail;
use tk_block::{Block, StaticHead, write_block, write_static};
use tk_model::{Bytes, Change, ChangeList, Group, NoMemory, Order, Pair, PlainMap, value_at};

/// A put of a key of one byte and a value of so many.
fn put(alloc: Global, key: u8, size: u8) -> Result<Change, NoMemory>
    ensures { IfOk result (λ c. IsSmall (key_of c) (value_of c)) }
{
    let key = Bytes::from_slice(alloc, &[key])?;
    let value = Bytes::from_slice(alloc, &[size; 250][..(size as usize).min(250)])?;
    Ok(Change::Put(Pair { key, value }))
}

fn remove(alloc: Global, key: u8) -> Result<Change, NoMemory>
    ensures { IfOk result (λ c. IsSmall (key_of c) (value_of c)) }
{
    Ok(Change::Drop(Bytes::from_slice(alloc, &[key])?))
}

/// Makes a change of the blocks, if they don't end too far behind.
fn step(
    alloc: Global,
    blocks: &mut PlainBlocks,
    number: u64,
    change: Change,
) -> Result<bool, NoMemory>
    requires { IsSmall (key_of change) (value_of change) }
{
    if blocks.end() > 1_000_000 {
        return Ok(false);
    }
    let mut changes = ChangeList::new(alloc);
    changes.push(change)?;
    blocks.apply(alloc, &Group { number, changes })?;
    Ok(true)
}

fn is_at(block: &PlainBlock, place: u64, extent: u64, kind: u8, number: u64) -> bool {
    block.place() == place
        && block.extent() == extent
        && block.body().kind == kind
        && block.body().number == number
}

#[test]
fn a_put_that_does_not_fit_leaves_one_void(rt: HostRuntime) -> Result<(), Fail> {
    let alloc = rt.alloc();
    let mut blocks = PlainBlocks::new(alloc, 72);
    assert!(rt; step(alloc, &mut blocks, 1, put(alloc, b'a', 10)?)?);
    assert!(rt; step(alloc, &mut blocks, 2, put(alloc, b'a', 100)?)?);
    match blocks.blocks().as_slice() {
        [one, two] => {
            assert!(rt; is_at(one, 72, 56, 3, 2));
            assert!(rt; is_at(two, 128, 152, 1, 2));
        }
        _ => assert!(rt; false),
    }
    // A smaller block uses the void again, and fits there once more.
    assert!(rt; step(alloc, &mut blocks, 3, put(alloc, b'b', 3)?)?);
    assert!(rt; step(alloc, &mut blocks, 4, put(alloc, b'b', 11)?)?);
    match blocks.blocks().as_slice() {
        [one, two] => {
            assert!(rt; is_at(one, 72, 56, 1, 4));
            assert!(rt; is_at(two, 128, 152, 1, 2));
        }
        _ => assert!(rt; false),
    }
    assert_eq!(rt; blocks.end(), 280);
    Ok(())
}

#[test]
fn voids_by_extent_and_then_by_place(rt: HostRuntime) -> Result<(), Fail> {
    let alloc = rt.alloc();
    let mut blocks = PlainBlocks::new(alloc, 72);
    assert!(rt; step(alloc, &mut blocks, 1, put(alloc, b'a', 100)?)?);
    assert!(rt; step(alloc, &mut blocks, 2, put(alloc, b'b', 10)?)?);
    assert!(rt; step(alloc, &mut blocks, 3, put(alloc, b'c', 10)?)?);
    assert!(rt; step(alloc, &mut blocks, 4, remove(alloc, b'c')?)?);
    assert!(rt; step(alloc, &mut blocks, 5, remove(alloc, b'b')?)?);
    assert!(rt; step(alloc, &mut blocks, 6, remove(alloc, b'a')?)?);
    assert!(rt; step(alloc, &mut blocks, 7, put(alloc, b'd', 5)?)?);
    match blocks.blocks().as_slice() {
        [one, two, three] => {
            assert!(rt; is_at(one, 72, 152, 3, 6));
            assert!(rt; is_at(two, 224, 56, 1, 7));
            assert!(rt; is_at(three, 280, 56, 3, 4));
        }
        _ => assert!(rt; false),
    }
    Ok(())
}

/// The set blocks are the records.
fn agree(blocks: &[PlainBlock], map: &PlainMap) -> bool {
    let mut count = 0u64;
    for block in blocks {
        if block.body().kind == 1 {
            count = count.wrapping_add(1);
            let value = value_at(map.pairs().as_slice(), block.body().key.as_slice());
            if value.map(|v| v.as_slice() == block.body().value.as_slice()) != Some(true) {
                return false;
            }
        }
    }
    count == map.pairs().len() as u64
}

#[test]
fn random_changes_agree_with_the_plain_map(rt: HostRuntime) -> Result<(), Fail> {
    let alloc = rt.alloc();
    let mut blocks = PlainBlocks::new(alloc, 72);
    let mut map = PlainMap::new(alloc, Order::Hash);
    let mut state: u64 = 7;
    for number in 0..2000u64 {
        state = state
            .wrapping_mul(6364136223846793005)
            .wrapping_add(1442695040888963407);
        let key = ((state >> 33) % 40) as u8;
        let size = ((state >> 40) % 200) as u8;
        let change = if state >> 62 == 0 {
            remove(alloc, key)?
        } else {
            put(alloc, key, size)?
        };
        map.apply(&change)?;
        assert!(rt; step(alloc, &mut blocks, number, change)?);
        assert!(rt; agree(blocks.blocks().as_slice(), &map), "after {number}");
    }
    Ok(())
}

/// Puts a set block of the key `k` at the end of an image.
fn add(out: &mut Bytes, number: u64, value: u8) -> Result<(), NoMemory> {
    let block = Block {
        kind: 1,
        last: true,
        number,
        key: b"k",
        value: &[value],
    };
    let place = out.len() as u64;
    write_block(block, place, 0, out)
}

#[test]
fn the_greatest_number_and_the_lowest_place(rt: HostRuntime) -> Result<(), Fail> {
    let alloc = rt.alloc();
    let head = StaticHead {
        kind: 2,
        version: 1,
        p: 0,
        order: 0,
        generation: 0,
    };
    let mut image = Bytes::from_slice(alloc, &write_static(&head))?;
    image.extend_zeros(40)?;
    add(&mut image, 5, b'x')?;
    add(&mut image, 7, b'y')?;
    add(&mut image, 7, b'z')?;
    add(&mut image, 6, b'w')?;
    let pairs = restore_records(alloc, image.as_slice())?;
    match pairs.as_slice() {
        [pair] => assert_eq!(rt; pair.value.as_slice(), b"y".as_slice()),
        _ => assert!(rt; false),
    }
    Ok(())
}
