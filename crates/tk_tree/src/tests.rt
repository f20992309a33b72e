use super::*;
use std::test::Fail;
use tk_model::{Bytes, Pair, PairList};

#[test]
fn a_short_leaf_is_one_part(rt: HostRuntime) -> Result<(), Fail> {
    let alloc = rt.alloc();
    let mut parts = LeafPartList::new(alloc);
    let key = Bytes::from_slice(alloc, b"k")?;
    let next = split_leaf(alloc, 3, key, PairList::new(alloc), 9, &mut parts)?;
    assert_eq!(rt; next, Some(9));
    assert_eq!(rt; parts.len(), 1);
    assert_eq!(rt; parts.as_slice()[0].number, 3);
    assert!(rt; parts.as_slice()[0].pairs.is_empty());
    Ok(())
}

#[test]
fn a_long_leaf_is_split(rt: HostRuntime) -> Result<(), Fail> {
    let alloc = rt.alloc();
    let mut value = Bytes::new(alloc);
    value.extend_zeros(1500)?;
    let first = Pair {
        key: Bytes::from_slice(alloc, b"a")?,
        value: value.clone()?,
    };
    let second = Pair {
        key: Bytes::from_slice(alloc, b"b")?,
        value,
    };
    let mut pairs = PairList::new(alloc);
    pairs.push(first)?;
    pairs.push(second)?;
    let mut parts = LeafPartList::new(alloc);
    let next = split_leaf(alloc, 3, Bytes::new(alloc), pairs, 9, &mut parts)?;
    assert_eq!(rt; next, Some(10));
    assert_eq!(rt; parts.len(), 2);
    assert_eq!(rt; parts.as_slice()[0].number, 3);
    assert_eq!(rt; parts.as_slice()[1].number, 9);
    assert_eq!(rt; parts.as_slice()[1].key.as_slice(), b"b".as_slice());
    Ok(())
}
