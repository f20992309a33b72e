use crate::{Bytes, ListOf};

/// A record: a key and its value.
#[derive(Clone, Debug, Drop)]
pub struct Pair {
    pub key: Bytes,
    pub value: Bytes,
}

/// What a group does to one key, or to all.
#[derive(Clone, Debug, Drop)]
pub enum Change {
    Put(Pair),
    Drop(Bytes),
    Clear,
}

/// Changes that are made whole or not at all, under one number.
#[derive(Clone, Debug, Drop)]
pub struct Group {
    pub number: u64,
    pub changes: ChangeList,
}

/// What a record processor answers.
#[derive(Clone, Debug, Drop)]
pub enum Action {
    Keep,
    Put(Bytes),
    Drop,
}

/// A key, the value that stood there, and what was answered.
#[derive(Clone, Debug, Drop)]
pub struct Touch {
    pub key: Bytes,
    pub was: Option<Bytes>,
    pub action: Action,
}

/// The way of a search through the order of keys.
#[derive(Clone, Copy, Debug, PartialEq, Eq)]
pub enum Way {
    Up,
    Down,
}

/// Where a search begins: at the first record of its way, strictly past a key, or at it.
#[derive(Clone, Debug, Drop)]
pub enum Bound {
    Edge,
    Over(Bytes),
    From(Bytes),
}

/// A call of the database, as plain data.
#[derive(Clone, Debug, Drop)]
pub enum Entry {
    Proc(TouchList),
    Next {
        way: Way,
        bound: Bound,
        found: Option<Pair>,
        action: Action,
    },
    Each(TouchList),
    Count(u64),
    Clear,
    Sync(bool),
}

/// The order of a database's keys.
#[derive(Clone, Copy, Debug, PartialEq, Eq)]
pub enum Order {
    Hash,
    Bytes,
    Case,
    Decimal,
    Hex,
}

/// The file `index` of a set of `of` files.
#[derive(Clone, Copy, Debug, PartialEq, Eq)]
pub struct ShardOf {
    pub index: u32,
    pub of: u32,
}

pub type BytesList = ListOf<Bytes>;

pub type PairList = ListOf<Pair>;

pub type ChangeList = ListOf<Change>;

pub type GroupList = ListOf<Group>;

pub type TouchList = ListOf<Touch>;

pub type EntryList = ListOf<Entry>;

/// The numbers of calls, counted from 0, that are to fail.
pub type FaultList = ListOf<u64>;
