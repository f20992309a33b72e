//! Plain data of the database, and the hashes of keys.
#![tactic(auto)]

mod bytes;
mod error;
mod hash;
mod law;
mod list;
mod order;
mod place;
mod plain;
mod record;
mod reserved;
mod schedule;
mod text;

pub use bytes::Bytes;
pub use error::{NoMemory, OpenError, Unopened};
pub use hash::{bucket, fnv32, fnv32_from, fnv64, mix, shard};
pub use law::{changes_are_enough, keys_in_line, records_are_a_map};
pub use list::ListOf;
pub use order::{before, compare_keys, is_same};
pub use place::{
    copy_pair, drop_in, first_pair, is_within, last_pair, named_pair, place_of, place_to_put,
    put_in, value_at,
};
pub use plain::PlainMap;
pub use record::{
    Action, Bound, BytesList, Change, ChangeList, Entry, EntryList, FaultList, Group, GroupList,
    Order, Pair, PairList, ShardOf, Touch, TouchList, Way,
};
pub use reserved::{ReservedBytes, ReservedList};
pub use schedule::FaultSchedule;
pub use text::{RecordHere, record_here, write_record};

#[cfg(test)]
mod tests;
