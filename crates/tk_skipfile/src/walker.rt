//! The records of a file, read from its front.
ghost use Rattle.std.specs.Prelude.{◌≡◌, ◌*◌, ◌≤◌, length};

use crate::here::{LinkedHere, linked_here};
use crate::levels::{height_of, levels_of};
use crate::links::Links;
use crate::places::HEADER_SIZE;
use std::alloc::Global;
use tk_model::{Bytes, NoMemory, Order, before};

/// What is known behind some of a file's records.
#[derive(Drop)]
pub(crate) struct Walker {
    pub levels: u8,
    pub index: u64,
    pub place: u64,
    pub last: Bytes,
    pub links: Links,
    ghost few: { levels ≤ 32 },
    ghost room: { length links.expected.items ≡ levels },
    ghost short: { 10 * index ≤ place },
}

impl Walker {
    ghost use Rattle.std.specs.Prelude.{◌≡◌, ◌⊎◌, ◌+◌, ◌*◌, ◌<◌, ◌≤◌, ◌^◌, ◌++◌, ◌∷◌, ℕ, List, [], length, drop, true, false, IfOk, OnOk, IfSome, IfNone};
    ghost use Rattle.tk_skipfile.specs.Opening.{Linked, Stand, Stops, linked_size};
    ghost use Rattle.tk_skipfile.specs.Walking.{BeginsLinked, ComesNext, IsAt, Takes, linked_of};

    /// No record was read.
    pub fn new(alloc: Global, count: u64) -> Result<Walker, NoMemory>
        ensures at { IfOk result (IsAt []) }
        ensures count { IfOk result (λ w. w.links.count ≡ count) }
        ensures place { IfOk result (λ w. w.place ≡ 32) }
    {
        let levels = levels_of(count);
        Ok(Walker {
            levels,
            index: 0,
            place: HEADER_SIZE,
            last: Bytes::new(alloc),
            links: Links::new(alloc, count, levels, HEADER_SIZE)?,
        })
    }

    /// The key comes behind the last.
    fn is_behind(&self, key: &[u8]) -> bool
        ensures yes { result ≡ true → ComesNext self.now key.now }
        ensures no { result ≡ false → ComesNext self.now key.now → ⊥ }
    {
        self.index == 0 || before(&Order::Bytes, self.last.as_slice(), key)
    }

    /// The record at the front, where it may follow.
    fn next<'a>(&self, bytes: &'a [u8]) -> Option<LinkedHere<'a>>
        ensures found { IfSome result (λ r. (xs : List Linked) → IsAt xs self.now
            → Stand self.now.levels (xs ++ linked_of r ∷ [])) }
        ensures more { IfSome result (λ r. (xs : List Linked) → IsAt xs self.now
            → length xs < self.now.links.count) }
        ensures text { IfSome result (λ r. BeginsLinked r.height self.now.place bytes.now
            (linked_of r) r.rest.now) }
        ensures height { IfSome result (λ r. r.height ≤ self.now.levels) }
        ensures bound { IfSome result (λ r. r.height < 32) }
        ensures long { IfSome result (λ r. length r.links.now ≡ 8 * r.height) }
        ensures none { IfNone result ((xs : List Linked) → IsAt xs self.now
            → Stops self.now.links.count xs bytes.now) }
    {
        if self.index == self.links.count {
            return None;
        }
        let height = height_of(self.levels, self.index);
        let Some(here) = linked_here(bytes, height, self.place) else {
            return None;
        };
        if self.is_behind(here.key) {
            Some(here)
        } else {
            None
        }
    }

    /// Passes a record.
    fn pass(&mut self, here: &LinkedHere<'_>) -> Result<(), NoMemory>
        requires height { here.now.height ≤ self.old.levels }
        requires bound { here.now.height < 32 }
        requires long { length here.now.links.now ≡ 8 * here.now.height }
        requires end { self.old.place + linked_size (linked_of here.now) < 2 ^ 64 }
        ensures at { (xs : List Linked) → IsAt xs self.old
            → Stand self.old.levels (xs ++ linked_of here.now ∷ [])
            → length xs < self.old.links.count
            → OnOk result (IsAt (xs ++ linked_of here.now ∷ []) self.new) }
        ensures place { OnOk result (self.new.place ≡ self.old.place + linked_size
            (linked_of here.now)) }
        ensures count { self.new.links.count ≡ self.old.links.count }
        ensures levels { self.new.levels ≡ self.old.levels }
    {
        self.last.clear();
        self.last.extend(here.key)?;
        self.links
            .meet_all(self.index, self.place, here.height, here.links);
        let size = here.links.len() + (6 + here.key.len() + here.value.len() + 4);
        self.index += 1;
        self.place += size as u64;
        self.links.arrive(self.index, self.place);
        Ok(())
    }

    /// Passes the records that stand whole at the front, and answers how many bytes they are.
    pub fn take(&mut self, bytes: &[u8]) -> Result<usize, NoMemory>
        requires end { self.old.place + length bytes.now < 2 ^ 64 }
        ensures takes { (xs : List Linked) → IsAt xs self.old
            → IfOk result (λ n. Takes xs self.old self.new bytes.now (drop n bytes.now)) }
        ensures stops { (xs : List Linked) → IsAt xs self.new
            → IfOk result (λ n. Stops self.new.links.count xs (drop n bytes.now)) }
        ensures place { IfOk result (λ n. self.new.place ≡ self.old.place + n) }
        ensures within { IfOk result (λ n. n ≤ length bytes.now) }
        ensures count { self.new.links.count ≡ self.old.links.count }
    {
        let mut rest = bytes;
        while let Some(here) = self.next(rest) {
            self.pass(&here)?;
            rest = here.rest;
        }
        Ok(bytes.len() - rest.len())
    }
}
