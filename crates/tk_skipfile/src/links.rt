//! Links are judged as soon as the place of their target is known.
ghost use Rattle.std.specs.Prelude.{◌≡◌, ◌+◌, ◌*◌, ◌<◌, ◌≤◌, ◌++◌, ◌∷◌, ◌^◌, ℕ, List, [], length, take, slice_index, IfOk, Some};
ghost use Rattle.tk_skipfile.specs.Walking.{Follows, Meets, MeetsAll, lower_of, words_in};

use crate::levels::step_of;
use std::alloc::Global;
use tk_block::u64_at;
use tk_model::NoMemory;

/// A link, the record that it leads to, and the place of the record that has it.
#[derive(Clone, Copy)]
pub(crate) struct Expected {
    pub target: u64,
    pub owner: u64,
    pub link: u64,
}

/// Of each level, the last link that was met; and the lowest record with a wrong link.
#[derive(Drop)]
pub(crate) struct Links {
    pub count: u64,
    pub expected: Vec<Expected>,
    pub fault: Option<u64>,
}

impl Links {
    ghost use Rattle.std.specs.Prelude.{◌≡◌, ◌+◌, ◌*◌, ◌<◌, ◌≤◌, ◌++◌, ◌∷◌, ◌^◌, ℕ, List, [], length, take, slice_index, IfOk, Some, min};
    ghost use Rattle.tk_skipfile.specs.Walking.{Follows, Meets, MeetsAll, lower_of, words_in};

    /// Nothing was met yet, of so many records on so many levels.
    pub fn new(alloc: Global, count: u64, levels: u8, place: u64) -> Result<Links, NoMemory>
        ensures follows { IfOk result (Follows [] (place ∷ [])) }
        ensures count { IfOk result (λ l. l.count ≡ count) }
        ensures room { IfOk result (λ l. length l.expected.items ≡ levels) }
    {
        let none = Expected {
            target: 0,
            owner: 0,
            link: 0,
        };
        let mut expected = Vec::new(alloc);
        expected.resize(usize::from(levels), none)?;
        Ok(Links {
            count,
            expected,
            fault: None,
        })
    }

    /// The record at this place has a wrong link.
    fn lower(&mut self, place: u64)
        ensures fault { self.new.fault ≡ Some (lower_of self.old.fault place) }
        ensures expected { self.new.expected.items ≡ self.old.expected.items }
        ensures count { self.new.count ≡ self.old.count }
    {
        let low = self.fault.unwrap_or(place);
        self.fault = Some(low.min(place));
    }

    /// A record at a place has this link behind `level` others.
    fn meet(&mut self, level: u8, index: u64, owner: u64, link: u64)
        requires room { level < length self.old.expected.items }
        requires level { level < 31 }
        requires index { index < 2 ^ 62 }
        ensures follows { (rows : List (List ℕ)) (places row : List ℕ)
            → Follows (rows ++ row ∷ []) places self.old
            → Meets rows places row level index owner
            → Follows (rows ++ (row ++ link ∷ []) ∷ []) places self.new }
        ensures room { length self.new.expected.items ≡ length self.old.expected.items }
        ensures count { self.new.count ≡ self.old.count }
    {
        let target = index + step_of(level + 1);
        self.expected[usize::from(level)] = Expected {
            target,
            owner,
            link,
        };
        if target >= self.count && link != 0 {
            self.lower(owner);
        }
    }

    /// A record at a place has these links.
    pub fn meet_all(&mut self, index: u64, owner: u64, height: u8, links: &[u8])
        requires room { height ≤ length self.old.expected.items }
        requires height { height < 32 }
        requires long { length links.now ≡ 8 * height }
        requires index { index < 2 ^ 62 }
        ensures follows { (rows : List (List ℕ)) (places : List ℕ) → Follows rows places self.old
            → MeetsAll rows places height index owner
            → Follows (rows ++ words_in height 0 links.now ∷ []) places self.new }
        ensures room { length self.new.expected.items ≡ length self.old.expected.items }
        ensures count { self.new.count ≡ self.old.count }
    {
        for level in 0..height {
            let link = u64_at(links, 8 * usize::from(level));
            self.meet(level, index, owner, link);
        }
    }

    /// Record `index`, or the end, is at this place.
    pub fn arrive(&mut self, index: u64, place: u64)
        requires { 0 < index }
        ensures follows { (rows : List (List ℕ)) (places : List ℕ) → Follows rows places self.old
            → length rows ≡ index → length places ≡ index
            → Follows rows (places ++ place ∷ []) self.new }
        ensures room { length self.new.expected.items ≡ length self.old.expected.items }
        ensures count { self.new.count ≡ self.old.count }
    {
        if index >= self.count {
            return;
        }
        for level in 0..self.expected.len() {
            let Expected {
                target,
                owner,
                link,
            } = self.expected[level];
            if target == index && link != place {
                self.lower(owner);
            }
        }
    }
}
