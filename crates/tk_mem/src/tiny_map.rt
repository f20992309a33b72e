ghost use Rattle.std.specs.Prelude.{◌≡◌, ◌≤◌, [], ◌∷◌, List, length, false, IfOk, OnOk};
ghost use Rattle.std.specs.Option.{option_copied};
ghost use Rattle.tk_model.specs.Records.{find, after, first_within, last_within, IsClearAlone};
ghost use Rattle.tk_model.specs.declared.record.Order.TheVariants.{Hash};
ghost use Rattle.tk_store.specs.Store.{AllFitWithin};
ghost use Rattle.tk_store.specs.PairsLeft.{pairs_left};
ghost use Rattle.tk_mem.specs.TinyView.{next_of, settled};
ghost use Rattle.tk_mem.specs.Undo.{text_size};

use crate::change::{make_all, take_back};
use std::alloc::Global;
use std::marker::Model;
use tk_model::{Bound, Bytes, Change, ChangeList, NoMemory, Pair};
use tk_store::{HashedRecords, PairsLeft};

/// Records in buckets of their own. Changes are made when they are prepared, so that they need no memory later, and are
/// undone where they are dropped.
#[derive(Drop)]
pub(crate) struct TinyMap {
    table: HashedRecords,
    undo: Vec<Change>,
    clears: bool,
    count: u64,
    size: u64,
}

impl Model for TinyMap {
    ghost use Rattle.tk_mem.specs.TinyView.{TinyView, IsCounted};
    ghost use Rattle.tk_mem.specs.Undo.{undone};

    ghost Value = { TinyView };

    ghost view = { λ t. record {
      pairs = undone t.undo.items t.table;
      table = t.table;
      clears = t.clears;
    } };

    ghost invariant = { λ t. IsCounted t.undo.items t.table t.count t.size };
}

impl TinyMap {
    /// The records of a table, whose text has this length.
    pub fn of(alloc: Global, table: HashedRecords, size: u64) -> TinyMap
        requires { size ≡ text_size table }
        ensures { result ≡ settled table }
    {
        let count = table.len() as u64;
        TinyMap {
            table,
            undo: Vec::new(alloc),
            clears: false,
            count,
            size,
        }
    }

    pub fn count(&self) -> u64
        ensures { result ≡ length self.now.pairs }
    {
        self.count
    }

    /// The length of the records' text.
    pub fn size(&self) -> u64
        ensures { result ≡ text_size self.now.pairs }
    {
        self.size
    }

    /// Drops what is prepared.
    pub fn settle(&mut self) -> Result<(), NoMemory>
        ensures pairs { self.new.pairs ≡ self.old.pairs }
        ensures ok { OnOk result (self.new ≡ settled self.old.pairs) }
    {
        self.clears = false;
        take_back(&mut self.table, &mut self.undo)
    }

    /// Prepares changes. The answer is the length of the text after them.
    pub fn prepare(&mut self, changes: &ChangeList) -> Result<u64, NoMemory>
        requires alone { IsClearAlone changes.now }
        requires fit { AllFitWithin 33554431 changes.now }
        ensures pairs { self.new.pairs ≡ self.old.pairs }
        ensures next { OnOk result (next_of self.new ≡ after Hash changes.now self.old.pairs) }
        ensures size { IfOk result (λ n. n ≡ text_size (after Hash changes.now self.old.pairs)) }
    {
        self.settle()?;
        self.table.spread()?;
        match changes.as_slice() {
            [Change::Clear] => {
                self.clears = true;
                Ok(8)
            }
            list => make_all(&mut self.table, &mut self.undo, list, self.size),
        }
    }

    /// The records become those that are prepared, whose text has this length.
    pub fn commit(&mut self, size: u64)
        requires { size ≡ text_size (next_of self.old) }
        ensures { self.new ≡ settled (next_of self.old) }
    {
        if self.clears {
            self.table.clear();
            self.clears = false;
        }
        self.undo.clear();
        self.count = self.table.len() as u64;
        self.size = size;
    }

    pub fn get(&self, key: &[u8]) -> Option<&Bytes>
        ensures { option_copied result ≡ find key.now self.now.table }
    {
        self.table.get(key)
    }

    /// The first record within a bound on the way up.
    pub fn first_within(&self, bound: &Bound) -> Option<&Pair>
        ensures { option_copied result ≡ first_within Hash bound.now self.now.table }
    {
        self.table.first_within(bound)
    }

    /// The first record within a bound on the way down.
    pub fn last_within(&self, bound: &Bound) -> Option<&Pair>
        ensures { option_copied result ≡ last_within Hash bound.now self.now.table }
    {
        self.table.last_within(bound)
    }

    /// All records, in hash order.
    pub fn pairs(&self) -> PairsLeft<'_>
        ensures { pairs_left result ≡ self.now.table }
    {
        self.table.pairs()
    }
}
