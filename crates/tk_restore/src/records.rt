//! The records that complete groups leave, and the changes of a group that is begun.
ghost use Rattle.std.specs.Prelude.{◌≡◌, ◌<◌, ◌^◌, [], ◌∷◌, ◌++◌, length, IfOk, OnOk};
ghost use Rattle.tk_model.specs.declared.record.Order.TheVariants.{Hash};
ghost use Rattle.tk_model.specs.Records.{after};
ghost use Rattle.tk_block.specs.Blocks.{IsSmall};
ghost use Rattle.tk_append.specs.Fresh.{AllPairsSmall};
ghost use Rattle.tk_restore.specs.Changes.{change_by};

use crate::changes::{Changes, sets_of};
use std::alloc::Global;
use std::marker::Model;
use std::mem;
use tk_model::{NoMemory, PairList};

/// So many bytes of changes are kept before the first time that those are let go which say nothing any more.
const LEAST: usize = 1 << 27;

/// The changes of complete groups and then those of a group that is begun. Where they take over `LEAST` bytes at a
/// group's end, and over twice those of the records that lived when this was done last, only the records are kept.
#[derive(Drop)]
pub(crate) struct Records {
    changes: Changes,
    /// So many changes are of complete groups.
    complete: usize,
    /// So many bytes they may take.
    most: usize,
}

impl Model for Records {
    ghost use Rattle.std.specs.Prelude.{◌≤◌, [], length, take, drop};
    ghost use Rattle.tk_model.specs.declared.record.Order.TheVariants.{Hash};
    ghost use Rattle.tk_model.specs.Records.{after};
    ghost use Rattle.tk_restore.specs.Changes.{LiveAndBegun};

    ghost Value = { LiveAndBegun };

    ghost view = { λ r. record {
      live = after Hash (take r.complete r.changes) [];
      begun = drop r.complete r.changes;
    } };

    ghost invariant = { λ r. r.complete ≤ length r.changes };
}

impl Records {
    /// No records, and no group is begun.
    pub fn new(alloc: Global) -> Records
        ensures { result ≡ record { live = []; begun = [] } }
    {
        Records {
            changes: Changes::new(alloc),
            complete: 0,
            most: LEAST,
        }
    }

    /// One change more of the group that is begun: the record of the key is set, or is removed.
    pub fn push(&mut self, key: &[u8], value: &[u8], sets: bool) -> Result<(), NoMemory>
        requires { IsSmall key.now value.now }
        ensures live { OnOk result (self.new.live ≡ self.old.live) }
        ensures begun { OnOk result
            (self.new.begun ≡ self.old.begun ++ change_by sets key.now value.now ∷ []) }
    {
        self.changes.push(key, value, sets)
    }

    /// Takes all records and changes away.
    pub fn clear(&mut self)
        ensures { self.new ≡ record { live = []; begun = [] } }
    {
        self.complete = 0;
        self.changes.clear();
    }

    /// Lets go of what was set before and of what was removed.
    pub fn settle(&mut self) -> Result<(), NoMemory>
        requires { self.old.begun ≡ [] }
        ensures { OnOk result (self.new ≡ self.old) }
    {
        let alloc = self.changes.allocator();
        self.complete = 0;
        let changes = mem::replace(&mut self.changes, Changes::new(alloc));
        let pairs = changes.into_pairs()?;
        self.changes = sets_of(alloc, pairs.as_slice())?;
        self.complete = self.changes.len();
        self.most = self.changes.held().saturating_mul(2).max(LEAST);
        Ok(())
    }

    /// The group that is begun is complete.
    pub fn complete(&mut self) -> Result<(), NoMemory>
        ensures live { OnOk result (self.new.live ≡ after Hash self.old.begun self.old.live) }
        ensures begun { OnOk result (self.new.begun ≡ []) }
    {
        self.complete = self.changes.len();
        if self.changes.held() > self.most {
            self.settle()?;
        }
        Ok(())
    }

    /// The records of the complete groups, in hash order.
    pub fn into_pairs(self) -> Result<PairList, NoMemory>
        ensures records { IfOk result (λ pairs. pairs ≡ self.live) }
        ensures small { IfOk result AllPairsSmall }
    {
        let Records {
            mut changes,
            complete,
            ..
        } = self;
        changes.truncate(complete);
        changes.into_pairs()
    }
}
