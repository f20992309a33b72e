//! The records of an image, block by block.
ghost use Rattle.std.specs.Prelude.{◌≡◌, ◌∷◌, [], ◌++◌, false, OnOk};
ghost use Rattle.tk_model.specs.declared.record.Order.TheVariants.{Hash};
ghost use Rattle.tk_model.specs.Records.{after, after_one};
ghost use Rattle.tk_block.specs.Blocks.{IsSmall, body_said};
ghost use Rattle.tk_append.specs.Opening.{change_in};
ghost use Rattle.tk_restore.specs.Readings.{MayEnd};

use crate::records::Records;
use std::alloc::Global;
use tk_append::{OpenGroup, is_in_turn};
use tk_block::{BLOCK_OVERHEAD, BODY_OFFSET, Block, body_at};
use tk_model::{NoMemory, PairList};

/// The records that complete groups leave, and the changes of a group that is begun.
#[derive(Drop)]
pub(crate) struct Reading {
    pub records: Records,
    /// The number of the last complete group.
    before: Option<u64>,
    open_group: Option<OpenGroup>,
}

/// One change more of the group that is begun.
fn add_change(records: &mut Records, block: Block<'_>) -> Result<(), NoMemory>
    requires small { IsSmall block.key.now block.value.now }
    requires clears { MayEnd (body_said block) }
    ensures more { block.entry.last ≡ false → OnOk result ((records.new.live ≡ records.old.live)
        × (records.new.begun ≡ records.old.begun ++ change_in (body_said block.entry) ∷ [])) }
    ensures all { OnOk result (after Hash records.new.begun records.new.live
        ≡ after_one Hash (change_in (body_said block.entry))
        (after Hash records.old.begun records.old.live)) }
{
    if block.kind == 1 || block.kind == 2 {
        return records.push(block.key, block.value, block.kind == 1);
    }
    records.clear();
    Ok(())
}

impl Reading {
    ghost use Rattle.std.specs.Prelude.{◌≡◌, ◌≢◌, ◌⊎◌, ℕ, true, false, IfOk, OnOk};
    ghost use Rattle.tk_block.specs.Blocks.{IsSmall, body_said, is_body};
    ghost use Rattle.tk_append.specs.Fresh.{AllPairsSmall};
    ghost use Rattle.tk_append.specs.Opening.{Walk, begin, walked};
    ghost use Rattle.tk_append.specs.Restored.{may_be_read};
    ghost use Rattle.tk_restore.specs.Readings.{Knows, ReadOrNot, MayEnd};

    /// Nothing is read yet.
    pub fn new(alloc: Global) -> Reading
        ensures { Knows result begin }
    {
        Reading {
            records: Records::new(alloc),
            before: None,
            open_group: None,
        }
    }

    /// The block may be read behind those so far.
    fn may_read(&self, extent: u64, block: Block<'_>) -> bool
        requires small { IsSmall block.key.now block.value.now }
        requires body { is_body (body_said block) ≡ true }
        ensures may { (w : Walk) → Knows self.now w
            → result ≡ may_be_read w extent (body_said block.entry) }
        ensures clears { result ≡ true → MayEnd (body_said block.entry) }
    {
        let room = BLOCK_OVERHEAD + block.key.len() + block.value.len();
        room as u64 <= extent && block.kind != 3 && is_in_turn(self.before, self.open_group, block)
    }

    /// One block more. The last of a group brings all changes of the group to the records.
    fn add(&mut self, place: u64, block: Block<'_>) -> Result<(), NoMemory>
        requires small { IsSmall block.key.now block.value.now }
        requires clears { MayEnd (body_said block) }
        ensures { (w : Walk) (extent : ℕ) → Knows self.old w → OnOk result (Knows self.new
            (walked w (record { place = place; extent = extent; body = body_said block.entry }))) }
    {
        let number = block.number;
        add_change(&mut self.records, block)?;
        if block.last {
            self.records.complete()?;
            self.before = Some(number);
            self.open_group = None;
            return Ok(());
        }
        if self.open_group.is_none() {
            self.open_group = Some(OpenGroup { place, number });
        }
        Ok(())
    }

    /// Reads the block of this extent at the front of bytes that lie at a place, and answers whether one may be read.
    pub fn read(&mut self, place: u64, extent: u64, bytes: &[u8]) -> Result<bool, NoMemory>
        ensures { (w : Walk) → Knows self.old w
            → IfOk result (λ more. ReadOrNot more w place extent bytes.now self.new) }
    {
        if bytes.len() < BODY_OFFSET {
            return Ok(false);
        }
        let Some(block) = body_at(&bytes[BODY_OFFSET..], place) else {
            return Ok(false);
        };
        if !self.may_read(extent, block) {
            return Ok(false);
        }
        self.add(place, block)?;
        Ok(true)
    }

    /// The records of the complete groups, in hash order.
    pub fn into_pairs(self) -> Result<PairList, NoMemory>
        ensures records { IfOk result (λ pairs. pairs ≡ self.records.live) }
        ensures small { IfOk result AllPairsSmall }
    {
        let Reading { records, .. } = self;
        records.into_pairs()
    }
}
