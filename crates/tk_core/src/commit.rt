//! The step of a call that is committed.
ghost use Rattle.std.specs.Prelude.{◌≡◌, ◌&&◌, true, [], ◌∷◌, ◌++◌, not, IfOk, IfErr, OnOk, OnErr, Decides};
ghost use Rattle.tk_model.specs.Entries.{is_keep, legal, after_entry, replay_entries};
ghost use Rattle.tk_core.specs.Commits.{hand, records_of, after_call, is_there, MayAct, MayActEach, MayWrite, MayMake};
ghost use Rattle.tk_core.specs.Covers.{IsFrame, CoversReads};
ghost use Rattle.tk_core.specs.Needs.{MayCommit};
ghost use Rattle.tk_core.specs.Program.{IsAnswer, AnyCaller};
ghost use Rattle.tk_core.specs.declared.moves.Move.TheVariants as moves;

use crate::covers::{are_all_ready, covers_reads, may_change};
use crate::machine::Row;
use crate::{Core, Frame};
use std::alloc::Global;
use tk_model::{Action, Entry, NoMemory, Order, Pair, PlainMap, Touch, value_at};

impl Core {
    /// Whether the caller may commit the call; if so, the records go on to those after it.
    fn may_commit(
        &self,
        records: &mut PlainMap,
        caller: u32,
        entry: &Entry,
    ) -> Result<bool, NoMemory>
        requires { records.old ≡ records_of self.now }
        ensures may { IfOk result
            (λ may. Decides may (AnyCaller self.now caller
            (MayCommit self.now.frame (λ m. true ≡ true) [] entry.now))) }
        ensures after { IfOk result (λ may. may ≡ true → records.new ≡ after_call entry.now
            (records_of self.now)) }
    {
        let at = caller as usize;
        if at >= self.rows.len() {
            return Ok(false);
        }
        let row = &self.rows[at];
        if !row.live {
            return Ok(false);
        }
        if row.allowance == 0 {
            return Ok(false);
        }
        may_make(self.frame, row, records, entry)
    }

    /// The call gets the next number of the history.
    pub(crate) fn commit(
        &mut self,
        records: &mut PlainMap,
        caller: u32,
        entry: &Entry,
    ) -> Result<bool, NoMemory>
        requires { records.old ≡ records_of self.old }
        ensures answer { IfOk result (λ done. IsAnswer (moves.Commit caller entry.now) self.old
            self.new done) }
        ensures records { IfOk result (λ done. done ≡ true → records.new ≡ records_of self.new) }
        ensures want { IfErr result (λ e. self.new ≡ self.old) }
    {
        if !self.may_commit(records, caller, entry)? {
            return Ok(false);
        }
        let number = self.log.len();
        let row = &mut self.rows[caller as usize];
        row.mine.reserve(1)?;
        push_copy(&mut self.log, entry)?;
        row.mine.push_reserved(number);
        row.allowance -= 1;
        row.seen = number + 1;
        row.base = number + 1;
        Ok(true)
    }
}

fn push_copy(log: &mut Vec<Entry>, entry: &Entry) -> Result<(), NoMemory>
    ensures ok { OnOk result (log.new.items ≡ log.old.items ++ entry.now ∷ []) }
    ensures err { OnErr result (log.new.items ≡ log.old.items) }
{
    let copy = entry.clone()?;
    log.push(copy)?;
    Ok(())
}

/// The records after a history that is legal.
pub(crate) fn replay(alloc: Global, order: Order, history: &[Entry]) -> Result<PlainMap, NoMemory>
    requires { legal order [] history.now ≡ true }
    ensures { IfOk result (λ map. map ≡ record {
      order = order;
      pairs = replay_entries order
          history.now [];
    }) }
{
    let mut map = PlainMap::new(alloc, order);
    for entry in history {
        let _ = map.run(entry)?;
    }
    Ok(map)
}

/// Whether the action changes the key, on the way from some records to others.
fn changes(before: &[Pair], after: &[Pair], key: &[u8], action: &Action) -> bool
    ensures { result ≡ (not (is_keep action.now) && is_there key.now before.now after.now) }
{
    match action {
        Action::Keep => false,
        Action::Put(_) | Action::Drop => {
            value_at(before, key).is_some() || value_at(after, key).is_some()
        }
    }
}

fn may_act(
    frame: Frame,
    row: &Row,
    before: &[Pair],
    after: &[Pair],
    key: &[u8],
    action: &Action,
) -> bool
    requires { IsFrame frame }
    ensures { Decides result (MayAct frame (hand row.now) before.now after.now key.now action.now) }
{
    if !changes(before, after, key, action) {
        return true;
    }
    may_change(frame, row, key)
}

fn may_act_each(frame: Frame, row: &Row, before: &[Pair], after: &[Pair], touches: &[Touch]) -> bool
    requires { IsFrame frame }
    ensures { Decides result (MayActEach frame (hand row.now) before.now after.now touches.now) }
{
    for touch in touches {
        if !may_act(
            frame,
            row,
            before,
            after,
            touch.key.as_slice(),
            &touch.action,
        ) {
            return false;
        }
    }
    true
}

/// Whether all that the call changes may be changed; its reads are covered.
fn may_write(frame: Frame, row: &Row, before: &[Pair], after: &[Pair], entry: &Entry) -> bool
    requires frame { IsFrame frame }
    requires reads { CoversReads frame (hand row.now).held entry.now }
    requires after { after.now ≡ after_entry frame.order entry.now before.now }
    ensures { Decides result (MayWrite frame (hand row.now) before.now entry.now) }
{
    match entry {
        Entry::Proc(touches) | Entry::Each(touches) => {
            may_act_each(frame, row, before, after, touches.as_slice())
        }
        Entry::Next {
            found: Some(pair),
            action,
            ..
        } => may_act(frame, row, before, after, pair.key.as_slice(), action),
        Entry::Next { found: None, .. } | Entry::Count(_) | Entry::Sync(false) => true,
        Entry::Clear | Entry::Sync(true) => are_all_ready(frame, row),
    }
}

/// Whether the call may be made on these records; if so, they go on to those after it.
fn may_make(
    frame: Frame,
    row: &Row,
    records: &mut PlainMap,
    entry: &Entry,
) -> Result<bool, NoMemory>
    requires frame { IsFrame frame }
    requires order { records.old.order ≡ frame.order }
    ensures may { IfOk result (λ may. Decides may (MayMake frame (hand row.now) records.old.pairs
        entry.now)) }
    ensures after { IfOk result (λ may. may ≡ true → records.new ≡ after_call entry.now
        records.old) }
{
    if !covers_reads(frame, &row.held, entry) {
        return Ok(false);
    }
    let before = records.pairs().clone()?;
    if !records.run(entry)? {
        return Ok(false);
    }
    Ok(may_write(
        frame,
        row,
        before.as_slice(),
        records.pairs().as_slice(),
        entry,
    ))
}
