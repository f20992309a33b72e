//! Which locks and stores a caller has at hand.
ghost use Rattle.std.specs.Prelude.{◌≡◌, ◌≤◌, ◌<◌, ◌+◌, ℕ, true, Decides};
ghost use Rattle.tk_core.specs.Commits.{hand, Ready, ReadyAll, MayChange};
ghost use Rattle.tk_core.specs.Covers.{IsFrame, Reads, Writes, ReadsEach, Searches, HoldsAll, HoldsStores, CoversReads};
ghost use Rattle.tk_model.specs.Entries.{is_keep};
ghost use Rattle.tk_core.specs.Lists.{has};

use crate::Frame;
use crate::machine::Row;
use crate::steps::holds;
use tk_hashnum::{mix, shard, stripe};
use tk_model::{Action, Entry, Touch};

/// Whether each lock of a range is held.
fn holds_each(held: &[u32], from: u32, to: u32) -> bool
    ensures { Decides result ((l : ℕ) → from ≤ l → l < to → has l held.now ≡ true) }
{
    for lock in from..to {
        if !holds(held, lock) {
            return false;
        }
    }
    true
}

fn holds_stores(frame: Frame, held: &[u32]) -> bool
    requires { IsFrame frame }
    ensures { Decides result (HoldsStores frame held.now) }
{
    holds_each(held, frame.stripes, frame.stripes + frame.stores)
}

fn holds_all(frame: Frame, held: &[u32]) -> bool
    requires { IsFrame frame }
    ensures { Decides result (HoldsAll frame held.now) }
{
    holds_each(held, 0, frame.stripes + frame.stores)
}

fn reads_key(frame: Frame, held: &[u32], key: &[u8]) -> bool
    requires { IsFrame frame }
    ensures { Decides result (Reads frame held.now key.now) }
{
    let mixed = mix(key);
    if holds(held, stripe(mixed, frame.stripes)) {
        return true;
    }
    holds(held, frame.stripes + shard(mixed, frame.stores))
}

fn writes_key(frame: Frame, held: &[u32], key: &[u8]) -> bool
    requires { IsFrame frame }
    ensures { Decides result (Writes frame held.now key.now) }
{
    let mixed = mix(key);
    if !holds(held, stripe(mixed, frame.stripes)) {
        return false;
    }
    holds(held, frame.stripes + shard(mixed, frame.stores))
}

fn reads_each(frame: Frame, held: &[u32], touches: &[Touch]) -> bool
    requires { IsFrame frame }
    ensures { Decides result (ReadsEach frame held.now touches.now) }
{
    for touch in touches {
        if !reads_key(frame, held, touch.key.as_slice()) {
            return false;
        }
    }
    true
}

fn searches(frame: Frame, held: &[u32], action: &Action) -> bool
    requires { IsFrame frame }
    ensures { Decides result (Searches frame held.now (is_keep action.now)) }
{
    match action {
        Action::Keep => holds_stores(frame, held),
        Action::Put(_) | Action::Drop => holds_all(frame, held),
    }
}

/// Whether the locks cover what the call looks at.
pub(crate) fn covers_reads(frame: Frame, held: &[u32], entry: &Entry) -> bool
    requires { IsFrame frame }
    ensures { Decides result (CoversReads frame held.now entry.now) }
{
    match entry {
        Entry::Proc(touches) => reads_each(frame, held, touches.as_slice()),
        Entry::Next { action, .. } => searches(frame, held, action),
        Entry::Each(_) | Entry::Clear => holds_all(frame, held),
        Entry::Count(_) | Entry::Sync(_) => holds_stores(frame, held),
    }
}

/// Whether the store is out with the caller, and known as unbroken.
fn is_ready(row: &Row, store: u32) -> bool
    ensures { Decides result (Ready (hand row.now) store) }
{
    if !holds(&row.out, store) {
        return false;
    }
    if holds(&row.met, store) {
        return false;
    }
    !holds(&row.breaking, store)
}

pub(crate) fn are_all_ready(frame: Frame, row: &Row) -> bool
    ensures { Decides result (ReadyAll frame (hand row.now)) }
{
    for store in 0..frame.stores {
        if !is_ready(row, store) {
            return false;
        }
    }
    true
}

/// Whether the caller may change the key.
pub(crate) fn may_change(frame: Frame, row: &Row, key: &[u8]) -> bool
    requires { IsFrame frame }
    ensures { Decides result (MayChange frame (hand row.now) key.now) }
{
    if !writes_key(frame, &row.held, key) {
        return false;
    }
    is_ready(row, shard(mix(key), frame.stores))
}
