//! The walk over the blocks of a file, which is read in pieces.
ghost use Rattle.std.specs.Prelude.{◌≡◌, ◌≤◌, ◌<◌, ◌^◌, length, IfOk, IfErr, IfSome};
ghost use Rattle.tk_disk.specs.Crash.{OnlyReads};
ghost use Rattle.tk_block.specs.Text.{base_of};
ghost use Rattle.tk_append.specs.Read.{HasOpenCause};
ghost use Rattle.tk_append.specs.Walked.{WalkedAll, WalkFails};

use crate::walker::Walker;
use crate::window::Window;
use std::alloc::Global;
use tk_block::{StaticHead, base_of};
use tk_disk::Disk;
use tk_model::{OpenError, ShardOf};

/// What is known behind all blocks of a file of this size. Room for so many keys is taken at once.
pub(crate) fn walk_file<D: Disk>(
    alloc: Global,
    disk: &mut D,
    head: &StaticHead,
    shard: ShardOf,
    size: u64,
    keys: usize,
) -> Result<Walker, OpenError>
    requires p { head.now.p ≤ 24 }
    requires shard { shard.index < shard.of }
    requires long { base_of head.now.p ≤ size }
    ensures walked { IfOk result (WalkedAll (D.image disk.old) head.now shard size) }
    ensures fails { IfSome (D.image disk.old) (λ f. length f ≡ size
        → IfErr result (WalkFails head.now shard f)) }
    ensures image { D.image disk.new ≡ D.image disk.old }
    ensures cause { HasOpenCause (D.fault_count disk.old) (D.fault_count disk.new) result }
    ensures still { OnlyReads D.may_leave D.moment D.left_since D.past D.left_with disk.old
        disk.new }
{
    let mut walker = Walker::with_capacity(alloc, head.p, keys)?;
    let mut window = Window::new(alloc);
    let mut place = base_of(head.p);
    while place < size {
        window.hold_block(disk, place, size - place)?;
        let extent = walker.step(alloc, head, shard, place, window.as_slice())?;
        window.pass(extent as usize);
        place += extent;
    }
    Ok(walker)
}
