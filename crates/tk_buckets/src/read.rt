ghost use Rattle.std.specs.Prelude.{◌≡◌, ◌+◌, ◌<◌, ◌≤◌, ◌^◌, length, take, drop, IfOk, IfSome, OnOk};
ghost use Rattle.tk_disk.specs.Crash.{OnlyReads};
ghost use Rattle.tk_disk.specs.Disk.{HasCause};
ghost use Rattle.tk_block.specs.Number.{u64_in};

use tk_block::u64_at;
use tk_disk::{Disk, DiskError};

/// The number in the eight bytes at a place: a head or a link.
pub fn number_at<D: Disk>(disk: &mut D, at: u64) -> Result<u64, DiskError>
    ensures value { IfSome (D.image disk.old) (λ f. at + 8 ≤ length f
        → IfOk result (λ n. n ≡ u64_in f at)) }
    ensures fits { IfOk result (λ n. n < 2 ^ 64) }
    ensures image { D.image disk.new ≡ D.image disk.old }
    ensures taken { D.taken_count disk.new ≤ D.taken_count disk.old + 8 }
    ensures more { D.taken_count disk.old ≤ D.taken_count disk.new }
    ensures cause { HasCause (D.fault_count disk.old) (D.fault_count disk.new) result }
    ensures still { OnlyReads D.may_leave D.moment D.left_since D.past D.left_with
        disk.old disk.new }
{
    let mut bytes = [0; 8];
    disk.read_at(at, &mut bytes)?;
    Ok(u64_at(&bytes, 0))
}

/// Fills the buffer with the bytes from a place on.
pub fn read_bytes<D: Disk>(disk: &mut D, at: u64, into: &mut [u8]) -> Result<(), DiskError>
    ensures bytes { IfSome (D.image disk.old) (λ f. at + length into.old ≤ length f
        → OnOk result (into.new ≡ take (length into.old) (drop at f))) }
    ensures cost { D.taken_count disk.new ≤ D.taken_count disk.old + length into.old }
    ensures image { D.image disk.new ≡ D.image disk.old }
    ensures more { D.taken_count disk.old ≤ D.taken_count disk.new }
    ensures cause { HasCause (D.fault_count disk.old) (D.fault_count disk.new) result }
    ensures still { OnlyReads D.may_leave D.moment D.left_since D.past D.left_with
        disk.old disk.new }
{
    disk.read_at(at, into)?;
    Ok(())
}
