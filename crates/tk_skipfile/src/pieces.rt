ghost use Rattle.std.specs.Prelude.{◌≡◌, ◌+◌, ◌≤◌, ◌<◌, ◌++◌, ◌^◌, List, ℕ, [], length, IfSome, OnOk};
ghost use Rattle.std.specs.Option.{is_some};
ghost use Rattle.tk_disk.specs.Disk.{HasCause};
ghost use Rattle.tk_append.specs.Pieces.{Holds};
ghost use Rattle.tk_skipfile.specs.HeaderLast.{WritesNoWord};

use tk_disk::{Disk, DiskError};
use tk_model::Bytes;

/// How many bytes are written at once.
pub(crate) const PIECE: usize = 1 << 20;

/// Writes what waits at the end of the disk.
pub(crate) fn flush<D: Disk>(
    disk: &mut D,
    at: &mut u64,
    waiting: &mut Bytes,
) -> Result<(), DiskError>
    requires behind { 0 < at.old }
    requires here { IfSome (D.image disk.old) (λ f. length f ≡ at.old) }
    requires end { at.old + length waiting.old ≤ 2 ^ 40 }
    ensures text { (text : List ℕ) → Holds (D.image disk.old) at.old waiting.old text
        → OnOk result (Holds (D.image disk.new) at.new waiting.new text) }
    ensures here { OnOk result (IfSome (D.image disk.new) (λ f. length f ≡ at.new)) }
    ensures waits { OnOk result (waiting.new ≡ []) }
    ensures end { OnOk result (at.new + length waiting.new ≡ at.old + length waiting.old) }
    ensures front { OnOk result (at.old ≤ at.new) }
    ensures told { is_some (D.image disk.new) ≡ is_some (D.image disk.old) }
    ensures cause { HasCause (D.fault_count disk.old) (D.fault_count disk.new) result }
    ensures no_word { WritesNoWord D.past D.moment D.left_with disk.old disk.new }
{
    disk.write_at(*at, waiting.as_slice())?;
    *at += waiting.len() as u64;
    waiting.clear();
    Ok(())
}

/// Writes what waits where that is a whole piece.
pub(crate) fn flush_piece<D: Disk>(
    disk: &mut D,
    at: &mut u64,
    waiting: &mut Bytes,
) -> Result<(), DiskError>
    requires behind { 0 < at.old }
    requires here { IfSome (D.image disk.old) (λ f. length f ≡ at.old) }
    requires end { at.old + length waiting.old ≤ 2 ^ 40 }
    ensures text { (text : List ℕ) → Holds (D.image disk.old) at.old waiting.old text
        → OnOk result (Holds (D.image disk.new) at.new waiting.new text) }
    ensures here { OnOk result (IfSome (D.image disk.new) (λ f. length f ≡ at.new)) }
    ensures end { OnOk result (at.new + length waiting.new ≡ at.old + length waiting.old) }
    ensures front { OnOk result (at.old ≤ at.new) }
    ensures told { is_some (D.image disk.new) ≡ is_some (D.image disk.old) }
    ensures cause { HasCause (D.fault_count disk.old) (D.fault_count disk.new) result }
    ensures no_word { WritesNoWord D.past D.moment D.left_with disk.old disk.new }
{
    if waiting.len() < PIECE {
        return Ok(());
    }
    flush(disk, at, waiting)
}
