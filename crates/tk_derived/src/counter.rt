ghost use Rattle.std.specs.Prelude.{◌≡◌, ◌≤◌, length, true};
ghost use Rattle.tk_dbm.specs.Dbm.{setting, view, IsIdleOf, AllKeepLaw};
ghost use Rattle.tk_derived.specs.Rows.{increment_row, increment_value, row_entry};
ghost use Rattle.tk_derived.specs.Derived.{Replies, IsTold};

use crate::reply::{replied, tell};
use std::alloc::Global;
use std::sync::Wait;
use tk_dbm::{Answer, Dbm, Pass};
use tk_proc::{At, Counter, Gate, Gated};
use tk_store::SeqStore;

/// Adds `n` to a number of eight bytes, or reads it where `n` is -2^63. An absent record counts as `initial`.
pub fn increment<S: SeqStore, R: Wait, G: Gate>(
    alloc: Global,
    rt: &R,
    db: &Dbm<S>,
    pass: &mut Pass,
    key: &[u8],
    n: i64,
    initial: i64,
    out: &mut i64,
    at: &At<G>,
) -> Answer
    requires own { IsIdleOf S.lawful S.stands S.store_view S.constants db.now pass.old }
    requires key { length key.now ≤ 65535 }
    requires law { AllKeepLaw (setting S.lawful S.store_view S.fault_count db.now)
        (row_entry key.now (increment_row n initial)) }
    ensures own { IsIdleOf S.lawful S.stands S.store_view S.constants db.now pass.new }
    ensures derived { Replies S.lawful S.stands S.store_view S.constants S.fault_count db.now true
        key.now (increment_row n initial) (view pass.old) result (view pass.new) }
    ensures out { IsTold (setting S.lawful S.store_view S.fault_count db.now) key.now
        (increment_value n initial) result (view pass.new) out.old out.new }
{
    let processor = Counter::new(alloc, n, initial);
    let mut gated = Gated { processor, at: *at };
    let made = db.process(rt, pass, key, &mut gated, true);
    let answer = replied(made, gated.processor.status());
    tell(out, &made, gated.processor.number());
    answer
}
