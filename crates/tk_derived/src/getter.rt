ghost use Rattle.std.specs.Prelude.{◌≡◌, ◌≤◌, length, false};
ghost use Rattle.tk_dbm.specs.Dbm.{setting, view, IsIdleOf, AllKeepLaw};
ghost use Rattle.tk_derived.specs.Rows.{get_row, get_value, row_entry};
ghost use Rattle.tk_derived.specs.Derived.{Replies, IsTold};

use crate::reply::{replied, tell};
use std::alloc::Global;
use std::sync::Wait;
use tk_dbm::{Answer, Dbm, Pass};
use tk_model::Bytes;
use tk_proc::{At, Gate, Gated, Getter};
use tk_store::SeqStore;

/// Reads the value of a record.
pub fn get<S: SeqStore, R: Wait, G: Gate>(
    alloc: Global,
    rt: &R,
    db: &Dbm<S>,
    pass: &mut Pass,
    key: &[u8],
    out: &mut Bytes,
    at: &At<G>,
) -> Answer
    requires own { IsIdleOf S.lawful S.stands S.store_view S.constants db.now pass.old }
    requires key { length key.now ≤ 65535 }
    requires law { AllKeepLaw (setting S.lawful S.store_view S.fault_count db.now)
        (row_entry key.now get_row) }
    ensures own { IsIdleOf S.lawful S.stands S.store_view S.constants db.now pass.new }
    ensures derived { Replies S.lawful S.stands S.store_view S.constants S.fault_count db.now false
        key.now get_row (view pass.old) result (view pass.new) }
    ensures out { IsTold (setting S.lawful S.store_view S.fault_count db.now) key.now get_value
        result (view pass.new) out.old out.new }
{
    let processor = Getter::new(alloc);
    let mut gated = Gated { processor, at: *at };
    let made = db.process(rt, pass, key, &mut gated, false);
    let Gated { processor, .. } = gated;
    let answer = replied(made, processor.status());
    tell(out, &made, processor.into_value());
    answer
}
