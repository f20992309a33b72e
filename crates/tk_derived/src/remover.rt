ghost use Rattle.std.specs.Prelude.{◌≡◌, ◌≤◌, length, true};
ghost use Rattle.tk_dbm.specs.Dbm.{setting, view, IsIdleOf, AllKeepLaw};
ghost use Rattle.tk_derived.specs.Rows.{remove_row, row_entry};
ghost use Rattle.tk_derived.specs.Derived.{Replies};

use crate::reply::replied;
use std::sync::Wait;
use tk_dbm::{Answer, Dbm, Pass};
use tk_proc::{At, Gate, Gated, Remover};
use tk_store::SeqStore;

/// Takes a record away.
pub fn remove<S: SeqStore, R: Wait, G: Gate>(
    rt: &R,
    db: &Dbm<S>,
    pass: &mut Pass,
    key: &[u8],
    at: &At<G>,
) -> Answer
    requires own { IsIdleOf S.lawful S.stands S.store_view S.constants db.now pass.old }
    requires key { length key.now ≤ 65535 }
    requires law { AllKeepLaw (setting S.lawful S.store_view S.fault_count db.now)
        (row_entry key.now remove_row) }
    ensures own { IsIdleOf S.lawful S.stands S.store_view S.constants db.now pass.new }
    ensures derived { Replies S.lawful S.stands S.store_view S.constants S.fault_count db.now true
        key.now remove_row (view pass.old) result (view pass.new) }
{
    let processor = Remover::new();
    let mut gated = Gated { processor, at: *at };
    let made = db.process(rt, pass, key, &mut gated, true);
    replied(made, gated.processor.status())
}
