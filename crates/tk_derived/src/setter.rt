ghost use Rattle.std.specs.Prelude.{◌≡◌, ◌≤◌, ℕ, List, Option, length, true, is_some};
ghost use Rattle.tk_proc.specs.Replies.{set_reply};
ghost use Rattle.tk_dbm.specs.Dbm.{setting, view, IsIdleOf, AllKeepLaw};
ghost use Rattle.tk_derived.specs.Rows.{set_row, row_entry};
ghost use Rattle.tk_derived.specs.Derived.{Replies};

use crate::reply::replied;
use std::alloc::Global;
use std::sync::Wait;
use tk_dbm::{Answer, Dbm, Pass};
use tk_model::{Action, Bytes, NoMemory};
use tk_proc::{At, Gate, Gated, RecordProcessor};
use tk_status::Status;
use tk_store::SeqStore;

/// Stores a copy of a lent value, which is made when the record was read.
#[derive(Drop)]
struct LentSetter<'a> {
    alloc: Global,
    value: &'a [u8],
    overwrite: bool,
    found: bool,
}

impl LentSetter<'_> {
    /// The answer of the last call.
    fn status(&self) -> Status
        ensures { (was : Option (List ℕ)) → is_some was ≡ self.now.found
            → result ≡ (set_reply self.now.value.now self.now.overwrite was).status }
    {
        if self.found && !self.overwrite {
            Status::Duplication
        } else {
            Status::Success
        }
    }
}

impl RecordProcessor for LentSetter<'_> {
    ghost acts = { λ p k was. (set_reply p.value.now p.overwrite was).action };

    ghost turns = { λ p k was. record p { found = is_some was } };

    fn process_full(&mut self, _: &[u8], _: &[u8]) -> Result<Action, NoMemory> {
        let action = if self.overwrite {
            Action::Put(Bytes::from_slice(self.alloc, self.value)?)
        } else {
            Action::Keep
        };
        self.found = true;
        Ok(action)
    }

    fn process_empty(&mut self, _: &[u8]) -> Result<Action, NoMemory> {
        let value = Bytes::from_slice(self.alloc, self.value)?;
        self.found = false;
        Ok(Action::Put(value))
    }
}

/// Stores a value, where there is none or the old one may be overwritten.
pub fn set<S: SeqStore, R: Wait, G: Gate>(
    alloc: Global,
    rt: &R,
    db: &Dbm<S>,
    pass: &mut Pass,
    key: &[u8],
    value: &[u8],
    overwrite: bool,
    at: &At<G>,
) -> Answer
    requires own { IsIdleOf S.lawful S.stands S.store_view S.constants db.now pass.old }
    requires key { length key.now ≤ 65535 }
    requires law { AllKeepLaw (setting S.lawful S.store_view S.fault_count db.now)
        (row_entry key.now (set_row value.now overwrite)) }
    ensures own { IsIdleOf S.lawful S.stands S.store_view S.constants db.now pass.new }
    ensures derived { Replies S.lawful S.stands S.store_view S.constants S.fault_count db.now true
        key.now (set_row value.now overwrite) (view pass.old) result (view pass.new) }
{
    let processor = LentSetter {
        alloc,
        value,
        overwrite,
        found: false,
    };
    let mut gated = Gated { processor, at: *at };
    let made = db.process(rt, pass, key, &mut gated, true);
    replied(made, gated.processor.status())
}
