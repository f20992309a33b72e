ghost use Rattle.std.specs.Prelude.{◌≡◌, ◌≤◌, length, true};
ghost use Rattle.tk_proc.specs.Replies.{append_reply};
ghost use Rattle.tk_dbm.specs.Dbm.{setting, view, IsIdleOf, AllKeepLaw};
ghost use Rattle.tk_derived.specs.Rows.{append_row, row_entry};
ghost use Rattle.tk_derived.specs.Derived.{Replies};

use std::alloc::Global;
use std::sync::Wait;
use tk_dbm::{Answer, Dbm, Pass};
use tk_model::{Action, Bytes, NoMemory};
use tk_proc::{At, Gate, Gated, RecordProcessor};
use tk_store::SeqStore;

/// Stores a lent value behind the one that is there, with a lent delimiter between the two.
#[derive(Drop)]
struct LentAppender<'a> {
    alloc: Global,
    value: &'a [u8],
    delimiter: &'a [u8],
}

impl RecordProcessor for LentAppender<'_> {
    ghost acts = { λ p k was. (append_reply p.value.now p.delimiter.now was).action };

    ghost turns = { λ p k was. p };

    fn process_full(&mut self, _: &[u8], value: &[u8]) -> Result<Action, NoMemory> {
        let behind = self.delimiter.len().saturating_add(self.value.len());
        let mut longer = Bytes::with_capacity(self.alloc, value.len().saturating_add(behind))?;
        longer.extend(value)?;
        longer.extend(self.delimiter)?;
        longer.extend(self.value)?;
        Ok(Action::Put(longer))
    }

    fn process_empty(&mut self, _: &[u8]) -> Result<Action, NoMemory> {
        Ok(Action::Put(Bytes::from_slice(self.alloc, self.value)?))
    }
}

/// Puts a value behind the one that is there, with `delim` between the two, or stores it where there is none.
pub fn append<S: SeqStore, R: Wait, G: Gate>(
    alloc: Global,
    rt: &R,
    db: &Dbm<S>,
    pass: &mut Pass,
    key: &[u8],
    value: &[u8],
    delim: &[u8],
    at: &At<G>,
) -> Answer
    requires own { IsIdleOf S.lawful S.stands S.store_view S.constants db.now pass.old }
    requires key { length key.now ≤ 65535 }
    requires law { AllKeepLaw (setting S.lawful S.store_view S.fault_count db.now)
        (row_entry key.now (append_row value.now delim.now)) }
    ensures own { IsIdleOf S.lawful S.stands S.store_view S.constants db.now pass.new }
    ensures derived { Replies S.lawful S.stands S.store_view S.constants S.fault_count db.now true
        key.now (append_row value.now delim.now) (view pass.old) result (view pass.new) }
{
    let processor = LentAppender {
        alloc,
        value,
        delimiter: delim,
    };
    let mut gated = Gated { processor, at: *at };
    db.process(rt, pass, key, &mut gated, true)
}
