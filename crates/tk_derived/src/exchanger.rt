ghost use Rattle.std.specs.Prelude.{◌≡◌, ◌≤◌, ◌∷◌, [], length, true, IfOk, OnOk, OnErr, if◌then◌else◌};
ghost use Rattle.std.specs.Option.{option_copied};
ghost use Rattle.tk_status.specs.declared.Status.TheVariants.{Success as success, Infeasible as infeasible};
ghost use Rattle.tk_proc.specs.Replies.{is_met, exchange_reply};
ghost use Rattle.tk_dbm.specs.Dbm.{setting, view, IsIdleOf, AllKeepLaw};
ghost use Rattle.tk_derived.specs.Rows.{exchange_row, exchange_value, row_entry};
ghost use Rattle.tk_derived.specs.Derived.{Replies, IsTold};

use crate::reply::{replied, tell};
use std::alloc::Global;
use std::sync::Wait;
use tk_dbm::{Answer, Dbm, Pass};
use tk_model::{Action, Bytes, ListOf, NoMemory};
use tk_proc::{At, Desired, Expected, Gate, Gated, RecordProcessor};
use tk_status::Status;
use tk_store::SeqStore;

/// The values of records, some of which may be absent.
pub type ValueList = ListOf<Option<Bytes>>;

/// Changes a record that is as it is expected, by lent forms, and lists the value that it found.
#[derive(Drop)]
struct LentExchanger<'a> {
    alloc: Global,
    expected: &'a Expected,
    desired: &'a Desired,
    met: bool,
    found: ValueList,
}

impl LentExchanger<'_> {
    /// The answer of the last call.
    fn status(&self) -> Status
        ensures { result ≡ if self.now.met then success else infeasible }
    {
        if self.met {
            Status::Success
        } else {
            Status::Infeasible
        }
    }

    /// A list of a copy of this value, or of none.
    fn listed(&self, value: Option<&[u8]>) -> Result<ValueList, NoMemory>
        ensures { IfOk result (λ l. l ≡ option_copied value.entry ∷ []) }
    {
        let copy = match value {
            Some(value) => Some(Bytes::from_slice(self.alloc, value)?),
            None => None,
        };
        let mut list = ValueList::new(self.alloc);
        list.push(copy)?;
        Ok(list)
    }

    /// The call at a record of this value.
    fn exchange(&mut self, value: Option<&[u8]>) -> Result<Action, NoMemory>
        ensures action { IfOk result (λ a. a ≡ (exchange_reply self.old.expected.now
            self.old.desired.now (option_copied value.entry)).action) }
        ensures turned { OnOk result (self.new ≡ record self.old {
          met = is_met self.old.expected.now (option_copied value.entry);
          found = option_copied value.entry ∷ [];
        }) }
        ensures err { OnErr result (self.new ≡ self.old) }
    {
        let met = self.expected.is_met(value);
        let action = if met {
            self.desired.action()?
        } else {
            Action::Keep
        };
        self.found = self.listed(value)?;
        self.met = met;
        Ok(action)
    }
}

impl RecordProcessor for LentExchanger<'_> {
    ghost acts = { λ p k was. (exchange_reply p.expected.now p.desired.now was).action };

    ghost turns = { λ p k was. record p { met = is_met p.expected.now was; found = was ∷ [] } };

    fn process_full(&mut self, _: &[u8], value: &[u8]) -> Result<Action, NoMemory> {
        self.exchange(Some(value))
    }

    fn process_empty(&mut self, _: &[u8]) -> Result<Action, NoMemory> {
        self.exchange(None)
    }
}

/// Does what is desired of a record that is as expected. `actual` becomes the list of the value that was there, or of none.
pub fn compare_exchange<S: SeqStore, R: Wait, G: Gate>(
    alloc: Global,
    rt: &R,
    db: &Dbm<S>,
    pass: &mut Pass,
    key: &[u8],
    expected: &Expected,
    desired: &Desired,
    actual: &mut ValueList,
    at: &At<G>,
) -> Answer
    requires own { IsIdleOf S.lawful S.stands S.store_view S.constants db.now pass.old }
    requires key { length key.now ≤ 65535 }
    requires law { AllKeepLaw (setting S.lawful S.store_view S.fault_count db.now)
        (row_entry key.now (exchange_row expected.now desired.now)) }
    ensures own { IsIdleOf S.lawful S.stands S.store_view S.constants db.now pass.new }
    ensures derived { Replies S.lawful S.stands S.store_view S.constants S.fault_count db.now true
        key.now (exchange_row expected.now desired.now) (view pass.old) result
        (view pass.new) }
    ensures actual { IsTold (setting S.lawful S.store_view S.fault_count db.now) key.now
        (exchange_value expected.now desired.now) result (view pass.new) actual.old actual.new }
{
    let processor = LentExchanger {
        alloc,
        expected,
        desired,
        met: false,
        found: ValueList::new(alloc),
    };
    let mut gated = Gated { processor, at: *at };
    let made = db.process(rt, pass, key, &mut gated, true);
    let Gated { processor, .. } = gated;
    let answer = replied(made, processor.status());
    let LentExchanger { found, .. } = processor;
    tell(actual, &made, Some(found));
    answer
}
