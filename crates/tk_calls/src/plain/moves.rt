//! The replies of the calls at several records.
ghost use Rattle.std.specs.Prelude.{◌≡◌, ◌∷◌, [], List, IfOk, Some, decimal};
ghost use Rattle.std.specs.Option.{option_copied};
ghost use Rattle.tk_model.specs.declared.record.Pair.{Pair};
ghost use Rattle.tk_calls.specs.Planned.{planned_reply};
ghost use Rattle.tk_calls.specs.Replies.{dropped_unless, moved, rekeyed, rekey_reply, get_multi_reply, exchange_multi_reply, multi_reply, each_reply};

use crate::plain::lists::{
    all_kept, all_met, all_there, each_touches, empty_fields, expected_plans, keep, keep_all,
    keys_of, multi_plans, plan_desired, seen_fields, values_at,
};
use crate::plain::planned::{first_long, planned, planned_reply};
use crate::plain::values::{found_or_not, is_there, met_or_not};
use crate::{
    DesiredPair, ExpectedPair, FieldList, LineReply, MultiStep, Plan, PlanList, Position, Step,
};
use std::alloc::Global;
use tk_model::{Action, Bytes, Entry, NoMemory, Order, PairList, is_same, value_at};
use tk_status::Status;

pub(crate) fn get_multi(
    alloc: Global,
    order: &Order,
    position: Position,
    keys: &[Bytes],
    records: &PairList,
) -> Result<LineReply, NoMemory>
    ensures { IfOk result (λ r. r ≡ get_multi_reply order.now position keys.now records.now) }
{
    let status = found_or_not(all_there(records, keys));
    let fields = values_at(alloc, records, keys)?;
    let plans = keep_all(alloc, keys)?;
    planned_reply(alloc, order, position, status, fields, &plans, records)
}

pub(crate) fn exchange_multi(
    alloc: Global,
    order: &Order,
    position: Position,
    expected: &[ExpectedPair],
    desired: &[DesiredPair],
    records: &PairList,
) -> Result<LineReply, NoMemory>
    ensures { IfOk result (λ r. r ≡ exchange_multi_reply order.now position expected.now desired.now
        records.now) }
{
    let met = all_met(records, expected);
    let status = met_or_not(met);
    let fields = FieldList::new(alloc);
    let mut plans = expected_plans(alloc, expected)?;
    plan_desired(met, desired, &mut plans)?;
    planned_reply(alloc, order, position, status, fields, &plans, records)
}

fn dropped_unless(copying: bool) -> Action
    ensures { result ≡ dropped_unless copying }
{
    if copying { Action::Keep } else { Action::Drop }
}

fn moved(
    alloc: Global,
    from: &Bytes,
    to: &Bytes,
    put: Action,
    drop: Action,
) -> Result<PlanList, NoMemory>
    ensures { IfOk result (λ plans. plans ≡ moved from.now to.now put drop) }
{
    let mut plans = PlanList::new(alloc);
    plans.push(keep(from)?)?;
    let key = to.clone()?;
    let step = Step::Always(put);
    plans.push(Plan { key, step })?;
    let key = from.clone()?;
    let step = Step::Always(drop);
    plans.push(Plan { key, step })?;
    Ok(plans)
}

/// The plans and the status of a record that gets another key.
fn moves(
    alloc: Global,
    from: &Bytes,
    to: &Bytes,
    overwrite: bool,
    copying: bool,
    value: Option<&Bytes>,
    there: bool,
) -> Result<(Status, PlanList), NoMemory>
    ensures { IfOk result (λ r. (o : Order) (p : Position) (m : List Pair)
        → planned_reply o p r.0 [] r.1 m ≡ rekeyed o p from.now to.now overwrite copying
        (option_copied value.entry) there m) }
{
    let Some(value) = value else {
        let plans = moved(alloc, from, to, Action::Keep, Action::Keep)?;
        return Ok((Status::NotFound, plans));
    };
    if there && !overwrite {
        let plans = moved(alloc, from, to, Action::Keep, Action::Keep)?;
        return Ok((Status::Duplication, plans));
    }
    let put = Action::Put(value.clone()?);
    let plans = moved(alloc, from, to, put, dropped_unless(copying))?;
    Ok((Status::Success, plans))
}

pub(crate) fn rekey(
    alloc: Global,
    order: &Order,
    position: Position,
    from: &Bytes,
    to: &Bytes,
    overwrite: bool,
    copying: bool,
    records: &PairList,
) -> Result<LineReply, NoMemory>
    ensures { IfOk result (λ r. r ≡ rekey_reply order.now position from.now to.now overwrite
        copying records.now) }
{
    let value = value_at(records.as_slice(), from.as_slice());
    let fields = FieldList::new(alloc);
    if is_same(from.as_slice(), to.as_slice()) {
        let mut plans = PlanList::new(alloc);
        plans.push(keep(from)?)?;
        let status = found_or_not(value.is_some());
        return planned_reply(alloc, order, position, status, fields, &plans, records);
    }
    let there = is_there(records, to);
    let (status, plans) = moves(alloc, from, to, overwrite, copying, value, there)?;
    planned_reply(alloc, order, position, status, fields, &plans, records)
}

pub(crate) fn multi(
    alloc: Global,
    order: &Order,
    position: Position,
    steps: &[MultiStep],
    records: &PairList,
) -> Result<LineReply, NoMemory>
    ensures { IfOk result (λ r. r ≡ multi_reply order.now position steps.now records.now) }
{
    let plans = multi_plans(alloc, steps)?;
    let touches = planned(alloc, order, plans.as_slice(), records)?;
    let fields = seen_fields(alloc, touches.as_slice())?;
    planned_reply(
        alloc,
        order,
        position,
        Status::Success,
        fields,
        &plans,
        records,
    )
}

pub(crate) fn number_field(alloc: Global, number: u64) -> Result<FieldList, NoMemory>
    ensures { IfOk result (λ fields. fields ≡ Some (decimal number) ∷ []) }
{
    let mut fields = FieldList::new(alloc);
    let digits = format!(in alloc; "{number}")?;
    fields.push(Some(Bytes::from_slice(alloc, digits.as_bytes())?))?;
    Ok(fields)
}

pub(crate) fn each(
    alloc: Global,
    position: Position,
    value: &Bytes,
    records: &PairList,
) -> Result<LineReply, NoMemory>
    ensures { IfOk result (λ r. r ≡ each_reply position value.now records.now) }
{
    let touches = each_touches(alloc, value, records.as_slice())?;
    let fields = number_field(alloc, records.len() as u64)?;
    match first_long(touches.as_slice()) {
        None => Ok(LineReply {
            status: Status::Success,
            fields,
            entry: Entry::Each(touches),
            position,
        }),
        Some(length) => {
            let keys = keys_of(alloc, records.as_slice())?;
            Ok(LineReply {
                status: Status::TooLong { length },
                fields: empty_fields(alloc, fields.as_slice())?,
                entry: Entry::Each(all_kept(alloc, records, keys.as_slice())?),
                position,
            })
        }
    }
}
