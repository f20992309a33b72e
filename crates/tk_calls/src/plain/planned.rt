//! Calls at keys, as plans.
ghost use Rattle.std.specs.Prelude.{◌≡◌, ◌++◌, ◌∷◌, [], IfOk, OnOk, OnErr};
ghost use Rattle.std.specs.Option.{option_copied};
ghost use Rattle.tk_model.specs.Entries.{touched};
ghost use Rattle.tk_proc.specs.Runs.{first_long};
ghost use Rattle.tk_calls.specs.Planned.{plan_touch, planned, planned_reply, key_reply};

use crate::plain::lists::{all_kept, empty_fields, keys_planned};
use crate::plain::values::{copy_value, step_action};
use crate::{FieldList, LineReply, Plan, PlanList, Position, Step};
use std::alloc::Global;
use tk_model::{
    Action, Bytes, Entry, NoMemory, Order, Pair, PairList, Touch, TouchList, drop_in, put_in,
    value_at,
};
use tk_status::Status;

const VALUE_LIMIT: usize = 16_777_215;

/// The length of the first value that is too long to store.
pub(crate) fn first_long(touches: &[Touch]) -> Option<u64>
    ensures { result ≡ first_long touches.now }
{
    for touch in touches {
        if let Action::Put(value) = &touch.action {
            if value.len() > VALUE_LIMIT {
                return Some(value.len() as u64);
            }
        }
    }
    None
}

fn plan_touch(alloc: Global, plan: &Plan, records: &PairList) -> Result<Touch, NoMemory>
    ensures { IfOk result (λ touch. touch ≡ plan_touch plan.now records.now) }
{
    let was = copy_value(value_at(records.as_slice(), plan.key.as_slice()))?;
    let action = match &was {
        Some(value) => step_action(
            alloc,
            &plan.step,
            plan.key.as_slice(),
            Some(value.as_slice()),
        )?,
        None => step_action(alloc, &plan.step, plan.key.as_slice(), None)?,
    };
    let key = plan.key.clone()?;
    Ok(Touch { key, was, action })
}

fn act_in(records: &mut PairList, order: &Order, touch: &Touch) -> Result<(), NoMemory>
    ensures { OnOk result (records.new ≡ touched order.now touch.now.key touch.now.action
        records.old) }
{
    match &touch.action {
        Action::Keep => {}
        Action::Put(value) => {
            let new = Pair {
                key: touch.key.clone()?,
                value: value.clone()?,
            };
            put_in(records, order, new)?;
        }
        Action::Drop => drop_in(records, touch.key.as_slice()),
    }
    Ok(())
}

/// The touches in turn.
pub(crate) fn planned(
    alloc: Global,
    order: &Order,
    plans: &[Plan],
    records: &PairList,
) -> Result<TouchList, NoMemory>
    ensures { IfOk result (λ touches. touches ≡ planned order.now plans.now records.now) }
{
    let mut so_far = records.clone()?;
    let mut touches = TouchList::new(alloc);
    for plan in plans {
        let touch = plan_touch(alloc, plan, &so_far)?;
        act_in(&mut so_far, order, &touch)?;
        touches.push(touch)?;
    }
    Ok(touches)
}

/// The reply of a call at some keys.
pub(crate) fn planned_reply(
    alloc: Global,
    order: &Order,
    position: Position,
    status: Status,
    fields: FieldList,
    plans: &PlanList,
    records: &PairList,
) -> Result<LineReply, NoMemory>
    ensures { IfOk result (λ r. r ≡ planned_reply order.now position status fields plans.now
        records.now) }
{
    let touches = planned(alloc, order, plans.as_slice(), records)?;
    match first_long(touches.as_slice()) {
        None => Ok(LineReply {
            status,
            fields,
            entry: Entry::Proc(touches),
            position,
        }),
        Some(length) => {
            let keys = keys_planned(alloc, plans.as_slice())?;
            Ok(LineReply {
                status: Status::TooLong { length },
                fields: empty_fields(alloc, fields.as_slice())?,
                entry: Entry::Proc(all_kept(alloc, records, keys.as_slice())?),
                position,
            })
        }
    }
}

/// The reply of a call at one key.
pub(crate) fn key_reply(
    alloc: Global,
    order: &Order,
    position: Position,
    status: Status,
    fields: FieldList,
    key: &Bytes,
    step: Step,
    records: &PairList,
) -> Result<LineReply, NoMemory>
    ensures { IfOk result (λ r. r ≡ key_reply order.now position status fields key.now step
        records.now) }
{
    let mut plans = PlanList::new(alloc);
    let key = key.clone()?;
    plans.push(Plan { key, step })?;
    planned_reply(alloc, order, position, status, fields, &plans, records)
}
