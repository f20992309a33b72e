//! Lists made of lists, item by item.
ghost use Rattle.std.specs.Prelude.{◌≡◌, ◌++◌, IfOk, OnOk, map};
ghost use Rattle.tk_model.specs.Records.{find};
ghost use Rattle.tk_model.specs.declared.record.Touch.{Touch};
ghost use Rattle.tk_proc.specs.Runs.{kept, keys_of};
ghost use Rattle.tk_calls.specs.Planned.{empty_field, keys_planned};
ghost use Rattle.tk_calls.specs.Replies.{all_there, all_met, keep, expected_plan, desired_plan, multi_plan, each_touch, op_step};

use crate::plain::values::{copy_value, is_met, joined};
use crate::{DesiredPair, ExpectedPair, Field, FieldList, MultiStep, Op, Plan, PlanList, Step};
use std::alloc::Global;
use tk_model::{Action, Bytes, BytesList, NoMemory, Pair, PairList, Touch, TouchList, value_at};

fn empty_field(field: &Field) -> Field
    ensures { result ≡ empty_field field.now }
{
    let _ = field;
    None
}

fn plan_key(plan: &Plan) -> Result<Bytes, NoMemory>
    ensures { IfOk result (λ key. key ≡ plan.now.key) }
{
    Ok(plan.key.clone()?)
}

fn pair_key(pair: &Pair) -> Result<Bytes, NoMemory>
    ensures { IfOk result (λ key. key ≡ pair.now.key) }
{
    Ok(pair.key.clone()?)
}

pub(crate) fn empty_fields(alloc: Global, fields: &[Field]) -> Result<FieldList, NoMemory>
    ensures { IfOk result (λ empty. empty ≡ map empty_field fields.now) }
{
    let mut empty = FieldList::new(alloc);
    for field in fields {
        empty.push(empty_field(field))?;
    }
    Ok(empty)
}

pub(crate) fn keys_planned(alloc: Global, plans: &[Plan]) -> Result<BytesList, NoMemory>
    ensures { IfOk result (λ keys. keys ≡ keys_planned plans.now) }
{
    let mut keys = BytesList::new(alloc);
    for plan in plans {
        keys.push(plan_key(plan)?)?;
    }
    Ok(keys)
}

pub(crate) fn keys_of(alloc: Global, records: &[Pair]) -> Result<BytesList, NoMemory>
    ensures { IfOk result (λ keys. keys ≡ keys_of records.now) }
{
    let mut keys = BytesList::new(alloc);
    for pair in records {
        keys.push(pair_key(pair)?)?;
    }
    Ok(keys)
}

fn kept(records: &PairList, key: &Bytes) -> Result<Touch, NoMemory>
    ensures { IfOk result (λ touch. touch ≡ kept records.now key.now) }
{
    let was = copy_value(value_at(records.as_slice(), key.as_slice()))?;
    let key = key.clone()?;
    let action = Action::Keep;
    Ok(Touch { key, was, action })
}

/// Touches that keep what is there.
pub(crate) fn all_kept(
    alloc: Global,
    records: &PairList,
    keys: &[Bytes],
) -> Result<TouchList, NoMemory>
    ensures { IfOk result (λ touches. touches ≡ map (kept records.now) keys.now) }
{
    let mut touches = TouchList::new(alloc);
    for key in keys {
        touches.push(kept(records, key)?)?;
    }
    Ok(touches)
}

pub(crate) fn seen_fields(alloc: Global, touches: &[Touch]) -> Result<FieldList, NoMemory>
    ensures { IfOk result (λ fields. fields ≡ map (λ (t : Touch). t.was) touches.now) }
{
    let mut fields = FieldList::new(alloc);
    for touch in touches {
        fields.push(copy_value(touch.was.as_ref())?)?;
    }
    Ok(fields)
}

pub(crate) fn values_at(
    alloc: Global,
    records: &PairList,
    keys: &[Bytes],
) -> Result<FieldList, NoMemory>
    ensures { IfOk result (λ fields. fields ≡ map (λ k. find k records.now) keys.now) }
{
    let mut fields = FieldList::new(alloc);
    for key in keys {
        fields.push(copy_value(value_at(records.as_slice(), key.as_slice()))?)?;
    }
    Ok(fields)
}

pub(crate) fn all_there(records: &PairList, keys: &[Bytes]) -> bool
    ensures { result ≡ all_there keys.now records.now }
{
    for key in keys {
        if value_at(records.as_slice(), key.as_slice()).is_none() {
            return false;
        }
    }
    true
}

pub(crate) fn all_met(records: &PairList, expected: &[ExpectedPair]) -> bool
    ensures { result ≡ all_met expected.now records.now }
{
    for pair in expected {
        let was = value_at(records.as_slice(), pair.key.as_slice());
        if !is_met(&pair.form, was) {
            return false;
        }
    }
    true
}

pub(crate) fn keep(key: &Bytes) -> Result<Plan, NoMemory>
    ensures { IfOk result (λ plan. plan ≡ keep key.now) }
{
    let key = key.clone()?;
    let step = Step::Always(Action::Keep);
    Ok(Plan { key, step })
}

pub(crate) fn keep_all(alloc: Global, keys: &[Bytes]) -> Result<PlanList, NoMemory>
    ensures { IfOk result (λ plans. plans ≡ map keep keys.now) }
{
    let mut plans = PlanList::new(alloc);
    for key in keys {
        plans.push(keep(key)?)?;
    }
    Ok(plans)
}

pub(crate) fn expected_plans(alloc: Global, expected: &[ExpectedPair]) -> Result<PlanList, NoMemory>
    ensures { IfOk result (λ plans. plans ≡ map expected_plan expected.now) }
{
    let mut plans = PlanList::new(alloc);
    for pair in expected {
        plans.push(keep(&pair.key)?)?;
    }
    Ok(plans)
}

fn desired_plan(met: bool, pair: &DesiredPair) -> Result<Plan, NoMemory>
    ensures { IfOk result (λ plan. plan ≡ desired_plan met pair.now) }
{
    let key = pair.key.clone()?;
    let action = if met {
        pair.form.action()?
    } else {
        Action::Keep
    };
    let step = Step::Always(action);
    Ok(Plan { key, step })
}

/// Puts the plans of what is desired at the end.
pub(crate) fn plan_desired(
    met: bool,
    desired: &[DesiredPair],
    plans: &mut PlanList,
) -> Result<(), NoMemory>
    ensures { OnOk result (plans.new ≡ plans.old ++ map (desired_plan met) desired.now) }
{
    for pair in desired {
        plans.push(desired_plan(met, pair)?)?;
    }
    Ok(())
}

fn op_step(alloc: Global, op: &Op) -> Result<Step, NoMemory>
    ensures { IfOk result (λ step. step ≡ op_step op.now) }
{
    match op {
        Op::Get => Ok(Step::Get),
        Op::Set(value) => Ok(Step::Set(value.clone()?)),
        Op::Add(value) => Ok(Step::Add(value.clone()?)),
        Op::Append(value) => {
            let value = value.clone()?;
            let delimiter = Bytes::new(alloc);
            Ok(Step::Append { value, delimiter })
        }
        Op::Remove => Ok(Step::Remove),
    }
}

fn multi_plan(alloc: Global, multi: &MultiStep) -> Result<Plan, NoMemory>
    ensures { IfOk result (λ plan. plan ≡ multi_plan multi.now) }
{
    let key = multi.key.clone()?;
    let step = op_step(alloc, &multi.op)?;
    Ok(Plan { key, step })
}

pub(crate) fn multi_plans(alloc: Global, steps: &[MultiStep]) -> Result<PlanList, NoMemory>
    ensures { IfOk result (λ plans. plans ≡ map multi_plan steps.now) }
{
    let mut plans = PlanList::new(alloc);
    for multi in steps {
        plans.push(multi_plan(alloc, multi)?)?;
    }
    Ok(plans)
}

fn each_touch(value: &Bytes, pair: &Pair) -> Result<Touch, NoMemory>
    ensures { IfOk result (λ touch. touch ≡ each_touch value.now pair.now) }
{
    let key = pair_key(pair)?;
    let was = copy_value(Some(&pair.value))?;
    let action = Action::Put(joined(&pair.value, value)?);
    Ok(Touch { key, was, action })
}

pub(crate) fn each_touches(
    alloc: Global,
    value: &Bytes,
    records: &[Pair],
) -> Result<TouchList, NoMemory>
    ensures { IfOk result (λ touches. touches ≡ map (each_touch value.now) records.now) }
{
    let mut touches = TouchList::new(alloc);
    for pair in records {
        touches.push(each_touch(value, pair)?)?;
    }
    Ok(touches)
}
