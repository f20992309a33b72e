//! The arguments of calls of several keys.
ghost use Rattle.std.specs.Prelude.{◌≡◌, ◌≤◌, ◌++◌, ◌∷◌, List, Option, IfOk, true};
ghost use Rattle.tk_batch.specs.Arguments.{all_keys, get_multi_in, expected_pairs, desired_pairs, exchange_multi_in, op_in, no_value, multi_steps, multi_in};

use crate::script::arguments::{is_key, is_value, read_desired, read_expected};
use crate::script::number::read_number;
use std::alloc::Global;
use tk_calls::{
    Call, DesiredList, DesiredPair, ExpectedList, ExpectedPair, MultiStep, MultiStepList, Op,
};
use tk_model::{Bytes, BytesList, NoMemory};

const MAX_KEYS: usize = 256;

fn are_keys(keys: &[Bytes]) -> bool
    ensures { result ≡ all_keys keys.now }
{
    for key in keys {
        if !is_key(key.as_slice()) {
            return false;
        }
    }
    true
}

fn copy_keys(alloc: Global, keys: &[Bytes]) -> Result<BytesList, NoMemory>
    ensures { IfOk result (λ ks. ks ≡ keys.now) }
{
    let mut copy = BytesList::new(alloc);
    for key in keys {
        copy.push(Bytes::from_slice(alloc, key.as_slice())?)?;
    }
    Ok(copy)
}

pub(crate) fn read_get_multi(alloc: Global, args: &[Bytes]) -> Result<Option<Call>, NoMemory>
    ensures { IfOk result (λ c. c ≡ get_multi_in args.now) }
{
    if args.is_empty() || args.len() > MAX_KEYS || !are_keys(args) {
        return Ok(None);
    }
    Ok(Some(Call::GetMulti(copy_keys(alloc, args)?)))
}

fn read_expected_pairs(alloc: Global, args: &[Bytes]) -> Result<Option<ExpectedList>, NoMemory>
    ensures { IfOk result (λ es. es ≡ expected_pairs args.now) }
{
    let mut pairs = ExpectedList::new(alloc);
    let mut rest = args;
    while rest.len() >= 2 {
        let key = &rest[0];
        let form = &rest[1];
        if !is_key(key.as_slice()) {
            return Ok(None);
        }
        let Some(form) = read_expected(alloc, form.as_slice())? else {
            return Ok(None);
        };
        let key = Bytes::from_slice(alloc, key.as_slice())?;
        pairs.push(ExpectedPair { key, form })?;
        rest = &rest[2..];
    }
    if rest.is_empty() {
        Ok(Some(pairs))
    } else {
        Ok(None)
    }
}

fn read_desired_pairs(alloc: Global, args: &[Bytes]) -> Result<Option<DesiredList>, NoMemory>
    ensures { IfOk result (λ ds. ds ≡ desired_pairs args.now) }
{
    let mut pairs = DesiredList::new(alloc);
    let mut rest = args;
    while rest.len() >= 2 {
        let key = &rest[0];
        let form = &rest[1];
        if !is_key(key.as_slice()) {
            return Ok(None);
        }
        let Some(form) = read_desired(alloc, form.as_slice())? else {
            return Ok(None);
        };
        let key = Bytes::from_slice(alloc, key.as_slice())?;
        pairs.push(DesiredPair { key, form })?;
        rest = &rest[2..];
    }
    if rest.is_empty() {
        Ok(Some(pairs))
    } else {
        Ok(None)
    }
}

pub(crate) fn read_exchange_multi(alloc: Global, args: &[Bytes]) -> Result<Option<Call>, NoMemory>
    ensures { IfOk result (λ c. c ≡ exchange_multi_in args.now) }
{
    let [count, args @ ..] = args else {
        return Ok(None);
    };
    let Some(count) = read_number(count.as_slice(), MAX_KEYS as u64) else {
        return Ok(None);
    };
    let split = 2 * count as usize;
    if split > args.len() {
        return Ok(None);
    }
    let Some(expected) = read_expected_pairs(alloc, &args[..split])? else {
        return Ok(None);
    };
    let Some(desired) = read_desired_pairs(alloc, &args[split..])? else {
        return Ok(None);
    };
    if desired.len() > MAX_KEYS || (expected.is_empty() && desired.is_empty()) {
        return Ok(None);
    }
    Ok(Some(Call::CompareExchangeMulti { expected, desired }))
}

fn no_value(op: Op, value: &[u8]) -> Option<Op>
    ensures { result ≡ no_value op value.now }
{
    if value.is_empty() { Some(op) } else { None }
}

fn read_op(alloc: Global, name: &[u8], value: &[u8]) -> Result<Option<Op>, NoMemory>
    ensures { IfOk result (λ op. op ≡ op_in name.now value.now) }
{
    if name == b"get".as_slice() {
        return Ok(no_value(Op::Get, value));
    }
    if name == b"remove".as_slice() {
        return Ok(no_value(Op::Remove, value));
    }
    if !is_value(value) {
        return Ok(None);
    }
    if name == b"set".as_slice() {
        Ok(Some(Op::Set(Bytes::from_slice(alloc, value)?)))
    } else if name == b"add".as_slice() {
        Ok(Some(Op::Add(Bytes::from_slice(alloc, value)?)))
    } else if name == b"append".as_slice() {
        Ok(Some(Op::Append(Bytes::from_slice(alloc, value)?)))
    } else {
        Ok(None)
    }
}

fn read_steps(alloc: Global, args: &[Bytes]) -> Result<Option<MultiStepList>, NoMemory>
    ensures { IfOk result (λ steps. steps ≡ multi_steps args.now) }
{
    let mut steps = MultiStepList::new(alloc);
    let mut rest = args;
    while rest.len() >= 3 {
        let name = &rest[0];
        let key = &rest[1];
        let value = &rest[2];
        if !is_key(key.as_slice()) {
            return Ok(None);
        }
        let Some(op) = read_op(alloc, name.as_slice(), value.as_slice())? else {
            return Ok(None);
        };
        let key = Bytes::from_slice(alloc, key.as_slice())?;
        steps.push(MultiStep { op, key })?;
        rest = &rest[3..];
    }
    if rest.is_empty() {
        Ok(Some(steps))
    } else {
        Ok(None)
    }
}

pub(crate) fn read_multi(alloc: Global, args: &[Bytes]) -> Result<Option<Call>, NoMemory>
    ensures { IfOk result (λ c. c ≡ multi_in args.now) }
{
    let Some(steps) = read_steps(alloc, args)? else {
        return Ok(None);
    };
    if steps.is_empty() || steps.len() > MAX_KEYS {
        return Ok(None);
    }
    Ok(Some(Call::Multi(steps)))
}
