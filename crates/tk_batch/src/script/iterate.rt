//! The calls of the iterator.
ghost use Rattle.std.specs.Prelude.{◌≡◌, IfOk};
ghost use Rattle.tk_batch.specs.Arguments.{jump_in, lower_in, upper_in, iter_set_in};
ghost use Rattle.tk_batch.specs.Script.{iterator_call_in};

use crate::script::arguments::{is_key, is_value, read_flag, read_none};
use std::alloc::Global;
use tk_calls::Call;
use tk_model::{Bytes, NoMemory};

fn read_jump(alloc: Global, args: &[Bytes]) -> Result<Option<Call>, NoMemory>
    ensures { IfOk result (λ c. c ≡ jump_in args.now) }
{
    let [key] = args else {
        return Ok(None);
    };
    if !is_key(key.as_slice()) {
        return Ok(None);
    }
    Ok(Some(Call::Jump(Bytes::from_slice(alloc, key.as_slice())?)))
}

fn read_lower(alloc: Global, args: &[Bytes]) -> Result<Option<Call>, NoMemory>
    ensures { IfOk result (λ c. c ≡ lower_in args.now) }
{
    let [key, inclusive] = args else {
        return Ok(None);
    };
    let Some(inclusive) = read_flag(inclusive.as_slice()) else {
        return Ok(None);
    };
    if !is_key(key.as_slice()) {
        return Ok(None);
    }
    let key = Bytes::from_slice(alloc, key.as_slice())?;
    Ok(Some(Call::Lower { key, inclusive }))
}

fn read_upper(alloc: Global, args: &[Bytes]) -> Result<Option<Call>, NoMemory>
    ensures { IfOk result (λ c. c ≡ upper_in args.now) }
{
    let [key, inclusive] = args else {
        return Ok(None);
    };
    let Some(inclusive) = read_flag(inclusive.as_slice()) else {
        return Ok(None);
    };
    if !is_key(key.as_slice()) {
        return Ok(None);
    }
    let key = Bytes::from_slice(alloc, key.as_slice())?;
    Ok(Some(Call::Upper { key, inclusive }))
}

fn read_iter_set(alloc: Global, args: &[Bytes]) -> Result<Option<Call>, NoMemory>
    ensures { IfOk result (λ c. c ≡ iter_set_in args.now) }
{
    let [value] = args else {
        return Ok(None);
    };
    if !is_value(value.as_slice()) {
        return Ok(None);
    }
    Ok(Some(Call::IterSet(Bytes::from_slice(alloc, value.as_slice())?)))
}

/// A call of the iterator, by its name and arguments.
pub(crate) fn read_iterator_call(
    alloc: Global,
    name: &[u8],
    args: &[Bytes],
) -> Result<Option<Call>, NoMemory>
    ensures { IfOk result (λ c. c ≡ iterator_call_in name.now args.now) }
{
    if name == b"first".as_slice() {
        Ok(read_none(args, Call::First))
    } else if name == b"last".as_slice() {
        Ok(read_none(args, Call::Last))
    } else if name == b"next".as_slice() {
        Ok(read_none(args, Call::Next))
    } else if name == b"previous".as_slice() {
        Ok(read_none(args, Call::Previous))
    } else if name == b"iremove".as_slice() {
        Ok(read_none(args, Call::IterRemove))
    } else if name == b"jump".as_slice() {
        read_jump(alloc, args)
    } else if name == b"lower".as_slice() {
        read_lower(alloc, args)
    } else if name == b"upper".as_slice() {
        read_upper(alloc, args)
    } else if name == b"iget".as_slice() {
        Ok(read_none(args, Call::IterGet))
    } else if name == b"iset".as_slice() {
        read_iter_set(alloc, args)
    } else {
        Ok(None)
    }
}
