//! The arguments of the calls of one key, of all records and of none.
ghost use Rattle.std.specs.Prelude.{◌≡◌, ℕ, List, IfOk, option_map};
ghost use Rattle.tk_calls.specs.declared.call.Call.TheVariants as calls;
ghost use Rattle.tk_batch.specs.Arguments.{is_key, is_value, expected_in, desired_in, flag_in, no_args, get_in, remove_in, set_in, add_in, append_in, exchange_in, increment_in, rekey_in, rekey_by, each_in, sync_in};

use crate::script::number::read_signed;
use std::alloc::Global;
use tk_calls::Call;
use tk_model::{Bytes, NoMemory};
use tk_proc::{Desired, Expected};

const MAX_KEY: usize = 65_535;

const MAX_VALUE: usize = 16_777_215;

pub(crate) fn is_key(key: &[u8]) -> bool
    ensures { result ≡ is_key key.now }
{
    key.len() <= MAX_KEY
}

pub(crate) fn is_value(value: &[u8]) -> bool
    ensures { result ≡ is_value value.now }
{
    value.len() <= MAX_VALUE
}

pub(crate) fn read_expected(alloc: Global, text: &[u8]) -> Result<Option<Expected>, NoMemory>
    ensures { IfOk result (λ e. e ≡ expected_in text.now) }
{
    if text == b"absent".as_slice() {
        return Ok(Some(Expected::Absent));
    }
    if text == b"any".as_slice() {
        return Ok(Some(Expected::Any));
    }
    match text {
        [b'=', value @ ..] => {
            if !is_value(value) {
                return Ok(None);
            }
            Ok(Some(Expected::Value(Bytes::from_slice(alloc, value)?)))
        }
        _ => Ok(None),
    }
}

pub(crate) fn read_desired(alloc: Global, text: &[u8]) -> Result<Option<Desired>, NoMemory>
    ensures { IfOk result (λ d. d ≡ desired_in text.now) }
{
    if text == b"remove".as_slice() {
        return Ok(Some(Desired::Remove));
    }
    if text == b"leave".as_slice() {
        return Ok(Some(Desired::Leave));
    }
    match text {
        [b'=', value @ ..] => {
            if !is_value(value) {
                return Ok(None);
            }
            Ok(Some(Desired::Value(Bytes::from_slice(alloc, value)?)))
        }
        _ => Ok(None),
    }
}

pub(crate) fn read_flag(text: &[u8]) -> Option<bool>
    ensures { result ≡ flag_in text.now }
{
    if text == b"0".as_slice() {
        Some(false)
    } else if text == b"1".as_slice() {
        Some(true)
    } else {
        None
    }
}

pub(crate) fn read_none(args: &[Bytes], call: Call) -> Option<Call>
    ensures { result ≡ no_args call args.now }
{
    if args.is_empty() { Some(call) } else { None }
}

pub(crate) fn read_get(alloc: Global, args: &[Bytes]) -> Result<Option<Call>, NoMemory>
    ensures { IfOk result (λ c. c ≡ get_in args.now) }
{
    let [key] = args else {
        return Ok(None);
    };
    if !is_key(key.as_slice()) {
        return Ok(None);
    }
    Ok(Some(Call::Get(Bytes::from_slice(alloc, key.as_slice())?)))
}

pub(crate) fn read_remove(alloc: Global, args: &[Bytes]) -> Result<Option<Call>, NoMemory>
    ensures { IfOk result (λ c. c ≡ remove_in args.now) }
{
    let [key] = args else {
        return Ok(None);
    };
    if !is_key(key.as_slice()) {
        return Ok(None);
    }
    Ok(Some(Call::Remove(Bytes::from_slice(alloc, key.as_slice())?)))
}

pub(crate) fn read_set(alloc: Global, args: &[Bytes]) -> Result<Option<Call>, NoMemory>
    ensures { IfOk result (λ c. c ≡ set_in args.now) }
{
    let [key, value] = args else {
        return Ok(None);
    };
    if !is_key(key.as_slice()) || !is_value(value.as_slice()) {
        return Ok(None);
    }
    let key = Bytes::from_slice(alloc, key.as_slice())?;
    let value = Bytes::from_slice(alloc, value.as_slice())?;
    Ok(Some(Call::Set { key, value }))
}

pub(crate) fn read_add(alloc: Global, args: &[Bytes]) -> Result<Option<Call>, NoMemory>
    ensures { IfOk result (λ c. c ≡ add_in args.now) }
{
    let [key, value] = args else {
        return Ok(None);
    };
    if !is_key(key.as_slice()) || !is_value(value.as_slice()) {
        return Ok(None);
    }
    let key = Bytes::from_slice(alloc, key.as_slice())?;
    let value = Bytes::from_slice(alloc, value.as_slice())?;
    Ok(Some(Call::Add { key, value }))
}

pub(crate) fn read_append(alloc: Global, args: &[Bytes]) -> Result<Option<Call>, NoMemory>
    ensures { IfOk result (λ c. c ≡ append_in args.now) }
{
    let [key, value, delimiter] = args else {
        return Ok(None);
    };
    if !is_key(key.as_slice()) || !is_value(value.as_slice()) {
        return Ok(None);
    }
    let key = Bytes::from_slice(alloc, key.as_slice())?;
    let value = Bytes::from_slice(alloc, value.as_slice())?;
    let delimiter = Bytes::from_slice(alloc, delimiter.as_slice())?;
    Ok(Some(Call::Append {
        key,
        value,
        delimiter,
    }))
}

pub(crate) fn read_exchange(alloc: Global, args: &[Bytes]) -> Result<Option<Call>, NoMemory>
    ensures { IfOk result (λ c. c ≡ exchange_in args.now) }
{
    let [key, expected, desired] = args else {
        return Ok(None);
    };
    let Some(expected) = read_expected(alloc, expected.as_slice())? else {
        return Ok(None);
    };
    let Some(desired) = read_desired(alloc, desired.as_slice())? else {
        return Ok(None);
    };
    if !is_key(key.as_slice()) {
        return Ok(None);
    }
    let key = Bytes::from_slice(alloc, key.as_slice())?;
    Ok(Some(Call::CompareExchange {
        key,
        expected,
        desired,
    }))
}

pub(crate) fn read_increment(alloc: Global, args: &[Bytes]) -> Result<Option<Call>, NoMemory>
    ensures { IfOk result (λ c. c ≡ increment_in args.now) }
{
    let [key, n, initial] = args else {
        return Ok(None);
    };
    let (Some(n), Some(initial)) = (read_signed(n.as_slice()), read_signed(initial.as_slice()))
    else {
        return Ok(None);
    };
    if !is_key(key.as_slice()) {
        return Ok(None);
    }
    let key = Bytes::from_slice(alloc, key.as_slice())?;
    Ok(Some(Call::Increment { key, n, initial }))
}

/// The flags of a `rekey`: overwrite, and copying.
fn read_flags(text: &[u8]) -> Option<(bool, bool)>
    ensures { (from to : List ℕ) → rekey_by from to text.now
        ≡ option_map (λ f. calls.Rekey from to f.0 f.1) result }
{
    if text == b"-".as_slice() {
        Some((false, false))
    } else if text == b"o".as_slice() {
        Some((true, false))
    } else if text == b"c".as_slice() {
        Some((false, true))
    } else if text == b"oc".as_slice() {
        Some((true, true))
    } else {
        None
    }
}

pub(crate) fn read_rekey(alloc: Global, args: &[Bytes]) -> Result<Option<Call>, NoMemory>
    ensures { IfOk result (λ c. c ≡ rekey_in args.now) }
{
    let [from, to, flags] = args else {
        return Ok(None);
    };
    if !is_key(from.as_slice()) || !is_key(to.as_slice()) {
        return Ok(None);
    }
    let Some((overwrite, copying)) = read_flags(flags.as_slice()) else {
        return Ok(None);
    };
    let from = Bytes::from_slice(alloc, from.as_slice())?;
    let to = Bytes::from_slice(alloc, to.as_slice())?;
    Ok(Some(Call::Rekey {
        from,
        to,
        overwrite,
        copying,
    }))
}

pub(crate) fn read_each(alloc: Global, args: &[Bytes]) -> Result<Option<Call>, NoMemory>
    ensures { IfOk result (λ c. c ≡ each_in args.now) }
{
    let [value] = args else {
        return Ok(None);
    };
    if !is_value(value.as_slice()) {
        return Ok(None);
    }
    Ok(Some(Call::Each(Bytes::from_slice(alloc, value.as_slice())?)))
}

pub(crate) fn read_sync(args: &[Bytes]) -> Option<Call>
    ensures { result ≡ sync_in args.now }
{
    let [mode] = args else {
        return None;
    };
    if mode.as_slice() == b"hard".as_slice() {
        Some(Call::Sync(true))
    } else if mode.as_slice() == b"soft".as_slice() {
        Some(Call::Sync(false))
    } else {
        None
    }
}
