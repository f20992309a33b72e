//! The lines of a script, written.
ghost use Rattle.std.specs.Prelude.{◌≡◌, ◌++◌, ◌∷◌, [], IfOk, OnOk, true, false, length, decimal, codes};
ghost use Rattle.tk_flat.specs.Escapes.{escaped};
ghost use Rattle.std.specs.Fmt.{signed_decimal};
ghost use Rattle.tk_calls.specs.Calls.{is_of_iterator};
ghost use Rattle.tk_batch.specs.Written.{tabbed, IsBack, AllBack, IsReadBack, line_body, name_of, args_of, expected_word, desired_word, flag_word, mode_word, rekey_word, op_word, op_value, expected_fields, desired_fields, step_fields};

use crate::Line;
use std::alloc::Global;
use tk_calls::{Call, DesiredPair, ExpectedPair, MultiStep, Op};
use tk_flat::escape;
use tk_model::{Bytes, NoMemory};
use tk_proc::{Desired, Expected};

/// Puts a field at the end, behind a TAB.
fn put_field(field: &[u8], out: &mut Bytes) -> Result<(), NoMemory>
    ensures ok { OnOk result (out.new ≡ out.old ++ (9 ∷ escaped field.now)) }
    ensures back { OnOk result (IsBack field.now) }
{
    out.push(b'\t')?;
    escape(field, out)
}

fn put_one(name: &[u8], out: &mut Bytes) -> Result<(), NoMemory>
    ensures ok { OnOk result (out.new ≡ out.old ++ tabbed (name.now ∷ [])) }
    ensures back { OnOk result (AllBack (name.now ∷ [])) }
{
    put_field(name, out)
}

fn put_two(name: &[u8], a: &[u8], out: &mut Bytes) -> Result<(), NoMemory>
    ensures ok { OnOk result (out.new ≡ out.old ++ tabbed (name.now ∷ a.now ∷ [])) }
    ensures back { OnOk result (AllBack (name.now ∷ a.now ∷ [])) }
{
    put_field(name, out)?;
    put_one(a, out)
}

fn put_three(name: &[u8], a: &[u8], b: &[u8], out: &mut Bytes) -> Result<(), NoMemory>
    ensures ok { OnOk result (out.new ≡ out.old ++ tabbed (name.now ∷ a.now ∷ b.now ∷ [])) }
    ensures back { OnOk result (AllBack (name.now ∷ a.now ∷ b.now ∷ [])) }
{
    put_field(name, out)?;
    put_two(a, b, out)
}

fn put_four(name: &[u8], a: &[u8], b: &[u8], c: &[u8], out: &mut Bytes) -> Result<(), NoMemory>
    ensures ok { OnOk result (out.new ≡ out.old ++ tabbed
        (name.now ∷ a.now ∷ b.now ∷ c.now ∷ [])) }
    ensures back { OnOk result (AllBack (name.now ∷ a.now ∷ b.now ∷ c.now ∷ [])) }
{
    put_field(name, out)?;
    put_three(a, b, c, out)
}

fn put_fields(fields: &[Bytes], out: &mut Bytes) -> Result<(), NoMemory>
    ensures ok { OnOk result (out.new ≡ out.old ++ tabbed fields.now) }
    ensures back { OnOk result (AllBack fields.now) }
{
    for field in fields {
        put_one(field.as_slice(), out)?;
    }
    Ok(())
}

fn marked(alloc: Global, value: &Bytes) -> Result<Bytes, NoMemory>
    ensures { IfOk result (λ word. word ≡ 61 ∷ value.now) }
{
    let mut word = Bytes::from_slice(alloc, b"=")?;
    word.extend(value.as_slice())?;
    Ok(word)
}

fn expected_word(alloc: Global, expected: &Expected) -> Result<Bytes, NoMemory>
    ensures { IfOk result (λ word. word ≡ expected_word expected.now) }
{
    match expected {
        Expected::Absent => Bytes::from_slice(alloc, b"absent"),
        Expected::Any => Bytes::from_slice(alloc, b"any"),
        Expected::Value(value) => marked(alloc, value),
    }
}

fn desired_word(alloc: Global, desired: &Desired) -> Result<Bytes, NoMemory>
    ensures { IfOk result (λ word. word ≡ desired_word desired.now) }
{
    match desired {
        Desired::Remove => Bytes::from_slice(alloc, b"remove"),
        Desired::Leave => Bytes::from_slice(alloc, b"leave"),
        Desired::Value(value) => marked(alloc, value),
    }
}

fn put_expected(alloc: Global, expected: &[ExpectedPair], out: &mut Bytes) -> Result<(), NoMemory>
    ensures ok { OnOk result (out.new ≡ out.old ++ tabbed (expected_fields expected.now)) }
    ensures back { OnOk result (AllBack (expected_fields expected.now)) }
{
    for pair in expected {
        put_expected_pair(alloc, pair, out)?;
    }
    Ok(())
}

fn put_expected_pair(alloc: Global, pair: &ExpectedPair, out: &mut Bytes) -> Result<(), NoMemory>
    ensures ok { OnOk result (out.new ≡ out.old ++ tabbed (expected_fields (pair.now ∷ []))) }
    ensures back { OnOk result (AllBack (expected_fields (pair.now ∷ []))) }
{
    let word = expected_word(alloc, &pair.form)?;
    put_two(pair.key.as_slice(), word.as_slice(), out)
}

fn put_desired(alloc: Global, desired: &[DesiredPair], out: &mut Bytes) -> Result<(), NoMemory>
    ensures ok { OnOk result (out.new ≡ out.old ++ tabbed (desired_fields desired.now)) }
    ensures back { OnOk result (AllBack (desired_fields desired.now)) }
{
    for pair in desired {
        put_desired_pair(alloc, pair, out)?;
    }
    Ok(())
}

fn put_desired_pair(alloc: Global, pair: &DesiredPair, out: &mut Bytes) -> Result<(), NoMemory>
    ensures ok { OnOk result (out.new ≡ out.old ++ tabbed (desired_fields (pair.now ∷ []))) }
    ensures back { OnOk result (AllBack (desired_fields (pair.now ∷ []))) }
{
    let word = desired_word(alloc, &pair.form)?;
    put_two(pair.key.as_slice(), word.as_slice(), out)
}

fn put_step(step: &MultiStep, out: &mut Bytes) -> Result<(), NoMemory>
    ensures ok { OnOk result (out.new ≡ out.old ++ tabbed (step_fields (step.now ∷ []))) }
    ensures back { OnOk result (AllBack (step_fields (step.now ∷ []))) }
{
    let key = step.key.as_slice();
    match &step.op {
        Op::Get => put_three(b"get", key, &[], out),
        Op::Set(value) => put_three(b"set", key, value.as_slice(), out),
        Op::Add(value) => put_three(b"add", key, value.as_slice(), out),
        Op::Append(value) => put_three(b"append", key, value.as_slice(), out),
        Op::Remove => put_three(b"remove", key, &[], out),
    }
}

fn put_steps(steps: &[MultiStep], out: &mut Bytes) -> Result<(), NoMemory>
    ensures ok { OnOk result (out.new ≡ out.old ++ tabbed (step_fields steps.now)) }
    ensures back { OnOk result (AllBack (step_fields steps.now)) }
{
    for step in steps {
        put_step(step, out)?;
    }
    Ok(())
}

fn flag_word(flag: bool) -> &'static [u8]
    ensures { result.now ≡ flag_word flag }
{
    if flag { b"1" } else { b"0" }
}

fn mode_word(hard: bool) -> &'static [u8]
    ensures { result.now ≡ mode_word hard }
{
    if hard { b"hard" } else { b"soft" }
}

fn rekey_word(overwrite: bool, copying: bool) -> &'static [u8]
    ensures { result.now ≡ rekey_word overwrite copying }
{
    match (overwrite, copying) {
        (false, false) => b"-",
        (true, false) => b"o",
        (false, true) => b"c",
        (true, true) => b"oc",
    }
}

#[tactic(auto, using(crate::proofs::Tabs::heads_append))]
fn put_exchange_multi(
    alloc: Global,
    expected: &[ExpectedPair],
    desired: &[DesiredPair],
    out: &mut Bytes,
) -> Result<(), NoMemory>
    ensures ok { OnOk result (out.new ≡ out.old ++ tabbed (codes "casmulti" ∷ decimal
        (length expected.now) ∷ (expected_fields expected.now ++ desired_fields desired.now))) }
    ensures back { OnOk result (AllBack (codes "casmulti" ∷ decimal (length expected.now) ∷
        (expected_fields expected.now ++ desired_fields desired.now))) }
{
    let count = expected.len();
    let digits = format!(in alloc; "{count}")?;
    put_two(b"casmulti", digits.as_bytes(), out)?;
    put_expected(alloc, expected, out)?;
    put_desired(alloc, desired, out)?;
    Ok(())
}

fn put_increment(
    alloc: Global,
    key: &Bytes,
    n: i64,
    initial: i64,
    out: &mut Bytes,
) -> Result<(), NoMemory>
    ensures ok { OnOk result (out.new ≡ out.old ++ tabbed (codes "increment" ∷ key.now ∷
        signed_decimal n ∷ signed_decimal initial ∷ [])) }
    ensures back { OnOk result (AllBack (codes "increment" ∷ key.now ∷ signed_decimal n ∷
        signed_decimal initial ∷ [])) }
{
    let n = format!(in alloc; "{n}")?;
    let initial = format!(in alloc; "{initial}")?;
    put_four(
        b"increment",
        key.as_slice(),
        n.as_bytes(),
        initial.as_bytes(),
        out,
    )
}

/// Puts the name and the arguments of a call of the iterator at the end.
fn put_iterator_call(call: &Call, out: &mut Bytes) -> Result<(), NoMemory>
    requires { is_of_iterator call.now ≡ true }
    ensures ok { OnOk result (out.new ≡ out.old ++ tabbed (name_of call.now ∷ args_of call.now)) }
    ensures back { OnOk result (AllBack (name_of call.now ∷ args_of call.now)) }
{
    match call {
        Call::First => put_one(b"first", out),
        Call::Last => put_one(b"last", out),
        Call::Next => put_one(b"next", out),
        Call::Previous => put_one(b"previous", out),
        Call::IterRemove => put_one(b"iremove", out),
        Call::Jump(key) => put_two(b"jump", key.as_slice(), out),
        Call::Lower { key, inclusive } => {
            put_three(b"lower", key.as_slice(), flag_word(*inclusive), out)
        }
        Call::Upper { key, inclusive } => {
            put_three(b"upper", key.as_slice(), flag_word(*inclusive), out)
        }
        Call::IterGet => put_one(b"iget", out),
        Call::IterSet(value) => put_two(b"iset", value.as_slice(), out),
        _ => unreachable!(),
    }
}

/// Puts the name and the arguments of a call that is none of the iterator's at the end.
fn put_key_call(alloc: Global, call: &Call, out: &mut Bytes) -> Result<(), NoMemory>
    requires { is_of_iterator call.now ≡ false }
    ensures ok { OnOk result (out.new ≡ out.old ++ tabbed (name_of call.now ∷ args_of call.now)) }
    ensures back { OnOk result (AllBack (name_of call.now ∷ args_of call.now)) }
{
    match call {
        Call::Get(key) => put_two(b"get", key.as_slice(), out),
        Call::GetMulti(keys) => {
            put_field(b"getmulti", out)?;
            put_fields(keys.as_slice(), out)
        }
        Call::Set { key, value } => put_three(b"set", key.as_slice(), value.as_slice(), out),
        Call::Add { key, value } => put_three(b"add", key.as_slice(), value.as_slice(), out),
        Call::Remove(key) => put_two(b"remove", key.as_slice(), out),
        Call::Append {
            key,
            value,
            delimiter,
        } => put_four(
            b"append",
            key.as_slice(),
            value.as_slice(),
            delimiter.as_slice(),
            out,
        ),
        Call::CompareExchange {
            key,
            expected,
            desired,
        } => {
            let expected = expected_word(alloc, expected)?;
            let desired = desired_word(alloc, desired)?;
            put_four(
                b"cas",
                key.as_slice(),
                expected.as_slice(),
                desired.as_slice(),
                out,
            )
        }
        Call::CompareExchangeMulti { expected, desired } => {
            put_exchange_multi(alloc, expected.as_slice(), desired.as_slice(), out)
        }
        Call::Increment { key, n, initial } => put_increment(alloc, key, *n, *initial, out),
        Call::Rekey {
            from,
            to,
            overwrite,
            copying,
        } => {
            let flags = rekey_word(*overwrite, *copying);
            put_four(b"rekey", from.as_slice(), to.as_slice(), flags, out)
        }
        Call::Pop => put_one(b"pop", out),
        Call::Multi(steps) => {
            put_field(b"multi", out)?;
            put_steps(steps.as_slice(), out)
        }
        Call::Each(value) => put_two(b"each", value.as_slice(), out),
        Call::Count => put_one(b"count", out),
        Call::Clear => put_one(b"clear", out),
        Call::Sync(hard) => put_two(b"sync", mode_word(*hard), out),
        _ => unreachable!(),
    }
}

fn put_call(alloc: Global, call: &Call, out: &mut Bytes) -> Result<(), NoMemory>
    ensures ok { OnOk result (out.new ≡ out.old ++ tabbed (name_of call.now ∷ args_of call.now)) }
    ensures back { OnOk result (AllBack (name_of call.now ∷ args_of call.now)) }
{
    if call.is_of_iterator() {
        put_iterator_call(call, out)
    } else {
        put_key_call(alloc, call, out)
    }
}

/// Puts a line of a script at the end.
#[tactic(auto, using(crate::proofs::Back::is_read_back, crate::proofs::Back::written))]
pub fn write_script_line(alloc: Global, line: &Line, out: &mut Bytes) -> Result<(), NoMemory>
    ensures ok { OnOk result (out.new ≡ out.old ++ (line_body line.now ++ 10 ∷ [])) }
    ensures back { OnOk result (IsReadBack line.now) }
{
    let worker = line.worker;
    let digits = format!(in alloc; "{worker}")?;
    escape(digits.as_bytes(), out)?;
    put_call(alloc, &line.call, out)?;
    out.push(b'\n')?;
    Ok(())
}
