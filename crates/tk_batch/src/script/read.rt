//! The lines of a script.
ghost use Rattle.std.specs.Prelude.{◌≡◌, ◌≤◌, ◌<◌, IfOk, IfErr, IfSome, Some, map, count_by, option_map};
ghost use Rattle.tk_batch.specs.Script.{all_unescaped, call_in, call_of_several_in, taken, line_of, line_in, lines_within, read_up_to, IsScript, IsFirstNone, IsFirstBadLine};
ghost use Rattle.tk_batch.specs.Woven.{HaveWorkers};
ghost use Rattle.tk_flat.specs.Tsv.{fields_of, lines_of, is_lf};
ghost use Rattle.tk_flat.specs.Errors.{Names};

use crate::script::arguments::{
    read_add, read_append, read_each, read_exchange, read_get, read_increment, read_none,
    read_rekey, read_remove, read_set, read_sync,
};
use crate::script::iterate::read_iterator_call;
use crate::script::number::read_number;
use crate::script::several::{read_exchange_multi, read_get_multi, read_multi};
use crate::{Line, LineList, ScriptRules};
use std::alloc::Global;
use tk_calls::Call;
use tk_flat::{TextError, cut, next_line, unescape};
use tk_model::{Bytes, NoMemory};

fn read_call_of_several(
    alloc: Global,
    name: &[u8],
    args: &[Bytes],
) -> Result<Option<Call>, NoMemory>
    ensures { IfOk result (λ c. c ≡ call_of_several_in name.now args.now) }
{
    if name == b"getmulti".as_slice() {
        read_get_multi(alloc, args)
    } else if name == b"casmulti".as_slice() {
        read_exchange_multi(alloc, args)
    } else if name == b"rekey".as_slice() {
        read_rekey(alloc, args)
    } else if name == b"pop".as_slice() {
        Ok(read_none(args, Call::Pop))
    } else if name == b"multi".as_slice() {
        read_multi(alloc, args)
    } else if name == b"each".as_slice() {
        read_each(alloc, args)
    } else if name == b"count".as_slice() {
        Ok(read_none(args, Call::Count))
    } else if name == b"clear".as_slice() {
        Ok(read_none(args, Call::Clear))
    } else if name == b"sync".as_slice() {
        Ok(read_sync(args))
    } else {
        read_iterator_call(alloc, name, args)
    }
}

fn read_call(alloc: Global, name: &[u8], args: &[Bytes]) -> Result<Option<Call>, NoMemory>
    ensures { IfOk result (λ c. c ≡ call_in name.now args.now) }
{
    if name == b"get".as_slice() {
        read_get(alloc, args)
    } else if name == b"remove".as_slice() {
        read_remove(alloc, args)
    } else if name == b"set".as_slice() {
        read_set(alloc, args)
    } else if name == b"add".as_slice() {
        read_add(alloc, args)
    } else if name == b"append".as_slice() {
        read_append(alloc, args)
    } else if name == b"cas".as_slice() {
        read_exchange(alloc, args)
    } else if name == b"increment".as_slice() {
        read_increment(alloc, args)
    } else {
        read_call_of_several(alloc, name, args)
    }
}

/// A call of the iterator only where it is taken.
fn taken(iterators: bool, call: Option<Call>) -> Option<Call>
    ensures { result ≡ taken iterators call }
{
    let call = call?;
    if call.is_of_iterator() && !iterators {
        return None;
    }
    Some(call)
}

fn line_of(alloc: Global, rules: &ScriptRules, fields: &[Bytes]) -> Result<Option<Line>, NoMemory>
    requires { 1 ≤ rules.now.workers }
    ensures line { IfOk result (λ l. l ≡ line_of rules.now fields.now) }
    ensures worker { IfOk result (λ l. IfSome l (λ l. l.worker < rules.now.workers)) }
{
    let [worker, name, args @ ..] = fields else {
        return Ok(None);
    };
    let Some(worker) = read_number(worker.as_slice(), rules.workers as u64 - 1) else {
        return Ok(None);
    };
    let call = read_call(alloc, name.as_slice(), args)?;
    let Some(call) = taken(rules.iterators, call) else {
        return Ok(None);
    };
    Ok(Some(Line {
        worker: worker as u32,
        call,
    }))
}

/// The fields of a line; none where one of them can't be read.
fn read_fields(alloc: Global, line: &[u8]) -> Result<Option<Vec<Bytes>>, NoMemory>
    ensures { IfOk result (λ fs. option_map (λ v. v.items) fs ≡ all_unescaped
        (fields_of line.now)) }
{
    let mut fields = Vec::new(alloc);
    let mut rest = line;
    while let Some((field, behind)) = cut(b'\t', rest) {
        let Some(bytes) = unescape(alloc, field)? else {
            return Ok(None);
        };
        fields.push(bytes)?;
        rest = behind;
    }
    let Some(bytes) = unescape(alloc, rest)? else {
        return Ok(None);
    };
    fields.push(bytes)?;
    Ok(Some(fields))
}

fn read_line(alloc: Global, rules: &ScriptRules, text: &[u8]) -> Result<Option<Line>, NoMemory>
    requires { 1 ≤ rules.now.workers }
    ensures line { IfOk result (λ l. l ≡ line_in rules.now text.now) }
    ensures worker { IfOk result (λ l. IfSome l (λ l. l.worker < rules.now.workers)) }
{
    let Some(fields) = read_fields(alloc, text)? else {
        return Ok(None);
    };
    line_of(alloc, rules, fields.as_slice())
}

fn count_lines(bytes: &[u8]) -> u64
    ensures { result ≡ count_by is_lf bytes.now }
{
    let mut count: u64 = 0;
    for byte in bytes {
        if *byte == b'\n' {
            count += 1;
        }
    }
    count
}

/// How many lines are within the limits.
fn lines_within(rules: &ScriptRules, text: &[u8]) -> u64
    ensures { result ≡ lines_within rules.now text.now }
{
    if text.len() as u64 > rules.bytes {
        let whole = count_lines(&text[..rules.bytes as usize]);
        rules.lines.min(whole)
    } else {
        rules.lines
    }
}

/// The lines of a text, of which so many are taken.
fn read_lines(
    alloc: Global,
    rules: &ScriptRules,
    most: u64,
    text: &[u8],
) -> Result<LineList, TextError>
    requires { 1 ≤ rules.now.workers }
    ensures read { IfOk result (λ lines. read_up_to (line_in rules.now) most (lines_of text.now)
        ≡ map Some lines) }
    ensures workers { IfOk result (HaveWorkers rules.now.workers) }
    ensures line { IfErr result (Names (IsFirstNone (read_up_to (line_in rules.now) most
        (lines_of text.now)))) }
{
    let mut lines = LineList::new(alloc);
    let mut rest = text;
    while !rest.is_empty() {
        let (text, behind) = next_line(rest);
        if lines.len() as u64 >= most {
            return Err(TextError::At(lines.len() as u64 + 1));
        }
        let Some(line) = read_line(alloc, rules, text)? else {
            return Err(TextError::At(lines.len() as u64 + 1));
        };
        lines.push(line)?;
        rest = behind;
    }
    Ok(lines)
}

/// The lines of a script, or the first line that is none.
pub fn read_script(alloc: Global, rules: &ScriptRules, text: &[u8]) -> Result<LineList, TextError>
    requires { 1 ≤ rules.now.workers }
    ensures read { IfOk result (λ lines. IsScript rules.now text.now lines) }
    ensures workers { IfOk result (HaveWorkers rules.now.workers) }
    ensures line { IfErr result (Names (IsFirstBadLine rules.now text.now)) }
{
    read_lines(alloc, rules, lines_within(rules, text), text)
}
