use super::*;
use std::test::Fail;
use tk_calls::{Call, FieldList};
use tk_flat::TextError;
use tk_model::{Bytes, NoMemory};
use tk_status::Status;

/// How many lines a script of two workers has, or the first faulty one behind 1,000.
fn read(rt: &HostRuntime, text: &[u8]) -> u64 {
    within(rt, &ScriptRules::new(2, true), text)
}

fn within(rt: &HostRuntime, rules: &ScriptRules, text: &[u8]) -> u64 {
    if rules.workers == 0 {
        return 0;
    }
    match read_script(rt.alloc(), rules, text) {
        Ok(lines) => lines.len() as u64,
        Err(TextError::At(line)) => line.saturating_add(1000),
        Err(TextError::NoMemory) => 0,
    }
}

const EVERY_CALL: &[u8] =
    b"0\tget\ta\n1\tremove\ta\n0\tgetmulti\ta\tb\n00\tset\tk\\t\tv=1\n0\tadd\tk\tv\n\
0\tappend\tk\tv\t,\n0\tcas\ta\t=1\tremove\n0\tcas\ta\tabsent\t=\n0\tcasmulti\t1\ta\t=1\tb\t=2\n\
0\tcasmulti\t0\tb\tleave\n0\tcasmulti\t1\tb\tany\n1\tincrement\tn\t-9223372036854775808\t7\n\
0\trekey\ta\tb\t-\n0\trekey\ta\tb\to\n0\trekey\ta\tb\tc\n0\trekey\ta\tb\toc\n0\tpop\n\
0\tmulti\tget\tk\t\tset\tk\tv\tadd\tk\tv\tappend\tk\tv\tremove\tk\t\n0\teach\tx\n0\tcount\n0\tclear\n\
0\tsync\thard\n0\tsync\tsoft\n0\tfirst\n0\tlast\n0\tnext\n0\tprevious\n0\tiremove\n0\tjump\tk\n\
0\tlower\tk\t0\n0\tupper\tk\t1\n0\tiget\n0\tiset\tv";

#[test]
fn every_call(rt: HostRuntime) {
    assert_eq!(rt; read(&rt, EVERY_CALL), 33);
}

#[test]
fn empty_scripts(rt: HostRuntime) {
    assert_eq!(rt; read(&rt, b""), 0);
    assert_eq!(rt; read(&rt, b"\n"), 1001);
    assert_eq!(rt; read(&rt, b"0\tpop\n"), 1);
    assert_eq!(rt; read(&rt, b"0\tpop\n\n"), 1002);
    assert_eq!(rt; read(&rt, b"0\tpop"), 1);
}

#[test]
fn faulty_workers_and_names(rt: HostRuntime) {
    assert_eq!(rt; read(&rt, b"0\tget\ta\n2\tget\ta\n0\tgot\n"), 1002);
    for line in [
        b"\tpop".as_slice(),
        b"-0\tpop".as_slice(),
        b"a\tpop".as_slice(),
        b"0".as_slice(),
        b"0\tPop".as_slice(),
        b"0\tpop\t".as_slice(),
        b"0\tget".as_slice(),
        b"0\tget\ta\tb".as_slice(),
        b"99999999999999999999\tpop".as_slice(),
    ] {
        assert_eq!(rt; read(&rt, line), 1001);
    }
    assert_eq!(rt; read(&rt, b"\\x30\tpo\\x70"), 1);
}

#[test]
fn faulty_arguments(rt: HostRuntime) {
    for line in [
        b"0\tget\t\\q".as_slice(),
        b"0\tcas\ta\tpresent\tleave".as_slice(),
        b"0\tcas\ta\tany\tdrop".as_slice(),
        b"0\tcas\ta\t1\tleave".as_slice(),
        b"0\tcasmulti\t2\ta\t=1".as_slice(),
        b"0\tcasmulti\t0".as_slice(),
        b"0\tcasmulti\t257\ta\tany".as_slice(),
        b"0\tcasmulti\t0\ta".as_slice(),
        b"0\tincrement\tn\t9223372036854775808\t0".as_slice(),
        b"0\tincrement\tn\t-9223372036854775809\t0".as_slice(),
        b"0\tincrement\tn\t+1\t0".as_slice(),
        b"0\tincrement\tn\t-\t0".as_slice(),
        b"0\trekey\ta\tb\tco".as_slice(),
        b"0\trekey\ta\tb\t".as_slice(),
        b"0\tgetmulti".as_slice(),
        b"0\tmulti".as_slice(),
        b"0\tmulti\tget\tk\tv".as_slice(),
        b"0\tmulti\tset\tk".as_slice(),
        b"0\tmulti\tpop\tk\t".as_slice(),
        b"0\tsync\tfirm".as_slice(),
        b"0\tlower\tk\t2".as_slice(),
        b"0\tupper\tk".as_slice(),
    ] {
        assert_eq!(rt; read(&rt, line), 1001);
    }
}

#[test]
fn calls_of_the_iterator(rt: HostRuntime) {
    let rules = ScriptRules::new(2, false);
    assert_eq!(rt; within(&rt, &rules, b"0\tget\ta\n1\tnext\n"), 1002);
    assert_eq!(rt; within(&rt, &rules, b"0\tget\ta\n1\tpop\n"), 2);
}

fn repeated(rt: &HostRuntime, head: &[u8], field: &[u8], times: usize) -> Result<Bytes, NoMemory> {
    let mut text = Bytes::from_slice(rt.alloc(), head)?;
    for _ in 0..times {
        text.extend(field)?;
    }
    Ok(text)
}

#[test]
fn the_longest_key_and_most_keys(rt: HostRuntime) -> Result<(), Fail> {
    let longest = repeated(&rt, b"0\tget\t", b"k", 65_535)?;
    assert_eq!(rt; read(&rt, longest.as_slice()), 1);
    let longer = repeated(&rt, b"0\tget\t", b"k", 65_536)?;
    assert_eq!(rt; read(&rt, longer.as_slice()), 1001);
    let most = repeated(&rt, b"0\tgetmulti", b"\tk", 256)?;
    assert_eq!(rt; read(&rt, most.as_slice()), 1);
    let more = repeated(&rt, b"0\tgetmulti", b"\tk", 257)?;
    assert_eq!(rt; read(&rt, more.as_slice()), 1001);
    let most = repeated(&rt, b"0\tmulti", b"\tset\tk\tv", 256)?;
    assert_eq!(rt; read(&rt, most.as_slice()), 1);
    let more = repeated(&rt, b"0\tmulti", b"\tset\tk\tv", 257)?;
    assert_eq!(rt; read(&rt, more.as_slice()), 1001);
    let most = repeated(&rt, b"0\tcasmulti\t0", b"\tk\tleave", 256)?;
    assert_eq!(rt; read(&rt, most.as_slice()), 1);
    let more = repeated(&rt, b"0\tcasmulti\t0", b"\tk\tleave", 257)?;
    assert_eq!(rt; read(&rt, more.as_slice()), 1001);
    Ok(())
}

#[test]
fn limits_of_bytes_and_lines(rt: HostRuntime) {
    let rules = ScriptRules::new(2, true);
    assert_eq!(rt; rules.bytes, 268_435_456);
    assert_eq!(rt; rules.lines, 1_000_000);
    let text = b"0\tpop\n0\tpop\n0\tpop\n";
    for (bytes, lines, wanted) in [
        (18, 3, 3),
        (17, 3, 1003),
        (13, 3, 1003),
        (12, 3, 1003),
        (11, 3, 1002),
        (0, 3, 1001),
        (18, 2, 1003),
        (17, 2, 1003),
        (5, 2, 1001),
        (18, 0, 1001),
    ] {
        let rules = ScriptRules {
            bytes,
            lines,
            ..rules
        };
        assert_eq!(rt; within(&rt, &rules, text), wanted);
    }
    let rules = ScriptRules { bytes: 12, ..rules };
    assert_eq!(rt; within(&rt, &rules, b"0\tpop\n\n0\tpop\n"), 1002);
}

#[test]
fn what_a_line_is_read_as(rt: HostRuntime) -> Result<(), Fail> {
    let lines = read_script(
        rt.alloc(),
        &ScriptRules::new(2, true),
        b"1\tset\tk\\t\t\\xff=",
    )?;
    let [line] = lines.as_slice() else {
        return Err(Fail::new("not one line"));
    };
    assert_eq!(rt; line.worker, 1);
    let Call::Set { key, value } = &line.call else {
        return Err(Fail::new("another call"));
    };
    assert_eq!(rt; key.as_slice(), &b"k\t"[..]);
    assert_eq!(rt; value.as_slice(), &b"\xff="[..]);
    Ok(())
}

#[test]
fn lines_written_and_read_again(rt: HostRuntime) -> Result<(), Fail> {
    let rules = ScriptRules::new(2, true);
    let lines = read_script(rt.alloc(), &rules, EVERY_CALL)?;
    let mut text = Bytes::new(rt.alloc());
    for line in lines.as_slice() {
        write_script_line(rt.alloc(), line, &mut text)?;
    }
    let again = read_script(rt.alloc(), &rules, text.as_slice())?;
    assert_eq!(rt; again.len(), lines.len());
    let mut second = Bytes::new(rt.alloc());
    for line in again.as_slice() {
        write_script_line(rt.alloc(), line, &mut second)?;
    }
    assert_eq!(rt; second.as_slice(), text.as_slice());
    assert!(rt; text.as_slice().starts_with(b"0\tget\ta\n1\tremove\ta\n"));
    assert!(rt;
        text.as_slice()
            .ends_with(b"0\tupper\tk\t1\n0\tiget\n0\tiset\tv\n")
    );
    Ok(())
}

fn out(
    rt: &HostRuntime,
    number: Option<u64>,
    status: Status,
    field: Option<&[u8]>,
) -> Result<Out, NoMemory> {
    let mut fields = FieldList::new(rt.alloc());
    match field {
        Some(value) => fields.push(Some(Bytes::from_slice(rt.alloc(), value)?))?,
        None => fields.push(None)?,
    }
    Ok(Out {
        number,
        status,
        fields,
    })
}

#[test]
fn answers_of_two_workers_printed(rt: HostRuntime) -> Result<(), Fail> {
    let script = b"1\tget\ta\n0\tget\tb\n1\tget\tc\n0\tget\td\n";
    let lines = read_script(rt.alloc(), &ScriptRules::new(2, true), script)?;
    let mut first = OutList::new(rt.alloc());
    first.push(out(&rt, Some(2), Status::Success, Some(b"v\t"))?)?;
    let mut second = OutList::new(rt.alloc());
    second.push(out(&rt, Some(0), Status::NotFound, None)?)?;
    second.push(out(&rt, Some(1), Status::Success, Some(b""))?)?;
    let mut text = Bytes::new(rt.alloc());
    let script = lines.as_slice();
    if lines.len() == 4 && script[0].worker < 2 && script[1].worker < 2 {
        print_outs(rt.alloc(), script, &[first, second], &mut text)?;
    }
    let wanted =
        b"0\t1\t1\tNOT_FOUND_ERROR\t\n2\t0\t2\tSUCCESS\t=v\\t\n1\t1\t3\tSUCCESS\t=\n-\t0\t4\tNO_MEMORY\n";
    assert_eq!(rt; text.as_slice(), wanted.as_slice());
    Ok(())
}
