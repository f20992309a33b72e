ghost use Rattle.std.specs.Prelude.{IfOk};
ghost use Rattle.tk_disk.specs.Folder.{NoneOut};
ghost use Rattle.tk_disk.specs.MemFolder.{folder_is_out};

use super::*;
use std::alloc::{AllocError, Global};
use std::test::Fail;
use tk_disk::{Folder, MemDisk, MemFolder};
use tk_io::{MemSink, MemSource};
use tk_model::{Bytes, FaultList, NoMemory, fnv64};
use tk_status::Finish;

/// The room that the disk of a first set needs: four writes and two synchronisations.
const ROOM: u64 = (64 + 64) + (64 + 8240) + (64 + 32) + 64 + (64 + 32) + 64;

pub(crate) fn words(alloc: Global, texts: &[&str]) -> Result<Vec<String>, AllocError> {
    let mut words = Vec::new(alloc);
    for text in texts {
        words.push(String::from_str(alloc, text)?)?;
    }
    Ok(words)
}

/// A text of so many letters.
fn long_text(alloc: Global, letter: char, length: usize) -> Result<String, AllocError> {
    let mut text = String::new(alloc);
    for _done in 0..length {
        text.push(letter)?;
    }
    Ok(text)
}

fn list_of(alloc: Global, calls: &[u64]) -> Result<FaultList, NoMemory> {
    let mut list = FaultList::new(alloc);
    for call in calls {
        list.push(*call)?;
    }
    Ok(list)
}

type Sum = Option<(usize, u64)>;

/// The length of the first file and the hash of its bytes, to compare long files by.
fn sum_of(folder: &MemFolder) -> Sum
    requires { NoneOut (folder_is_out folder.now) }
{
    match folder.bytes("x.tkh") {
        Some(bytes) => Some((bytes.len(), fnv64(bytes))),
        None => None,
    }
}

/// Runs a command without input, and tells its end.
fn run_to(alloc: Global, words: &[String], folder: &mut MemFolder, out: &mut MemSink) -> Finish
    requires { NoneOut (folder_is_out folder.old) }
    ensures { NoneOut (folder_is_out folder.new) }
{
    let mut source = MemSource::new(Bytes::new(alloc), FaultList::new(alloc));
    run_util(alloc, words, folder, &mut source, out)
}

/// Runs a command, and tells its end and what the file holds then.
fn run_in(alloc: Global, words: &[String], folder: &mut MemFolder) -> (Finish, Sum)
    requires { NoneOut (folder_is_out folder.old) }
    ensures { NoneOut (folder_is_out folder.new) }
{
    let mut out = MemSink::new(alloc, FaultList::new(alloc));
    let finish = run_to(alloc, words, folder, &mut out);
    (finish, sum_of(folder))
}

/// Runs a command in an empty folder whose disks have this room.
fn run_anew(alloc: Global, words: &[String], room: u64, faults: FaultList) -> (Finish, Sum) {
    let mut folder = MemFolder::new(alloc, room, faults);
    run_in(alloc, words, &mut folder)
}

/// A folder whose one file has these bytes, and whose disk fails at these calls.
fn folder_of(alloc: Global, bytes: &[u8], faults: &[u64]) -> Result<MemFolder, NoMemory>
    ensures { IfOk result (λ f. NoneOut (folder_is_out f)) }
{
    let mut folder = MemFolder::new(alloc, 100_000, list_of(alloc, &[])?);
    let bytes = Bytes::from_slice(alloc, bytes)?;
    let disk = MemDisk::new(alloc, bytes, 100_000, list_of(alloc, faults)?)?;
    folder.add("x.tkh", disk)?;
    Ok(folder)
}

#[test]
fn records_at_the_limits(rt: HostRuntime) -> Result<(), Fail> {
    let alloc = rt.alloc();
    let set = words(alloc, &["set", "x.tkh", "a", "1"])?;
    let none = list_of(alloc, &[])?;
    assert_eq!(rt;
        run_anew(alloc, &set, 100_000, none),
        (Finish::with(0), Some((8304, 0x3e052bc8c54a6f47)))
    );
    let set = words(alloc, &["set", "x.tkh", "", ""])?;
    let none = list_of(alloc, &[])?;
    assert_eq!(rt;
        run_anew(alloc, &set, 100_000, none),
        (Finish::with(0), Some((8304, 0x77196820cc7ba6aa)))
    );
    let key = long_text(alloc, 'k', 65_535)?;
    let set = words(alloc, &["set", "x.tkh", key.as_str(), "v"])?;
    let none = list_of(alloc, &[])?;
    assert_eq!(rt;
        run_anew(alloc, &set, 100_000, none),
        (Finish::with(0), Some((73_840, 0xee7e0f05221ddfd1)))
    );
    let value = long_text(alloc, 'v', 16_777_215)?;
    let set = words(alloc, &["set", "x.tkh", "k", value.as_str()])?;
    let none = list_of(alloc, &[])?;
    assert_eq!(rt;
        run_anew(alloc, &set, 20_000_000, none),
        (Finish::with(0), Some((16_785_520, 0x2a0a1ba83feb478a)))
    );
    Ok(())
}

/// Whether the words are refused, and nothing is made.
fn is_usage(alloc: Global, texts: &[&str]) -> Result<bool, NoMemory> {
    let none = list_of(alloc, &[])?;
    let words = words(alloc, texts)?;
    Ok(run_anew(alloc, &words, 100_000, none) == (Finish::with(1), None))
}

#[test]
fn words_out_of_the_grammar(rt: HostRuntime) -> Result<(), Fail> {
    let alloc = rt.alloc();
    let key = long_text(alloc, 'k', 65_536)?;
    let value = long_text(alloc, 'v', 16_777_216)?;
    assert!(rt; is_usage(alloc, &[])?);
    assert!(rt; is_usage(alloc, &["set", "x.tkh", "a"])?);
    assert!(rt; is_usage(alloc, &["set", "x.tkh", "a", "1", "2"])?);
    assert!(rt; is_usage(alloc, &["get", "x.tkh", "a", "1"])?);
    assert!(rt; is_usage(alloc, &["set", "x.tkt", "a", "1"])?);
    assert!(rt; is_usage(alloc, &["set", "tkh", "a", "1"])?);
    assert!(rt; is_usage(alloc, &["set", "x.tkh", "-a", "1"])?);
    assert!(rt; is_usage(alloc, &["list", "x.tkh"])?);
    assert!(rt; is_usage(alloc, &["set", "x.tkh", key.as_str(), "1"])?);
    assert!(rt; is_usage(alloc, &["set", "x.tkh", "a", value.as_str()])?);
    Ok(())
}

#[test]
fn a_file_of_other_bytes(rt: HostRuntime) -> Result<(), Fail> {
    let alloc = rt.alloc();
    let set = words(alloc, &["set", "x.tkh", "a", "1"])?;
    let mut folder = folder_of(alloc, b"?", &[])?;
    assert_eq!(rt;
        run_in(alloc, &set, &mut folder),
        (Finish::refused(0, 0), Some((1, fnv64(b"?"))))
    );
    Ok(())
}

#[test]
fn a_refused_file_that_is_not_given_back(rt: HostRuntime) -> Result<(), Fail> {
    let alloc = rt.alloc();
    let get = words(alloc, &["get", "x.tkh", "a"])?;
    let mut folder = MemFolder::new(alloc, 100_000, list_of(alloc, &[1])?);
    let bytes = Bytes::from_slice(alloc, b"?")?;
    let disk = MemDisk::new(alloc, bytes, 100_000, list_of(alloc, &[])?)?;
    folder.add("x.tkh", disk)?;
    assert_eq!(rt; run_in(alloc, &get, &mut folder).0, Finish::refused(0, 0));
    assert_eq!(rt; folder.faults(), 1);
    Ok(())
}

#[test]
fn a_second_record(rt: HostRuntime) -> Result<(), Fail> {
    let alloc = rt.alloc();
    let set = words(alloc, &["set", "x.tkh", "a", "1"])?;
    let more = words(alloc, &["set", "x.tkh", "b", "22"])?;
    let mut folder = folder_of(alloc, b"", &[])?;
    assert_eq!(rt; run_in(alloc, &set, &mut folder).0, Finish::with(0));
    let (finish, sum) = run_in(alloc, &more, &mut folder);
    assert_eq!(rt; finish, Finish::with(0));
    assert!(rt; sum.is_some_and(|(length, _)| length == 8352));
    Ok(())
}

/// What `get` prints of the file, and how it ends.
fn got(alloc: Global, folder: &mut MemFolder, key: &str) -> Result<(Finish, Bytes), NoMemory>
    requires { NoneOut (folder_is_out folder.old) }
    ensures { NoneOut (folder_is_out folder.new) }
{
    let get = words(alloc, &["get", "x.tkh", key])?;
    let mut out = MemSink::new(alloc, FaultList::new(alloc));
    let finish = run_to(alloc, &get, folder, &mut out);
    Ok((finish, Bytes::from_slice(alloc, out.bytes())?))
}

#[test]
fn a_value_is_printed(rt: HostRuntime) -> Result<(), Fail> {
    let alloc = rt.alloc();
    let set = words(alloc, &["set", "x.tkh", "a", "1"])?;
    let mut folder = folder_of(alloc, b"", &[])?;
    assert_eq!(rt; run_in(alloc, &set, &mut folder).0, Finish::with(0));
    let (finish, printed) = got(alloc, &mut folder, "a")?;
    assert_eq!(rt; finish, Finish::with(0));
    assert_eq!(rt; printed.as_slice(), b"1\n".as_slice());
    let (finish, printed) = got(alloc, &mut folder, "b")?;
    assert_eq!(rt; finish, Finish::answered(7));
    assert!(rt; printed.is_empty());
    Ok(())
}

#[test]
fn a_record_is_removed(rt: HostRuntime) -> Result<(), Fail> {
    let alloc = rt.alloc();
    let set = words(alloc, &["set", "x.tkh", "a", "1"])?;
    let remove = words(alloc, &["remove", "x.tkh", "a"])?;
    let mut folder = folder_of(alloc, b"", &[])?;
    assert_eq!(rt; run_in(alloc, &set, &mut folder).0, Finish::with(0));
    assert_eq!(rt; run_in(alloc, &remove, &mut folder).0, Finish::with(0));
    assert_eq!(rt; got(alloc, &mut folder, "a")?.0, Finish::answered(7));
    assert_eq!(rt; run_in(alloc, &remove, &mut folder).0, Finish::answered(7));
    Ok(())
}

#[test]
fn a_sink_that_fails(rt: HostRuntime) -> Result<(), Fail> {
    let alloc = rt.alloc();
    let set = words(alloc, &["set", "x.tkh", "a", "1"])?;
    let get = words(alloc, &["get", "x.tkh", "a"])?;
    let mut folder = folder_of(alloc, b"", &[])?;
    assert_eq!(rt; run_in(alloc, &set, &mut folder).0, Finish::with(0));
    let mut out = MemSink::new(alloc, list_of(alloc, &[1])?);
    assert_eq!(rt; run_to(alloc, &get, &mut folder, &mut out), Finish::with(4));
    assert_eq!(rt; out.bytes(), b"1".as_slice());
    Ok(())
}

#[test]
fn no_file_for_a_look_up(rt: HostRuntime) -> Result<(), Fail> {
    let alloc = rt.alloc();
    let none = list_of(alloc, &[])?;
    let remove = words(alloc, &["remove", "y.tkh", "a"])?;
    assert_eq!(rt;
        run_anew(alloc, &remove, 100_000, none),
        (Finish::refused(0, 0), None)
    );
    Ok(())
}

/// A folder with the file of one record, whose disk fails at these calls.
fn folder_of_one(alloc: Global, faults: &[u64]) -> Result<MemFolder, NoMemory>
    ensures { IfOk result (λ f. NoneOut (folder_is_out f)) }
{
    let set = words(alloc, &["set", "x.tkh", "a", "1"])?;
    let mut first = MemFolder::new(alloc, 100_000, list_of(alloc, &[])?);
    let _ = run_in(alloc, &set, &mut first);
    let bytes = first.bytes("x.tkh").unwrap_or(&[]);
    folder_of(alloc, bytes, faults)
}

#[test]
fn each_failing_call_of_a_second_set(rt: HostRuntime) -> Result<(), Fail> {
    let alloc = rt.alloc();
    let set = words(alloc, &["set", "x.tkh", "b", "22"])?;
    for call in 0..12 {
        let mut folder = folder_of_one(alloc, &[call])?;
        assert_eq!(rt;
            run_in(alloc, &set, &mut folder).0,
            Finish::with(4),
            "disk's call {call}"
        );
    }
    let mut folder = folder_of_one(alloc, &[12])?;
    assert_eq!(rt; run_in(alloc, &set, &mut folder).0, Finish::with(0));
    Ok(())
}

#[test]
fn each_small_room(rt: HostRuntime) -> Result<(), Fail> {
    let alloc = rt.alloc();
    let set = words(alloc, &["set", "x.tkh", "a", "1"])?;
    for room in 0..ROOM {
        let none = list_of(alloc, &[])?;
        assert_eq!(rt;
            run_anew(alloc, &set, room, none).0,
            Finish::with(4),
            "room {room}"
        );
    }
    let none = list_of(alloc, &[])?;
    assert_eq!(rt; run_anew(alloc, &set, ROOM, none).0, Finish::with(0));
    Ok(())
}

#[test]
fn each_failing_call(rt: HostRuntime) -> Result<(), Fail> {
    let alloc = rt.alloc();
    let set = words(alloc, &["set", "x.tkh", "a", "1"])?;
    for call in 0..2 {
        let one = list_of(alloc, &[call])?;
        assert_eq!(rt;
            run_anew(alloc, &set, 100_000, one).0,
            Finish::with(4),
            "folder's call {call}"
        );
    }
    for call in 0..7 {
        let mut folder = folder_of(alloc, b"", &[call])?;
        assert_eq!(rt;
            run_in(alloc, &set, &mut folder).0,
            Finish::with(4),
            "disk's call {call}"
        );
    }
    let mut folder = folder_of(alloc, b"", &[7])?;
    assert_eq!(rt; run_in(alloc, &set, &mut folder).0, Finish::with(0));
    Ok(())
}
