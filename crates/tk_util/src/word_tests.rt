use crate::tests::words;
use crate::words::{Asked, FileCommand, KeyOperands, RestoreOperands, SetOperands, read_words};
use std::test::Fail;

#[test]
fn get_has_a_file_and_a_key(rt: HostRuntime) -> Result<(), Fail> {
    let get = words(rt.alloc(), &["get", "x.tkh", "a"])?;
    let operands = KeyOperands {
        file: "x.tkh",
        key: b"a",
    };
    assert_eq!(rt;
        read_words(&get),
        Some(Asked::OnFile(FileCommand::Get(operands)))
    );
    Ok(())
}

#[test]
fn set_has_a_value_too(rt: HostRuntime) -> Result<(), Fail> {
    let set = words(rt.alloc(), &["set", "x.tkh", "a", "1"])?;
    let operands = SetOperands {
        file: "x.tkh",
        key: b"a",
        value: b"1",
    };
    assert_eq!(rt;
        read_words(&set),
        Some(Asked::OnFile(FileCommand::Set(operands)))
    );
    Ok(())
}

#[test]
fn remove_has_a_file_and_a_key(rt: HostRuntime) -> Result<(), Fail> {
    let remove = words(rt.alloc(), &["remove", "x.tkh", "a"])?;
    let operands = KeyOperands {
        file: "x.tkh",
        key: b"a",
    };
    assert_eq!(rt;
        read_words(&remove),
        Some(Asked::OnFile(FileCommand::Remove(operands)))
    );
    Ok(())
}

#[test]
fn restore_has_two_files(rt: HostRuntime) -> Result<(), Fail> {
    let restore = words(rt.alloc(), &["restore", "x.tkh", "y.tkh"])?;
    let operands = RestoreOperands {
        from: "x.tkh",
        to: "y.tkh",
    };
    assert_eq!(rt; read_words(&restore), Some(Asked::Restore(operands)));
    let behind = words(rt.alloc(), &["restore", "--", "-x.tkh", "y.tkh"])?;
    let operands = RestoreOperands {
        from: "-x.tkh",
        to: "y.tkh",
    };
    assert_eq!(rt; read_words(&behind), Some(Asked::Restore(operands)));
    Ok(())
}

#[test]
fn no_operands_of_restore(rt: HostRuntime) -> Result<(), Fail> {
    let alloc = rt.alloc();
    for texts in [
        ["restore", "x.tkh", "x.tkh"],
        ["restore", "x.tkh", "y.tkt"],
        ["restore", "x.tkt", "y.tkh"],
        ["restore", "--shards", "x.tkh"],
    ] {
        let restore = words(alloc, &texts)?;
        assert!(rt; read_words(&restore).is_none());
    }
    let one = words(alloc, &["restore", "x.tkh"])?;
    assert!(rt; read_words(&one).is_none());
    let three = words(alloc, &["restore", "x.tkh", "y.tkh", "z.tkh"])?;
    assert!(rt; read_words(&three).is_none());
    Ok(())
}

#[test]
fn a_key_behind_the_end_of_options(rt: HostRuntime) -> Result<(), Fail> {
    let get = words(rt.alloc(), &["get", "x.tkh", "--", "-k"])?;
    let operands = KeyOperands {
        file: "x.tkh",
        key: b"-k",
    };
    assert_eq!(rt;
        read_words(&get),
        Some(Asked::OnFile(FileCommand::Get(operands)))
    );
    Ok(())
}

#[test]
fn an_unknown_option(rt: HostRuntime) -> Result<(), Fail> {
    let get = words(rt.alloc(), &["get", "x.tkh", "a", "--fast"])?;
    assert!(rt; read_words(&get).is_none());
    Ok(())
}

#[test]
fn too_few_operands(rt: HostRuntime) -> Result<(), Fail> {
    let set = words(rt.alloc(), &["set", "x.tkh", "a"])?;
    assert!(rt; read_words(&set).is_none());
    Ok(())
}
