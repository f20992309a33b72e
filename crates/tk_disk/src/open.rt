ghost use Rattle.std.specs.Prelude.{◌≡◌, IfOk, IfNone, false};

use std::fs::{File, Files, OpenOptions};
use std::io::{Error, ErrorKind};
use std::path::Path;
use std::{fs, io};

/// Whether a file is there. What is there and is no regular file is an error.
fn is_there(files: &impl Files, path: &str) -> io::Result<bool> {
    match fs::metadata(files, path) {
        Ok(found) if found.is_file() => Ok(true),
        Ok(_) => Err(Error::from(ErrorKind::InvalidInput)),
        Err(error) if error.kind() == ErrorKind::NotFound => Ok(false),
        Err(error) => Err(error),
    }
}

fn forbids_writing(error: &Error) -> bool {
    matches!(
        error.kind(),
        ErrorKind::PermissionDenied | ErrorKind::ReadOnlyFilesystem
    )
}

/// Opens for reading and writing, or for reading alone where writing isn't permitted.
fn open_there<R: Files<File = File>>(files: &R, path: &str) -> io::Result<File> {
    match OpenOptions::new().read(true).write(true).open(files, path) {
        Err(error) if forbids_writing(&error) => File::open(files, path),
        answer => answer,
    }
}

fn directory_of(path: &str) -> &str {
    match Path::new(path).parent() {
        Some(parent) if !parent.as_str().is_empty() => parent.as_str(),
        _ => ".",
    }
}

/// Makes a new file last: its own entry, and that in its directory.
fn make_durable<R: Files<File = File>>(files: &R, path: &str, file: &File) -> io::Result<()> {
    file.sync_all()?;
    File::open(files, directory_of(path))?.sync_all()
}

/// Creates a file. A file that can't be made durable is taken away again.
fn create<R: Files<File = File>>(files: &R, path: &str) -> io::Result<File> {
    let file = File::create_new(files, path)?;
    if let Err(error) = make_durable(files, path, &file) {
        let _ = fs::remove_file(files, path);
        return Err(error);
    }
    Ok(file)
}

/// The regular file of a path. An absent one is none, or with `new` is created.
pub fn open<R: Files<File = File>>(files: &R, path: &str, new: bool) -> io::Result<Option<File>>
    ensures { IfOk result (λ found. IfNone found (new ≡ false)) }
{
    if is_there(files, path)? {
        Ok(Some(open_there(files, path)?))
    } else if new {
        Ok(Some(create(files, path)?))
    } else {
        Ok(None)
    }
}
