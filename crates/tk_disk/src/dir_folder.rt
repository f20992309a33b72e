ghost use Rattle.std.specs.Prelude.{◌≡◌, ℕ, List, OnOk, IfOk, IsSome};
ghost use Rattle.std.specs.Path.{path_buf_bytes, path_join};
ghost use Rattle.tk_disk.specs.DirFolder.{visit_is_out, visit_faults};
ghost use Rattle.tk_disk.specs.Folder.{SameBut};
ghost use Rattle.tk_disk.specs.Places.{held_at};

use crate::open::open;
use crate::places::{Place, append, find, replace};
use crate::{Disk, DiskError, FileDisk, Folder};
use std::alloc::Global;
use std::fs::File;
use std::path::{Path, PathBuf};
use std::rt::Files;
use tk_model::NoMemory;

/// What is known of a name: whether its disk is out, and the faults of the disk that came back last.
#[derive(Clone, Copy, Debug, PartialEq, Eq)]
struct Visit {
    out: bool,
    faults: u64,
}

/// The files of a directory. A name is a path from there, and an absolute one stays as it is. It tells nothing of what
/// its files hold.
#[derive(Drop)]
pub struct DirFolder<R> {
    files: R,
    alloc: Global,
    directory: String,
    places: Vec<Place<Visit>>,
    faults: u64,
}

fn path_of(alloc: Global, directory: &str, name: &str) -> Result<PathBuf, NoMemory>
    ensures { IfOk result (λ path. path_buf_bytes path ≡ path_join directory.now name.now) }
{
    Ok(Path::new(directory).join(alloc, name)?)
}

/// The count of faults of a name, whose place is kept.
fn keep(alloc: Global, places: &mut Vec<Place<Visit>>, name: &str) -> Result<u64, NoMemory>
    ensures kept { OnOk result (IsSome (held_at places.new.items name.now)) }
    ensures faults { IfOk result (λ n. n ≡ visit_faults (held_at places.old.items name.now)) }
    ensures same { (m : List ℕ) → visit_faults (held_at places.new.items m) ≡ visit_faults
        (held_at places.old.items m) }
    ensures same_out { (m : List ℕ) → visit_is_out (held_at places.new.items m) ≡ visit_is_out
        (held_at places.old.items m) }
{
    match find(places, name) {
        Some(i) => Ok(places[i].held.faults),
        None => {
            let visit = Visit {
                out: false,
                faults: 0,
            };
            append(alloc, places, name, visit)?;
            Ok(0)
        }
    }
}

impl<R: Drop> DirFolder<R> {
    ghost use Rattle.std.specs.Prelude.{◌≡◌, ℕ, List, IfOk};
    ghost use Rattle.tk_disk.specs.DirFolder.{dir_is_out, dir_disk_faults, dir_faults};
    ghost use Rattle.tk_disk.specs.Folder.{NoneOut};

    /// Over the system's files, as `&rt` gives them.
    pub fn new(files: R, alloc: Global, directory: &str) -> Result<DirFolder<R>, NoMemory>
        ensures out { IfOk result (λ f. NoneOut (dir_is_out f)) }
        ensures disk_faults { IfOk result (λ f. (name : List ℕ) → dir_disk_faults f name ≡ 0) }
        ensures faults { IfOk result (λ f. dir_faults f ≡ 0) }
    {
        let directory = if directory == "." { "" } else { directory };
        let directory = String::from_str(alloc, directory)?;
        Ok(DirFolder {
            files,
            alloc,
            directory,
            places: Vec::new(alloc),
            faults: 0,
        })
    }
}

impl<R: Files<File = File>> Folder for DirFolder<R> {
    ghost use Rattle.std.specs.Prelude.{None, [], false};
    ghost use Rattle.tk_disk.specs.DirFolder.{dir_is_out, dir_disk_faults, dir_faults};
    ghost use Rattle.tk_disk.specs.Past.{settled_on};

    type D = FileDisk;

    ghost tells = { λ _. false };

    ghost file = { λ _ _. None };

    ghost is_out = { dir_is_out };

    ghost fault_count = { dir_faults };

    ghost disk_faults = { dir_disk_faults };

    ghost leaves = { λ _ _ _. ⊥ };

    ghost moment_of = { λ _ _. 0 };

    ghost left_since = { λ _ _ _ _. ⊥ };

    ghost past_of = { λ _ _. settled_on [] };

    ghost left_with = { λ _ _ _ _. ⊥ };

    ghost reads_left = { λ d name f told. Prim.cc };

    ghost counts_now = { λ d name t c le now. now };

    ghost only_now = { λ d name c left. left };

    ghost counts_with = { λ d name t c le now. now };

    ghost only_with = { λ d name x left. absurd left };

    ghost since_with = { λ d name t x left. left };

    fn faults(&self) -> u64 {
        self.faults
    }

    fn take(&mut self, name: &str, create: bool) -> Result<Option<FileDisk>, DiskError> {
        let path = path_of(self.alloc, &self.directory, name)?;
        let faults = keep(self.alloc, &mut self.places, name)?;
        match open(&self.files, path.as_str(), create) {
            Ok(Some(file)) => {
                replace(&mut self.places, name, Visit { out: true, faults });
                Ok(Some(FileDisk::resumed(file, faults)))
            }
            Ok(None) => Ok(None),
            Err(_) => {
                self.faults = self.faults.saturating_add(1);
                Err(DiskError::Fault)
            }
        }
    }

    fn give(&mut self, name: &str, disk: FileDisk) -> Result<(), DiskError> {
        let faults = disk.faults();
        replace(&mut self.places, name, Visit { out: false, faults });
        Ok(())
    }
}
