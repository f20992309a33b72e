//! How the database is opened and closed.
ghost use Rattle.std.specs.Prelude.{◌≡◌, ◌∷◌, [], IfOk};
ghost use Rattle.example_sessions.specs.Sessions.{IsOpened, IsOurs};

use crate::failure::Failure;
use std::alloc::Global;
use tk_dbm::{Dbm, Pass, StoreList};
use tk_disk::{DirFolder, Disk, FileDisk, Folder};
use tk_hash::HashStore;
use tk_model::{NoMemory, OpenError, ShardOf};
use tk_status::Status;
use tk_store::SeqStore;

/// A hash file.
pub type Store = HashStore<FileDisk>;

/// The power of two of a new file's buckets, about one for each record.
const BUCKETS: u8 = 10;

/// The longest file.
const LIMIT: u64 = 1 << 30;

/// How many locks the keys share.
const STRIPES: u32 = 64;

/// The file of this name in the current directory, made where there is none.
pub fn disk(rt: &HostRuntime, name: &str) -> Result<FileDisk, Failure> {
    let mut folder = DirFolder::new(rt.clone()?, rt.alloc(), ".")?;
    match folder.take(name, true) {
        Ok(Some(disk)) => Ok(disk),
        _ => Err(Failure::Open(OpenError::Fault)),
    }
}

/// A store over the file. `create_file` asks for an empty one, which no proof can know of a real file: so it looks first.
fn store_on(alloc: Global, mut disk: FileDisk) -> Result<Store, Failure>
    ensures { IfOk result IsOpened }
{
    let alone = ShardOf { index: 0, of: 1 };
    let opened = match disk.len() {
        Ok(0) => HashStore::create_file(alloc, disk, BUCKETS, LIMIT, alone),
        Ok(_) => HashStore::open_file(alloc, disk, true, LIMIT, alone),
        Err(_) => return Err(Failure::Open(OpenError::Fault)),
    };
    match opened {
        Ok(store) => Ok(store),
        Err(unopened) => Err(Failure::Open(unopened.cause)),
    }
}

/// A list of this store alone.
fn one(alloc: Global, store: Store) -> Result<StoreList<Store>, NoMemory>
    ensures { IfOk result (λ xs. xs ≡ store ∷ []) }
{
    let mut stores = StoreList::new(alloc);
    stores.push(store)?;
    Ok(stores)
}

/// A database over the file, and the pass with the whole allowance.
pub fn open(alloc: Global, disk: FileDisk) -> Result<(Dbm<Store>, Pass), Failure>
    ensures { IfOk result (λ d. IsOurs d.0 d.1) }
{
    let store = store_on(alloc, disk)?;
    let base = store.next_number();
    let stores = one(alloc, store)?;
    match Dbm::make(alloc, stores, STRIPES, base, true) {
        Ok(made) => Ok(made),
        Err(_) => Err(Failure::NoMemory(NoMemory)),
    }
}

/// Ends the database, whose records are in the file then.
pub fn close(db: Dbm<Store>, pass: Pass) -> Result<FileDisk, Failure>
    requires { IsOurs db pass }
{
    let closed = db.close(pass);
    match (closed.status, closed.stores.into_vec().pop()) {
        (Status::Success, Some(store)) => Ok(store.into_disk()),
        (status, _) => Err(Failure::Call(status)),
    }
}
