//! How stores are ended.
ghost use Rattle.std.specs.Prelude.{◌≡◌, ◌-◌, ◌<◌, ◌≤◌, ◌^◌, [], length, unwrap_or, None};
ghost use Rattle.std.specs.Vec.{vec_capacity};
ghost use Rattle.tk_status.specs.declared.Status.TheVariants.{Success};
ghost use Rattle.tk_dbm.specs.Ending.{MayEnd, AllMayEnd, failure_with};
ghost use Rattle.tk_dbm.specs.Ending.{EndsFile, EndsOne, EndsAll};

use tk_locks::Home;
use tk_status::Status;
use tk_store::{SeqStore, StoreError};

/// The first failure, and the first broken store.
#[derive(Drop)]
struct Ending {
    failed: Option<Status>,
    broken: Option<Status>,
}

impl Ending {
    fn status(&self) -> Status
        ensures { result ≡ unwrap_or self.now.failed (unwrap_or self.now.broken Success) }
    {
        match (self.failed, self.broken) {
            (Some(status), _) => status,
            (None, Some(status)) => status,
            (None, None) => Status::Success,
        }
    }

    /// Ends the store with this number, unless it is broken.
    fn end<S: SeqStore + Drop>(&mut self, home: Home<S>, next: u64) -> S
        requires may { home.broken ≡ None
            → MayEnd S.stands S.store_view S.constants next home.store }
        requires below { next < 2 ^ 64 - 1 }
        ensures { EndsOne S.stands S.store_view S.constants S.fault_count next self.old.failed
            self.old.broken home self.new.failed self.new.broken result }
    {
        if let Some(faults) = home.broken {
            self.broken = self.broken.or(Some(Status::Broken { faults }));
            return home.store;
        }
        let (store, failure) = end_file(home.store, next);
        self.failed = self.failed.or(failure);
        store
    }
}

fn failure_of(error: StoreError, faults: u64) -> Status
    ensures { result ≡ failure_with faults error }
{
    match error {
        StoreError::Fault => Status::System { faults },
        StoreError::NoMemory | StoreError::Full { .. } => Status::NoMemory,
    }
}

/// Ends the file of a store that isn't broken, and answers how that failed.
fn end_file<S: SeqStore + Drop>(mut store: S, next: u64) -> (S, Option<Status>)
    requires may { MayEnd S.stands S.store_view S.constants next store }
    requires below { next < 2 ^ 64 - 1 }
    ensures { EndsFile S.stands S.store_view S.constants S.fault_count next store result.1
        result.0 }
{
    match store.close(next) {
        Ok(()) => (store, None),
        Err(error) => {
            let failure = failure_of(error, store.faults());
            (store, Some(failure))
        }
    }
}

/// Ends each store that isn't broken. The list has room for them.
pub(crate) fn end_all<S: SeqStore + Drop>(
    mut homes: Vec<Home<S>>,
    next: u64,
    mut into: Vec<S>,
) -> (Vec<S>, Status)
    requires may { AllMayEnd S.stands S.store_view S.constants next homes.items }
    requires below { next < 2 ^ 64 - 1 }
    requires empty { into.items ≡ [] }
    requires room { length homes.items ≤ vec_capacity into }
    ensures { EndsAll S.stands S.store_view S.constants S.fault_count next homes.items
        result.0.items result.1 }
{
    let mut ending = Ending {
        failed: None,
        broken: None,
    };
    while !homes.is_empty() {
        let home = homes.remove(0);
        into.push_reserved(ending.end(home, next));
    }
    (into, ending.status())
}
