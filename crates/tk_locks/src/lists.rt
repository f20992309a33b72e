//! Stores on their way into a table and out of it.
ghost use Rattle.std.specs.Prelude.{◌≡◌, ◌≢◌, ◌≤◌, ◌<◌, ◌++◌, ◌∷◌, [], length};
ghost use Rattle.std.specs.Vec.{vec_capacity};
ghost use Rattle.tk_locks.specs.Homes.{homes_of, at_home, bare};

use crate::home::Home;

/// Each store, unbroken. The list has room for them.
pub(crate) fn lodged<S: Drop>(
    mut stores: Vec<S>,
    mut into: Vec<Option<Home<S>>>,
) -> Vec<Option<Home<S>>>
    requires empty { into.items ≡ [] }
    requires room { length stores.items ≤ vec_capacity into }
    ensures { result.items ≡ homes_of stores.items }
{
    while !stores.is_empty() {
        let store = stores.remove(0);
        into.push_reserved(Some(Home {
            store,
            broken: None,
        }));
    }
    into
}

/// The stores alone. The list has room for them.
pub(crate) fn unlodged<S: Drop>(mut homes: Vec<Option<Home<S>>>, mut into: Vec<S>) -> Vec<S>
    requires empty { into.items ≡ [] }
    requires room { length homes.items ≤ vec_capacity into }
    ensures { result.items ≡ bare homes.items }
{
    while !homes.is_empty() {
        let slot = homes.remove(0);
        put_bare(&mut into, slot);
    }
    into
}

fn put_bare<S: Drop>(into: &mut Vec<S>, slot: Option<Home<S>>)
    requires room { length into.old.items < vec_capacity into.old }
    ensures items { into.new.items ≡ into.old.items ++ bare (slot ∷ []) }
    ensures capacity { vec_capacity into.new ≡ vec_capacity into.old }
{
    if let Some(home) = slot {
        into.push_reserved(home.store);
    }
}

/// The store of a slot whose lock is free, behind others.
pub(crate) fn put_home<S: Drop>(into: &mut Vec<Home<S>>, slot: Option<Home<S>>, lock: u64)
    requires room { length into.old.items < vec_capacity into.old }
    ensures free { lock ≡ 0 → into.new.items ≡ into.old.items ++ at_home (slot ∷ []) }
    ensures held { lock ≢ 0 → into.new.items ≡ into.old.items }
    ensures capacity { vec_capacity into.new ≡ vec_capacity into.old }
{
    if lock != 0 {
        return;
    }
    if let Some(home) = slot {
        into.push_reserved(home);
    }
}
