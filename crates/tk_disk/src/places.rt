ghost use Rattle.std.specs.Prelude.{◌≡◌, ◌≢◌, ◌<◌, ℕ, List, length, Some, None, IsSome, IfNone, MatchOption, OnOk, OnErr};
ghost use Rattle.tk_disk.specs.Folder.{SameBut};
ghost use Rattle.tk_disk.specs.Places.{held_at, IsNamed, IsAbsent};

use std::alloc::Global;
use std::mem;
use tk_model::NoMemory;

/// What is kept under a name.
#[derive(Drop)]
pub struct Place<T> {
    pub name: String,
    pub held: T,
}

/// The first place of a name.
pub fn find<T>(places: &[Place<T>], name: &str) -> Option<usize>
    ensures none { IfNone result (held_at places.now name.now ≡ None) }
    ensures place { MatchOption result (IsAbsent places.now name.now) (λ i. (i < length places.now)
        × IsNamed places.now i name.now) }
{
    for (i, place) in places.iter().enumerate() {
        if place.name.as_str() == name {
            return Some(i);
        }
    }
    None
}

/// Puts another thing where a name's stood.
pub fn exchange<T>(places: &mut [Place<T>], i: usize, held: T) -> T
    requires { i < length places.old }
    ensures old { (name : List ℕ) → IsNamed places.old i name → held_at places.old name
        ≡ Some result }
    ensures new { (name : List ℕ) → IsNamed places.old i name → held_at places.new name
        ≡ Some held }
    ensures others { (name : List ℕ) → IsNamed places.old i name → SameBut name (held_at places.old)
        (held_at places.new) }
{
    mem::replace(&mut places[i].held, held)
}

/// Puts another thing under a name that has a place.
pub fn replace<T>(places: &mut [Place<T>], name: &str, held: T) -> T
    requires { IsSome (held_at places.old name.now) }
    ensures old { held_at places.old name.now ≡ Some result }
    ensures new { held_at places.new name.now ≡ Some held }
    ensures others { SameBut name.now (held_at places.old) (held_at places.new) }
{
    match find(places, name) {
        Some(i) => exchange(places, i, held),
        None => unreachable!(),
    }
}

/// Makes a place for a new name.
pub fn append<T: Drop>(
    alloc: Global,
    places: &mut Vec<Place<T>>,
    name: &str,
    held: T,
) -> Result<(), NoMemory>
    requires { IsAbsent places.old.items name.now }
    ensures here { OnOk result (held_at places.new.items name.now ≡ Some held) }
    ensures others { SameBut name.now (held_at places.old.items) (held_at places.new.items) }
    ensures err { OnErr result (places.new.items ≡ places.old.items) }
{
    let name = String::from_str(alloc, name)?;
    places.push(Place { name, held })?;
    Ok(())
}

/// Puts a thing under a name, where another may have stood.
pub fn put<T: Drop>(
    alloc: Global,
    places: &mut Vec<Place<T>>,
    name: &str,
    held: T,
) -> Result<(), NoMemory>
    ensures here { OnOk result (held_at places.new.items name.now ≡ Some held) }
    ensures others { SameBut name.now (held_at places.old.items) (held_at places.new.items) }
    ensures err { OnErr result (places.new.items ≡ places.old.items) }
{
    match find(places, name) {
        Some(i) => {
            exchange(places, i, held);
            Ok(())
        }
        None => append(alloc, places, name, held),
    }
}
