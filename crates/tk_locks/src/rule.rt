//! The rule of the table, and what its steps tell.
use crate::home::Home;
use crate::table::Origin;
use crate::view::Seen;
use atomic_table::{Join, Play, Split, TableRule};
use std::marker::{Brand, PhantomData};
use tk_store::SeqStore;

pub struct Law;

impl<S: SeqStore> TableRule<Option<Home<S>>, Seen, Origin<S>> for Law {
    ghost use Rattle.tk_locks.specs.Rule.{Rule, ground_of};
    ghost use Rattle.tk_locks.specs.View.{first_view};

    ghost holds = { λ o s. Rule S.lawful S.stands S.store_view S.constants S.fault_count
        (ground_of o) s };

    ghost first = { λ _. first_view };
}

/// What each step is told: what the table was told.
pub trait Told<S> {
    ghost use Rattle.tk_locks.specs.Rule.{Ground};

    ghost ground: { Ground S };
}

impl<S> Told<S> for Brand {
    ghost use Rattle.std.specs.Prelude.{[]};
    ghost use Rattle.tk_model.specs.declared.record.Order.TheVariants.{Hash};

    ghost ground = { record {
      frame = record { stripes = 0; stores = 0; order = Hash; base = 0 };
      start = [];
    } };
}

/// What a call means: the entry that it makes.
pub trait Call {
    ghost use Rattle.tk_model.specs.declared.record.Entry.{Entry};

    ghost entry: { Self → Entry };
}

/// What a commit is told: the call.
pub trait Said {
    ghost use Rattle.tk_model.specs.declared.record.Entry.{Entry};

    ghost entry: { Entry };
}

impl Said for Brand {
    ghost use Rattle.tk_model.specs.declared.record.Entry.TheVariants.{Clear};

    ghost entry = { Clear };
}

/// What a give is told: whether the store is broken, and its count.
pub trait Marked {
    ghost use Rattle.std.specs.Prelude.{Option, ℕ};

    ghost kept: { Option ℕ };

    ghost count: { ℕ };
}

impl Marked for Brand {
    ghost use Rattle.std.specs.Prelude.{None};

    ghost kept = { None };

    ghost count = { 0 };
}

pub struct Take<J> {
    told: PhantomData<J>,
}

impl<S: SeqStore, J: Told<S>> Play<Option<Home<S>>, Seen> for Take<J> {
    ghost use Rattle.std.specs.Prelude.{◌≡◌, true};
    ghost use Rattle.tk_locks.specs.Rule.{records_in};
    ghost use Rattle.tk_locks.specs.Steps.{taken};

    ghost then = { taken J.ground.frame (λ m. S.lawful m ≡ true)
        (records_in J.ground.frame.order S.store_view J.ground.start) };
}

pub struct TakeStore<J> {
    told: PhantomData<J>,
}

impl<S: SeqStore, J: Told<S>> Play<Option<Home<S>>, Seen> for TakeStore<J> {
    ghost use Rattle.std.specs.Prelude.{◌≡◌, true};
    ghost use Rattle.tk_locks.specs.Rule.{records_in, good_of, next_fits, count_at};
    ghost use Rattle.tk_locks.specs.Steps.{taken_store};

    ghost then = { taken_store J.ground.frame (λ m. S.lawful m ≡ true)
        (records_in J.ground.frame.order S.store_view J.ground.start)
        (good_of S.stands S.store_view S.constants J.ground)
        (next_fits S.store_view S.constants J.ground) S.fault_count
        (count_at S.fault_count J.ground.start) };
}

/// Gives the empty slot back, under its lock.
pub struct Park<J> {
    told: PhantomData<J>,
}

impl<S: SeqStore, J: Told<S>> Play<Option<Home<S>>, Seen> for Park<J> {
    ghost use Rattle.tk_locks.specs.Steps.{parked};

    ghost then = { parked J.ground.frame };
}

/// Takes the empty slot again.
pub struct Fetch<J, K> {
    told: PhantomData<(J, K)>,
}

impl<S: SeqStore, J: Told<S>, K: Marked> Play<Option<Home<S>>, Seen> for Fetch<J, K> {
    ghost use Rattle.tk_locks.specs.Steps.{fetched};

    ghost then = { fetched J.ground.frame K.kept };
}

pub struct GiveStore<J, K> {
    told: PhantomData<(J, K)>,
}

impl<S: SeqStore, J: Told<S>, K: Marked> Play<Option<Home<S>>, Seen> for GiveStore<J, K> {
    ghost use Rattle.tk_locks.specs.Steps.{given_store};

    ghost then = { given_store J.ground.frame K.count };
}

pub struct Commit<J, K> {
    told: PhantomData<(J, K)>,
}

impl<S: SeqStore, J: Told<S>, K: Said> Play<Option<Home<S>>, Seen> for Commit<J, K> {
    ghost use Rattle.std.specs.Prelude.{◌≡◌, true};
    ghost use Rattle.tk_locks.specs.Rule.{records_in};
    ghost use Rattle.tk_locks.specs.Steps.{made};

    ghost then = { made J.ground.frame (λ m. S.lawful m ≡ true)
        (records_in J.ground.frame.order S.store_view J.ground.start) K.entry };
}

/// Gives the lock of a stripe.
pub struct Give;

impl<S> Play<S, Seen> for Give {
    ghost use Rattle.tk_locks.specs.Steps.{given};

    ghost then = { given };
}

pub struct Look<J> {
    told: PhantomData<J>,
}

impl<S: SeqStore, J: Told<S>> Play<Option<Home<S>>, Seen> for Look<J> {
    ghost use Rattle.std.specs.Prelude.{◌≡◌, true};
    ghost use Rattle.tk_locks.specs.Rule.{records_in};
    ghost use Rattle.tk_locks.specs.Steps.{seen};

    ghost then = { seen J.ground.frame (λ m. S.lawful m ≡ true)
        (records_in J.ground.frame.order S.store_view J.ground.start) };
}

/// After a join: both histories that were seen begin the longer one.
pub struct Hear;

impl<S> Play<S, Seen> for Hear {
    ghost use Rattle.tk_locks.specs.Steps.{heard};

    ghost then = { heard };
}

pub struct Halves;

impl Split<Seen> for Halves {
    ghost use Rattle.tk_locks.specs.Steps.{left_half, right_half};

    ghost left = { left_half };

    ghost right = { right_half };
}

pub struct Merges;

impl Join<Seen> for Merges {
    ghost use Rattle.tk_locks.specs.Steps.{merged};
    ghost use Rattle.tk_locks.specs.View.{nobody};

    ghost both = { merged };

    ghost spent = { nobody };
}
