//! An entry that a proof picks.
use std::marker::{Brand, PhantomData};
use tk_locks::Call;

/// The entry of a call, known to proofs alone.
pub trait Picked {
    ghost use Rattle.tk_model.specs.declared.record.Entry.{Entry};

    ghost entry: { Entry };
}

impl Picked for Brand {
    ghost use Rattle.tk_model.specs.declared.record.Entry.TheVariants.{Clear};

    ghost entry = { Clear };
}

/// The call of that entry. It has no bytes.
#[derive(Drop)]
pub(crate) struct Entered<J> {
    picked: PhantomData<J>,
}

impl<J: Picked> Entered<J> {
    pub(crate) fn new() -> Entered<J> {
        Entered {
            picked: PhantomData,
        }
    }
}

impl<J: Picked> Call for Entered<J> {
    ghost entry = { λ _. J.entry };
}

/// What a call does on given records, known to proofs alone.
pub trait Asked {
    ghost use Rattle.std.specs.Prelude.{List};
    ghost use Rattle.tk_model.specs.declared.record.Pair.{Pair};
    ghost use Rattle.tk_model.specs.declared.record.Entry.{Entry};

    ghost entry: { List Pair → Entry };
}

impl Asked for Brand {
    ghost use Rattle.tk_model.specs.declared.record.Entry.TheVariants.{Clear};

    ghost entry = { λ _. Clear };
}
