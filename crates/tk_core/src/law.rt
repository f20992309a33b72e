//! Laws, as functions that do nothing.
ghost use Rattle.tk_core.specs.Laws.{NoRings, LocksKeep, LookKeeps, StoresKeep, StandsAnew, CommitKeeps, SyncsAll, HalvesKeep, WholeHasAll, AllReached, CoversEnough, CallersKnow};

use crate::Frame;

/// Callers never wait for one another in a ring.
pub fn no_ring(frame: Frame)
    ensures { NoRings frame }
{
    let _ = frame;
}

/// Looks, and locks that are taken, missed and given back, keep the rule.
pub fn locks_keep_the_rule(frame: Frame)
    ensures locks { LocksKeep frame }
    ensures look { LookKeeps frame }
{
    let _ = frame;
}

/// Stores that are taken out and put back, whole or broken, keep the rule, and so does what they stand for while they are
/// at home.
pub fn stores_keep_the_rule(frame: Frame)
    ensures moves { StoresKeep frame }
    ensures anew { StandsAnew frame }
{
    let _ = frame;
}

/// A call that is committed keeps the rule, whatever others hold; a hard synchronisation makes all groups safe.
pub fn commits_keep_the_rule(frame: Frame)
    ensures keeps { CommitKeeps frame }
    ensures safe { SyncsAll frame }
{
    let _ = frame;
}

/// Splits and joins keep the rule, and a caller to whom all others were joined has everything.
pub fn halves_keep_the_rule(frame: Frame)
    ensures halves { HalvesKeep frame }
    ensures whole { WholeHasAll frame }
{
    let _ = frame;
}

/// The rule holds at the start, and after every list of moves that are allowed in turn.
pub fn all_reached_meet_the_rule(frame: Frame)
    ensures { AllReached frame }
{
    let _ = frame;
}

/// The locks that a call needs cover all that it looks at and all that it changes.
pub fn covers_are_enough(frame: Frame)
    ensures { CoversEnough frame }
{
    let _ = frame;
}

/// What a caller learnt under its locks is so as long as it holds them, whatever others do.
pub fn callers_know(frame: Frame)
    ensures { CallersKnow frame }
{
    let _ = frame;
}
