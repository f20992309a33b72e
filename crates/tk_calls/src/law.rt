//! Laws, as functions that do nothing.
ghost use Rattle.tk_calls.specs.ReplyLaws.{RepliesAreCalm, RepliesSayWhatStandsThere};

/// No reply has a status that only a fault, a limit or want of memory brings.
pub fn replies_are_calm()
    ensures { RepliesAreCalm }
{}

/// What a call saw at each key is what stands there in the map so far.
pub fn replies_say_what_stands_there()
    ensures { RepliesSayWhatStandsThere }
{}
