//! Laws, as functions that do nothing.
ghost use Rattle.tk_proc.specs.RunLaws.{RunsAreLegal, OneKeyChanges, RunsAnswer};
ghost use Rattle.tk_proc.specs.ReplyLaws.{ValuesAreMetAlone, NumbersAreReadBack};

use crate::RecordProcessor;
use tk_model::Order;

/// What a processor does is a legal call.
pub fn runs_are_legal<P: RecordProcessor>(_: &P, order: Order)
    ensures legal { RunsAreLegal P.acts P.turns order }
    ensures one { OneKeyChanges P.acts P.turns order }
    ensures answers { RunsAnswer P.acts P.turns order }
{
    let _ = order;
}

/// An expected value is met by itself alone.
pub fn values_are_met_alone()
    ensures { ValuesAreMetAlone }
{}

/// What an increment stores is the number that the next one reads.
pub fn numbers_are_read_back()
    ensures { NumbersAreReadBack }
{}
