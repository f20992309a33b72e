//! The calls of a script, and what each replies.
#![tactic(auto)]

mod call;
mod early;
mod law;
mod plain;

pub use call::{
    Call, DesiredList, DesiredPair, ExpectedList, ExpectedPair, Field, FieldList, LineReply,
    MultiStep, MultiStepList, Op, Plan, PlanList, Position, Step,
};
pub use early::answered_early;
pub use law::{replies_are_calm, replies_say_what_stands_there};
pub use plain::reply;

#[cfg(test)]
mod tests;
