ghost use Rattle.std.specs.Prelude.{◌≡◌};
ghost use Rattle.tk_calls.specs.Calls.{early, is_nowhere, needs_order, needs_place};
ghost use Rattle.tk_calls.specs.Iterators.{is_unordered};

use crate::{Call, Position};
use tk_model::Order;
use tk_status::Status;

pub(crate) fn is_unordered(order: &Order) -> bool
    ensures { result ≡ is_unordered order.now }
{
    match order {
        Order::Hash => true,
        Order::Bytes | Order::Case | Order::Decimal | Order::Hex => false,
    }
}

fn needs_order(call: &Call) -> bool
    ensures { result ≡ needs_order call.now }
{
    matches!(
        call,
        Call::Last | Call::Previous | Call::Lower { .. } | Call::Upper { .. }
    )
}

fn needs_place(call: &Call) -> bool
    ensures { result ≡ needs_place call.now }
{
    matches!(
        call,
        Call::Next | Call::Previous | Call::IterRemove | Call::IterGet | Call::IterSet(_)
    )
}

fn is_nowhere(position: &Position) -> bool
    ensures { result ≡ is_nowhere position.now }
{
    matches!(position, Position::Nowhere)
}

/// The answer of a call for which the database is not asked.
pub fn answered_early(
    order: &Order,
    writable: bool,
    call: &Call,
    position: &Position,
) -> Option<Status>
    ensures { result ≡ early order.now writable call.now position.now }
{
    if needs_order(call) && is_unordered(order) {
        return Some(Status::NotImplemented);
    }
    if needs_place(call) && is_nowhere(position) {
        return Some(Status::NotFound);
    }
    if call.writes() && !writable {
        return Some(Status::Precondition);
    }
    None
}
