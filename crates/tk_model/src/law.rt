//! Laws, as functions that do nothing.
ghost use Rattle.tk_model.specs.OrderLaws.{OrdersKeys};
ghost use Rattle.tk_model.specs.RecordLaws.{Finds, KeepsRising, FoundAlike, ChangesReach, PartsReach, KeepsLimits};

use crate::Order;

/// Keys stand in one line, whatever the order.
pub fn keys_in_line(order: Order)
    ensures { OrdersKeys order }
{
    let _ = order;
}

/// Records in order are a map from keys to values, and stay so.
pub fn records_are_a_map(order: Order)
    ensures finds { Finds order }
    ensures rising { KeepsRising order }
    ensures alike { FoundAlike order }
{
    let _ = order;
}

/// What a call changes leads to the records after it, in each shard and as a whole.
pub fn changes_are_enough(order: Order)
    ensures net { ChangesReach order }
    ensures parts { PartsReach order }
    ensures limits { KeepsLimits order }
{
    let _ = order;
}
