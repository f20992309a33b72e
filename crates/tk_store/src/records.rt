//! Work on sorted records.
ghost use Rattle.std.specs.Prelude.{◌≡◌, IfOk};
ghost use Rattle.tk_model.specs.Records.{after_one, after};

use tk_model::{Change, NoMemory, Order, PairList, copy_pair, drop_in, put_in};

fn with_one(order: &Order, pairs: PairList, change: &Change) -> Result<PairList, NoMemory>
    ensures { IfOk result (λ now. now ≡ after_one order.now change.now pairs) }
{
    let mut now = pairs;
    match change {
        Change::Put(new) => put_in(&mut now, order, copy_pair(new)?)?,
        Change::Drop(key) => drop_in(&mut now, key.as_slice()),
        Change::Clear => now.clear(),
    }
    Ok(now)
}

fn with_each(order: &Order, pairs: PairList, changes: &[Change]) -> Result<PairList, NoMemory>
    ensures { IfOk result (λ now. now ≡ after order.now changes.now pairs) }
{
    match changes {
        [] => Ok(pairs),
        [change, rest @ ..] => with_each(order, with_one(order, pairs, change)?, rest),
    }
}

/// The records after the changes.
pub fn with_all(order: &Order, pairs: &PairList, changes: &[Change]) -> Result<PairList, NoMemory>
    ensures { IfOk result (λ now. now ≡ after order.now changes.now pairs.now) }
{
    let copy = pairs.clone()?;
    with_each(order, copy, changes)
}
