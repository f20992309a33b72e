//! The keys of records, without their values.
ghost use Rattle.std.specs.Prelude.{ℕ, List, OnOk};
ghost use Rattle.tk_model.specs.Records.{after_one};
ghost use Rattle.tk_model.specs.declared.record.Order.TheVariants.{Hash};
ghost use Rattle.tk_model.specs.declared.record.Change.TheVariants.{Put};
ghost use Rattle.tk_model.specs.declared.record.Pair.{Pair};
ghost use Rattle.tk_block.specs.Blocks.{body_said};
ghost use Rattle.tk_append.specs.Opening.{change_in};
ghost use Rattle.tk_append.specs.Keys.{HasKeys};

use std::alloc::Global;
use std::collections::HashSet;
use tk_block::Block;
use tk_model::NoMemory;

fn add(alloc: Global, keys: &mut HashSet<Vec<u8>>, key: &[u8]) -> Result<(), NoMemory>
    ensures { (pairs : List Pair) (value : List ℕ) → HasKeys keys.old pairs
        → OnOk result
        (HasKeys keys.new (after_one Hash (Put (record { key = key.now; value = value })) pairs)) }
{
    keys.insert(Vec::from_slice(alloc, key)?)?;
    Ok(())
}

/// Makes the change of a block.
pub(crate) fn change_keys(
    alloc: Global,
    keys: &mut HashSet<Vec<u8>>,
    block: Block<'_>,
) -> Result<(), NoMemory>
    ensures { (pairs : List Pair) → HasKeys keys.old pairs
        → OnOk result (HasKeys keys.new (after_one Hash (change_in (body_said block.entry))
        pairs)) }
{
    match block.kind {
        1 => add(alloc, keys, block.key),
        2 => {
            keys.remove(block.key);
            Ok(())
        }
        _ => {
            *keys = HashSet::new(alloc);
            Ok(())
        }
    }
}
