//! Laws, as functions that do nothing.
ghost use Rattle.tk_block.specs.declared.head.StaticHead.{StaticHead};
ghost use Rattle.tk_update.specs.Laws.{BlocksAreRecords, RestoresValues, WritesBlocks, LeftByPast, FairKeepsKeys, PastsKeep, SafeLess, StaysFair};

use tk_model::Order;

/// The blocks after changes are the records after them, and an image is restored to the values of its keys.
pub fn blocks_are_records(order: Order)
    ensures blocks { BlocksAreRecords order }
    ensures restored { RestoresValues order }
{}

/// What is written makes the blocks that changes ask for.
pub fn writes_make_blocks()
    ensures writes { (h : StaticHead) → WritesBlocks h }
{}

/// Untorn images that fair pasts leave keep the keys.
pub fn images_keep_keys()
    ensures keys { FairKeepsKeys }
    ensures pasts { PastsKeep }
    ensures less { SafeLess }
{}

/// Pasts stay fair, and leave what the disk leaves.
pub fn pasts_stay_fair()
    ensures left { LeftByPast }
    ensures fair { (h : StaticHead) → StaysFair h }
{}
