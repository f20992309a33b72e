//! What writes leave of chains.
ghost use Rattle.tk_block.specs.declared.head.StaticHead.{StaticHead};
ghost use Rattle.tk_buckets.specs.Frame.{WritesLeaveChains};

/// A law: it does nothing.
pub fn writes_leave_chains()
    ensures chains { (h : StaticHead) → WritesLeaveChains h }
{}
