ghost use Rattle.std.specs.Prelude.{◌≡◌};
ghost use Rattle.tk_dbm.specs.Dbm.{view, IsCounted};

use std::alloc::Global;
use tk_model::Bytes;

/// The longest value whose room a pass keeps for its next call.
const KEPT: usize = 65_536;

/// A caller's token, with room for the values that it reads.
#[derive(Drop)]
pub struct Pass {
    pub(crate) token: tk_locks::Pass,
    pub(crate) room: Bytes,
}

impl Pass {
    pub(crate) fn new(alloc: Global, token: tk_locks::Pass) -> Pass
        ensures { result.token ≡ token }
    {
        Pass {
            token,
            room: Bytes::new(alloc),
        }
    }

    /// How many calls it may still make.
    pub fn allowance(&self) -> u64
        requires counted { IsCounted self.now }
        ensures value { result ≡ (view self.now).caller.allowance }
    {
        self.token.allowance()
    }

    /// Lets go of the room that a long value took.
    pub(crate) fn trim(&mut self, alloc: Global)
        ensures { self.new.token ≡ self.old.token }
    {
        if self.room.len() > KEPT {
            self.room = Bytes::new(alloc);
        }
    }
}
