//! What the last look-up found.
ghost use Rattle.std.specs.Prelude.{◌≡◌, List, IfSome, OnOk, OnErr, Some, None};
ghost use Rattle.std.specs.Option.{is_some};
ghost use Rattle.tk_model.specs.Records.{find};
ghost use Rattle.tk_model.specs.declared.record.Pair.{Pair};
ghost use Rattle.tk_hash.specs.Seek.{IsFound};

use std::alloc::Global;
use tk_model::{Bytes, NoMemory, is_same};

/// The key that was looked up last, and whether a record has it, as long as that is known.
#[derive(Drop)]
pub(crate) struct FoundKey {
    key: Bytes,
    present: Option<bool>,
}

impl FoundKey {
    pub(crate) fn new(alloc: Global) -> FoundKey
        ensures { result.present ≡ None }
    {
        FoundKey {
            key: Bytes::new(alloc),
            present: None,
        }
    }

    /// Remembers what was found.
    pub(crate) fn remember(&mut self, key: &[u8], present: bool) -> Result<(), NoMemory>
        ensures right { (records : List Pair) → present ≡ is_some (find key.now records)
            → IsFound self.new records }
        ensures known { OnOk result ((self.new.key ≡ key.now) × (self.new.present ≡ Some present)) }
        ensures unknown { OnErr result (self.new.present ≡ None) }
    {
        self.present = None;
        self.key.clear();
        self.key.extend(key)?;
        self.present = Some(present);
        Ok(())
    }

    pub(crate) fn forget(&mut self)
        ensures { self.new.present ≡ None }
    {
        self.present = None;
    }

    /// Whether a record has this key, where it is the one that was looked up.
    pub(crate) fn recall(&self, key: &[u8]) -> Option<bool>
        ensures right { (records : List Pair) → IsFound self.now records
            → IfSome result (λ there. there ≡ is_some (find key.now records)) }
        ensures saved { key.now ≡ self.now.key → result ≡ self.now.present }
    {
        if is_same(self.key.as_slice(), key) {
            self.present
        } else {
            None
        }
    }
}
