use std::alloc::Global;
use tk_model::{Action, Bytes, NoMemory};
use tk_proc::RecordProcessor;

/// Puts its byte behind the value.
#[derive(Drop)]
pub struct Tagger {
    pub alloc: Global,
    pub tag: u8,
}

impl RecordProcessor for Tagger {
    ghost use Rattle.std.specs.Prelude.{[], ◌∷◌, ◌++◌, unwrap_or};
    ghost use Rattle.tk_model.specs.declared.record.Action.TheVariants.{Put};

    ghost acts = { λ p k was. Put (unwrap_or was [] ++ p.tag ∷ []) };

    ghost turns = { λ p k was. p };

    fn process_full(&mut self, _: &[u8], value: &[u8]) -> Result<Action, NoMemory> {
        let mut longer = Bytes::with_capacity(self.alloc, value.len() + 1)?;
        longer.extend(value)?;
        longer.push(self.tag)?;
        Ok(Action::Put(longer))
    }

    fn process_empty(&mut self, _: &[u8]) -> Result<Action, NoMemory> {
        let mut value = Bytes::new(self.alloc);
        value.push(self.tag)?;
        Ok(Action::Put(value))
    }
}
