ghost use Rattle.std.specs.Prelude.{◌≡◌, ℕ, List, Option, Some, None, IfOk, OnOk, OnErr};
ghost use Rattle.std.specs.Option.{option_copied};
ghost use Rattle.tk_model.specs.declared.record.Action.{Action};

use tk_model::{Action, NoMemory};

/// What is to become of a record.
pub trait RecordProcessor {
    /// The action at a key and its value.
    ghost acts: { Self → List ℕ → Option (List ℕ) → Action };

    /// The processor after that.
    ghost turns: { Self → List ℕ → Option (List ℕ) → Self };

    /// The action at a record of this value.
    fn process_full(&mut self, key: &[u8], value: &[u8]) -> Result<Action, NoMemory>
        ensures action { IfOk result (λ a. a ≡ acts self.old key.now (Some value.now)) }
        ensures turned { OnOk result (self.new ≡ turns self.old key.now (Some value.now)) }
        ensures err { OnErr result (self.new ≡ self.old) };

    /// The action at a key that has no record.
    fn process_empty(&mut self, key: &[u8]) -> Result<Action, NoMemory>
        ensures action { IfOk result (λ a. a ≡ acts self.old key.now None) }
        ensures turned { OnOk result (self.new ≡ turns self.old key.now None) }
        ensures err { OnErr result (self.new ≡ self.old) };
}

/// Asks a processor about a record that may be absent.
pub fn ask<P: RecordProcessor>(
    p: &mut P,
    key: &[u8],
    value: Option<&[u8]>,
) -> Result<Action, NoMemory>
    ensures action { IfOk result (λ a. a ≡ P.acts p.old key.now (option_copied value.entry)) }
    ensures turned { OnOk result (p.new ≡ P.turns p.old key.now (option_copied value.entry)) }
    ensures err { OnErr result (p.new ≡ p.old) }
{
    match value {
        Some(value) => p.process_full(key, value),
        None => p.process_empty(key),
    }
}
