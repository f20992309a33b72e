use std::hint;
use std::sync::atomic::{AtomicU64, Ordering};
use tk_model::{Action, NoMemory};
use tk_proc::RecordProcessor;

/// Keeps what is there. It comes to the word, and waits some turns for another to come; `met` counts those to whom one came.
#[derive(Drop)]
pub struct Meeting<'a> {
    pub word: &'a AtomicU64,
    pub met: &'a AtomicU64,
    pub turns: u32,
}

impl Meeting<'_> {
    fn wait(&self) {
        self.word.fetch_add(1, Ordering::SeqCst);
        for _ in 0..self.turns {
            if self.word.load(Ordering::SeqCst) >= 2 {
                self.met.fetch_add(1, Ordering::SeqCst);
                return;
            }
            hint::spin_loop();
        }
    }
}

impl RecordProcessor for Meeting<'_> {
    ghost use Rattle.tk_model.specs.declared.record.Action.TheVariants.{Keep};

    ghost acts = { λ p k was. Keep };

    ghost turns = { λ p k was. p };

    fn process_full(&mut self, _: &[u8], _: &[u8]) -> Result<Action, NoMemory> {
        self.wait();
        Ok(Action::Keep)
    }

    fn process_empty(&mut self, _: &[u8]) -> Result<Action, NoMemory> {
        self.wait();
        Ok(Action::Keep)
    }
}
