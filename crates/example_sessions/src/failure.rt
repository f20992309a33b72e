ghost use Rattle.std.specs.Prelude.{◌≡◌, true, false, IfOk};
ghost use Rattle.tk_status.specs.declared.Status.TheVariants.{Success};

use std::alloc::AllocError;
use std::io;
use thiserror::Error;
use tk_dbm::Answer;
use tk_model::{NoMemory, OpenError};
use tk_status::Status;

/// Why the program ended early.
#[derive(Debug, Drop, Error)]
pub enum Failure {
    #[error("no memory")]
    NoMemory(#[from] NoMemory),
    #[error("no memory")]
    Alloc(#[from] AllocError),
    #[error("{0}")]
    Io(#[from] io::Error),
    #[error("not opened: {0}")]
    Open(OpenError),
    #[error("not done: {0:?}")]
    Call(Status),
}

/// Whether a call did what it was asked for, or said the no that its caller counts on. Any other answer is a failure.
pub fn is_done(answer: Answer, no: Status) -> Result<bool, Failure>
    ensures yes { IfOk result (λ done. done ≡ true → answer.status ≡ Success) }
    ensures no { IfOk result (λ done. done ≡ false → answer.status ≡ no) }
{
    match answer.status {
        Status::Success => Ok(true),
        status if status == no => Ok(false),
        status => Err(Failure::Call(status)),
    }
}
