//! The whole output of a script.
ghost use Rattle.std.specs.Prelude.{◌≡◌, ◌++◌, OnOk, length};
ghost use Rattle.tk_batch.specs.Woven.{HaveWorkers, refused, woven_outs};
ghost use Rattle.tk_status.specs.declared.Status.TheVariants as statuses;
ghost use Rattle.tk_batch.specs.Output.{outs_text};

use crate::output::write::write_out;
use crate::{Line, Out, OutList};
use std::alloc::Global;
use tk_calls::FieldList;
use tk_model::{Bytes, NoMemory};
use tk_status::Status;

/// What is printed for a line whose worker stopped before it.
fn wanting(alloc: Global) -> Out
    ensures { result ≡ refused statuses.NoMemory }
{
    Out {
        number: None,
        status: Status::NoMemory,
        fields: FieldList::new(alloc),
    }
}

/// Puts the output lines at the end: for each line the next answer of its worker.
pub fn print_outs(
    alloc: Global,
    script: &[Line],
    answers: &[OutList],
    out: &mut Bytes,
) -> Result<(), NoMemory>
    requires { HaveWorkers (length answers.now) script.now }
    ensures { OnOk result (out.new ≡ out.old ++ outs_text 1 script.now
        (woven_outs script.now answers.now)) }
{
    let mut next = Vec::from_elem(alloc, 0usize, answers.len())?;
    let wanting = wanting(alloc);
    for i in 0..script.len() {
        let worker = script[i].worker;
        let at = worker as usize;
        let given = answers[at].as_slice();
        let place = next[at];
        if place < given.len() {
            write_out(alloc, worker, i as u64 + 1, &given[place], out)?;
            next[at] = place + 1;
        } else {
            write_out(alloc, worker, i as u64 + 1, &wanting, out)?;
        }
    }
    Ok(())
}
