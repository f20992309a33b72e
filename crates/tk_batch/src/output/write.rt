//! The lines of the output.
ghost use Rattle.std.specs.Prelude.{◌≡◌, ◌++◌, ◌∷◌, [], OnOk, decimal};
ghost use Rattle.tk_batch.specs.Output.{number_text, field_text, fields_text, out_text};

use crate::Out;
use std::alloc::Global;
use tk_flat::escape;
use tk_model::{Bytes, NoMemory};
use tk_status::text;

fn write_number(alloc: Global, number: u64, out: &mut Bytes) -> Result<(), NoMemory>
    ensures { OnOk result (out.new ≡ out.old ++ decimal number) }
{
    let digits = format!(in alloc; "{number}")?;
    out.extend(digits.as_bytes())
}

fn write_option(alloc: Global, number: Option<u64>, out: &mut Bytes) -> Result<(), NoMemory>
    ensures { OnOk result (out.new ≡ out.old ++ number_text number) }
{
    match number {
        None => out.push(b'-'),
        Some(number) => write_number(alloc, number, out),
    }
}

fn write_field(field: &Option<Bytes>, out: &mut Bytes) -> Result<(), NoMemory>
    ensures { OnOk result (out.new ≡ out.old ++ field_text field.now) }
{
    out.push(b'\t')?;
    let Some(value) = field else {
        return Ok(());
    };
    out.push(b'=')?;
    escape(value.as_slice(), out)
}

fn write_fields(fields: &[Option<Bytes>], out: &mut Bytes) -> Result<(), NoMemory>
    ensures { OnOk result (out.new ≡ out.old ++ fields_text fields.now) }
{
    for field in fields {
        write_field(field, out)?;
    }
    Ok(())
}

/// Puts an output line at the end.
#[tactic(auto, using(crate::proofs::Joins::appends))]
pub fn write_out(
    alloc: Global,
    worker: u32,
    line: u64,
    o: &Out,
    out: &mut Bytes,
) -> Result<(), NoMemory>
    ensures { OnOk result (out.new ≡ out.old ++ out_text worker line o.now) }
{
    write_option(alloc, o.number, out)?;
    out.push(b'\t')?;
    write_number(alloc, worker as u64, out)?;
    out.push(b'\t')?;
    write_number(alloc, line, out)?;
    out.push(b'\t')?;
    out.extend(text(&o.status).as_bytes())?;
    write_fields(o.fields.as_slice(), out)?;
    out.push(b'\n')
}
