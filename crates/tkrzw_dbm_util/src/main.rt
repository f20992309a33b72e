//! The command `tkrzw_dbm_util`, run in its current directory.
#![tactic(auto)]

ghost use Rattle.std.specs.Prelude.{◌≡◌, ◌≢◌, IfOk};
ghost use Rattle.std.specs.IoError.{error_kind};
ghost use Rattle.std.specs.declared.io.ErrorKind.TheVariants.{OutOfMemory};
ghost use Rattle.tk_status.specs.Finish.{ended};
ghost use Rattle.tk_disk.specs.Folder.{NoneOut};
ghost use Rattle.tk_disk.specs.DirFolder.{dir_is_out};

use std::process::ExitCode;
use std::{env, io};
use tk_disk::DirFolder;
use tk_io::{StdSink, StdSource};
use tk_model::NoMemory;
use tk_status::{Finish, Status, number, text};
use tk_util::run_util;

/// The words of the command line, without the program's name.
fn words_of(rt: &HostRuntime) -> io::Result<Vec<String>> {
    let mut args = env::args(rt)?;
    let _program = args.next();
    Ok(args.collect(rt.alloc())?)
}

/// Words that are no text are a faulty command line.
fn finish_of(error: io::Error) -> Finish
    ensures memory { error_kind error ≡ OutOfMemory → result ≡ ended 5 }
    ensures words { error_kind error ≢ OutOfMemory → result ≡ ended 1 }
{
    match error.kind() {
        io::ErrorKind::OutOfMemory => Finish::with(5),
        _ => Finish::with(1),
    }
}

/// The current directory.
fn here(rt: &HostRuntime) -> Result<DirFolder<HostRuntime>, NoMemory>
    ensures { IfOk result (λ f. NoneOut (dir_is_out f)) }
{
    DirFolder::new(rt.clone()?, rt.alloc(), ".")
}

fn run(rt: &HostRuntime) -> Finish {
    let words = match words_of(rt) {
        Ok(words) => words,
        Err(error) => return finish_of(error),
    };
    let Ok(mut folder) = here(rt) else {
        return Finish::with(5);
    };
    let mut source = StdSource::new(rt.reader());
    let mut out = StdSink::new(io::writer(rt));
    run_util(rt.alloc(), &words, &mut folder, &mut source, &mut out)
}

/// The name of an answer that a command can end with.
fn answer_of(answer: u8) -> &'static str {
    if answer == number(&Status::NotFound) {
        return text(&Status::NotFound);
    }
    text(&Status::Full {
        size: 0,
        need: 0,
        limit: 0,
    })
}

/// Prints the line that an end above 0 has on standard error.
fn tell(rt: &HostRuntime, finish: &Finish) -> io::Result<()> {
    match finish.status {
        0 => Ok(()),
        1 => eprintln!(rt; "usage"),
        3 => {
            let (file, place) = (finish.file, finish.place);
            eprintln!(rt; "file {file} refused at place {place}")
        }
        5 => eprintln!(rt; "no memory"),
        6 => eprintln!(rt; "answer {}", answer_of(finish.answer)),
        7 => {
            let file = finish.file;
            eprintln!(rt; "file {file} exists")
        }
        _ => eprintln!(rt; "fault"),
    }
}

fn main(rt: HostRuntime) -> ExitCode {
    let finish = run(&rt);
    // There is nowhere to tell that standard error failed.
    let _ = tell(&rt, &finish);
    ExitCode::from(finish.status)
}
