use crate::fault::write_fault;
use crate::headline::ksql;
use crate::status::Status;
use ksql_outside::{DirFolder, NoGate, StdSink};
use ksql_types::{Items, Word, Words};
use std::env::Env;
use std::io::ErrorKind;
use std::process::ExitCode;
use std::rt::Files;
use std::{env, mem};

/// Runs the command line of the process, in the working folder and to standard output, and returns the exit code of its
/// status.
pub fn run_command<R: AllocGlobal + Env + Files + Print>(rt: &R) -> ExitCode {
    let alloc = rt.alloc();
    let mut folder = DirFolder::new(rt, alloc);
    let mut out = StdSink::new(rt);
    let mut ran = None;
    let status = match words(rt) {
        Ok(words) => ksql(rt, alloc, &words, &mut folder, &mut out, &NoGate, &mut ran),
        Err(status) => {
            let _ = write_fault(&mut out, &status);
            status
        }
    };
    // The process ends, so freeing its memory record by record would only take time.
    mem::forget(ran);
    ExitCode::from(status.code())
}

/// The words of the command line, with the program's name first.
fn words<R: AllocGlobal + Env>(rt: &R) -> Result<Words, Status> {
    let mut words = Vec::new(rt.alloc());
    let args = match env::args(rt) {
        Ok(args) => args,
        Err(error) if error.kind() == ErrorKind::OutOfMemory => return Err(Status::OutOfMemory),
        Err(_) => return Err(Status::Usage),
    };
    for word in args {
        words.push(Word::of(word))?;
    }
    Ok(Items::of(words))
}
