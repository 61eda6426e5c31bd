//! The program: the top call over the real words, files and streams.
#![tactic(auto)]

use io_edge::{DirShelf, Name, StreamSink};
use std::alloc::AllocError;
use std::process::ExitCode;
use std::rt::Env;
use std::{env, io};
use voodoo_cmd::{Status, run};

/// The exit status where a word is not UTF-8. No line is printed then.
const NOT_UTF8: u8 = 2;

fn main(rt: HostRuntime) -> ExitCode {
    let words = match words_of(&rt) {
        Ok(words) => words,
        Err(code) => return ExitCode::from(code),
    };
    let mut out = StreamSink::new(rt.stdout());
    let mut err = StreamSink::new(rt.stderr());
    let alloc = rt.alloc();
    let mut shelf = DirShelf::new(rt);
    let status = run(alloc, words.as_slice(), &mut shelf, &mut out, &mut err);
    ExitCode::from(status.code())
}

/// The words of the command line, the program's own name first, or the exit status where they
/// can't be had.
fn words_of<R: Env + AllocGlobal>(rt: &R) -> Result<Vec<Name>, u8> {
    let all = match env::args(rt) {
        Ok(all) => all,
        Err(e) if e.kind() == io::ErrorKind::OutOfMemory => return Err(Status::NoMemory.code()),
        Err(_) => return Err(NOT_UTF8),
    };
    let mut words = Vec::new(rt.alloc());
    for word in all {
        if words.push(Name::from_string(word)).is_err() {
            return Err(Status::NoMemory.code());
        }
    }
    Ok(words)
}
