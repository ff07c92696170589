//! The program: `commuter` on files and standard output.
#![tactic(auto)]

mod edge;

use cm_io::Sink;
use cm_model::NoMemory;
use cm_top::{Status, commuter};
use edge::{FileShelf, StdSink};
use std::env;
use std::io::ErrorKind;
use std::process::ExitCode;

// The words of the command line, without the program's name. Words that are not text are no command, so none are passed
// on.
fn words(rt: &HostRuntime) -> Result<Vec<String>, NoMemory> {
    let mut words = Vec::new(rt.alloc());
    match env::args(rt) {
        Ok(all) => {
            for word in all.skip(1) {
                words.push(word)?;
            }
        }
        Err(error) if error.kind() == ErrorKind::OutOfMemory => return Err(NoMemory),
        Err(_) => {}
    }
    Ok(words)
}

fn main(rt: HostRuntime) -> ExitCode {
    let mut err = StdSink::new(rt.stderr());
    let Ok(words) = words(&rt) else {
        let _ = err.put(b"commuter: out of memory\n");
        return ExitCode::from(Status::Memory.number());
    };
    let mut shelf = FileShelf::new(&rt);
    let mut out = StdSink::new(rt.stdout());
    let status = commuter(rt.alloc(), &words, &mut shelf, &mut out, &mut err);
    ExitCode::from(status.number())
}
