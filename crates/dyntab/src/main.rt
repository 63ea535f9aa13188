//! Runs a job over the files and the standard streams of the system.
#![tactic(auto)]

mod words;

use ct_io::Sink;
use job::{Ending, run_job, status};
use std::process::ExitCode;
use system_io::{FileShelf, Stream};
use words::{WordFault, words_of};

fn main(rt: HostRuntime) -> ExitCode {
    let alloc = rt.alloc();
    let (Ok(out), Ok(mut err)) = (
        Stream::new(alloc, rt.stdout()),
        Stream::new(alloc, rt.stderr()),
    ) else {
        return ExitCode::from(status(&Ending::Memory));
    };
    let mut out = out.as_last();
    let mut shelf = FileShelf::new(&rt);
    let mut ending = match words_of(&rt) {
        Ok(words) => run_job(alloc, words.as_slice(), &mut shelf, &mut out, &mut err),
        Err(WordFault::NotText) => {
            let _ = err.put(b"usage\n");
            Ending::Usage
        }
        Err(WordFault::Memory) => {
            let _ = err.put(b"out of memory\n");
            Ending::Memory
        }
    };
    // What is gathered is written at the end; where that fails, a job that ended well hasn't.
    if out.finish().is_err() && matches!(&ending, Ending::Done) {
        let _ = err.put(b"write fault\n");
        ending = Ending::WriteFault;
    }
    let _ = err.finish();
    ExitCode::from(status(&ending))
}
