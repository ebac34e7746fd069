//! The program: makes the real files and streams, and ends with the status of the top call.
#![tactic(auto)]

use par_edge::{FolderShelf, OpenGate, StdSink};
use par_laws::Memory;
use pipe_run::parcoll;
use std::alloc::Global;
use std::env;
use std::io::ErrorKind;
use std::process::ExitCode;
use std::rt::Env;

/// The status for want of memory.
const OUT_OF_MEMORY: u8 = 8;

// The words after the program's name. None are lawful where one is not UTF-8, and so there are none then.
fn words<R: Env + Alloc<A = Global>>(rt: &R) -> Result<Vec<String>, Memory> {
    match env::args(rt) {
        Ok(all) => Ok(all.skip(1).collect(rt.alloc())?),
        Err(error) if error.kind() == ErrorKind::InvalidData => Ok(Vec::new(rt.alloc())),
        Err(_) => Err(Memory),
    }
}

fn main(rt: HostRuntime) -> ExitCode {
    let Ok(words) = words(&rt) else {
        return ExitCode::from(OUT_OF_MEMORY);
    };
    let mut shelf = FolderShelf::new(&rt);
    let mut out = StdSink::new(rt.stdout());
    let mut err = StdSink::new(rt.stderr());
    let status = parcoll(
        &rt,
        rt.alloc(),
        &words,
        &mut shelf,
        &mut out,
        &mut err,
        &OpenGate,
    );
    ExitCode::from(status)
}
