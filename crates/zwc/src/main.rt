//! The program: hands the words of the command line, the files, the input and the outputs of the system to the compiler, and
//! ends with the status that it answers. It must not know: anything but that call and the adapters of the system.
#![tactic(auto)]

use std::alloc::{AllocError, Global};
use std::env;
use std::io::ErrorKind;
use std::process::ExitCode;
use std::rt::Env;
use zw_base::Word;
use zw_drive::zig;
use zw_host::{HostDiag, HostOut, HostSource, HostTree};

/// The status for want of memory.
const OUT_OF_MEMORY: u8 = 11;

fn main(rt: HostRuntime) -> ExitCode {
    let alloc = rt.alloc();
    let Ok(words) = words(&rt, alloc) else {
        return ExitCode::from(OUT_OF_MEMORY);
    };
    let mut tree = HostTree::new(&rt, alloc);
    let mut input = HostSource::new(&rt);
    let mut out = HostOut::new(&rt);
    let mut diag = HostDiag::new(&rt);
    let status = zig(alloc, &words, &mut tree, &mut input, &mut out, &mut diag);
    ExitCode::from(status)
}

/// The words after the program's name. Where one of them isn't UTF-8, there are none, which is no command.
fn words<R: Env + AllocGlobal>(rt: &R, alloc: Global) -> Result<Vec<Word>, AllocError> {
    let mut words = Vec::new(alloc);
    match env::args(rt) {
        Ok(args) => {
            for arg in args.skip(1) {
                words.push(Word::copy(alloc, arg.as_bytes())?)?;
            }
        }
        Err(error) if error.kind() == ErrorKind::OutOfMemory => return Err(AllocError),
        Err(_) => {}
    }
    Ok(words)
}
