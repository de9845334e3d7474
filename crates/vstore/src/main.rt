//! The program `vstore`: the top call over the words, the input and the outputs of its process, and the files of
//! the working folder.
#![tactic(auto)]

use outside::{StdSink, StdSource};
use shelf::DirShelf;
use std::env;
use std::io::ErrorKind;
use std::process::ExitCode;
use variant_store::{Word, vstore};
use vs_bytes::{NoMemory, Text};

// Where there is no memory for the words themselves.
const NO_MEMORY: u8 = 7;

/// The words after the program's name.
///
/// They are read all or none: where one isn't UTF-8 there are none, and no command has none.
fn words(rt: &HostRuntime) -> Result<Vec<Word>, NoMemory> {
    let alloc = rt.alloc();
    match env::args(rt) {
        Ok(args) => Ok(args.skip(1).map(Text::from_string).collect(alloc)?),
        Err(error) if error.kind() == ErrorKind::OutOfMemory => Err(NoMemory),
        Err(_) => Ok(Vec::new(alloc)),
    }
}

fn main(rt: HostRuntime) -> ExitCode {
    let Ok(words) = words(&rt) else {
        return ExitCode::from(NO_MEMORY);
    };
    let mut shelf = DirShelf::new(rt.alloc(), &rt);
    let mut input = StdSource::new(rt.stdin());
    let mut out = StdSink::new(rt.stdout());
    let mut err = StdSink::new(rt.stderr());
    ExitCode::from(vstore(
        rt.alloc(),
        words.as_slice(),
        &mut shelf,
        &mut input,
        &mut out,
        &mut err,
    ))
}
