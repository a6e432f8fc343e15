// The words of the command line.

use std::process::ExitCode;
use std::rt::Env;
use std::{env, io};

/// The status where memory was wanting before the words were read, and where the system did not give the words.
const OUT_OF_MEMORY: u8 = 7;

const NO_WORDS: u8 = 1;

/// The words behind the program's name. The error is the status with which the program ends: 7 where memory was wanting, and 1
/// where the system did not give them.
pub fn words_of(rt: &(impl Env + AllocGlobal)) -> Result<Vec<String>, ExitCode> {
    match collect(rt) {
        Ok(words) => Ok(words),
        Err(error) if error.kind() == io::ErrorKind::OutOfMemory => {
            Err(ExitCode::from(OUT_OF_MEMORY))
        }
        Err(_) => Err(ExitCode::from(NO_WORDS)),
    }
}

fn collect(rt: &(impl Env + AllocGlobal)) -> io::Result<Vec<String>> {
    let mut words = Vec::new(rt.alloc());
    for word in env::args(rt)?.skip(1) {
        words.push(word)?;
    }
    Ok(words)
}
