//! The program `acas`: the top call over the files, the words and the streams of the system.
#![tactic(auto)]

use acas_cli::ended;
use acas_cli_words::{NoWords, given_words};
use acas_outside::{RealFolder, RealSink};
use std::process::ExitCode;

/// The exit code where the words find no memory.
const NO_MEMORY: u8 = 12;

/// The exit code where the system refuses the words, as it does where one is no text.
const NO_WORDS: u8 = 13;

fn main(rt: HostRuntime) -> ExitCode {
    let words = match given_words(&rt) {
        Ok(words) => words,
        Err(NoWords::Memory) => return ExitCode::from(NO_MEMORY),
        Err(NoWords::Refused) => return ExitCode::from(NO_WORDS),
    };
    let mut folder = RealFolder::new(&rt);
    let mut out = RealSink::new(rt.stdout());
    let mut err = RealSink::new(rt.stderr());
    ended(rt.alloc(), &words, &mut folder, &mut out, &mut err)
}
