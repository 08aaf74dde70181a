//! sherlog: what a failed program must have done, may have done and can't have done, from its source and
//! its log. The top call is `run`, a command line served; `main` hands it the words, the files and the streams.
#![tactic(auto)]

mod call;
mod getting;
mod lines;
mod output;
mod places;
mod refusal;
mod reporting;
mod request;
mod serving;
mod source;
mod words;

use crate::call::run;
use crate::lines::{tell_memory, tell_usage};
use diagnoses::Kept;
use sl_io::{FileShelf, StreamSink};
use std::env;
use std::io::ErrorKind;
use std::process::ExitCode;

/// Why there are no words.
#[derive(Clone, Copy, PartialEq, Eq)]
enum WordFault {
    NotText,
    Memory,
}

/// The words behind the program's name.
fn words_of(rt: &HostRuntime) -> Result<Vec<String>, WordFault> {
    match env::args(rt) {
        Ok(args) => match args.skip(1).collect(rt.alloc()) {
            Ok(words) => Ok(words),
            Err(_) => Err(WordFault::Memory),
        },
        Err(error) if error.kind() == ErrorKind::OutOfMemory => Err(WordFault::Memory),
        Err(_) => Err(WordFault::NotText),
    }
}

fn status_of(rt: &HostRuntime) -> u8 {
    let mut err = StreamSink::new(rt.stderr());
    match words_of(rt) {
        Ok(words) => {
            let mut shelf = FileShelf::new(rt);
            let mut out = StreamSink::new(rt.stdout());
            let mut kept = Kept::new(rt.alloc());
            run(
                rt.alloc(),
                words.as_slice(),
                &mut shelf,
                &mut out,
                &mut err,
                &mut kept,
            )
        }
        Err(WordFault::NotText) => {
            tell_usage(&mut err);
            2
        }
        Err(WordFault::Memory) => {
            tell_memory(&mut err);
            12
        }
    }
}

fn main(rt: HostRuntime) -> ExitCode {
    ExitCode::from(status_of(&rt))
}
