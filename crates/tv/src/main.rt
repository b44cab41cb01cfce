//! `tv`: the words of the command line, served over the files, the streams and the random bytes of the system.
#![tactic(auto)]

use std::alloc::{AllocError, Global};
use std::process::ExitCode;
use std::rt::Env;
use std::{env, io};
use tv_real::{FileStore, SystemEntropy, WriterSink, hold_streams};
use tv_top::{PlainOutside, plain};

fn main(rt: HostRuntime) -> ExitCode {
    let _streams = hold_streams(&rt);
    // Words that cannot be had are no command line, and neither are none.
    let words = match words_of(&rt) {
        Ok(words) => words,
        Err(_) => Vec::new(rt.alloc()),
    };
    let mut outside = PlainOutside {
        store: FileStore::new(&rt),
        out: WriterSink::new(rt.stdout()),
        err: WriterSink::new(rt.stderr()),
        random: SystemEntropy::new(&rt),
    };
    let ended = plain(rt.alloc(), &words, &mut outside);
    ExitCode::from(ended.status)
}

/// The words after the program's name. One that is not UTF-8 is an error.
fn words_of<R: Env + AllocGlobal>(rt: &R) -> io::Result<Vec<String>> {
    let mut words = Vec::new(rt.alloc());
    for word in env::args(rt)?.skip(1) {
        words.push(word)?;
    }
    Ok(words)
}

#[cfg(test)]
mod tests;
