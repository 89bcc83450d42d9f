//! `clu solve FILE` and `clu check FILE CERTIFICATE`, over the system's words, files and streams. All that they do is `run` of
//! `clu_cli`; where the words can't be had, nothing is loaded.
#![tactic(auto)]

use clu_cli::{Stop, run, tell};
use clu_outside::{RealFolder, RealSink};
use std::io::ErrorKind;
use std::process::ExitCode;
use std::{env, io};

/// The words behind the program's name.
fn words_of(rt: &HostRuntime) -> io::Result<Vec<String>> {
    let mut words = Vec::new(rt.alloc());
    for word in env::args(rt)?.skip(1) {
        words.push(word)?;
    }
    Ok(words)
}

fn main(rt: HostRuntime) -> ExitCode {
    let mut err = RealSink::new(rt.stderr());
    let words = match words_of(&rt) {
        Ok(words) => words,
        Err(error) => {
            let stop = match error.kind() {
                ErrorKind::OutOfMemory => Stop::Memory,
                _ => Stop::Words,
            };
            tell(rt.alloc(), &mut err, &stop);
            return ExitCode::from(stop.status());
        }
    };
    let mut folder = RealFolder::new(&rt);
    let mut out = RealSink::new(rt.stdout());
    ExitCode::from(run(rt.alloc(), &words, &mut folder, &mut out, &mut err))
}
