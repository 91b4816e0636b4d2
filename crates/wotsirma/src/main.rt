//! The command line: reads a screen from standard input, and writes what was asked for to standard output.
#![tactic(auto)]

mod command;
mod failure;
mod run;

use std::process::ExitCode;

fn main(rt: HostRuntime) -> ExitCode {
    match run::run(&rt) {
        Ok(()) => ExitCode::SUCCESS,
        Err(failure) => {
            let _ = eprintln!(rt; "wotsirma: {failure}");
            ExitCode::FAILURE
        }
    }
}
