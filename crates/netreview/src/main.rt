//! `netreview` audits accountable logs of the BGP messages of a network.
#![tactic(auto)]

mod advise;
#[cfg(test)]
mod audit_tests;
#[cfg(test)]
mod broken_tests;
#[cfg(test)]
mod check_tests;
#[cfg(test)]
mod collect_tests;
#[cfg(test)]
mod evidence_tests;
#[cfg(test)]
mod fault_tests;
#[cfg(test)]
mod keygen_tests;
#[cfg(test)]
mod outside_tests;
#[cfg(test)]
mod record_tests;
#[cfg(test)]
mod rows;
mod run;
#[cfg(test)]
mod samples;
#[cfg(test)]
mod wrong_tests;

use advise::advise;
use nr_advice::Ended;
use nr_system::{Access, Kept, NoWords, Output, SystemFiles, words};
use run::run;
use std::io;
use std::process::ExitCode;

// The status where there are no words, because memory ran out or the system gives none. Nothing is printed then.
const NO_WORDS: u8 = 8;

// What a command writes is its owner's alone where it holds a secret: a key.
fn access_of(words: &[String]) -> Access {
    match words.first() {
        Some(command) if command.as_str() == "keygen" => Access::Owner,
        _ => Access::Umask,
    }
}

fn run_words(rt: &HostRuntime, words: &[String]) -> u8 {
    let mut files = SystemFiles::new(rt, rt.alloc(), access_of(words));
    let mut out = Kept::new(Output::new(io::writer(rt)));
    let status = run(rt.alloc(), words, &mut files, &mut out);
    let ended = Ended {
        words,
        status,
        text: out.first(),
        field: None,
    };
    advise(rt, &ended, files.cause());
    status
}

fn main(rt: HostRuntime) -> ExitCode {
    let status = match words(&rt) {
        Ok(words) => run_words(&rt, words.as_slice()),
        Err(NoWords::Memory | NoWords::System) => {
            let ended = Ended {
                words: &[],
                status: NO_WORDS,
                text: &[],
                field: None,
            };
            advise(&rt, &ended, None);
            NO_WORDS
        }
    };
    ExitCode::from(status)
}
