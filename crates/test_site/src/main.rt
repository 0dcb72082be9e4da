//! A test program: eight callers of one site in threads of their own. It prints what the site reports, if the receipts
//! are its whole history. A disk in memory stands beside it, as a witness that a disk can keep all promises.
#![tactic(auto)]

mod calls;
mod children;
mod copies;
mod eight_threads;
mod mem_disk;
mod receipts;
mod sites;

use eight_threads::eight_callers_in_threads;
use std::io;
use std::io::{Error, ErrorKind, Write};
use std::process::ExitCode;
use std::sync::Wait;
use std::thread::Threads;
use std::time::Clock;

// Prints what eight callers come to.
fn run<R: Print + AllocGlobal + Threads + Wait + Clock + Sync>(rt: &R) -> io::Result<()> {
    match eight_callers_in_threads(rt) {
        Some(report) => {
            let (admitted, live) = (report.admitted, report.live);
            writeln!(io::writer(rt), "admitted {admitted} live {live}")
        }
        None => Err(Error::from(ErrorKind::Other)),
    }
}

fn main(rt: HostRuntime) -> ExitCode {
    match run(&rt) {
        Ok(()) => ExitCode::SUCCESS,
        Err(_) => ExitCode::FAILURE,
    }
}
