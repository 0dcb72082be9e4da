//! The program `ucspi`: the name by which it was called, or its first word, names a tool. Where there is none it is
//! `rulesim`, or at a terminal it lists the tools.
//!
//! `main` lends the system, and the tools that start threads, to `run_system`. That lends all tools, as calls, to
//! `ucspi_tools::run_program`. What they lend is a premise, which their lines state: `docs/internals/PROOFS.md` lists
//! them.
//!
//! `tcpserver` stands here too, in `tool` and `serving`: the service of `tcp_service` over the system's sockets, files
//! and programs, as its words ask for it. `System` has what it uses of the system, and `OnSystem` is the host of its
//! service. `parts_of`, `yard_of`, `log_of` and `open_socket` are proved to make what the words ask for
//! (`specs/Asked.antt`), and the calls behind them take nothing else. Only of the log no clause says so. That
//! `run_in_yard` lends all to `serve`, and what is printed and exited with, is read here and tested with real clients.
//! `run_tcpserver` refuses words with a fault, and ends well only by a `Finished`.
//!
//! At the end of a server `end_of` compares the connections alive with the retired ones, and the admissions with how
//! many were let in, and reports a difference as `lost connection`. The events of its yard are a run, of which
//! `whole_yard::laws::whole_run` speaks.
#![tactic(auto)]

mod ends;
mod rules;
mod serving;
mod standard;
mod system;
mod tool;

use fault_hints::Voice;
use server_parts::opening::hold_standard;
use standard::run_system;
use std::process::ExitCode;
use stream_tools::{run_fixcrio, run_recordio};
use tool::run_tcpserver;

fn main(rt: HostRuntime) -> ExitCode {
    let serve = |voice: Voice, words: &[Vec<u8>], causes: &mut Vec<u8>| {
        match run_tcpserver(&rt, rt.stderr(), words, voice, causes) {
            Ok(_finished) => Ok(()),
            Err(fault) => Err(fault),
        }
    };
    let pass = |recorded: bool, words: &[Vec<u8>]| {
        let _held = hold_standard(&rt);
        if recorded {
            run_recordio(&rt, rt.stderr(), words)
        } else {
            run_fixcrio(&rt, words)
        }
    };
    ExitCode::from(run_system(&rt, rt.stderr(), serve, pass))
}
