//! Programs, the jobs that run them, and what starts a job.
ghost use Rattle.std.specs.Prelude.{◌≡◌, Bool, Result, map, string_bytes, IfOk, IfErr, IsTrue};
ghost use Rattle.child_jobs.specs.declared.outcome.NotStarted.{NotStarted as Refusal};
ghost use Rattle.child_jobs.specs.declared.outcome.Status.{Status as StatusOf};
ghost use Rattle.child_jobs.specs.declared.launch.WaitFault.{WaitFault};
ghost use Rattle.child_jobs.specs.Variables.{Variables};
ghost use Rattle.child_jobs.specs.Programs.{ProgramText};

use crate::{Environment, Exit, NotStarted};
use std::alloc::Global;
use std::marker::Model;

/// A program and its arguments.
///
/// If its path has no slash, the launcher looks for it along the search path of the process that starts it. A `PATH`
/// among the variables of the program doesn't count.
#[derive(Drop)]
pub struct Program {
    path: String,
    args: Vec<String>,
}

impl Model for Program {
    ghost use Rattle.std.specs.Prelude.{map, string_bytes};
    ghost use Rattle.child_jobs.specs.Programs.{ProgramText};

    ghost Value = { ProgramText };

    ghost view = { λ p. record { path = string_bytes p.path; args = map string_bytes p.args.items } };
}

impl Program {
    /// The program at a path, with these arguments behind its name. It takes no memory.
    pub fn new(path: String, args: Vec<String>) -> Program
        ensures { result ≡ record { path = string_bytes path; args = map string_bytes args.items } }
    {
        Program { path, args }
    }

    /// The path of the program.
    pub fn path(&self) -> &str
        ensures { result.now ≡ self.now.path }
    {
        self.path.as_str()
    }

    /// The arguments of the program, in order.
    pub fn args(&self) -> &[String]
        ensures { map string_bytes result.now ≡ self.now.args }
    {
        self.args.as_slice()
    }
}

/// Why a job could not be waited for or killed.
#[derive(Clone, Copy)]
pub enum WaitFault {
    /// The system refused it.
    Failed,
    /// There was no memory.
    OutOfMemory,
}

/// A running program. It tells its program and its environment, which stay the same.
///
/// A job is let go by a wait that succeeded, or by `abandon`. A job that runs a program of the system should not be
/// `Drop`, so that nothing else lets it go.
pub trait Job {
    /// The program that it runs.
    ghost program: { Self → ProgramText };

    /// The variables that the program was given.
    ghost environment: { Self → Variables };

    /// What a kill may answer, with the job before it and after it. If nothing is known of a job, it may answer
    /// anything.
    ghost killed: { Self → Self → Result (Unit {0}) WaitFault → Type 0 };

    /// How its program may have ended, if a wait for it succeeds. If nothing is known of a job, it may have ended in
    /// any way.
    ghost ended: { Self → StatusOf → Type 0 };

    /// What a wait that fails may answer, with the job before it and after it. If nothing is known of a job, it may
    /// answer anything.
    ghost refused_wait: { Self → Self → WaitFault → Type 0 };

    /// Ends the program by force. It still has to be waited for.
    ///
    /// # Errors
    /// `Failed` if the system refused it; `OutOfMemory`. The job is as before.
    fn kill(&mut self) -> Result<(), WaitFault>
        ensures told { killed self.old self.new result }
        ensures program { program self.new ≡ program self.old }
        ensures environment { environment self.new ≡ environment self.old };

    /// The system's number of the process that runs the program, if it is known.
    fn process(&self) -> Option<u32> {
        None
    }

    /// Waits until the program has ended, and answers how it ended.
    ///
    /// # Errors
    /// `Failed` if the system refused it; `OutOfMemory`. The job is handed back and may be waited for again.
    fn wait(self) -> Result<Exit, (Self, WaitFault)>
    where
        Self: Sized,
        ensures told { IfOk result (λ exit. ended self exit.status) }
        ensures refused { IfErr result (λ refused. refused_wait self refused.0 refused.1) }
        ensures program { IfErr result (λ refused. program refused.0 ≡ program self) }
        ensures environment { IfErr result (λ refused. environment refused.0 ≡ environment self) };

    /// Lets the program go before its end: it may run on, and nobody waits for it any more.
    ///
    /// It is for a program that could not be waited for, and for one whose end nobody can be told. Whoever counts
    /// programs counts such a one for good.
    fn abandon(self)
    where
        Self: Sized;
}

/// A launcher: it starts one program.
pub trait Launcher {
    /// The job that it starts.
    type Job: Job;

    /// Whether it may be asked to start this program with these variables. Who lends a launcher says when.
    ghost may: { Self → ProgramText → Variables → Bool };

    /// Why it may refuse a program with these variables. A launcher of which nothing is known may answer anything.
    ghost refuses: { Self → ProgramText → Variables → Refusal → Type 0 };

    /// Starts a program with these variables and no others. The launcher is spent by one try.
    ///
    /// # Errors
    /// `NotFound` if there is no such program; `Refused` if the system refuses it, as one that may not be executed;
    /// `Other` for any other reason; `OutOfMemory`. Nothing runs then.
    ///
    /// Only `Job::abandon` could let a job go here. So what a job takes is there before the program is started.
    fn start(
        self,
        alloc: Global,
        program: &Program,
        environment: &Environment,
    ) -> Result<Self::Job, NotStarted>
    where
        Self: Sized,
        requires may { IsTrue (may self program.now environment.now) }
        ensures refused { IfErr result (refuses self program.now environment.now) }
        ensures program { IfOk result (λ job. Self.Job.program job ≡ program.now) }
        ensures environment { IfOk result (λ job. Self.Job.environment job ≡ environment.now) };
}
