//! The tools that the program is lent, each as one call.
ghost use Rattle.stream_tools.specs.Programs.{texts_of};
ghost use Rattle.ucspi_tools.specs.Runs.{Lent};

use crate::fault::ToolFault;
use child_jobs::Status;
use fault_hints::Voice;
use rules_tools::{CheckFailure, ReviewFault, RulesFailure};
use script_words::SimFault;
use server_parts::TcpserverFault;
use stream_tools::BetweenFailure;

/// The tools over the system's files, programs and sockets, and the line of a fault: each is one call.
pub trait Calls {
    /// What each of the calls does.
    ghost lent: { Lent Self };

    /// Whether those may be called that start threads.
    ghost ready: { Self → Type 0 };

    /// `tcpserver`, by a voice and its words. What is told behind the line of its fault is left in `causes`.
    ///
    /// # Errors
    /// The server could not be started, or it ended by itself.
    fn serve(
        &mut self,
        voice: Voice,
        words: &[Vec<u8>],
        causes: &mut Vec<u8>,
    ) -> Result<(), TcpserverFault>
        requires { ready self.old }
        ensures { lent.serves voice (texts_of words.now) self.old self.new causes.new.items result };

    /// `rulesim`.
    ///
    /// # Errors
    /// A script was not run to its end.
    fn simulate(&mut self) -> Result<(), SimFault>
        ensures { lent.simulates self.old self.new result };

    /// Whether standard input is a terminal.
    fn is_at_terminal(&self) -> bool
        ensures { lent.at_terminal self.now result };

    /// `tcprules`, by the paths of the rules file and of the scratch file. A faulty line of the text is left in
    /// `faulty`, where it was kept.
    ///
    /// # Errors
    /// Rules were not installed.
    fn install(&mut self, cdb: &str, tmp: &str, faulty: &mut Vec<u8>) -> Result<(), RulesFailure>
        ensures { lent.installs cdb.now tmp.now self.old self.new result };

    /// `tcprules` over a text alone, which answers whether there was a warning; `faulty` as for `install`.
    ///
    /// # Errors
    /// The text was not looked over to its end.
    fn review(&mut self, faulty: &mut Vec<u8>) -> Result<bool, ReviewFault>
        ensures { lent.reviews self.old self.new result };

    /// `tcprulescheck`, by the path of the rules file.
    ///
    /// # Errors
    /// No decision is told.
    fn check(&mut self, cdb: &str) -> Result<(), CheckFailure>
        ensures { lent.checks cdb.now self.old self.new result };

    /// `recordio` where it is recorded, else `fixcrio`, by the words of the program.
    ///
    /// # Errors
    /// The program could not be run between the two streams.
    fn pass(&mut self, recorded: bool, words: &[Vec<u8>]) -> Result<Status, BetweenFailure>
        requires { ready self.old }
        ensures { lent.passes recorded (texts_of words.now) self.old self.new result };

    /// Tells a fault under a name, of a tool or of the program, and behind it its causes.
    fn tell(&mut self, name: &str, fault: ToolFault, causes: &[u8])
        ensures { lent.tells name.now fault causes.now self.old self.new };
}
