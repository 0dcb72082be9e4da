//! How the tool ends, by how its server did.
ghost use Rattle.std.specs.Prelude.{◌≡◌, Ok, Err, IfErr, OnOk, false};
ghost use Rattle.server_yard.specs.Yards.{HasRun, yard_books, yard_server};
ghost use Rattle.tcp_connections.specs.Ends.{asked_count};
ghost use Rattle.ucspi.specs.Ends.{told_of};

use server_parts::{ServerFailure, ServerFault};
use server_yard::{Places, Yard};
use tcp_connections::{ServeEnd, Served};

/// A server has served as many connections as its words say. Only `end_of` makes one.
#[derive(Drop)]
pub struct Finished(());

/// How the tool ends, by how its server served and what happened in its yard, whose events are a run of a server.
///
/// # Errors
/// `LostConnection` if a connection is alive still that is not retired, though no thread has it, or if another number of
/// connections had their admission than were let in. Then `AcceptFault`, `NoPlaces` if all places are retired, and
/// `OutOfMemory`.
pub(crate) fn end_of<L: Places>(served: Served, yard: Yard<L>) -> Result<Finished, ServerFailure>
    requires serves { L.installs ≡ false }
    requires asked { asked_count served ≡ L.admissions }
    ensures finished { OnOk result (told_of served (yard_books yard) (yard_server yard) ≡ Ok tt) }
    ensures closed { IfErr result (λ failure. told_of served (yard_books yard) (yard_server yard) ≡ Err failure) }
    ensures ran { HasRun yard }
{
    yard.ran();
    let report = yard.journal().report();
    let has_lost = report.retired != yard.live() || report.admitted != served.let_in;
    let is_retired = report.retired >= yard.limit();
    drop(yard);
    let fault = match served.end {
        _ if has_lost => ServerFault::LostConnection,
        ServeEnd::Count => return Ok(Finished(())),
        ServeEnd::AcceptFaults => {
            return Err(ServerFailure {
                fault: ServerFault::AcceptFault,
                error: served.faults.last,
            });
        }
        ServeEnd::Exhausted if is_retired => ServerFault::NoPlaces,
        ServeEnd::Exhausted => ServerFault::OutOfMemory,
    };
    Err(ServerFailure::from(fault))
}
