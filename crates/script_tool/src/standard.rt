//! `rulesim` over the standard streams.
ghost use Rattle.std.specs.Prelude.{◌≡◌, ◌⊎◌, None, Err, IfSome};
ghost use Rattle.script_tool.specs.Sim.{Prints, sim};

use crate::sim::run_rulesim;
use byte_streams::Patient;
use script_words::SimFault;
use std::alloc::Global;
use std::io;
use std::io::{BufReader, BufWriter, Read, Write};
use std::time::Clock;

/// The size of a buffer over a standard stream, in bytes.
const BUFFER: usize = 64 * 1024;

const _: () = prove!(BUFFER == 65_536);

/// Runs the script on standard input, and writes what it prints on standard output. A stream that was left non-blocking
/// is waited for.
///
/// # Errors
/// Those of `run_buffered`.
pub fn run_script<R: Input + Print + AllocGlobal + Clock>(rt: &R) -> Result<(), SimFault> {
    let input = Patient::new(rt, rt.reader());
    let output = Patient::new(rt, io::writer(rt));
    run_buffered(rt.alloc(), input, output).0
}

/// Runs the script that a reader gives, over buffers.
///
/// It gives the writer back once all that was printed has arrived there: no buffer keeps any of it.
///
/// # Errors
/// Those of `run_rulesim`; `OutOfMemory` also if there is none for the buffers. The writer is lost if it failed, or if
/// there was no memory for a buffer.
pub fn run_buffered<R: Read + Drop, W: Write + Drop>(
    alloc: Global,
    input: R,
    output: W,
) -> (Result<(), SimFault>, Option<W>)
    ensures arrived { IfSome result.1 (λ writer. IfSome (R.remaining input) (λ script.
        Prints (W.contents output) (W.contents writer) (sim script) result.0)) }
    ensures lost { result.1 ≡ None → (result.0 ≡ Err SimFault.WriteFault) ⊎ (result.0 ≡ Err SimFault.OutOfMemory) }
{
    let Ok(mut reader) = BufReader::with_capacity(alloc, BUFFER, input) else {
        return (Err(SimFault::OutOfMemory), None);
    };
    let Ok(mut writer) = BufWriter::with_capacity(alloc, BUFFER, output) else {
        return (Err(SimFault::OutOfMemory), None);
    };
    let end = run_rulesim(alloc, &mut reader, &mut writer);
    match writer.into_inner() {
        Ok(output) => (end, Some(output)),
        Err(_) => (Err(SimFault::WriteFault), None),
    }
}
