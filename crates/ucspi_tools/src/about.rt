//! What the program tells of itself.
ghost use Rattle.std.specs.Prelude.{OnOk};
ghost use Rattle.std.specs.Io.KnownBytes.{Appends};
ghost use Rattle.ucspi_tools.specs.Causes.{help_text};
ghost use Rattle.ucspi_tools.specs.Choices.{usage_text, words_text};

use crate::tool::Tool;
use std::io;
use std::io::Write;

/// The version of the program: that of the file `VERSION` at the top of the repository.
const VERSION: &str = "0.90.0";

/// All tools, in the order in which they are told.
const TOOLS: [Tool; 8] = [
    Tool::Tcpserver,
    Tool::Tcprules,
    Tool::Tcprulescheck,
    Tool::Addcr,
    Tool::Delcr,
    Tool::Fixcrio,
    Tool::Recordio,
    Tool::Rulesim,
];

/// Writes the name of the program and its version, as one line.
///
/// # Errors
/// Those of the writer: some of the line may be written.
pub fn tell_version<W: Write>(writer: &mut W) -> io::Result<()> {
    writeln!(writer, "ucspi {VERSION}")
}

/// Writes a line for each tool: the words that it takes, and what it is for.
///
/// # Errors
/// Those of the writer: some of the lines may be written.
pub fn tell_tools<W: Write>(writer: &mut W) -> io::Result<()> {
    for tool in TOOLS {
        writeln!(writer, "ucspi {}: {}", tool.usage(), tool.purpose())?;
    }
    writer.flush()
}

/// Writes the usage of a tool, and what its words are, a line each.
///
/// # Errors
/// Those of the writer: some of the lines may be written.
pub fn tell_words<W: Write>(writer: &mut W, tool: Tool) -> io::Result<()>
    ensures { OnOk result (Appends (W.contents writer.old) (W.contents writer.new)
        (help_text (usage_text tool) (words_text tool))) }
{
    writer.write_all(b"usage: ")?;
    writer.write_all(tool.usage().as_bytes())?;
    writer.write_all(b"\n")?;
    writer.write_all(tool.words().as_bytes())?;
    writer.flush()
}
