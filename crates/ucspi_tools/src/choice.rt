//! Which tool the words of a command line ask for.
ghost use Rattle.std.specs.Prelude.{◌≡◌, drop};
ghost use Rattle.std.specs.List.{list_all};
ghost use Rattle.std.specs.Str.{is_utf8};
ghost use Rattle.stream_tools.specs.Programs.{texts_of};
ghost use Rattle.ucspi_tools.specs.Choices.{CallsFor, Wanted, IsLastPart, alone, choice_by_word, detail_by, is_verbose, operands, plain_detail, reviews, run_by_name, run_of, strictness, tcprules_by, tcprules_at, tcprulescheck_at, tcpserver_by, tool_in, wanted, passes_by};

use crate::tool::Tool;
use fault_hints::{Detail, Voice};
use memchr::memrchr;
use server_words::Level;

/// What words ask for. Paths are text, and so are words; a detail says what is told behind the line of a fault.
#[derive(Clone, Copy)]
pub enum ToolChoice<'a> {
    /// A run of `tcpserver` in a voice, with its words.
    Tcpserver(Voice, &'a [Vec<u8>]),
    /// A run of `rulesim`.
    Rulesim,
    /// There are no words, and no name of a tool: at a terminal a line for each tool, and else a run of `rulesim`.
    Unasked,
    /// A run of `tcprules` with the paths of the rules file and of the scratch file.
    Tcprules(Detail, &'a str, &'a str),
    /// A run of `tcprules` over a text alone, and whether a warning makes it fail.
    Review(Detail, bool),
    /// A run of `tcprulescheck` with the path of the rules file.
    Tcprulescheck(Detail, &'a str),
    /// A run of `addcr`.
    Addcr,
    /// A run of `delcr`.
    Delcr,
    /// A run of `recordio`, where it is recorded, or of `fixcrio`, with a program's path and its arguments.
    Passing(bool, Detail, &'a [Vec<u8>]),
    /// The version of the program.
    Version,
    /// A line for each tool.
    Help,
    /// The words of a tool, a line each.
    HelpOf(Tool),
    /// The usage line of a tool.
    UsageOf(Detail, Tool),
    /// The usage line of `ucspi`.
    Usage,
}

impl ToolChoice<'_> {
    /// The tool that is asked for, if it is one.
    pub fn tool(&self) -> Option<Tool>
        ensures { result ≡ tool_in (wanted self.now) }
    {
        match self {
            ToolChoice::Tcpserver(..) => Some(Tool::Tcpserver),
            ToolChoice::Rulesim | ToolChoice::Unasked => Some(Tool::Rulesim),
            ToolChoice::Tcprules(..) | ToolChoice::Review(..) => Some(Tool::Tcprules),
            ToolChoice::Tcprulescheck(..) => Some(Tool::Tcprulescheck),
            ToolChoice::Addcr => Some(Tool::Addcr),
            ToolChoice::Delcr => Some(Tool::Delcr),
            ToolChoice::Passing(recorded, ..) => Some(Tool::passing(*recorded)),
            ToolChoice::HelpOf(tool) | ToolChoice::UsageOf(_, tool) => Some(*tool),
            ToolChoice::Version | ToolChoice::Help | ToolChoice::Usage => None,
        }
    }
}

/// What a command line asks for: the path by which the program was called, and the words after it. Where the last part
/// of that path is a tool's name, that is the tool, which speaks to a person, and all words are its own; else the first
/// word names the tool.
pub fn choose<'a>(path: &[u8], words: &'a [Vec<u8>]) -> ToolChoice<'a>
    ensures { CallsFor path.now (texts_of words.now) (wanted result) }
{
    match Tool::named(last_part(path)) {
        Some(tool) => choose_by_name(tool, words),
        None => choose_by_word(words),
    }
}

/// What stands after the last slash of a path: all of it where there is none.
fn last_part(path: &[u8]) -> &[u8]
    ensures { IsLastPart path.now result.now }
{
    match memrchr(b'/', path) {
        Some(slash) => &path[slash + 1..],
        None => path,
    }
}

/// What the words of a tool ask for that was called by its own name.
fn choose_by_name(tool: Tool, words: &[Vec<u8>]) -> ToolChoice<'_>
    ensures { wanted result ≡ run_by_name tool (texts_of words.now) }
{
    match words {
        [word] if word.as_slice() == VERSION.as_bytes() => ToolChoice::Version,
        [word] if word.as_slice() == HELP.as_bytes() => ToolChoice::HelpOf(tool),
        _ => choose_tool(tool, words, Voice::Helpful),
    }
}

/// What words ask for of which the first names the tool. One that names none may ask for the version or for help, where
/// it stands alone.
fn choose_by_word(words: &[Vec<u8>]) -> ToolChoice<'_>
    ensures { wanted result ≡ choice_by_word (texts_of words.now) }
{
    let Some((tool, words)) = words.split_first() else {
        return ToolChoice::Unasked;
    };
    match Tool::named(tool) {
        Some(tool) => choose_tool(tool, words, Voice::Plain),
        None if !words.is_empty() => ToolChoice::Usage,
        None if tool.as_slice() == VERSION.as_bytes() => ToolChoice::Version,
        None if tool.as_slice() == HELP.as_bytes() => ToolChoice::Help,
        None => ToolChoice::Usage,
    }
}

/// The words that ask for the version and for help, where they stand alone.
const VERSION: &str = "--version";

const HELP: &str = "--help";

/// What the words of a tool ask for, which speaks in this voice.
fn choose_tool(tool: Tool, words: &[Vec<u8>], voice: Voice) -> ToolChoice<'_>
    ensures { wanted result ≡ run_of voice tool (texts_of words.now) }
{
    match tool {
        Tool::Tcpserver => choose_texts(words, voice),
        Tool::Rulesim => choose_alone(ToolChoice::Rulesim, voice, tool, words),
        Tool::Addcr => choose_alone(ToolChoice::Addcr, voice, tool, words),
        Tool::Delcr => choose_alone(ToolChoice::Delcr, voice, tool, words),
        Tool::Tcprules => choose_tcprules(voice, words),
        Tool::Tcprulescheck => {
            let (verbose, paths) = split_verbose(words);
            choose_check(voice, verbose, paths)
        }
        Tool::Fixcrio => choose_program(voice, false, words),
        Tool::Recordio => choose_program(voice, true, words),
    }
}

/// What is told behind the line of a fault, where the words may ask for causes.
fn detail_by(voice: Voice, verbose: bool) -> Detail
    ensures { result ≡ detail_by voice verbose }
{
    if verbose {
        voice.detail(Level::All)
    } else {
        voice.detail(Level::Errors)
    }
}

/// The usage line of a tool.
fn usage_of<'a>(voice: Voice, tool: Tool) -> ToolChoice<'a>
    ensures { wanted result ≡ Wanted.usage_of (plain_detail voice) tool }
{
    ToolChoice::UsageOf(detail_by(voice, false), tool)
}

/// The run of a tool that has no words of its own.
fn choose_alone<'a>(
    run: ToolChoice<'a>,
    voice: Voice,
    tool: Tool,
    words: &[Vec<u8>],
) -> ToolChoice<'a>
    ensures { wanted result ≡ alone voice (wanted run.entry) tool (texts_of words.now) }
{
    if words.is_empty() {
        run
    } else {
        usage_of(voice, tool)
    }
}

/// The run of `tcpserver`, whose words have to be text.
fn choose_texts(words: &[Vec<u8>], voice: Voice) -> ToolChoice<'_>
    ensures { wanted result ≡ tcpserver_by voice (texts_of words.now) }
{
    if are_texts(words) {
        ToolChoice::Tcpserver(voice, words)
    } else {
        ToolChoice::UsageOf(Detail::Line, Tool::Tcpserver)
    }
}

/// The run of a tool whose words are a program's.
fn choose_program(voice: Voice, recorded: bool, words: &[Vec<u8>]) -> ToolChoice<'_>
    ensures { wanted result ≡ passes_by voice recorded (texts_of words.now) }
{
    if !words.is_empty() && are_texts(words) {
        ToolChoice::Passing(recorded, detail_by(voice, false), words)
    } else {
        usage_of(voice, Tool::passing(recorded))
    }
}

/// Whether all words are UTF-8.
fn are_texts(words: &[Vec<u8>]) -> bool
    ensures { result ≡ list_all is_utf8 (texts_of words.now) }
{
    for word in words {
        if !is_text(word) {
            return false;
        }
    }
    true
}

/// Whether a word is UTF-8.
fn is_text(word: &[u8]) -> bool
    ensures { result ≡ is_utf8 word.now }
{
    match str::from_utf8(word) {
        Ok(_) => true,
        Err(_) => false,
    }
}

/// The run of `tcprules`.
fn choose_tcprules(voice: Voice, words: &[Vec<u8>]) -> ToolChoice<'_>
    ensures { wanted result ≡ tcprules_by voice (texts_of words.now) }
{
    match strictness(words) {
        Some(strict) => choose_review(voice, strict, words),
        None => {
            let (verbose, paths) = split_verbose(words);
            choose_installation(voice, verbose, paths)
        }
    }
}

/// The word that asks for the warnings of a text alone, where it stands first.
const REVIEW: &str = "-n";

/// The same, so that a warning makes the run fail.
const STRICT_REVIEW: &str = "-N";

/// Whether a first word asks for the warnings of a text alone, and then whether one makes the run fail.
fn strictness(words: &[Vec<u8>]) -> Option<bool>
    ensures { result ≡ strictness (texts_of words.now) }
{
    match words.first() {
        Some(word) if word.as_slice() == REVIEW.as_bytes() => Some(false),
        Some(word) if word.as_slice() == STRICT_REVIEW.as_bytes() => Some(true),
        _ => None,
    }
}

/// The run over a text alone, for which the first of the words asks.
fn choose_review(voice: Voice, strict: bool, words: &[Vec<u8>]) -> ToolChoice<'_>
    ensures { wanted result
        ≡ alone voice (reviews (plain_detail voice) strict) Tool.Tcprules (drop 1 (texts_of words.now)) }
{
    if words.len() > 1 {
        usage_of(voice, Tool::Tcprules)
    } else {
        ToolChoice::Review(detail_by(voice, false), strict)
    }
}

/// The word that asks for causes, where it stands first.
const VERBOSE: &str = "-v";

/// Whether a first word asks for causes, and the words but for that one.
fn split_verbose(words: &[Vec<u8>]) -> (bool, &[Vec<u8>])
    ensures verbose { result.0 ≡ is_verbose (texts_of words.now) }
    ensures operands { texts_of result.1.now ≡ operands (texts_of words.now) }
{
    match words.split_first() {
        Some((word, rest)) if word.as_slice() == VERBOSE.as_bytes() => (true, rest),
        _ => (false, words),
    }
}

/// The run of `tcprules` for these paths.
fn choose_installation(voice: Voice, verbose: bool, paths: &[Vec<u8>]) -> ToolChoice<'_>
    ensures { wanted result ≡ tcprules_at voice verbose (texts_of paths.now) }
{
    let detail = detail_by(voice, verbose);
    match paths {
        [cdb, tmp] => match (str::from_utf8(cdb), str::from_utf8(tmp)) {
            (Ok(cdb), Ok(tmp)) => ToolChoice::Tcprules(detail, cdb, tmp),
            _ => usage_of(voice, Tool::Tcprules),
        },
        _ => usage_of(voice, Tool::Tcprules),
    }
}

/// The run of `tcprulescheck` for this path.
fn choose_check(voice: Voice, verbose: bool, paths: &[Vec<u8>]) -> ToolChoice<'_>
    ensures { wanted result ≡ tcprulescheck_at voice verbose (texts_of paths.now) }
{
    let detail = detail_by(voice, verbose);
    match paths {
        [cdb] => match str::from_utf8(cdb) {
            Ok(cdb) => ToolChoice::Tcprulescheck(detail, cdb),
            Err(_) => usage_of(voice, Tool::Tcprulescheck),
        },
        _ => usage_of(voice, Tool::Tcprulescheck),
    }
}
