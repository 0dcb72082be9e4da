//! The tools: their names, and the words that they take.
ghost use Rattle.std.specs.Prelude.{◌≡◌, bytes_eq};
ghost use Rattle.ucspi_tools.specs.Choices.{name_of, passing, purpose_text, tool_of, usage_text, words_text};

use server_words::OPTIONS;

/// The words of `tcprules`, a line each.
pub const RULES_WORDS: &str = "\
cdb  the path of the rules file\n\
tmp  the path of a file in the same folder, which is written first\n\
-v   in front of them: name the cause of a fault; by its own name the tool always does\n\
-n   alone: install nothing, and warn of lines that say less than they seem to\n\
-N   alone: the same, and exit 1 where there is a warning\n";

/// The words of `tcprulescheck`.
pub const CHECK_WORDS: &str = "\
cdb  the path of a rules file; TCPREMOTEIP, TCPREMOTEHOST and TCPREMOTEINFO say who connects\n\
-v   in front of it: name the cause of a fault; by its own name the tool always does\n";

/// The words of `fixcrio` and of `recordio`.
pub const PROGRAM_WORDS: &str = "\
prog  a program: a path, or a name that is looked for along PATH\n\
args  its arguments\n";

/// Those of `addcr` and of `delcr`, which have none.
pub const FILTER_WORDS: &str = "no words: standard input goes to standard output\n";

/// Those of `rulesim`, which has none.
pub const SCRIPT_WORDS: &str = "no words: commands come from standard input\n";

/// A tool.
#[derive(Clone, Copy)]
pub enum Tool {
    /// Serves TCP connections by a program.
    Tcpserver,
    /// Runs scripts.
    Rulesim,
    /// Installs rules.
    Tcprules,
    /// Tells which rule decides.
    Tcprulescheck,
    /// Puts a carriage return before each line feed.
    Addcr,
    /// Takes one carriage return away at the end of each line.
    Delcr,
    /// Runs a program and puts a carriage return before each line feed that has none, both ways.
    Fixcrio,
    /// Runs a program and records what goes both ways.
    Recordio,
}

impl Tool {
    /// The tool with a name, if there is one.
    pub fn named(name: &[u8]) -> Option<Tool>
        ensures { result ≡ tool_of name.now }
    {
        if Tool::Tcpserver.has_name(name) {
            Some(Tool::Tcpserver)
        } else if Tool::Rulesim.has_name(name) {
            Some(Tool::Rulesim)
        } else if Tool::Tcprules.has_name(name) {
            Some(Tool::Tcprules)
        } else if Tool::Tcprulescheck.has_name(name) {
            Some(Tool::Tcprulescheck)
        } else if Tool::Addcr.has_name(name) {
            Some(Tool::Addcr)
        } else if Tool::Delcr.has_name(name) {
            Some(Tool::Delcr)
        } else if Tool::Fixcrio.has_name(name) {
            Some(Tool::Fixcrio)
        } else if Tool::Recordio.has_name(name) {
            Some(Tool::Recordio)
        } else {
            None
        }
    }

    /// The tool that runs a program between two streams, and records it or not.
    pub fn passing(recorded: bool) -> Tool
        ensures { result ≡ passing recorded }
    {
        if recorded {
            Tool::Recordio
        } else {
            Tool::Fixcrio
        }
    }

    /// Whether this is its name.
    fn has_name(self, name: &[u8]) -> bool
        ensures { result ≡ bytes_eq name.now (name_of self) }
    {
        name == self.name().as_bytes()
    }

    /// Its name, which is the first word.
    pub fn name(self) -> &'static str
        ensures { result.now ≡ name_of self }
    {
        match self {
            Tool::Tcpserver => "tcpserver",
            Tool::Rulesim => "rulesim",
            Tool::Tcprules => "tcprules",
            Tool::Tcprulescheck => "tcprulescheck",
            Tool::Addcr => "addcr",
            Tool::Delcr => "delcr",
            Tool::Fixcrio => "fixcrio",
            Tool::Recordio => "recordio",
        }
    }

    /// What it is for, as a line of help tells it.
    pub fn purpose(self) -> &'static str
        ensures { result.now ≡ purpose_text self }
    {
        match self {
            Tool::Tcpserver => "starts a program for each connection that rules allow",
            Tool::Rulesim => "tries rules, crashes and lists of events on paper",
            Tool::Tcprules => "compiles and installs the rules of who may connect",
            Tool::Tcprulescheck => "tells which rule decides a connection",
            Tool::Addcr => "puts a carriage return before each line feed",
            Tool::Delcr => "takes carriage returns at ends of lines away",
            Tool::Fixcrio => "runs a program and puts missing carriage returns into its streams",
            Tool::Recordio => "runs a program and records what it reads and writes",
        }
    }

    /// Its name and the words that it takes, as its usage line tells them.
    pub fn usage(self) -> &'static str
        ensures { result.now ≡ usage_text self }
    {
        match self {
            Tool::Tcpserver => "tcpserver [options] host port prog [args]",
            Tool::Rulesim => "rulesim",
            Tool::Tcprules => "tcprules cdb tmp",
            Tool::Tcprulescheck => "tcprulescheck cdb",
            Tool::Addcr => "addcr",
            Tool::Delcr => "delcr",
            Tool::Fixcrio => "fixcrio prog [args]",
            Tool::Recordio => "recordio prog [args]",
        }
    }

    /// What its words are, a line each.
    pub fn words(self) -> &'static str
        ensures { result.now ≡ words_text self }
    {
        match self {
            Tool::Tcpserver => OPTIONS,
            Tool::Rulesim => SCRIPT_WORDS,
            Tool::Tcprules => RULES_WORDS,
            Tool::Tcprulescheck => CHECK_WORDS,
            Tool::Addcr | Tool::Delcr => FILTER_WORDS,
            Tool::Fixcrio | Tool::Recordio => PROGRAM_WORDS,
        }
    }
}
