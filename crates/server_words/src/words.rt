//! The words of `tcpserver`, and what they ask for.
ghost use Rattle.std.specs.Prelude.{◌≡◌, ◌==◌, Ok, IfOk, IfErr};
ghost use Rattle.server_words.specs.OptionWords.{text_of};
ghost use Rattle.server_words.specs.Words.{Refuses};
ghost use Rattle.server_words.specs.Operands.{texts};
ghost use Rattle.server_words.specs.Options.{is_last};
ghost use Rattle.server_words.specs.Plans.{RefusesPlan, missing_of, options_in, plan_behind, plan_of};

use crate::fault::ServerWordsFault;
use crate::level::Level;
use crate::mode::Mode;
use crate::operands::Operands;
use crate::option_laws::by_the_rules;
use crate::wrapping::Wrapping;
use crate::{ConnectionLimits, Options, TCPSERVER_LETTERS, WordFault, read_words};
use rule_lookup::WhenMissing;
use std::alloc::Global;
use std::marker::Model;

/// What the words of `tcpserver` ask for. Texts are parts of the words that were read.
#[derive(Drop)]
pub struct ServerWords<'a> {
    level: Level,
    prints_port: bool,
    limits: ConnectionLimits,
    rules: Option<&'a str>,
    missing: WhenMissing,
    banner: &'a str,
    hosts: Option<&'a str>,
    local: Option<&'a str>,
    names_remote: bool,
    confirms: bool,
    no_delay: bool,
    mode: Mode,
    wrapping: Wrapping,
    service: Operands<'a>,
}

impl<'a> Model for ServerWords<'a> {
    ghost use Rattle.server_words.specs.OptionWords.{text_of};
    ghost use Rattle.server_words.specs.Plans.{ServerPlan};

    ghost Value = { ServerPlan };

    ghost view = { λ w. record {
      level = w.level;
      prints_port = w.prints_port;
      limits = w.limits;
      rules = text_of w.rules;
      missing = w.missing;
      banner = w.banner.now;
      hosts = text_of w.hosts;
      local = text_of w.local;
      names_remote = w.names_remote;
      confirms = w.confirms;
      no_delay = w.no_delay;
      mode = w.mode;
      wrapping = w.wrapping;
      service = w.service;
    } };
}

/// Reads the words of `tcpserver` after its name. The checks are made in the order of the faults that
/// `ServerWordsFault` tells; the host table, the folder of the rules and the socket come after them, and are the
/// caller's. The options are those of `docs/OPTIONS.md`; without `-s` and `-S` the mode is `by_name`, that of the name
/// by which the tool was called.
///
/// # Errors
/// The first fault that the words have, or `OutOfMemory`.
pub fn read_server_words(
    alloc: Global,
    words: &[String],
    by_name: Mode,
) -> Result<ServerWords<'_>, ServerWordsFault>
    ensures read { IfOk result (λ plan. plan_of by_name (texts words.now) ≡ Ok plan) }
    ensures refused { IfErr result (RefusesPlan (plan_of by_name (texts words.now))) }
{
    let (options, rest) = read_options(alloc, words)?;
    ServerWords::of(alloc, &options, rest, by_name)
}

/// The options at the start of the words, and the words after them.
fn read_options(alloc: Global, words: &[String]) -> Result<(Options<'_>, &[String]), WordFault>
    ensures read { IfOk result (λ r. options_in (texts words.now)
        ≡ Ok (record { options = r.0; rest = texts r.1.now })) }
    ensures refused { IfErr result (Refuses (options_in (texts words.now))) }
{
    by_the_rules();
    read_words(alloc, TCPSERVER_LETTERS, words)
}

/// Whether an option is the last given of two.
fn is_last(options: &Options<'_>, letter: char, other: char) -> bool
    ensures { result ≡ is_last options.now letter other }
{
    match options.last_of(&[letter, other]) {
        Some(last) => last == letter,
        None => false,
    }
}

impl<'a> ServerWords<'a> {
    /// What these options ask for, and the words after them.
    fn of(
        alloc: Global,
        options: &Options<'a>,
        rest: &'a [String],
        by_name: Mode,
    ) -> Result<ServerWords<'a>, ServerWordsFault>
        ensures read { IfOk result (λ plan. plan_behind by_name (record { options = options.now; rest = texts rest.now })
            ≡ Ok plan) }
        ensures refused { IfErr result
            (RefusesPlan (plan_behind by_name (record { options = options.now; rest = texts rest.now }))) }
    {
        let limits = ConnectionLimits::of(options)?;
        let Some(service) = Operands::of(rest) else {
            return Err(ServerWordsFault::Usage);
        };
        let wrapping = Wrapping::of(alloc, options.value('w'))?;
        let Some(mode) = Mode::of(options, by_name) else {
            drop(wrapping);
            return Err(ServerWordsFault::BadWrappers);
        };
        Ok(ServerWords {
            level: Level::of(options),
            prints_port: options.has('1'),
            limits,
            rules: options.value('x'),
            missing: missing_of(options),
            banner: options.value('B').unwrap_or(""),
            hosts: options.value('N'),
            local: options.value('l'),
            names_remote: !is_last(options, 'H', 'h'),
            confirms: is_last(options, 'p', 'P'),
            no_delay: is_last(options, 'D', 'd'),
            mode,
            wrapping,
            service,
        })
    }

    /// Which lines of the log are printed (`-v`, `-Q`, `-q`).
    pub fn level(&self) -> Level
        ensures { result ≡ self.now.level }
    {
        self.level
    }

    /// Whether the port is printed once the server listens (`-1`).
    pub fn prints_port(&self) -> bool
        ensures { result ≡ self.now.prints_port }
    {
        self.prints_port
    }

    /// How many connections are let in: the numbers among the options.
    pub fn limits(&self) -> ConnectionLimits
        ensures { result ≡ self.now.limits }
    {
        self.limits
    }

    /// The path of the rules file (`-x`); without one every connection is allowed.
    pub fn rules(&self) -> Option<&'a str>
        ensures { text_of result ≡ self.now.rules }
    {
        self.rules
    }

    /// What it means that the rules file is missing: allow under `-X`, else drop. It means nothing where no rules file
    /// is given.
    pub fn missing(&self) -> WhenMissing
        ensures { result ≡ self.now.missing }
    {
        self.missing
    }

    /// The text that is written to a connection before the rules are looked at (`-B`), which may be empty.
    pub fn banner(&self) -> &'a [u8]
        ensures { result.now ≡ self.now.banner }
    {
        self.banner.as_bytes()
    }

    /// The path of the host table (`-N`).
    pub fn hosts(&self) -> Option<&'a str>
        ensures { text_of result ≡ self.now.hosts }
    {
        self.hosts
    }

    /// The name of the server's own end (`-l`), which may be empty. Without it that is the host table's name of the
    /// local address.
    pub fn local(&self) -> Option<&'a str>
        ensures { text_of result ≡ self.now.local }
    {
        self.local
    }

    /// Whether the name of the other end is taken from the host table (`-h`, and without either) or not (`-H`).
    pub fn names_remote(&self) -> bool
        ensures { result ≡ self.now.names_remote }
    {
        self.names_remote
    }

    /// Whether a name of the other end that the host table does not confirm is removed (`-p`) or kept (`-P`, and
    /// without either).
    pub fn confirms(&self) -> bool
        ensures { result ≡ self.now.confirms }
    {
        self.confirms
    }

    /// Whether a packet is sent at once, however small: TCP_NODELAY is set (`-D`) or not (`-d`, and without either).
    pub fn sends_at_once(&self) -> bool
        ensures { result ≡ self.now.no_delay }
    {
        self.no_delay
    }

    /// What a program's standard input and output are (`-s`, `-S`).
    pub fn mode(&self) -> Mode
        ensures { result ≡ self.now.mode }
    {
        self.mode
    }

    /// The wrappers (`-w`).
    pub fn wrapping(&self) -> &Wrapping
        ensures { result.now ≡ self.now.wrapping }
    {
        &self.wrapping
    }

    /// Where the server listens, and which program it starts.
    pub fn service(&self) -> &Operands<'a>
        ensures { result.now ≡ self.now.service }
    {
        &self.service
    }
}

/// What a missing rules file means.
fn missing_of(options: &Options<'_>) -> WhenMissing
    ensures { result ≡ missing_of options.now }
{
    if options.has('X') {
        WhenMissing::Allow
    } else {
        WhenMissing::Deny
    }
}
