//! The tool: its words, what it opens, and the server.
ghost use Rattle.std.specs.Prelude.{◌≡◌, ◌⊎◌, false, map, IfOk, IfErr};
ghost use Rattle.fault_hints.specs.Voices.{mode_by_name};
ghost use Rattle.server_parts.specs.Asked.{FailsNames, IsAskedPlan};
ghost use Rattle.server_parts.specs.declared.fault.ServerFault.TheVariants.{CannotListen, OutOfMemory, WriteFault};
ghost use Rattle.ucspi.specs.Asked.{AcceptsAsAsked, AreAsked, AreLimits, IsAskedLog};
ghost use Rattle.ucspi.specs.Rules.{AreRulesOf, rules_missing};
ghost use Rattle.ucspi.specs.Words.{AnswersWords};
ghost use Rattle.server_words.specs.Operands.{texts};
ghost use Rattle.server_words.specs.Plans.{plan_of as plan_by_words};
ghost use Rattle.server_yard.specs.Yards.{yard_books, yard_server};
ghost use Rattle.stream_tools.specs.Programs.{text_in, texts_of};
ghost use Rattle.tcp_streams.specs.Asked.{IsAskedPassing, passing_of};

use crate::ends::Finished;
use crate::rules::SystemRules;
use crate::serving::{ServerParts, serve};
use crate::system::{OnSystem, System, SystemOf};
use byte_streams::Patient;
use child_jobs::Plan;
use fault_hints::{Voice, append_help};
use server_events::Journal;
use server_log::Log;
use server_parts::causes::tell_failure;
use server_parts::limits::supply_for;
use server_parts::named_rules::has_named_rule;
use server_parts::opening::{hold_standard, names_of, plan_of, print_port};
use server_parts::signals::forgets_programs;
use server_parts::{ServerFailure, ServerFault, TcpserverFault};
use server_words::{ConnectionLimits, Level, ServerWords, read_server_words};
use server_yard::{Places, Yard};
use std::alloc::{AllocError, Global};
use std::fs::{File, Files};
use std::io::Write;
use std::marker::Brand;
use std::net::{Net, OpenListener, SocketAddr, TcpStream};
use std::rt::Env;
use std::sync::Wait;
use std::sync::ledger::Blank;
use std::thread::Threads;
use std::time::Clock;
use stream_tools::SearchPath;
use stream_tools::started::{SystemGiven, texts_of};
use tcp_connections::Reserve;
use tcp_service::LoggedYard;
use tcp_streams::{Passing, ProgramStarter, SocketAcceptor};

/// Runs `tcpserver` with these words, over the system's sockets, files and programs; `errors` takes the lines of its
/// log, and what is recorded. Without `-s` and `-S` connections are handed over or pumped as `voice` says. It returns
/// once as many connections were served as it was to serve, and all of them are over.
///
/// # Errors
/// Words with a fault run nothing, and their first fault is told. Words without one are blamed for nothing but want of
/// memory. Then come the faults of the server, in the order of `ServerFault`. What the voice tells behind the line of a
/// fault is left in `causes`, where there is memory for it.
pub fn run_tcpserver<R, E>(
    rt: &R,
    errors: E,
    words: &[Vec<u8>],
    voice: Voice,
    causes: &mut Vec<u8>,
) -> Result<Finished, TcpserverFault>
where
    R: Env + Print + AllocGlobal + Files<File = File> + Threads + Wait + Clock + Sync,
    R: Net<Stream = TcpStream>,
    R::Dir: Send + Sync,
    R::Listener: Send,
    E: Write + Copy + Send + Sync + Drop,
    ensures answers { AnswersWords (plan_by_words (mode_by_name voice) (map text_in (texts_of words.now))) result }
{
    let alloc = rt.alloc();
    let _held = hold_standard(rt);
    let texts = texts_of(alloc, words)?;
    let lines = Patient::new(rt, errors);
    run_words::<SystemOf<'_, R, E>>(rt, (lines, errors), texts.as_slice(), voice, causes)
}

// Runs the tool with these words. Here and below, most of what a function owns it lends to the calls that follow: they
// have the many ways out.
fn run_words<P: System + Send + Sync>(
    rt: &P::Runtime,
    streams: (P::Lines, P::Errors),
    words: &[String],
    voice: Voice,
    causes: &mut Vec<u8>,
) -> Result<Finished, TcpserverFault>
    ensures answers { AnswersWords (plan_by_words (mode_by_name voice) (texts words.now)) result }
{
    match read_server_words(rt.alloc(), words, voice.mode()) {
        Ok(words) => {
            let ended = match run_server::<P>(rt, streams, &words, voice) {
                Ok(finished) => Ok(finished),
                Err(failure) => {
                    tell_failure(rt.alloc(), voice, &words, failure, causes);
                    Err(TcpserverFault::Server(failure.fault))
                }
            };
            drop(words);
            ended
        }
        Err(fault) => {
            drop(streams);
            let _ = append_help(causes, rt.alloc(), voice, words, fault);
            Err(TcpserverFault::Words(fault))
        }
    }
}

// Runs the tool as its words ask for.
fn run_server<P: System + Send + Sync>(
    rt: &P::Runtime,
    (lines, errors): (P::Lines, P::Errors),
    words: &ServerWords<'_>,
    voice: Voice,
) -> Result<Finished, ServerFailure> {
    if forgets_programs(rt) {
        drop(lines);
        return Err(ServerFailure::from(ServerFault::CannotWait));
    }
    match parts_of(rt, words) {
        Ok(server) => {
            let log = log_of(rt.alloc(), lines, words, voice);
            let ended = open_and_run::<P>(rt, errors, log, &server, words);
            drop(server);
            ended
        }
        Err(failure) => {
            drop(lines);
            Err(failure)
        }
    }
}

// What a server has by its words, but for its socket, its yard and its log.
fn parts_of<'a, R: Env + AllocGlobal + Files>(
    rt: &R,
    words: &'a ServerWords<'_>,
) -> Result<ServerParts<'a>, ServerFailure>
    ensures asked { IfOk result (AreAsked words.now) }
    ensures refused { IfErr result (λ failure. FailsNames words.now.hosts failure.fault) }
{
    let names = names_of(rt.alloc(), rt, words)?;
    let Ok((plan, search)) = program_by(rt, words) else {
        drop(names);
        return Err(ServerFailure::from(ServerFault::OutOfMemory));
    };
    let (mode, limits) = (words.mode(), words.limits());
    Ok(ServerParts {
        supply: supply_for(mode, limits.connections, plan.inherited().len()),
        plan,
        search,
        names,
        limits,
        reserve: Reserve::new(),
        passing: passing_by(words),
    })
}

// The plan of a server's connections, and where their program is looked for.
fn program_by<R: Env + AllocGlobal>(
    rt: &R,
    words: &ServerWords<'_>,
) -> Result<(Plan, SearchPath), AllocError>
    ensures asked { IfOk result (λ found. IsAskedPlan words.now found.0) }
{
    let search = SearchPath::own(rt.alloc(), rt)?;
    match plan_of(rt.alloc(), &SystemGiven(rt), words) {
        Ok(plan) => Ok((plan, search)),
        Err(refused) => {
            drop(search);
            Err(refused)
        }
    }
}

// How the bytes of connections pass.
fn passing_by<'a>(words: &'a ServerWords<'_>) -> Passing<'a>
    ensures asked { IsAskedPassing words.now result }
{
    let wrapping = words.wrapping();
    Passing {
        mode: words.mode(),
        recording: wrapping.records(),
        input: wrapping.input(),
        output: wrapping.output(),
    }
}

// The log of a server.
fn log_of<W: Write>(alloc: Global, lines: W, words: &ServerWords<'_>, voice: Voice) -> Log<W>
    ensures asked { IsAskedLog words.now voice result }
{
    let (level, limit) = (words.level(), words.limits().connections);
    Log::new(alloc, lines, level, voice, limit)
}

// Looks for the folder of the rules, and runs the server on them.
fn open_and_run<P: System + Send + Sync>(
    rt: &P::Runtime,
    errors: P::Errors,
    log: Log<P::Lines>,
    server: &ServerParts<'_>,
    words: &ServerWords<'_>,
) -> Result<Finished, ServerFailure>
    requires asked { AreAsked words.now server.now }
{
    match SystemRules::by_words(rt.alloc(), rt, words) {
        Ok(rules) => {
            let ended = listen_and_run::<P>(rt, errors, log, server, &rules, words);
            drop(rules);
            ended
        }
        Err(failure) => {
            drop(log);
            Err(failure)
        }
    }
}

// Opens the socket, and runs the server on it.
fn listen_and_run<'a, P: System + Send + Sync>(
    rt: &'a P::Runtime,
    errors: P::Errors,
    log: Log<P::Lines>,
    server: &'a ServerParts<'_>,
    rules: &'a SystemRules<'a, P::Runtime>,
    words: &'a ServerWords<'_>,
) -> Result<Finished, ServerFailure>
    requires asked { AreAsked words.now server.now }
    requires rules { AreRulesOf words.now rules.now }
{
    let mut log = log;
    let (search, reserve) = (&server.search, &server.reserve);
    let starter = ProgramStarter::new(rt, search, reserve, server.passing, errors);
    match open_socket::<P>(rt, &mut log, words, &starter) {
        Ok(acceptor) => {
            let places = Blank::new(server.limits.connections);
            run_in_yard::<Brand, P>(rt, server, acceptor, log, rules, words, places)
        }
        Err(failure) => {
            drop(log);
            Err(failure)
        }
    }
}

// What accepts the connections of a system.
type AcceptorOn<'a, P> = SocketAcceptor<
    'a,
    <P as System>::Runtime,
    <P as System>::Listener,
    <P as System>::Errors,
>;

// The connections of a socket that listens where the words say, which a person is told. Its port is printed where the
// words ask for that.
fn open_socket<'a, P: System>(
    rt: &'a P::Runtime,
    log: &mut Log<P::Lines>,
    words: &ServerWords<'_>,
    starter: &'a ProgramStarter<'a, P::Runtime, P::Errors>,
) -> Result<AcceptorOn<'a, P>, ServerFailure>
    requires starts { IsAskedPassing words.now (passing_of starter.now) }
    ensures asked { IfOk result (AcceptsAsAsked P.listens words.now) }
    ensures refused { IfErr result (λ failure. (failure.fault ≡ CannotListen) ⊎ (failure.fault ≡ WriteFault)) }
{
    let listener = P::listen(rt, words.service().address(), words.service().port())?;
    let end = listener.local_addr();
    if words.prints_port() {
        print_port(rt, &end)?;
    }
    if let Ok(SocketAddr::V4(end)) = end {
        let _ = log.listening(end.ip().octets(), end.port());
    }
    let at_once = words.sends_at_once();
    Ok(SocketAcceptor::new(listener, at_once, starter))
}

// Tells a person where the rules are by names that clients don't have.
fn tell_names<R: Files<File = File>, W: Write>(
    rt: &R,
    alloc: Global,
    log: &mut Log<W>,
    words: &ServerWords<'_>,
) {
    let has_names = words.hosts().is_some() && words.names_remote();
    if !has_names
        && words.level() == Level::All
        && let Some(path) = words.rules()
        && has_named_rule(alloc, rt, path)
    {
        let _ = log.no_names();
    }
}

// The server over a yard of its own, which serves by what was made of the words.
fn run_in_yard<'a, L: Places + Send + Sync, P: System + Send + Sync>(
    rt: &'a P::Runtime,
    server: &'a ServerParts<'_>,
    acceptor: AcceptorOn<'a, P>,
    log: Log<P::Lines>,
    rules: &'a SystemRules<'a, P::Runtime>,
    words: &'a ServerWords<'_>,
    places: Blank,
) -> Result<Finished, ServerFailure>
    requires places { (places.name ≡ L.name) × (places.parts ≡ L.parts) }
    requires serves { L.installs ≡ false }
    requires most { L.parts ≡ server.now.limits.connections }
    requires count { L.admissions ≡ server.now.limits.count }
    requires missing { L.missing ≡ rules_missing rules.now }
    requires asked { AreAsked words.now server.now }
    requires rules { AreRulesOf words.now rules.now }
    requires accepts { AcceptsAsAsked P.listens words.now acceptor }
{
    let alloc = rt.alloc();
    let mut log = log;
    tell_names(rt, alloc, &mut log, words);
    let yard = yard_of::<L>(alloc, server.limits, places)?;
    let logged = LoggedYard { yard, log };
    let missing = rules.missing;
    serve::<OnSystem<'a, P, L>, AcceptorOn<'a, P>>(
        rt, alloc, acceptor, logged, rules, missing, server,
    )
}

// A yard of a server, with these limits.
fn yard_of<L: Places>(
    alloc: Global,
    limits: ConnectionLimits,
    places: Blank,
) -> Result<Yard<L>, ServerFault>
    requires places { (places.name ≡ L.name) × (places.parts ≡ L.parts) }
    requires most { L.parts ≡ limits.connections }
    ensures limits { IfOk result (λ yard.
        AreLimits limits (yard_server yard).limit (yard_server yard).per_address) }
    ensures new { IfOk result (λ yard. (yard_books yard).count ≡ 0) }
    ensures refused { IfErr result (λ fault. fault ≡ OutOfMemory) }
{
    let journal = Journal::counting();
    match Yard::<L>::new(
        alloc,
        places,
        limits.connections,
        limits.per_address,
        journal,
    ) {
        Ok(yard) => Ok(yard),
        Err(_) => Err(ServerFault::OutOfMemory),
    }
}
