//! The wrappers that `-w` names.
ghost use Rattle.std.specs.Prelude.{◌≡◌, Some, IfOk, IfErr, option_map};
ghost use Rattle.server_words.specs.Wrappings.{RefusesAs, acts_on_input, acts_on_output, names_in, line_wrapper_named, line_wrappers_in, texts, wrapping_by_names, wrapping_in, wrapping_of};
ghost use Rattle.server_words.specs.OptionWords.{text_of};
ghost use Rattle.server_words.specs.declared.fault.ServerWordsFault.TheVariants.{OutOfMemory};

use crate::fault::ServerWordsFault;
use std::alloc::{AllocError, Global};
use std::marker::Model;

/// The name of a line wrapper: of a wrapper that changes a text by its lines.
#[derive(Clone, Copy)]
pub enum LineWrapperName {
    /// `addcr`, which acts on output.
    AddCr,
    /// `delcr`, which acts on input.
    DelCr,
    /// `fixcrio`, which acts on both.
    FixCr,
}

impl LineWrapperName {
    /// The line wrapper with a name, if it is one.
    fn named(name: &str) -> Option<LineWrapperName>
        ensures { result ≡ line_wrapper_named name.now }
    {
        match name {
            "addcr" => Some(LineWrapperName::AddCr),
            "delcr" => Some(LineWrapperName::DelCr),
            "fixcrio" => Some(LineWrapperName::FixCr),
            _ => None,
        }
    }

    fn acts_on_input(self) -> bool
        ensures { result ≡ acts_on_input self }
    {
        match self {
            LineWrapperName::AddCr => false,
            LineWrapperName::DelCr | LineWrapperName::FixCr => true,
        }
    }

    fn acts_on_output(self) -> bool
        ensures { result ≡ acts_on_output self }
    {
        match self {
            LineWrapperName::DelCr => false,
            LineWrapperName::AddCr | LineWrapperName::FixCr => true,
        }
    }
}

/// The wrappers of each connection: the line wrappers that its input goes through and those of its output, each in the
/// order in which it does, and whether both ways are recorded at the network's side.
#[derive(Drop)]
pub struct Wrapping {
    records: bool,
    input: Vec<LineWrapperName>,
    output: Vec<LineWrapperName>,
}

impl Model for Wrapping {
    ghost use Rattle.server_words.specs.Wrappings.{Wrappers};

    ghost Value = { Wrappers };

    ghost view = { λ w. record { records = w.records; input = w.input.items; output = w.output.items } };
}

impl Wrapping {
    /// The wrappers that the value of `-w` names, the first nearest to the network; none where it is not given.
    ///
    /// # Errors
    /// `BadWrappers` where a name is none, or `recordio` is not the first; `OutOfMemory`.
    pub(crate) fn of(alloc: Global, names: Option<&str>) -> Result<Wrapping, ServerWordsFault>
        ensures read { IfOk result (λ wrapping. wrapping_in (text_of names.entry) ≡ Some wrapping) }
        ensures refused { IfErr result (RefusesAs (wrapping_in (text_of names.entry))) }
    {
        let Some(names) = names else {
            return Wrapping::new(alloc, false, &[]);
        };
        let names = split_names(alloc, names)?;
        Wrapping::named(alloc, names.as_slice())
    }

    /// The wrappers with these names.
    fn named(alloc: Global, names: &[&str]) -> Result<Wrapping, ServerWordsFault>
        ensures read { IfOk result (λ wrapping. wrapping_by_names (texts names.now) ≡ Some wrapping) }
        ensures refused { IfErr result (RefusesAs (wrapping_by_names (texts names.now))) }
    {
        let (records, names) = split_recorder(names);
        let line_wrappers = line_wrappers_of(alloc, names)?;
        Wrapping::new(alloc, records, line_wrappers.as_slice())
    }

    /// These line wrappers, in the order of their names: those of the input in this order, those of the output in the
    /// opposite one.
    fn new(
        alloc: Global,
        records: bool,
        line_wrappers: &[LineWrapperName],
    ) -> Result<Wrapping, ServerWordsFault>
        ensures made { IfOk result (λ wrapping. wrapping ≡ wrapping_of records line_wrappers.now) }
        ensures refused { IfErr result (λ fault. fault ≡ OutOfMemory) }
    {
        let input = line_wrappers
            .iter()
            .copied()
            .filter(|line_wrapper| line_wrapper.acts_on_input())
            .collect(alloc)?;
        let output = line_wrappers
            .iter()
            .rev()
            .copied()
            .filter(|line_wrapper| line_wrapper.acts_on_output())
            .collect(alloc)?;
        Ok(Wrapping {
            records,
            input,
            output,
        })
    }

    /// Whether what goes both ways is recorded at the network's side: `recordio` is the first name.
    pub fn records(&self) -> bool
        ensures { result ≡ self.now.records }
    {
        self.records
    }

    /// The line wrappers that input goes through on its way from the network to the program, the first one first.
    pub fn input(&self) -> &[LineWrapperName]
        ensures { result.now ≡ self.now.input }
    {
        self.input.as_slice()
    }

    /// The line wrappers that output goes through on its way from the program to the network, the first one first.
    pub fn output(&self) -> &[LineWrapperName]
        ensures { result.now ≡ self.now.output }
    {
        self.output.as_slice()
    }
}

/// The names in the value of `-w`, a comma between each two.
fn split_names(alloc: Global, text: &str) -> Result<Vec<&str>, AllocError>
    ensures { IfOk result (λ names. texts names.items ≡ names_in text.now) }
{
    text.split(',').collect(alloc)
}

/// Whether the first name is `recordio`, and the names without it.
fn split_recorder<'s, 'a>(names: &'s [&'a str]) -> (bool, &'s [&'a str])
    ensures { wrapping_by_names (texts names.now)
        ≡ option_map (wrapping_of result.0) (line_wrappers_in (texts result.1.now)) }
{
    let Some((first, rest)) = names.split_first() else {
        return (false, names);
    };
    if *first == "recordio" {
        (true, rest)
    } else {
        (false, names)
    }
}

/// The line wrappers with these names, in their order.
fn line_wrappers_of(alloc: Global, names: &[&str]) -> Result<Vec<LineWrapperName>, ServerWordsFault>
    ensures read { IfOk result (λ line_wrappers. line_wrappers_in (texts names.now) ≡ Some line_wrappers.items) }
    ensures refused { IfErr result (RefusesAs (line_wrappers_in (texts names.now))) }
{
    let mut line_wrappers = Vec::new(alloc);
    for name in names {
        match LineWrapperName::named(name) {
            Some(line_wrapper) => line_wrappers.push(line_wrapper)?,
            None => return Err(ServerWordsFault::BadWrappers),
        }
    }
    Ok(line_wrappers)
}
