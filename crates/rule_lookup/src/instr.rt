//! Instructions: a verdict and settings.
ghost use Rattle.std.specs.Prelude.{◌≡◌, ◌++◌, ◌∷◌, ◌&&◌, [], not, nat_lt, length, IsTrue, IfOk, OnOk, OnErr, string_bytes};
ghost use Rattle.rule_lookup.specs.Lines.{has_byte};
ghost use Rattle.rule_lookup.specs.Settings.{Assignment, AreSettings, is_setting};

use std::alloc::{AllocError, Global};
use std::marker::Model;

/// What a rule says of a connection.
#[derive(Clone, Copy, PartialEq, Eq)]
pub enum Verdict {
    /// It may connect.
    Allow,
    /// It may not.
    Deny,
}

/// A name of the child's environment, and the value that a rule gives it.
#[derive(Drop)]
pub struct Setting {
    name: String,
    value: String,
}

impl Model for Setting {
    ghost use Rattle.std.specs.Prelude.{string_bytes};
    ghost use Rattle.rule_lookup.specs.Settings.{Assignment};

    ghost Value = { Assignment };

    ghost view = { λ s. record { name = string_bytes s.name; value = string_bytes s.value } };
}

impl Setting {
    /// The name: not empty, and with neither a `=` nor a zero byte.
    pub fn name(&self) -> &str
        ensures { result.now ≡ self.now.name }
    {
        self.name.as_str()
    }

    /// The value: any text without a zero byte.
    pub fn value(&self) -> &str
        ensures { result.now ≡ self.now.value }
    {
        self.value.as_str()
    }
}

/// The settings of an instruction, in order. Each name is not empty and has no `=`; names and values are UTF-8 without
/// a zero byte.
#[derive(Drop)]
pub struct Settings {
    list: Vec<Setting>,
}

impl Model for Settings {
    ghost use Rattle.std.specs.Prelude.{List};
    ghost use Rattle.rule_lookup.specs.Settings.{Assignment, AreSettings};

    ghost Value = { List Assignment };

    ghost view = { λ s. s.list.items };

    ghost invariant = { λ s. AreSettings s.list.items };
}

impl Settings {
    /// No settings.
    pub fn new(alloc: Global) -> Settings
        ensures { result ≡ [] }
    {
        Settings {
            list: Vec::new(alloc),
        }
    }

    /// Adds a setting at the end. For want of memory nothing is added.
    pub fn push(&mut self, alloc: Global, name: &str, value: &str) -> Result<(), AllocError>
        requires { IsTrue (is_setting (record { name = name.now; value = value.now })) }
        ensures ok { OnOk result (self.new ≡ self.old ++ record { name = name.now; value = value.now } ∷ []) }
        ensures err { OnErr result (self.new ≡ self.old) }
    {
        self.push_owned(
            String::from_str(alloc, name)?,
            String::from_str(alloc, value)?,
        )
    }

    /// The same of a name and a value that are given away, so that neither stands in memory twice.
    pub(crate) fn push_owned(&mut self, name: String, value: String) -> Result<(), AllocError>
        requires { IsTrue (is_setting (record { name = string_bytes name; value = string_bytes value })) }
        ensures ok { OnOk result (self.new
            ≡ self.old ++ record { name = string_bytes name; value = string_bytes value } ∷ []) }
        ensures err { OnErr result (self.new ≡ self.old) }
    {
        self.list.push(Setting { name, value })?;
        Ok(())
    }

    /// The settings in order.
    pub fn as_slice(&self) -> &[Setting]
        ensures value { result.now ≡ self.now }
        ensures settings { AreSettings self.now }
    {
        self.list.as_slice()
    }
}

/// What a rule says: a verdict, and the settings that a child of an allowed connection gets.
#[derive(Drop)]
pub struct Instr {
    /// Whether the connection may be made.
    pub verdict: Verdict,
    /// The settings, in the order of the rule.
    pub settings: Settings,
}

impl Instr {}
