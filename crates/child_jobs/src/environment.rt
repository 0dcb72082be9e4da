//! The variables of a program.
ghost use Rattle.std.specs.Prelude.{◌≡◌, [], length, map, slice_get, string_bytes, IfOk, OnOk, OnErr};
ghost use Rattle.std.specs.Arc.{arc_value};
ghost use Rattle.rule_lookup.specs.Peers.{given};
ghost use Rattle.child_jobs.specs.Variables.{AreOrdered, is_below, is_named, position_of, value_at, value_of, with_value, without_value};

use std::alloc::{AllocError, Global};
use std::marker::Model;
use std::sync::Arc;

/// A name and its value.
#[derive(Drop)]
pub struct Variable {
    name: String,
    value: String,
}

impl Model for Variable {
    ghost use Rattle.std.specs.Prelude.{string_bytes};
    ghost use Rattle.child_jobs.specs.Variables.{Variable as Pair};

    ghost Value = { Pair };

    ghost view = { λ v. (string_bytes v.name, string_bytes v.value) };
}

impl Variable {
    fn new(alloc: Global, name: &str, value: &str) -> Result<Variable, AllocError>
        ensures { IfOk result (λ variable. variable ≡ (name.now, value.now)) }
    {
        Ok(Variable {
            name: String::from_str(alloc, name)?,
            value: String::from_str(alloc, value)?,
        })
    }

    /// Its name.
    pub fn name(&self) -> &str
        ensures { result.now ≡ self.now.0 }
    {
        self.name.as_str()
    }

    /// Its value.
    pub fn value(&self) -> &str
        ensures { result.now ≡ self.now.1 }
    {
        self.value.as_str()
    }

    fn is_below(&self, name: &str) -> bool
        ensures { result ≡ is_below name.now self.now }
    {
        self.name.as_str() < name
    }
}

/// The variables of a program: a value for each of some names.
///
/// Copies of an environment share the texts of its variables.
#[derive(Drop)]
pub struct Environment {
    // in the order of the names' bytes
    variables: Vec<Arc<Variable, Global>>,
}

impl Model for Environment {
    ghost use Rattle.child_jobs.specs.Variables.{Variables, AreOrdered, variables_in};

    ghost Value = { Variables };

    ghost view = { λ e. variables_in e.variables.items };

    ghost invariant = { λ e. AreOrdered (variables_in e.variables.items) };
}

impl Environment {
    /// An environment without variables.
    pub fn new(alloc: Global) -> Environment
        ensures { result ≡ [] }
    {
        Environment {
            variables: Vec::new(alloc),
        }
    }

    /// Gives a name a value, in place of the one before.
    ///
    /// # Errors
    /// There was no memory, and the variables are as before.
    pub fn put(&mut self, alloc: Global, name: &str, value: &str) -> Result<(), AllocError>
        ensures put { OnOk result (self.new ≡ with_value self.old name.now value.now) }
        ensures unchanged { OnErr result (self.new ≡ self.old) }
    {
        let variable = Arc::new(alloc, Variable::new(alloc, name, value)?)?;
        let position = self.position_of(name);
        if self.is_named(position, name) {
            self.variables[position] = variable;
        } else {
            self.variables.insert(position, variable)?;
        }
        Ok(())
    }

    /// Takes a name away, if it has a value.
    pub(crate) fn remove(&mut self, name: &str)
        ensures { self.new ≡ without_value self.old name.now }
    {
        let position = self.position_of(name);
        if self.is_named(position, name) {
            drop(self.variables.remove(position));
        }
    }

    /// The value of a name, if it has one.
    pub fn get(&self, name: &str) -> Option<&str>
        ensures { given result ≡ value_of self.now name.now }
    {
        self.value_at(self.position_of(name), name)
    }

    /// How many variables there are.
    pub fn len(&self) -> usize
        ensures { result ≡ length self.now }
    {
        self.variables.len()
    }

    /// The names and values, in the order of the names' bytes.
    pub fn as_slice(&self) -> &[Arc<Variable, Global>]
        ensures { map arc_value result.now ≡ self.now }
    {
        self.variables.as_slice()
    }

    /// A copy of the variables.
    pub fn copy(&self) -> Result<Environment, AllocError>
        ensures { IfOk result (λ copy. copy ≡ self.now) }
    {
        Ok(Environment {
            variables: self.variables.clone()?,
        })
    }

    // How many names are below this one.
    fn position_of(&self, name: &str) -> usize
        ensures position { result ≡ position_of self.now name.now }
        ensures ordered { AreOrdered self.now }
    {
        self.variables
            .partition_point(|variable| variable.is_below(name))
    }

    // Whether the variable at a position has this name.
    fn is_named(&self, position: usize, name: &str) -> bool
        ensures { result ≡ is_named name.now (slice_get self.now position) }
    {
        match self.variables.get(position) {
            Some(variable) => variable.name() == name,
            None => false,
        }
    }
    // The value of the variable at a position, if it has this name.
    fn value_at(&self, position: usize, name: &str) -> Option<&str>
        ensures { given result ≡ value_at name.now (slice_get self.now position) }
    {
        match self.variables.get(position) {
            Some(variable) => {
                if variable.name() == name {
                    Some(variable.value())
                } else {
                    None
                }
            }
            None => None,
        }
    }
}
