//! What a server does with each connection.
ghost use Rattle.std.specs.Prelude.{◌≡◌};

use crate::Environment;
use crate::launch::Program;
use std::marker::Model;

/// What a server does with each connection that it lets in: the program, the variables that it inherits, and the banner
/// that is written first.
///
/// All connections share it. What is a connection's own, as its two ends, stands beside it.
pub struct Plan {
    program: Program,
    inherited: Environment,
    banner: Vec<u8>,
}

// Written out, the drop of all that it has is proved here alone.
impl Drop for Plan {
    fn drop(self) {
        let Plan {
            program,
            inherited,
            banner,
        } = self;
        drop(program);
        drop(inherited);
        drop(banner);
    }
}

impl Model for Plan {
    ghost use Rattle.child_jobs.specs.Plans.{PlanText};

    ghost Value = { PlanText };

    ghost view = { λ p. record {
      program = p.program;
      inherited = p.inherited;
      banner = p.banner.items;
    } };
}

impl Plan {
    /// A plan of these three. It takes no memory.
    pub fn new(program: Program, inherited: Environment, banner: Vec<u8>) -> Plan
        ensures { result ≡ record {
          program = program;
          inherited = inherited;
          banner = banner.items;
        } }
    {
        Plan {
            program,
            inherited,
            banner,
        }
    }

    /// The program that runs for each connection.
    pub fn program(&self) -> &Program
        ensures { result.now ≡ self.now.program }
    {
        &self.program
    }

    /// The variables that the program inherits.
    pub fn inherited(&self) -> &Environment
        ensures { result.now ≡ self.now.inherited }
    {
        &self.inherited
    }

    /// The banner, which is written to the connection first.
    pub fn banner(&self) -> &[u8]
        ensures { result.now ≡ self.now.banner }
    {
        self.banner.as_slice()
    }
}
