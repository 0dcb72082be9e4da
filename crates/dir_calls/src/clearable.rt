//! Directories from which a name can be taken away.
ghost use Rattle.std.specs.Prelude.{◌≡◌, ◌≢◌, ◌∷◌, [], List, ℕ, None, IsTrue, Contains, IfErr, OnOk};
ghost use Rattle.dir_calls.specs.Clearing.{SparesOthers};
ghost use Rattle.dir_calls.specs.Directory.{number_of};
ghost use Rattle.dir_calls.specs.Moments.{CountsFault};
ghost use Rattle.dir_calls.specs.Replacing.{KeepsWhatLasts};

use crate::{Dir, DirFault, Name};
use std::alloc::Global;

/// A directory from which a name can be taken away, such as that of an unfinished file.
pub trait ClearableDir: Dir {
    /// Takes a name away, if it stands. There is no scratch file then. Every other name stands for the same file as
    /// before, and synced files stay as they are. What lasts under another name stands there whenever the machine stops
    /// meanwhile.
    ///
    /// # Errors
    /// `Device`: the name may still stand. `OutOfMemory`: nothing has changed.
    fn take_away(&mut self, alloc: Global, name: &Name) -> Result<(), DirFault>
        ensures gone { IsTrue Self.honest → OnOk result (number_of (Self.state self.new) name.now ≡ None) }
        ensures others { IsTrue Self.honest → SparesOthers name.now (Self.state self.old) (Self.state self.new) }
        ensures stays { IsTrue Self.honest → (other : List ℕ) → name.now ≢ other
            → KeepsWhatLasts Self.Dir other self.old self.new }
        ensures faults { IfErr result (Contains (DirFault.Device ∷ DirFault.OutOfMemory ∷ [])) }
        ensures counted { CountsFault (Self.failed self.old) (Self.failed self.new) result };
}
