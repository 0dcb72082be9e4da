//! A folder of rules.
ghost use Rattle.std.specs.Prelude.{◌≡◌, ◌≢◌, ◌≤◌, List, ℕ, IsTrue};
ghost use Rattle.dir_calls.specs.Clearing.{SparesOthers};
ghost use Rattle.dir_calls.specs.Replacing.{KeepsWhatLasts};
ghost use Rattle.rules_install.specs.Steps.{HasFailed};
ghost use Rattle.rules_tools.specs.Scratch.{IsTakenAway};

use dir_calls::{ClearableDir, DirFault, Name};
use std::alloc::Global;

/// A folder of rules, and what an installation left there.
#[derive(Drop)]
pub struct RulesFolder<D> {
    /// Its directory.
    pub dir: D,
    /// Why the last scratch file that was to be taken away may stand still: `Device` or `OutOfMemory`; or `None` if it
    /// is gone, or none was to be taken away.
    pub left: Option<DirFault>,
}

impl<D: Drop> RulesFolder<D> {
    ghost use Rattle.rules_tools.specs.FolderParts.{folder_dir};

    /// A folder in which nothing was done.
    pub fn new(dir: D) -> Self
        ensures { folder_dir result ≡ dir }
    {
        RulesFolder { dir, left: None }
    }
}

impl<D: ClearableDir> RulesFolder<D> {
    ghost use Rattle.rules_tools.specs.FolderParts.{folder_dir, folder_left};

    /// Takes what stands under the scratch name away, as well as that can be done: a fault of that is noted (`left`).
    /// Each other name stands for the file that it stood for, and what lasts there stands there whenever the machine
    /// stops meanwhile.
    pub fn remove_scratch(&mut self, alloc: Global, scratch: &Name)
        ensures others { IsTrue D.honest → SparesOthers
            scratch.now (D.state (folder_dir self.old)) (D.state (folder_dir self.new)) }
        ensures stays { IsTrue D.honest → (name : List ℕ) → scratch.now ≢ name
            → KeepsWhatLasts D.Dir name (folder_dir self.old) (folder_dir self.new) }
        ensures gone { IsTrue D.honest → IsTakenAway scratch.now (D.state (folder_dir self.new))
            (HasFailed (D.failed (folder_dir self.old)) (D.failed (folder_dir self.new))) (folder_left self.new) }
        ensures count { D.failed (folder_dir self.old) ≤ D.failed (folder_dir self.new) }
    {
        self.left = self.dir.take_away(alloc, scratch).err();
    }
}
