//! Directories.
ghost use Rattle.std.specs.Prelude.{◌≡◌, ◌≤◌, ◌<◌, [], ◌∷◌, ℕ, Bool, IsTrue, None, IsSome, Contains, length, IfOk, IfErr, OnOk};
ghost use Rattle.std.specs.Option.{option_map};
ghost use Rattle.dir_calls.specs.Directory.{Directory, number_of, scratch_of, content};
ghost use Rattle.dir_calls.specs.Images.{IsImage};
ghost use Rattle.dir_calls.specs.Calls.{makes, appends, patches, syncs, renames, settles};
ghost use Rattle.dir_calls.specs.Methods.{DoesCall, AppendsSome, CallElapses, CallIncludes, OpenElapses, IsInside};
ghost use Rattle.dir_calls.specs.Moments.{CountsFault};

use crate::{DirFault, Name, RulesFile};
use std::alloc::Global;

/// A directory: names, and the files for which they stand. At most one file is the scratch file: it can be written
/// until it is synced. A change of names lasts only once it is settled.
///
/// After want of memory nothing has changed, and each fault says what it leaves behind.
pub trait Dir {
    /// An opened file.
    type File: RulesFile + Drop;

    /// What stands in the directory.
    ghost state: { Self → Directory };

    /// Whether its calls are known to do what they should, and stops to leave images of the directory.
    ghost honest: { Bool };

    /// The directory's moment, a number that never falls.
    ghost moment: { Self → ℕ };

    /// What a stop since this moment may have left, within a call or between two.
    ghost left_since: { Self → ℕ → Directory → Type 0 };

    /// How often its device has failed, as far as the directory counts.
    ghost failed: { Self → ℕ };

    /// Takes away what stands under a name, and makes a new empty file there, the scratch file. The scratch file before
    /// it, if there was one, stays unsynced for ever.
    fn fresh(&mut self, alloc: Global, name: &Name) -> Result<(), DirFault>
        ensures does { IsTrue honest → DoesCall state (makes name.now) self.old self.new result }
        ensures faults { IfErr result (Contains (DirFault.Device ∷ DirFault.OutOfMemory ∷ [])) }
        ensures counted { CountsFault (failed self.old) (failed self.new) result }

        ensures time { IsTrue honest → CallElapses state moment left_since (makes name.now) self.old self.new }
        ensures within { IsTrue honest → OnOk result
            (CallIncludes state moment left_since (makes name.now) self.old self.new) };

    /// Puts bytes at the end of the scratch file, and answers how many: at least one of a piece that is not empty.
    fn append(&mut self, alloc: Global, piece: &[u8]) -> Result<usize, DirFault>
        ensures taken { IfOk result (λ count. count ≤ length piece.now) }
        ensures some { IfOk result (λ count. 0 < length piece.now → 0 < count) }
        ensures does { IsTrue honest → AppendsSome state piece.now self.old self.new result }
        ensures scratch { IsTrue honest → OnOk result (IsSome (state self.old).scratch) }
        ensures no_scratch { IsTrue honest → result ≡ Err DirFault.NoScratch → (state self.old).scratch ≡ None }
        ensures no_memory { IsTrue honest → result ≡ Err DirFault.OutOfMemory → IsSome (state self.old).scratch }
        ensures faults { IfErr result (Contains (DirFault.NoScratch ∷ DirFault.Device ∷ DirFault.OutOfMemory ∷ [])) }
        ensures counted { CountsFault (failed self.old) (failed self.new) result }

        ensures time { IsTrue honest → CallElapses state moment left_since (appends piece.now) self.old self.new }
        ensures within { IsTrue honest → OnOk result
            (CallIncludes state moment left_since (appends piece.now) self.old self.new) };

    /// Overwrites bytes of the scratch file from a position on, all of them. They have to lie inside the file. After a
    /// device fault it may hold any bytes.
    fn patch(&mut self, alloc: Global, position: u64, bytes: &[u8]) -> Result<(), DirFault>
        requires inside { IsTrue honest → IsInside position bytes.now (scratch_of (state self.old)) }
        ensures does { IsTrue honest → DoesCall state (patches position bytes.now) self.old self.new result }
        ensures scratch { IsTrue honest → OnOk result (IsSome (state self.old).scratch) }
        ensures no_scratch { IsTrue honest → result ≡ Err DirFault.NoScratch → (state self.old).scratch ≡ None }
        ensures no_memory { IsTrue honest → result ≡ Err DirFault.OutOfMemory → IsSome (state self.old).scratch }
        ensures faults { IfErr result (Contains (DirFault.NoScratch ∷ DirFault.Device ∷ DirFault.OutOfMemory ∷ [])) }
        ensures counted { CountsFault (failed self.old) (failed self.new) result }

        ensures time { IsTrue honest → CallElapses state moment left_since (patches position bytes.now) self.old self.new }
        ensures within { IsTrue honest → OnOk result
            (CallIncludes state moment left_since (patches position bytes.now) self.old self.new) };

    /// Makes the scratch file lasting, and closes it.
    fn sync(&mut self, alloc: Global) -> Result<(), DirFault>
        ensures does { IsTrue honest → DoesCall state syncs self.old self.new result }
        ensures scratch { IsTrue honest → OnOk result (IsSome (state self.old).scratch) }
        ensures no_scratch { IsTrue honest → result ≡ Err DirFault.NoScratch → (state self.old).scratch ≡ None }
        ensures no_memory { IsTrue honest → result ≡ Err DirFault.OutOfMemory → IsSome (state self.old).scratch }
        ensures faults { IfErr result (Contains (DirFault.NoScratch ∷ DirFault.Device ∷ DirFault.OutOfMemory ∷ [])) }
        ensures counted { CountsFault (failed self.old) (failed self.new) result }

        ensures time { IsTrue honest → CallElapses state moment left_since syncs self.old self.new }
        ensures within { IsTrue honest → OnOk result
            (CallIncludes state moment left_since syncs self.old self.new) };

    /// Moves one name onto another. If both stand for one file nothing changes, even for a name that is moved onto
    /// itself.
    fn rename(&mut self, alloc: Global, from: &Name, to: &Name) -> Result<(), DirFault>
        ensures does { IsTrue honest → DoesCall state (renames from.now to.now) self.old self.new result }
        ensures found { IsTrue honest → OnOk result (IsSome (number_of (state self.old) from.now)) }
        ensures no_name { IsTrue honest → result ≡ Err DirFault.NoName → number_of (state self.old) from.now ≡ None }
        ensures no_memory { IsTrue honest → result ≡ Err DirFault.OutOfMemory
            → IsSome (number_of (state self.old) from.now) }
        ensures faults { IfErr result (Contains (DirFault.NoName ∷ DirFault.Device ∷ DirFault.OutOfMemory ∷ [])) }
        ensures counted { CountsFault (failed self.old) (failed self.new) result }

        ensures time { IsTrue honest → CallElapses state moment left_since (renames from.now to.now) self.old self.new }
        ensures within { IsTrue honest → OnOk result
            (CallIncludes state moment left_since (renames from.now to.now) self.old self.new) };

    /// Makes all changes of names so far lasting. If that fails the names are kept, and some of the first changes may
    /// last.
    fn settle(&mut self) -> Result<(), DirFault>
        ensures does { IsTrue honest → DoesCall state settles self.old self.new result }
        ensures faults { IfErr result (λ fault. fault ≡ DirFault.Device) }
        ensures counted { CountsFault (failed self.old) (failed self.new) result }

        ensures time { IsTrue honest → CallElapses state moment left_since settles self.old self.new }
        ensures within { IsTrue honest → OnOk result
            (CallIncludes state moment left_since settles self.old self.new) };

    /// The file that stands under a name, or `None` if there is no such name. It keeps its bytes, whatever becomes of
    /// the name. The directory stays as it is, whatever the answer is.
    fn open(&mut self, alloc: Global, name: &Name) -> Result<Option<Self::File>, DirFault>
        ensures opened { IsTrue honest → IfOk result (λ found.
            option_map Self.File.bytes found ≡ content (state self.old) name.now) }
        ensures same { IsTrue honest → state self.new ≡ state self.old }
        ensures faults { IfErr result (Contains (DirFault.Device ∷ DirFault.OutOfMemory ∷ [])) }
        ensures counted { CountsFault (failed self.old) (failed self.new) result }

        ensures time { IsTrue honest → OpenElapses state moment left_since self.old self.new };

    /// How often its device has failed. If the answer is 2^64 - 1, it may be more often.
    fn failures(&self) -> u64
        ensures { result ≡ failed self.now };

    /// A stop now is among the stops since any earlier moment.
    ghost counts_now: { (dir : Self) (earlier : ℕ) (image : Directory) → IsTrue honest → earlier ≤ moment dir
        → IsImage (state dir) image → left_since dir earlier image };

    /// It is the only stop since the present moment.
    ghost only_now: { (dir : Self) (image : Directory) → IsTrue honest
        → left_since dir (moment dir) image → IsImage (state dir) image };

    /// The files of an honest directory are honest.
    ghost honest_files: { IsTrue honest → IsTrue Self.File.honest };
}
