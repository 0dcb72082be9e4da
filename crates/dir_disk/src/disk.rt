//! What a file system promises, call by call.
ghost use Rattle.std.specs.Prelude.{◌≡◌, ◌≢◌, ◌≤◌, ◌<◌, ◌+◌, ◌^◌, List, ℕ, Bool, true, IsTrue, None, Some, length, slice_get, IfOk, OnOk, OnErr};
ghost use Rattle.std.specs.Option.{option_map, ForSome};
ghost use Rattle.dir_calls.specs.Directory.{Directory, number_of};
ghost use Rattle.dir_calls.specs.Images.{IsImage};
ghost use Rattle.dir_calls.specs.Files.{Gives};
ghost use Rattle.dir_calls.specs.Calls.{renames, settles, after, closed, without};
ghost use Rattle.dir_disk.specs.DiskFaults.{OnNotFound};
ghost use Rattle.dir_disk.specs.DiskSteps.{AllOrNone, FindsNone, MayWrite, MovesNoOther, MovesOrNot, RemovesOrNot, SettlesPart, Spoils, StepElapses, after_sync, after_write, created};

use dir_calls::Name;
use std::io;

/// What an opened file is.
#[derive(Clone, Copy)]
pub struct Look {
    /// How many bytes it has.
    pub len: u64,
    /// The number of its device.
    pub device: u64,
    /// Its number on the device: no two files of one device have the same.
    pub inode: u64,
}

/// A file that was opened.
pub trait DiskFile {
    /// Its bytes, if it was opened to be read and nobody writes it.
    ghost bytes: { Self → List ℕ };

    /// Whether its reads are known to give these bytes.
    ghost honest: { Bool };

    /// Reads bytes from a position on into the front of `buf`, and answers how many. Fewer than there are may be read.
    ///
    /// # Errors
    /// Those of the system.
    fn read_at(&self, position: u64, buf: &mut [u8]) -> io::Result<usize>
        ensures room { IfOk result (λ n. n ≤ length buf.old) }
        ensures same_length { length buf.new ≡ length buf.old }
        ensures gives { IsTrue honest → IfOk result (λ n. Gives (bytes self.now) position n buf.old buf.new) };
}

/// A folder of a file system. Each call does what POSIX and Linux promise, if only this process changes the names. A
/// disk makes calls of the system again that a signal interrupts, as far as such calls have done nothing.
pub trait Disk {
    /// An opened file.
    type File: DiskFile + Drop;

    /// What stands in the folder.
    ghost state: { Self → Directory };

    /// Whether its calls are known to do what their clauses say, and stops to leave images of it.
    ghost honest: { Bool };

    /// Its moment, a number that never falls.
    ghost moment: { Self → ℕ };

    /// What a stop since this moment may have left.
    ghost left_since: { Self → ℕ → Directory → Type 0 };

    /// The number of an opened file.
    ghost number: { Self.File → ℕ };

    /// Whether it is a file, and not a folder, pipe or device.
    ghost regular: { Self.File → Bool };

    /// The numbers of a file's device and of the file there.
    ghost identity: { ℕ → ℕ × ℕ };

    /// Makes all changes of names so far lasting (fsync of the folder).
    ///
    /// # Errors
    /// Those of the system. The first of the changes may be lasting then, some or all or none.
    fn sync_folder(&mut self) -> io::Result<()>
        ensures done { IsTrue honest → OnOk result (state self.new ≡ after settles (state self.old)) }
        ensures failed { IsTrue honest → OnErr result (SettlesPart (state self.old) (state self.new)) }
        ensures time { IsTrue honest → StepElapses state moment left_since self.old self.new };

    /// Takes a name away, if it stands (unlink).
    ///
    /// # Errors
    /// Those of the system, and then the name may be taken away.
    fn unlink(&mut self, name: &Name) -> io::Result<()>
        ensures done { IsTrue honest → OnOk result (state self.new ≡ without (state self.old) name.now) }
        ensures failed { IsTrue honest → OnErr result
            (RemovesOrNot name.now (state self.old) (state self.new)) }
        ensures time { IsTrue honest → StepElapses state moment left_since self.old self.new };

    /// Makes a new empty file under a name that must be free (open with `O_CREAT` and `O_EXCL`), to be written. It gets
    /// these permissions, less those that the process masks.
    ///
    /// # Errors
    /// Those of the system, and then the file may be made.
    fn create(&mut self, name: &Name, mode: u32) -> io::Result<Self::File>
        ensures free { IsTrue honest → OnOk result (number_of (state self.old) name.now ≡ None) }
        ensures done { IsTrue honest → OnOk result (state self.new ≡ created (state self.old) name.now) }
        ensures handle { IsTrue honest → IfOk result (λ file. (state self.new).scratch ≡ Some (number file)) }
        ensures failed { IsTrue honest → OnErr result
            (AllOrNone (state self.old) (closed (created (state self.old) name.now)) (state self.new)) }
        ensures time { IsTrue honest → StepElapses state moment left_since self.old self.new };

    /// Writes all of these bytes from a position on (pwrite, as often as it takes).
    ///
    /// # Errors
    /// Those of the system. Then the file may hold any bytes, and it is not known that a later sync makes them last.
    fn write_all_at(&mut self, file: &Self::File, position: u64, bytes: &[u8]) -> io::Result<()>
        requires may { IsTrue honest → MayWrite (state self.old) (number file.now) position }
        ensures fits { IsTrue honest → OnOk result (position + length bytes.now < 2 ^ 63) }
        ensures done { IsTrue honest → OnOk result
            (state self.new ≡ after_write position bytes.now (state self.old)) }
        ensures failed { IsTrue honest → OnErr result (Spoils (state self.old) (state self.new)) }
        ensures time { IsTrue honest → StepElapses state moment left_since self.old self.new };

    /// Makes all that was written to the file lasting (fsync).
    ///
    /// # Errors
    /// Those of the system. Then the file may hold any bytes, and it is not known that a later sync makes them last.
    fn sync(&mut self, file: &Self::File) -> io::Result<()>
        requires may { IsTrue honest → (state self.old).scratch ≡ Some (number file.now) }
        ensures done { IsTrue honest → OnOk result (state self.new ≡ after_sync (state self.old)) }
        ensures failed { IsTrue honest → OnErr result (Spoils (state self.old) (state self.new)) }
        ensures time { IsTrue honest → StepElapses state moment left_since self.old self.new };

    /// Promises that this process writes no more to the file that was made last. It may stay open, so that others see
    /// that this process has it.
    fn close(&mut self, file: &Self::File)
        requires may { IsTrue honest → (state self.old).scratch ≡ Some (number file.now) }
        ensures done { IsTrue honest → state self.new ≡ closed (state self.old) }
        ensures time { IsTrue honest → StepElapses state moment left_since self.old self.new };

    /// Moves one name onto another in one step (rename), if it stands for this file. No other file is ever moved,
    /// whoever has made it.
    ///
    /// # Errors
    /// `NotFound` if there is no such name; others of the system, and then the name may be moved.
    fn rename(&mut self, file: &Self::File, from: &Name, to: &Name) -> io::Result<()>
        ensures own { IsTrue honest → OnOk result
            (number_of (state self.old) from.now ≡ Some (number file.now)) }
        ensures own_if_moved { IsTrue honest → OnErr result
            (MovesNoOther (Some (number file.now)) from.now (state self.old) (state self.new)) }
        ensures done { IsTrue honest → OnOk result
            (state self.new ≡ after (renames from.now to.now) (state self.old)) }
        ensures absent { IsTrue honest → OnNotFound result
            (FindsNone from.now (state self.old) (state self.new)) }
        ensures failed { IsTrue honest → OnErr result
            (MovesOrNot from.now to.now (state self.old) (state self.new)) }
        ensures time { IsTrue honest → StepElapses state moment left_since self.old self.new };

    /// Opens what stands under a name to read it (open), unless it is no file. It changes nothing.
    ///
    /// # Errors
    /// `NotFound` if there is no such name; others of the system, and one if no file stands there.
    fn open(&mut self, name: &Name) -> io::Result<Self::File>
        ensures opened { IsTrue honest → IfOk result (λ file.
            number_of (state self.old) name.now ≡ Some (number file)) }
        // reads give what stands there now, if it is a file that nobody writes any more
        ensures read { IsTrue honest → IfOk result (λ file.
            regular file ≡ true → (state self.old).scratch ≢ Some (number file)
            → option_map (λ stands. stands.bytes) (slice_get (state self.old).files (number file))
            ≡ Some (Self.File.bytes file)) }
        ensures absent { IsTrue honest → OnNotFound result (number_of (state self.old) name.now ≡ None) }
        ensures same { IsTrue honest → state self.new ≡ state self.old }
        ensures time { IsTrue honest → StepElapses state moment left_since self.old self.new };

    /// What an opened file is (fstat).
    ///
    /// # Errors
    /// Those of the system, and one if it is a folder, pipe or device.
    fn look(&self, file: &Self::File) -> io::Result<Look>
        ensures kind { IsTrue honest → OnOk result (regular file.now ≡ true) }
        ensures length { IsTrue honest → IfOk result (λ look.
            ForSome (slice_get (state self.now).files (number file.now))
            (λ stands. look.len ≡ length stands.bytes)) }
        ensures identity { IsTrue honest → IfOk result (λ look.
            (look.device, look.inode) ≡ identity (number file.now)) };

    /// A stop now is among the stops since any earlier moment.
    ghost counts_now: { (disk : Self) (earlier : ℕ) (image : Directory) → IsTrue honest → earlier ≤ moment disk
        → IsImage (state disk) image → left_since disk earlier image };

    /// It is the only stop since the present moment.
    ghost only_now: { (disk : Self) (image : Directory) → IsTrue honest
        → left_since disk (moment disk) image → IsImage (state disk) image };

    /// Its files are honest if it is.
    ghost honest_files: { Self.File.honest ≡ honest };
}
