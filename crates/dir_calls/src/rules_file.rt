//! Opened files.
ghost use Rattle.std.specs.Prelude.{◌≡◌, ◌≤◌, List, ℕ, Bool, length, IfOk, IsOk, IsTrue};
ghost use Rattle.dir_calls.specs.Files.{Gives};

/// A device failed.
#[derive(Clone, Copy)]
pub struct DeviceFault;

/// An opened file. Its bytes never change, whatever becomes of its name.
pub trait RulesFile {
    /// Its bytes.
    ghost bytes: { Self → List ℕ };

    /// Whether reads are known to give only these bytes, and at least one if there are some.
    ghost honest: { Bool };

    /// Whether it is known to be honest and that no read fails.
    ghost sound: { Bool };

    /// How many bytes it has.
    fn len(&self) -> u64
        ensures { IsTrue honest → result ≡ length (bytes self.now) };

    /// Reads bytes from a position on into the front of `buf`, and answers how many. It is 0 only behind the file's end
    /// or for an empty `buf`, and may be fewer than there are. After a fault `buf` may hold anything.
    fn read_at(&self, position: u64, buf: &mut [u8]) -> Result<usize, DeviceFault>
        ensures room { IfOk result (λ n. n ≤ length buf.old) }
        ensures same_length { length buf.new ≡ length buf.old }
        ensures gives { IsTrue honest → IfOk result (λ n. Gives (bytes self.now) position n buf.old buf.new) }
        ensures sound { IsTrue sound → IsOk result };

    /// A sound file is honest.
    ghost sound_is_honest: { IsTrue sound → IsTrue honest };
}
