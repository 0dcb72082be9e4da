//! The scratch file of a disk. Its last bytes are kept back before they are written.
ghost use Rattle.std.specs.Prelude.{◌≡◌, ◌≤◌, ◌<◌, ◌+◌, [], None, Some, IsSome, IsTrue, length, IfOk, OnOk, OnErr, vec_len};
ghost use Rattle.std.specs.Option.{option_map};
ghost use Rattle.dir_calls.specs.Calls.{makes, patches, renames, syncs, after, closed};
ghost use Rattle.dir_calls.specs.Directory.{number_of};
ghost use Rattle.dir_calls.specs.Methods.{CallElapses, CallIncludes};
ghost use Rattle.dir_calls.specs.Outcomes.{Fails};
ghost use Rattle.dir_disk.specs.DiskFaults.{OnNotFound};
ghost use Rattle.dir_disk.specs.DiskSteps.{FindsNone, MovesNoOther, MovesOrNot, Spoils, StepElapses};
ghost use Rattle.dir_disk.specs.OsDir.{GivesUp, Holds, IsWritable, KeptElapses, KeptIncludes, kept_back};

use crate::disk::Disk;
use dir_calls::Name;
use std::io::{self, ErrorKind};

/// How many bytes are kept back until they are written. Each write but the last has this many.
pub(crate) const BUFFER: usize = 65_536;

/// Files are made with these permissions, less those that the process masks: all may read them, as they may those of
/// `tcprules`.
const MODE: u32 = 0o644;

/// Writes the bytes that are kept back at the end of the scratch file, which has `written` bytes. The answer is the
/// file and its new length. If the write fails, the file is closed.
pub(crate) fn write_kept<D: Disk>(
    disk: &mut D,
    file: D::File,
    written: u64,
    pending: &mut Vec<u8>,
) -> io::Result<(D::File, u64)>
    requires writable { IsTrue D.honest → IsWritable (D.state disk.old) (D.number file) written }
    ensures kept { IsTrue D.honest → OnOk result
        (kept_back [] (D.state disk.new) ≡ kept_back pending.old.items (D.state disk.old)) }
    ensures empty { OnOk result (pending.new.items ≡ []) }
    ensures writable { IsTrue D.honest → IfOk result (λ now. IsWritable (D.state disk.new) (D.number now.0) now.1) }
    ensures end { IsTrue D.honest → IfOk result (λ now. now.1 ≡ written + length pending.old.items) }
    ensures spares { IsTrue D.honest → OnOk result (Spoils (D.state disk.old) (D.state disk.new)) }
    ensures failed { IsTrue D.honest → OnErr result (GivesUp (D.state disk.old) (D.state disk.new)) }
    ensures time { IsTrue D.honest → StepElapses D.state D.moment D.left_since disk.old disk.new }
{
    match disk.write_all_at(&file, written, pending.as_slice()) {
        Ok(()) => {
            let end = written.saturating_add(pending.len() as u64);
            pending.clear();
            Ok((file, end))
        }
        Err(error) => {
            disk.close(&file);
            Err(error)
        }
    }
}

/// Writes the bytes that are kept back if there are as many as may be. The answer is the file and its length. If the
/// write fails, the file is closed.
pub(crate) fn make_room<D: Disk>(
    disk: &mut D,
    file: D::File,
    written: u64,
    pending: &mut Vec<u8>,
) -> io::Result<(D::File, u64)>
    requires writable { IsTrue D.honest → IsWritable (D.state disk.old) (D.number file) written }
    ensures kept { IsTrue D.honest → OnOk result
        (kept_back pending.new.items (D.state disk.new) ≡ kept_back pending.old.items (D.state disk.old)) }
    ensures room { OnOk result (vec_len pending.new < 65536) }
    ensures writable { IsTrue D.honest → IfOk result (λ now. IsWritable (D.state disk.new) (D.number now.0) now.1) }
    ensures failed { IsTrue D.honest → OnErr result (GivesUp (D.state disk.old) (D.state disk.new)) }
    ensures time { IsTrue D.honest → StepElapses D.state D.moment D.left_since disk.old disk.new }
{
    if pending.len() < BUFFER {
        return Ok((file, written));
    }
    write_kept(disk, file, written, pending)
}

/// Writes the bytes that are kept back, and then overwrites bytes inside the file.
pub(crate) fn overwrite<D: Disk>(
    disk: &mut D,
    file: D::File,
    written: u64,
    pending: &mut Vec<u8>,
    position: u64,
    bytes: &[u8],
) -> io::Result<(D::File, u64)>
    requires writable { IsTrue D.honest → IsWritable (D.state disk.old) (D.number file) written }
    requires inside { IsTrue D.honest → position + length bytes.now ≤ written + length pending.old.items }
    ensures done { IsTrue D.honest → OnOk result (kept_back [] (D.state disk.new)
        ≡ after (patches position bytes.now) (kept_back pending.old.items (D.state disk.old))) }
    ensures empty { OnOk result (pending.new.items ≡ []) }
    ensures writable { IsTrue D.honest → IfOk result (λ now. IsWritable (D.state disk.new) (D.number now.0) now.1) }
    ensures failed { IsTrue D.honest → OnErr result (GivesUp (D.state disk.old) (D.state disk.new)) }
    ensures time { IsTrue D.honest → StepElapses D.state D.moment D.left_since disk.old disk.new }
{
    let (file, written) = write_kept(disk, file, written, pending)?;
    match disk.write_all_at(&file, position, bytes) {
        Ok(()) => Ok((file, written)),
        Err(error) => {
            disk.close(&file);
            Err(error)
        }
    }
}

/// Writes the bytes that are kept back, has the file synced, and closes it. From then on it is the file that was made
/// last.
pub(crate) fn sync_kept<D: Disk>(
    disk: &mut D,
    file: D::File,
    written: u64,
    pending: &mut Vec<u8>,
    made: &mut Option<D::File>,
) -> io::Result<()>
    requires writable { IsTrue D.honest → IsWritable (D.state disk.old) (D.number file) written }
    ensures done { IsTrue D.honest → OnOk result
        (D.state disk.new ≡ after syncs (kept_back pending.old.items (D.state disk.old))) }
    ensures closed { IsTrue D.honest → (D.state disk.new).scratch ≡ None }
    ensures made { IsTrue D.honest → OnOk result (option_map D.number made.new ≡ (D.state disk.old).scratch) }
    ensures failed { IsTrue D.honest → OnErr result (GivesUp (D.state disk.old) (D.state disk.new)) }
    ensures time { IsTrue D.honest → StepElapses D.state D.moment D.left_since disk.old disk.new }
{
    let (file, _written) = write_kept(disk, file, written, pending)?;
    let outcome = disk.sync(&file);
    disk.close(&file);
    *made = Some(file);
    outcome
}

/// Writes the bytes that are kept back, and closes the file, which stays unsynced.
pub(crate) fn let_go<D: Disk>(
    disk: &mut D,
    scratch: Option<D::File>,
    written: u64,
    pending: &mut Vec<u8>,
) -> io::Result<()>
    requires holds { IsTrue D.honest → Holds D.number (D.state disk.old) scratch written }
    ensures done { IsTrue D.honest → OnOk result
        (D.state disk.new ≡ closed (kept_back pending.old.items (D.state disk.old))) }
    ensures empty { OnOk result (pending.new.items ≡ []) }
    ensures failed { IsTrue D.honest → OnErr result (GivesUp (D.state disk.old) (D.state disk.new)) }
    ensures time { IsTrue D.honest → StepElapses D.state D.moment D.left_since disk.old disk.new }
{
    let Some(file) = scratch else {
        pending.clear();
        return Ok(());
    };
    let (file, _written) = write_kept(disk, file, written, pending)?;
    disk.close(&file);
    Ok(())
}

/// Closes the scratch file, if there is one. What is kept back of its bytes is not written.
pub(crate) fn give_up<D: Disk>(disk: &mut D, scratch: Option<D::File>)
    requires { IsTrue D.honest → (D.state disk.old).scratch ≡ option_map D.number scratch }
    ensures done { IsTrue D.honest → D.state disk.new ≡ closed (D.state disk.old) }
    ensures time { IsTrue D.honest → StepElapses D.state D.moment D.left_since disk.old disk.new }
{
    if let Some(file) = scratch {
        disk.close(&file);
    }
}

/// Makes a new file in the place of what stood there.
pub(crate) fn make_file<D: Disk>(disk: &mut D, name: &Name) -> io::Result<D::File>
    requires { IsTrue D.honest → (D.state disk.old).scratch ≡ None }
    ensures done { IsTrue D.honest → OnOk result
        (D.state disk.new ≡ after (makes name.now) (D.state disk.old)) }
    ensures writable { IsTrue D.honest → IfOk result (λ file. IsWritable (D.state disk.new) (D.number file) 0) }
    ensures failed { IsTrue D.honest → OnErr result
        (Fails (makes name.now) (D.state disk.old) (D.state disk.new)) }
    ensures closed { IsTrue D.honest → OnErr result ((D.state disk.new).scratch ≡ None) }
    ensures time { IsTrue D.honest
        → CallElapses D.state D.moment D.left_since (makes name.now) disk.old disk.new }
    ensures within { IsTrue D.honest → OnOk result
        (CallIncludes D.state D.moment D.left_since (makes name.now) disk.old disk.new) }
{
    disk.unlink(name)?;
    disk.create(name, MODE)
}

/// Lets the scratch file go, and makes a new one.
pub(crate) fn renew<D: Disk>(
    disk: &mut D,
    name: &Name,
    scratch: Option<D::File>,
    written: u64,
    pending: &mut Vec<u8>,
) -> io::Result<D::File>
    requires holds { IsTrue D.honest → Holds D.number (D.state disk.old) scratch written }
    ensures done { IsTrue D.honest → OnOk result (D.state disk.new
        ≡ after (makes name.now) (kept_back pending.old.items (D.state disk.old))) }
    ensures empty { OnOk result (pending.new.items ≡ []) }
    ensures writable { IsTrue D.honest → IfOk result (λ file. IsWritable (D.state disk.new) (D.number file) 0) }
    ensures failed { IsTrue D.honest → OnErr result
        (Fails (makes name.now) (kept_back pending.old.items (D.state disk.old)) (D.state disk.new)) }
    ensures closed { IsTrue D.honest → OnErr result ((D.state disk.new).scratch ≡ None) }
    ensures time { IsTrue D.honest → KeptElapses D.state D.moment D.left_since (makes name.now)
        pending.old.items disk.old disk.new }
    ensures within { IsTrue D.honest → OnOk result (KeptIncludes D.state D.moment D.left_since
        (makes name.now) pending.old.items disk.old disk.new) }
{
    let_go(disk, scratch, written, pending)?;
    make_file(disk, name)
}

/// Moves one name onto another, if it stands for the file that was made. If none was made, nothing is moved.
pub(crate) fn rename<D: Disk>(
    disk: &mut D,
    made: &Option<D::File>,
    from: &Name,
    to: &Name,
) -> io::Result<()>
    ensures own { IsTrue D.honest → OnOk result
        (number_of (D.state disk.old) from.now ≡ option_map D.number made.now) }
    ensures own_if_moved { IsTrue D.honest → OnErr result
        (MovesNoOther (option_map D.number made.now) from.now (D.state disk.old) (D.state disk.new)) }
    ensures found { IsTrue D.honest → OnOk result (IsSome (number_of (D.state disk.old) from.now)) }
    ensures done { IsTrue D.honest → OnOk result
        (D.state disk.new ≡ after (renames from.now to.now) (D.state disk.old)) }
    ensures absent { IsTrue D.honest → OnNotFound result
        (FindsNone from.now (D.state disk.old) (D.state disk.new)) }
    ensures failed { IsTrue D.honest → OnErr result
        (MovesOrNot from.now to.now (D.state disk.old) (D.state disk.new)) }
    ensures time { IsTrue D.honest → StepElapses D.state D.moment D.left_since disk.old disk.new }
{
    match made {
        Some(file) => disk.rename(file, from, to),
        None => match disk.open(from) {
            Ok(_) => Err(io::Error::from(ErrorKind::Other)),
            Err(error) => Err(error),
        },
    }
}
