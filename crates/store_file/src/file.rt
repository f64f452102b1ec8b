// A store's file read.
ghost use Rattle.std.specs.Prelude.{◌≡◌, ◌≤◌, IfSome, IfOk, vec_len, MatchOption, MatchResult};
ghost use Rattle.std.specs.IoError.{error_kind};
ghost use Rattle.std.specs.declared.io.Error.{Error};
ghost use Rattle.std.specs.declared.io.ErrorKind.TheVariants.{OutOfMemory};
ghost use Rattle.store_file.specs.declared.file.OpenError.TheVariants.{Io};
ghost use Rattle.store_file.specs.StoreFile.{Held, Judged, Denies, no_pages, most_read};

use crate::contents::{Unusable, check_contents, new_store};
use std::alloc::{AllocError, Global};
use std::io::Read;
use std::{fs, io};
use store::{MOST_SLOTS, SLOT_SIZE};

// So many bytes of a file are read: one more than a store has, so that a file that is too long is seen to be.
const MOST_READ: usize = SLOT_SIZE * MOST_SLOTS + 1;

// Why there is no store to receive into.
#[derive(Drop)]
pub enum OpenError {
    // The file can't be read, or there is no memory.
    Io(io::Error),
    // What the file holds is none: its bytes, and why.
    Unfit(Vec<u8>, Unusable),
}

impl From<io::Error> for OpenError {
    ghost from_gives = { λ e r. r ≡ Io e };

    fn from(e: io::Error) -> OpenError {
        OpenError::Io(e)
    }
}

impl From<AllocError> for OpenError {
    ghost from_gives = { λ _ r. (e : Error) × (r ≡ Io e) × (error_kind e ≡ OutOfMemory) };

    fn from(e: AllocError) -> OpenError {
        OpenError::Io(e.into())
    }
}

// The store of a file, if one is named and is there, or else a new one; either is checked.
pub fn open_store(
    rt: &HostRuntime,
    path: Option<&str>,
    slots: Option<u8>,
) -> Result<Vec<u8>, OpenError>
    ensures { MatchResult result (λ store. Held path.entry slots store.items × Judged store.items slots (Ok tt)) (λ e. Denies path.entry slots e) }
{
    let kept = match path {
        Some(path) => read_file(rt, path)?,
        None => None,
    };
    let store = kept_or_new(rt.alloc(), kept, slots)?;
    match check_contents(store.as_slice(), slots) {
        Ok(()) => Ok(store),
        Err(why) => Err(OpenError::Unfit(store, why)),
    }
}

// The bytes that a file held, or a new store if there was no file.
fn kept_or_new(
    heap: Global,
    kept: Option<Vec<u8>>,
    slots: Option<u8>,
) -> Result<Vec<u8>, AllocError>
    ensures { IfOk result (λ store. MatchOption kept (store.items ≡ no_pages slots) (λ bytes. store.items ≡ bytes.items)) }
{
    kept.map_or_else(|| new_store(heap, slots), Ok)
}

// The bytes of a file, if it is there. Of a file that is too long for a store, a byte too much is read and no more.
pub fn read_file(rt: &HostRuntime, path: &str) -> io::Result<Option<Vec<u8>>>
    ensures { IfOk result (λ read. IfSome read (λ bytes. vec_len bytes ≤ most_read)) }
{
    let file = match fs::open(rt, path) {
        Ok(file) => file,
        Err(e) if e.kind() == io::ErrorKind::NotFound => return Ok(None),
        Err(e) => return Err(e),
    };
    let mut bytes = Vec::new(rt.alloc());
    let mut front = file.take(MOST_READ as u64);
    front.read_to_end(&mut bytes)?;
    // that `take` kept to its limit isn't known here
    bytes.truncate(MOST_READ);
    Ok(Some(bytes))
}
