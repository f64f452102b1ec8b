// The store's file replaced at the end. What a file holds is no value that a clause can speak of, so none does.
use std::fs::File;
use std::io::Write;
use std::path::Path;
use std::{fs, io};

// Replaces a file as a whole: the bytes are written beside it, and then take its place. A failure before that leaves the file as it was.
pub(crate) fn replace_file(rt: &HostRuntime, path: &str, bytes: &[u8]) -> io::Result<()> {
    let beside = format!(in rt.alloc(); "{path}.new")?;
    let file = fs::create(rt, beside.as_str())?;
    let replaced = put_in_place(rt, file, bytes, beside.as_str(), path);
    if replaced.is_err() {
        // if this fails too, the first failure says why
        let _ = fs::remove_file(rt, beside.as_str());
    }
    replaced
}

// Writes a file to the end, and renames it. It is on the disk before it has the name, and so is the name when this ends, where the system syncs folders.
fn put_in_place(
    rt: &HostRuntime,
    mut file: File,
    bytes: &[u8],
    from: &str,
    to: &str,
) -> io::Result<()> {
    file.write_all(bytes)?;
    // where the old file's permissions can't be had, the new one keeps its own
    let _ = take_permissions(rt, &file, to);
    file.sync_all()?;
    fs::rename(rt, from, to)?;
    // the file has taken its place: a folder that can't be synced makes it no failure
    let _ = sync_folder(rt, to);
    Ok(())
}

// Gives a file the permissions of another, if that is a file.
fn take_permissions(rt: &HostRuntime, file: &File, other: &str) -> io::Result<()> {
    let like = fs::metadata(rt, other)?;
    if like.is_file() {
        file.set_permissions(like.permissions())?;
    }
    Ok(())
}

// Has the folder of a file written to the disk, and so the names in it.
fn sync_folder(rt: &HostRuntime, path: &str) -> io::Result<()> {
    let folder = match Path::new(path).parent() {
        Some(folder) if !folder.as_str().is_empty() => folder.as_str(),
        _ => ".",
    };
    fs::open(rt, folder)?.sync_all()
}
