//! The files of declarations that FILES names: one, several separated by commas, and all in folders.
ghost use Rattle.std.specs.Prelude.{◌≡◌};
ghost use Rattle.std.specs.IoError.{error_kind};

use crate::failure::{Failure, no_file};
use declarations::Source;
use std::alloc::AllocError;
use std::collections::BTreeMap;
use std::fs;
use std::io::{self, ErrorKind};
use std::path::AsPath;

/// The ending of the files that are read in folders.
const ENDING: &str = ".rs";

/// Whether a path names a folder.
fn is_folder(rt: &HostRuntime, path: &str) -> bool {
    match fs::metadata(rt, path) {
        Ok(metadata) => metadata.is_dir(),
        Err(_) => false,
    }
}

/// Whether a path names what has no end of its own, as a pipe or a device; a file that can't be looked at is read, and says why.
fn is_endless(rt: &HostRuntime, path: &str) -> bool {
    match fs::metadata(rt, path) {
        Ok(metadata) => !metadata.is_file(),
        Err(_) => false,
    }
}

/// Whether a name is one that builds and tools make, which is skipped in folders.
fn is_made(name: &str) -> bool {
    name.starts_with('.') || name == "target"
}

/// The failure for a folder that can't be listed, and why it can't.
fn unlisted(rt: &HostRuntime, folder: &str, error: &io::Error) -> Failure {
    let why = match error.kind() {
        ErrorKind::OutOfMemory => return Failure::NoMemory,
        ErrorKind::PermissionDenied => "can't be listed: permission denied",
        ErrorKind::InvalidFilename => "can't be listed: a name in it isn't UTF-8",
        _ => "can't be listed",
    };
    no_file(rt, folder, why)
}

/// Adds a folder's own files to `files`, and its folders to `folders`.
fn add_entries(
    rt: &HostRuntime,
    folder: &str,
    folders: &mut Vec<String>,
    files: &mut Vec<String>,
) -> Result<(), Failure> {
    let entries = match fs::read_dir(rt, folder) {
        Ok(entries) => entries,
        Err(error) => return Err(unlisted(rt, folder, &error)),
    };
    for entry in entries {
        let entry = match entry {
            Ok(entry) => entry,
            Err(error) => return Err(unlisted(rt, folder, &error)),
        };
        let path = String::from_str(rt.alloc(), entry.path().path_text())?;
        if is_made(entry.file_name()) {
            continue;
        }
        let is_folder = match entry.file_type() {
            Ok(kind) => kind.is_dir(),
            // it was removed meanwhile
            Err(error) if error.kind() == ErrorKind::NotFound => false,
            Err(error) => return Err(unread(rt, path.as_str(), &error)),
        };
        if is_folder {
            folders.push(path)?;
        } else if path.ends_with(ENDING) && !is_endless(rt, path.as_str()) {
            files.push(path)?;
        }
    }
    Ok(())
}

/// Adds the files of a folder and of all folders in it.
fn add_folder(rt: &HostRuntime, folder: &str, files: &mut Vec<String>) -> Result<(), Failure> {
    let mut folders = Vec::new(rt.alloc());
    folders.push(String::from_str(rt.alloc(), folder)?)?;
    for _ in 0..u64::MAX {
        let Some(folder) = folders.pop() else {
            break;
        };
        add_entries(rt, folder.as_str(), &mut folders, files)?;
    }
    Ok(())
}

/// Adds the files that a path names.
fn add(rt: &HostRuntime, path: &str, files: &mut Vec<String>) -> Result<(), Failure> {
    if is_folder(rt, path) {
        return add_folder(rt, path, files);
    }
    Ok(files.push(String::from_str(rt.alloc(), path)?)?)
}

/// Why a file can't be read.
fn why_not(error: &io::Error) -> &'static str {
    match error.kind() {
        ErrorKind::NotFound => "isn't there",
        ErrorKind::PermissionDenied => "can't be read: permission denied",
        ErrorKind::InvalidData => "isn't UTF-8",
        _ => "can't be read",
    }
}

/// The failure for a file that can't be read, or that memory doesn't hold.
fn unread(rt: &HostRuntime, file: &str, error: &io::Error) -> Failure
    ensures { error_kind error.now ≡ ErrorKind.OutOfMemory → result ≡ Failure.NoMemory }
{
    match error.kind() {
        ErrorKind::OutOfMemory => Failure::NoMemory,
        _ => no_file(rt, file, why_not(error)),
    }
}

/// Reads a file.
fn read(rt: &HostRuntime, file: String) -> Result<Source, Failure> {
    match fs::read_to_string(rt, file.as_str()) {
        Ok(text) => Ok(Source { file, text }),
        Err(error) => Err(unread(rt, file.as_str(), &error)),
    }
}

/// A path without `.` and repeated slashes, by which two names of one file are the same.
fn plain_path(rt: &HostRuntime, path: &str) -> Result<String, AllocError> {
    let mut plain = String::new(rt.alloc());
    if path.starts_with('/') {
        plain.push('/')?;
    }
    for part in path.split('/') {
        if part.is_empty() || part == "." {
            continue;
        }
        plain.push_str(part)?;
        plain.push('/')?;
    }
    Ok(plain)
}

/// Returns the files that FILES names, in the order of their names, each once. A path with a comma is first tried as one path.
pub fn sources_of(rt: &HostRuntime, word: &str) -> Result<Vec<Source>, Failure> {
    let mut files = Vec::new(rt.alloc());
    if fs::metadata(rt, word).is_ok() {
        add(rt, word, &mut files)?;
    } else {
        for path in word.split(',') {
            add(rt, path, &mut files)?;
        }
    }
    if files.is_empty() {
        return Err(no_file(rt, word, "has no file whose name ends in `.rs`"));
    }
    files.sort()?;
    let mut sources = Vec::new(rt.alloc());
    let mut met = BTreeMap::new(rt.alloc());
    for file in files {
        match met.insert(plain_path(rt, file.as_str())?, ()) {
            Ok(None) => sources.push(read(rt, file)?)?,
            Ok(Some(())) => {}
            Err(_) => return Err(Failure::NoMemory),
        }
    }
    Ok(sources)
}
