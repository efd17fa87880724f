//! Whether the name of a log still leads to the file that was opened by it.
use std::fs::{self, File};
use std::io::{self, ErrorKind};
use std::os::unix::fs::MetadataExt;

/// What is reported if it doesn't.
pub const MOVED: &str = "moved or replaced: its name leads to another file now, or to none";

/// Which file was opened.
#[derive(Clone, Copy, Drop)]
pub struct Identity {
    device: u64,
    node: u64,
}

impl Identity {
    /// Which file is open here.
    pub fn of(file: &File) -> io::Result<Identity> {
        let of = file.metadata()?;
        Ok(Identity {
            device: of.dev(),
            node: of.ino(),
        })
    }

    /// Whether this path leads to another file now, or to none.
    pub fn has_moved(&self, rt: &HostRuntime, path: &str) -> io::Result<bool> {
        match fs::metadata(rt, path) {
            Ok(now) => Ok(now.dev() != self.device || now.ino() != self.node),
            Err(e) => {
                if e.kind() == ErrorKind::NotFound {
                    return Ok(true);
                }
                Err(e)
            }
        }
    }
}
