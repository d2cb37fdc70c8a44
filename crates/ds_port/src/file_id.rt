use std::fs;
use std::fs::Metadata;
use std::io::ErrorKind;
use std::os::unix::fs::MetadataExt;
use std::rt::Files as System;

/// One file of the system, by whichever name it was reached.
#[derive(Clone, Copy, Debug, PartialEq, Eq)]
pub struct FileId {
    device: u64,
    number: u64,
}

impl FileId {
    pub fn of(found: &Metadata) -> FileId {
        FileId {
            device: found.dev(),
            number: found.ino(),
        }
    }
}

/// What stands under a path. A link isn't followed: it is no plain file.
#[derive(Clone, Copy, Debug, PartialEq, Eq)]
pub enum Standing {
    Nothing,
    Plain(FileId),
    Other,
}

impl Standing {
    pub fn at<R: System>(system: &R, path: &str) -> Standing {
        match fs::symlink_metadata(system, path) {
            Ok(found) if found.is_file() => Standing::Plain(FileId::of(&found)),
            Err(error) if error.kind() == ErrorKind::NotFound => Standing::Nothing,
            _ => Standing::Other,
        }
    }
}
