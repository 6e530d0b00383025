//! A new file of the host.
use std::fs::OpenOptions;
use std::io::{ErrorKind, Write};
use std::{fs, io, process};
use thiserror::Error;

/// Why no file was made.
#[derive(Debug, Drop, Error)]
pub enum NewFileRefused {
    #[error("is there, and is not replaced")]
    IsThere,
    #[error("{0}")]
    File(io::Error),
    #[error("no memory")]
    NoMemory,
}

impl From<io::Error> for NewFileRefused {
    fn from(error: io::Error) -> NewFileRefused {
        if error.kind() == ErrorKind::OutOfMemory {
            return NewFileRefused::NoMemory;
        }
        NewFileRefused::File(error)
    }
}

// Writes the file and links it to its name, if nothing has that name.
fn write_and_link(
    rt: &HostRuntime,
    beside: &str,
    name: &str,
    bytes: &[u8],
) -> Result<(), NewFileRefused> {
    let mut file = OpenOptions::new()
        .write(true)
        .truncate(true)
        .open(rt, beside)?;
    file.write_all(bytes)?;
    match fs::hard_link(rt, beside, name) {
        Err(error) if error.kind() == ErrorKind::AlreadyExists => Err(NewFileRefused::IsThere),
        linked => Ok(linked?),
    }
}

/// Makes a file with these bytes. It is written beside its place, and then linked there: so it is whole or not there,
/// and nothing is replaced.
pub fn write_new(rt: &HostRuntime, name: &str, bytes: &[u8]) -> Result<(), NewFileRefused> {
    if fs::symlink_metadata(rt, name).is_ok() {
        return Err(NewFileRefused::IsThere);
    }
    let id = process::id(rt.process());
    let Ok(beside) = format!(in rt.alloc(); "{name}.{id}.part") else {
        return Err(NewFileRefused::NoMemory);
    };
    let _file = OpenOptions::new()
        .write(true)
        .create_new(true)
        .open(rt, beside.as_str())?;
    let made = write_and_link(rt, beside.as_str(), name, bytes);
    let _ = fs::remove_file(rt, beside.as_str());
    made
}
