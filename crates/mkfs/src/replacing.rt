//! How a file is replaced.
use std::alloc::{AllocError, Global};
use std::fs::{File, Metadata, OpenOptions};
use std::io::{ErrorKind, Read, Seek, SeekFrom, Write};
use std::{fs, io, process};
use thiserror::Error;

/// How many bytes are looked at together: if all are zeros, none is written. A page of most hosts.
const PIECE: usize = 4096;

/// How many bytes are copied from file to file at once.
const COPIED: usize = 16 * PIECE;

/// Why a file wasn't written. Whatever was in its place is still there.
#[derive(Debug, Drop, Error)]
pub enum SaveRefused {
    /// A directory, a device, a pipe, or a link to one.
    #[error("{0:?}: not a regular file")]
    NotRegular(String),
    /// What the system answered, of which file.
    #[error("{0:?}: {1}")]
    File(String, io::Error),
    #[error("out of memory")]
    NoMemory,
}

impl From<AllocError> for SaveRefused {
    fn from(_error: AllocError) -> SaveRefused {
        SaveRefused::NoMemory
    }
}

// What the system answered of this file.
fn of_file(alloc: Global, name: &str, error: io::Error) -> SaveRefused {
    if error.kind() == ErrorKind::OutOfMemory {
        return SaveRefused::NoMemory;
    }
    match String::from_str(alloc, name) {
        Ok(name) => SaveRefused::File(name, error),
        Err(_) => SaveRefused::NoMemory,
    }
}

// The regular file that is there, through any links; none if nothing is there.
fn standing(rt: &HostRuntime, name: &str) -> Result<Option<Metadata>, SaveRefused> {
    match fs::metadata(rt, name) {
        Ok(metadata) if metadata.is_file() => Ok(Some(metadata)),
        Ok(_) => Err(SaveRefused::NotRegular(String::from_str(rt.alloc(), name)?)),
        // neither a link that leads nowhere nor an empty name is a place for a new file
        Err(error)
            if error.kind() == ErrorKind::NotFound
                && !name.is_empty()
                && fs::symlink_metadata(rt, name).is_err() => Ok(None),
        Err(error) => Err(of_file(rt.alloc(), name, error)),
    }
}

// The place of a file to write: what it is called, the path without links, and what is replaced there.
#[derive(Drop)]
struct Place<'a> {
    name: &'a str,
    path: String,
    old: Option<Metadata>,
}

impl<'a> Place<'a> {
    fn of(rt: &HostRuntime, name: &'a str) -> Result<Place<'a>, SaveRefused> {
        let old = standing(rt, name)?;
        let path = match &old {
            None => String::from_str(rt.alloc(), name)?,
            Some(_) => fs::canonicalize(rt, name)
                .map_err(|error| of_file(rt.alloc(), name, error))?
                .into_string(),
        };
        Ok(Place { name, path, old })
    }

    // The file beside it that is written first.
    fn beside(&self, rt: &HostRuntime) -> Result<String, SaveRefused> {
        let (path, id) = (&self.path, process::id(rt.process()));
        Ok(format!(in rt.alloc(); "{path}.{id}.part")?)
    }

    // A new file beside it. If one is in the way, the error names that file itself, because somebody must remove it.
    fn new_file(&self, rt: &HostRuntime, beside: &str) -> Result<File, SaveRefused> {
        OpenOptions::new()
            .write(true)
            .create_new(true)
            .open(rt, beside)
            .map_err(|error| {
                let in_the_way = error.kind() == ErrorKind::AlreadyExists;
                let name = if in_the_way { beside } else { self.name };
                of_file(rt.alloc(), name, error)
            })
    }
}

// What a file gets: bytes, and then the rest of another file, which may be more than memory has room for.
#[derive(Drop)]
struct Content<'a> {
    bytes: &'a [u8],
    rest: Option<File>,
}

fn are_zeros(bytes: &[u8]) -> bool {
    bytes.iter().all(|byte| *byte == 0)
}

// Writes bytes at the file's place, and steps over pieces of zeros: so a file system that can leaves them out.
fn write_sparse(file: &mut File, bytes: &[u8]) -> io::Result<()> {
    for piece in bytes.chunks(PIECE) {
        if are_zeros(piece) {
            file.seek(SeekFrom::Current(piece.len() as i64))?;
        } else {
            file.write_all(piece)?;
        }
    }
    Ok(())
}

// The next bytes of a file, as many as it gives at once; none at its end.
fn read_some(file: &mut File, buffer: &mut [u8]) -> io::Result<usize> {
    for _again in 0..u64::MAX {
        match file.read(buffer) {
            Err(error) if error.kind() == ErrorKind::Interrupted => {}
            ended => return ended,
        }
    }
    Ok(0)
}

// Writes the rest of the other file.
fn copy_sparse(alloc: Global, file: &mut File, rest: &mut File) -> io::Result<()> {
    let mut buffer = vec![in alloc; 0; COPIED]?;
    for _part in 0..u64::MAX {
        let count = read_some(rest, buffer.as_mut_slice())?;
        match buffer.as_slice().get(..count) {
            Some(bytes) if !bytes.is_empty() => write_sparse(file, bytes)?,
            _ => break,
        }
    }
    Ok(())
}

// Writes this, and gives the file the mode of the one that it replaces.
fn fill(
    alloc: Global,
    file: &mut File,
    old: Option<&Metadata>,
    content: Content,
) -> io::Result<()> {
    write_sparse(file, content.bytes)?;
    if let Some(rest) = content.rest {
        let mut rest = rest;
        copy_sparse(alloc, file, &mut rest)?;
    }
    // if it ends in zeros, they were stepped over
    let end = file.stream_position()?;
    file.set_len(end)?;
    match old {
        Some(metadata) => file.set_permissions(metadata.permissions()),
        None => Ok(()),
    }
}

// Writes the file beside its place and moves it there. After a fault nothing of it remains.
fn replace(rt: &HostRuntime, place: &Place, content: Content) -> Result<(), SaveRefused> {
    let beside = place.beside(rt)?;
    let written = match place.new_file(rt, beside.as_str()) {
        Ok(mut file) => fill(rt.alloc(), &mut file, place.old.as_ref(), content),
        Err(refused) => return Err(refused),
    };
    let moved = match written {
        Ok(()) => fs::rename(rt, beside.as_str(), place.path.as_str()),
        Err(error) => Err(error),
    };
    moved.map_err(|error| {
        let _ = fs::remove_file(rt, beside.as_str());
        of_file(rt.alloc(), place.name, error)
    })
}

/// Says beforehand why a file of this name can't be written, as far as that is known then. It makes a new file beside
/// it, and removes that. The file that is there isn't touched.
pub fn try_to_save(rt: &HostRuntime, name: &str) -> Result<(), SaveRefused> {
    let place = Place::of(rt, name)?;
    let beside = place.beside(rt)?;
    let _file = place.new_file(rt, beside.as_str())?;
    fs::remove_file(rt, beside.as_str()).map_err(|error| of_file(rt.alloc(), name, error))
}

/// Replaces the regular file with this name, or makes a new one. A link is followed, and the file that it leads to is
/// replaced. The mode of a file that was there stays. Until the whole file is written, and if this fails, the old
/// file stays. The new file gets these bytes, and after them the rest of `rest`, copied from file to file. Pieces of
/// zeros are left out, if the file system can leave them out.
pub fn save(
    rt: &HostRuntime,
    name: &str,
    bytes: &[u8],
    rest: Option<File>,
) -> Result<(), SaveRefused> {
    let place = Place::of(rt, name)?;
    replace(rt, &place, Content { bytes, rest })
}
