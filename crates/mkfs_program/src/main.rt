//! `mkfs IMAGE [--size N] [--inodes N] [--version N] [--force] [FILE..]`: writes an image with these files in its root.
//! `mkfs --migrate OLD IMAGE [--size N] [--version N] [--force]`: writes an image of a later version with the tree of an old one.
//!
//! Faults are reported in this order. First the command line, with an IMAGE that is one of the FILEs, or a file that is no image (status 2).
//! Then a FILE that can't be read, what can't be made, and an IMAGE that can't be written (status 1). Want of memory is
//! reported when it comes, as a refusal to make (status 1).
#![tactic(auto)]

use block_device::MemoryDisk;
use clap::ArgMatches;
use clap::error::ErrorKind;
use clap::parser::ValueSource;
use image_tree::{Layout, MountFault, find_layout, find_version};
use image_versions::Version;
use image_versions::widths::{LARGEST_SIZE, MOST_DISK_BLOCKS};
use migration::{MigrateRefused, least_size, migrate};
use mkfs::widths::{INODE_START, LOG_BLOCKS};
use mkfs::{
    FILES, FORCE, IMAGE, INODES, ImageFile, ImageRefused, MIGRATE, MakeRefused, NewFile, SIZE,
    SaveRefused, VERSION, WordsRefused, data_start, is_file_name, is_other_file, make_as, number,
    options, read_at_most, read_image, read_words, save, version,
};
use std::alloc::{AllocError, Global};
use std::process::ExitCode;
use std::{fs, io};
use thiserror::Error;

/// Why no image was written.
#[derive(Debug, Drop, Error)]
enum Fault<'a> {
    /// The command line has a word that is no text.
    #[error("{0}")]
    Words(WordsRefused),
    /// The image can't be made, or memory was refused.
    #[error("refused {} {}", .0.number(), .0.name())]
    Refused(MakeRefused),
    /// The image can't be made, for the sake of this file.
    #[error("refused {} {}: {:?}", .0.number(), .0.name(), .1)]
    RefusedFile(MakeRefused, &'a str),
    /// The image can't be made, since this file has the name of another one.
    #[error("refused {} {}: {:?}: comes twice, {:?} has that name too", .0.number(), .0.name(), .1, .2)]
    RefusedTwice(MakeRefused, &'a str, &'a str),
    /// The image can't be made, since there are more files than this.
    #[error("refused {} {}: too many files, the root of version {} names {} at most", .0.number(), .0.name(), .1, .2)]
    RefusedMany(MakeRefused, u32, usize),
    /// What can't be read, and why.
    #[error("{0:?}: {1}")]
    File(&'a str, io::Error),
    /// The image would replace this FILE.
    #[error("{0:?}: is a FILE, and would be replaced by the image")]
    Replaces(&'a str),
    /// The image can't be written.
    #[error("{0}")]
    Save(SaveRefused),
    /// A file that is no image would be replaced.
    #[error("{0:?}: is there, and is no image; with --force it is replaced")]
    NoImage(&'a str),
    /// The image can't be migrated to so few blocks.
    #[error("refused {} {}: --size {} is the least that would do", .0.number(), .0.name(), .1)]
    TooSmall(MigrateRefused, usize),
    /// The image can't be migrated to as many blocks as there can be.
    #[error("refused {} {}: {} blocks would be wanted, and an image has {} at most", .0.number(), .0.name(), .1, .2)]
    TooBig(MigrateRefused, usize, u32),
    /// The image can't be migrated.
    #[error("refused {} {}", .0.number(), .0.name())]
    NotMigrated(MigrateRefused),
    /// The old image can't be read, and why.
    #[error("{0:?}: {1}")]
    OldImage(&'a str, ImageRefused),
    /// The new image would replace the old one.
    #[error("{0:?}: is the old image, and would be replaced by the new one")]
    ReplacesOld(&'a str),
    /// What is migrated has its files and inodes.
    #[error("--migrate takes neither a FILE nor --inodes")]
    GivenBesides,
}

impl<'a> From<AllocError> for Fault<'a> {
    fn from(_error: AllocError) -> Fault<'a> {
        Fault::Refused(MakeRefused::NoMemory)
    }
}

impl<'a> From<MakeRefused> for Fault<'a> {
    fn from(refused: MakeRefused) -> Fault<'a> {
        Fault::Refused(refused)
    }
}

impl<'a> From<MigrateRefused> for Fault<'a> {
    fn from(refused: MigrateRefused) -> Fault<'a> {
        Fault::NotMigrated(refused)
    }
}

impl<'a> From<MountFault> for Fault<'a> {
    fn from(fault: MountFault) -> Fault<'a> {
        Fault::NotMigrated(MigrateRefused::from(fault))
    }
}

impl<'a> From<SaveRefused> for Fault<'a> {
    fn from(refused: SaveRefused) -> Fault<'a> {
        match refused {
            SaveRefused::NoMemory => Fault::Refused(MakeRefused::NoMemory),
            refused => Fault::Save(refused),
        }
    }
}

impl<'a> Fault<'a> {
    // What came of reading a file.
    fn of_file(path: &'a str, error: io::Error) -> Fault<'a> {
        if error.kind() == io::ErrorKind::OutOfMemory {
            return Fault::Refused(MakeRefused::NoMemory);
        }
        Fault::File(path, error)
    }

    // What came of reading the old image.
    fn of_image(path: &'a str, refused: ImageRefused) -> Fault<'a> {
        match refused {
            ImageRefused::NoMemory => Fault::Refused(MakeRefused::NoMemory),
            refused => Fault::OldImage(path, refused),
        }
    }

    // What came of making an image of this version with these files.
    fn of_files(
        version: Version,
        paths: &[&'a str],
        files: &[NewFile],
        refused: MakeRefused,
    ) -> Fault<'a> {
        let place = match refused {
            MakeRefused::BadName => misnamed(version, files),
            MakeRefused::FileTooBig => oversized(files),
            _ => None,
        };
        match place {
            Some(place) if place < paths.len() => {
                Fault::of_path(refused, &paths[..place], paths[place])
            }
            None if refused == MakeRefused::FileTooBig => {
                Fault::RefusedMany(refused, version.number(), most_files(version))
            }
            _ => Fault::Refused(refused),
        }
    }

    // The image can't be made for the sake of this file, whose name one of those before it may have.
    fn of_path(refused: MakeRefused, before: &[&'a str], path: &'a str) -> Fault<'a> {
        let name = last_element(path);
        match before.iter().find(|other| last_element(other) == name) {
            Some(other) if refused == MakeRefused::BadName => {
                Fault::RefusedTwice(refused, path, other)
            }
            _ => Fault::RefusedFile(refused, path),
        }
    }

    // What came of migrating an image, for which so many blocks are wanted.
    fn of_least(refused: MigrateRefused, least: usize) -> Fault<'a> {
        if least > MOST_DISK_BLOCKS as usize {
            Fault::TooBig(refused, least, MOST_DISK_BLOCKS)
        } else {
            Fault::TooSmall(refused, least)
        }
    }

    // What came of reading the words of the command line.
    fn of_words(refused: WordsRefused) -> Fault<'a> {
        match refused {
            WordsRefused::NoMemory => Fault::Refused(MakeRefused::NoMemory),
            refused => Fault::Words(refused),
        }
    }

    // The program's exit status.
    fn status(&self) -> u8 {
        match self {
            Fault::Words(_)
            | Fault::Replaces(_)
            | Fault::ReplacesOld(_)
            | Fault::NoImage(_)
            | Fault::GivenBesides => 2,
            Fault::Refused(_)
            | Fault::RefusedFile(..)
            | Fault::RefusedTwice(..)
            | Fault::RefusedMany(..)
            | Fault::TooSmall(..)
            | Fault::TooBig(..)
            | Fault::File(..)
            | Fault::Save(_)
            | Fault::NotMigrated(_)
            | Fault::OldImage(..) => 1,
        }
    }
}

// The place of the first file whose name an image of this version can't have, or has from a file before it.
fn misnamed(version: Version, files: &[NewFile]) -> Option<usize> {
    for (place, file) in files.iter().enumerate() {
        let name = file.name.as_slice();
        let comes_twice = files
            .iter()
            .take(place)
            .any(|before| before.name.as_slice() == name);
        if comes_twice || !is_file_name(version, name) {
            return Some(place);
        }
    }
    None
}

// How many files the root names at most, beside itself and its parent.
fn most_files(version: Version) -> usize {
    version.most_slots() - 2
}

// The place of the first file that is longer than one of an image.
fn oversized(files: &[NewFile]) -> Option<usize> {
    files
        .iter()
        .position(|file| file.content.len() > LARGEST_SIZE)
}

// What a FILE is called in the root.
fn last_element(path: &str) -> &str {
    match path.rsplit_once('/') {
        Some((_, name)) => name,
        None => path,
    }
}

// The first of these that is the file to which the other name leads, also by links. A name that leads nowhere is none of them.
fn replaced<'a>(rt: &HostRuntime, image: &str, paths: &[&'a str]) -> Option<&'a str> {
    let image = fs::canonicalize(rt, image).ok()?;
    paths
        .iter()
        .find(|path| match fs::canonicalize(rt, **path) {
            Ok(file) => file == image,
            Err(_) => false,
        })
        .copied()
}

// The place of the image, if it may be written there: a file that is no image is replaced only if that is asked for.
fn place_of<'a>(rt: &HostRuntime, matches: &'a ArgMatches) -> Result<&'a str, Fault<'a>> {
    let image = matches.get_str(IMAGE).unwrap_or("");
    if !matches.get_flag(FORCE) && is_other_file(rt, image) {
        return Err(Fault::NoImage(image));
    }
    Ok(image)
}

// The FILEs, in their order. Of one that is too long for an image only so much is read that it is seen.
fn load<'a>(rt: &HostRuntime, paths: &[&'a str]) -> Result<Vec<NewFile>, Fault<'a>> {
    let mut files = Vec::new(rt.alloc());
    for &path in paths {
        let name = Vec::from_slice(rt.alloc(), last_element(path).as_bytes())?;
        let content = read_at_most(rt, path, LARGEST_SIZE).map_err(|error| Fault::of_file(
            path, error,
        ))?;
        files
            .push(NewFile { name, content })
            .map_err(AllocError::from)?;
    }
    Ok(files)
}

// The line about an image that was made.
fn summary(alloc: Global, size: u32, ninodes: u32) -> Result<String, AllocError> {
    let meta = data_start(ninodes);
    let inodes = meta.saturating_sub(INODE_START + 1);
    let data = size.saturating_sub(meta);
    format!(in alloc;
        "meta {meta} blocks (boot 1, super 1, log {LOG_BLOCKS}, inodes {inodes}, bitmap 1), data {data}, total {size}"
    )
}

// Writes the image that the command line asks for, and gives the line about it.
fn run<'a>(
    rt: &HostRuntime,
    matches: &'a ArgMatches,
    version: Version,
    size: u32,
    ninodes: u32,
) -> Result<String, Fault<'a>> {
    let paths = matches.get_strs(FILES).unwrap_or([].as_slice());
    let image = matches.get_str(IMAGE).unwrap_or("");
    if let Some(path) = replaced(rt, image, paths) {
        return Err(Fault::Replaces(path));
    }
    let image = place_of(rt, matches)?;
    let files = load(rt, paths)?;
    let disk = make_as(rt.alloc(), version, size, ninodes, files.as_slice()).map_err(
        |refused| Fault::of_files(version, paths, files.as_slice(), refused),
    )?;
    let line = summary(rt.alloc(), size, ninodes)?;
    let bytes = disk.into_bytes();
    save(rt, image, bytes.as_slice(), None)?;
    Ok(line)
}

// Whether the words give this option.
fn is_given(matches: &ArgMatches, id: &str) -> bool {
    matches.value_source(id) == Some(ValueSource::CommandLine)
}

// The places of an image's parts, of whichever version it is.
fn layout_of(disk: &mut MemoryDisk) -> Result<Layout, MountFault> {
    let version = find_version(disk)?;
    find_layout(disk, version)
}

// The image that the old one is migrated to. If its blocks don't suffice, the line says how many would.
fn migrate_to<'a>(
    alloc: Global,
    old: &mut MemoryDisk,
    version: Version,
    size: u32,
) -> Result<MemoryDisk, Fault<'a>> {
    match migrate(alloc, old, version, size) {
        Ok(made) => Ok(made),
        Err(refused @ (MigrateRefused::BadSizes | MigrateRefused::NoBlocks))
            if size <= MOST_DISK_BLOCKS => {
            match least_size(alloc, old, version) {
                Ok(least) => Err(Fault::of_least(refused, least)),
                Err(_) => Err(Fault::from(refused)),
            }
        }
        Err(refused) => Err(Fault::from(refused)),
    }
}

// Writes the image that the old one is migrated to, and gives the line about it.
fn run_migration<'a>(
    rt: &HostRuntime,
    matches: &'a ArgMatches,
    old: &'a str,
    version: Version,
    size: u32,
) -> Result<String, Fault<'a>> {
    let paths = matches.get_strs(FILES).unwrap_or([].as_slice());
    if is_given(matches, INODES) || !paths.is_empty() {
        return Err(Fault::GivenBesides);
    }
    let new = matches.get_str(IMAGE).unwrap_or("");
    if let Some(path) = replaced(rt, new, [old].as_slice()) {
        return Err(Fault::ReplacesOld(path));
    }
    let new = place_of(rt, matches)?;
    let file = read_image(rt, old).map_err(|refused| Fault::of_image(old, refused))?;
    let ImageFile { bytes, rest: _ } = file;
    let mut disk = MemoryDisk::new(bytes);
    let sizes = layout_of(&mut disk)?.sizes;
    let version = if is_given(matches, VERSION) {
        version
    } else {
        Version::Two
    };
    let size = if is_given(matches, SIZE) {
        size
    } else {
        sizes.size
    };
    let made = migrate_to(rt.alloc(), &mut disk, version, size)?;
    let line = summary(rt.alloc(), size, sizes.ninodes)?;
    save(rt, new, made.into_bytes().as_slice(), None)?;
    Ok(line)
}

// The command line's words.
fn words(rt: &HostRuntime) -> Result<Vec<String>, Fault<'static>> {
    read_words(rt).map_err(|refused| Fault::of_words(refused))
}

// Tells why there is no image.
fn tell(rt: &HostRuntime, fault: &Fault) -> io::Result<ExitCode> {
    eprintln!(rt; "{fault}")?;
    Ok(ExitCode::from(fault.status()))
}

fn main(rt: HostRuntime) -> anyhow::Result<ExitCode> {
    let words = match words(&rt) {
        Ok(words) => words,
        Err(fault) => return Ok(tell(&rt, &fault)?),
    };
    let matches = match options(rt.alloc(), words.as_slice()) {
        Ok(matches) => matches,
        Err(error) if error.kind() == ErrorKind::OutOfMemory => {
            return Ok(tell(&rt, &Fault::Refused(MakeRefused::NoMemory))?);
        }
        Err(error) => {
            error.print(&rt)?;
            return Ok(ExitCode::from(error.exit_code() as u8));
        }
    };
    let size = number(&matches, SIZE);
    let ninodes = number(&matches, INODES);
    let version = version(&matches);
    let line = match matches.get_str(MIGRATE) {
        Some(old) => run_migration(&rt, &matches, old, version, size),
        None => run(&rt, &matches, version, size, ninodes),
    };
    match line {
        Ok(line) => println!(rt; "{line}")?,
        Err(fault) => return Ok(tell(&rt, &fault)?),
    }
    Ok(ExitCode::SUCCESS)
}
