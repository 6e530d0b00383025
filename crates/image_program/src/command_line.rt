//! The command line.
use clap::{Arg, ArgAction, ArgMatches, Command, Error};
use std::alloc::{AllocError, Global};

// What the program is called, whatever its file is.
const NAME: &str = "image";

const RELEASE: &str = "0.1, for images of version 1, xv6's, and version 2";

const AFTER_HELP: &str = "\
An image is examined first, and never written. PATH begins at its root, with a / or without.

Status: 0 done; 1 the image is damaged, or has nothing of that name, or a file fails; 2 a wrong command line; 3 no memory.
More is in docs/IMAGE.md.";

/// The tree's names.
pub const LIST: &str = "list";

/// A file's bytes.
pub const GET: &str = "get";

/// What blocks and inodes are used for.
pub const USAGE: &str = "usage";

/// The fields of a part.
pub const DUMP: &str = "dump";

/// Which part.
pub const PART: &str = "part";

/// Of which inode.
pub const NUMBER: &str = "number";

/// The image.
pub const IMAGE: &str = "image";

/// A path in the image.
pub const PATH: &str = "path";

/// The host's file that is written.
pub const FILE: &str = "file";

/// Lines with more than a path.
pub const LONG: &str = "long";

fn positional<'a>(alloc: Global, id: &'a str, name: &'a str, help: &'a str) -> Arg<'a> {
    Arg::new(alloc, id)
        .action(ArgAction::Set)
        .value_name(name)
        .help(help)
}

fn image<'a>(alloc: Global) -> Arg<'a> {
    positional(alloc, IMAGE, "IMAGE", "The file of the image").required(true)
}

fn long<'a>(alloc: Global) -> Arg<'a> {
    Arg::new(alloc, LONG)
        .long(LONG)
        .action(ArgAction::SetTrue)
        .help("Before each path: type, links, size in bytes and inode number")
}

fn list<'a>(alloc: Global) -> Result<Command<'a>, AllocError> {
    Command::new(alloc, LIST)
        .about("Prints a line for each name of the tree, or of what is at PATH and below it")
        .arg(image(alloc))?
        .arg(positional(
            alloc,
            PATH,
            "PATH",
            "Where to begin; the root if there is none",
        ))?
        .arg(long(alloc))
}

fn get<'a>(alloc: Global) -> Result<Command<'a>, AllocError> {
    Command::new(alloc, GET)
        .about("Writes a file's bytes to standard output, or to a new FILE")
        .arg(image(alloc))?
        .arg(positional(alloc, PATH, "PATH", "The file in the image").required(true))?
        .arg(positional(
            alloc,
            FILE,
            "FILE",
            "The file to make; one that is there is not replaced",
        ))
}

fn usage<'a>(alloc: Global) -> Result<Command<'a>, AllocError> {
    Command::new(alloc, USAGE)
        .about("Counts the blocks and inodes that are used, held, lost and free")
        .arg(image(alloc))
}

fn dump<'a>(alloc: Global) -> Result<Command<'a>, AllocError> {
    Command::new(alloc, DUMP)
        .about(
            "Prints the fields of the superblock, of the log, of an inode, or a directory's slots",
        )
        .arg(image(alloc))?
        .arg(positional(alloc, PART, "PART", "superblock, log, inode or directory").required(true))?
        .arg(positional(alloc, NUMBER, "NUMBER", "Of which inode or directory").value_parser(
            clap::value_parser!(u32),
        ))
}

fn command<'a>(alloc: Global) -> Result<Command<'a>, AllocError> {
    Command::new(alloc, NAME)
        .about("Looks into an image of a file system, and writes nothing to it")
        .version(RELEASE)
        .after_help(AFTER_HELP)
        .subcommand_required(true)
        .arg_required_else_help(true)
        .disable_help_subcommand(true)
        .bin_name(NAME)?
        .subcommand(list(alloc)?)?
        .subcommand(get(alloc)?)?
        .subcommand(usage(alloc)?)?
        .subcommand(dump(alloc)?)
}

/// Reads a command line, the program's name first.
pub fn options<'a>(alloc: Global, words: &'a [String]) -> Result<ArgMatches<'a>, Error> {
    let mut command = command(alloc)?;
    command.try_get_matches_from_mut(words)
}
