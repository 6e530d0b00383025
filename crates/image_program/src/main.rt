//! `image list IMAGE [PATH] [--long]`: a line for each name of the image's tree.
//! `image get IMAGE PATH [FILE]`: a file's bytes.
//! `image usage IMAGE`: what its blocks and inodes are used for.
//! `image dump IMAGE PART [NUMBER]`: the fields of a part.
//!
//! It looks into an image, and never writes to one. Faults are reported in this order:
//! - the command line (status 2);
//! - an IMAGE that can't be read or isn't taken (status 1);
//! - a path that isn't there, and what can't be written (status 1).
//!
//! Want of memory is reported when it comes (status 3).
#![tactic(auto)]

mod command_line;
mod fault;
mod new_file;
mod part;

use crate::command_line::{DUMP, FILE, GET, IMAGE, LIST, LONG, NUMBER, PATH, USAGE, options};
use crate::fault::Fault;
use crate::new_file::write_new;
use crate::part::{dump, part_in};
use clap::ArgMatches;
use clap::error::ErrorKind;
use damage_places::find_place_in;
use image_reports::{content_at, get, list, path_in, write_usage};
use mkfs::{read_image, read_words};
use std::alloc::Global;
use std::io;
use std::io::{BufWriter, Write};
use std::process::ExitCode;

// The fault, with the place at which the image is damaged, if that is why it isn't taken.
fn with_place<'a>(alloc: Global, fault: Fault<'a>, image: Option<Vec<u8>>) -> Fault<'a> {
    match (fault, image) {
        (Fault::Refused(name, refused), Some(image)) => match find_place_in(alloc, image) {
            Ok(Some(place)) => Fault::Damaged(name, refused, place),
            _ => Fault::Refused(name, refused),
        },
        (fault, _) => fault,
    }
}

// The path that the words have, as they write it; the root's, if they have none.
fn path_word<'a>(name: &str, matches: &ArgMatches<'a>) -> &'a str {
    if name == USAGE || name == DUMP {
        return "/";
    }
    matches.get_str(PATH).unwrap_or("/")
}

// The path that this word says.
fn path_bytes<'a>(alloc: Global, word: &'a str) -> Result<Vec<u8>, Fault<'a>> {
    match path_in(alloc, word.as_bytes())? {
        Some(path) => Ok(path),
        None => Err(Fault::NoDigits(word)),
    }
}

// Writes the file's bytes to a new file of the host.
fn get_into<'a>(
    rt: &HostRuntime,
    matches: &ArgMatches<'a>,
    image: Vec<u8>,
    path: &[u8],
    new: &'a str,
) -> Result<(), Fault<'a>> {
    let file = matches.get_str(IMAGE).unwrap_or("");
    let word = path_word(GET, matches);
    let content = content_at(rt.alloc(), image, path).map_err(|fault| Fault::of_report(
        file, word, fault,
    ))?;
    write_new(rt, new, content.as_slice()).map_err(|error| Fault::of_file(new, error))
}

// Writes the report that the words ask for.
fn report<'a, W: Write>(
    alloc: Global,
    name: &str,
    matches: &ArgMatches<'a>,
    image: Vec<u8>,
    path: &[u8],
    out: &mut W,
) -> Result<(), Fault<'a>> {
    let file = matches.get_str(IMAGE).unwrap_or("");
    if name == USAGE {
        return write_usage(alloc, image, out).map_err(|fault| Fault::of_report(file, "", fault));
    }
    if name == DUMP {
        let word = matches.get_str(NUMBER).unwrap_or("");
        let done = dump(alloc, image, part_in(matches)?, out);
        return done.map_err(|fault| Fault::of_report(file, word, fault));
    }
    let word = path_word(name, matches);
    let done = if name == LIST {
        list(alloc, image, path, matches.get_flag(LONG), out)
    } else {
        get(alloc, image, path, out)
    };
    done.map_err(|fault| Fault::of_report(file, word, fault))
}

// The host's file that is to be made, if one is.
fn file_to_make<'a>(name: &str, matches: &ArgMatches<'a>) -> Option<&'a str> {
    if name == GET {
        matches.get_str(FILE)
    } else {
        None
    }
}

// Does what the words ask for with the bytes of an image.
fn serve<'a>(
    rt: &HostRuntime,
    name: &str,
    matches: &ArgMatches<'a>,
    image: Vec<u8>,
    path: &[u8],
) -> Result<(), Fault<'a>> {
    if let Some(new) = file_to_make(name, matches) {
        return get_into(rt, matches, image, path, new);
    }
    let mut out = BufWriter::new(rt.alloc(), io::writer(rt)).map_err(|error| Fault::of_answers(
        error,
    ))?;
    let done = report(rt.alloc(), name, matches, image, path, &mut out);
    out.flush().map_err(|error| Fault::of_answers(error))?;
    done
}

// Reads the image, and does what the words ask for. Of a damaged image the fault says where.
fn run<'a>(rt: &HostRuntime, name: &str, matches: &ArgMatches<'a>) -> Result<(), Fault<'a>> {
    if name == DUMP {
        part_in(matches)?;
    }
    let path = path_bytes(rt.alloc(), path_word(name, matches))?;
    let file = matches.get_str(IMAGE).unwrap_or("");
    let image = read_image(rt, file).map_err(|refused| Fault::of_image(file, refused))?;
    let copy = Vec::from_slice(rt.alloc(), image.bytes.as_slice()).ok();
    match serve(rt, name, matches, image.bytes, path.as_slice()) {
        Ok(()) => Ok(()),
        Err(fault) => Err(with_place(rt.alloc(), fault, copy)),
    }
}

// Says why, in one line.
fn tell(rt: &HostRuntime, fault: &Fault) -> io::Result<ExitCode> {
    eprintln!(rt; "{fault}")?;
    Ok(ExitCode::from(fault.status()))
}

fn main(rt: HostRuntime) -> anyhow::Result<ExitCode> {
    let words = match read_words(&rt) {
        Ok(words) => words,
        Err(refused) => return Ok(tell(&rt, &Fault::of_words(refused))?),
    };
    let matches = match options(rt.alloc(), words.as_slice()) {
        Ok(matches) => matches,
        Err(error) if error.kind() == ErrorKind::OutOfMemory => {
            return Ok(tell(&rt, &Fault::Memory)?);
        }
        Err(error) => {
            error.print(&rt)?;
            return Ok(ExitCode::from(error.exit_code() as u8));
        }
    };
    let Some((name, inner)) = matches.subcommand() else {
        return Ok(ExitCode::from(2));
    };
    match run(&rt, name, inner) {
        Ok(()) => Ok(ExitCode::SUCCESS),
        Err(fault) => Ok(tell(&rt, &fault)?),
    }
}
