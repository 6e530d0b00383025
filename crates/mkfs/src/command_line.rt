//! The command line.
ghost use Rattle.std.specs.Prelude.{◌≡◌, codes, false, map, string_bytes, IfOk};
ghost use Rattle.mkfs.specs.Vocabulary.{app_of, fault_of, found_of, matches_of, rows_of, rule_of, FailsBy};
ghost use Rattle.mkfs.specs.Options.{about_rule, files_rule, force_rule, image_rule, migrate_rule, mkfs_app, mkfs_line, number_in, number_rule, sized_app, version_rule, versioned_app, HasNumber, HasVersion};

use clap::{Arg, ArgAction, ArgMatches, Command, Error};
use image_versions::Version;
use std::alloc::{AllocError, Global};

// What the program is called, whatever its file is.
const NAME: &str = "mkfs";

// The program's own version. The word "version" means that of the image.
const RELEASE: &str = "0.1, for images of version 1, xv6's, and version 2";

// What an image can hold, the statuses, and the files that say more.
const AFTER_HELP: &str = "\
Limits:
  --size     up to 8191 blocks of 1024 bytes, into which the files and what comes before them fit
  --inodes   2 to 65535, inode 0 and the root's among them
  FILE       up to 274432 bytes
  its name   1 to 14 bytes behind the last /, in version 2 up to 30, neither . nor .., and no name twice
  all FILEs  up to 17150, in version 2 up to 8574, and no more than inodes but two

Status: 0 the image is written; 1 it can't be made, or a file fails; 2 a wrong command line.
More is in docs/MKFS.md (causes, faults), docs/FORMATS.md (images).";

/// How many blocks an image has, in the command line's words.
pub const SIZE: &str = "size";

/// How many inodes it has.
pub const INODES: &str = "inodes";

/// Of which version it is.
pub const VERSION: &str = "version";

/// The image that is migrated.
pub const MIGRATE: &str = "migrate";

// The program's own version is printed.
const ABOUT: &str = "about";

/// A file that is no image is replaced too.
pub const FORCE: &str = "force";

/// The file that the image is written to.
pub const IMAGE: &str = "image";

/// The files that are put into its root.
pub const FILES: &str = "files";

// An option with a number and a default.
fn option<'a>(alloc: Global, id: &'a str, default: &'a str, help: &'a str) -> Arg<'a>
    ensures rule { rule_of result ≡ number_rule id.entry.now default.entry.now }
    ensures local { result.global ≡ false }
{
    Arg::new(alloc, id)
        .long(id)
        .value_name("N")
        .value_parser(clap::value_parser!(u32))
        .default_value(default)
        .help(help)
}

// Of which version the image is.
fn version_option<'a>(alloc: Global) -> Arg<'a>
    ensures rule { rule_of result ≡ version_rule }
    ensures local { result.global ≡ false }
{
    Arg::new(alloc, VERSION)
        .long(VERSION)
        .value_name("N")
        .value_parser(clap::value_parser!(u32).range(1..=2))
        .default_value("1")
        .help("Of which version the image is: 1 is xv6's, 2 has longer names")
}

// The image to migrate.
fn migrate_option<'a>(alloc: Global) -> Arg<'a>
    ensures rule { rule_of result ≡ migrate_rule }
    ensures local { result.global ≡ false }
{
    Arg::new(alloc, MIGRATE)
        .long(MIGRATE)
        .value_name("OLD")
        .help(
            "Migrate this image: IMAGE gets its tree, in version 2 and of its size where none is given",
        )
}

// The file in the image's place may be anything.
fn force<'a>(alloc: Global) -> Arg<'a>
    ensures rule { rule_of result ≡ force_rule }
    ensures local { result.global ≡ false }
{
    Arg::new(alloc, FORCE)
        .long(FORCE)
        .action(ArgAction::SetTrue)
        .help("Replace also a file that is no image")
}

// What the program is.
fn about<'a>(alloc: Global) -> Arg<'a>
    ensures rule { rule_of result ≡ about_rule }
    ensures local { result.global ≡ false }
{
    Arg::new(alloc, ABOUT)
        .short('V')
        .long(ABOUT)
        .action(ArgAction::Version)
        .help("Print the program's own version")
}

// The file to write.
fn image<'a>(alloc: Global) -> Arg<'a>
    ensures rule { rule_of result ≡ image_rule }
    ensures local { result.global ≡ false }
{
    Arg::new(alloc, IMAGE)
        .required(true)
        .action(ArgAction::Set)
        .value_name("IMAGE")
        .help("The file to write")
}

// The files to put into it.
fn files<'a>(alloc: Global) -> Arg<'a>
    ensures rule { rule_of result ≡ files_rule }
    ensures local { result.global ≡ false }
{
    Arg::new(alloc, FILES)
        .num_args(0..)
        .value_name("FILE")
        .help("Files to put into the image's root")
}

// The command, with its name in usage.
fn named<'a>(alloc: Global) -> Result<Command<'a>, AllocError>
    ensures { IfOk result (λ command. app_of command ≡ mkfs_app) }
{
    Command::new(alloc, NAME)
        .about("Makes an image of a file system")
        .version(RELEASE)
        .disable_version_flag(true)
        .after_help(AFTER_HELP)
        .bin_name(NAME)
}

// With the image and its sizes.
fn sized<'a>(alloc: Global) -> Result<Command<'a>, AllocError>
    ensures { IfOk result (λ command. app_of command ≡ sized_app) }
{
    let named = named(alloc)?;
    named
        .arg(image(alloc))?
        .arg(option(alloc, SIZE, "2000", "How many blocks the image has"))?
        .arg(option(alloc, INODES, "200", "How many inodes it has"))
}

// And how it is made.
fn versioned<'a>(alloc: Global) -> Result<Command<'a>, AllocError>
    ensures { IfOk result (λ command. app_of command ≡ versioned_app) }
{
    let sized = sized(alloc)?;
    sized
        .arg(version_option(alloc))?
        .arg(migrate_option(alloc))?
        .arg(force(alloc))
}

fn command<'a>(alloc: Global) -> Result<Command<'a>, AllocError>
    ensures { IfOk result (λ command. app_of command ≡ mkfs_line) }
{
    let versioned = versioned(alloc)?;
    versioned.arg(about(alloc))?.arg(files(alloc))
}

/// Reads a command line, the program's name first. After an `Ok` the values are those that the words give. The
/// numbers are there, and that of the version is one that there is. An error has one of the kinds that the words call
/// for, or memory was refused.
pub fn options<'a>(alloc: Global, words: &'a [String]) -> Result<ArgMatches<'a>, Error>
    ensures numbers { IfOk result (λ matches. HasNumber matches (codes "size") × HasNumber matches (codes "inodes") × HasVersion matches) }
    ensures values { IfOk result (λ matches. rows_of (found_of matches) ≡ matches_of mkfs_line (map string_bytes words.entry.now)) }
    ensures kinds { FailsBy (fault_of mkfs_line (map string_bytes words.entry.now)) result }
{
    let mut command = command(alloc)?;
    command.try_get_matches_from_mut(words)
}

/// The number that an option has.
pub fn number(matches: &ArgMatches, id: &str) -> u32
    requires { HasNumber matches.now id.now }
    ensures { (h : HasNumber matches.now id.now) → result ≡ number_in h.text }
{
    matches.get_one::<u32>(id).unwrap()
}

/// The version of the image to make.
pub fn version(matches: &ArgMatches) -> Version
    requires { HasVersion matches.now }
    ensures { (h : HasVersion matches.now) → result ≡ h.version }
{
    Version::of_number(number(matches, VERSION)).unwrap()
}
