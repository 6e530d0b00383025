//! The command line.
ghost use Rattle.std.specs.Prelude.{◌≡◌, codes, false, map, option_map, string_bytes, IfOk, Some};
ghost use Rattle.script.specs.Vocabulary.{app_of, fault_of, found_of, matches_of, one_text, rows_of, rule_of, FailsBy};
ghost use Rattle.script.specs.Modes.{schedule_named, HasMode, IsFlag, IsNumber};
ghost use Rattle.script.specs.Options.{check_rule, console_app, console_line, explain_rule, image_rule, last_rule, printing_app, prompt_rule, prompted_app, running_app, save_rule, schedule_rule, scheduled_app, threads_rule, timeline_rule};

use crate::mode::{Mode, Schedule};
use clap::{Arg, ArgAction, ArgMatches, Command, Error};
use std::alloc::{AllocError, Global};

// What the program is called, whatever its file is.
const NAME: &str = "console";

const VERSION: &str = "0.1, for images of version 1, xv6's, and version 2";

// The script's grammar, the statuses, and the files that say more.
const AFTER_HELP: &str = "\
The script, from standard input, is lines of words parted by single spaces; a line that begins with # is a comment:
  H CALL starts a call on hart H (0 to 7): open PATH FLAGS, read FD N, write FD BYTES, fill FD N,
    link OLD NEW, unlink PATH, mkdir PATH, chdir PATH, dup FD, fstat FD, close FD, inherit CHILD
  step H N, upto H KIND N, end H: N steps of it, steps up to the Nth of a kind, steps to its end
  KIND is lock, unlock, get, read, put, join, leave, commit, up, down, slot or reply
  do H CALL: starts a call and runs it to its end    all: steps of all harts, in turn
  FLAGS 0 reads, 1 writes, 2 both, 0x200 makes, 0x400 empties; \"\" is no byte, hex:2f61 is /a.

Status: 0 the script came to its end; 1 the image is refused, or a file fails; 2 a wrong command
line, or a bad line; 3 a call was stopped, or memory was refused.
More is in docs/SCRIPT.md (scripts, answers), docs/CALLS.md (calls, numbers), docs/FORMATS.md (images).";

/// The file with the image, in the command line's words.
pub const IMAGE: &str = "image";

/// The image is examined, and no script is run.
pub const CHECK: &str = "check";

/// In which order the lines are run.
pub const SCHEDULE: &str = "schedule";

/// Each hart has a thread.
pub const THREADS: &str = "threads";

/// Lines are typed, and each is answered before the next is read.
pub const PROMPT: &str = "prompt";

/// How many of the last events are printed.
pub const LAST: &str = "last";

/// All events are printed.
pub const TIMELINE: &str = "timeline";

/// A history of the answers is printed.
pub const EXPLAIN: &str = "explain";

/// The file that the image is written to after the script.
pub const SAVE: &str = "save";

// The command, with its name in usage.
fn named<'a>(alloc: Global) -> Result<Command<'a>, AllocError>
    ensures { IfOk result (λ command. app_of command ≡ console_app) }
{
    Command::new(alloc, NAME)
        .about("Runs a script of calls, read from standard input, on a file system")
        .version(VERSION)
        .after_help(AFTER_HELP)
        .bin_name(NAME)
}

fn image<'a>(alloc: Global) -> Arg<'a>
    ensures rule { rule_of result ≡ image_rule }
    ensures local { result.global ≡ false }
{
    Arg::new(alloc, IMAGE)
        .action(ArgAction::Set)
        .value_name("IMAGE")
        .help("The file with the image; without it a fresh image is made in memory")
}

fn check<'a>(alloc: Global) -> Arg<'a>
    ensures rule { rule_of result ≡ check_rule }
    ensures local { result.global ≡ false }
{
    Arg::new(alloc, CHECK)
        .long(CHECK)
        .action(ArgAction::SetTrue)
        .help("Examines the image, and runs no script")
}

fn save<'a>(alloc: Global) -> Arg<'a>
    ensures rule { rule_of result ≡ save_rule }
    ensures local { result.global ≡ false }
{
    Arg::new(alloc, SAVE)
        .long(SAVE)
        .action(ArgAction::Set)
        .value_name("FILE")
        .help("The file that the image is written to after the script")
}

fn schedule<'a>(alloc: Global) -> Arg<'a>
    ensures rule { rule_of result ≡ schedule_rule }
    ensures local { result.global ≡ false }
{
    Arg::new(alloc, SCHEDULE)
        .long(SCHEDULE)
        .action(ArgAction::Set)
        .value_name("SCHEDULE")
        .help("How lines are run: listed, in their order, or round, by harts that take turns")
}

fn threads<'a>(alloc: Global) -> Arg<'a>
    ensures rule { rule_of result ≡ threads_rule }
    ensures local { result.global ≡ false }
{
    Arg::new(alloc, THREADS)
        .long(THREADS)
        .action(ArgAction::SetTrue)
        .help("Runs each hart's lines by a thread of its own, in no schedule")
}

fn prompt<'a>(alloc: Global) -> Arg<'a>
    ensures rule { rule_of result ≡ prompt_rule }
    ensures local { result.global ≡ false }
{
    Arg::new(alloc, PROMPT)
        .long(PROMPT)
        .action(ArgAction::SetTrue)
        .help("Answers each line when it is typed; the line help tells which there are")
}

fn last<'a>(alloc: Global) -> Arg<'a>
    ensures rule { rule_of result ≡ last_rule }
    ensures local { result.global ≡ false }
{
    Arg::new(alloc, LAST)
        .long(LAST)
        .value_name("N")
        .value_parser(clap::value_parser!(u32))
        .default_value("0")
        .help("Prints the last N events")
}

fn timeline<'a>(alloc: Global) -> Arg<'a>
    ensures rule { rule_of result ≡ timeline_rule }
    ensures local { result.global ≡ false }
{
    Arg::new(alloc, TIMELINE)
        .long(TIMELINE)
        .action(ArgAction::SetTrue)
        .help("Prints all events, each in its hart's column")
}

fn explain<'a>(alloc: Global) -> Arg<'a>
    ensures rule { rule_of result ≡ explain_rule }
    ensures local { result.global ≡ false }
{
    Arg::new(alloc, EXPLAIN)
        .long(EXPLAIN)
        .action(ArgAction::SetTrue)
        .help("Prints the steps, one after the other, that explain the answers")
}

// With what is run, and in which order.
fn scheduled<'a>(alloc: Global) -> Result<Command<'a>, AllocError>
    ensures { IfOk result (λ command. app_of command ≡ scheduled_app) }
{
    let named = named(alloc)?;
    named.arg(image(alloc))?.arg(schedule(alloc))
}

// And when.
fn prompted<'a>(alloc: Global) -> Result<Command<'a>, AllocError>
    ensures { IfOk result (λ command. app_of command ≡ prompted_app) }
{
    let scheduled = scheduled(alloc)?;
    scheduled.arg(prompt(alloc))
}

// And how.
fn running<'a>(alloc: Global) -> Result<Command<'a>, AllocError>
    ensures { IfOk result (λ command. app_of command ≡ running_app) }
{
    let prompted = prompted(alloc)?;
    prompted.arg(threads(alloc))?.arg(last(alloc))
}

// And with what is printed after all answers.
fn printing<'a>(alloc: Global) -> Result<Command<'a>, AllocError>
    ensures { IfOk result (λ command. app_of command ≡ printing_app) }
{
    let running = running(alloc)?;
    running.arg(timeline(alloc))?.arg(explain(alloc))
}

fn command<'a>(alloc: Global) -> Result<Command<'a>, AllocError>
    ensures { IfOk result (λ command. app_of command ≡ console_line) }
{
    let printing = printing(alloc)?;
    printing.arg(check(alloc))?.arg(save(alloc))
}

// The schedule of this name; the first one if none is named.
fn schedule_of(name: Option<&str>) -> Option<Schedule>
    ensures { result ≡ schedule_named (option_map (λ s. s.now) name.entry) }
{
    match name {
        None => Some(Schedule::Listed),
        Some(name) => schedule_named(name),
    }
}

fn schedule_named(name: &str) -> Option<Schedule>
    ensures { result ≡ schedule_named (Some name.now) }
{
    if name == "listed" {
        Some(Schedule::Listed)
    } else if name == "round" {
        Some(Schedule::Round)
    } else {
        None
    }
}

// How many of the last events are printed.
fn last_in(matches: &ArgMatches) -> u32
    ensures { IsNumber (one_text (found_of matches.now) (codes "last")) result }
{
    let last = matches.get_one::<u32>(LAST);
    last.unwrap_or(0)
}

// Whether this flag is given.
fn flag_in(matches: &ArgMatches, id: &str) -> bool
    ensures { IsFlag (one_text (found_of matches.now) id.now) result }
{
    matches.get_flag(id)
}

/// How the console must run; none if there is no schedule of the name that is given.
pub fn mode_of(matches: &ArgMatches) -> Option<Mode>
    ensures { HasMode (found_of matches.now) result }
{
    let schedule = schedule_of(matches.get_str(SCHEDULE))?;
    let last = last_in(matches);
    let (timeline, explain) = (flag_in(matches, TIMELINE), flag_in(matches, EXPLAIN));
    let check = flag_in(matches, CHECK);
    Some(Mode {
        schedule,
        last,
        timeline,
        explain,
        check,
    })
}

/// Whether each hart has a thread.
pub fn has_threads(matches: &ArgMatches) -> bool
    ensures { IsFlag (one_text (found_of matches.now) (codes "threads")) result }
{
    flag_in(matches, THREADS)
}

/// Whether lines are typed at a prompt.
pub fn has_prompt(matches: &ArgMatches) -> bool
    ensures { IsFlag (one_text (found_of matches.now) (codes "prompt")) result }
{
    flag_in(matches, PROMPT)
}

/// Reads a command line, the program's name first. After an `Ok` the values are those that the words give. An error
/// has one of the kinds that the words call for, or memory was refused.
pub fn options<'a>(alloc: Global, words: &'a [String]) -> Result<ArgMatches<'a>, Error>
    ensures values { IfOk result (λ matches. rows_of (found_of matches) ≡ matches_of console_line (map string_bytes words.entry.now)) }
    ensures kinds { FailsBy (fault_of console_line (map string_bytes words.entry.now)) result }
{
    let command = command(alloc)?;
    command.try_get_matches_from(words)
}
