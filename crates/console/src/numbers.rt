//! The numbers, names and words under which refused starts, stops and steps are printed.
ghost use Rattle.std.specs.Prelude.{◌≡◌, ◌<◌};
ghost use Rattle.console.specs.Vocabulary.{kind_word};
ghost use Rattle.console.specs.Numbers.{kind_place, start_name, start_number, stop_name, stop_number};

use fs_machine::Kind;
use hart_core::{StartRefused, Stop};

/// The number of a refused start.
pub fn start_number(refused: StartRefused) -> u8
    ensures { result ≡ start_number refused }
{
    refused as u8
}

/// The name of a refused start.
pub fn start_name(refused: StartRefused) -> &'static str
    ensures { result.now ≡ start_name refused }
{
    match refused {
        StartRefused::Busy => "Busy",
        StartRefused::PathTooLong => "PathTooLong",
        StartRefused::ZeroInPath => "ZeroInPath",
        StartRefused::TooLong => "TooLong",
        StartRefused::NoSuchHart => "NoSuchHart",
        StartRefused::NotEmptyHart => "NotEmptyHart",
    }
}

/// The number of a stop.
pub fn stop_number(stop: Stop) -> u8
    ensures { result ≡ stop_number stop }
{
    stop as u8
}

/// The name of a stop.
pub fn stop_name(stop: Stop) -> &'static str
    ensures { result.now ≡ stop_name stop }
{
    match stop {
        Stop::DeviceFault => "DeviceFault",
        Stop::Halted => "Halted",
    }
}

/// The word of a kind of step, as docs/CALLS.md has it.
pub fn kind_word(kind: Kind) -> &'static str
    ensures { result.now ≡ kind_word kind }
{
    match kind {
        Kind::Lock => "lock",
        Kind::Unlock => "unlock",
        Kind::Get => "get",
        Kind::Read => "read",
        Kind::Put => "put",
        Kind::Join => "join",
        Kind::Leave => "leave",
        Kind::Commit => "commit",
        Kind::Up => "up",
        Kind::Down => "down",
        Kind::Slot => "slot",
        Kind::Reply => "reply",
    }
}

/// How many kinds of step there are.
pub const KINDS: usize = 12;

/// The place of a kind among them.
pub fn kind_place(kind: Kind) -> usize
    ensures place { result ≡ kind_place kind }
    ensures within { result < KINDS }
{
    kind as usize
}
