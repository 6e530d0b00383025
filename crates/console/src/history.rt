//! The history of a run, as it is printed.
ghost use Rattle.std.specs.Prelude.{◌++◌, OnOk, codes, decimal};
ghost use Rattle.console.specs.Vocabulary.{Appends};
ghost use Rattle.console.specs.Histories.{TellsHistory, TellsWhy, entries_text, history_kept, history_on, why_line};
ghost use Rattle.console.specs.Behaviours.{IsWritten};
ghost use Rattle.console.specs.Notes.{run_in};

use crate::fault::ConsoleFault;
use crate::notes::Notes;
use explain::{ExplainRefused, Keeper, explain, explain_noted};
use plain_tree::Placed;
use script::write_entry;
use std::alloc::Global;
use std::io;
use std::io::Write;

/// Prints the list of tree steps that the keeper kept, a line a step; or why it isn't handed out. The keeper noted the events of the run
/// that is kept as they were made, and its end.
pub fn write_history<W: Write>(
    out: &mut W,
    notes: &Notes,
    keeper: Keeper,
) -> Result<(), ConsoleFault>
    ensures { TellsHistory (history_kept keeper) (run_in notes.now.kept) result (W.contents out.old) (W.contents out.new) }
{
    match explain_noted(notes.kept_events(), notes.kept_outcomes(), keeper) {
        Ok(list) => tell_list(out, list.as_slice()),
        Err(why) => tell_why(out, why),
    }
}

/// Prints a list of tree steps that explains what the events that are kept show of calls on this image, or why there is none. The events
/// are run once more, on a copy of the image in memory.
pub fn write_history_on<W: Write>(
    alloc: Global,
    out: &mut W,
    image: &[u8],
    notes: &Notes,
) -> Result<(), ConsoleFault>
    ensures { TellsHistory (history_on image.now) (run_in notes.now.kept) result (W.contents out.old) (W.contents out.new) }
{
    match explain(alloc, image, notes.kept_events()) {
        Ok(list) => tell_list(out, list.as_slice()),
        Err(why) => tell_why(out, why),
    }
}

fn tell_list<W: Write>(out: &mut W, list: &[Placed]) -> Result<(), ConsoleFault>
    ensures written { IsWritten result }
    ensures prints { OnOk result (Appends (W.contents out.old) (W.contents out.new) (entries_text list.now)) }
{
    write_entries(out, list).map_err(ConsoleFault::Write)
}

// A line an entry, in their order.
fn write_entries<W: Write>(out: &mut W, entries: &[Placed]) -> io::Result<()>
    ensures { OnOk result (Appends (W.contents out.old) (W.contents out.new) (entries_text entries.now)) }
{
    for entry in entries {
        write_entry(out, entry)?;
    }
    Ok(())
}

// Why there is no list. Want of memory is a fault, and has no line.
fn tell_why<W: Write>(out: &mut W, why: ExplainRefused) -> Result<(), ConsoleFault>
    ensures { TellsWhy why result (W.contents out.old) (W.contents out.new) }
{
    match why {
        ExplainRefused::NoMemory => Err(ConsoleFault::Memory),
        why => write_why(out, why),
    }
}

fn write_why<W: Write>(out: &mut W, why: ExplainRefused) -> Result<(), ConsoleFault>
    ensures written { IsWritten result }
    ensures prints { OnOk result (Appends (W.contents out.old) (W.contents out.new) (why_line why)) }
{
    write_refused(out, why.number(), why.name()).map_err(ConsoleFault::Write)
}

fn write_refused<W: Write>(out: &mut W, number: u8, name: &str) -> io::Result<()>
    ensures { OnOk result (Appends (W.contents out.old) (W.contents out.new)
        (codes "history refused " ++ decimal number ++ codes " " ++ name.now ++ codes "\n")) }
{
    write!(out, "history refused {number} {name}")?;
    writeln!(out)
}
