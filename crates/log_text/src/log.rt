ghost use Rattle.std.specs.Prelude.{◌≡◌, ◌++◌, IfOk, OnOk};
ghost use Rattle.log_text.specs.Logs.{end_line, end_lines, limits_text, log_text as log_text_of, switch_word as switch_word_of, switches_text};

use entry_text::{append_entries, append_number};
use ip_core::{OutOfMemory, Text};
use node_pool::SearchSettings;
use stamp_machine::{History, Limits};
use std::alloc::Global;

/// The log of a search with these limits and settings, which left this history and ended with the
/// status of this word.
///
/// It has the line `xsearch log 1`, a line of limits and settings, a line for each entry in order,
/// a line for each slot with the clock at which it ended, and a line of the status.
pub fn log_text(
    alloc: Global,
    limits: &Limits,
    settings: SearchSettings,
    history: &History,
    status: &[u8],
) -> Result<Text, OutOfMemory>
    ensures { IfOk result (λ text. text ≡
        log_text_of limits.now settings history.now status.now) }
{
    let mut text = Text::new(alloc);
    text.extend(b"xsearch log 1\n")?;
    append_limits(&mut text, limits)?;
    append_switches(&mut text, settings)?;
    text.push(b'\n')?;
    append_entries(&mut text, history.entries.as_slice())?;
    append_ends(&mut text, history.ends.as_slice())?;
    text.extend(b"status ")?;
    text.extend(status)?;
    text.push(b'\n')?;
    Ok(text)
}

fn append_limits(text: &mut Text, limits: &Limits) -> Result<(), OutOfMemory>
    ensures { OnOk result (text.new ≡ text.old ++ limits_text limits.now) }
{
    text.extend(b"tasks")?;
    append_number(text, u64::from(limits.slots))?;
    text.extend(b" work")?;
    append_number(text, limits.work)?;
    text.extend(b" store")?;
    append_number(text, u64::from(limits.store))
}

fn append_switches(text: &mut Text, settings: SearchSettings) -> Result<(), OutOfMemory>
    ensures { OnOk result (text.new ≡ text.old ++ switches_text settings) }
{
    text.extend(b" cuts ")?;
    text.extend(switch_word(settings.cuts))?;
    text.extend(b" heuristics ")?;
    text.extend(switch_word(settings.heuristics))
}

fn switch_word(is_on: bool) -> &'static [u8]
    ensures { result.now ≡ switch_word_of is_on }
{
    match is_on {
        true => b"yes",
        false => b"no",
    }
}

fn append_ends(text: &mut Text, ends: &[u64]) -> Result<(), OutOfMemory>
    ensures { OnOk result (text.new ≡ text.old ++ end_lines 0 ends.now) }
{
    for (slot, clock) in ends.iter().enumerate() {
        append_end(text, slot as u64, *clock)?;
    }
    Ok(())
}

fn append_end(text: &mut Text, slot: u64, clock: u64) -> Result<(), OutOfMemory>
    ensures { OnOk result (text.new ≡ text.old ++ end_line slot clock) }
{
    text.extend(b"end")?;
    append_number(text, slot)?;
    append_number(text, clock)?;
    text.push(b'\n')
}
