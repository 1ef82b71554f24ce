ghost use Rattle.std.specs.Prelude.{◌≡◌, ◌++◌, IfOk, OnOk};
ghost use Rattle.std.specs.Fmt.{decimal};
ghost use Rattle.xsearch.specs.Summaries.{best_text as best_text_of, summary_text as summary_text_of};

use crate::answer::{objective_text, status_word};
use ip_core::{Model, OutOfMemory, Text};
use itoa::Buffer;
use std::alloc::Global;
use task_steps::{Answer, Best};

/// The line that sums up the search of the sample model of a number: the status, the objective of
/// the best point, and the number of entries of the history.
pub fn summary_text(
    alloc: Global,
    number: u64,
    model: &Model,
    answer: &Answer,
    entries: u64,
) -> Result<Text, OutOfMemory>
    ensures { IfOk result (λ text. text ≡ summary_text_of number model.now answer.now entries) }
{
    let mut text = Text::new(alloc);
    text.extend(b"sample ")?;
    append_count(&mut text, number)?;
    text.extend(b" status ")?;
    text.extend(status_word(answer.status))?;
    text.extend(b" objective ")?;
    append_best(alloc, &mut text, model, &answer.best)?;
    text.extend(b" entries ")?;
    append_count(&mut text, entries)?;
    text.push(b'\n')?;
    Ok(text)
}

/// Appends the objective of a point, or that there is none.
fn append_best(
    alloc: Global,
    text: &mut Text,
    model: &Model,
    best: &Option<Best>,
) -> Result<(), OutOfMemory>
    ensures { OnOk result (text.new ≡ text.old ++ best_text_of model.now best.now) }
{
    match best {
        None => text.extend(b"none"),
        Some(best) => text.extend(objective_text(alloc, model, best)?.as_slice()),
    }
}

fn append_count(text: &mut Text, count: u64) -> Result<(), OutOfMemory>
    ensures { OnOk result (text.new ≡ text.old ++ decimal count) }
{
    text.extend(Buffer::new().format(count).as_bytes())
}
