ghost use Rattle.std.specs.Prelude.{◌≡◌, ◌++◌, length, IfOk, OnOk};
ghost use Rattle.xsearch.specs.Answer.{HasOneEach, answer_text as answer_text_of, column_line, column_lines, objective_of, objective_line as objective_line_of, objective_text as objective_text_of, point_text, status_word as status_word_of};

use ip_core::{Model, Name, OutOfMemory, Text, decimal};
use itoa::Buffer;
use std::alloc::Global;
use task_steps::{Answer, Best, Status};

/// The text of an answer: its status, and unless no point is feasible the point and its objective.
pub fn answer_text(alloc: Global, model: &Model, answer: &Answer) -> Result<Text, OutOfMemory>
    requires { HasOneEach model.now answer.now.best }
    ensures { IfOk result (λ text. text ≡
        answer_text_of model.now answer.now.status answer.now.best) }
{
    let mut text = Text::new(alloc);
    match answer.status {
        Status::Optimal => {
            text.extend(b"status optimal\n")?;
            append_point(alloc, &mut text, model, &answer.best)?;
        }
        Status::Infeasible => text.extend(b"status infeasible\n")?,
        Status::StoreLimit => {
            text.extend(b"status storelimit\n")?;
            append_point(alloc, &mut text, model, &answer.best)?;
        }
        Status::WorkLimit => {
            text.extend(b"status worklimit\n")?;
            append_point(alloc, &mut text, model, &answer.best)?;
        }
    }
    Ok(text)
}

/// The word of a status.
pub fn status_word(status: Status) -> &'static [u8]
    ensures { result.now ≡ status_word_of status }
{
    match status {
        Status::Optimal => b"optimal",
        Status::Infeasible => b"infeasible",
        Status::StoreLimit => b"storelimit",
        Status::WorkLimit => b"worklimit",
    }
}

fn append_point(
    alloc: Global,
    text: &mut Text,
    model: &Model,
    best: &Option<Best>,
) -> Result<(), OutOfMemory>
    requires { HasOneEach model.now best.now }
    ensures { OnOk result (text.new ≡ text.old ++ point_text model.now best.now) }
{
    match best {
        None => text.extend(b"objective none\n"),
        Some(best) => {
            text.extend(objective_line(alloc, model, best)?.as_slice())?;
            append_columns(text, model.cols(), best.point.values())
        }
    }
}

/// The line of the objective.
fn objective_line(alloc: Global, model: &Model, best: &Best) -> Result<Text, OutOfMemory>
    ensures { IfOk result (λ line. line ≡ objective_line_of model.now best.now.value) }
{
    let mut line = Text::new(alloc);
    line.extend(b"objective ")?;
    line.extend(objective_text(alloc, model, best)?.as_slice())?;
    line.push(b'\n')?;
    Ok(line)
}

/// The objective of a point, with the decimals of the model.
pub fn objective_text(alloc: Global, model: &Model, best: &Best) -> Result<Text, OutOfMemory>
    ensures { IfOk result (λ text. text ≡ objective_text_of model.now best.now.value) }
{
    let decimals = model.parts().decimals;
    decimal::text(alloc, objective(model, best), decimals)
}

/// The objective of a point: with the constant, and negated where the model maximises.
fn objective(model: &Model, best: &Best) -> i128
    ensures { result ≡ objective_of model.now best.now.value }
{
    let sum = i128::from(best.value) + i128::from(model.constant());
    if model.maximise() { -sum } else { sum }
}

fn append_columns(text: &mut Text, cols: &[Name], values: &[i64]) -> Result<(), OutOfMemory>
    requires { length values.now ≡ length cols.now }
    ensures { OnOk result (text.new ≡ text.old ++ column_lines cols.now values.now) }
{
    for j in 0..cols.len() {
        append_column(text, &cols[j], values[j])?;
    }
    Ok(())
}

fn append_column(text: &mut Text, name: &Name, value: i64) -> Result<(), OutOfMemory>
    ensures { OnOk result (text.new ≡ text.old ++ column_line name.now value) }
{
    text.extend(name.text().as_slice())?;
    text.extend(b" = ")?;
    text.extend(Buffer::new().format(value).as_bytes())?;
    text.push(b'\n')
}
