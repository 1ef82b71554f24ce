ghost use Rattle.std.specs.Prelude.{◌≡◌, ◌≤◌, ◌+◌, ◌^◌, IfOk};
ghost use Rattle.cut_separate.specs.Laws.{rows_of_cuts};
ghost use Rattle.task_steps.specs.CutTasks.{cut_chunk as cut_chunk_of, cuts_after as cuts_after_of, cutting_chunk as cutting_chunk_of, entries_of_cuts};
ghost use Rattle.task_steps.specs.Fits.{AreFewDerived};

use crate::local::CutTask;
use cut_separate::{NewCut, separate};
use dual_ascent::ascend;
use ip_core::{List, Model, OutOfMemory, Row, term_count};
use std::alloc::Global;
use work_stamp::{Entry, Pulse};

/// What a chunk that looks for cuts gives: its entries, the rows of its cuts, the work that it
/// counts, and how the task goes on.
#[derive(Debug, Drop)]
pub struct CutChunk {
    pub entries: List<Entry>,
    pub cuts: List<Row>,
    pub work: u64,
    pub task: Option<CutTask>,
}

/// New cuts, as entries and as rows.
#[derive(Debug, Drop)]
struct CutLists {
    entries: List<Entry>,
    rows: List<Row>,
}

/// One chunk of a task that looks for cuts: an ascent over the root box with the cuts that there
/// are, and then the cuts that its point and its multipliers give. Where there are none, or this is
/// the eighth chunk, the task ends. The chunk counts 1, the ascent and 16 for each term of the rows
/// and the cuts, and the pulse hears of no more.
pub fn cut_chunk<P: Pulse>(
    alloc: Global,
    model: &Model,
    cuts: &[Row],
    chunks: u32,
    pulse: &mut P,
) -> Result<CutChunk, OutOfMemory>
    requires cuts { AreFewDerived model.now cuts.now }
    requires few { chunks ≤ 8 }
    requires ready { P.IsReady pulse.old }
    requires allowed { (cut_chunk_of model.now cuts.now chunks).work ≤ P.allowance pulse.old }
    ensures value { IfOk result (λ chunk. chunk ≡ cut_chunk_of model.now cuts.now chunks) }
    ensures ready { P.IsReady pulse.new }
    ensures rest { P.rest pulse.new ≡ P.rest pulse.old }
    ensures spent { P.allowance pulse.old
        ≤ P.allowance pulse.new + (cut_chunk_of model.now cuts.now chunks).work }
{
    let _limits = model.parts();
    let ascent = ascend(alloc, model, cuts, model.root(), pulse)?;
    let new = separate(alloc, model, cuts, &ascent.point, ascent.mults.as_slice())?;
    cutting_chunk(alloc, model, cuts, chunks, ascent.work, new)
}

/// A chunk that has found these cuts.
fn cutting_chunk(
    alloc: Global,
    model: &Model,
    cuts: &[Row],
    chunks: u32,
    work: u64,
    new: List<NewCut>,
) -> Result<CutChunk, OutOfMemory>
    requires cuts { AreFewDerived model.now cuts.now }
    requires few { chunks ≤ 8 }
    requires work { work ≤ 2 ^ 36 }
    ensures { IfOk result (λ chunk.
        chunk ≡ cutting_chunk_of model.now cuts.now chunks work new) }
{
    let _limits = model.parts();
    let terms = term_count(model.rows()) + term_count(cuts);
    let task = task_after(chunks, new.as_slice());
    let CutLists { entries, rows } = cut_lists(alloc, new)?;
    let mut entries = entries;
    if task.is_none() {
        entries.push(Entry::Done)?;
    }
    Ok(CutChunk {
        entries,
        cuts: rows,
        work: 1 + work + 16 * terms,
        task,
    })
}

/// The task goes on where a cut was kept and this isn't its eighth chunk.
fn task_after(chunks: u32, new: &[NewCut]) -> Option<CutTask>
    requires { chunks ≤ 8 }
    ensures { result ≡ cuts_after_of chunks new.now }
{
    if new.is_empty() || chunks == 8 {
        return None;
    }
    Some(CutTask { chunks: chunks + 1 })
}

/// New cuts as entries and as rows.
fn cut_lists(alloc: Global, new: List<NewCut>) -> Result<CutLists, OutOfMemory>
    ensures entries { IfOk result (λ lists. lists.entries ≡ entries_of_cuts new) }
    ensures rows { IfOk result (λ lists. lists.rows ≡ rows_of_cuts new) }
{
    let mut entries = List::new(alloc);
    let mut rows = List::new(alloc);
    for cut in new.into_vec() {
        entries.push(Entry::Cut {
            derivation: cut.derivation,
        })?;
        rows.push(cut.row)?;
    }
    Ok(CutLists { entries, rows })
}
