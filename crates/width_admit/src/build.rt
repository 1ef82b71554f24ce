ghost use Rattle.std.specs.Prelude.{◌≡◌, ◌≤◌, ◌^◌, None, length, map, IfOk};
ghost use Rattle.width_admit.specs.Columns.{root as root_of_columns};
ghost use Rattle.width_admit.specs.Admission.{admitted_model, refusal};
ghost use Rattle.width_admit.specs.Gathered.{AreGathered};
ghost use Rattle.width_admit.specs.Held.{held_rows_from};

use crate::gather::Coefficient;
use crate::objective::{constant_of, costs_of, objective_exponent};
use crate::rows::push_rows;
use ip_core::{Bounds, List, ModelParts, Name, OutOfMemory, Row};
use mps_model::{MpsCol, MpsModel};
use std::alloc::Global;

/// Another name of the same bytes.
fn copy_of(alloc: Global, name: &Name) -> Result<Name, OutOfMemory>
    ensures { IfOk result (λ copy. copy ≡ name.now) }
{
    let text = name.text().copy(alloc)?;
    match Name::of(text) {
        Some(name) => Ok(name),
        None => unreachable!(),
    }
}

fn names_of(alloc: Global, cols: &[MpsCol]) -> Result<List<Name>, OutOfMemory>
    ensures { IfOk result (λ names. names ≡ map (λ c. c.name) cols.now) }
{
    let mut names = List::new(alloc);
    for col in cols {
        names.push(copy_of(alloc, &col.name)?)?;
    }
    Ok(names)
}

/// The rows of at least that the rows become, held down.
fn rows_of(
    alloc: Global,
    mps: &MpsModel,
    lists: &[List<Coefficient>],
) -> Result<List<Row>, OutOfMemory>
    requires { AreGathered (length mps.now.rows) mps.now.cols lists.now }
    ensures { IfOk result (λ rows. rows ≡ held_rows_from mps.now.cols 0 mps.now.rows) }
{
    let file_rows = mps.rows.as_slice();
    let mut rows = List::new(alloc);
    for at in 0..file_rows.len() {
        push_rows(alloc, &mut rows, lists[at].as_slice(), &file_rows[at])?;
    }
    Ok(rows)
}

/// The parts of the model that a file's model becomes, which nothing refuses.
pub fn parts_of(
    alloc: Global,
    mps: &MpsModel,
    upper: Option<u32>,
    lists: &[List<Coefficient>],
    root: Bounds,
) -> Result<ModelParts, OutOfMemory>
    requires gathered { AreGathered (length mps.now.rows) mps.now.cols lists.now }
    requires root { root ≡ root_of_columns upper mps.now.cols }
    requires unrefused { refusal mps.now upper ≡ None }
    ensures { IfOk result (λ parts. parts ≡ admitted_model mps.now upper) }
{
    let cols = mps.cols.as_slice();
    let exponent = objective_exponent(mps);
    Ok(ModelParts {
        name: copy_of(alloc, &mps.name)?,
        cols: names_of(alloc, cols)?,
        costs: costs_of(alloc, cols, mps.maximise, exponent)?,
        constant: constant_of(mps, exponent),
        decimals: exponent,
        maximise: mps.maximise,
        root,
        rows: rows_of(alloc, mps, lists)?,
    })
}
