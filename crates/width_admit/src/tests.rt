ghost use Rattle.std.specs.Prelude.{◌≡◌, ◌≤◌, ◌^◌, false, length, IfOk, IfSome};
ghost use Rattle.mps_model.specs.Numbers.{is_zero};
ghost use Rattle.width_admit.specs.Gathered.{AreColumns, IsColumn};

use crate::{
    AdmitError, Refusal, admission_keeps_answers, admission_keeps_points, admission_keeps_rows,
    admission_keeps_values, admit,
};
use ip_core::{Decimal, List, Model, Name, OutOfMemory, Text};
use mps_model::{Limit, MpsCol, MpsEntry, MpsModel, MpsRow, RowKind};
use std::alloc::Global;
use std::test::Fail;

fn name(alloc: Global, bytes: &[u8]) -> Result<Name, OutOfMemory> {
    match Name::of(Text::of(Vec::from_slice(alloc, bytes)?)) {
        Some(name) => Ok(name),
        None => Err(OutOfMemory),
    }
}

/// A decimal that isn't 0.
fn number(bytes: &[u8]) -> Option<Decimal>
    requires { length bytes.now ≤ 2 ^ 30 }
    ensures { IfSome result (λ number. is_zero number ≡ false) }
{
    let number = Decimal::read(bytes).ok()?;
    if number.mantissa() == 0 {
        return None;
    }
    Some(number)
}

/// The column x, which costs 1.5 and is once in the first row.
fn column(alloc: Global, high: Limit) -> Result<MpsCol, Fail>
    ensures { IfOk result (λ col. IsColumn 1 col) }
{
    let mut entries = List::new(alloc);
    entries.push(MpsEntry {
        row: 0,
        value: number(b"1").ok_or("a number")?,
    })?;
    Ok(MpsCol {
        name: name(alloc, b"x")?,
        integer: true,
        cost: number(b"1.5").ok_or("a number")?,
        entries,
        low: Limit::Unset,
        high,
    })
}

/// The model that maximises 1.5 x, where x is 5 or up to 2 less.
fn one_row(alloc: Global, high: Limit) -> Result<MpsModel, Fail>
    ensures columns { IfOk result (λ m. AreColumns (length m.rows) m.cols) }
    ensures rows { IfOk result (λ m. length m.rows ≡ 1) }
    ensures cols { IfOk result (λ m. length m.cols ≡ 1) }
{
    let mut rows = List::new(alloc);
    rows.push(MpsRow {
        name: name(alloc, b"a")?,
        kind: RowKind::Equal,
        rhs: number(b"5").ok_or("a number")?,
        range: number(b"-2"),
    })?;
    let mut cols = List::new(alloc);
    cols.push(column(alloc, high)?)?;
    Ok(MpsModel {
        name: name(alloc, b"T")?,
        maximise: true,
        objective: name(alloc, b"c")?,
        constant: Decimal::zero(),
        rows,
        cols,
    })
}

/// What the two rows of a model are at least.
fn leasts(model: &Model) -> Option<(i64, i64)> {
    match model.rows() {
        [first, second] => Some((first.least, second.least)),
        _ => None,
    }
}

#[test]
fn admits_a_model(rt: HostRuntime) -> Result<(), Fail> {
    let alloc = rt.alloc();
    let mps = one_row(alloc, Limit::Unset)?;
    let model = admit(alloc, &mps, Some(9))?;
    assert_eq!(rt; leasts(&model), Some((3, -5)));
    assert_eq!(rt; model.costs(), [-15].as_slice());
    admission_keeps_rows();
    admission_keeps_points();
    admission_keeps_values();
    admission_keeps_answers();
    Ok(())
}

#[test]
fn tells_why_a_model_is_refused(rt: HostRuntime) -> Result<(), Fail> {
    let alloc = rt.alloc();
    let mps = one_row(alloc, Limit::Free)?;
    let refusal = match admit(alloc, &mps, None) {
        Ok(_) => None,
        Err(error) => error.refusal(),
    };
    let refusal = refusal.ok_or("memory")?;
    assert_eq!(rt; refusal, Refusal::Unbounded { col: 0 });
    assert_eq!(rt; (refusal.kind(), refusal.index()), (3, 0));
    Ok(())
}
