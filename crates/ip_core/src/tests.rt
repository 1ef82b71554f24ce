ghost use Rattle.std.specs.Prelude.{◌≡◌, IfOk};

use crate::decimal::text as text_of;
use crate::dense::{DenseModel, DenseRow};
use crate::*;
use std::alloc::Global;
use std::test::Fail;

fn text(alloc: Global, bytes: &[u8]) -> Result<Text, OutOfMemory> {
    let mut text = Text::new(alloc);
    text.extend(bytes)?;
    Ok(text)
}

fn numbers(alloc: Global, values: &[i64]) -> Result<List<i64>, OutOfMemory>
    ensures { IfOk result (λ l. l ≡ values.now) }
{
    Ok(List::of(Vec::from_slice(alloc, values)?))
}

fn row(alloc: Global, least: i64, terms: &[(u32, i64)]) -> Result<Row, OutOfMemory> {
    let mut list = List::new(alloc);
    for &(col, coef) in terms {
        list.push(Term { col, coef })?;
    }
    Ok(Row { terms: list, least })
}

/// The model of one column from 0 to 33,554,432 at cost 1, with one row.
fn model_of_row(alloc: Global, row: Row) -> Result<Option<Model>, OutOfMemory> {
    let Some(name) = Name::of(text(alloc, b"one")?) else {
        return Ok(None);
    };
    let mut cols = List::new(alloc);
    if let Some(col) = Name::of(text(alloc, b"x")?) {
        cols.push(col)?;
    }
    let Some(root) = bounds(numbers(alloc, &[0])?, numbers(alloc, &[33_554_432])?) else {
        return Ok(None);
    };
    let mut rows = List::new(alloc);
    rows.push(row)?;
    Ok(Model::of(ModelParts {
        name,
        cols,
        costs: numbers(alloc, &[1])?,
        constant: 0,
        decimals: 0,
        maximise: false,
        root,
        rows,
    }))
}

fn bounds(lows: List<i64>, highs: List<i64>) -> Option<Bounds> {
    if lows.len() < 100 {
        Bounds::of(lows, highs)
    } else {
        None
    }
}

/// The least and the greatest value over the root box.
#[tactic(auto, using(crate::proofs::Reaching::root_within_reach))]
fn values_of(model: &Model) -> (i64, i64) {
    let root = model.root();
    (least_value(model, root), greatest_value(model, root))
}

/// Three columns from 0 to 3, to be kept within 5, 11 and 8.
const PACKED: DenseModel<'static> = DenseModel {
    costs: &[-5, -4, -3],
    lows: &[0, 0, 0],
    highs: &[3, 3, 3],
    rows: &[
        DenseRow {
            coefs: &[-2, -3, -1],
            least: -5,
        },
        DenseRow {
            coefs: &[-4, -1, -2],
            least: -11,
        },
        DenseRow {
            coefs: &[-3, -4, -2],
            least: -8,
        },
    ],
};

/// The model of a dense model, without a contract.
fn model_of(alloc: Global, dense: &DenseModel) -> Result<Option<Model>, OutOfMemory> {
    dense.build(alloc)
}

#[test]
fn tells_its_parts(rt: HostRuntime) -> Result<(), Fail> {
    let model = model_of(rt.alloc(), &PACKED)?.ok_or("a model")?;
    assert_eq!(rt; model.costs(), [-5, -4, -3].as_slice());
    assert_eq!(rt; (model.cols().len(), model.rows().len()), (3, 3));
    assert_eq!(rt; values_of(&model), (-36, 0));
    assert_eq!(rt; model.name().text().as_slice(), b"x".as_slice());
    assert_eq!(rt;
        (model.constant(), model.decimals(), model.maximise()),
        (0, 0, false)
    );
    Ok(())
}

/// The value of a point of a dense model, and None where it isn't feasible.
fn feasible_value(
    alloc: Global,
    dense: &DenseModel,
    values: &[i64],
) -> Result<Option<i64>, OutOfMemory> {
    let Some(model) = model_of(alloc, dense)? else {
        return Ok(None);
    };
    let point = Point::of(numbers(alloc, values)?).copy(alloc)?;
    if is_feasible(&model, &point) {
        Ok(Some(value(&model, &point)))
    } else {
        Ok(None)
    }
}

#[test]
fn judges_points(rt: HostRuntime) -> Result<(), Fail> {
    let cases: [(&[i64], Option<i64>); 6] = [
        (&[2, 0, 1], Some(-13)),
        (&[0, 0, 0], Some(0)),
        (&[2, 1, 0], None),
        (&[0, 0, 4], None),
        (&[-1, 0, 0], None),
        (&[2, 0], None),
    ];
    for (values, wanted) in cases {
        let found = feasible_value(rt.alloc(), &PACKED, values)?;
        assert_eq!(rt; found, wanted, "at {values:?}");
    }
    Ok(())
}

/// Whether a row of these terms makes a model.
fn makes_model(alloc: Global, least: i64, terms: &[(u32, i64)]) -> Result<bool, OutOfMemory> {
    Ok(model_of_row(alloc, row(alloc, least, terms)?)?.is_some())
}

/// A row with a coefficient of 33,554,432 has a width of 2^50, and one more with a `least` of 1.
#[test]
fn keeps_limits(rt: HostRuntime) -> Result<(), Fail> {
    let cases: [(i64, &[(u32, i64)], bool); 6] = [
        (0, &[(0, 33_554_432)], true),
        (1, &[(0, 33_554_432)], false),
        (0, &[(1, 1)], false),
        (0, &[(0, 0)], false),
        (0, &[(0, 1), (0, 1)], false),
        (0, &[], true),
    ];
    for (least, terms, wanted) in cases {
        let found = makes_model(rt.alloc(), least, terms)?;
        assert_eq!(rt; found, wanted, "at {least} and {terms:?}");
    }
    Ok(())
}

/// Whether the first row of a dense model has these terms, and None where there is no model.
fn has_first_terms(
    alloc: Global,
    dense: &DenseModel,
    terms: &[Term],
) -> Result<Option<bool>, OutOfMemory> {
    let Some(model) = model_of(alloc, dense)? else {
        return Ok(None);
    };
    match model.rows().first() {
        Some(row) => Ok(Some(row.terms.as_slice() == terms)),
        None => Ok(Some(false)),
    }
}

const SPARSE: DenseModel<'static> = DenseModel {
    costs: &[1, 1, 1],
    lows: &[0, 0, 0],
    highs: &[3, 3, 3],
    rows: &[DenseRow {
        coefs: &[7, 0, -2],
        least: 1,
    }],
};

/// The row has one coefficient more than there are columns.
const UNEVEN: DenseModel<'static> = DenseModel {
    costs: &[1, 1],
    lows: &[0, 0],
    highs: &[3, 3],
    rows: &[DenseRow {
        coefs: &[7, 2, 0],
        least: 1,
    }],
};

#[test]
fn builds_dense_models(rt: HostRuntime) -> Result<(), Fail> {
    let terms = [Term { col: 0, coef: 7 }, Term { col: 2, coef: -2 }];
    assert_eq!(rt; has_first_terms(rt.alloc(), &SPARSE, &terms)?, Some(true));
    assert_eq!(rt; has_first_terms(rt.alloc(), &UNEVEN, &terms)?, None);
    Ok(())
}

#[test]
fn keeps_items(rt: HostRuntime) -> Result<(), Fail> {
    let alloc = rt.alloc();
    let mut list = numbers(alloc, &[5, 6])?;
    list.push(7)?;
    list.set(0, 4);
    list.as_mut_slice()[1] = 9;
    assert_eq!(rt; (list.len(), list.is_empty()), (3, false));
    assert_eq!(rt; list.into_vec().as_slice(), [4, 9, 7].as_slice());
    let words = text(alloc, b"a b")?.copy(alloc)?;
    assert_eq!(rt; (words.len(), words.is_empty()), (3, false));
    assert!(rt; Name::of(words).is_none());
    assert_eq!(rt;
        Text::of(text(alloc, b"ab")?.into_vec()).as_slice(),
        b"ab".as_slice()
    );
    Ok(())
}

fn box_of(alloc: Global, lows: &[i64], highs: &[i64]) -> Result<Option<Bounds>, OutOfMemory> {
    Ok(bounds(numbers(alloc, lows)?, numbers(alloc, highs)?))
}

/// Cuts the low of a column, or else the high, where there is such a column.
fn cut(bounds: &mut Bounds, col: u32, is_low: bool, value: i64) {
    if (col as usize) < bounds.lows().len() {
        if is_low {
            bounds.cut_low(col, value);
        } else {
            bounds.cut_high(col, value);
        }
    }
}

/// The low and the high of a column, and None where there is no such column.
fn ends(bounds: &Bounds, col: u32) -> Option<(i64, i64)> {
    if (col as usize) < bounds.lows().len() {
        Some(bounds.get(col))
    } else {
        None
    }
}

#[test]
fn cuts_boxes(rt: HostRuntime) -> Result<(), Fail> {
    let alloc = rt.alloc();
    let mut root = box_of(alloc, &[0, 0], &[3, 3])?.ok_or("a box")?;
    for (col, is_low, value) in [(0, true, 2), (0, true, 1), (1, false, 1), (1, false, 2)] {
        cut(&mut root, col, is_low, value);
    }
    let kept = root.copy(alloc)?;
    assert_eq!(rt;
        (ends(&kept, 0), ends(&kept, 1)),
        (Some((2, 3)), Some((0, 1)))
    );
    assert_eq!(rt; (kept.first_empty(), kept.is_fixed()), (None, false));
    cut(&mut root, 1, true, 2);
    assert_eq!(rt; root.first_empty(), Some(1));
    assert!(rt; box_of(alloc, &[0], &[])?.is_none());
    Ok(())
}

/// Mantissa and exponent of a short numeral.
fn read(bytes: &[u8]) -> Result<(i64, i16), NumeralError> {
    if bytes.len() > 100 {
        return Err(NumeralError::TooLong);
    }
    let number = Decimal::read(bytes)?;
    Ok((number.mantissa(), number.exponent()))
}

fn written(alloc: Global, value: i128, decimals: u8) -> Result<Text, OutOfMemory> {
    if decimals > 18 {
        return Ok(Text::new(alloc));
    }
    text_of(alloc, value, decimals)
}

#[test]
fn reads_numerals(rt: HostRuntime) -> Result<(), Fail> {
    let cases: [(&[u8], Result<(i64, i16), NumeralError>); 26] = [
        (b"1.50D+2", Ok((15, 1))),
        (b".5", Ok((5, -1))),
        (b"0.000", Ok((0, 0))),
        (b"1e-19", Err(NumeralError::Range)),
        (b"1.2.3", Err(NumeralError::BadByte { place: 3 })),
        (b"+", Err(NumeralError::Empty)),
        (b"1e", Err(NumeralError::Empty)),
        (b"", Err(NumeralError::Empty)),
        (b".", Err(NumeralError::Empty)),
        (b"e5", Err(NumeralError::Empty)),
        (b"-7", Ok((-7, 0))),
        (b"-0", Ok((0, 0))),
        (b"1200", Ok((12, 2))),
        (b"00012.3400", Ok((1234, -2))),
        (b"5.", Ok((5, 0))),
        (b"1E400", Ok((1, 400))),
        (b"1E401", Err(NumeralError::Range)),
        (b"0e99999999999999999999", Ok((0, 0))),
        (b"1e99999999999999999999", Err(NumeralError::Range)),
        (b"1d-18", Ok((1, -18))),
        (b"123456789012345678", Ok((123_456_789_012_345_678, 0))),
        (b"1234567890123456789", Err(NumeralError::TooLong)),
        (b"0.1234567890123456780", Ok((123_456_789_012_345_678, -18))),
        (b"1e+", Err(NumeralError::Empty)),
        (b"--1", Err(NumeralError::BadByte { place: 1 })),
        (b"1e5.0", Err(NumeralError::BadByte { place: 3 })),
    ];
    for (bytes, wanted) in cases {
        assert_eq!(rt; read(bytes), wanted, "at {bytes:?}");
    }
    let half = Decimal::read(b"-.5").ok().ok_or("a decimal")?;
    assert_eq!(rt;
        half.negation(),
        Decimal::read(b"0.50").ok().ok_or("a decimal")?
    );
    assert_eq!(rt; Ok(Decimal::zero()), Decimal::read(b"-0.0"));
    Ok(())
}

/// What a numeral is written as, once read.
fn rewritten(alloc: Global, bytes: &[u8]) -> Result<Text, Fail> {
    let mut text = Text::new(alloc);
    if bytes.len() < 100 {
        let number = Decimal::read(bytes).ok().ok_or("a decimal")?;
        number.append_to(&mut text)?;
    }
    Ok(text)
}

#[test]
fn writes_numerals(rt: HostRuntime) -> Result<(), Fail> {
    let cases: [(&[u8], &[u8]); 7] = [
        (b"1.50D+2", b"15e1"),
        (b".5", b"0.5"),
        (b"-0.000", b"0"),
        (b"-12.50", b"-12.5"),
        (b"1200", b"12e2"),
        (b"1e400", b"1e400"),
        (b"123456789012345678e-18", b"0.123456789012345678"),
    ];
    for (bytes, wanted) in cases {
        assert_eq!(rt;
            rewritten(rt.alloc(), bytes)?.as_slice(),
            wanted,
            "of {bytes:?}"
        );
    }
    Ok(())
}

#[test]
fn writes_decimals(rt: HostRuntime) -> Result<(), Fail> {
    let cases: [(i128, u8, &[u8]); 7] = [
        (-5, 2, b"-0.05"),
        (-1305, 2, b"-13.05"),
        (7, 0, b"7"),
        (0, 3, b"0.000"),
        (-20, 1, b"-2.0"),
        (1_000_000_000_000_000_000, 18, b"1.000000000000000000"),
        (i128::MIN, 0, b"-170141183460469231731687303715884105728"),
    ];
    for (value, decimals, wanted) in cases {
        assert_eq!(rt;
            written(rt.alloc(), value, decimals)?.as_slice(),
            wanted,
            "of {value} with {decimals}"
        );
    }
    Ok(())
}

/// Every row of the model comes before every cut, and then the number decides.
#[test]
fn orders_row_names(rt: HostRuntime) -> Result<(), Fail> {
    let cases: [(RowRef, RowRef, bool); 6] = [
        (RowRef::Model(4095), RowRef::Cut(0), true),
        (RowRef::Cut(0), RowRef::Model(4095), false),
        (RowRef::Model(1), RowRef::Model(2), true),
        (RowRef::Model(2), RowRef::Model(2), false),
        (RowRef::Cut(3), RowRef::Cut(511), true),
        (RowRef::Cut(511), RowRef::Cut(3), false),
    ];
    for (left, right, wanted) in cases {
        assert_eq!(rt; left.is_before(right), wanted, "at {left:?} and {right:?}");
    }
    Ok(())
}
