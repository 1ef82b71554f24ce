ghost use Rattle.std.specs.Prelude.{◌≡◌, ◌<◌, length, slice_set, IfOk};

use crate::{List, OutOfMemory};
use std::alloc::Global;
use std::marker::Model;

/// A whole number for each column.
#[derive(Debug, Drop)]
pub struct Point {
    values: List<i64>,
}

impl Model for Point {
    ghost use Rattle.std.specs.Prelude.{ℤ, List};

    ghost Value = { List ℤ };

    ghost view = { λ p. p.values };
}

impl Point {
    /// The point with these values, in the order of the columns. It takes no memory.
    pub fn of(values: List<i64>) -> Point
        ensures { result ≡ values }
    {
        Point { values }
    }

    /// The values in the order of the columns.
    pub fn values(&self) -> &[i64]
        ensures { result.now ≡ self.now }
    {
        self.values.as_slice()
    }

    /// Replaces the value of a column. It takes no memory.
    pub fn set(&mut self, col: u32, value: i64)
        requires { col < length self.old }
        ensures { self.new ≡ slice_set self.old col value }
    {
        self.values.set(col as usize, value);
    }

    /// Another point of the same values.
    pub fn copy(&self, alloc: Global) -> Result<Point, OutOfMemory>
        ensures { IfOk result (λ p. p ≡ self.now) }
    {
        Ok(Point::of(List::of(Vec::from_slice(alloc, self.values())?)))
    }
}
