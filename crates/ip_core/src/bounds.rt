ghost use Rattle.std.specs.Prelude.{◌≡◌, ◌↔◌, ◌<◌, ◌≤◌, ◌^◌, length, IsTrue, IfOk, MatchOption};
ghost use Rattle.std.specs.Option.{SomeIff};
ghost use Rattle.ip_core.specs.Numbers.{int_at};
ghost use Rattle.ip_core.specs.Sides.{HasNoEmpty, IsFirstEmpty, IsPaired, with_high, with_low};

use crate::{List, OutOfMemory};
use std::alloc::Global;
use std::marker::Model;

/// A box: the least and the greatest value of each column. A column whose low is above its high is empty.
#[derive(Debug, Drop)]
pub struct Bounds {
    lows: List<i64>,
    highs: List<i64>,
}

impl Model for Bounds {
    ghost use Rattle.ip_core.specs.Sides.{Sides, IsPaired};

    ghost Value = { Sides };

    ghost view = { λ b. record { lows = b.lows; highs = b.highs } };

    ghost invariant = { λ b. IsPaired (record { lows = b.lows; highs = b.highs }) };
}

impl Bounds {
    /// The box with these sides, or None exactly where their lengths differ. It takes no memory.
    pub fn of(lows: List<i64>, highs: List<i64>) -> Option<Bounds>
        requires { length lows ≤ 2 ^ 30 }
        ensures { SomeIff result (length highs ≡ length lows)
            (record { lows = lows; highs = highs }) }
    {
        if highs.len() == lows.len() {
            Some(Bounds { lows, highs })
        } else {
            None
        }
    }

    /// The least value of each column.
    pub fn lows(&self) -> &[i64]
        ensures value { result.now ≡ self.now.lows }
        ensures paired { IsPaired self.now }
    {
        self.lows.as_slice()
    }

    /// The greatest value of each column.
    pub fn highs(&self) -> &[i64]
        ensures value { result.now ≡ self.now.highs }
        ensures paired { IsPaired self.now }
    {
        self.highs.as_slice()
    }

    /// The low and the high of a column.
    pub fn get(&self, col: u32) -> (i64, i64)
        requires { col < length self.now.lows }
        ensures low { result.0 ≡ int_at self.now.lows col }
        ensures high { result.1 ≡ int_at self.now.highs col }
    {
        let at = col as usize;
        (self.lows.as_slice()[at], self.highs.as_slice()[at])
    }

    /// Raises a column's low to `low`, where that is narrower.
    pub fn cut_low(&mut self, col: u32, low: i64)
        requires { col < length self.old.lows }
        ensures { self.new ≡ with_low self.old col low }
    {
        let at = col as usize;
        let narrower = self.lows.as_slice()[at].max(low);
        self.lows.set(at, narrower);
    }

    /// Lowers a column's high to `high`, where that is narrower.
    pub fn cut_high(&mut self, col: u32, high: i64)
        requires { col < length self.old.lows }
        ensures { self.new ≡ with_high self.old col high }
    {
        let at = col as usize;
        let narrower = self.highs.as_slice()[at].min(high);
        self.highs.set(at, narrower);
    }

    /// The first empty column, or None exactly where there is none.
    pub fn first_empty(&self) -> Option<u32>
        ensures { MatchOption result (HasNoEmpty self.now) (λ j. IsFirstEmpty self.now j) }
    {
        let lows = self.lows.as_slice();
        let highs = self.highs.as_slice();
        for at in 0..lows.len() {
            if lows[at] > highs[at] {
                return Some(at as u32);
            }
        }
        None
    }

    /// Whether every low equals its high.
    pub fn is_fixed(&self) -> bool
        ensures { IsTrue result ↔ (self.now.lows ≡ self.now.highs) }
    {
        self.lows.as_slice() == self.highs.as_slice()
    }

    /// Another box of the same sides.
    pub fn copy(&self, alloc: Global) -> Result<Bounds, OutOfMemory>
        ensures { IfOk result (λ b. b ≡ self.now) }
    {
        let lows = List::of(Vec::from_slice(alloc, self.lows.as_slice())?);
        let highs = List::of(Vec::from_slice(alloc, self.highs.as_slice())?);
        Ok(Bounds { lows, highs })
    }
}
