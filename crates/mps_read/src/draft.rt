ghost use Rattle.std.specs.Prelude.{◌≡◌, []};
ghost use Rattle.mps_read.specs.Drafts.{first_draft, no_set};

use crate::error::MpsKind;
use crate::name::empty_name;
use crate::names::Names;
use ip_core::{Decimal, List, Name};
use mps_lines::Section;
use mps_model::{MpsCol, MpsRow};
use std::alloc::Global;

/// What a name in the section of rows stands for: the objective, a row that is dropped, or a row of the model.
#[derive(Clone, Copy, Debug, PartialEq, Eq)]
pub enum RowPlace {
    Objective,
    Dropped,
    Kept(u32),
}

/// What the lines so far say of a name in the section of rows.
#[derive(Clone, Copy, Debug)]
pub struct RowState {
    pub place: RowPlace,
    pub has_side: bool,
    pub has_range: bool,
}

/// An entry by the number of its row's name and that of its column.
#[derive(Clone, Copy, Debug)]
pub struct Mark {
    pub row: usize,
    pub col: usize,
}

/// Whether a section of sets began, and the set that its first data line names.
#[derive(Debug, Drop)]
pub struct SetUse {
    pub has_begun: bool,
    pub set: Option<Name>,
}

/// What the lines so far say. Row names are numbered with those of the objective and of dropped rows. The marks are the
/// entries in the rows that aren't dropped, `kept` is the number of rows of the model, and `latest` has for each row's name the number of columns when it was last
/// marked, or 0.
#[derive(Drop)]
pub struct Draft {
    pub section: Option<Section>,
    pub has_sense_line: bool,
    pub name: Name,
    pub maximise: Option<bool>,
    pub row_names: Names,
    pub row_states: List<RowState>,
    pub objective: Option<Name>,
    pub kept: u32,
    pub rows: List<MpsRow>,
    pub column_names: Names,
    pub cols: List<MpsCol>,
    pub is_integer: bool,
    pub marks: List<Mark>,
    pub latest: List<usize>,
    pub constant: Decimal,
    pub rhs: SetUse,
    pub ranges: SetUse,
    pub bounds: SetUse,
}

/// What a line is: refused, taken, or the last one.
#[derive(Clone, Copy, Debug)]
pub enum Judgement {
    Refused(MpsKind),
    Taken,
    Ended,
}

impl SetUse {
    /// A section that has not begun.
    fn new() -> SetUse
        ensures { result ≡ no_set }
    {
        SetUse {
            has_begun: false,
            set: None,
        }
    }
}

impl Draft {
    /// The draft before the first line.
    pub fn new(alloc: Global) -> Draft
        ensures { result ≡ first_draft }
    {
        Draft {
            section: None,
            has_sense_line: false,
            name: empty_name(alloc),
            maximise: None,
            row_names: Names::new(alloc),
            row_states: List::new(alloc),
            objective: None,
            kept: 0,
            rows: List::new(alloc),
            column_names: Names::new(alloc),
            cols: List::new(alloc),
            is_integer: false,
            marks: List::new(alloc),
            latest: List::new(alloc),
            constant: Decimal::zero(),
            rhs: SetUse::new(),
            ranges: SetUse::new(),
            bounds: SetUse::new(),
        }
    }
}
