use crate::List;

/// One column of a row with its coefficient. Columns are numbered from 0.
#[derive(Clone, Copy, Debug, PartialEq, Eq)]
pub struct Term {
    pub col: u32,
    pub coef: i64,
}

/// The row `sum of coefficient times value >= least`.
#[derive(Debug, Drop)]
pub struct Row {
    pub terms: List<Term>,
    pub least: i64,
}
