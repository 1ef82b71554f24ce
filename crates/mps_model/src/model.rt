use ip_core::{Decimal, List, Name};

/// What the bound lines say of one side of a column: nothing, that the side is free, or a number.
#[derive(Clone, Copy, Debug, PartialEq, Eq)]
pub enum Limit {
    Unset,
    Free,
    At(Decimal),
}

/// Whether a row's sum is at most, at least or equal to its right-hand side.
#[derive(Clone, Copy, Debug, PartialEq, Eq)]
pub enum RowKind {
    Less,
    Greater,
    Equal,
}

/// A row. Without an entry in the section of right-hand sides its right-hand side is 0.
#[derive(Debug, Drop)]
pub struct MpsRow {
    pub name: Name,
    pub kind: RowKind,
    pub rhs: Decimal,
    pub range: Option<Decimal>,
}

/// A coefficient of a column, which isn't zero. The row is numbered from 0 among the model's rows.
#[derive(Clone, Copy, Debug, PartialEq, Eq)]
pub struct MpsEntry {
    pub row: u32,
    pub value: Decimal,
}

/// A column. The cost is its coefficient in the objective, and its entries stand in the order of the file.
#[derive(Debug, Drop)]
pub struct MpsCol {
    pub name: Name,
    pub integer: bool,
    pub cost: Decimal,
    pub entries: List<MpsEntry>,
    pub low: Limit,
    pub high: Limit,
}

/// A model as its file has it. The constant is the negated right-hand side of the objective's row.
#[derive(Debug, Drop)]
pub struct MpsModel {
    pub name: Name,
    pub maximise: bool,
    pub objective: Name,
    pub constant: Decimal,
    pub rows: List<MpsRow>,
    pub cols: List<MpsCol>,
}
