use ip_core::{Derivation, Row};

/// A cut with its derivation.
#[derive(Debug, Drop)]
pub struct NewCut {
    pub derivation: Derivation,
    pub row: Row,
}
