/// What a search may do beside splitting boxes: derive cuts, and look for feasible points from open
/// nodes.
#[derive(Clone, Copy, Debug, PartialEq, Eq)]
pub struct SearchSettings {
    pub cuts: bool,
    pub heuristics: bool,
}
