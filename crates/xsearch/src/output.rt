use crate::status::ExitStatus;
use cert_text::CertKind;
use ip_core::{List, Text};
use mps_read::MpsKind;
use thiserror::Error;
use width_admit::Refusal;
use xsearch_words::OutputFile;

/// What a command comes to where nothing fails: the files that it writes, in their order, then the
/// text that it puts, and the status of a run that does both.
#[derive(Debug, Drop)]
pub struct Output {
    pub files: List<OutputFile>,
    pub text: Text,
    pub exit: ExitStatus,
}

/// Why a command doesn't come to that.
#[derive(Clone, Copy, Debug, PartialEq, Eq, Error)]
pub enum Failure {
    /// The words ask nothing.
    #[error("refused words")]
    Words,
    /// A file is longer than its kind may be.
    #[error("refused length")]
    Length,
    /// The first line of a model file that isn't allowed, and why.
    #[error("refused mps line {line}: {kind:?}")]
    Mps { line: u32, kind: MpsKind },
    /// A model isn't admitted.
    #[error("refused model: {0:?}")]
    Model(Refusal),
    /// The first line of a certificate that isn't allowed, and why.
    #[error("refused certificate line {line}: {kind:?}")]
    Cert { line: u32, kind: CertKind },
    /// A read failed.
    #[error("a file could not be read")]
    ReadFailed,
    /// The write of the file at this place among those of the output failed.
    #[error("file {place} could not be written")]
    WriteFailed { place: usize },
    /// Memory could not be had.
    #[error("out of memory")]
    Memory,
}
