ghost use Rattle.xsearch.specs.AcceptedFiles.{AcceptedFilesAreTold};

/// A law of `check`, with nothing to run: where the model file is admitted and the bytes of the
/// certificate file are read as a certificate that the checker accepts, `accepted` is told, unless a
/// file is longer than its kind may be, a read failed or memory could not be had.
pub fn accepted_files_are_told()
    ensures { AcceptedFilesAreTold }
{}
