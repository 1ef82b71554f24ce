ghost use Rattle.std.specs.Prelude.{◌≤◌, ◌^◌, length, IfOk, IsErrOf, MatchResult};
ghost use Rattle.xsearch.specs.CertificateFiles.{IsCertificateFailure, IsCertificateFile};
ghost use Rattle.xsearch.specs.Shelves.{IsOneRead};
ghost use Rattle.xsearch_words.specs.Shelf.{HasNoFault};

use crate::file_bytes::read_bytes;
use crate::output::Failure;
use cert_text::{CertError, read};
use ip_core::Text;
use std::alloc::Global;
use tree_cert::Certificate;
use xsearch_words::Shelf;

/// The most bytes of a certificate file: 256 MiB.
const MAX_CERTIFICATE_FILE: u64 = 268_435_456;

/// The certificate of the file of this name, or why there is none.
#[tactic(auto, using(crate::proofs::Running::no_bytes_no_certificate))]
pub fn read_certificate<S: Shelf>(
    alloc: Global,
    name: &Text,
    shelf: &mut S,
) -> Result<Certificate, Failure>
    ensures cause { MatchResult result
        (IsCertificateFile (S.state shelf.old) name.now)
        (IsCertificateFailure (S.state shelf.old) (S.state shelf.new) name.now) }
    ensures read { IsOneRead (S.state shelf.old) (S.state shelf.new) }
    ensures quiet { ¬ IsErrOf result Failure.ReadFailed →
        HasNoFault (S.state shelf.old) (S.state shelf.new) }
    ensures few_cuts { IfOk result (λ c. length c.cuts ≤ 2 ^ 28) }
    ensures few_nodes { IfOk result (λ c. length c.nodes ≤ 2 ^ 28) }
{
    let bytes = match read_bytes(alloc, name, MAX_CERTIFICATE_FILE, shelf) {
        Ok(bytes) => bytes,
        Err(failure) => return Err(failure),
    };
    match read(alloc, bytes.as_slice()) {
        Ok(certificate) => Ok(certificate),
        Err(CertError::Refused { line, kind }) => Err(Failure::Cert { line, kind }),
        Err(CertError::Memory) => Err(Failure::Memory),
    }
}
