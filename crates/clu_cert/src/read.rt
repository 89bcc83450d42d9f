//! A certificate from its text: each line is handed to the reader, and the first that it refuses is the one
//! that no text of a certificate has there.

ghost use Rattle.std.specs.Prelude.{◌≡◌, IfOk, IfErr};
ghost use Rattle.clu_cert.specs.Table.{IsCertTable, IsTableError};
ghost use Rattle.clu_cert.specs.Faults.{IsCertError};
ghost use Rattle.clu_cert.specs.Fits.{Fits};
ghost use Rattle.clu_cert.specs.declared.certificate.Certificate.{Certificate};
ghost use Rattle.clu_cert.specs.Text.{cert_text};

use crate::certificate::Certificate;
use crate::cut::cut;
use crate::fault::Fault;
use crate::reader::Reader;
use std::alloc::Global;

/// The first line that no text of a certificate has there.
#[derive(Clone, Copy, Debug, PartialEq, Eq)]
pub struct BadText {
    /// The line's number, from 1.
    pub line: u64,
}

/// Why bytes gave no certificate.
#[derive(Debug, Drop)]
pub enum CertError {
    /// Want of memory.
    Memory,
    /// They are no text of a certificate.
    Bad(BadText),
}

/// The certificate whose lines these are.
fn read_table(alloc: Global, bytes: &[u8]) -> Result<Certificate, CertError>
    ensures found { IfOk result (λ c. IsCertTable bytes.now c) }
    ensures only { IfOk result (λ c. (d : Certificate) → IsCertTable bytes.now d → d ≡ c) }
    ensures bad { IfErr result (λ e. IsTableError bytes.now e) }
{
    let mut reader = Reader::new(alloc);
    let mut rest = bytes;
    let mut number: u64 = 1;
    while let Some((line, more)) = cut(rest, b'\n') {
        match reader.take(alloc, line) {
            Ok(()) => {}
            Err(Fault::Memory) => return Err(CertError::Memory),
            Err(Fault::Bad) => return Err(CertError::Bad(BadText { line: number })),
        }
        rest = more;
        number += 1;
    }
    if rest.is_empty() && reader.is_done() {
        Ok(reader.cert)
    } else {
        Err(CertError::Bad(BadText { line: number }))
    }
}

/// The certificate of a text, or the first line that can't stand where it stands.
pub fn read_cert(alloc: Global, bytes: &[u8]) -> Result<Certificate, CertError>
    ensures found { IfOk result (λ c. Fits c × (bytes.now ≡ cert_text c)) }
    ensures only { IfOk result (λ c. (d : Certificate) → Fits d → bytes.now ≡ cert_text d → d ≡ c) }
    ensures bad { IfErr result (λ e. IsCertError bytes.now e) }
{
    read_table(alloc, bytes)
}
