ghost use Rattle.std.specs.Prelude.{◌≡◌, ◌≤◌, ◌<◌, ◌+◌, ◌^◌, ◌∷◌, [], length, IfOk, MatchOption, MatchResult};
ghost use Rattle.cert_text.specs.Certificates.{certificate_text, IsCertificate};
ghost use Rattle.cert_text.specs.Places.{next_place, IsPlace};
ghost use Rattle.cert_text.specs.Readings.{end_reading as end_reading_of, last_reading as last_reading_of, no_lines as no_lines_of, order_step as order_step_of, pieces_of, reading, line_step as line_step_of, with_line as with_line_of, IsStep, Reads};
ghost use Rattle.cert_text.specs.Refusals.{Gives, IsCause};
ghost use Rattle.tree_cert.specs.declared.certificate.Certificate.{Certificate};

use crate::error::{CertError, CertKind};
use crate::place::Place;
use cert_line::{Line, LineReading, read_line};
use ip_core::{List, OutOfMemory};
use std::alloc::Global;
use tree_cert::Certificate;

/// What a text is: a certificate, or refused at its first line that isn't allowed.
#[derive(Drop)]
pub(crate) enum Reading {
    Read(Certificate),
    RefusedAt { line: u32, kind: CertKind },
}

/// Where a line leads: it is refused, or what it says and the next place.
#[derive(Drop)]
pub(crate) enum Step {
    Refuses(CertKind),
    Leads { line: Line, next: Place },
}

/// The bytes before the first line feed and those behind it, or None where there is none.
fn cut_line(bytes: &[u8]) -> Option<(&[u8], &[u8])>
    ensures { MatchOption result (pieces_of bytes.now ≡ bytes.now ∷ [])
        (λ p. (pieces_of bytes.now ≡ p.0.now ∷ pieces_of p.1.now)
        × (length p.0.now + length p.1.now < length bytes.now)) }
{
    for (place, byte) in bytes.iter().enumerate() {
        if *byte == b'\n' {
            return Some((&bytes[..place], &bytes[place + 1..]));
        }
    }
    None
}

/// Where a line leads that has a form and its numbers in range.
fn order_step(place: Place, line: Line) -> Step
    requires { IsPlace place }
    ensures step { result ≡ order_step_of line (next_place place line) }
    ensures kept { IsStep result }
{
    match place.next(&line) {
        None => Step::Refuses(CertKind::Order),
        Some(next) => Step::Leads { line, next },
    }
}

/// Where a line leads.
fn line_step(alloc: Global, place: Place, bytes: &[u8]) -> Result<Step, OutOfMemory>
    requires place { IsPlace place }
    requires short { length bytes.now ≤ 2 ^ 28 }
    ensures step { IfOk result (λ s. s ≡ line_step_of place bytes.now) }
    ensures kept { IfOk result (λ s. IsStep s) }
{
    if place.is_over() {
        return Ok(Step::Refuses(CertKind::Trailing));
    }
    match read_line(alloc, bytes)? {
        LineReading::NoForm => Ok(Step::Refuses(CertKind::Form)),
        LineReading::BadNumber => Ok(Step::Refuses(CertKind::Number)),
        LineReading::Is(line) => Ok(order_step(place, line)),
    }
}

/// The certificate of no line.
fn no_lines(alloc: Global) -> Certificate
    ensures { result ≡ no_lines_of }
{
    Certificate {
        cols: 0,
        rows: 0,
        value: 0,
        point: None,
        cuts: List::new(alloc),
        nodes: List::new(alloc),
    }
}

/// The certificate with what one more line tells.
fn with_line(mut certificate: Certificate, line: Line) -> Result<Certificate, OutOfMemory>
    ensures { IfOk result (λ c. c ≡ with_line_of certificate line) }
{
    match line {
        Line::Header | Line::Cuts(_) | Line::Tree(_) | Line::End => {}
        Line::Size { cols, rows } => {
            certificate.cols = cols;
            certificate.rows = rows;
        }
        Line::Value(value) => certificate.value = value,
        Line::Point(point) => certificate.point = point,
        Line::Cut(cut) => certificate.cuts.push(cut)?,
        Line::Node(node) => certificate.nodes.push(node)?,
    }
    Ok(certificate)
}

/// The reading of a text by what stands behind its last line feed, after lines that tell of this certificate.
fn last_reading(number: u32, place: Place, certificate: Certificate, rest: &[u8]) -> Reading
    ensures { result ≡ last_reading_of number place certificate rest.now }
{
    if !place.is_over() {
        return Reading::RefusedAt {
            line: number,
            kind: CertKind::Short,
        };
    }
    match rest {
        [] => Reading::Read(certificate),
        [_, ..] => Reading::RefusedAt {
            line: number,
            kind: CertKind::Trailing,
        },
    }
}

/// Reads the lines in order to the end of the text, or to the first that isn't allowed.
fn read_lines(alloc: Global, bytes: &[u8]) -> Result<Reading, OutOfMemory>
    requires { length bytes.now ≤ 2 ^ 28 }
    ensures { IfOk result (λ r. r ≡ reading bytes.now) }
{
    let mut certificate = no_lines(alloc);
    let mut place = Place::Header;
    let mut rest = bytes;
    let mut number: u32 = 1;
    while let Some((bytes_of_line, after)) = cut_line(rest) {
        match line_step(alloc, place, bytes_of_line)? {
            Step::Refuses(kind) => return Ok(Reading::RefusedAt { line: number, kind }),
            Step::Leads { line, next } => {
                certificate = with_line(certificate, line)?;
                place = next;
            }
        }
        rest = after;
        number += 1;
    }
    Ok(last_reading(number, place, certificate, rest))
}

/// Reads the text of a certificate, or gives the first line that isn't allowed given those before it, with the first
/// kind that applies to it. Only memory can end it otherwise. The text has at most 2^28 bytes, so that the number of a
/// line fits its type. What it gives is a certificate whose text this is and no other text is, with at most 2^28 cuts
/// and at most 2^28 nodes.
pub fn read(alloc: Global, bytes: &[u8]) -> Result<Certificate, CertError>
    requires { length bytes.now ≤ 2 ^ 28 }
    ensures found { IfOk result (λ c. (bytes.now ≡ certificate_text c) × IsCertificate c) }
    ensures only { (c : Certificate) → IsCertificate c → bytes.now ≡ certificate_text c
        → Gives result c }
    ensures answer { MatchResult result (λ c. Reads bytes.now c) (λ e. IsCause bytes.now e) }
    ensures few { IfOk result (λ c. (length c.cuts ≤ 2 ^ 28) × (length c.nodes ≤ 2 ^ 28)) }
{
    match read_lines(alloc, bytes)? {
        Reading::Read(certificate) => Ok(certificate),
        Reading::RefusedAt { line, kind } => Err(CertError::Refused { line, kind }),
    }
}
