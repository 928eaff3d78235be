ghost use Rattle.std.specs.Prelude.{◌≡◌, ℕ, IfOk, IfErr, MatchResult, List};
ghost use Rattle.text_cause.specs.declared.cause.TextCause.{TextCause};
ghost use Rattle.text_cause.specs.Answers.{IsFaultAt};
ghost use Rattle.ctl_text.specs.Value.{network_of};
ghost use Rattle.waitfor_check.specs.Fitting.{Fits};
ghost use Rattle.waitfor_check.specs.declared.star.Star.{Star as StarValue};
ghost use Rattle.certificate_text.specs.Answers.{IsRefusal};
ghost use Rattle.certificate_text.specs.Text.{IsCertificateText, IsRefused, Gives, EndStands};
ghost use Rattle.certificate_text.specs.inside.View.{state_of};

use crate::reader::{Place, Reader};
use crate::stars::Stars;
use crate::take::take_line;
use conjunctive_compose::System;
use ctl_text::Spec;
use std::alloc::Global;
use strict_text::cut_line;
use text_cause::{LineFault, TextCause, TextFault};
use waitfor_check::{Certificate, Star};

/// The certificate of which the bytes are a text, or the first bad line with its lowest cause. One pass; the text's lines are not kept.
pub fn read_certificate(
    alloc: Global,
    spec: &Spec,
    system: &System,
    bytes: &[u8],
) -> Result<Certificate, TextFault>
    requires { system.now.network ≡ network_of spec.now }
    ensures text { IfOk result (λ c. IsCertificateText spec.now system.now bytes.now c) }
    ensures fits { IfOk result (λ c. Fits system.now c) }
    ensures refused { IfErr result (IsRefusal spec.now system.now bytes.now) }
    ensures only { (v : List StarValue) → IsCertificateText spec.now system.now bytes.now v → MatchResult result (λ c. c ≡ v) (λ fault. fault ≡ TextFault.Memory) }
    ensures refused_only { (at : ℕ) (cause : TextCause) → IsRefused spec.now system.now bytes.now at cause → MatchResult result (λ c. ⊥) (IsFaultAt at cause) }
{
    match read_stars(alloc, spec, system, bytes) {
        Ok(stars) => certificate_of(alloc, stars),
        Err(fault) => Err(fault),
    }
}

fn certificate_of(alloc: Global, stars: Vec<Star>) -> Result<Certificate, TextFault>
    ensures ok { IfOk result (λ c. c ≡ stars.items) }
    ensures err { IfErr result (λ fault. fault ≡ TextFault.Memory) }
{
    match Certificate::make(alloc, stars) {
        Ok(certificate) => Ok(certificate),
        Err(_) => Err(TextFault::Memory),
    }
}

/// The stars of the certificate of which the bytes are a text.
fn read_stars(
    alloc: Global,
    spec: &Spec,
    system: &System,
    bytes: &[u8],
) -> Result<Vec<Star>, TextFault>
    requires { system.now.network ≡ network_of spec.now }
    ensures text { IfOk result (λ made. IsCertificateText spec.now system.now bytes.now made.items) }
    ensures fits { IfOk result (λ made. Fits system.now made.items) }
    ensures refused { IfErr result (IsRefusal spec.now system.now bytes.now) }
{
    let mut reader = Reader {
        made: Stars::new(alloc),
        place: Place::BeforeHead,
        spare: Vec::new(alloc),
    };
    let mut rest = bytes;
    let mut line: u64 = 1;
    while !rest.is_empty() {
        let (front, behind) = cut_line(rest);
        reader = match take_line(alloc, spec, system, reader, front) {
            Ok(reader) => reader,
            Err(LineFault::Bad(what)) => return Err(TextFault::At { line, what }),
            Err(LineFault::Memory) => return Err(TextFault::Memory),
        };
        rest = behind;
        line += 1;
    }
    match ended(reader) {
        Ok(made) => Ok(made),
        Err(what) => Err(TextFault::At { line, what }),
    }
}

/// The stars that the last line leaves, or why the text may not end there.
fn ended(reader: Reader) -> Result<Vec<Star>, TextCause>
    ensures ok { IfOk result (λ made. Gives (state_of reader) made.items) }
    ensures refused { IfErr result (EndStands (state_of reader).group) }
{
    let Reader { made, place, .. } = reader;
    match place {
        Place::BeforeHead => Err(TextCause::BadHead),
        Place::AfterDone => Ok(made.into_vec()),
        _ => Err(TextCause::BadLine),
    }
}
