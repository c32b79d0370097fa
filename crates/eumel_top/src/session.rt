//! The command `play`.
ghost use Rattle.std.specs.Prelude.{◌≡◌, ◌+◌, ◌<◌, ◌≤◌, ℕ, List, length, None, IfOk, IfErr, IfSome, MatchOption};
ghost use Rattle.eu_base.specs.Faults.{Rose};
ghost use Rattle.session_lines.specs.declared.reader.TheConstants.{LONGEST};
ghost use Rattle.eumel_top.specs.Below.system_meaning.specs.Systems.{opening};
ghost use Rattle.system.specs.Systems.{StandsFor};
ghost use Rattle.eumel_top.specs.Causes.{HasCause};
ghost use Rattle.eumel_top.specs.Midway as spec;
ghost use Rattle.eumel_top.specs.SessionPlay.{PlayEnds, PlayStops, PlaySettles};

use crate::{Desk, LineFault, PlayError};
use edge::{Sink, Source};
use session_lines::{Ending, LineReader, MOST_LINES, Next};
use std::alloc::Global;

/// Runs a session of the opening system: each line is served, and what its events show is put, before the next is read. It answers how
/// the session ended, or why it came to no end.
pub fn run_play<S: Source, K: Sink>(
    alloc: Global,
    plain: bool,
    source: &mut S,
    sink: &mut K,
) -> Result<Ending, PlayError>
    ensures ends { IfOk result (PlayEnds plain (S.left source.old) (K.taken sink.old) (K.taken sink.new)) }
    ensures stops { IfErr result (PlayStops plain (S.left source.old) (S.left source.new) (K.taken sink.old) (K.taken sink.new)) }
    // A fault is answered only where the faults of its object rose in this call, and no count falls.
    ensures cause { IfErr result (HasCause (Rose (S.faults source.old) (S.faults source.new)) (Rose (K.faults sink.old) (K.faults sink.new))) }
    ensures source_later { S.faults source.old ≤ S.faults source.new }
    ensures sink_later { K.faults sink.old ≤ K.faults sink.new }
    // Where no count rose, the answer follows from the bytes, or memory was wanting.
    ensures settles { ¬ Rose (S.faults source.old) (S.faults source.new) → ¬ Rose (K.faults sink.old) (K.faults sink.new) →
        PlaySettles plain (S.left source.old) result }
{
    let Ok(mut desk) = Desk::opening(alloc, plain) else {
        return Err(PlayError::NoMemory);
    };
    let end = serve_lines(alloc, &mut desk, source, sink);
    desk.let_go();
    end
}

/// Serves the lines of a source one after another, until the session has come to its answer.
fn serve_lines<S: Source, K: Sink>(
    alloc: Global,
    desk: &mut Desk,
    source: &mut S,
    sink: &mut K,
) -> Result<Ending, PlayError>
    requires stands { StandsFor desk.old.system opening }
    requires count { desk.old.count ≡ 0 }
    ensures ends { IfOk result (PlayEnds desk.old.plain (S.left source.old) (K.taken sink.old) (K.taken sink.new)) }
    ensures stops { IfErr result (PlayStops desk.old.plain (S.left source.old) (S.left source.new) (K.taken sink.old) (K.taken sink.new)) }
    ensures cause { IfErr result (HasCause (Rose (S.faults source.old) (S.faults source.new)) (Rose (K.faults sink.old) (K.faults sink.new))) }
    ensures source_later { S.faults source.old ≤ S.faults source.new }
    ensures sink_later { K.faults sink.old ≤ K.faults sink.new }
{
    let mut lines = LineReader::new();
    'lines: loop {
        if let Some(end) = serve_next(alloc, desk, &mut lines, source, sink) {
            return end;
        }
    }
}

/// Reads the next line and serves it. The answer of the session, where it has come to one.
fn serve_next<S: Source, K: Sink>(
    alloc: Global,
    desk: &mut Desk,
    lines: &mut LineReader,
    source: &mut S,
    sink: &mut K,
) -> Option<Result<Ending, PlayError>>
    ensures next { MatchOption result
        (spec.GoesOn desk.old desk.new lines.old lines.new (S.left source.old) (S.left source.new) (K.taken sink.old) (K.taken sink.new))
        (spec.Concludes desk.old lines.old (S.left source.old) (S.left source.new) (K.taken sink.old) (K.taken sink.new)) }
    ensures counted { result ≡ None → (desk.old.count < MOST_LINES) × (desk.new.count ≡ desk.old.count + 1) }
    ensures plain { desk.new.plain ≡ desk.old.plain }
    ensures cause { IfSome result (λ end. IfErr end
        (HasCause (Rose (S.faults source.old) (S.faults source.new)) (Rose (K.faults sink.old) (K.faults sink.new)))) }
    ensures source_later { S.faults source.old ≤ S.faults source.new }
    ensures sink_later { K.faults sink.old ≤ K.faults sink.new }
{
    let Ok(next) = lines.next_line(alloc, source) else {
        return Some(Err(PlayError::NoMemory));
    };
    match next {
        Next::Line(line) => serve_line(alloc, desk, line.as_slice(), sink),
        Next::TooLong => Some(refuse_long(alloc, desk, sink)),
        Next::End => Some(Ok(Ending::AtEnd)),
        Next::Fault => Some(Err(PlayError::SourceFault)),
    }
}

/// Serves a line, where a session has so many. The answer of the session, where it has come to one.
fn serve_line<K: Sink>(
    alloc: Global,
    desk: &mut Desk,
    line: &[u8],
    sink: &mut K,
) -> Option<Result<Ending, PlayError>>
    ensures line { MatchOption result
        (spec.LineGoes desk.old desk.new line.now (K.taken sink.old) (K.taken sink.new))
        (spec.LineEnds desk.old line.now (K.taken sink.old) (K.taken sink.new)) }
    ensures counted { result ≡ None → (desk.old.count < MOST_LINES) × (desk.new.count ≡ desk.old.count + 1) }
    ensures plain { desk.new.plain ≡ desk.old.plain }
    ensures cause { IfSome result (λ end. IfErr end (HasCause ⊥ (Rose (K.faults sink.old) (K.faults sink.new)))) }
    ensures later { K.faults sink.old ≤ K.faults sink.new }
{
    if desk.is_full() {
        return Some(Ok(Ending::Full));
    }
    match desk.line(alloc, line, sink) {
        Ok(true) => Some(Ok(Ending::ByShut)),
        Ok(false) => None,
        Err(fault) => Some(end_by(fault)),
    }
}

/// The answer of a session that comes to a line that is too long.
fn refuse_long<K: Sink>(alloc: Global, desk: &mut Desk, sink: &mut K) -> Result<Ending, PlayError>
    ensures line { (line : List ℕ) → LONGEST < length line → spec.LineEnds desk.old line (K.taken sink.old) (K.taken sink.new) result }
    ensures plain { desk.new.plain ≡ desk.old.plain }
    ensures cause { IfErr result (HasCause ⊥ (Rose (K.faults sink.old) (K.faults sink.new))) }
    ensures later { K.faults sink.old ≤ K.faults sink.new }
{
    if desk.is_full() {
        return Ok(Ending::Full);
    }
    end_by(desk.too_long(alloc, sink))
}

/// The answer of a session at a line that is not served.
fn end_by(fault: LineFault) -> Result<Ending, PlayError>
    ensures { result ≡ spec.end_by fault }
{
    match fault {
        LineFault::BadLine(number) => Ok(Ending::BadLine(number)),
        LineFault::SinkFault => Err(PlayError::SinkFault),
        LineFault::NoMemory => Err(PlayError::NoMemory),
    }
}
