//! The command `play`, with the status that it ends with.
ghost use Rattle.std.specs.Prelude.{◌≡◌, ◌≤◌, false};
ghost use Rattle.eu_base.specs.Faults.{Rose};
ghost use Rattle.line_command.specs.Answer.{HasCause};
ghost use Rattle.eumel_top.specs.Play as spec;

use crate::{Ending, PlayError, run_play};
use edge::{Sink, Source};
use line_command::Status;
use std::alloc::Global;

/// Runs a session of the opening system.
pub(crate) fn play<S: Source, K: Sink>(alloc: Global, source: &mut S, sink: &mut K) -> Status
    ensures answer { spec.PlayAnswers false (S.left source.old) (S.left source.new) (K.taken sink.old) (K.taken sink.new) result }
    ensures cause { HasCause (Rose (S.faults source.old) (S.faults source.new)) (Rose (K.faults sink.old) (K.faults sink.new)) ⊥ result }
    ensures source_later { S.faults source.old ≤ S.faults source.new }
    ensures sink_later { K.faults sink.old ≤ K.faults sink.new }
    ensures settles { ¬ Rose (S.faults source.old) (S.faults source.new) → ¬ Rose (K.faults sink.old) (K.faults sink.new) →
        spec.PlaySettles false (S.left source.old) result }
{
    status_of(run_play(alloc, false, source, sink))
}

fn status_of(end: Result<Ending, PlayError>) -> Status
    ensures { result ≡ spec.status_of end }
{
    match end {
        Ok(Ending::ByShut) | Ok(Ending::AtEnd) => Status::Done,
        Ok(Ending::BadLine(number)) => Status::BadLine(number),
        Ok(Ending::Full) => Status::SessionFull,
        Err(PlayError::NoMemory) => Status::NoMemory,
        Err(PlayError::SourceFault) => Status::SourceFault,
        Err(PlayError::SinkFault) => Status::SinkFault,
    }
}
