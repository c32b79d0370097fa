//! The top call.
ghost use Rattle.std.specs.Prelude.{◌≡◌, ◌≤◌, ◌↔◌, false, map};
ghost use Rattle.std.specs.String.{string_bytes};
ghost use Rattle.eu_base.specs.Faults.{Rose};
ghost use Rattle.eumel_top.specs.Words.{Names, NamesNone};
ghost use Rattle.eumel_top.specs.Play.{PlayAnswers, PlaySettles};
ghost use Rattle.line_command.specs.Answer.{LineAnswers, HasCause, LineSettles};
ghost use Rattle.eumel_top.specs.declared.command.Command.{Command};

use crate::command::{Command, command_of};
use crate::play::play;
use edge::{Disk, Sink, Source};
use line_command::{Status, run_line};
use std::alloc::Global;

/// Carries out the command that the words name, over the disk, the source and the sink that are handed in.
pub fn eumel<D: Disk, S: Source, K: Sink>(
    alloc: Global,
    words: &[String],
    disk: &mut D,
    source: &mut S,
    sink: &mut K,
) -> Status
    // The words are refused exactly where they name no command, and then nothing is put, taken or touched.
    ensures bad_words { (result ≡ Status.BadWords) ↔ NamesNone (map string_bytes words.now) }
    ensures bad_words_leaves { result ≡ Status.BadWords → (source.new ≡ source.old) × (sink.new ≡ sink.old) × (disk.new ≡ disk.old) }
    // A fault is answered only where the faults of its object rose in this call, and no count falls.
    ensures cause { HasCause (Rose (S.faults source.old) (S.faults source.new)) (Rose (K.faults sink.old) (K.faults sink.new))
        (Rose (D.faults disk.old) (D.faults disk.new)) result }
    ensures source_later { S.faults source.old ≤ S.faults source.new }
    ensures sink_later { K.faults sink.old ≤ K.faults sink.new }
    ensures disk_later { D.faults disk.old ≤ D.faults disk.new }
    // `line`: what is put and taken with each status; the disk is not touched.
    ensures line { Names (map string_bytes words.now) Command.Line →
        LineAnswers (S.left source.old) (S.left source.new) (K.taken sink.old) (K.taken sink.new) result }
    ensures line_disk { Names (map string_bytes words.now) Command.Line → disk.new ≡ disk.old }
    // `line`: where no count rose, the status follows from the bytes, or memory was wanting.
    ensures line_settles { Names (map string_bytes words.now) Command.Line →
        ¬ Rose (S.faults source.old) (S.faults source.new) → ¬ Rose (K.faults sink.old) (K.faults sink.new) →
        LineSettles (S.left source.old) result }
    // `play`: what is put and taken with each status, in the form with channels; the disk is not touched.
    ensures play { Names (map string_bytes words.now) Command.Play →
        PlayAnswers false (S.left source.old) (S.left source.new) (K.taken sink.old) (K.taken sink.new) result }
    ensures play_disk { Names (map string_bytes words.now) Command.Play → disk.new ≡ disk.old }
    // `play`: where no count rose, the status follows from the bytes, or memory was wanting.
    ensures play_settles { Names (map string_bytes words.now) Command.Play →
        ¬ Rose (S.faults source.old) (S.faults source.new) → ¬ Rose (K.faults sink.old) (K.faults sink.new) →
        PlaySettles false (S.left source.old) result }
{
    let _ = disk;
    match command_of(words) {
        Some(Command::Line) => run_line(alloc, source, sink),
        Some(Command::Play) => play(alloc, source, sink),
        None => Status::BadWords,
    }
}
