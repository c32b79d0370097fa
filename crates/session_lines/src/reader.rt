//! A reader of lines.
ghost use Rattle.std.specs.Prelude.{◌≡◌, ◌+◌, ◌≤◌, ◌<◌, ℕ, [], true, false, List, Ok, drop, length, take, IfOk, OnOk, OnErr};
ghost use Rattle.std.specs.declared.option.Option.{Option};
ghost use Rattle.eu_base.specs.Faults.{Rose};
ghost use Rattle.edge.specs.Faults.{HasCause};
ghost use Rattle.session_lines.specs.Lines.{first_line, after_line};
ghost use Rattle.session_lines.specs.Reading as spec;
ghost use Rattle.session_lines.specs.declared.reader.TheConstants.{ROOM};

use edge::{Failed, Source};
use eu_base::{Bytes, NoMemory};
use std::alloc::Global;
use std::marker::Model;
use task_numbers::LONGEST_LINE;

/// How many bytes a line of a session has at most: a channel, `>` and the longest line for a task.
pub const LONGEST: usize = LONGEST_LINE + 2;

/// How many bytes are ahead at most: more than the longest line has, so that there is room where more have to come.
pub const ROOM: usize = 512;

/// What stands at the front of the bytes that are left.
#[derive(Drop)]
pub enum Next {
    /// A line, without its end. It is taken.
    Line(Bytes),
    /// A line that is longer than a line can be. It is not taken.
    TooLong,
    /// No line.
    End,
    /// The source failed before that could be told.
    Fault,
}

/// Reads lines from a source, and keeps what it took beyond them. It takes bytes only where those ahead do not show what is next,
/// and none from a source that once had no more.
#[derive(Drop)]
pub struct LineReader {
    bytes: [u8; ROOM],
    filled: usize,
    ended: bool,
}

impl Model for LineReader {
    ghost use Rattle.std.specs.Prelude.{◌≤◌, take, length};
    ghost use Rattle.session_lines.specs.Reading as spec;

    ghost Value = { spec.Reading };

    ghost view = { λ reader. record { ahead = take reader.filled reader.bytes; ended = reader.ended } };

    ghost invariant = { λ reader. reader.filled ≤ length reader.bytes };
}

impl LineReader {
    /// Nothing was taken.
    pub fn new() -> LineReader
        ensures made { result ≡ record { ahead = []; ended = false } }
        ensures nothing { (left : Option (List ℕ)) → spec.HasRead left left result [] }
    {
        LineReader {
            bytes: [0; ROOM],
            filled: 0,
            ended: false,
        }
    }

    /// Reads one line, up to byte 10 or the end of input. Where memory is refused, or the source fails, nothing is lost.
    pub fn next_line<S: Source>(&mut self, alloc: Global, source: &mut S) -> Result<Next, NoMemory>
        ensures exact { IfOk result (spec.ReadsExactly (S.left source.old) (S.left source.new) self.old self.new) }
        ensures goes_on { IfOk result (spec.GoesOn (S.left source.old) (S.left source.new) self.old self.new) }
        ensures refused { OnErr result (spec.Takes (S.left source.old) (S.left source.new) self.old self.new) }
        ensures waits { spec.is_open self.old ≡ false → source.new ≡ source.old }
        ensures few { length self.new.ahead ≤ ROOM }
        ensures later { S.faults source.old ≤ S.faults source.new }
        ensures fault { result ≡ Ok Next.Fault → Rose (S.faults source.old) (S.faults source.new) }
    {
        match self.fill(source) {
            Ok(()) => self.front(alloc),
            Err(_) => Ok(Next::Fault),
        }
    }

    /// Takes bytes until those ahead show what is next.
    fn fill<S: Source>(&mut self, source: &mut S) -> Result<(), Failed>
        ensures takes { spec.Takes (S.left source.old) (S.left source.new) self.old self.new }
        ensures ok { OnOk result (spec.is_open self.new ≡ false) }
        ensures err { OnErr result (spec.is_open self.new ≡ true) }
        ensures waits { spec.is_open self.old ≡ false → source.new ≡ source.old }
        ensures few { length self.new.ahead ≤ ROOM }
        ensures cause { HasCause (S.faults source.old) (S.faults source.new) result }
    {
        'pieces: while self.is_open() {
            self.refill(source)?;
        }
        Ok(())
    }

    /// Whether more bytes have to come before what is next can be told.
    fn is_open(&self) -> bool
        ensures open_ { result ≡ spec.is_open self.now }
        ensures few { length self.now.ahead ≤ ROOM }
    {
        let ahead = self.ahead();
        !self.ended && ahead.len() <= LONGEST && !ahead.contains(&b'\n')
    }

    /// The bytes that are ahead.
    fn ahead(&self) -> &[u8]
        ensures ahead { result.now ≡ self.now.ahead }
        ensures few { length self.now.ahead ≤ ROOM }
    {
        &self.bytes[..self.filled]
    }

    /// Takes more bytes.
    fn refill<S: Source>(&mut self, source: &mut S) -> Result<(), Failed>
        requires { spec.is_open self.old ≡ true }
        ensures takes { spec.Takes (S.left source.old) (S.left source.new) self.old self.new }
        ensures ok { OnOk result (self.new.ended ≡ false → length self.old.ahead < length self.new.ahead) }
        ensures err { OnErr result (self.new ≡ self.old) }
        ensures cause { HasCause (S.faults source.old) (S.faults source.new) result }
    {
        let count = source.take(&mut self.bytes[self.filled..])?;
        self.filled += count;
        self.ended = count == 0;
        Ok(())
    }

    /// Takes the line at the front of the bytes that are ahead.
    fn front(&mut self, alloc: Global) -> Result<Next, NoMemory>
        ensures next { IfOk result (λ next. next ≡ spec.next_line self.old.ahead) }
        ensures rest { IfOk result (λ next. self.new ≡ record self.old { ahead = spec.left_after next self.old.ahead }) }
        ensures few { length self.new.ahead ≤ length self.old.ahead }
        ensures refused { OnErr result (self.new ≡ self.old) }
    {
        let ahead = self.ahead();
        if ahead.is_empty() {
            return Ok(Next::End);
        }
        let end = line_end(ahead);
        if end > LONGEST {
            return Ok(Next::TooLong);
        }
        let line = Bytes::from(alloc, &ahead[..end])?;
        self.skip(end + 1);
        Ok(Next::Line(line))
    }

    /// Lets go of so many bytes that are ahead.
    fn skip(&mut self, count: usize)
        ensures { self.new ≡ record self.old { ahead = drop count self.old.ahead } }
    {
        let count = count.min(self.filled);
        self.bytes.copy_within(count..self.filled, 0);
        self.filled -= count;
    }
}

/// How many bytes the first line has.
fn line_end(bytes: &[u8]) -> usize
    ensures within { result ≤ length bytes.now }
    ensures line { first_line bytes.now ≡ take result bytes.now }
    ensures rest { after_line bytes.now ≡ drop (result + 1) bytes.now }
{
    for (at, byte) in bytes.iter().enumerate() {
        if *byte == b'\n' {
            return at;
        }
    }
    bytes.len()
}
