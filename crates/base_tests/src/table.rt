//! Operations with their operands, and what comes of them.

use eu_base::{Bytes, Kind, NoMemory, Operation, TextOperation, Value, decimal};
use std::alloc::Global;
use zero_ops::{OpError, append, apply};

/// A row is an operation, its operands and its result. `~` stands for a line end, `4*ab` for `aaaab`, `#128` for that byte, and 1
/// for true. One text, since the check goes over each item of an array.
const TABLE: &str = "\
join|||
join||a|a
join|a||a
join|ab|cd|abcd
CAT|||
CAT||a|a
CAT|a||a
CAT|ab|cd|abcd
CAT|ab|ab|abab
join|16000*a||16000*a
join|15999*a|b|15999*ab
join|16000*a|b|Text zu lang
join|15998*a|bcd|Text zu lang
CAT|15999*a|b|15999*ab
CAT|16000*a||16000*a
CAT||16000*a|16000*a
CAT|16000*a|b|Text zu lang
CAT|a|16000*b|Text zu lang
CAT|16000*a|16000*a|Text zu lang
repeat|3|ab|ababab
repeat|1|ab|ab
repeat|0|ab|
repeat|-1|ab|
repeat|-32768|ab|
repeat|32767||
repeat|5334|abc|Text zu lang
repeat|16001|a|Text zu lang
repeat|32767|aaaa|Text zu lang
repeat|16000|a|16000*a
equal|||1
less|||0
equal||a|0
less||a|1
equal|a||0
less|a||0
equal|a|ab|0
less|a|ab|1
equal|ab|a|0
less|ab|a|0
equal|ab|b|0
less|ab|b|1
equal|b|ab|0
less|b|ab|0
equal|abc|abc|1
less|abc|abc|0
equal|\u{7f}|\u{80}|0
less|\u{7f}|\u{80}|1
equal|\u{ff}|z|0
less|\u{ff}|z|0
equal|a\u{ff}|b|0
less|a\u{ff}|b|1
less|15998*a|15998*ab|1
less|15998*ab|15998*a|0
equal|16000*a|16000*a|1
equal|15999*ab|16000*a|0
subtext|abc|1|3|abc
subtext|abc|2|2|b
subtext|abc|2|9|bc
subtext|abc|0|2|ab
subtext|abc|-1|2|ab
subtext|abc|-32768|32767|abc
subtext|abc|3|2|
subtext|abc|4|4|
subtext|abc|4|9|
subtext|abc|9|4|
subtext|abc|0|0|
subtext|abc|1|0|
subtext|abc|2|-1|
subtext|abc|-5|-1|
subtext||1|1|
subtext||0|0|
subtext|16000*a|2|16000|15999*a
subtext|15999*ab|15999|16000|ab
subtext|15999*ab|16000|32767|b
subtext|15999*ab|16001|32767|
from|abc|1|abc
from|abc|3|c
from|abc|4|
from|abc|32767|
from|abc|0|abc
from|abc|-1|abc
from||1|
from||0|
from|16000*a|1|16000*a
from|15999*ab|15999|ab
SUB|abc|1|a
SUB|abc|3|c
SUB|abc|4|
SUB|abc|32767|
SUB|abc|0|
SUB|abc|-1|
SUB||1|
SUB||0|
SUB|15999*ab|16000|b
SUB|15999*ab|16001|
LENGTH||0
LENGTH|abc|3
LENGTH|16000*a|16000
pos|abcabc|abc|1
pos|abcabc|bc|2
pos|abcabc|ca|3
pos|abc|c|3
pos|abc|abc|1
pos|aaab|aab|2
pos|abc|d|0
pos|abc|cb|0
pos|abc|abcd|0
pos|abc||0
pos||a|0
pos|||0
pos|15999*ab|b|16000
pos|15999*ab|aab|15998
pos|16000*a|b|0
pos|16000*a|16000*a|1
int|5|5
int|0|0
int|32767|32767
int|-32768|-32768
int|+5|5
int|-5|-5
int|-0|0
int|000000000000012|12
int| 5|5
int|5 |5
int|\u{9}\u{d}~ -5 ~\u{d}\u{9}|-5
int||0
int| |0
int|+|0
int|-|0
int|- 5|0
int|+-5|0
int|--5|0
int|5-|0
int|5 6|0
int|5x|0
int|x5|0
int|1.5|0
int|\u{c}5|0
int|5\u{b}|0
int|5\u{0}|0
int|5\u{e9}|0
int|\u{661}|0
int|32768|0
int|-32769|0
int|99999999999999999999|0
int|15998*012|12
text|0|0
text|7|7
text|-1|-1
text|32767|32767
text|-32768|-32768
code||-1
code|\u{0}|0
code|A|65
code|ab|97
code|\u{e9}|195
char|0|\u{0}
char|65|A
char|127|\u{7f}
char|-1|falscher Code
char|256|falscher Code
char|-256|falscher Code
char|32767|falscher Code
char|-32768|falscher Code
char|128|#128
code|#128|128
char|255|#255
code|#255|255
unequal|a|a|0
unequal|a|b|1
lesseq|ab|ab|1
lesseq|b|ab|0
lesseq||a|1
more|b|ab|1
more|ab|ab|0
moreeq|ab|ab|1
moreeq|a|ab|0
mixed|5|ab|ab
missing|ab|ab
plus|32767|32767
minus|-32768|INT-Ueberlauf
add|32766|1|32767
add|32767|1|INT-Ueberlauf
subtract|-32768|1|INT-Ueberlauf
times|-182|180|-32760
DIV|-7|2|-3
DIV|1|0|Division durch 0
DIV|-32768|-1|INT-Ueberlauf
MOD|-7|2|1
MOD|1|0|Division durch 0
abs|-32768|INT-Ueberlauf
min|-1|1|-1
max|-1|1|1
maxint|32767
below|-1|0|1
same|1|0|0
AND|1|1|1
OR|0|0|0
NOT|0|1
niltask|0
nilspace|-
one|0|0|1
one|4294967295|4294967295|1
one|1|4294967295|0
other|65536|0|1
other|7|7|0
";

/// The names that stand in the table, in the order of the arms of `operation`.
const NAMES: &str =
    "plus minus add subtract times DIV MOD abs min max maxint below same AND OR NOT join repeat equal unequal \
less lesseq more moreeq SUB LENGTH pos subtext from code char text int niltask one other nilspace";

fn place_of(name: &str) -> usize {
    let mut place = 0usize;
    for word in NAMES.split(' ') {
        if word == name {
            return place;
        }
        place = place.saturating_add(1);
    }
    place
}

// The operation of that name, found by its place, since a match on texts compares one after another.
fn operation(name: &str) -> Operation {
    match place_of(name) {
        0 => Operation::Plus,
        1 => Operation::Negate,
        2 => Operation::Add,
        3 => Operation::Subtract,
        4 => Operation::Multiply,
        5 => Operation::Divide,
        6 => Operation::Modulo,
        7 => Operation::Absolute,
        8 => Operation::Minimum,
        9 => Operation::Maximum,
        10 => Operation::Largest,
        11 => Operation::Less,
        12 => Operation::Same,
        13 => Operation::And,
        14 => Operation::Or,
        15 => Operation::Not,
        33 => Operation::NoTask,
        34 => Operation::SameTask,
        35 => Operation::OtherTask,
        36 => Operation::NilSpace,
        place => Operation::OnTexts(on_texts(place)),
    }
}

fn on_texts(place: usize) -> TextOperation {
    match place {
        17 => TextOperation::Repeat,
        18 => TextOperation::Equal,
        19 => TextOperation::Unequal,
        20 => TextOperation::Less,
        21 => TextOperation::LessEqual,
        22 => TextOperation::Greater,
        23 => TextOperation::GreaterEqual,
        24 => TextOperation::ByteAt,
        25 => TextOperation::Length,
        26 => TextOperation::PlaceOf,
        27 => TextOperation::Subtext,
        28 => TextOperation::SubtextFrom,
        29 => TextOperation::CodeOf,
        30 => TextOperation::TextOfCode,
        31 => TextOperation::TextOfNumber,
        32 => TextOperation::NumberIn,
        _ => TextOperation::Join,
    }
}

// The kinds of the values to which an operation is applied. Two rows give `join` others than its operands.
fn kinds(name: &str, operation: Operation) -> &'static [Kind] {
    match name {
        "mixed" => &[Kind::Int, Kind::Text],
        "missing" => &[Kind::Text],
        _ => operation.operand_kinds(),
    }
}

// Where memory is refused, what is found is not what a row tells, so nothing else has to say it.
fn add(text: &mut Bytes, bytes: &[u8]) {
    let _added = text.append(bytes).is_ok();
}

fn split(text: &str, at: char) -> (&str, &str) {
    text.split_once(at).unwrap_or((text, ""))
}

fn number(cell: &str) -> i16 {
    cell.parse().unwrap_or(0)
}

fn add_letters(text: &mut Bytes, letters: &[u8]) {
    for letter in letters {
        let byte = if *letter == b'~' { b'\n' } else { *letter };
        add(text, &[byte]);
    }
}

// The letters of a cell, the first of which stands so often more.
fn letters(alloc: Global, more: i16, letters: &[u8]) -> Bytes {
    let mut text = Bytes::new(alloc);
    for _ in 0..more {
        add(&mut text, letters.get(..1).unwrap_or(b""));
    }
    add_letters(&mut text, letters);
    text
}

// The byte of that code.
fn coded(alloc: Global, code: i16) -> Bytes {
    letters(alloc, 0, &[(code.unsigned_abs() % 256) as u8])
}

// The text that a cell stands for.
fn written(alloc: Global, cell: &str) -> Bytes {
    let (times, rest) = split(cell, '*');
    match cell.strip_prefix('#') {
        Some(code) => coded(alloc, number(code)),
        None if rest == "" => letters(alloc, 0, cell.as_bytes()),
        None => letters(alloc, number(times).saturating_sub(1), rest.as_bytes()),
    }
}

// The value of a kind for which a cell stands.
fn value(alloc: Global, kind: Kind, cell: &str) -> Value {
    match kind {
        Kind::Int => Value::Int(number(cell)),
        Kind::Truth => Value::Truth(cell == "1"),
        Kind::Text => Value::Text(written(alloc, cell)),
        Kind::Task => Value::Task(cell.parse().unwrap_or(0)),
        Kind::Space => Value::Space(None),
    }
}

fn operands(alloc: Global, kinds: &[Kind], cells: &str) -> Vec<Value> {
    let mut values = Vec::new(alloc);
    for (kind, cell) in kinds.iter().zip(cells.split('|')) {
        let _added = values.push(value(alloc, *kind, cell)).is_ok();
    }
    values
}

fn or_refused(alloc: Global, text: Result<Bytes, NoMemory>) -> Bytes {
    match text {
        Ok(text) => text,
        Err(NoMemory) => letters(alloc, 0, b"no memory"),
    }
}

// What a value shows.
fn shown(alloc: Global, value: Value) -> Bytes {
    match value {
        Value::Int(number) => or_refused(alloc, decimal(alloc, i64::from(number))),
        Value::Truth(truth) => letters(alloc, 0, if truth { b"1" } else { b"0" }),
        Value::Text(text) => text,
        Value::Task(task) => or_refused(alloc, decimal(alloc, i64::from(task))),
        Value::Space(None) => letters(alloc, 0, b"-"),
        Value::Space(Some(s)) => or_refused(alloc, decimal(alloc, i64::from(s.0))),
    }
}

fn stopped(alloc: Global, error: OpError) -> Bytes {
    or_refused(
        alloc,
        match error {
            OpError::Stop(fault) => fault.stop().text(alloc),
            OpError::NoMemory => Err(NoMemory),
        },
    )
}

fn applied(alloc: Global, name: &str, cells: &str) -> Bytes {
    let operation = operation(name);
    let values = operands(alloc, kinds(name, operation), cells);
    match apply(alloc, operation, values.as_slice()) {
        Ok(value) => shown(alloc, value),
        Err(error) => stopped(alloc, error),
    }
}

fn appended(alloc: Global, cells: &str) -> Bytes {
    let (s, t) = split(cells, '|');
    let mut text = written(alloc, s);
    match append(&mut text, written(alloc, t).as_slice()) {
        Ok(()) => text,
        Err(error) => stopped(alloc, error),
    }
}

fn found(alloc: Global, row: &str) -> Bytes {
    let (name, cells) = split(row, '|');
    match name {
        "CAT" => appended(alloc, cells),
        _ => applied(alloc, name, cells),
    }
}

fn is_right(alloc: Global, row: &str) -> bool {
    let (operation, told) = row.rsplit_once('|').unwrap_or((row, ""));
    found(alloc, operation).as_slice() == written(alloc, told).as_slice()
}

// How many rows are as they say, before the first that is not.
fn right_rows(alloc: Global) -> usize {
    let mut rows = 0usize;
    for row in TABLE.lines() {
        if !is_right(alloc, row) {
            return rows;
        }
        rows = rows.saturating_add(1);
    }
    rows
}

#[test]
fn each_operation_gives_what_the_table_says(rt: HostRuntime) {
    assert!(rt; right_rows(rt.alloc()) == 206);
}
