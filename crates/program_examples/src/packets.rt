//! Packets through the library: what later texts see of them, and what they do over one memory.

use crate::rows::put;
use crate::typed::{self, Rests};
use code_form::listing;
use elan_types::Why;
use eu_base::{Bytes, Memory, Nowhere, decimal};
use packet_store::{CompileError, InstallError, Library, PACKETS, Refusal, Unit};
use page_pool::Pool;
use space_memory::SpaceMemory;
use std::alloc::Global;

/// Scenes of one task, each behind its name. A step stands behind `< `, and behind it its answer. A packet is compiled behind those
/// of the task and installed: its number, and what its units show; a refused one stays away. Another text is a program: what it
/// shows, or its listing. `start` has the number of a packet, and that of a start procedure in it. `release` lets a packet go that the task has last, and `fill` installs packets until one is refused: how many
/// live then, and the last number.
pub const SCENES: &str = "\
> what a packet shows, and what its variables keep
< PACKET p DEFINES n, up: INT CONST n :: 3; INT VAR v; INT PROC up: v INCR n; v END PROC up; put (n) END PACKET p
1
3 
< put (n); put (up); put (up)
3 3 6 
< put (up)
9 
< put (v)
Unknown 6
< INT CONST n :: 1; put (n); put (up)
1 12 
< n := 4
NoVariable 1
> a number and a text
< PACKET p DEFINES step: INT VAR n :: 41; TEXT VAR t; PROC step: n INCR 1; t CAT \"ab\"; put (n); put (t) END PROC step END PACKET p
1
< step
42 ab 
< step
43 abab 
< listing PROC q: step END PROC q; q
0 MARK
1 CALL 20 0
2 END
3 MARK
4 PACK 1 0
5 INT 1
6 DO INCR
7 MARK
8 PACK 1 1
9 TEXT 0
10 DO CAT
11 MARK
12 PACK 1 0
13 LOAD INT
14 ASK put(INT)
15 MARK
16 PACK 1 1
17 LOAD TEXT
18 ASK put(TEXT)
19 BACK
20 MARK
21 CALL 3 0
22 BACK
> a packet that uses a packet that uses a packet
< PACKET a DEFINES A, :=, +, new a, value, count a: TYPE A = INT; INT VAR made; OP := (A VAR l, A CONST r): CONCR (l) := CONCR (r) END OP :=; A OP + (A CONST l, r): new a (CONCR (l) + CONCR (r)) END OP +; A PROC new a (INT CONST i): A VAR x; CONCR (x) := i; made INCR 1; x END PROC new a; INT PROC value (A CONST x): CONCR (x) END PROC value; INT PROC count a: made END PROC count a END PACKET a
1
< PACKET b DEFINES B, DOUBLE, pair, sum: TYPE B = STRUCT (A left, right); A VAR last :: new a (5); A OP DOUBLE (A CONST x): last := x + x; last END OP DOUBLE; B PROC pair (A CONST l, r): B VAR p; CONCR (p).left := l; CONCR (p).right := r; p END PROC pair; A PROC sum (B CONST p): CONCR (p).left + CONCR (p).right END PROC sum END PACKET b
2
< PACKET c DEFINES total: A VAR all :: new a (0); INT PROC total (B CONST p): all := all + sum (p); value (all) END PROC total; put (count a) END PACKET c
3
2 
< put (total (pair (new a (3), DOUBLE new a (4)))); put (count a)
11 7 
< put (total (pair (new a (1), new a (1)))); put (count a)
13 11 
< A VAR x :: new a (9); put (value (x + x))
18 
< B VAR p :: pair (new a (1), new a (2)); put (total (p))
16 
< B VAR p; p := pair (new a (1), new a (2))
WrongType 10
< A VAR x; CONCR (x) := 1
WrongPlace 10
> two packets that show one name
< PACKET a DEFINES f, T, mk: TYPE T = INT; INT PROC f: 1 END PROC f; INT PROC f (INT CONST i): i END PROC f; T PROC mk: T VAR t; CONCR (t) := 7; t END PROC mk END PACKET a
1
< PACKET b DEFINES f, T, take: TYPE T = INT; INT PROC f: f + 1 END PROC f; INT PROC take (T CONST t): CONCR (t) END PROC take END PACKET b
2
< PACKET b DEFINES f, T, take: TYPE T = INT; INT PROC f: 2 END PROC f; INT PROC take (T CONST t): CONCR (t) END PROC take END PACKET b
3
< put (f); put (f (5))
2 5 
< T VAR t; put (take (t)); put (take (mk))
WrongType 31
< T VAR t; put (take (t))
0 
< INT PROC f: 3 END PROC f; put (f)
3 
> what DEFINES may name
< PACKET p DEFINES n: LET n = 3; END PACKET p
WrongPlace 18
< PACKET p DEFINES n: INT VAR n END PACKET p
WrongPlace 18
< PACKET p DEFINES n: END PACKET p
Unknown 18
< PACKET p DEFINES n, n: INT CONST n :: 1 END PACKET p
Doubled 21
< PACKET p DEFINES r: r. r: put (1). END PACKET p
Unknown 18
< PACKET p DEFINES T: TYPE U = INT END PACKET p
Unknown 18
< PACKET p DEFINES put: END PACKET p
Unknown 18
< PACKET p DEFINES T: LET T = INT; END PACKET p
WrongPlace 18
< PACKET p DEFINES +, INCR: OP INCR (BOOL VAR b): b := NOT b END OP INCR; INT OP + (BOOL CONST b): 4 END OP + END PACKET p
1
< BOOL VAR b; INCR b; put (+ b); put (3 + 4)
4 7 
< PACKET p: put (1) END PACKET q
NotElan 30
< PACKET p: \"
NoToken 11
> a number that is released is not given again
< PACKET p: END PACKET p
1
< PACKET q DEFINES f: INT PROC f: 8 END PROC f END PACKET q
2
< put (f)
8 
< release
1
< put (f)
Unknown 6
< PACKET q DEFINES f: INT PROC f: 9 END PROC f END PACKET q
3
< put (f)
9 
> so many packets live
< PACKET p DEFINES a: INT CONST a :: 5; END PACKET p
1
< fill
64 64
< PACKET p: END PACKET p
Full
< release
63
< PACKET q DEFINES b: INT CONST b :: a + 1; END PACKET q
65
< put (a + b)
11 
> the cells of all packets
< PACKET p DEFINES v: ROW 10000 INT VAR r; INT PROC v: r [10000] INCR 1; r [10000] END PROC v END PACKET p
1
< PACKET q: ROW 6384 INT VAR r; r [6384] := 2; put (r [6384] + v) END PACKET q
2
3 
< PACKET r: INT VAR i; put (1) END PACKET r
3
FEHLER : Stapelueberlauf
> start procedures
< PACKET o DEFINES one: INT PROC one: 1 END PROC one END PACKET o
1
< PACKET p: INT VAR n :: 1; PROC run: INT VAR i; TEXT VAR t; t CAT \"ab\"; FOR i UPTO n REP show (i) PER; n INCR one; put (t); IF n = 3 THEN LEAVE run FI; put (0) END PROC run; PROC show (INT CONST i): put (i) END PROC show; INT PROC count: n END PROC count; PROC deep: ROW 16383 INT VAR r; r [1] := 1 END PROC deep; PROC wide: ROW 16382 INT VAR r; r [16382] := 5; put (r [16382]) END PROC wide; PROC again: again END PROC again; PROC empty: END PROC empty END PACKET p
2
< start 2 0
1 ab 0 
< start 2 0
1 2 ab 
< start 2 1
None
< start 2 2
None
< start 2 3
FEHLER : Stapelueberlauf
< start 2 4
5 
< start 2 5
FEHLER : Stapelueberlauf
< start 2 6
< start 2 7
None
< start 1 0
None
< start 3 0
None
< release
1
< start 2 0
None
> programs that begin tasks
< PACKET o DEFINES one: INT PROC one: 1 END PROC one END PACKET o
1
< PACKET p DEFINES first, second, value, with: PROC help: put (1) END PROC help; PROC first: help END PROC first; PROC second: TASK VAR t; begin (\"s\", PROC first, t); put (name (t)) END PROC second; INT PROC value: 4 END PROC value; PROC with (INT CONST n): put (n) END PROC with END PACKET p
2
< TASK VAR t; begin (\"s\", PROC first, t); put (name (t))
PUBLIC 
< second
PUBLIC 
< TASK VAR t; begin (\"s\", PROC second, t); put (name (t))
a 
< TASK VAR t; begin (\"s\", PROC value, t)
WrongPlace 25
< TASK VAR t; begin (\"s\", PROC with, t)
WrongPlace 25
< TASK VAR t; begin (\"s\", PROC help, t)
Unknown 30
< TASK VAR t; begin (1, PROC first, t)
WrongType 13
< begin (\"s\", PROC first, niltask)
NoVariable 25
< begin (\"s\", PROC first)
Unknown 1
< put (PROC first)
WrongPlace 6
< PACKET q: PROC own: put (1) END PROC own; TASK VAR t; begin (\"s\", PROC own, t); IF NOT exists (t) THEN put (6) FI END PACKET q
3
6 
< listing TASK VAR t; begin (\"s\", PROC second, t)
0 MARK
1 MARK
2 TEXT 0
3 OUTER 0
4 ASK begin(TEXT,PROC 2 2,TASK)
5 END
6 MARK
7 JUMP 6
8 BACK
9 BACK
10 BACK
11 BACK
12 MARK
13 JUMP 12
14 BACK
15 BACK
16 BACK
> code of what is reached
< PACKET p DEFINES go, other: PROC go: INT VAR i; help; i := 2 END PROC go; PROC help: put (1) END PROC help; PROC other: put (3); other END PROC other; INT PROC value: 4 END PROC value END PACKET p
1
< listing start 1 0
0 MARK
1 MARK
2 CALL 18 0
3 MARK
4 LOCAL 0
5 INT 2
6 STORE INT
7 BACK
8 CALL 10 1
9 END
10 MARK
11 MARK
12 CALL 18 0
13 MARK
14 LOCAL 0
15 INT 2
16 STORE INT
17 BACK
18 MARK
19 INT 1
20 ASK put(INT)
21 BACK
22 BACK
23 MARK
24 JUMP 23
25 BACK
< listing go
0 MARK
1 CALL 3 1
2 END
3 MARK
4 MARK
5 CALL 11 0
6 MARK
7 LOCAL 0
8 INT 2
9 STORE INT
10 BACK
11 MARK
12 INT 1
13 ASK put(INT)
14 BACK
15 BACK
16 MARK
17 JUMP 16
18 BACK
";

// Why a text is refused, in the words of the types.
fn word(why: Why) -> &'static str {
    match why {
        Why::Unknown => "Unknown",
        Why::Doubled => "Doubled",
        Why::WrongType => "WrongType",
        Why::NoVariable => "NoVariable",
        Why::WrongPlace => "WrongPlace",
        Why::TooLarge => "TooLarge",
    }
}

fn put_number(alloc: Global, out: &mut Bytes, n: u32) {
    if let Ok(digits) = decimal(alloc, i64::from(n)) {
        put(out, digits.as_slice());
    }
}

// A word, and the number behind it.
fn put_at(alloc: Global, out: &mut Bytes, word: &str, n: u32) {
    put(out, word.as_bytes());
    put(out, b" ");
    put_number(alloc, out, n);
    put(out, b"\n");
}

fn put_refusal(alloc: Global, out: &mut Bytes, cause: CompileError) {
    match cause {
        CompileError::NoMemory => put(out, b"NoMemory\n"),
        CompileError::Refused(Refusal::NoToken(place)) => put_at(alloc, out, "NoToken", place),
        CompileError::Refused(Refusal::TooMany) => put(out, b"TooMany\n"),
        CompileError::Refused(Refusal::NotElan(place)) => put_at(alloc, out, "NotElan", place),
        CompileError::Refused(Refusal::NoMeaning(place, why)) => {
            put_at(alloc, out, word(why), place);
        }
    }
}

// A task: the live packets, and the numbers of its own in order.
// What has parts of many kinds is let go by its own call, so that the crate proves nothing of these parts.
struct Task {
    library: Library,
    packets: Vec<u32>,
    rests: Rests,
}

impl Task {
    fn compile(&self, alloc: Global, out: &mut Bytes, text: &str, packet: bool) -> Option<Unit> {
        if text.len() > 20_000 {
            return None;
        }
        let compiled = self
            .library
            .compile(alloc, self.packets.as_slice(), text.as_bytes(), packet);
        match compiled {
            Ok(unit) => Some(unit),
            Err(cause) => {
                put_refusal(alloc, out, cause);
                None
            }
        }
    }

    // Installs a unit, where it is a packet; its number.
    fn install(&mut self, alloc: Global, unit: Unit) -> Result<u32, InstallError> {
        let unit = unit.loaded();
        if unit.compiled().shown.is_none() {
            unit.let_go();
            return Err(InstallError::NoMemory);
        }
        let number = self.library.install(alloc, unit)?;
        match self.packets.push(number) {
            Ok(()) => Ok(number),
            Err(_refusal) => Err(InstallError::NoMemory),
        }
    }

    // Adds a packet, and lets its units run.
    fn insert<M: Memory>(&mut self, alloc: Global, out: &mut Bytes, text: &str, memory: &mut M) {
        if let Some(unit) = self.compile(alloc, out, text, true) {
            match self.install(alloc, unit) {
                Ok(number) => {
                    put_number(alloc, out, number);
                    put(out, b"\n");
                    if let Some(live) = self.library.get(number) {
                        typed::run_over(alloc, out, live.unit().code(), "", self.rests, memory);
                    }
                }
                Err(InstallError::Full) => put(out, b"Full\n"),
                Err(InstallError::NoMemory) => put(out, b"NoMemory\n"),
            }
        }
    }

    // Installs packets as long as they are taken; how many live, and the last number.
    fn fill(&mut self, alloc: Global, out: &mut Bytes) {
        for _ in 0..PACKETS {
            if let Some(unit) = self.compile(alloc, out, "PACKET p: END PACKET p", true) {
                let _number = self.install(alloc, unit).is_ok();
            }
        }
        put_number(alloc, out, self.library.count());
        let last = self.packets.as_slice().last().copied();
        put_at(alloc, out, "", last.unwrap_or(0));
    }

    // Lets the last packet go; how many live.
    fn release(&mut self, alloc: Global, out: &mut Bytes) {
        if let Some(number) = self.packets.pop() {
            if self.library.get(number).is_some() {
                self.library.release(number);
            }
        }
        put_number(alloc, out, self.library.count());
        put(out, b"\n");
    }

    // The unit of a start procedure, by the numbers of its packet and in it.
    fn starting(&self, alloc: Global, out: &mut Bytes, numbers: &str) -> Option<Unit> {
        let (packet, number) = numbers.split_once(' ')?;
        let packet = packet.parse::<u32>().ok()?;
        let number = number.parse::<usize>().ok()?;
        let unit = self
            .library
            .starting(alloc, self.packets.as_slice(), packet, number)
            .ok()?;
        if unit.is_none() {
            put(out, b"None\n");
        }
        unit
    }

    // The unit of a program, or of a start procedure.
    fn command(&self, alloc: Global, out: &mut Bytes, step: &str) -> Option<Unit> {
        match step.strip_prefix("start ") {
            Some(numbers) => self.starting(alloc, out, numbers),
            None => self.compile(alloc, out, step, false),
        }
    }

    fn program<M: Memory>(&self, alloc: Global, out: &mut Bytes, text: &str, memory: &mut M) {
        if let Some(unit) = self.command(alloc, out, text) {
            typed::run_over(alloc, out, unit.code(), "", self.rests, memory);
            unit.let_go();
        }
    }

    fn list(&self, alloc: Global, out: &mut Bytes, text: &str) {
        if let Some(unit) = self.command(alloc, out, text) {
            if let Ok(listed) = listing(alloc, unit.code()) {
                put(out, listed.as_slice());
            }
            unit.let_go();
        }
    }

    fn step<M: Memory>(&mut self, alloc: Global, out: &mut Bytes, step: &str, memory: &mut M) {
        if step == "release" {
            self.release(alloc, out);
        } else if step == "fill" {
            self.fill(alloc, out);
        } else if let Some(text) = step.strip_prefix("listing ") {
            self.list(alloc, out, text);
        } else if step.starts_with("PACKET ") {
            self.insert(alloc, out, step, memory);
        } else {
            self.program(alloc, out, step, memory);
        }
    }
}

/// Adds the steps of a scene with their answers.
pub fn answer(alloc: Global, out: &mut Bytes, row: &str, rests: Rests) {
    let Ok(mut pool) = Pool::new(alloc) else {
        return;
    };
    let mut memory = SpaceMemory::new(alloc);
    let mut nowhere = Nowhere;
    let mut lent = memory.over(&mut pool, &mut nowhere);
    let mut task = Task {
        library: Library::new(alloc),
        packets: Vec::new(alloc),
        rests,
    };
    let mut parts = row.split("\n< ");
    let _name = parts.next();
    for part in parts {
        let (step, _) = part.split_once('\n').unwrap_or((part, ""));
        put(out, b"< ");
        put(out, step.as_bytes());
        put(out, b"\n");
        task.step(alloc, out, step, &mut lent);
    }
    let Task {
        library,
        packets: _,
        rests: _,
    } = task;
    library.let_go();
}
