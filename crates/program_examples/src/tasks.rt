//! Programs with TASKs. What they ask of tasks is answered in a session alone.

use eu_base::{Bytes, Reply, Request, Stop};
use std::alloc::Global;

// Task 1 is the father of task 2, and that of task 3, which runs the program. No other lives.
fn name_of(task: u32) -> &'static str {
    match task {
        1 => "UR",
        2 => "PUBLIC",
        3 => "a",
        _ => "",
    }
}

fn named(name: &[u8]) -> u32 {
    match name {
        b"UR" => 1,
        b"PUBLIC" => 2,
        b"a" => 3,
        _ => 0,
    }
}

fn father_of(task: u32) -> u32 {
    match task {
        2 => 1,
        3 => 2,
        _ => 0,
    }
}

fn son_of(task: u32) -> u32 {
    match task {
        1 => 2,
        2 => 3,
        _ => 0,
    }
}

/// What these tasks answer to a request that is no output and no input. A son has the number of its start procedure, for a test to see it.
pub fn reply_to(alloc: Global, request: &Request) -> Reply {
    match request {
        Request::Myself => Reply::Task(3),
        Request::Father(task) => Reply::Task(father_of(task.unwrap_or(3))),
        Request::Son(task) => Reply::Task(son_of(*task)),
        Request::Brother(_) => Reply::Task(0),
        Request::Named(name) => Reply::Task(named(name.as_slice())),
        Request::Name(task) => match Bytes::from(alloc, name_of(*task).as_bytes()) {
            Ok(name) => Reply::Text(name),
            Err(_) => Reply::Done,
        },
        Request::Exists(task) => Reply::Truth(!name_of(*task).is_empty()),
        Request::Begin { start, .. } => Reply::Task(u32::try_from(*start).unwrap_or(0)),
        _ => Reply::Stopped(Stop::OnlySession),
    }
}

/// Programs that run in task 3, with what they write.
pub const ANSWERED: &str = "\
> put (name (myself)); put (name (father)); put (name (father (father))); put (name (father (father (father (myself))))); put (1)
a PUBLIC UR  1 
> IF exists (myself) THEN put (1) FI; IF exists (niltask) THEN put (2) ELSE put (3) FI; IF exists (task (\"PUBLIC\")) THEN put (4) FI
1 3 4 
> IF task (\"UR\") = father (father) THEN put (1) FI; IF task (\"x\") = niltask THEN put (2) FI; IF task (\"a\") <> father THEN put (3) FI
1 2 3 
> IF son (task (\"UR\")) = father THEN put (1) FI; IF son (myself) = niltask THEN put (2) FI; IF brother (father) = niltask THEN put (3) FI
1 2 3 
> ROW 2 TASK VAR r; r [1] := myself; r [2] := father (r [1]); put (name (r [2]) + name (r [1])); put (LENGTH name (r [2]))
PUBLICa 6 
> TEXT PROC n (TASK CONST t): name (t) END PROC n; put (n (son (father))); put (n (niltask)); put (1 + LENGTH n (father))
a  7 
> TASK VAR t; INT VAR i; t := myself; WHILE exists (t) REP i INCR 1; t := father (t) PER; put (i)
3 
> TASK PROC up (TASK CONST t): IF father (t) = niltask THEN t ELSE up (father (t)) FI END PROC up; put (name (up (myself)))
UR 
> BOOL VAR b := exists (father) CAND name (father) = \"PUBLIC\"; IF b THEN put (name (task (name (myself)))) FI; put (1 DIV LENGTH name (niltask))
a 
FEHLER : Division durch 0
";

/// Programs with what they write as a line.
pub const TASKS: &str = "\
> TASK VAR t; IF t = niltask THEN put (1) FI; TASK VAR u :: niltask; IF t <> u THEN put (2) ELSE put (3) FI
1 3 
> TASK VAR a
> TASK CONST a :: niltask; IF a = a THEN put (1) FI; IF a <> a THEN put (2) FI
1 
> ROW 3 TASK VAR a; a [2] := niltask; a [1] := a [2]; ROW 3 TASK VAR b :: a; IF b [3] = a [1] THEN put (1) FI
1 
> STRUCT (INT a, TASK b) VAR s; s.a := 7; s.b := niltask; STRUCT (INT a, TASK b) CONST c :: s; IF c.b = niltask THEN put (c.a) FI
7 
> TASK PROC same (TASK CONST t, TASK VAR u): u := t; u END PROC same; TASK VAR v; IF same (niltask, v) = v THEN put (1) FI
1 
> LET T = TASK, n = 2; ROW n T VAR a; T VAR b :: a [1]; IF b = a [n] THEN put (1) FI
1 
> TYPE T = TASK; T VAR a; CONCR (a) := niltask; IF CONCR (a) = niltask THEN put (1) FI
1 
> TASK OP KEEP (TASK CONST t): t END OP KEEP; BOOL OP < (TASK CONST a, b): a <> b END OP <; IF NOT (KEEP niltask < niltask) THEN put (1) FI
1 
> TASK PROC f (INT CONST n): IF n = 0 THEN niltask ELSE f (n - 1) FI END PROC f; IF f (100) = niltask THEN put (1) FI
1 
> TASK VAR a; IF a < niltask THEN FI
FEHLER : falscher Typ (Zeile 1, Stelle 16)
> TASK VAR a; put (a)
FEHLER : falscher Typ (Zeile 1, Stelle 13)
> TASK VAR a; a := 0
FEHLER : falscher Typ (Zeile 1, Stelle 13)
> TASK VAR a :: 0
FEHLER : falscher Typ (Zeile 1, Stelle 10)
> INT VAR a :: niltask
FEHLER : falscher Typ (Zeile 1, Stelle 9)
> TASK VAR a; a INCR niltask
FEHLER : falscher Typ (Zeile 1, Stelle 13)
> TASK CONST a :: niltask; a := niltask
FEHLER : keine Variable (Zeile 1, Stelle 26)
> TASK VAR a; IF a THEN FI
FEHLER : falscher Typ (Zeile 1, Stelle 13)
> TASK VAR a; IF a = 0 THEN FI
FEHLER : falscher Typ (Zeile 1, Stelle 16)
> niltask
FEHLER : falscher Typ (Zeile 1, Stelle 1)
> niltask := niltask
FEHLER : keine Variable (Zeile 1, Stelle 1)
> niltask (1)
FEHLER : unbekannt (Zeile 1, Stelle 1)
> INT VAR niltask
> TASK VAR a; a.b := a
FEHLER : unbekannt (Zeile 1, Stelle 13)
> LET t = niltask
FEHLER : kein ELAN-Text (Zeile 1, Stelle 9)
> ROW 20000 TASK VAR a
FEHLER : zu gross (Zeile 1, Stelle 5)
> ROW 16384 TASK VAR a; a [16384] := niltask; put (1)
1 
> ROW 8192 TASK VAR a, b; b := a
FEHLER : Operandenspeicher voll
> ROW 8191 TASK VAR a; ROW 8191 TASK VAR b; b := a; IF b [8191] = niltask THEN put (2) FI
2 
> TASK VAR t; SELECT t OF CASE 1: line END SELECT
FEHLER : falscher Typ (Zeile 1, Stelle 13)
> TASK PROC p: END PROC p
FEHLER : falscher Typ (Zeile 1, Stelle 11)
> TASK PROC p: niltask END PROC p; p := niltask
FEHLER : keine Variable (Zeile 1, Stelle 34)
> TASK VAR t; t := r. r: niltask
> TASK VAR t := r; IF t = r THEN put (1) FI. r: INT VAR i; FOR i UPTO 3 REP IF i = 2 THEN LEAVE r WITH niltask FI PER; niltask
1 
> TASK VAR t; IF IF t = niltask THEN t ELSE niltask FI <> niltask THEN put (1) ELSE put (2) FI
2 
> TASK PROC p (ROW 2 TASK CONST a): a [2] END PROC p; ROW 2 TASK VAR r; IF p (r) = niltask THEN put (1) FI
1 
> TASK VAR t; t := \"a\"
FEHLER : falscher Typ (Zeile 1, Stelle 13)
> IF niltask = niltask CAND niltask <> niltask COR TRUE THEN put (1) FI
1 
> TASK VAR t :: myself
FEHLER : nur in einer Sitzung
> put (1); break; put (2)
1 
FEHLER : nur in einer Sitzung
> put (name (niltask))
FEHLER : nur in einer Sitzung
> IF exists (niltask) THEN put (1) FI
FEHLER : nur in einer Sitzung
> TASK VAR t; t := father
FEHLER : nur in einer Sitzung
> TASK VAR t; put (2); t := father (t); put (3)
2 
FEHLER : nur in einer Sitzung
> TASK VAR t; t := son (t)
FEHLER : nur in einer Sitzung
> IF brother (niltask) = niltask THEN put (1) FI
FEHLER : nur in einer Sitzung
> TASK VAR t := task (\"a\")
FEHLER : nur in einer Sitzung
> end (niltask)
FEHLER : nur in einer Sitzung
> put (1); line; end
1 
FEHLER : nur in einer Sitzung
> ROW 2 TASK VAR r; r [1] := niltask; r [3] := myself
FEHLER : Index ausserhalb
> ROW 2 TASK VAR r; r [1 DIV 0] := myself
FEHLER : Division durch 0
> put (1 DIV 0 + LENGTH name (myself))
FEHLER : Division durch 0
> myself
FEHLER : falscher Typ (Zeile 1, Stelle 1)
> end (1)
FEHLER : falscher Typ (Zeile 1, Stelle 1)
> task (1)
FEHLER : falscher Typ (Zeile 1, Stelle 1)
> name (\"a\")
FEHLER : falscher Typ (Zeile 1, Stelle 1)
> exists (\"a\")
FEHLER : falscher Typ (Zeile 1, Stelle 1)
> father (1)
FEHLER : falscher Typ (Zeile 1, Stelle 1)
> son
FEHLER : unbekannt (Zeile 1, Stelle 1)
> brother
FEHLER : unbekannt (Zeile 1, Stelle 1)
> break (1)
FEHLER : unbekannt (Zeile 1, Stelle 1)
> TASK VAR t; t := end
FEHLER : falscher Typ (Zeile 1, Stelle 13)
> put (myself)
FEHLER : falscher Typ (Zeile 1, Stelle 1)
> INT PROC myself: 3 END PROC myself; put (myself)
3 
> PROC end (INT CONST n): put (n) END PROC end; end (3); end (niltask)
3 
FEHLER : nur in einer Sitzung
> TASK VAR father; father := niltask; IF father = niltask THEN put (1) FI
1 
> IF FALSE THEN break FI; put (1)
1 
> REP end PER
FEHLER : nur in einer Sitzung
> TEXT PROC t: name (myself) END PROC t; put (t)
FEHLER : nur in einer Sitzung
> put (name (task (name (father))))
FEHLER : nur in einer Sitzung
> BOOL VAR b :: FALSE CAND exists (myself); IF b THEN put (1) ELSE put (2) FI
2 
> myself := niltask
FEHLER : keine Variable (Zeile 1, Stelle 1)
> INT VAR name :: 3; put (name)
3 
> son. son: put (1)
1 
> TASK VAR t; begin (\"s\", PROC nix, t)
FEHLER : unbekannt (Zeile 1, Stelle 30)
> TASK VAR t; begin (\"s\", PROC line, t)
FEHLER : falsche Stelle (Zeile 1, Stelle 25)
> TASK VAR t; begin (\"s\", PROC begin, t)
FEHLER : falsche Stelle (Zeile 1, Stelle 25)
> PROC p: END PROC p; TASK VAR t; begin (\"s\", PROC p, t)
FEHLER : falsche Stelle (Zeile 1, Stelle 45)
> PROC p (INT CONST n): END PROC p; TASK VAR t; begin (\"s\", PROC p, t)
FEHLER : falsche Stelle (Zeile 1, Stelle 59)
> INT VAR p; TASK VAR t; begin (\"s\", PROC p, t)
FEHLER : falsche Stelle (Zeile 1, Stelle 36)
> TASK VAR t; begin (\"s\", PROC r, t). r: put (1)
FEHLER : falsche Stelle (Zeile 1, Stelle 25)
> put (PROC line)
FEHLER : falsche Stelle (Zeile 1, Stelle 6)
> put (PROC nix)
FEHLER : unbekannt (Zeile 1, Stelle 11)
> put (PROC line, nix)
FEHLER : falsche Stelle (Zeile 1, Stelle 6)
> TASK VAR t; begin (PROC line, PROC line, t)
FEHLER : falsche Stelle (Zeile 1, Stelle 20)
> begin (1, 2, 3)
FEHLER : falscher Typ (Zeile 1, Stelle 1)
> begin (1, 2)
FEHLER : unbekannt (Zeile 1, Stelle 1)
> begin
FEHLER : unbekannt (Zeile 1, Stelle 1)
> begin (\"a\", \"b\")
FEHLER : unbekannt (Zeile 1, Stelle 1)
> TASK VAR t; begin (\"s\", t, t)
FEHLER : falscher Typ (Zeile 1, Stelle 13)
> PROC begin (INT CONST n): put (n) END PROC begin; begin (3)
3 
> PROC begin (INT CONST a, b, c): put (a + b + c) END PROC begin; begin (3, 4, 5)
12 
> PROC begin (INT CONST a, b): put (a + b) END PROC begin; begin (3, PROC line)
FEHLER : falsche Stelle (Zeile 1, Stelle 68)
> PROC begin (INT CONST a, b): put (a + b) END PROC begin; begin (3, PROC nix)
FEHLER : unbekannt (Zeile 1, Stelle 73)
> INT VAR begin :: 3; put (begin)
3 
> PROC p (INT CONST a): END PROC p; p (PROC p)
FEHLER : falsche Stelle (Zeile 1, Stelle 38)
> put (nix, PROC line)
FEHLER : unbekannt (Zeile 1, Stelle 6)
> INT PROC f: 3 END PROC f; TASK VAR t; begin (\"s\", PROC f, t)
FEHLER : falsche Stelle (Zeile 1, Stelle 51)
> begin (nix, PROC line, 3)
FEHLER : unbekannt (Zeile 1, Stelle 8)
";
