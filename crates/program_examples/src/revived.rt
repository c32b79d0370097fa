//! Commands that go on from what was recorded of them.

ghost use Rattle.std.specs.Prelude.{◌≡◌, IfOk};
ghost use Rattle.code_form.specs.Valid.{Fits};

use crate::rows::put;
use code_form::Code;
use eu_base::{Bytes, Memory, NoMemory};
use std::alloc::Global;
use task_run::TaskRun;

/// Programs that come to rest while texts, rows, limits of loops or places are pending, with what they write.
pub const STATES: &str = "\
> TEXT PROC f (TEXT CONST t): write (\".\"); t END PROC f; putline (\"a\" + (f (\"b\") + (\"c\" + f (\"d\"))))
..abcd
> INT PROC f (INT CONST n): write (\".\"); n END PROC f; put (f (1) + f (2) * (f (3) - f (4)))
....-1 
> INT PROC fac (INT CONST n): IF n < 2 THEN 1 ELSE n * fac (n - 1) FI END PROC fac; put (fac (7))
5040 
> INT VAR i, k; INT PROC n (INT CONST i): put (i); i END PROC n; FOR i FROM n (1) UPTO n (3) REP FOR k FROM i DOWNTO 1 REP put (10 * i + k) PER PER
1 3 11 22 21 33 32 31 
> INT VAR i; FOR i FROM 32766 UPTO 32767 REP put (i) PER; put (i); FOR i FROM - 32766 DOWNTO - 32767 REP put (i) PER; put (i)
32766 32767 32767 -32766 -32767 -32767 
> LET R = ROW 3 INT; R PROC f (INT CONST n): R VAR r; put (n); r [2] := n; r END PROC f; INT PROC sum (R CONST a, b): put (a [2]); a [2] * b [2] END PROC sum; put (sum (f (2), f (10)))
2 10 2 20 
> LET S = STRUCT (INT n, TEXT t, BOOL b); S PROC s (INT CONST n): S VAR x; x.n := n; x.t := n * \"*\"; x.b := n > 2; putline (x.t); x END PROC s; PROC show (S CONST a, b): put (a.n); put (b.t); IF b.b THEN put (a.t) FI END PROC show; show (s (2), s (3))
**
***
2 *** ** 
> ROW 3 TEXT VAR t; INT PROC n (INT CONST i): put (i); i END PROC n; t [n (2)] := n (3) * \"x\"; t [n (3)] CAT t [n (2)]; INT VAR i; FOR i UPTO 3 REP putline (t [i]) PER
2 3 3 2 
xxx
xxx
> INT VAR i :: 5; WHILE i > 0 REP i DECR 1; SELECT i OF CASE 4: put (\"vier\") CASE 2: put (\"zwei\") OTHERWISE put (i) END SELECT PER
vier 3 zwei 1 0 
> BOOL PROC b (INT CONST n): put (n); n > 2 END PROC b; IF b (1) COR b (3) THEN put (\"ja\") FI; IF b (1) CAND b (3) THEN put (\"nein\") FI; IF b (4) AND b (1) OR b (5) THEN put (\"gut\") FI
1 3 ja 1 4 1 5 gut 
> DATASPACE VAR d :: nilspace; BOUND ROW 5 INT VAR r :: d; INT PROC n (INT CONST i): put (i); i END PROC n; r [n (2)] := n (7); DATASPACE VAR e :: d; BOUND ROW 5 INT VAR s :: e; r [2] := 8; put (s [n (2)]); put (r [2])
2 7 2 7 8 
> DATASPACE VAR d :: nilspace; BOUND STRUCT (INT x, TEXT t) VAR b :: d; TEXT PROC f (INT CONST n): put (n); forget (d); n * \"x\" END PROC f; b.t := \"alt\"; putline (b.t); b.t := f (3)
alt
3 
FEHLER : Datenraum existiert nicht
> TEXT VAR t :: \"abc\"; TEXT PROC f (TEXT VAR x): x CAT \".\"; put (LENGTH x); x END PROC f; putline (f (t) + f (t) + t); t CAT f (t); putline (t)
4 5 abc.abc..abc..
6 abc...abc...
> INT PROC f (INT CONST n): put (n); n END PROC f; put (f (30000) + f (3000))
30000 3000 
FEHLER : INT-Ueberlauf
> INT PROC f (INT CONST n): put (n); n END PROC f; put (f (1) DIV f (0))
1 0 
FEHLER : Division durch 0
> ROW 3 INT VAR r; INT PROC f (INT CONST n): put (n); n END PROC f; r [f (4)] := f (1)
4 
FEHLER : Index ausserhalb
> PROC deep (INT CONST n): put (n); IF n = 3 THEN errorstop (\"ende\") FI; deep (n + 1); put (n) END PROC deep; deep (1)
1 2 3 
FEHLER : ende
> r; put (n). r: INT VAR n :: 3; put (s); n := s. s: n + n.
6 6 
";

/// Programs in which a place of the cell 4,660 is pending where they write first, with what they write where it is the last cell of
/// its area, 16,383, from there on: what is read and written past it is not there.
pub const CRAFTED: &str = "\
> ROW 4660 INT VAR pad; ROW 3 INT VAR r; INT PROC f (INT CONST i): put (i); i END PROC f; put (r [f (1)])
1 0 
> ROW 4660 INT VAR pad; ROW 3 INT VAR r; INT PROC f (INT CONST i): put (i); i END PROC f; put (r [f (2)])
2 
FEHLER : Datenraum existiert nicht
> ROW 4660 INT VAR pad; ROW 3 INT VAR r; INT PROC f (INT CONST i): put (i); i END PROC f; r [f (3)] := 5; put (r [3])
3 
FEHLER : Datenraum existiert nicht
> ROW 4660 INT VAR pad; ROW 3 STRUCT (INT x, y) VAR r; INT PROC f (INT CONST i): put (i); i END PROC f; put (r [f (1)].x)
1 0 
> ROW 4660 INT VAR pad; ROW 3 STRUCT (INT x, y) VAR r; INT PROC f (INT CONST i): put (i); i END PROC f; put (r [f (1)].y)
1 
FEHLER : Datenraum existiert nicht
> ROW 4660 INT VAR pad; ROW 3 STRUCT (INT x, TEXT y) VAR r; INT PROC f (INT CONST i): put (i); i END PROC f; put (r [f (1)].y)
1 
FEHLER : Datenraum existiert nicht
";

/// The same command, from what is recorded of it.
pub fn revived(alloc: Global, code: &Code, command: &TaskRun) -> Result<TaskRun, NoMemory>
    requires { Fits code.now command.now }
    ensures { IfOk result (λ same. same ≡ command.now) }
{
    let bytes = command.record(alloc)?;
    match TaskRun::revive(alloc, code, bytes.as_slice()) {
        Ok(same) => Ok(same),
        Err(_) => Err(NoMemory),
    }
}

// The bytes, with the number 16,383 wherever 4,660 stands in two of them.
fn with_last_cell(alloc: Global, bytes: &[u8]) -> Bytes {
    let mut out = Bytes::new(alloc);
    let mut rest = bytes;
    for _ in 0..bytes.len() {
        match rest {
            [0x34, 0x12, after @ ..] => {
                put(&mut out, &[0xFF, 0x3F]);
                rest = after;
            }
            [first, after @ ..] => {
                put(&mut out, &[*first]);
                rest = after;
            }
            [] => return out,
        }
    }
    out
}

/// Goes on to the first rest, and from there with the last cell in place of the one that is pending.
pub fn crafted<M: Memory>(
    alloc: Global,
    code: &Code,
    mut command: TaskRun,
    memory: &mut M,
) -> Result<TaskRun, NoMemory>
    requires { Fits code.now command }
    ensures { IfOk result (λ crafted. Fits code.now crafted) }
{
    let mut marks = 100_000;
    if command.go(code, memory, &mut marks).is_err() {
        return Err(NoMemory);
    }
    let bytes = command.record(alloc)?;
    let bytes = with_last_cell(alloc, bytes.as_slice());
    match TaskRun::revive(alloc, code, bytes.as_slice()) {
        Ok(crafted) => Ok(crafted),
        Err(_) => Err(NoMemory),
    }
}
