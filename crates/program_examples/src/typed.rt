//! Programs that get lines.

ghost use Rattle.std.specs.Prelude.{◌≡◌, IfOk};
ghost use Rattle.code_form.specs.Valid.{Fits};

use crate::revived::{crafted, revived};
use crate::rows::put;
use crate::tasks::reply_to;
use code_form::{Code, Halt};
use eu_base::{Bytes, Memory, NoMemory, Nowhere, Reply, Request};
use page_pool::Pool;
use space_memory::SpaceMemory;
use std::alloc::Global;
use task_run::TaskRun;

/// Programs with what they show, and behind `< ` each line that is typed, where it is asked for. A line that is unfinished then or
/// at the end is ended.
pub const TYPED: &str = "\
> TEXT VAR t; getline (t); put (t)
<   two words  
  two words   
> TEXT VAR t; getline (t); put (LENGTH t)
<   two words  
13 
> TEXT VAR t; getline (t); put (LENGTH t)
< 
0 
> TEXT VAR t; get (t); write (\"[\" + t + \"]\")
<   two words  
[two words]
> TEXT VAR t; get (t); write (\"[\" + t + \"]\")
<    
[]
> TEXT VAR t; get (t); write (\"[\" + t + \"]\")
< 
[]
> TEXT VAR t; getline (t); write (\"[\" + t + \"]\")
<   two words  
[  two words  ]
> INT VAR i; get (i); put (i + 1)
<  41 
42 
> INT VAR i :: 5; get (i); put (i)
< x
0 
> INT VAR i :: 5; get (i); put (i)
< 99999
0 
> INT VAR i :: 5; get (i); put (i)
< -32768
-32768 
> INT VAR i :: 5; get (i); put (i)
< -32769
0 
> INT VAR i :: 5; get (i); put (i)
< 32767
32767 
> INT VAR i :: 5; get (i); put (i)
< 32768
0 
> INT VAR i :: 5; get (i); put (i)
< +7
7 
> INT VAR i :: 5; get (i); put (i)
< 
0 
> INT VAR i :: 5; get (i); put (i)
< 4 2
0 
> INT VAR i :: 5; get (i); put (i)
< 12x
0 
> INT VAR i :: 5; get (i); put (i)
<   -5  
-5 
> INT VAR i :: 5; get (i); put (i)
< --5
0 
> INT VAR i :: 5; get (i); put (i)
< 0000012
12 
> INT VAR i :: 5; get (i); put (i)
< - 1
0 
> TEXT VAR t, u; getline (t); getline (u); put (u + t)
< first
< second
secondfirst 
> putline (\"?\"); INT VAR i; get (i); put (\"!\"); get (i); put (i)
?
< 1
! 
< 2
2 
> INT VAR i; TEXT VAR t; get (i); get (t); put (i * t)
<  3 
<  ab 
ababab 
> write (\"name: \"); TEXT VAR t; getline (t); put (t)
name: 
< you
you 
> PROC p (TEXT VAR t): getline (t) END PROC p; TEXT VAR a; p (a); put (a)
< line
line 
> PROC p (INT VAR n): get (n); n INCR 1 END PROC p; INT VAR a; p (a); put (a)
< 8
9 
> PROC p (TEXT VAR a, b): getline (a); put (b) END PROC p; TEXT VAR t :: \"old\"; p (t, t); put (t)
< new
new new 
> TEXT PROC f: TEXT VAR t; getline (t); t + t END PROC f; put (f + f)
< a
< b
aabb 
> INT PROC f: INT VAR i; get (i); i END PROC f; put (f - f)
< 9
< 4
5 
> r; put (t). r: TEXT VAR t; get (t).
< in r
in r 
> TEXT VAR t; REP getline (t); putline (t) UNTIL t = \"\" PER
< one
one
<  two 
 two 
< 

> INT VAR i, s; REP get (i); s INCR i UNTIL i = 0 PER; put (s)
< 1
< 2
< 3
< x
6 
> INT VAR i; TEXT VAR t; FOR i UPTO 2 REP getline (t); put (i); put (t) PER
< a
1 a 
< b
2 b 
> TEXT VAR a :: 16000 * \"x\", b :: a, c :: a, d :: a, e :: a, f :: a, g :: a, h :: 2576 * \"y\"; TEXT VAR t; getline (t)
< z
FEHLER : Textspeicher voll
> TEXT VAR a :: 16000 * \"x\", b :: a, c :: a, d :: a, e :: a, f :: a, g :: a, h :: 2576 * \"y\"; TEXT VAR t; getline (t); put (1)
< 
1 
> TEXT VAR a :: 16000 * \"x\", b :: a, c :: a, d :: a, e :: a, f :: a, g :: a, h :: 2576 * \"y\"; TEXT VAR t; h := \"\"; getline (t); put (t)
< z
z 
> TEXT VAR a :: 16000 * \"x\", b :: a, c :: a, d :: a, e :: a, f :: a, g :: a, h :: 2576 * \"y\"; TEXT VAR t; getline (h); getline (t); put (h + t)
< old
< new
oldnew 
> TEXT VAR a :: 16000 * \"x\", b :: a, c :: a, d :: a, e :: a, f :: a, g :: a, h :: 2576 * \"y\"; TEXT VAR t; get (t)
<    
> TEXT VAR a :: 16000 * \"x\", b :: a, c :: a, d :: a, e :: a, f :: a, g :: a, h :: 2576 * \"y\"; TEXT VAR t; get (t)
<  z 
FEHLER : Textspeicher voll
> TEXT VAR a :: 16000 * \"x\", b :: a, c :: a, d :: a, e :: a, f :: a, g :: a, h :: 2576 * \"y\"; TEXT VAR t; INT VAR i; get (i); put (i)
< 12
12 
> TEXT VAR a :: 16000 * \"x\", b :: a, c :: a, d :: a, e :: a, f :: a, g :: a, h :: 2576 * \"y\"; TEXT VAR t; getline (h); put (LENGTH h); t := 2548 * \"z\"; t CAT \"z\"
< zzzzzzzzzzzzzzzzzzzzzzzzzzzz
28 
FEHLER : Textspeicher voll
> TEXT VAR a :: 16000 * \"x\", b :: a, c :: a, d :: a, e :: a, f :: a, g :: a, h :: 2576 * \"y\"; TEXT VAR t; getline (h); t := 2576 * \"z\"
< z
FEHLER : Textspeicher voll
> TEXT VAR t; getline (t); put (1 DIV LENGTH t)
< 
FEHLER : Division durch 0
> INT VAR i; get (i); put (i * 2)
< 16384
FEHLER : INT-Ueberlauf
> TEXT VAR t; getline (t); errorstop (t)
< typed
FEHLER : typed
";

/// How often a program comes to rest at most.
const RESTS: u32 = 100_000;

/// How a program comes to rest.
#[derive(Clone, Copy, PartialEq, Eq)]
pub enum Rests {
    /// Where it asks, and as good as nowhere else.
    Seldom,
    /// Before each mark.
    Often,
    /// Before each mark, and what goes on is revived from what was recorded there.
    Revived,
    /// Where it asks; at the first time the place that is pending is made the last cell of its area.
    Crafted,
}

impl Rests {
    fn marks(self) -> u32 {
        match self {
            Rests::Seldom | Rests::Crafted => 100_000,
            Rests::Often | Rests::Revived => 1,
        }
    }
}

/// Runs code from its start over a memory.
pub fn run_over<M: Memory>(
    alloc: Global,
    out: &mut Bytes,
    code: &Code,
    row: &str,
    rests: Rests,
    memory: &mut M,
) {
    let Ok(command) = TaskRun::start(alloc, code, memory) else {
        return;
    };
    if rests == Rests::Crafted {
        if let Ok(command) = crafted(alloc, code, command, memory) {
            serve(alloc, out, code, command, memory, row, Rests::Seldom);
        }
    } else {
        serve(alloc, out, code, command, memory, row, rests);
    }
}

/// Runs code from its start over a memory of its own.
pub fn run(alloc: Global, out: &mut Bytes, code: &Code, row: &str, rests: Rests) {
    let Ok(mut pool) = Pool::new(alloc) else {
        return;
    };
    let mut memory = SpaceMemory::new(alloc);
    let mut nowhere = Nowhere;
    let mut lent = memory.over(&mut pool, &mut nowhere);
    run_over(alloc, out, code, row, rests, &mut lent);
}

fn end_line(out: &mut Bytes) {
    if !out.as_slice().ends_with(b"\n") {
        put(out, b"\n");
    }
}

// The line that was typed, where the next part of a row is known.
fn typed(alloc: Global, out: &mut Bytes, part: Option<&str>) -> Bytes {
    let part = part.unwrap_or("");
    let (line, _) = part.split_once('\n').unwrap_or((part, ""));
    end_line(out);
    put(out, b"< ");
    put(out, line.as_bytes());
    put(out, b"\n");
    let mut text = Bytes::new(alloc);
    put(&mut text, line.as_bytes());
    text
}

// The command, or the same as it is revived.
fn at_rest(alloc: Global, code: &Code, command: TaskRun, rests: Rests) -> Result<TaskRun, NoMemory>
    requires { Fits code.now command }
    ensures { IfOk result (λ same. same ≡ command) }
{
    match rests {
        Rests::Revived => revived(alloc, code, &command),
        Rests::Seldom | Rests::Often | Rests::Crafted => Ok(command),
    }
}

fn serve<M: Memory>(
    alloc: Global,
    out: &mut Bytes,
    code: &Code,
    mut command: TaskRun,
    memory: &mut M,
    row: &str,
    rests: Rests,
)
    requires { Fits code.now command }
{
    let mut parts = row.split("\n< ");
    let mut part = parts.next();
    for _ in 0..RESTS {
        let Ok(same) = at_rest(alloc, code, command, rests) else {
            return;
        };
        command = same;
        let mut left = rests.marks();
        let reply = match command.go(code, memory, &mut left) {
            Ok(Halt::Marked) => continue,
            Ok(Halt::Asks(Request::Out { bytes, ends })) => {
                put(out, bytes.as_slice());
                if ends {
                    put(out, b"\n");
                }
                Reply::Done
            }
            Ok(Halt::Asks(Request::Input)) => {
                part = parts.next();
                Reply::Text(typed(alloc, out, part))
            }
            Ok(Halt::Stopped(stop)) => {
                end_line(out);
                put(out, b"FEHLER : ");
                if let Ok(text) = stop.text(alloc) {
                    put(out, text.as_slice());
                }
                return put(out, b"\n");
            }
            Ok(Halt::Asks(request)) => reply_to(alloc, &request),
            Ok(Halt::Ended) => return end_line(out),
            Err(_) => return,
        };
        let Ok(same) = at_rest(alloc, code, command, rests) else {
            return;
        };
        command = same;
        if command.answer(code, memory, reply).is_err() {
            return;
        }
    }
}
