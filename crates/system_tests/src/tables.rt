//! Lines, and what they are. In each table `|` stands for a line end, and `~` for fifty letters.

/// Lines in the form with channels, and behind the arrow their events: a letter, two bytes of a number and a text, one after
/// the other; `bad` for a line of no form.
pub const TAGGED: &str = "\
1>put (1) => L\u{0}\u{1}put (1)
 => 
4> => L\u{0}\u{4}
2^ => S\u{0}\u{2}
*1 => T\u{0}\u{1}
*10000 => T\u{27}\u{10}
3>~~~~~ => L\u{0}\u{3}~~~~~
3>~~~~~x => bad
! => F\u{0}\u{0}
. => E\u{0}\u{0}
*10001 => bad
*0 => bad
*01 => bad
* => bad
*1x => bad
*99999999999999999999 => bad
5>x => bad
0^ => bad
1 => bad
1^^ => bad
1<x => bad
!! => bad
.. => bad
  => bad";

/// The same in the plain form.
pub const PLAIN: &str = "\
put (1) => L\u{0}\u{1}put (1)T\u{0}\u{14}
 => T\u{0}\u{14}
. => L\u{0}\u{1}.T\u{0}\u{14}
! => F\u{0}\u{0}
!! => E\u{0}\u{0}
!^ => S\u{0}\u{1}
!x => bad
!!! => bad";

/// Lines with what they are at a task: a letter, and the name between brackets; `?` for a line without tokens. A name that is entered
/// may be too long.
pub const FORMS: &str = "\
(* x *) => B
 => B
 \t => B
enter (\"x\") => Ex
enter(\"x\") => Ex
\tenter\r( \"x\" )  => Ex
e n ter (\"x\") => Ex
enter (* ( *) (\"x\") {} => Ex
enter (\"~xxxxxxxxxx\") => E~xxxxxxxxxx
enter (\"~xxxxxxxxxxx\") => E~xxxxxxxxxxx
run (\"x\") => Rx
insert (\"x\") => Ix
insert(\"x\") => Ix
insert (\"\") => I
insert (\"a\"\"b\") => Ia\"b
insert (\"\"\"\") => I\"
insert (\"a\"65\"b\") => IaAb
list => L
 list => L
li st  => L
insert (x) => P
insert (5) => P
insert (INT) => P
insert () => P
insert => P
insert \"x\" => P
insert (\"x\" => P
insert [\"x\"] => P
insert (\"x\"] => P
insert (\"x\", \"y\") => P
insert ((\"x\")) => P
insert (\"x\") + 1 => P
insert (\"x\"); => P
insert (\"x\"). => P
insert (\"x\") x => P
insert (\"x\" \"y\") => P
inserts (\"x\") => P
INSERT (\"x\") => P
Insert (\"x\") => P
enter; (\"x\") => P
enter1 (\"x\") => P
list (\"x\") => P
list list => P
list; => P
list\tlist => P
LIST => P
(list) => P
\"x\" => P
(\"x\") => P
put (1) => P
begin (\"x\") => P
halt => P
insert (\"x => ?
insert (\"x|\") => ?
! => ?";

/// Lines with what they are at the supervisor: a letter, and the names between brackets.
pub const COMMANDS: &str = "\
{ } => B
 => B
begin (\"x\") => Ax/PUBLIC
begin(\"x\",\"f\") => Ax/f
begin (\"x\", \"PUBLIC\") => Ax/PUBLIC
begin (\"\", \"\") => A/
begin (\"x\"\"f\") => Ax\"f/PUBLIC
begin (\"x\" , \"a\"\"b\"65\"c\") => Ax/a\"bAc
be gin (\"x\") => Ax/PUBLIC
continue (\"x\") => Cx
continue(\"\") => C
con tinue (\"x\") => Cx
halt => H
h alt  => H
task info => T
taskinfo => T
t ask  info => T
storage info => S
storageinfo => S
begin => U
begin () => U
begin (,) => U
begin (x) => U
begin (\"x\", f) => U
begin (x, \"f\") => U
begin (\"x\" \"f\") => U
begin (\"x\"; \"f\") => U
begin (\"x\", \"f\" => U
begin (\"x\", \"f\", \"g\") => U
begin (\"x\", \"f\") ; => U
begin (\"x\", ) => U
begin \"x\", \"f\" => U
begin [\"x\", \"f\"] => U
begin (\"x\": \"f\") => U
continue => U
continue (\"x\", \"y\") => U
continue (\"x\"). => U
continue x => U
halt (\"x\") => U
halt halt => U
halt; => U
HALT => U
task\tinfo => U
task info (1) => U
TASK info => U
storage => U
storage info; => U
list => U
enter (\"x\") => U
end => U
\"x\" => U
$ => ?
begin (\"x => ?";

/// Steps at the channels, and behind the arrow what they show, in the form with channels and then in the plain one: lines that a line
/// end closes; an open piece before a message, and one that a message at another channel leaves open; open pieces of all channels;
/// control bytes; and what is not closed.
pub const SHOWN: &str = "\
1-a 2-b 1-c 1+d 2+e => 1:acd|2:be|acd|2:be|
1-a 1!b 1!c => 1,a|1:b|1:c|a|b|c|
1-a 2!b 1+c => 2:b|1:ac|2:b|ac|
4-a 2-b 1-c 2-d all 2+e => 1,c|2,bd|4,a|2:e|c|2,bd|4,a|2:e|
3-\t 3+\u{7f} 1!\r => 3:\"9\"\"127\"|1:\"13\"|3:\"9\"\"127\"|\"13\"|
1-a => ";

/// How many bytes a source gives in one call, and which call fails, 0 for none; what the source has; and behind the arrow six answers
/// of a reader: lines, each with its end; `.` where there is none, `>` for one that is too long, and `!` where the source failed. In
/// turn: lines with an end and without; lines of 252 bytes and of 253; and a source that fails before a line, in it, behind it and
/// in a long one, and one that is not asked again where it had no more.
pub const SESSIONS: &str = "\
90  => ......
90 | => |.....
30 a||bc => a||bc|...
30 a||bc| => a||bc|...
90 ~~~~~xx|b => ~~~~~xx|b|....
90 ~~~~~xx => ~~~~~xx|.....
90 a|~~~~~xxx|b => a|>>>>>
90 ~~~~~xxx => >>>>>>
21 ab|c => !ab|c|...
22 ab|c => !ab|c|...
23 ab|c => ab|!c|...
24 ab|c => ab|c|....
95 ~~~~~xx|b => !~~~~~xx|b|...";
