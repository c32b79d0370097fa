//! Sessions, and behind each what the terminals show: how tasks, programs and sessions end.

// Each table is one text, since the check goes over each item of an array.

/// Tasks that end, with their descendants.
pub const ENDS: &str = "\
# 64 0 0 play
> 1>begin (\"a\")
> 2>begin (\"b\", \"a\")
> 3>begin (\"c\", \"b\")
> 3>INT VAR i; get (i); put (i)
> *1
> 1>end
> *1
> 4>task info
> 4>storage info
1:gib kommando :
2:gib kommando :
3:gib kommando :
3:gib supervisor kommando :
2:gib supervisor kommando :
1:gib supervisor kommando :
4:UR frei
4:  PUBLIC frei
4:gib supervisor kommando :
4:Tasks 2 Datenraeume 0 Pakete 0
4:gib supervisor kommando :
# 64 0 0 play
> 1>begin (\"a\")
> 1>enter (\"q\")
> 1>PACKET q DEFINES idle: PROC idle: END PROC idle END PACKET q
> 1>.
> 1>insert (\"q\")
> *1
> 1>TASK VAR t; begin (\"s\", PROC idle, t); begin (\"u\", PROC idle, t); putline (name (son (myself))); putline (name (brother (son (myself)))); putline (name (father (t)))
> *3
> 1>end (son (myself)); putline (name (son (myself))); putline (name (brother (son (myself))))
> *1
> 4>task info
1:gib kommando :
1:gib kommando :
1:gib kommando :
1:s
1:u
1:a
1:gib kommando :
1:u
1:
1:gib kommando :
4:UR frei
4:  PUBLIC frei
4:    a frei Kanal 1
4:      u frei
4:gib supervisor kommando :
# 64 0 0 play
> 1>begin (\"a\")
> 1>enter (\"q\")
> 1>PACKET q DEFINES idle: PROC idle: END PROC idle END PACKET q
> 1>.
> 1>insert (\"q\")
> *1
> 1>PROC p: begin (\"b\", PROC idle, t) END PROC p; TASK VAR t; p; IF t = task (\"b\") THEN put (1) FI; end (t); IF task (\"b\") = niltask THEN put (2) FI; p; IF t = task (\"b\") THEN put (3) FI; putline (name (t))
> *3
> 1>TASK VAR t; begin (\"c\", PROC idle, t); break; end; put (4)
> *2
> 1>begin (\"z\")
> 1>list
1:gib kommando :
1:gib kommando :
1:gib kommando :
1:1 2 3 b
1:gib kommando :
1:gib supervisor kommando :
1:gib kommando :
1:gib kommando :
# 64 0 0 play
> 1>begin (\"a\")
> 1>end (myself); put (1)
> *1
> 1>task info
> 1>begin (\"a\")
> 1>IF myself = task (\"a\") THEN put (5) FI
> *1
1:gib kommando :
1:gib supervisor kommando :
1:UR frei
1:  PUBLIC frei
1:gib supervisor kommando :
1:gib kommando :
1,5 
1:gib kommando :
";

/// Programs that stop, `begin` in each of its ways.
pub const STOPS: &str = "\
# 64 0 0 play
> 1>begin (\"a\")
> 1>enter (\"q\")
> 1>PACKET q DEFINES idle: PROC idle: END PROC idle END PACKET q
> 1>.
> 1>insert (\"q\")
> *1
> 1>TASK VAR t; begin (\"\", PROC idle, t)
> *1
> 1>TASK VAR t; begin (\"nnnnnnnnnnnnnnnnnnnnnnnnnnnnnnnnnnnnnnnnnnnnnnnnnnnnnnnnnnnnn\", PROC idle, t)
> *1
> 1>TASK VAR t; begin (\"a\", PROC idle, t)
> *1
> 1>TASK VAR t; begin (\"PUBLIC\", PROC idle, t)
> *1
> 1>INT VAR i; TASK VAR t; FOR i UPTO 20 REP begin (text (i), PROC idle, t) PER
> *3
> 1^
> 1>task info
1:gib kommando :
1:gib kommando :
1:gib kommando :
1:FEHLER : falscher Name
1:gib kommando :
1:FEHLER : falscher Name
1:gib kommando :
1:FEHLER : Task existiert schon
1:gib kommando :
1:FEHLER : Task existiert schon
1:gib kommando :
1:FEHLER : zu viele Tasks
1:gib kommando :
1:gib supervisor kommando :
1:UR frei
1:  PUBLIC frei
1:    a frei
1:      1 frei
1:      2 frei
1:      3 rechnet
1:      4 rechnet
1:      5 rechnet
1:      6 rechnet
1:      7 rechnet
1:      8 rechnet
1:      9 rechnet
1:      10 rechnet
1:      11 rechnet
1:      12 rechnet
1:      13 rechnet
1:gib supervisor kommando :
# 64 0 0 play
> 1>begin (\"a\")
> 1>end (niltask)
> *1
> 1>end (task (\"UR\"))
> *1
> 1>end (task (\"PUBLIC\"))
> *1
> 1>end (father (myself))
> *1
> 1>putline (name (niltask)); putline (name (task (\"nix\")))
> *1
> 1>errorstop (\"so\")
> *1
> 1>put (1 DIV 0)
> *1
1:gib kommando :
1:gib kommando :
1:FEHLER : kein Zugriff
1:gib kommando :
1:FEHLER : kein Zugriff
1:gib kommando :
1:FEHLER : kein Zugriff
1:gib kommando :
1:
1:
1:gib kommando :
1:FEHLER : so
1:gib kommando :
1:FEHLER : Division durch 0
1:gib kommando :
# 64 0 0 play
> 1>begin (\"a\")
> 1>enter (\"p\")
> 1>PACKET p DEFINES start, off: PROC start: put (\"start\") END PROC start; PROC off: break; put (\"still\") END PROC off; END PACKET p
> 1>.
> 1>insert (\"p\")
> *1
> 1>TASK VAR t; begin (\"s\", PROC start, t); begin (\"u\", PROC off, t)
> *4
> 1^
> 1>continue (\"s\")
> *1
> 1^
> 1>continue (\"u\")
> *1
> 1^
> 1>task info
1:gib kommando :
1:gib kommando :
1:gib kommando :
1:gib kommando :
1:gib supervisor kommando :
1,start 
1:gib kommando :
1:gib supervisor kommando :
1,still 
1:gib kommando :
1:gib supervisor kommando :
1:UR frei
1:  PUBLIC frei
1:    a frei
1:      s frei
1:      u frei
1:gib supervisor kommando :
";

/// Packets that are inserted, and their variables in father and son.
pub const PACKETS: &str = "\
# 64 0 0 play
> 1>begin (\"a\")
> 1>enter (\"z\")
> 1>PACKET z DEFINES tick: INT VAR n; PROC tick: n INCR 1; put (n) END PROC tick END PACKET z
> 1>.
> 1>insert (\"z\")
> *1
> 1>tick; tick
> *1
> 2>begin (\"b\", \"a\")
> 2>tick
> *1
> 1>tick
> *1
> 2>tick
> *1
> 1>insert (\"z\")
> *1
> 1>tick
> *1
> 2>tick
> *1
1:gib kommando :
1:gib kommando :
1:gib kommando :
1,1 2 
1:gib kommando :
2:gib kommando :
2,3 
2:gib kommando :
1,3 
1:gib kommando :
2,4 
2:gib kommando :
1:gib kommando :
1,1 
1:gib kommando :
2,5 
2:gib kommando :
# 64 0 0 play
> 1>begin (\"a\")
> 1>enter (\"z\")
> 1>PACKET z DEFINES q: PROC q: put (1) END PROC q; put (1 DIV 0) END PACKET z
> 1>.
> 1>insert (\"z\")
> *1
> 1>q
> *1
1:gib kommando :
1:gib kommando :
1:FEHLER : Division durch 0
1:gib kommando :
1:FEHLER : unbekannt (Zeile 1, Stelle 1)
1:gib kommando :
";

/// Lines of no form, and how a session ends.
pub const FORMS: &str = "\
# 64 0 0 play
> 1^
> 0>x
> 1^
1:gib supervisor kommando :
! Zeile 2
!BadLine(2)
# 64 0 0 play
> 1^
> 5>x
> 1^
1:gib supervisor kommando :
! Zeile 2
!BadLine(2)
# 64 0 0 play
> 1^
> 1
> 1^
1:gib supervisor kommando :
! Zeile 2
!BadLine(2)
# 64 0 0 play
> 1^
> 1<x
> 1^
1:gib supervisor kommando :
! Zeile 2
!BadLine(2)
# 64 0 0 play
> 1^
> 1^ 
> 1^
1:gib supervisor kommando :
! Zeile 2
!BadLine(2)
# 64 0 0 play
> 1^
> *0
> 1^
1:gib supervisor kommando :
! Zeile 2
!BadLine(2)
# 64 0 0 play
> 1^
> *01
> 1^
1:gib supervisor kommando :
! Zeile 2
!BadLine(2)
# 64 0 0 play
> 1^
> *10001
> 1^
1:gib supervisor kommando :
! Zeile 2
!BadLine(2)
# 64 0 0 play
> 1^
> *
> 1^
1:gib supervisor kommando :
! Zeile 2
!BadLine(2)
# 64 0 0 play
> 1^
> !!
> 1^
1:gib supervisor kommando :
! Zeile 2
!BadLine(2)
# 64 0 0 play
> 1^
> ..
> 1^
1:gib supervisor kommando :
! Zeile 2
!BadLine(2)
# 64 0 0 play
> 1^
> . 
> 1^
1:gib supervisor kommando :
! Zeile 2
!BadLine(2)
# 64 0 0 play
> 1^
>  
> 1^
1:gib supervisor kommando :
! Zeile 2
!BadLine(2)
# 64 0 0 play
> 1^
> 1>xxxxxxxxxxxxxxxxxxxxxxxxxxxxxxxxxxxxxxxxxxxxxxxxxxxxxxxxxxxxxxxxxxxxxxxxxxxxxxxxxxxxxxxxxxxxxxxxxxxxxxxxxxxxxxxxxxxxxxxxxxxxxxxxxxxxxxxxxxxxxxxxxxxxxxxxxxxxxxxxxxxxxxxxxxxxxxxxxxxxxxxxxxxxxxxxxxxxxxxxxxxxxxxxxxxxxxxxxxxxxxxxxxxxxxxxxxxxxxxxxxxxxxxxxxx
> 1^
1:gib supervisor kommando :
! Zeile 2
!BadLine(2)
# 64 0 0 play
> 1>xxxxxxxxxxxxxxxxxxxxxxxxxxxxxxxxxxxxxxxxxxxxxxxxxxxxxxxxxxxxxxxxxxxxxxxxxxxxxxxxxxxxxxxxxxxxxxxxxxxxxxxxxxxxxxxxxxxxxxxxxxxxxxxxxxxxxxxxxxxxxxxxxxxxxxxxxxxxxxxxxxxxxxxxxxxxxxxxxxxxxxxxxxxxxxxxxxxxxxxxxxxxxxxxxxxxxxxxxxxxxxxxxxxxxxxxxxxxxxxxxxxxxxxxxx
> *10000
> 
> !
> .
> 1^
1:unbekanntes Kommando
1:gib supervisor kommando :
! fixpoint
! fixpoint
# 64 0 0 play
> 1^
> .
> 5>x
> 1^
1:gib supervisor kommando :
! fixpoint
# 64 0 0 play
> 1^
> 1^
< 1>xxxxxxxxxxxxxxxxxxxxxxxxxxxxxxxxxxxxxxxxxxxxxxxxxxxxxxxxxxxxxxxxxxxxxxxxxxxxxxxxxxxxxxxxxxxxxxxxxxxxxxxxxxxxxxxxxxxxxxxxxxxxxxxxxxxxxxxxxxxxxxxxxxxxxxxxxxxxxxxxxxxxxxxxxxxxxxxxxxxxxxxxxxxxxxxxxxxxxxxxxxxxxxxxxxxxxxxxxxxxxxxxxxxxxxxxxxxxxxxxxxxxxxxxxxx
1:gib supervisor kommando :
1:gib supervisor kommando :
! Zeile 3
!BadLine(3)
# 64 0 0 play
> 1>begin (\"a\")
> 1>put (1)
< *1
1:gib kommando :
1,1 
1:gib kommando :
# 64 0 0 play
";

/// Sessions in the plain form.
pub const PLAIN: &str = "\
# 64 0 0 plain
> begin (\"a\")
> put (1)
> 
> !
> !^
> !!
> put (2)
gib kommando :
1 
gib kommando :
! fixpoint
gib supervisor kommando :
! fixpoint
# 3 0 0 plain
> !^
> 
> !x
> !^
gib supervisor kommando :
! Zeile 3
!BadLine(3)
";

/// A source and a sink that fail.
pub const FAULTS: &str = "\
# 1 1 0 play
> 1>begin (\"a\")
> 1>put (12)
> *1
> .
!SourceFault
# 1 2 0 play
> 1>begin (\"a\")
> 1>put (12)
> *1
> .
!SourceFault
# 1 20 0 play
> 1>begin (\"a\")
> 1>put (12)
> *1
> .
1:gib kommando :
!SourceFault
# 1 40 0 play
> 1>begin (\"a\")
> 1>put (12)
> *1
> .
1:gib kommando :
1,12 
1:gib kommando :
! fixpoint
# 1 60 0 play
> 1>begin (\"a\")
> 1>put (12)
> *1
> .
1:gib kommando :
1,12 
1:gib kommando :
! fixpoint
# 1 90 0 play
> 1>begin (\"a\")
> 1>put (12)
> *1
> .
1:gib kommando :
1,12 
1:gib kommando :
! fixpoint
# 64 0 1 play
> 1>begin (\"a\")
> 1>put (12)
> *1
> .
!SinkFault
# 64 0 2 play
> 1>begin (\"a\")
> 1>put (12)
> *1
> .
1!SinkFault
# 64 0 17 play
> 1>begin (\"a\")
> 1>put (12)
> *1
> .
1:gib kommando :!SinkFault
# 64 0 18 play
> 1>begin (\"a\")
> 1>put (12)
> *1
> .
1:gib kommando :
!SinkFault
# 64 0 19 play
> 1>begin (\"a\")
> 1>put (12)
> *1
> .
1:gib kommando :
1!SinkFault
# 64 0 40 play
> 1>begin (\"a\")
> 1>put (12)
> *1
> .
1:gib kommando :
1,12 
1:gib kommando :!SinkFault
# 64 0 60 play
> 1>begin (\"a\")
> 1>put (12)
> *1
> .
1:gib kommando :
1,12 
1:gib kommando :
! fixpoint
# 64 0 0 play plaine
> x
!BadWords
# 64 0 0 play plain plain
> x
!BadWords
";
