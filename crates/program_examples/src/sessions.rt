//! Sessions, and behind each what the terminals show: examples of the rules, the supervisor, and queues.

// Each table is one text, since the check goes over each item of an array.

/// Examples of the rules.
pub const ROWS: &str = "\
# 64 0 0 play
> 1>begin (\"a\")
> 1>REP put (1) PER
> 2>begin (\"b\")
> 2>REP put (2) PER
> *6
> .
1:gib kommando :
2:gib kommando :
1,1 1 1 1 1 1 1 1 1 1 1 1 1 1 1 1 1 1 1 1 1 1 1 1 1 1 1 1 1 1 1 1 1 
2,2 2 2 2 2 2 2 2 2 2 2 2 2 2 2 2 2 2 2 2 2 2 2 2 2 2 2 2 2 2 2 2 2 
1,1 1 1 1 1 1 1 1 1 1 1 1 1 1 1 1 1 1 1 1 1 1 1 1 1 1 1 1 1 1 1 1 1 
2,2 2 2 2 2 2 2 2 2 2 2 2 2 2 2 2 2 2 2 2 2 2 2 2 2 2 2 2 2 2 2 2 2 
1,1 1 1 1 1 1 1 1 1 1 1 1 1 1 1 1 1 1 1 1 1 1 1 1 1 1 1 1 1 1 1 1 1 
2,2 2 2 2 2 2 2 2 2 2 2 2 2 2 2 2 2 2 2 2 2 2 2 2 2 2 2 2 2 2 2 2 2 
! fixpoint
# 64 0 0 play
> 1>begin (\"UR\")
> 1>begin (\"x\", \"nix\")
> 1>begin (\"\")
> 1>storage info
1:Task existiert schon
1:gib supervisor kommando :
1:Vatertask gibt es nicht
1:gib supervisor kommando :
1:falscher Name
1:gib supervisor kommando :
1:Tasks 2 Datenraeume 0 Pakete 0
1:gib supervisor kommando :
# 64 0 0 play
> 1>begin (\"t3\")
> 1^
> 1>begin (\"t4\")
> 1^
> 1>begin (\"t5\")
> 1^
> 1>begin (\"t6\")
> 1^
> 1>begin (\"t7\")
> 1^
> 1>begin (\"t8\")
> 1^
> 1>begin (\"t9\")
> 1^
> 1>begin (\"t10\")
> 1^
> 1>begin (\"t11\")
> 1^
> 1>begin (\"t12\")
> 1^
> 1>begin (\"t13\")
> 1^
> 1>begin (\"t14\")
> 1^
> 1>begin (\"t15\")
> 1^
> 1>begin (\"t16\")
> 1^
> 1>begin (\"x\")
1:gib kommando :
1:gib supervisor kommando :
1:gib kommando :
1:gib supervisor kommando :
1:gib kommando :
1:gib supervisor kommando :
1:gib kommando :
1:gib supervisor kommando :
1:gib kommando :
1:gib supervisor kommando :
1:gib kommando :
1:gib supervisor kommando :
1:gib kommando :
1:gib supervisor kommando :
1:gib kommando :
1:gib supervisor kommando :
1:gib kommando :
1:gib supervisor kommando :
1:gib kommando :
1:gib supervisor kommando :
1:gib kommando :
1:gib supervisor kommando :
1:gib kommando :
1:gib supervisor kommando :
1:gib kommando :
1:gib supervisor kommando :
1:gib kommando :
1:gib supervisor kommando :
1:zu viele Tasks
1:gib supervisor kommando :
# 64 0 0 play
> 1>begin (\"klasse\")
> 1>enter (\"stack\")
> 1>PACKET stack DEFINES STACK, :=, push, pop, empty:
> 1>TYPE STACK = STRUCT (INT n, ROW 50 INT r);
> 1>OP := (STACK VAR a, STACK CONST b): CONCR (a) := CONCR (b) END OP :=;
> 1>STACK PROC empty: STACK VAR s; s END PROC empty;
> 1>PROC push (STACK VAR s, INT CONST x): CONCR (s).n INCR 1; CONCR (s).r [CONCR (s).n] := x END PROC push;
> 1>INT PROC pop (STACK VAR s): INT VAR x :: CONCR (s).r [CONCR (s).n]; CONCR (s).n DECR 1; x END PROC pop;
> 1>END PACKET stack
> 1>.
> 1>insert (\"stack\")
> *1
> 1>STACK VAR s :: empty; push (s, 4); push (s, 9); put (pop (s)); put (pop (s))
> *1
> !
1:gib kommando :
1:gib kommando :
1:gib kommando :
1,9 4 
1:gib kommando :
! fixpoint
# 64 0 0 play
> 1^
> *1
> 9>x
1:gib supervisor kommando :
! Zeile 3
!BadLine(3)
# 64 0 0 play
> 1>task info
> 1>storage info
1:UR frei
1:  PUBLIC frei
1:gib supervisor kommando :
1:Tasks 2 Datenraeume 0 Pakete 0
1:gib supervisor kommando :
# 64 0 0 play
> 1>begin (\"a\")
> 1>REP PER
> *2
> 1^
> 1>halt
> .
1:gib kommando :
1:gib supervisor kommando :
1:FEHLER : halt vom Terminal
1:gib kommando :
! fixpoint
# 64 0 0 play
> 1>begin (\"a\")
> 1>INT VAR i; get (i); put (i + 1)
> *1
> 1> 41 
> *1
1:gib kommando :
1,42 
1:gib kommando :
# 64 0 0 play
> 1>begin (\"a\")
> 1>enter (\"p\")
> 1>PACKET p DEFINES
> 1>n: LET n = 3; END PACKET p
> 1>.
> 1>insert (\"p\")
1:gib kommando :
1:gib kommando :
1:FEHLER : falsche Stelle (Zeile 2, Stelle 1)
1:gib kommando :
# 64 0 0 play
> 1>begin (\"a\")
> 1>enter (\"p\")
> 1>PACKET p DEFINES start: PROC start: put (8) END PROC start; END PACKET p
> 1>.
> 1>insert (\"p\")
> *1
> 1>TASK VAR t; begin (\"s\", PROC start, t); putline (name (t))
> *2
> 1^
> 1>continue (\"s\")
> *1
1:gib kommando :
1:gib kommando :
1:gib kommando :
1:s
1:gib kommando :
1:gib supervisor kommando :
1,8 
1:gib kommando :
# 64 0 0 play
> 1>begin (\"a\")
> 1>enter (\"p\")
> 1>PACKET p DEFINES n: LET n = 3; END PACKET p
> 1>.
> 1>insert (\"p\")
1:gib kommando :
1:gib kommando :
1:FEHLER : falsche Stelle (Zeile 1, Stelle 18)
1:gib kommando :
# 64 0 0 play
> 1>begin (\"a\")
> 1>put (1)
> 1^
> *1
> 1>continue (\"a\")
> *1
1:gib kommando :
1:gib supervisor kommando :
1,1 
1:gib kommando :
# 64 0 0 play
> 1>begin (\"a\")
> 1>PROC p: END PROC p
> 2>task info
> *1
1:gib kommando :
2:UR frei
2:  PUBLIC frei
2:    a rechnet Kanal 1
2:gib supervisor kommando :
1:gib kommando :
# 64 0 0 play
> 1>begin (\"a\")
> 1>REP PER
> 1>put (0)
> 1>put (1)
> 1>put (2)
> 1>put (3)
> 1>put (4)
> 1>put (5)
> 1>put (6)
> 1>put (7)
> 1>put (8)
> 1>put (9)
> 1>put (10)
> 1>put (11)
> 1>put (12)
> 1>put (13)
> 1>put (14)
> 1>put (15)
> 1>put (16)
> 1^
1:gib kommando :
1:Zeile verworfen
1:gib supervisor kommando :
# 64 0 0 play
> 1>begin (\"a\")
> 1>put (1)
> 1>put (2)
> 1>
> 1>put (3)
> *2
> *1
1:gib kommando :
1,1 
1:gib kommando :
1,2 
1:gib kommando :
1:gib kommando :
1,3 
1:gib kommando :
# 64 0 0 play
> 1>begin (\"a\")
> 2>begin (\"b\", \"a\")
> 3>begin (\"c\", \"b\")
> 1>put (1); end
> *1
1:gib kommando :
2:gib kommando :
3:gib kommando :
3:gib supervisor kommando :
2:gib supervisor kommando :
1,1 
1:gib supervisor kommando :
# 64 0 0 play
> 1>begin (\"a\")
> 1>end (task (\"UR\"))
> *1
> 1>end (father)
> *1
> 1>end (niltask); put (1)
> *1
1:gib kommando :
1:FEHLER : kein Zugriff
1:gib kommando :
1:FEHLER : kein Zugriff
1:gib kommando :
1,1 
1:gib kommando :
# 64 0 0 play
> 1>begin (\"a\")
> 1>enter (\"p\")
> 1>PACKET p DEFINES send: PROC send: put (3) END PROC send END PACKET p
> 1>.
> 1>insert (\"p\")
> *1
> 1>send
> *1
1:gib kommando :
1:gib kommando :
1:gib kommando :
1,3 
1:gib kommando :
# 64 0 0 play
> 1>begin (\"ben\")
> 1>BOUND ROW 3 INT VAR marks :: new (\"marks\"); marks [1] := 3; marks [2] := 1
> 1>BOUND ROW 3 INT VAR marks :: old (\"marks\"); marks [3] := marks [1] + marks [2]; put (marks [3])
> 1>copy (\"marks\", \"safe\"); forget (\"marks\"); IF exists (\"marks\") THEN put (\"there\") ELSE put (\"gone\") FI
> *3
> 1>list
> 1>BOUND INT VAR wrong :: old (\"safe\")
> *1
> .
1:gib kommando :
1:gib kommando :
1,4 
1:gib kommando :
1,gone 
1:gib kommando :
1:safe
1:gib kommando :
1:FEHLER : falscher Datenraumtyp
1:gib kommando :
! fixpoint
# 64 0 0 play
> 1>begin (\"ben\")
> 1>DATASPACE VAR d :: nilspace; put (type (d))
> *1
> 1^
> 1>storage info
> 1>continue (\"ben\")
> 1>enter (\"p\")
> 1>PACKET p DEFINES keep, kept: DATASPACE VAR d;
> 1>PROC keep (INT CONST n): d := nilspace; type (d, n) END PROC keep;
> 1>INT PROC kept: type (d) END PROC kept END PACKET p
> 1>.
> 1>insert (\"p\")
> *1
> 1>DATASPACE VAR e :: nilspace, f :: e; BOUND INT VAR b :: new (\"b\"); b := 5; keep (7); keep (8)
> *1
> 1^
> 1>storage info
> 1>continue (\"ben\")
> 1>put (kept); BOUND INT VAR b :: old (\"b\"); put (b); forget (\"b\"); put (kept); put (b)
> *1
> 1^
> 1>storage info
> 1>begin (\"son\", \"ben\")
> 1>put (kept)
> *1
> 1>keep (9); put (kept)
> *1
> 1^
> 1>continue (\"ben\")
> 1>put (kept); put (1 DIV 0)
> *1
> 1^
> 1>storage info
> .
1:gib kommando :
1,0 
1:gib kommando :
1:gib supervisor kommando :
1:Tasks 3 Datenraeume 0 Pakete 0
1:gib supervisor kommando :
1:gib kommando :
1:gib kommando :
1:gib kommando :
1:gib kommando :
1:gib supervisor kommando :
1:Tasks 3 Datenraeume 3 Pakete 1
1:gib supervisor kommando :
1:gib kommando :
1,8 5 8 
1:FEHLER : Datenraum existiert nicht
1:gib kommando :
1:gib supervisor kommando :
1:Tasks 3 Datenraeume 2 Pakete 1
1:gib supervisor kommando :
1:gib kommando :
1:FEHLER : Datenraum existiert nicht
1:gib kommando :
1,9 
1:gib kommando :
1:gib supervisor kommando :
1:gib kommando :
1,8 
1:FEHLER : Division durch 0
1:gib kommando :
1:gib supervisor kommando :
1:Tasks 4 Datenraeume 3 Pakete 1
1:gib supervisor kommando :
! fixpoint
# 64 0 0 play
> 1>begin (\"ben\")
> 1>INT VAR i; FOR i UPTO 12 REP DATASPACE VAR d :: nilspace PER; put (i); DATASPACE VAR e :: nilspace
> 1>INT VAR i; FOR i UPTO 20 REP DATASPACE VAR d := new (text (i)) PER
> 1>ROW 3 INT VAR r; INT PROC p (INT CONST n): DATASPACE VAR d :: nilspace; type (d, n); IF n > 0 THEN p (n - 1) + 1 ELSE 0 FI END PROC p; put (p (15)); put (p (14))
> *3
> 1^
> 1>storage info
> 1>continue (\"ben\")
> 1>list
> .
1:gib kommando :
1,12 
1:gib kommando :
1:FEHLER : zu viele Datenraeume
1:gib kommando :
1:FEHLER : zu viele Datenraeume
1:gib kommando :
1:gib supervisor kommando :
1:Tasks 3 Datenraeume 15 Pakete 0
1:gib supervisor kommando :
1:gib kommando :
1:1
1:2
1:3
1:4
1:5
1:6
1:7
1:8
1:9
1:10
1:11
1:12
1:13
1:14
1:15
1:gib kommando :
! fixpoint
";

/// What the supervisor answers.
pub const SUPERVISOR: &str = "\
# 64 0 0 play
> 1>
> 1>help me
> 1>begin
> 1>begin (a)
> 1>begin (\"a\", 3)
> 1>begin (\"\"a\"\")
> 1>halt
> 1>break
> 1>run
> 1>\"
> 1>task  info
> 1>taskinfo (\"a\")
1:gib supervisor kommando :
1:unbekanntes Kommando
1:gib supervisor kommando :
1:unbekanntes Kommando
1:gib supervisor kommando :
1:unbekanntes Kommando
1:gib supervisor kommando :
1:unbekanntes Kommando
1:gib supervisor kommando :
1:unbekanntes Kommando
1:gib supervisor kommando :
1:Task gibt es nicht
1:gib supervisor kommando :
1:unbekanntes Kommando
1:gib supervisor kommando :
1:unbekanntes Kommando
1:gib supervisor kommando :
1:unbekanntes Kommando
1:gib supervisor kommando :
1:UR frei
1:  PUBLIC frei
1:gib supervisor kommando :
1:unbekanntes Kommando
1:gib supervisor kommando :
# 64 0 0 play
> 1>begin (\"a\")
> 2>begin (\"a\")
> 2>begin (\"b\", \"nil\")
> 2>begin (\"nnnnnnnnnnnnnnnnnnnnnnnnnnnnnnnnnnnnnnnnnnnnnnnnnnnnnnnnnnnnn\")
> 2>begin (\"nnnnnnnnnnnnnnnnnnnnnnnnnnnnnnnnnnnnnnnnnnnnnnnnnnnnnnnnnnnn\")
> 2^
> 2>begin (\"b\", \"a\")
> 2^
> 2>begin (\"c\", \"b\")
> 2^
> 2>task info
> 1^
> 1>task info
1:gib kommando :
2:Task existiert schon
2:gib supervisor kommando :
2:Vatertask gibt es nicht
2:gib supervisor kommando :
2:falscher Name
2:gib supervisor kommando :
2:gib kommando :
2:gib supervisor kommando :
2:gib kommando :
2:gib supervisor kommando :
2:gib kommando :
2:gib supervisor kommando :
2:UR frei
2:  PUBLIC frei
2:    a frei Kanal 1
2:      b frei
2:        c frei
2:    nnnnnnnnnnnnnnnnnnnnnnnnnnnnnnnnnnnnnnnnnnnnnnnnnnnnnnnnnnnn frei
2:gib supervisor kommando :
1:gib supervisor kommando :
1:UR frei
1:  PUBLIC frei
1:    a frei
1:      b frei
1:        c frei
1:    nnnnnnnnnnnnnnnnnnnnnnnnnnnnnnnnnnnnnnnnnnnnnnnnnnnnnnnnnnnn frei
1:gib supervisor kommando :
# 64 0 0 play
> 1>begin (\"a\")
> 1^
> 1>begin (\"b\")
> 1^
> 1>continue
> 1^
> 1>continue (\"a\")
> 2>continue (\"a\")
> 2>continue (\"x\")
> 2>continue (\"UR\")
> 2^
> 2>continue
> 2^
> 2^
1:gib kommando :
1:gib supervisor kommando :
1:gib kommando :
1:gib supervisor kommando :
1:unbekanntes Kommando
1:gib supervisor kommando :
1:gib supervisor kommando :
1:gib kommando :
2:Task ist schon gekoppelt
2:gib supervisor kommando :
2:Task gibt es nicht
2:gib supervisor kommando :
2:gib kommando :
2:gib supervisor kommando :
2:unbekanntes Kommando
2:gib supervisor kommando :
2:gib supervisor kommando :
2:gib supervisor kommando :
# 64 0 0 play
> 1>continue
> 1>halt
> 2^
> 2>continue (\"PUBLIC\")
> 3>continue (\"PUBLIC\")
1:unbekanntes Kommando
1:gib supervisor kommando :
1:Task gibt es nicht
1:gib supervisor kommando :
2:gib supervisor kommando :
2:gib kommando :
3:Task ist schon gekoppelt
3:gib supervisor kommando :
# 64 0 0 play
> 1>begin (\"a\")
> 1>put (1); REP PER
> *1
> 1^
> 1>task info
> 1>halt
> *1
> 1>halt
> 1^
> 1>halt
> 1>task info
1:gib kommando :
1,1 
1:gib supervisor kommando :
1:UR frei
1:  PUBLIC frei
1:    a rechnet
1:gib supervisor kommando :
1:FEHLER : halt vom Terminal
1:gib kommando :
1:FEHLER : unbekannt (Zeile 1, Stelle 1)
1:gib kommando :
1:gib supervisor kommando :
1:gib kommando :
1:FEHLER : unbekannt (Zeile 1, Stelle 1)
1:gib kommando :
# 64 0 0 play
> 1>begin (\"a\")
> 1>INT VAR i; get (i); put (i)
> *2
> 1^
> 1>task info
> 1>continue (\"a\")
> 1> 7
> *1
> 1>break
> 2>continue (\"a\")
> 2>break; put (1)
> *1
> 2>put (2)
> *1
1:gib kommando :
1:gib supervisor kommando :
1:UR frei
1:  PUBLIC frei
1:    a wartet
1:gib supervisor kommando :
1,7 
1:gib kommando :
2:Task ist schon gekoppelt
2:gib supervisor kommando :
2:unbekanntes Kommando
2:gib supervisor kommando :
1:gib supervisor kommando :
2:unbekanntes Kommando
2:gib supervisor kommando :
# 64 0 0 play
> 1>begin (\"a\")
> 1>REP put (\"viel zu tun\") PER
> 1^
> *3
> 1>continue (\"a\")
> *1
> 1^
> 1>halt
> 1>storage info
1:gib kommando :
1:gib supervisor kommando :
1,viel zu tun 
1,viel zu tun viel zu tun viel zu tun viel zu tun viel zu tun viel zu tun viel zu tun viel zu tun viel zu tun viel zu tun viel zu tun viel zu tun viel zu tun viel zu tun viel zu tun viel zu tun viel zu tun viel zu tun viel zu tun viel zu tun viel zu tun viel zu tun viel zu tun viel zu tun viel zu tun viel zu tun viel zu tun viel zu tun viel zu tun viel zu tun viel zu tun viel zu tun viel zu tun 
1:gib supervisor kommando :
1:FEHLER : halt vom Terminal
1:gib kommando :
1:FEHLER : unbekannt (Zeile 1, Stelle 1)
1:gib kommando :
";

/// Lines that wait, and texts that are entered.
pub const QUEUES: &str = "\
# 64 0 0 play
> 1>begin (\"a\")
> 1>REP PER
> 1>put (1)
> 1>put (2)
> 1>put (3)
> 1>put (4)
> 1>put (5)
> 1>put (6)
> 1>put (7)
> 1>put (8)
> 1>put (9)
> 1>put (10)
> 1>put (11)
> 1>put (12)
> 1>put (13)
> 1>put (14)
> 1>put (15)
> 1>put (16)
> 1>put (17)
> 1>put (18)
> 1^
> 1>halt
> *40
1:gib kommando :
1:Zeile verworfen
1:Zeile verworfen
1:gib supervisor kommando :
1:FEHLER : halt vom Terminal
1:gib kommando :
# 64 0 0 play
> 1>begin (\"a\")
> 1>INT VAR i, n; TEXT VAR t; FOR i UPTO 3 REP getline (t); put (t) PER
> 1>x
> 1>
> 1>y z
> 1>put (5)
> *2
> *2
1:gib kommando :
1,x  y z 
1:gib kommando :
1,5 
1:gib kommando :
# 64 0 0 play
> 1>begin (\"a\")
> 1>enter (\"t\")
> 1>put (1);
> 1>put (2)
> 1>.
> 1>list
> 1>run (\"t\")
> 1>run (\"t\")
> 1>list
> *3
> 1>run (\"u\")
> 1>insert (\"t\")
> 1>enter (\"t\")
> *2
> 1>enter (\"\")
1:gib kommando :
1:gib kommando :
1:t
1:gib kommando :
1,1 2 
1:gib kommando :
1,1 2 
1:gib kommando :
1:t
1:gib kommando :
1:Datenraum gibt es nicht
1:gib kommando :
1:FEHLER : kein ELAN-Text (Zeile 1, Stelle 1)
1:gib kommando :
# 64 0 0 play
> 1>begin (\"a\")
> 1>enter (\"t\")
> 1>halb
> 1^
> 1>task info
> 1>halt
> 1>task info
> 1^
> 1>continue (\"a\")
> 1>list
> 1>enter (\"t\")
> 1>put (3)
> 1>.
> 1>run (\"t\")
> *1
1:gib kommando :
1:gib supervisor kommando :
1:UR frei
1:  PUBLIC frei
1:    a liest
1:gib supervisor kommando :
1:gib kommando :
1:FEHLER : unbekannt (Zeile 1, Stelle 1)
1:gib kommando :
1:gib supervisor kommando :
1:gib kommando :
1:gib kommando :
1:gib kommando :
1,3 
1:gib kommando :
";
