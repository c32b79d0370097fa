//! Sessions with messages between tasks, and behind each what the terminals show.

/// `send`, `wait` and `call`: receipts, the order of callers, who is ready, what a message brings and whose its data space is, tasks that are
/// halted or end while they wait, and a server that is a start procedure. One text, since the check goes over each item of an array.
pub const MESSAGES: &str = "\
# 64 0 0 play
> 1>begin (\"a\")
> 2>begin (\"b\")
> 1>DATASPACE VAR d :: nilspace; INT VAR r; send (task (\"b\"), 5, d, r); put (r)
> *1
> 2>DATASPACE VAR e; INT VAR c; TASK VAR t; wait (e, c, t); put (c); putline (name (t))
> *1
> 1>DATASPACE VAR d :: nilspace; INT VAR r; send (task (\"b\"), 5, d, r); put (r); type (d, 1)
> *2
1:gib kommando :
2:gib kommando :
1,-2 
1:gib kommando :
1,0 
1:FEHLER : Datenraum existiert nicht
1:gib kommando :
2:5 a
2:gib kommando :
# 64 0 0 play
> 1>begin (\"a\")
> 2>begin (\"b\", \"a\")
> 1>DATASPACE VAR d :: nilspace; INT VAR r; call (task (\"b\"), 1, d, r); put (r)
> *1
> 2>end
> *1
> *1
1:gib kommando :
2:gib kommando :
2:gib supervisor kommando :
1,-1 
1:gib kommando :
# 64 0 0 play
> 1>begin (\"a\")
> 1>DATASPACE VAR d :: nilspace; INT VAR r; send (niltask, 1, d, r); put (r); send (myself, 1, d, r); put (r); call (myself, 1, d, r); put (r); call (niltask, 2, d, r); put (r); put (type (d))
> *2
> 1>DATASPACE VAR d; INT VAR r; put (7); send (niltask, 1, d, r); put (r)
> *1
> 1>DATASPACE VAR d; INT VAR r; call (niltask, 1, d, r); put (r)
> *1
1:gib kommando :
1,-1 -2 -2 -1 0 
1:gib kommando :
1,7 
1:FEHLER : Datenraum existiert nicht
1:gib kommando :
1:FEHLER : Datenraum existiert nicht
1:gib kommando :
# 64 0 0 play
> 1>begin (\"a\")
> 2>begin (\"b\")
> 2>BOUND ROW 3 INT VAR old; DATASPACE VAR e :: nilspace; INT VAR c; TASK VAR t; wait (e, c, t); old := e; put (c); put (old [2]); put (type (e)); IF t = task (\"a\") THEN put (1) FI
> *1
> 1>BOUND ROW 3 INT VAR r :: new (\"r\"); r [2] := 42; DATASPACE VAR d := old (\"r\"); type (d, 9); INT VAR q; send (task (\"b\"), 3, d, q); put (q); r [2] := 1; put (r [2])
> *2
> 1>DATASPACE VAR d; d := old (\"r\"); put (type (d))
> *1
> 1>BOUND ROW 3 INT VAR r :: old (\"r\"); put (r [2])
> *1
1:gib kommando :
2:gib kommando :
1,0 1 
1:gib kommando :
2,3 42 9 1 
2:gib kommando :
1,0 
1:gib kommando :
1,1 
1:gib kommando :
# 64 0 0 play
> 1>begin (\"a\")
> 2>begin (\"b\")
> 1>BOUND INT VAR i :: nilspace
> *1
> 1>DATASPACE VAR d :: nilspace; BOUND INT VAR i :: d; i := 20; INT VAR r; call (task (\"b\"), 4, d, r); put (r); BOUND INT VAR j :: d; put (j)
> *3
> 2>DATASPACE VAR e; INT VAR c; TASK VAR t; wait (e, c, t); BOUND INT VAR i :: e; i := 2 * i; put (i); send (t, c + 1, e, c); put (c)
> *4
1:gib kommando :
2:gib kommando :
1:FEHLER : Datenraum existiert nicht
1:gib kommando :
2,40 0 
2:gib kommando :
1,5 40 
1:gib kommando :
# 64 0 0 play
> 1>begin (\"a\")
> 2>begin (\"b\")
> 3>begin (\"c\")
> 2>DATASPACE VAR d :: nilspace; INT VAR r; call (task (\"a\"), 2, d, r); put (r)
> *3
> 3>DATASPACE VAR d :: nilspace; INT VAR r; call (task (\"a\"), 3, d, r); put (r)
> *3
> 1>DATASPACE VAR d; INT VAR c, i; TASK VAR t; FOR i UPTO 2 REP wait (d, c, t); put (name (t)); put (c); send (t, 10 * c, d, c) PER; put (c)
> *6
1:gib kommando :
2:gib kommando :
3:gib kommando :
1,b 2 c 3 0 
1:gib kommando :
2,20 
2:gib kommando :
3,30 
3:gib kommando :
# 64 0 0 play
> 1>begin (\"a\")
> 2>begin (\"b\")
> 3>begin (\"c\")
> 1>DATASPACE VAR d; INT VAR c; TASK VAR t; wait (d, c, t); put (c)
> *3
> 2>DATASPACE VAR d :: nilspace; INT VAR r; call (task (\"a\"), 5, d, r); put (r)
> *3
> 3>DATASPACE VAR d :: nilspace; INT VAR r; send (task (\"b\"), 1, d, r); put (r); send (task (\"a\"), 1, d, r); put (r); put (type (d))
> *4
> 1>DATASPACE VAR d :: nilspace; INT VAR r; send (task (\"b\"), 8, d, r); put (r)
> *3
1:gib kommando :
2:gib kommando :
3:gib kommando :
1,5 
1:gib kommando :
3,-2 -2 0 
3:gib kommando :
1,0 
1:gib kommando :
2,8 
2:gib kommando :
# 64 0 0 play
> 1>begin (\"a\")
> 2>begin (\"b\")
> 1>DATASPACE VAR d; INT VAR c; TASK VAR t; wait (d, c, t); put (c)
> *2
> 1^
> 1>halt
> 2>DATASPACE VAR d :: nilspace; INT VAR r; send (task (\"a\"), 1, d, r); put (r)
> *2
> 2>DATASPACE VAR d :: nilspace; INT VAR r; call (task (\"a\"), 1, d, r); put (r)
> *2
> 2^
> 2>halt
> 1>DATASPACE VAR d; INT VAR c; TASK VAR t; wait (d, c, t); put (c)
> *2
> 2>DATASPACE VAR d :: nilspace; INT VAR r; send (task (\"a\"), 6, d, r); put (r)
> *2
1:gib kommando :
2:gib kommando :
1:gib supervisor kommando :
1:FEHLER : halt vom Terminal
1:gib kommando :
2,-2 
2:gib kommando :
2:gib supervisor kommando :
2:FEHLER : halt vom Terminal
2:gib kommando :
2,0 
2:gib kommando :
1,6 
1:gib kommando :
# 64 0 0 play
> 1>begin (\"a\")
> 2>begin (\"b\")
> 1>INT VAR i; BOUND INT VAR x; FOR i UPTO 16 REP x := new (text (i)) PER
> *2
> 1>DATASPACE VAR d; INT VAR c; TASK VAR t; wait (d, c, t); put (c)
> *2
> 1>forget (\"3\"); DATASPACE VAR d; INT VAR c; TASK VAR t; wait (d, c, t); put (c); put (type (d))
> *2
> 2>DATASPACE VAR d :: nilspace; type (d, 77); INT VAR r; send (task (\"a\"), -5, d, r); put (r)
> *3
> 1^
> 1>storage info
1:gib kommando :
2:gib kommando :
1:gib kommando :
1:FEHLER : zu viele Datenraeume
1:gib kommando :
2,0 
2:gib kommando :
1,-5 77 
1:gib kommando :
1:gib supervisor kommando :
1:Tasks 4 Datenraeume 15 Pakete 0
1:gib supervisor kommando :
# 64 0 0 play
> 1>begin (\"a\")
> 2>begin (\"b\")
> 1>DATASPACE VAR d :: nilspace, e := nilspace; BOUND INT VAR c :: e; TASK VAR t; c := 1; wait (d, c, t); put (c); put (name (t)); put (type (d))
> *2
> 1^
> 1>storage info
> 1>continue (\"a\")
> 2>DATASPACE VAR d :: nilspace; INT VAR r; send (task (\"a\"), 12, d, r); put (r)
> *3
> 1^
> 1>storage info
1:gib kommando :
2:gib kommando :
1:gib supervisor kommando :
1:Tasks 4 Datenraeume 2 Pakete 0
1:gib supervisor kommando :
2,0 
2:gib kommando :
1,12 b 0 
1:gib kommando :
1:gib supervisor kommando :
1:Tasks 4 Datenraeume 0 Pakete 0
1:gib supervisor kommando :
# 64 0 0 play
> 1>begin (\"a\")
> 2>begin (\"b\")
> 1>DATASPACE VAR d :: nilspace; BOUND INT VAR c :: d; INT VAR r; c := 3; call (task (\"b\"), 1, d, c); put (9)
> *2
> 2>DATASPACE VAR d; INT VAR c; TASK VAR t; wait (d, c, t); BOUND INT VAR i :: d; put (i); send (t, 2, d, c); put (c)
> *4
1:gib kommando :
2:gib kommando :
2,3 0 
2:gib kommando :
1:FEHLER : Datenraum existiert nicht
1:gib kommando :
# 64 0 0 play
> 1>begin (\"boss\")
> 1>enter (\"serve\")
> 1>PACKET serve DEFINES server:
> 1>PROC server:
> 1>DATASPACE VAR d; INT VAR c; TASK VAR t; BOUND INT VAR i;
> 1>REP wait (d, c, t); i := d; i := i + c; send (t, 0, d, c) PER
> 1>END PROC server
> 1>END PACKET serve
> 1>.
> 1>insert (\"serve\")
> *1
> 1>TASK VAR t; begin (\"s\", PROC server, t); put (name (t))
> *2
> 1>PROC ask (INT CONST n): DATASPACE VAR d :: nilspace; BOUND INT VAR i :: d; i := 100; INT VAR r; call (task (\"s\"), n, d, r); put (r); BOUND INT VAR j :: d; put (j) END PROC ask; ask (1); ask (22)
> *8
> 1>end (task (\"s\")); put (1)
> *2
> 1>PROC ask (INT CONST n): DATASPACE VAR d :: nilspace; INT VAR r; call (task (\"s\"), n, d, r); put (r) END PROC ask; ask (1)
> *2
1:gib kommando :
1:gib kommando :
1:gib kommando :
1,s 
1:gib kommando :
1,0 101 
1,0 122 
1:gib kommando :
1,1 
1:gib kommando :
1,-1 
1:gib kommando :
# 64 0 0 play
> 1>begin (\"a\")
> 2>begin (\"b\", \"a\")
> 3>begin (\"c\")
> 4>begin (\"d\")
> 3>DATASPACE VAR d :: nilspace; INT VAR r; call (task (\"b\"), 3, d, r); put (r); put (type (d))
> *1
> 4>DATASPACE VAR d :: nilspace; INT VAR r; call (task (\"a\"), 4, d, r); put (r)
> *4
> 1>end
> *4
> 4^
> 4>storage info
1:gib kommando :
2:gib kommando :
3:gib kommando :
4:gib kommando :
2:gib supervisor kommando :
1:gib supervisor kommando :
3,-1 0 
3:gib kommando :
4,-1 
4:gib kommando :
4:gib supervisor kommando :
4:Tasks 4 Datenraeume 0 Pakete 0
4:gib supervisor kommando :
# 64 0 0 play
> 1>begin (\"a\")
> 2>begin (\"b\")
> 1>DATASPACE VAR d :: nilspace; INT VAR r; call (task (\"b\"), 3, d, r); put (r); put (type (d))
> *2
> 2>DATASPACE VAR d; INT VAR c; TASK VAR t; wait (d, c, t); end
> *4
> 1^
> 1>storage info
1:gib kommando :
2:gib kommando :
2:gib supervisor kommando :
1,-1 
1:FEHLER : Datenraum existiert nicht
1:gib kommando :
1:gib supervisor kommando :
1:Tasks 3 Datenraeume 0 Pakete 0
1:gib supervisor kommando :
";

/// Who is ready to receive, in each state that a task can be in; a call that answers a call; callers that are halted; tasks that end over three
/// generations, and in which order those are told that wait for them; variables in data spaces that are gone; and names of what is sent.
pub const RENDEZVOUS: &str = "\
# 64 0 0 play
> 1>begin (\"boss\")
> 1>enter (\"post\")
> 1>PACKET post DEFINES try, ask, serve, hold:
> 1>PROC try (TEXT CONST n): DATASPACE VAR d :: nilspace; INT VAR r; send (task (n), 1, d, r); put (r) END PROC try;
> 1>PROC ask (TEXT CONST n): DATASPACE VAR d :: nilspace; INT VAR r; call (task (n), 2, d, r); put (r) END PROC ask;
> 1>PROC serve (INT CONST n): DATASPACE VAR d; INT VAR c; TASK VAR t; wait (d, c, t); put (c); put (name (t)); send (t, n, d, c); put (c) END PROC serve;
> 1>PROC hold (INT CONST n): DATASPACE VAR d; INT VAR c; TASK VAR t; TEXT VAR s; wait (d, c, t); getline (s); send (t, n, d, c); put (c) END PROC hold
> 1>END PACKET post
> 1>.
> 1>insert (\"post\")
> *1
> 2>begin (\"x\", \"boss\")
> 1>try (\"x\")
> *1
> 2>enter (\"t\")
> 1>try (\"x\")
> *1
> 2>.
> 2>REP PER
> 1>try (\"x\")
> *4
> 2^
> 2>halt
> 2>INT VAR i; get (i); put (i)
> *1
> 1>try (\"x\")
> *1
> 2>5
> *1
> 2>put (4)
> 2^
> *1
> 1>try (\"x\")
> *1
> 2>continue (\"x\")
> *1
> 2>ask (\"boss\")
> *1
> 1>try (\"x\")
> *1
> 2^
> 2>halt
> 2>serve (7)
> *1
> 1>try (\"x\"); try (\"x\")
> *2
> 1>try (\"boss\"); try (\"nobody\"); ask (\"boss\"); ask (\"nobody\")
> *1
> 2>end
> *1
> 1>try (\"x\")
> *1
1:gib kommando :
1:gib kommando :
1:gib kommando :
2:gib kommando :
1,-2 
1:gib kommando :
1,-2 
1:gib kommando :
2:gib kommando :
1,-2 
1:gib kommando :
2:gib supervisor kommando :
2:FEHLER : halt vom Terminal
2:gib kommando :
1,-2 
1:gib kommando :
2,5 
2:gib kommando :
2:gib supervisor kommando :
1,-2 
1:gib kommando :
2,4 
2:gib kommando :
1,-2 
1:gib kommando :
2:gib supervisor kommando :
2:FEHLER : halt vom Terminal
2:gib kommando :
1,0 -2 
1:gib kommando :
2,1 boss -2 
2:gib kommando :
1,-2 -1 -2 -1 
1:gib kommando :
2:gib supervisor kommando :
1,-1 
1:gib kommando :
# 64 0 0 play
> 1>begin (\"boss\")
> 1>enter (\"post\")
> 1>PACKET post DEFINES try, ask, serve, hold:
> 1>PROC try (TEXT CONST n): DATASPACE VAR d :: nilspace; INT VAR r; send (task (n), 1, d, r); put (r) END PROC try;
> 1>PROC ask (TEXT CONST n): DATASPACE VAR d :: nilspace; INT VAR r; call (task (n), 2, d, r); put (r) END PROC ask;
> 1>PROC serve (INT CONST n): DATASPACE VAR d; INT VAR c; TASK VAR t; wait (d, c, t); put (c); put (name (t)); send (t, n, d, c); put (c) END PROC serve;
> 1>PROC hold (INT CONST n): DATASPACE VAR d; INT VAR c; TASK VAR t; TEXT VAR s; wait (d, c, t); getline (s); send (t, n, d, c); put (c) END PROC hold
> 1>END PACKET post
> 1>.
> 1>insert (\"post\")
> *1
> 2>begin (\"x\", \"boss\")
> 3>begin (\"y\", \"boss\")
> 2>hold (9)
> *1
> 1>ask (\"x\")
> *2
> 3>try (\"boss\")
> *1
> 1^
> 1>task info
> 2>on
> *1
> 1>continue (\"boss\")
> *2
1:gib kommando :
1:gib kommando :
1:gib kommando :
2:gib kommando :
3:gib kommando :
3,-2 
3:gib kommando :
1:gib supervisor kommando :
1:UR frei
1:  PUBLIC frei
1:    boss wartet
1:      x wartet Kanal 2
1:      y frei Kanal 3
1:gib supervisor kommando :
2,0 
2:gib kommando :
1,9 
1:gib kommando :
# 64 0 0 play
> 1>begin (\"boss\")
> 1>enter (\"post\")
> 1>PACKET post DEFINES try, ask, serve, hold:
> 1>PROC try (TEXT CONST n): DATASPACE VAR d :: nilspace; INT VAR r; send (task (n), 1, d, r); put (r) END PROC try;
> 1>PROC ask (TEXT CONST n): DATASPACE VAR d :: nilspace; INT VAR r; call (task (n), 2, d, r); put (r) END PROC ask;
> 1>PROC serve (INT CONST n): DATASPACE VAR d; INT VAR c; TASK VAR t; wait (d, c, t); put (c); put (name (t)); send (t, n, d, c); put (c) END PROC serve;
> 1>PROC hold (INT CONST n): DATASPACE VAR d; INT VAR c; TASK VAR t; TEXT VAR s; wait (d, c, t); getline (s); send (t, n, d, c); put (c) END PROC hold
> 1>END PACKET post
> 1>.
> 1>insert (\"post\")
> *1
> 2>begin (\"x\", \"boss\")
> 3>begin (\"y\", \"boss\")
> 2>DATASPACE VAR d; INT VAR c; TASK VAR t; wait (d, c, t); put (c); call (t, 5, d, c); put (c)
> *1
> 3>ask (\"x\")
> *3
> 3>try (\"x\")
> *3
1:gib kommando :
1:gib kommando :
1:gib kommando :
2:gib kommando :
3:gib kommando :
2,2 
3,5 
3:gib kommando :
3,0 
3:gib kommando :
2,1 
2:gib kommando :
# 64 0 0 play
> 1>begin (\"boss\")
> 1>enter (\"post\")
> 1>PACKET post DEFINES try, ask, serve, hold:
> 1>PROC try (TEXT CONST n): DATASPACE VAR d :: nilspace; INT VAR r; send (task (n), 1, d, r); put (r) END PROC try;
> 1>PROC ask (TEXT CONST n): DATASPACE VAR d :: nilspace; INT VAR r; call (task (n), 2, d, r); put (r) END PROC ask;
> 1>PROC serve (INT CONST n): DATASPACE VAR d; INT VAR c; TASK VAR t; wait (d, c, t); put (c); put (name (t)); send (t, n, d, c); put (c) END PROC serve;
> 1>PROC hold (INT CONST n): DATASPACE VAR d; INT VAR c; TASK VAR t; TEXT VAR s; wait (d, c, t); getline (s); send (t, n, d, c); put (c) END PROC hold
> 1>END PACKET post
> 1>.
> 1>insert (\"post\")
> *1
> 2>begin (\"x\", \"boss\")
> 3>begin (\"y\", \"boss\")
> 2>ask (\"y\")
> *1
> 2^
> 2>halt
> 3>hold (1)
> *1
> 2>ask (\"y\")
> *1
> 2^
> 2>halt
> 3>on
> *1
> 1^
> 1>task info
1:gib kommando :
1:gib kommando :
1:gib kommando :
2:gib kommando :
3:gib kommando :
2:gib supervisor kommando :
2:FEHLER : halt vom Terminal
2:gib kommando :
2:gib supervisor kommando :
2:FEHLER : halt vom Terminal
2:gib kommando :
3,-2 
3:gib kommando :
1:gib supervisor kommando :
1:UR frei
1:  PUBLIC frei
1:    boss frei
1:      x frei Kanal 2
1:      y frei Kanal 3
1:gib supervisor kommando :
# 64 0 0 play
> 1>begin (\"boss\")
> 1>enter (\"post\")
> 1>PACKET post DEFINES try, ask, serve, hold:
> 1>PROC try (TEXT CONST n): DATASPACE VAR d :: nilspace; INT VAR r; send (task (n), 1, d, r); put (r) END PROC try;
> 1>PROC ask (TEXT CONST n): DATASPACE VAR d :: nilspace; INT VAR r; call (task (n), 2, d, r); put (r) END PROC ask;
> 1>PROC serve (INT CONST n): DATASPACE VAR d; INT VAR c; TASK VAR t; wait (d, c, t); put (c); put (name (t)); send (t, n, d, c); put (c) END PROC serve;
> 1>PROC hold (INT CONST n): DATASPACE VAR d; INT VAR c; TASK VAR t; TEXT VAR s; wait (d, c, t); getline (s); send (t, n, d, c); put (c) END PROC hold
> 1>END PACKET post
> 1>.
> 1>insert (\"post\")
> *1
> 1^
> 1>begin (\"a\", \"boss\")
> 2>begin (\"b\", \"a\")
> 3>begin (\"c\", \"b\")
> 4>begin (\"d\")
> 4>DATASPACE VAR d :: nilspace; INT VAR r; call (task (\"c\"), 3, d, r); put (r); put (type (d))
> *1
> 4^
> 4>begin (\"e\")
> 4>DATASPACE VAR d :: nilspace; INT VAR r; call (task (\"a\"), 4, d, r); put (r); put (type (d))
> *1
> 2>hold (1)
> *1
> 4^
> 4>begin (\"f\")
> 4>DATASPACE VAR d :: nilspace; INT VAR r; call (task (\"b\"), 5, d, r); put (r); put (type (d))
> *2
> 1>end
> *2
> 3>task info
> 1>continue (\"d\")
> 2>continue (\"e\")
> *4
> 1^
> 1>storage info
1:gib kommando :
1:gib kommando :
1:gib kommando :
1:gib supervisor kommando :
1:gib kommando :
2:gib kommando :
3:gib kommando :
4:gib kommando :
4:gib supervisor kommando :
4:gib kommando :
4:gib supervisor kommando :
4:gib kommando :
3:gib supervisor kommando :
2:gib supervisor kommando :
1:gib supervisor kommando :
3:UR frei
3:  PUBLIC frei
3:    boss frei
3:    d wartet
3:    e rechnet
3:    f rechnet Kanal 4
3:gib supervisor kommando :
1,-1 
4,-1 
4:FEHLER : Datenraum existiert nicht
4:gib kommando :
2,-1 0 
2:gib kommando :
1,0 
1:gib kommando :
1:gib supervisor kommando :
1:Tasks 6 Datenraeume 1 Pakete 1
1:gib supervisor kommando :
# 64 0 0 play
> 1>begin (\"boss\")
> 1>enter (\"post\")
> 1>PACKET post DEFINES try, ask, serve, hold:
> 1>PROC try (TEXT CONST n): DATASPACE VAR d :: nilspace; INT VAR r; send (task (n), 1, d, r); put (r) END PROC try;
> 1>PROC ask (TEXT CONST n): DATASPACE VAR d :: nilspace; INT VAR r; call (task (n), 2, d, r); put (r) END PROC ask;
> 1>PROC serve (INT CONST n): DATASPACE VAR d; INT VAR c; TASK VAR t; wait (d, c, t); put (c); put (name (t)); send (t, n, d, c); put (c) END PROC serve;
> 1>PROC hold (INT CONST n): DATASPACE VAR d; INT VAR c; TASK VAR t; TEXT VAR s; wait (d, c, t); getline (s); send (t, n, d, c); put (c) END PROC hold
> 1>END PACKET post
> 1>.
> 1>insert (\"post\")
> *1
> 1^
> 1>begin (\"v\", \"boss\")
> 2>begin (\"p\", \"boss\")
> 3>begin (\"q\", \"boss\")
> 4>begin (\"r\", \"boss\")
> 4>ask (\"v\")
> *1
> 1>DATASPACE VAR d; INT VAR c; TASK VAR t; wait (d, c, t); put (name (t)); wait (d, c, t); put (name (t)); TEXT VAR s; getline (s); end
> *1
> 2>ask (\"v\")
> *1
> 3>ask (\"v\")
> *2
> 1>go
> *4
1:gib kommando :
1:gib kommando :
1:gib kommando :
1:gib supervisor kommando :
1:gib kommando :
2:gib kommando :
3:gib kommando :
4:gib kommando :
1,r 
1,p 
1:gib supervisor kommando :
2,-1 
2:gib kommando :
4,-1 
4:gib kommando :
3,-1 
3:gib kommando :
# 64 0 0 play
> 1>begin (\"a\")
> 2>begin (\"b\")
> 1>DATASPACE VAR d :: nilspace, e :: nilspace; BOUND STRUCT (INT c, TASK t) VAR s :: e; forget (e); put (1); wait (d, s.c, s.t); put (2)
> *1
> 2>DATASPACE VAR d :: nilspace; INT VAR r; send (task (\"a\"), 3, d, r); put (r)
> *2
> 1>DATASPACE VAR d :: nilspace, e :: nilspace; BOUND INT VAR c :: e; INT VAR r; forget (e); put (1); send (task (\"b\"), 3, d, c); put (2)
> *2
> 2^
> 2>storage info
1:gib kommando :
2:gib kommando :
1,1 
2,0 
2:gib kommando :
1:FEHLER : Datenraum existiert nicht
1:gib kommando :
1,1 
1:FEHLER : Datenraum existiert nicht
1:gib kommando :
2:gib supervisor kommando :
2:Tasks 4 Datenraeume 0 Pakete 0
2:gib supervisor kommando :
# 64 0 0 play
> 1>begin (\"a\")
> 2>begin (\"b\")
> 1>BOUND INT VAR c :: new (\"c\"); c := 7
> *1
> 2>BOUND INT VAR c; DATASPACE VAR d; INT VAR i; TASK VAR t; wait (d, i, t); c := d; put (c)
> *1
> 1>DATASPACE VAR d := old (\"c\"); INT VAR r; send (task (\"b\"), 3, d, r); put (r)
> *2
> 1>list
> 2>BOUND INT VAR c; DATASPACE VAR d; INT VAR i; TASK VAR t; wait (d, i, t); c := d; put (c); put (i)
> *1
> 1>PROC p (DATASPACE VAR d): INT VAR r; send (task (\"b\"), 6, d, r); put (r) END PROC p; BOUND INT VAR b :: new (\"x\"); b := 3; DATASPACE VAR d := old (\"x\"); p (d); b := 4; put (b)
> *3
> 1>list
1:gib kommando :
2:gib kommando :
1:gib kommando :
1,0 
1:gib kommando :
2,7 
2:gib kommando :
1:c
1:gib kommando :
1,0 4 
1:gib kommando :
2,3 6 
2:gib kommando :
1:c
1:x
1:gib kommando :
";

/// The session of the README, and that of the lesson on messages.
pub const LESSONS: &str = "\
# 64 0 0 play
> 1>begin (\"klasse\")
> 1>enter (\"wuerfel\")
> 1>PACKET wuerfel DEFINES wurf: INT VAR zahl :: 4;
> 1>INT PROC wurf: zahl := (5 * zahl + 3) MOD 7; 1 + zahl MOD 6 END PROC wurf END PACKET wuerfel
> 1>.
> 1>insert (\"wuerfel\")
> *1
> 2>begin (\"ben\", \"klasse\")
> 1>INT VAR i; FOR i UPTO 5 REP put (wurf) PER
> 2>TEXT VAR who; putline (\"Who rolls?\"); getline (who); put (who + \":\"); put (wurf)
> *1
> 2>Ben
> *2
> 1>REP put (\"and again\") PER
> *1
> 1^
> 3>task info
> 1>halt
> .
1:gib kommando :
1:gib kommando :
1:gib kommando :
2:gib kommando :
1,3 1 6 1 4 
1:gib kommando :
2:Who rolls?
2,Ben: 3 
2:gib kommando :
1,and again and again and again and again and again and again and again and again and again and again and again and again and again and again and again and again and again and again and again and again and again and again and again and again and again and again and again and again and again and again and again and again and again 
1:gib supervisor kommando :
3:UR frei
3:  PUBLIC frei
3:    klasse rechnet
3:      ben frei Kanal 2
3:gib supervisor kommando :
1:FEHLER : halt vom Terminal
1:gib kommando :
! fixpoint
# 64 0 0 play
> 1>begin (\"bank\")
> 2>begin (\"anna\")
> 3>begin (\"ben\")
> 1>BOUND INT VAR i; DATASPACE VAR d; INT VAR c, sum; TASK VAR t; REP wait (d, c, t); i := d; sum INCR i; i := sum; putline (name (t)); send (t, 0, d, c) PER
> 2>DATASPACE VAR d :: nilspace; BOUND INT VAR i :: d; INT VAR r; i := 30; call (task (\"bank\"), 1, d, r); i := d; put (i)
> 3>DATASPACE VAR d :: nilspace; BOUND INT VAR i :: d; INT VAR r; i := 12; call (task (\"bank\"), 1, d, r); i := d; put (i)
> *9
> 1^
> 1>halt
> 2>DATASPACE VAR d :: nilspace; INT VAR r; send (task (\"bank\"), 1, d, r); put (r); call (task (\"bank\"), 1, d, r); put (r)
> *1
> 1>end
> *2
> .
1:gib kommando :
2:gib kommando :
3:gib kommando :
1:anna
1:ben
2,30 
2:gib kommando :
3,42 
3:gib kommando :
1:gib supervisor kommando :
1:FEHLER : halt vom Terminal
1:gib kommando :
2,-2 
1:gib supervisor kommando :
2,-1 
2:gib kommando :
! fixpoint
";
