//! Lines with what no clause says of them: that memory suffices, and the printed bytes. A table is one text, since the check goes
//! over each item of an array.

/// Lines, each with what it writes behind it.
pub const LINES: &str = "\
> put (1 + 2 * 3)
7 
> put (-7 DIV 2); put (-7 MOD 2)
-3 1 
> put (- 32767 - 1); line; put (2); line
-32768 
2 
> put (4); put (1 DIV 0)
4 
FEHLER : Division durch 0
> INT VAR i; FOR i FROM 32767 UPTO 32767 REP put (i) PER; put (i)
32767 32767 
> IF FALSE CAND 1 DIV 0 = 1 THEN put (1) ELSE put (2) FI
2 
> SELECT 3 OF CASE 1, 2: put (1) CASE 3: put (2) OTHERWISE: put (0) END SELECT
2 
> REP PER
FEHLER : Zeitgrenze
> put (32768)
FEHLER : kein Symbol (Zeile 1, Stelle 6)
> put (a + 1)
FEHLER : unbekannt (Zeile 1, Stelle 6)
> put (TRUE + 1)
FEHLER : falscher Typ (Zeile 1, Stelle 6)
> INT VAR a; INT CONST a :: 1
FEHLER : doppelt (Zeile 1, Stelle 22)
> INT CONST a :: 1; a := 2
FEHLER : keine Variable (Zeile 1, Stelle 19)
> put (1 2)
FEHLER : kein ELAN-Text (Zeile 1, Stelle 8)
> put (1 +)
FEHLER : kein ELAN-Text (Zeile 1, Stelle 9)
> put (1
FEHLER : kein ELAN-Text (Zeile 1, Stelle 7)
> DATASPACE VAR a
> put (((((((((((((((((((((((((((((((((((((((((((((((((((((((((((((((((((((((((((((((((((((((((((((((((((((5)))))))))))))))))))))))))))))))))))))))))))))))))))))))))))))))))))))))))))))))))))))))))))))))))))))
5 
> ((((((((((((((((((((((((((((((((((((((((((((((((((((((((((((((((((((((((((((((((((((((((((((((((((((((((((((((((((((((((((((((((((((((((((((((((((((((((((((((((((((((((((((((((((((((((((((((((((((((((((((((((((((((((((((((((((((((((((((((((((((((((((
FEHLER : kein ELAN-Text (Zeile 1, Stelle 251)
> put (                                                                                                                                                                                                                                                   1)
1 
";

/// Procedures, refinements and LEAVE, with the last depth that has room and the first that has none.
pub const PROCEDURES: &str = "\
> PROC p (INT VAR a, b): a INCR 1; b INCR 1 END PROC p; INT VAR x :: 5; p (x, x); put (x)
7 
> PROC p: p END PROC p; p
FEHLER : Stapelueberlauf
> INT PROC f (INT CONST n): IF n = 0 THEN 0 ELSE 1 + (1 + (1 + f (n - 1))) FI END PROC f; put (f (30000))
FEHLER : Operandenspeicher voll
> INT PROC f (INT CONST n): IF n = 0 THEN 0 ELSE 1 + (1 + (1 + f (n - 1))) FI END PROC f; put (f (2730))
8190 
> INT PROC f (INT CONST n): IF n = 0 THEN 0 ELSE 1 + (1 + (1 + f (n - 1))) FI END PROC f; put (f (2731))
FEHLER : Operandenspeicher voll
> PROC p (INT CONST n): IF n > 0 THEN p (n - 1) FI END PROC p; p (5460); put (1)
1 
> PROC p (INT CONST n): IF n > 0 THEN p (n - 1) FI END PROC p; p (5461); put (1)
FEHLER : Stapelueberlauf
> INT VAR x; PROC p (INT CONST n): IF n > 0 THEN p (n - 1) FI END PROC p; p (5460); put (1)
1 
> INT VAR x, y; PROC p (INT CONST n): IF n > 0 THEN p (n - 1) FI END PROC p; p (5460); put (1)
FEHLER : Stapelueberlauf
> put (summe). summe: INT VAR i, s; FOR i UPTO 4 REP s INCR i PER; s.
10 
> INT PROC f (INT CONST n): IF n > 3 THEN LEAVE f WITH 1 FI; 2 END PROC f; put (f (4)); put (f (3))
1 2 
> r; put (9). r: INT VAR i; FOR i REP IF i > 3 THEN LEAVE r FI; put (i) PER.
1 2 3 9 
> INT PROC p: q; 1. q: LEAVE p WITH 7 END PROC p; put (p)
7 
> INT PROC p: q; 1. q: r; put (5). r: LEAVE p WITH 7 END PROC p; put (p)
7 
> put (a). a: b + c. b: 2. c: b * 3.
8 
> BOOL PROC g (INT CONST n): IF n = 0 THEN TRUE ELSE u (n - 1) FI END PROC g; BOOL PROC u (INT CONST n): IF n = 0 THEN FALSE ELSE g (n - 1) FI END PROC u; IF g (10) THEN put (1) FI; IF g (9) THEN put (2) FI
1 
> PROC w (INT CONST a): put (1) END PROC w; PROC w (BOOL CONST a): put (2) END PROC w; w (3); w (TRUE)
1 2 
> INT OP + (INT CONST a, b): a * b END OP +; put (3 + 4)
12 
> OP := (INT VAR a, INT CONST b): a INCR b END OP :=; INT VAR x :: 2; x := 3; put (x)
5 
> PROC p: END PROC p; REP p PER
FEHLER : Zeitgrenze
> LEAVE f
FEHLER : falsche Stelle (Zeile 1, Stelle 1)
> r. r: r.
FEHLER : falsche Stelle (Zeile 1, Stelle 7)
> PROC p (INT VAR a): a := 3 END PROC p; p (1)
FEHLER : keine Variable (Zeile 1, Stelle 43)
> PROC s (INT VAR a, b): INT CONST c :: a; a := b; b := c END PROC s; INT VAR x :: 1, y :: 2; s (x, y); put (x); put (y)
2 1 
";

/// Programs, and the listings of their code.
pub const LISTINGS: &str = "\
> REP put (1) PER
0 MARK
1 MARK
2 MARK
3 INT 1
4 ASK put(INT)
5 JUMP 1
6 END
> PROC p (INT VAR a): put (a) END PROC p; INT VAR x; p (x)
0 MARK
1 MARK
2 OUTER 0
3 CALL 5 1
4 END
5 MARK
6 PARAM 0
7 LOAD INT
8 ASK put(INT)
9 BACK
> TEXT VAR t :: \"a\"; t CAT \"b\"; put (t); errorstop (t)
0 MARK
1 OUTER 0
2 TEXT 0
3 STORE TEXT
4 MARK
5 OUTER 0
6 TEXT 1
7 DO CAT
8 MARK
9 OUTER 0
10 LOAD TEXT
11 ASK put(TEXT)
12 MARK
13 OUTER 0
14 LOAD TEXT
15 DO errorstop
16 END
> TASK VAR t :: father (myself); end (t); break; put (name (t))
0 MARK
1 OUTER 0
2 ASK myself
3 ASK father(TASK)
4 STORE TASK
5 MARK
6 OUTER 0
7 LOAD TASK
8 ASK end(TASK)
9 MARK
10 ASK break
11 MARK
12 OUTER 0
13 LOAD TASK
14 ASK name(TASK)
15 ASK put(TEXT)
16 END
> TASK VAR t :: niltask; ROW 2 TASK VAR r; r [1] := t; IF t = r [2] THEN line FI
0 MARK
1 OUTER 0
2 NIL TASK
3 STORE TASK
4 MARK
5 MARK
6 OUTER 1
7 INT 1
8 INDEX 2 1
9 OUTER 0
10 LOAD TASK
11 STORE TASK
12 MARK
13 OUTER 0
14 LOAD TASK
15 OUTER 1
16 INT 2
17 INDEX 2 1
18 LOAD TASK
19 DO =
20 FALSE 24
21 MARK
22 ASK line
23 JUMP 24
24 END
";
