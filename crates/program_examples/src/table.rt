//! Programs, and behind each what it writes. tools/examples writes this file from README.md and docs/.

/// One text, since the check goes over each item of an array.
pub(crate) const EXAMPLES: &str = "\
> INT VAR my age :: 9; put (myage)   (* one name *)
9 
> put (007); put (1)put (2)
FEHLER : kein ELAN-Text (Zeile 1, Stelle 19)
> put (007); IF 1<2 THEN put(1)ENDIF {the last word is two}
7 1 
> put (32768)
FEHLER : kein Symbol (Zeile 1, Stelle 6)
> put (1); (* put (2)
FEHLER : kein Symbol (Zeile 1, Stelle 10)
> put (10 - 2 - 3); put (1 + 2 * 3); put (- 7 DIV 2)
5 7 -3 
> INT VAR a :: 1; a INCR 1 + 2; put (a); IF NOT (a = 4) OR 1 + 1 < 3 THEN put (5) FI
4 5 
> (((((((((((((1)))))))))))))
FEHLER : falscher Typ (Zeile 1, Stelle 1)
> INT VAR x; ; put (x);
0 
> INT PROC f (INT CONST a, b): a - b END PROC g; put (f (1, 2))
FEHLER : kein ELAN-Text (Zeile 1, Stelle 45)
> x := 3; put (x); INT VAR x
3 
> INT VAR n :: 1; PROC p: INT VAR n :: 2; put (n) END PROC p; p; put (n)
2 1 
> r; put (n). r: INT VAR n :: 7.
7 
> PROC w (INT CONST a): put (1) END PROC w; PROC w (BOOL CONST a): put (2) END PROC w; w (3); w (TRUE)
1 2 
> INT OP + (INT CONST a, b): a * b END OP +; put (3 + 4)
12 
> OP := (INT VAR a, INT CONST b): a INCR b END OP :=; INT VAR x :: 2; x := 3; put (x)
5 
> LET n = 3, word = \"ab\", yes = TRUE; IF yes THEN put (n * word) FI
ababab 
> SELECT 5 OF CASE one: put (1) CASE five: put (50) END SELECT. p: LET one = 1, five = 5.
50 
> LET n = 3; n := 4
FEHLER : keine Variable (Zeile 1, Stelle 12)
> LET n = 3; INT VAR n
FEHLER : doppelt (Zeile 1, Stelle 20)
> SELECT 1 OF CASE 3: line CASE n: line END SELECT; LET n = 3
FEHLER : doppelt (Zeile 1, Stelle 31)
> SELECT 1 OF CASE t: line END SELECT; LET t = \"1\"
FEHLER : falscher Typ (Zeile 1, Stelle 18)
> LET T = INT; T VAR x :: 3; INT VAR y :: x; put (y)
3 
> TYPE T = INT; PROC p: LET T = TEXT; T VAR x :: \"a\"; put (x) END PROC p; p
a 
> TYPE T = INT; PROC p (INT CONST a): put (a) END PROC p; PROC p (T CONST a): put (\"T\") END PROC p; T VAR x; p (x)
T 
> TYPE T = INT; OP := (T VAR a, T CONST b): CONCR (a) := CONCR (b) + 1 END OP :=; T VAR x; x := x; put (CONCR (x))
1 
> TYPE T = INT; T VAR x, y; x := y
FEHLER : falscher Typ (Zeile 1, Stelle 27)
> TYPE T = INT; T OP + (T CONST a): T VAR c; CONCR (c) := CONCR (a) + 1; c END OP +; T VAR x; put (CONCR (+ x))
1 
> put (CONCR (3))
FEHLER : falscher Typ (Zeile 1, Stelle 6)
> U VAR x; x := 3; put (x)
FEHLER : unbekannt (Zeile 1, Stelle 1)
> LET T = U, U = T; T VAR x
FEHLER : falsche Stelle (Zeile 1, Stelle 5)
> TYPE T = INT; TYPE T = TEXT; put (1)
FEHLER : doppelt (Zeile 1, Stelle 20)
> INT VAR a :: \"x\"; U VAR b
FEHLER : falscher Typ (Zeile 1, Stelle 9)
> ROW 3 INT VAR a; a [2] := 5; put (a [2]); put (a [4])
5 
FEHLER : Index ausserhalb
> LET n = 4; ROW n INT VAR a; INT VAR i; FOR i UPTO n REP a [i] := i * i PER; put (a [n])
16 
> ROW 2 STRUCT (INT x, y) VAR q; q [2].y := 7; put (q [2].y); put (q [1].y)
7 0 
> ROW 3 INT PROC squares: ROW 3 INT VAR r; r [2] := 4; r [3] := 9; r END PROC squares; put (squares [3])
9 
> PROC p (INT VAR x): x INCR 1 END PROC p; ROW 2 INT VAR a; p (a [2]); p (a [2]); put (a [2])
2 
> LET P = STRUCT (INT x, y); P VAR p; STRUCT (INT x, y) VAR q; q.x := 4; p := q; put (p.x)
4 
> STRUCT (INT a) VAR s; STRUCT (INT b) VAR t; s := t
FEHLER : falscher Typ (Zeile 1, Stelle 45)
> TYPE T = INT; ROW 2 T VAR a, b; a := b
FEHLER : falscher Typ (Zeile 1, Stelle 33)
> TYPE P = STRUCT (INT x, y); P VAR p; CONCR (p).x := 3; put (CONCR (p).x)
3 
> ROW 129 ROW 128 INT VAR a
FEHLER : zu gross (Zeile 1, Stelle 1)
> INT VAR n; ROW n INT VAR a
FEHLER : falscher Typ (Zeile 1, Stelle 16)
> PROC p: put (1) END PROC p; TASK VAR t; begin (\"s\", PROC p, t)
FEHLER : falsche Stelle (Zeile 1, Stelle 53)
> TASK VAR t; begin (\"s\", PROC nix, t)
FEHLER : unbekannt (Zeile 1, Stelle 30)
> begin (1, 2, 3)
FEHLER : falscher Typ (Zeile 1, Stelle 1)
> DATASPACE VAR d :: nilspace; INT VAR r; put (1); send (niltask, 5, d, r); put (r)
1 
FEHLER : nur in einer Sitzung
> DATASPACE VAR d; INT VAR r; call (niltask, 5, nilspace, r)
FEHLER : keine Variable (Zeile 1, Stelle 47)
> DATASPACE VAR d; INT VAR c; TASK VAR t; wait (d, t, c)
FEHLER : falscher Typ (Zeile 1, Stelle 41)
> TASK VAR t; IF t = niltask THEN put (1) FI; TASK VAR u :: niltask; IF t <> u THEN put (2) ELSE put (3) FI
1 3 
> ROW 3 TASK VAR a; a [2] := niltask; IF a [1] = a [2] THEN put (1) FI
1 
> TASK PROC f (TASK CONST t): t END PROC f; IF f (niltask) = niltask THEN put (1) FI
1 
> TASK VAR t; t := 0
FEHLER : falscher Typ (Zeile 1, Stelle 13)
> put (1); put (name (myself))
1 
FEHLER : nur in einer Sitzung
> PROC p (INT VAR a, b): a INCR 1; b INCR 1 END PROC p; INT VAR x :: 5; p (x, x); put (x)
7 
> PROC p (INT CONST a): a := 3 END PROC p; p (1)
FEHLER : keine Variable (Zeile 1, Stelle 23)
> INT PROC f (INT CONST n): IF n < 0 THEN - n ELSE n FI END PROC f; put (f (- 5)); put (f (3))
5 3 
> put (IF TRUE THEN 1 FI)
FEHLER : falscher Typ (Zeile 1, Stelle 6)
> INT VAR x; x; put (x)
FEHLER : falscher Typ (Zeile 1, Stelle 12)
> SELECT 2 OF CASE 1, 2: put (1) CASE 3: put (3) END SELECT; BOOL VAR b :: 1 < 2; IF b THEN put (4) FI
1 4 
> INT PROC f (INT CONST n): IF n > 3 THEN LEAVE f WITH 1 FI; 2 END PROC f; put (f (4)); put (f (3))
1 2 
> INT PROC p: q; 1. q: LEAVE p WITH 7 END PROC p; put (p)
7 
> r; put (9). r: INT VAR i; FOR i REP IF i > 3 THEN LEAVE r FI; put (i) PER.
1 2 3 9 
> put (a). a: b + c. b: 2. c: b * 3.
8 
> r. r: s. s: r.
FEHLER : falsche Stelle (Zeile 1, Stelle 7)
> put (a + 1)
FEHLER : unbekannt (Zeile 1, Stelle 6)
> put (1 + (2 = TRUE)); put (b)
FEHLER : falscher Typ (Zeile 1, Stelle 11)
> INT VAR a; INT CONST a :: 1
FEHLER : doppelt (Zeile 1, Stelle 22)
> REP PER
FEHLER : Zeitgrenze
> INT VAR i; FOR i UPTO 32000 REP PER; put (i)
32000 
> INT PROC f (INT CONST n): put (n); n END PROC f; put (f (1) + f (2) * f (3))
1 2 3 7 
> IF FALSE CAND 1 DIV 0 = 1 THEN put (1) ELSE put (2) FI
2 
> ROW 3 INT VAR a; INT PROC f: put (1); 5 END PROC f; a [4] := f
FEHLER : Index ausserhalb
> PROC p (ROW 3 INT CONST r): put (r [2]); a [2] := 9; put (r [2]) END PROC p; ROW 3 INT VAR a; p (a); put (a [2])
0 0 9 
> ROW 2 TEXT VAR a, b; a [1] := \"old\"; b := a; a [1] := \"new\"; put (b [1])
old 
> PROC p: INT VAR n; n INCR 1; put (n) END PROC p; p; p
1 1 
> PROC p (INT CONST n): IF n > 0 THEN p (n - 1) FI END PROC p; p (5460); put (1)
1 
> PROC p (INT CONST n): IF n > 0 THEN p (n - 1) FI END PROC p; p (5461); put (1)
FEHLER : Stapelueberlauf
> TEXT VAR a :: 16000 * \"a\"; PROC p (TEXT CONST t): put (LENGTH t) END PROC p; INT VAR i; FOR i UPTO 20 REP p (a) PER
16000 16000 16000 16000 16000 16000 16000 16000 16000 16000 16000 16000 16000 16000 16000 16000 16000 16000 16000 16000 
> TEXT VAR a :: 16000 * \"a\", b :: a, c :: a, d :: a, e :: a, f :: a, g :: a; put (1); TEXT VAR h :: a
1 
FEHLER : Textspeicher voll
> ROW 8192 INT VAR a, b; put (1); a := b; put (2)
1 
FEHLER : Operandenspeicher voll
> ROW 8192 INT VAR a; ROW 8193 INT VAR b; put (1)
FEHLER : Stapelueberlauf
> TEXT VAR a :: 16000 * \"a\"; PROC q (TEXT CONST b, c, d, e, f): END PROC q; q (a, a, a, a, a)
FEHLER : Operandenspeicher voll
> INT VAR i, n :: 3; FOR i UPTO n REP n := 1; put (i) PER; put (i)
1 2 3 3 
> INT VAR i; FOR i FROM 32767 UPTO 32767 REP put (i) PER; put (i)
32767 32767 
> INT VAR i; FOR i FROM 5 UPTO 4 REP put (i) PER; put (i)
5 
> INT VAR i; FOR i FROM 3 DOWNTO 1 REP put (i) UNTIL i = 2 PER
3 2 
> INT VAR i; FOR i FROM 32766 REP put (i) PER
32766 32767 
FEHLER : INT-Ueberlauf
> INT VAR i; FOR i UPTO 4 REP put (SELECT i OF CASE 1: 10 CASE 2, 3: 20 OTHERWISE 0 END SELECT) PER
10 20 20 0 
> put (-7 DIV 2); put (-7 MOD 2); put (7 DIV -2); put (7 MOD -2)
-3 1 -3 1 
> put (abs (- 3)); put (min (1, 2)); put (max (1, 2)); put (maxint)
3 1 2 32767 
> IF (TRUE = FALSE) OR NOT (1 <> 1) THEN put (1) FI; line; line; put (2)
1 

2 
> put (maxint + 1)
FEHLER : INT-Ueberlauf
> put (1 DIV 0)
FEHLER : Division durch 0
> TEXT VAR t :: \"ab\"; t CAT 2 * \"c\"; put (t); put (t SUB 3); put (LENGTH t); put (pos (t, \"cc\"))
abcc c 4 3 
> put (code (\"A\")); put (code (66)); put (text (-5) + \"!\"); put (int (\" -12 \") + 1); put (int (\"12a\"))
65 B -5! -11 0 
> IF \"Ab\" < \"B\" CAND \"a\" < \"ab\" CAND \"\" < \"a\" THEN write (\"less\"); putline (\"!\"); put (\"next\") FI
less!
next 
> put (\"a\"\"b\"); put (\"c\"10\"d\"); put (\"\")
a\"b c\"10\"d  
> errorstop (\"stopped\")
FEHLER : stopped
> TEXT VAR who; put (\"Who?\"); getline (who); put (who)
Who? 
FEHLER : nur in einer Sitzung
> put (1); put (2)
1 2 
> put (1); line; put (1 DIV 0)
1 
FEHLER : Division durch 0
> put (1); put (1 DIV 0)
1 
FEHLER : Division durch 0
> INT VAR unused
> INT CONST dozen :: 12; INT VAR eggs in the fridge :: 2 * dozen; eggs in the fridge DECR 5; put (eggs in the fridge); eggs in the fridge := eggs in the fridge + dozen; put (eggs in the fridge)
19 31 
> INT VAR month :: 2; put (SELECT month OF   CASE 2: 28   CASE 4, 6, 9, 11: 30   OTHERWISE 31 END SELECT)
28 
> INT VAR i; FOR i FROM 1 UPTO 5 REP   put (i * i) PER
1 4 9 16 25 
> INT VAR a :: 48, b :: 36; WHILE a <> b REP   IF a > b THEN a DECR b ELSE b DECR a FI PER; put (a)
12 
> PROC countdown:   INT VAR i;   FOR i FROM 3 DOWNTO 0 REP put (i) PER;   line END PROC countdown; countdown; countdown
3 2 1 0 
3 2 1 0 
> INT PROC answer: 6 * 7 END PROC answer; put (answer); put (answer + 1)
42 43 
> INT PROC power (INT CONST base, exponent):   IF exponent = 0 THEN 1   ELSE base * power (base, exponent - 1) FI END PROC power; put (power (2, 10)); put (power (7, 3))
1024 343 
> PROC swap (INT VAR a, b):   INT CONST old a :: a;   a := b;   b := old a END PROC swap; INT VAR x :: 1, y :: 2; swap (x, y); put (x); put (y)
2 1 
> put (sum of squares); put (largest).  sum of squares:   INT VAR i, sum :: 0;   FOR i FROM 1 UPTO largest REP     sum INCR i * i   PER;   sum.  largest: 4.
30 4 
> search; put (i).  search:   INT VAR i;   FOR i FROM 2 REP     IF 91 MOD i = 0 THEN LEAVE search FI   PER.
7 
> TEXT CONST word :: \"REGAL\"; TEXT VAR reversed; INT VAR i; FOR i FROM LENGTH word DOWNTO 1 REP   reversed CAT (word SUB i) PER; put (word + \" = \" + reversed + \"?\"); put (3 * \"ha\")
REGAL = LAGER? hahaha 
> TEXT CONST date :: \"1979-10-21\"; put (int (subtext (date, 1, 4)) + 100); put (pos (date, \"-\")); IF \"Anna\" < \"Berta\" CAND \"Zoe\" < \"anna\" THEN putline (\"Year \" + text (79)) FI
2079 5 Year 79
> ROW 5 INT VAR a; INT VAR i, sum; FOR i UPTO 5 REP a [i] := i * i PER; FOR i UPTO 5 REP put (a [i]); sum INCR a [i] PER; put (sum)
1 4 9 16 25 55 
> LET size = 3; ROW size TEXT VAR word; word [1] := \"one\"; word [2] := \"two\"; word [3] := \"three\"; INT VAR i; FOR i FROM size DOWNTO 1 REP put (word [i]) PER; put (word [4])
three two one 
FEHLER : Index ausserhalb
> STRUCT (TEXT who, INT age) VAR p; p.who := \"Ada\"; p.age := 36; put (p.who); p.age INCR 1; put (p.age)
Ada 37 
> LET P = STRUCT (INT x, y); P PROC at (INT CONST x, y):   P VAR p; p.x := x; p.y := y; p END PROC at; PROC move (INT VAR i): i INCR 10 END PROC move; ROW 2 P VAR a; a [1] := at (1, 2); a [2] := a [1]; move (a [2].x); put (a [1].x); put (a [2].x)
1 11 
> TYPE P = STRUCT (INT x, y); P OP + (P CONST a, b):   P VAR c; CONCR (c).x := CONCR (a).x + CONCR (b).x;   CONCR (c).y := CONCR (a).y + CONCR (b).y; c END OP +; P VAR p; CONCR (p).x := 2; put (CONCR (p + p).x)
4 
> put (aple)
FEHLER : unbekannt (Zeile 1, Stelle 6)
> INT VAR a; put (a = TRUE)
FEHLER : falscher Typ (Zeile 1, Stelle 17)
> INT CONST a :: 1; a := 2
FEHLER : keine Variable (Zeile 1, Stelle 19)
> put (40000)
FEHLER : kein Symbol (Zeile 1, Stelle 6)
> put (1 +)
FEHLER : kein ELAN-Text (Zeile 1, Stelle 9)
> put (4); put (1 DIV 0); put (5)
4 
FEHLER : Division durch 0
> put (32767 + 1)
FEHLER : INT-Ueberlauf
> PROC p: p END PROC p; p
FEHLER : Stapelueberlauf
> errorstop (\"nothing to do\")
FEHLER : nothing to do
> BOUND ROW 3 INT VAR marks :: new (\"marks\"); marks [1] := 7; marks [2] := 8; DATASPACE VAR second :: old (\"marks\"); BOUND ROW 3 INT VAR others :: second; others [1] := 1; put (marks [1]); put (others [1]); put (others [2])
7 1 8 
> put (12345 DIV 60); put (12345 MOD 60)
205 45 
> INT CONST year :: 2000; IF year MOD 400 = 0 OR (year MOD 4 = 0 AND year MOD 100 <> 0) THEN put (\"yes\") ELSE put (\"no\") FI
yes 
> INT VAR i, sum; FOR i FROM 1 UPTO 100 REP sum INCR i PER; put (sum); FOR i FROM 3 DOWNTO 0 REP put (i) PER
5050 3 2 1 0 
> PROC squares:   INT VAR i; FOR i UPTO 10 REP put (i * i) PER END PROC squares; squares
1 4 9 16 25 36 49 64 81 100 
> find it; put (n).  find it:   INT VAR n;   FOR n FROM 1 REP IF n * n > 1000 THEN LEAVE find it FI PER.
32 
> put (put (1))
FEHLER : falscher Typ (Zeile 1, Stelle 1)
> INT VAR i; INT VAR i
FEHLER : doppelt (Zeile 1, Stelle 20)
> IF 1 THEN put (1) FI
FEHLER : falscher Typ (Zeile 1, Stelle 1)
> FOR i UPTO 3 REP PER
FEHLER : unbekannt (Zeile 1, Stelle 5)
> put 1
FEHLER : unbekannt (Zeile 1, Stelle 1)
> put (1, 2)
FEHLER : unbekannt (Zeile 1, Stelle 1)
> put \"hallo\"
FEHLER : kein ELAN-Text (Zeile 1, Stelle 5)
> put (hallo)
FEHLER : unbekannt (Zeile 1, Stelle 6)
> print (1)
FEHLER : unbekannt (Zeile 1, Stelle 1)
> write (1)
FEHLER : falscher Typ (Zeile 1, Stelle 1)
> put (1 = 1)
FEHLER : falscher Typ (Zeile 1, Stelle 1)
> put (TRUE)
FEHLER : falscher Typ (Zeile 1, Stelle 1)
> IF 1 = 1 THEN put (\"ja\") FI
ja 
> 1 + 1
FEHLER : falscher Typ (Zeile 1, Stelle 1)
> help
FEHLER : unbekannt (Zeile 1, Stelle 1)
> exit
FEHLER : unbekannt (Zeile 1, Stelle 1)
> halt
FEHLER : unbekannt (Zeile 1, Stelle 1)
> begin (\"x\")
FEHLER : unbekannt (Zeile 1, Stelle 1)
> int var x
FEHLER : unbekannt (Zeile 1, Stelle 1)
> INT x
FEHLER : kein ELAN-Text (Zeile 1, Stelle 5)
> INT VAR x = 5
FEHLER : kein ELAN-Text (Zeile 1, Stelle 11)
> INT VAR x :: 5; put (x)
5 
> x := 3
FEHLER : unbekannt (Zeile 1, Stelle 1)
> 3 = x
FEHLER : unbekannt (Zeile 1, Stelle 5)
> INT VAR x; x = 3
FEHLER : falscher Typ (Zeile 1, Stelle 12)
> REAL VAR x
FEHLER : unbekannt (Zeile 1, Stelle 1)
> put (3.5)
FEHLER : kein ELAN-Text (Zeile 1, Stelle 8)
> put (7 / 2)
FEHLER : kein Symbol (Zeile 1, Stelle 8)
> put (2 ** 8)
FEHLER : kein ELAN-Text (Zeile 1, Stelle 9)
> STRING VAR s
FEHLER : unbekannt (Zeile 1, Stelle 1)
> put ('a')
FEHLER : kein Symbol (Zeile 1, Stelle 6)
> INT VAR a :: 3, b; WHILE a > b DO a DECR 1 OD
FEHLER : kein ELAN-Text (Zeile 1, Stelle 46)
> INT VAR i; FOR i FROM 1 TO 3 REP put (i) PER
FEHLER : unbekannt (Zeile 1, Stelle 23)
> FOR i UPTO 3 REP put (i) PER
FEHLER : unbekannt (Zeile 1, Stelle 5)
> IF 2 > 1 THEN put (2)
FEHLER : kein ELAN-Text (Zeile 1, Stelle 22)
> INT PROC f (INT n): n END PROC f
FEHLER : kein ELAN-Text (Zeile 1, Stelle 17)
> put (1)put (2)
FEHLER : kein ELAN-Text (Zeile 1, Stelle 8)
> ROW INT VAR a
FEHLER : kein ELAN-Text (Zeile 1, Stelle 5)
> ROW 3 INT VAR a; put (a (3))
FEHLER : unbekannt (Zeile 1, Stelle 23)
> put (1) (* comment
FEHLER : kein Symbol (Zeile 1, Stelle 9)
> put ((1 + 2)
FEHLER : kein ELAN-Text (Zeile 1, Stelle 13)
> GANZ VAR i; put (i)
FEHLER : unbekannt (Zeile 1, Stelle 1)
> STRUCT (INT a) VAR s; put (s.b)
FEHLER : unbekannt (Zeile 1, Stelle 28)
> INT VAR a; INT VAR a
FEHLER : doppelt (Zeile 1, Stelle 20)
> SELECT 1 OF CASE 1: put (1) CASE 1: put (2) END SELECT
FEHLER : doppelt (Zeile 1, Stelle 34)
> STRUCT (INT a, TEXT b, a) VAR s
FEHLER : doppelt (Zeile 1, Stelle 24)
> 1 + 2
FEHLER : falscher Typ (Zeile 1, Stelle 1)
> INT VAR a :: TRUE
FEHLER : falscher Typ (Zeile 1, Stelle 9)
> INT PROC f: line END PROC f; put (f)
FEHLER : falscher Typ (Zeile 1, Stelle 13)
> INT VAR x; put (x [1])
FEHLER : falscher Typ (Zeile 1, Stelle 17)
> ROW 2 INT VAR a; ROW 3 INT VAR b; a := b
FEHLER : falscher Typ (Zeile 1, Stelle 35)
> PROC p (INT VAR a): a := 3 END PROC p; p (1)
FEHLER : keine Variable (Zeile 1, Stelle 43)
> LEAVE f
FEHLER : falsche Stelle (Zeile 1, Stelle 1)
> again. again: put (1); again.
FEHLER : falsche Stelle (Zeile 1, Stelle 24)
> TYPE T = T
FEHLER : falsche Stelle (Zeile 1, Stelle 1)
> TYPE T = ROW 3 T
FEHLER : falsche Stelle (Zeile 1, Stelle 1)
> ROW 0 INT VAR a
FEHLER : zu gross (Zeile 1, Stelle 5)
> ROW 16385 INT VAR a
FEHLER : zu gross (Zeile 1, Stelle 5)
> put (200 * 200)
FEHLER : INT-Ueberlauf
> put (4); put (7 MOD 0)
4 
FEHLER : Division durch 0
> ROW 3 INT VAR a; put (a [4])
FEHLER : Index ausserhalb
> INT PROC f (INT CONST n): IF n = 0 THEN 0 ELSE 1 + (1 + (1 + f (n - 1))) FI END PROC f; put (f (30000))
FEHLER : Operandenspeicher voll
> put (LENGTH (20000 * \"a\"))
FEHLER : Text zu lang
> PROC p (TEXT CONST t): p (t) END PROC p; p (16000 * \"a\")
FEHLER : Textspeicher voll
> put (code (256))
FEHLER : falscher Code
> errorstop (\"nichts zu tun\"); put (1)
FEHLER : nichts zu tun
> BOUND TEXT VAR note :: new (\"note\"); note := \"kept\"; put (note); forget (\"note\"); put (note)
kept 
FEHLER : Datenraum existiert nicht
> BOUND INT VAR a :: new (\"a\"); a := 1; BOUND TEXT VAR b :: old (\"a\")
FEHLER : falscher Datenraumtyp
> BOUND INT VAR a :: new (\"a\"); BOUND INT VAR b :: new (\"a\")
FEHLER : Datenraum existiert schon
> DATASPACE VAR d; put (type (d))
FEHLER : Datenraum existiert nicht
> INT VAR i; FOR i UPTO 17 REP BOUND INT VAR b :: new (text (i)); b := i PER
FEHLER : zu viele Datenraeume
> DATASPACE VAR d :: new (\"\")
FEHLER : falscher Name
> DATASPACE VAR d :: old (\"nothing\")
FEHLER : Datenraum gibt es nicht
";
