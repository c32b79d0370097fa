//! LETs of numbers, truth values and texts: programs, and behind each what it writes.

pub(crate) const LETS: &str = "\
> LET n = 3, word = \"ab\", yes = TRUE; IF yes THEN put (n * word) FI
ababab 
> SELECT 5 OF CASE one: put (1) CASE five: put (50) END SELECT. p: LET one = 1, five = 5.
50 
> LET n = 3; n := 4
FEHLER : keine Variable (Zeile 1, Stelle 12)
> LET n = 3; INT VAR n
FEHLER : doppelt (Zeile 1, Stelle 20)
> SELECT 1 OF CASE 3: line CASE n: line END SELECT; LET n = 3
FEHLER : doppelt (Zeile 1, Stelle 31)
> SELECT 1 OF CASE t: line END SELECT; LET t = \"1\"
FEHLER : falscher Typ (Zeile 1, Stelle 18)
> PROC p: LET a = 1; put (a) END PROC p; LET a = 2; p; put (a)
1 2 
> LET a = - 3; put (a); put (- a)
-3 3 
> LET a = 1, a = 2
FEHLER : doppelt (Zeile 1, Stelle 12)
> PROC a: END PROC a; LET a = 1
FEHLER : doppelt (Zeile 1, Stelle 25)
> LET a = 1; FOR a REP PER
FEHLER : keine Variable (Zeile 1, Stelle 16)
> LET a = 1; a
FEHLER : falscher Typ (Zeile 1, Stelle 12)
> LET a = 1
> INT PROC f: 1; LET a = 2 END PROC f; put (f)
FEHLER : falscher Typ (Zeile 1, Stelle 13)
> INT PROC f: LET a = 2; a END PROC f; put (f)
2 
> put (a). a: LET b = 7; b.
7 
> LET t = \"abc\"; TEXT VAR s :: t; s CAT t; put (s)
abcabc 
> LET t = \"abc\"; t CAT \"x\"
FEHLER : keine Variable (Zeile 1, Stelle 16)
> LET i = 3; i INCR 1
FEHLER : keine Variable (Zeile 1, Stelle 12)
> LET n = 2; PROC p (INT VAR x): x := 1 END PROC p; p (n)
FEHLER : keine Variable (Zeile 1, Stelle 54)
> SELECT 2 OF CASE a, b: put (1) END SELECT; LET a = 1, b = 1
FEHLER : doppelt (Zeile 1, Stelle 21)
> SELECT 2 OF CASE a: put (1) CASE b: put (2) END SELECT; LET a = 1, b = 2
2 
> SELECT 2 OF CASE a: put (1) END SELECT; INT CONST a :: 2
FEHLER : falscher Typ (Zeile 1, Stelle 18)
> SELECT 2 OF CASE p: put (1) END SELECT; PROC p: END PROC p
FEHLER : falscher Typ (Zeile 1, Stelle 18)
> SELECT 2 OF CASE abs: put (1) END SELECT
FEHLER : unbekannt (Zeile 1, Stelle 18)
> SELECT 2 OF CASE z: put (1) END SELECT
FEHLER : unbekannt (Zeile 1, Stelle 18)
> PROC q: SELECT 2 OF CASE a: put (1) END SELECT; LET a = 2 END PROC q; LET a = \"x\"; q
1 
> LET w = \"a\" ; put (w + w = \"aa\")
FEHLER : falscher Typ (Zeile 1, Stelle 15)
> LET w = \"a\"; IF w + w = \"aa\" THEN put (\"yes\") FI
yes 
> LET b = FALSE; IF NOT b THEN put (1) FI
1 
> LET n = 3; REP n PER
FEHLER : falscher Typ (Zeile 1, Stelle 16)
> LET copy = 3
> LET put = 3; put (put)
3 
> LET max = 3; put (max (max, 2))
3 
> LET a = b, b = 3
FEHLER : kein ELAN-Text (Zeile 1, Stelle 9)
> LET a = TRUE; a := FALSE
FEHLER : keine Variable (Zeile 1, Stelle 15)
> LET T = INT; T VAR x
> LET n = 3; LET T = ROW n INT
> LET a = 1; IF TRUE THEN LET c = 3; put (c + a) FI
4 
> LET a = 32767; put (a + 1)
FEHLER : INT-Ueberlauf
> LET a = \"x\"; errorstop (a)
FEHLER : x
> LET a = \"\"1\"\"; put (a)
\"1\" 
> LET a = 1. b: a; b
FEHLER : falscher Typ (Zeile 1, Stelle 15)
> LET b = \"yz\", f = FALSE, e = \"x\"; TEXT VAR d; d := \"3\"; put (2 + - 3).
-1 
> LET e = 1, c = \"yz\", a = 2; INT VAR b; LET d = TRUE; put (b); PROC p: put (c) END PROC p; p.
0 yz 
> LET f = FALSE; IF NOT f THEN IF TRUE THEN write (\"x\") ELSE write (\"yz\") FI ELSE LET b = 1, e = -3 FI.
x
> LET d = -3; LET f = TRUE, c = TRUE, b = -3; SELECT d OF CASE d: write (text (b)) END SELECT.
-3
> LET a = 0, b = TRUE; INT VAR e; put (IF b THEN a + a ELSE a + 2 FI); e := a.
0 
> LET f = \"3\"; TEXT VAR a; LET b = FALSE, e = 0; write (\"3\"); q. q: write (f); put (e).
330 
> LET f = TRUE; SELECT 2 OF CASE 3, 2: put (\"x\") END SELECT.
x 
> LET b = TRUE, c = TRUE; INT VAR f; LET d = \"yz\"; write (d).
yz
> LET b = \"x\", c = 2; TEXT VAR a; write (((\"3\") + (\"x\")) + (a)); write (a).
3x
> LET d = 2, c = FALSE, e = -3; LET b = 3; put (\"yz\"); put (\"yz\"); put (2 * (c)).
FEHLER : falscher Typ (Zeile 1, Stelle 71)
> LET c = -3, f = 2, b = 0; INT VAR a; a := IF text (c) THEN a ELSE 1 FI.
FEHLER : falscher Typ (Zeile 1, Stelle 43)
> LET e = \"3\"; LET c = TRUE, b = 3; LET f = -3; q. q: IF c THEN put ((e) + (e)) ELSE write (e) FI.
33 
> LET c = FALSE; LET f = \"3\", d = 1; put (text (LENGTH (f))).
1 
> LET c = 1, b = FALSE, a = \"x\"; INT VAR e; write (a); q. q: write (b).
FEHLER : falscher Typ (Zeile 1, Stelle 60)
> LET c = 3, e = \"x\", d = -3; put (e); write (e); write (e); q. q: put (e); put (2 * (FALSE)).
FEHLER : falscher Typ (Zeile 1, Stelle 80)
> LET c = -3, d = 3, e = TRUE; TEXT VAR a; write (a); put (text (c)); q. q: put (text (c)).
-3 -3 
> LET b = TRUE, d = \"3\"; TEXT VAR f; put (f).
 
> LET c = FALSE, e = -3, a = 0; put ((a) * e).
0 
> LET f = 3; LET a = 0; write (\"x\").
x
> LET b = FALSE, d = TRUE, e = \"x\"; LET c = TRUE, a = \"x\"; put (e); q. q: put (- 3).
x -3 
> LET e = 2; TEXT VAR a; put ((e) * e).
4 
> LET c = -3; TEXT VAR e; LET b = \"3\", d = 1, a = 0; put (abs (LENGTH (b))).
1 
> LET b = 1; LET c = 0, e = TRUE; put ((\"yz\") + (3 * (\"x\"))); q. q: write (\"x\").
yzxxx x
> LET e = 1, a = 0; TEXT VAR f; put (f); PROC p: put (f); put (e) END PROC p; p.
  1 
> LET n = 3, T = INT
> TYPE T = INT
> LET a = 1, b = \"x\", c = TRUE; PROC p (INT CONST a): put (a); put (b) END PROC p; p (7); IF c THEN p (a) FI
7 x 1 x 
";
