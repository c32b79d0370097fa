//! Rows: items, copies, constants, parameters, results and choices. Programs, and behind each what it writes.

pub(crate) const ROWS: &str = "\
> ROW 3 INT VAR a; put (a [1]); a [3] := 4; put (a [3]); put (a [1])
0 4 0 
> ROW 3 INT VAR a; put (a [3]); put (a [0])
0 
FEHLER : Index ausserhalb
> ROW 3 INT VAR a; a [3] := 1; put (1); a [4] := 2; put (3)
1 
FEHLER : Index ausserhalb
> ROW 3 INT VAR a; put (a [- 1])
FEHLER : Index ausserhalb
> ROW 3 INT VAR a; a [4] := 1 DIV 0
FEHLER : Index ausserhalb
> ROW 3 INT VAR a; a [1] := 1 DIV 0
FEHLER : Division durch 0
> ROW 1 INT VAR a; a [1] := 7; put (a [a [1] - 6])
7 
> ROW 3 INT VAR a; a [TRUE] := 1
FEHLER : falscher Typ (Zeile 1, Stelle 18)
> INT VAR a; put (a [1])
FEHLER : falscher Typ (Zeile 1, Stelle 17)
> ROW 3 INT VAR a; put (a)
FEHLER : falscher Typ (Zeile 1, Stelle 18)
> ROW 3 INT VAR a, b; IF a = b THEN put (1) FI
FEHLER : falscher Typ (Zeile 1, Stelle 24)
> ROW 2 BOOL VAR b; IF b [1] THEN put (1) ELSE put (0) FI; b [2] := NOT b [1]; IF b [2] THEN put (2) FI
0 2 
> ROW 2 TEXT VAR t; put (LENGTH t [1]); t [2] := \"ab\"; put (t [2] SUB 2); t [1] CAT t [2]; put (t [1] + t [2])
0 b abab 
> ROW 3 INT VAR a; INT VAR i; FOR i UPTO 3 REP a [i] := i * i PER; a [2] INCR 5; a [1] DECR a [3]; put (a [1]); put (a [2]); put (a [3])
-8 9 9 
> ROW 2 ROW 3 INT VAR m; INT VAR i, k; FOR i UPTO 2 REP FOR k UPTO 3 REP m [i] [k] := 10 * i + k PER PER; put (m [2] [3]); put (m [1] [2])
23 12 
> ROW 2 ROW 3 INT VAR m; m [2] [3] := 1; m [1] [4] := 2
FEHLER : Index ausserhalb
> ROW 2 ROW 2 INT VAR m; m [3] [1 DIV 0] := 1
FEHLER : Index ausserhalb
> ROW 2 ROW 3 INT VAR m; put (m [1] [1] [1])
FEHLER : falscher Typ (Zeile 1, Stelle 29)
> ROW 2 ROW 2 INT VAR m; m [1] [1] := 1; m [1] [2] := 2; m [2] := m [1]; m [1] [1] := 9; put (m [2] [1]); put (m [2] [2])
1 2 
> ROW 30 BOOL VAR s; INT VAR i, k; FOR i FROM 2 UPTO 30 REP IF NOT s [i] THEN put (i); k := i; WHILE k <= 30 REP s [k] := TRUE; k INCR i PER FI PER
2 3 5 7 11 13 17 19 23 29 
> ROW 4 INT VAR a; INT VAR i, k, h; FOR i UPTO 4 REP a [i] := i * 7 MOD 5 PER; FOR k UPTO 3 REP FOR i UPTO 3 REP IF a [i] > a [i + 1] THEN h := a [i]; a [i] := a [i + 1]; a [i + 1] := h FI PER PER; FOR i UPTO 4 REP put (a [i]) PER
1 2 3 4 
> ROW 2 INT VAR a; (a) [1] := 2
FEHLER : keine Variable (Zeile 1, Stelle 18)
> ROW 2 INT VAR a; a [2] := 6; put ((a) [2])
6 
> ROW 2 INT VAR a; put (a [])
FEHLER : kein ELAN-Text (Zeile 1, Stelle 26)
> ROW 2 INT VAR a; put (a [1, 2])
FEHLER : kein ELAN-Text (Zeile 1, Stelle 27)
> ROW 2 INT VAR a; INT PROC i: put (1); 2 END PROC i; INT PROC v: put (2); 5 END PROC v; a [i] := v; put (a [2])
1 2 5 
> ROW 2 INT VAR a; INT PROC f: put (1); 5 END PROC f; PROC p (INT VAR x, y): END PROC p; a [f - 3] := f; p (a [f - 4], a [f])
1 1 1 1 
FEHLER : Index ausserhalb
> ROW 3 INT VAR a; a [1] := 2; a [2] := 3; INT VAR i; FOR i FROM a [1] UPTO a [2] REP a [2] := 9; put (i) PER; SELECT a [3] OF CASE 0: put (7) END SELECT
2 3 7 
> ROW 2 INT VAR a; FOR a UPTO 3 REP PER
FEHLER : falscher Typ (Zeile 1, Stelle 18)
> ROW 2 INT VAR a; REP a PER
FEHLER : falscher Typ (Zeile 1, Stelle 22)
> ROW 2 INT VAR a; a [1] := a
FEHLER : falscher Typ (Zeile 1, Stelle 18)
> a [1] := 2; ROW 2 INT VAR a; put (a [1])
2 
> ROW 2 TEXT VAR a, b; a [1] := \"x\"; a [2] := \"y\"; b := a; b [1] CAT \"z\"; put (a [1]); put (b [1]); put (b [2]); a := b; put (a [1])
x xz y xz 
> ROW 2 TEXT VAR a; a [1] := 16000 * \"q\"; ROW 2 TEXT VAR b :: a; a [1] := \"\"; put (LENGTH b [1]); put (LENGTH a [1])
16000 0 
> ROW 2 INT VAR a; a := a; a [1] := 3; ROW 2 INT VAR b :: a; a [1] := 4; put (b [1])
3 
> ROW 2 INT VAR a; ROW 3 INT VAR b; a := b
FEHLER : falscher Typ (Zeile 1, Stelle 35)
> ROW 2 INT VAR a; ROW 2 TEXT VAR b; a := b
FEHLER : falscher Typ (Zeile 1, Stelle 36)
> ROW 2 INT VAR a; a := 1
FEHLER : falscher Typ (Zeile 1, Stelle 18)
> ROW 2 ROW 3 INT VAR a; ROW 3 ROW 2 INT VAR b; a := b
FEHLER : falscher Typ (Zeile 1, Stelle 47)
> ROW 2 INT VAR v; v [1] := 3; ROW 2 INT CONST c :: v; v [1] := 4; put (c [1]); put (v [1])
3 4 
> ROW 2 INT VAR v; ROW 2 INT CONST c :: v; c [1] := 2
FEHLER : keine Variable (Zeile 1, Stelle 42)
> ROW 2 INT VAR v; ROW 2 INT CONST c :: v; put (c [3])
FEHLER : Index ausserhalb
> ROW 2 TEXT VAR v; v [2] := \"o\"; ROW 2 TEXT CONST c :: v, d :: c; v [2] := \"p\"; put (c [2] + d [2])
oo 
> INT PROC sum (ROW 3 INT CONST r): r [1] + r [2] + r [3] END PROC sum; ROW 3 INT VAR a; a [1] := 1; a [2] := 2; a [3] := 4; put (sum (a))
7 
> PROC fill (ROW 3 INT VAR r): INT VAR i; FOR i UPTO 3 REP r [i] := i * i PER END PROC fill; ROW 3 INT VAR a; fill (a); put (a [1]); put (a [2]); put (a [3])
1 4 9 
> PROC p (ROW 2 INT CONST r): a [1] := 9; put (r [1]) END PROC p; ROW 2 INT VAR a; a [1] := 5; p (a); put (a [1])
5 9 
> PROC p (ROW 2 INT VAR r): a [1] := 9; put (r [1]) END PROC p; ROW 2 INT VAR a; a [1] := 5; p (a); put (a [1])
9 9 
> PROC p (ROW 2 INT CONST r): r [1] := 1 END PROC p; put (1)
FEHLER : keine Variable (Zeile 1, Stelle 29)
> PROC p (ROW 2 INT VAR r): r [2] INCR 7; r [2] INCR 1 END PROC p; ROW 3 ROW 2 INT VAR m; p (m [3]); put (m [3] [2]); put (m [2] [2])
8 0 
> PROC p (ROW 2 TEXT VAR r, ROW 2 TEXT CONST s): r [1] := \"n\"; put (s [1]); r := s END PROC p; ROW 2 TEXT VAR a; a [1] := \"o\"; p (a, a); put (a [1])
o o 
> PROC p (ROW 2 INT VAR r): END PROC p; ROW 3 INT VAR a; p (a)
FEHLER : falscher Typ (Zeile 1, Stelle 56)
> PROC p (ROW 2 INT VAR r): END PROC p; ROW 2 INT CONST a :: b; ROW 2 INT VAR b; p (a)
FEHLER : keine Variable (Zeile 1, Stelle 83)
> PROC p (ROW 2 INT CONST r): put (2) END PROC p; PROC p (ROW 3 INT CONST r): put (3) END PROC p; ROW 2 INT VAR a; ROW 3 INT VAR b; p (b); p (a)
3 2 
> PROC p (ROW 2 INT CONST r): END PROC p; PROC p (ROW n INT CONST r): END PROC p; LET n = 2; put (1)
FEHLER : doppelt (Zeile 1, Stelle 46)
> INT OP * (ROW 2 INT CONST a, b): a [1] * b [1] + a [2] * b [2] END OP *; ROW 2 INT VAR v; v [1] := 3; v [2] := 4; put (v * v); put (2 * 3)
25 6 
> PROC q (INT VAR n): n INCR 1 END PROC q; PROC p (ROW 2 INT VAR r): q (r [2]); q (r [2]) END PROC p; ROW 2 INT VAR a; p (a); put (a [2])
2 
> OP := (ROW 2 INT VAR a, INT CONST b): a [1] := b; a [2] := b + 1 END OP :=; ROW 2 INT VAR v, w; v := 3; put (v [2]); w := v; put (w [1])
4 3 
> PROC inc (INT VAR n): n INCR 1 END PROC inc; ROW 3 INT VAR a; inc (a [2]); inc (a [2]); put (a [2]); put (a [1])
2 0 
> PROC p (INT VAR n): i := 3; n := 7 END PROC p; INT VAR i :: 1; ROW 3 INT VAR a; p (a [i]); put (a [1]); put (a [3])
7 0 
> PROC swap (INT VAR a, b): INT CONST c :: a; a := b; b := c END PROC swap; ROW 2 INT VAR r; r [1] := 1; r [2] := 2; swap (r [1], r [2]); put (r [1]); put (r [2])
2 1 
> PROC p (INT VAR n): put (1) END PROC p; ROW 3 INT VAR a; p (a [4])
FEHLER : Index ausserhalb
> PROC p (INT VAR n): END PROC p; ROW 3 INT VAR a; p (a [1] + 0)
FEHLER : keine Variable (Zeile 1, Stelle 53)
> PROC p (TEXT VAR t): t CAT \"!\" END PROC p; ROW 2 TEXT VAR a; a [1] := \"x\"; p (a [1]); p (a [2]); put (a [1] + a [2])
x!! 
> ROW 2 TEXT VAR a; getline (a [2])
FEHLER : nur in einer Sitzung
> ROW 3 INT PROC r: ROW 3 INT VAR x; x [1] := 1; x [3] := 9; x END PROC r; put (r [3]); put (r [1]); put (r [2])
9 1 0 
> ROW 3 INT PROC r: ROW 3 INT VAR x; x END PROC r; r [1] := 2
FEHLER : keine Variable (Zeile 1, Stelle 50)
> ROW 3 INT PROC r: ROW 3 INT VAR x; x END PROC r; put (r [4])
FEHLER : Index ausserhalb
> ROW 2 INT PROC r (INT CONST n): ROW 2 INT VAR x; x [2] := n; x END PROC r; put (r (5) [2]); put (r (r (7) [2]) [2])
5 7 
> ROW 2 INT PROC r: put (1); ROW 2 INT VAR x; x END PROC r; INT PROC i: put (2); 1 END PROC i; put (r [i])
1 2 0 
> ROW 2 INT PROC r: put (1); ROW 2 INT VAR x; x END PROC r; put (r [1 DIV 0])
1 
FEHLER : Division durch 0
> ROW 2 ROW 2 INT PROC r: ROW 2 ROW 2 INT VAR m; m END PROC r; put (r [3] [1 DIV 0])
FEHLER : Index ausserhalb
> ROW 2 INT PROC f: a [1] := 5; a END PROC f; ROW 2 INT VAR a; a := f; put (a [1]); a [1] := f [1] + a [1]; put (a [1])
5 10 
> ROW 2 TEXT PROC r: ROW 2 TEXT VAR x; x [1] := 16000 * \"a\"; x [2] := \"b\"; x END PROC r; INT VAR i; FOR i UPTO 20 REP put (r [2]) PER
b b b b b b b b b b b b b b b b b b b b 
> ROW 2 INT PROC r: ROW 3 INT VAR x; x END PROC r; put (1)
FEHLER : falscher Typ (Zeile 1, Stelle 36)
> ROW 2 ROW 2 INT PROC r: ROW 2 ROW 2 INT VAR x; x [2] [1] := 8; x END PROC r; put (r [2] [1]); ROW 2 INT VAR y :: r [2]; put (y [1])
8 8 
> put (r [2]). r: ROW 2 INT VAR x; x [2] := 5; x.
5 
> ROW 2 INT VAR x; r [1] := 3. r: x.
FEHLER : keine Variable (Zeile 1, Stelle 18)
> ROW 2 INT PROC f (INT CONST n): ROW 2 INT VAR x; IF n > 0 THEN x [1] := n; LEAVE f WITH x FI; x END PROC f; put (f (5) [1]); put (f (0) [1])
5 0 
> ROW 2 INT PROC f: ROW 3 INT VAR x; LEAVE f WITH x; ROW 2 INT VAR y; y END PROC f; put (1)
FEHLER : falscher Typ (Zeile 1, Stelle 36)
> ROW 2 INT VAR a; PROC r: LEAVE r WITH a END PROC r; r
FEHLER : falscher Typ (Zeile 1, Stelle 26)
> ROW 2 INT PROC f: ROW 2 INT VAR x; x [2] := 3; q; x. q: x [2] INCR 1; LEAVE f WITH x END PROC f; put (f [2])
4 
> ROW 2 INT PROC f (INT CONST n): IF n = 0 THEN z ELSE ROW 2 INT VAR x :: f (n - 1); x [1] INCR n; x FI. z: ROW 2 INT VAR y; y END PROC f; put (f (10) [1])
55 
> ROW 2 INT VAR a, b; a [1] := 1; b [1] := 2; put ((IF TRUE THEN a ELSE b FI) [1]); put (IF FALSE THEN a ELSE b FI [1])
1 2 
> ROW 2 INT VAR a, b; b [2] := 8; a := IF 1 > 2 THEN a ELSE b FI; put (a [2])
8 
> ROW 2 INT VAR a, b; b [2] := 8; INT VAR i; FOR i UPTO 3 REP put (SELECT i OF CASE 1, 3: a OTHERWISE b END SELECT [2]) PER
0 8 0 
> ROW 2 INT VAR a; ROW 3 INT VAR b; a := IF TRUE THEN a ELSE b FI
FEHLER : falscher Typ (Zeile 1, Stelle 40)
> ROW 2 INT VAR a; a := IF TRUE THEN a FI
FEHLER : falscher Typ (Zeile 1, Stelle 23)
> ROW 2 INT VAR a, b; IF TRUE THEN a ELSE b FI [1] := 1
FEHLER : keine Variable (Zeile 1, Stelle 21)
";
