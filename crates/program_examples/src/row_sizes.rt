//! Sizes of rows: names of LETs, types that are too large, and the room that values take. Programs, and behind each what it
//! writes.

pub(crate) const SIZES: &str = "\
> LET n = 4; ROW n INT VAR a; a [n] := 2; put (a [4]); a [n + 1] := 1
2 
FEHLER : Index ausserhalb
> ROW n INT VAR a; a [2] := 1; put (a [2]); put (a [3]); LET n = 2
1 
FEHLER : Index ausserhalb
> LET n = 3; ROW n INT VAR a; INT VAR i; FOR i UPTO n REP SELECT i OF CASE n: a [i] := 9 OTHERWISE a [i] := i END SELECT PER; put (a [2]); put (a [3])
2 9 
> LET n = 2; PROC p: LET n = 3; ROW n INT VAR a; a [3] := 5; put (a [3]) END PROC p; ROW n INT VAR b; p; b [3] := 1
5 
FEHLER : Index ausserhalb
> LET n = 2; PROC p: INT VAR n; ROW n INT VAR a END PROC p; put (1)
FEHLER : falscher Typ (Zeile 1, Stelle 35)
> LET n = 2; PROC p (INT CONST n): ROW n INT VAR a END PROC p; put (1)
FEHLER : falscher Typ (Zeile 1, Stelle 38)
> LET n = 2; PROC p: ROW n INT VAR a. n: END PROC p; put (1)
FEHLER : falscher Typ (Zeile 1, Stelle 24)
> LET n = 2; PROC p (ROW n INT CONST r): LET n = 5; put (r [1]); put (r [n]) END PROC p; ROW 2 INT VAR a; p (a)
0 
FEHLER : Index ausserhalb
> LET n = 2; ROW n INT PROC p: LET n = 3; ROW n INT VAR a; a END PROC p; put (1)
FEHLER : falscher Typ (Zeile 1, Stelle 58)
> PROC p: LET n = 3; ROW n INT VAR a; put (a [3]) END PROC p; p; ROW n INT VAR b
FEHLER : unbekannt (Zeile 1, Stelle 68)
> LET n = 2, V = ROW n INT; PROC p: LET n = 3; V VAR a; a [2] := 6; put (a [2]); put (a [n]) END PROC p; p
6 
FEHLER : Index ausserhalb
> LET V = ROW n INT, n = 2; V VAR a; ROW 2 INT VAR b; b [2] := 4; a := b; put (a [2])
4 
> PROC p: ROW n INT VAR a; a [2] := 7; put (a [2]). r: LET n = 2 END PROC p; p
7 
> LET n = 3; put (LENGTH t [n]). r: ROW n TEXT VAR t; LET n = 4
FEHLER : doppelt (Zeile 1, Stelle 57)
> INT VAR n; ROW n INT VAR a
FEHLER : falscher Typ (Zeile 1, Stelle 16)
> INT CONST n :: 3; ROW n INT VAR a
FEHLER : falscher Typ (Zeile 1, Stelle 23)
> ROW n INT VAR a
FEHLER : unbekannt (Zeile 1, Stelle 5)
> ROW n INT VAR a. n: 3.
FEHLER : falscher Typ (Zeile 1, Stelle 5)
> PROC p: ROW n INT VAR a END PROC p; p. n: 3.
FEHLER : unbekannt (Zeile 1, Stelle 13)
> PROC p (ROW n INT CONST a): END PROC p; put (1). n: 3.
FEHLER : falscher Typ (Zeile 1, Stelle 13)
> INT PROC n: 3 END PROC n; ROW n INT VAR a
FEHLER : falscher Typ (Zeile 1, Stelle 31)
> INT PROC n (INT CONST k): k END PROC n; ROW n INT VAR a
FEHLER : unbekannt (Zeile 1, Stelle 45)
> ROW maxint INT VAR a
FEHLER : falscher Typ (Zeile 1, Stelle 5)
> ROW put INT VAR a
FEHLER : unbekannt (Zeile 1, Stelle 5)
> LET n = \"3\"; ROW n INT VAR a
FEHLER : falscher Typ (Zeile 1, Stelle 18)
> LET n = -3; ROW n INT VAR a
FEHLER : zu gross (Zeile 1, Stelle 17)
> LET n = 0; ROW n INT VAR a
FEHLER : zu gross (Zeile 1, Stelle 16)
> LET n = 16384, m = 16385; PROC p (ROW n INT VAR a): a [n] := 3 END PROC p; put (1); PROC q (ROW m INT VAR a): END PROC q
FEHLER : zu gross (Zeile 1, Stelle 97)
> ROW m STRUCT (ROW k INT r) VAR a; LET m = 2, k = 0
FEHLER : zu gross (Zeile 1, Stelle 19)
> ROW 0 INT VAR a
FEHLER : zu gross (Zeile 1, Stelle 5)
> ROW 16385 INT VAR a
FEHLER : zu gross (Zeile 1, Stelle 5)
> ROW 32767 INT VAR a; a [1] := TRUE
FEHLER : zu gross (Zeile 1, Stelle 5)
> put (a [1]); ROW 0 INT VAR a; put (b)
FEHLER : zu gross (Zeile 1, Stelle 18)
> put (b); ROW 0 INT VAR a
FEHLER : unbekannt (Zeile 1, Stelle 6)
> ROW 16384 INT VAR a; a [16384] := 1; put (a [16384]); put (a [1]); put (a [16385])
1 0 
FEHLER : Index ausserhalb
> ROW 128 ROW 128 INT VAR a; a [128] [128] := 3; put (a [128] [128]); put (a [128] [127])
3 0 
> ROW 128 ROW 129 INT VAR a
FEHLER : zu gross (Zeile 1, Stelle 1)
> ROW 2 STRUCT (INT a, ROW 8192 INT b) VAR s
FEHLER : zu gross (Zeile 1, Stelle 1)
> STRUCT (INT a, ROW 16383 INT b) VAR s; s.b [16383] := 5; put (s.b [16383])
5 
> STRUCT (INT a, ROW 16384 INT b) VAR s
FEHLER : zu gross (Zeile 1, Stelle 1)
> STRUCT (INT a, ROW 128 ROW 129 INT b) VAR s
FEHLER : zu gross (Zeile 1, Stelle 16)
> ROW 16384 INT VAR a; INT VAR b; put (1)
FEHLER : Stapelueberlauf
> ROW 16383 INT VAR a; INT VAR b; put (1)
1 
> ROW 16384 INT VAR a; PROC p: put (2) END PROC p; put (1); p
1 
FEHLER : Stapelueberlauf
> ROW 16382 INT VAR a; PROC p: put (2) END PROC p; put (1); p
1 2 
> ROW 16383 INT VAR a; INT VAR i; put (1); FOR i UPTO 2 REP put (i) PER
1 
FEHLER : Stapelueberlauf
> LET B = ROW 16384 INT, C = ROW 2 B; put (1)
FEHLER : zu gross (Zeile 1, Stelle 28)
> LET B = ROW 200 INT, C = ROW 200 B; C VAR c; ROW 3 C VAR d; put (e)
FEHLER : zu gross (Zeile 1, Stelle 26)
> TYPE B = ROW 200 INT; TYPE C = ROW 200 B; C VAR c; put (1)
FEHLER : zu gross (Zeile 1, Stelle 32)
> ROW 0 INT PROC p: END PROC p; put (1)
FEHLER : zu gross (Zeile 1, Stelle 5)
> TYPE T = ROW 0 INT; T VAR x; CONCR (x) := 1; put (y)
FEHLER : zu gross (Zeile 1, Stelle 14)
> LET A = STRUCT (INT a, b, c, d), B = STRUCT (A a, b), C = STRUCT (B a, b), D = STRUCT (C a, b); STRUCT (D a, b, c, d, e, f, g, h, i, j, k, l, m, n, o, p, q) VAR x; x.q.b.a.b.d := 7; put (x.q.b.a.b.d); put (x.q.b.a.b.c)
7 0 
> LET A = STRUCT (INT a, b, c, d), B = STRUCT (A a, b), C = STRUCT (B a, b), D = STRUCT (C a, b); STRUCT (D a, b, c, d, e, f, g, h, i, j, k, l, m, n, o, p, q, INT r) VAR x; put (1)
FEHLER : zu gross (Zeile 1, Stelle 97)
> LET A = STRUCT (INT a, b, c, d), B = STRUCT (A a, b), C = STRUCT (B a, b), D = STRUCT (C a, b), E = STRUCT (D a, b, c, d, e, f, g, h, i, j, k, l, m, n, o, p, q); E VAR x; put (x.q.b.a.b.d); ROW 1 E VAR y
FEHLER : zu gross (Zeile 1, Stelle 191)
> LET A = STRUCT (INT a, b), B = STRUCT (A a, b), C = STRUCT (B a, b), D = STRUCT (C a, b), E = STRUCT (D a, b), F = STRUCT (E a, b), G = STRUCT (F a, b), H = STRUCT (G a, b), I = STRUCT (H a, b); I VAR x
FEHLER : zu gross (Zeile 1, Stelle 179)
> LET A = STRUCT (INT a, b), B = STRUCT (A a, b), C = STRUCT (B a, b), D = STRUCT (C a, b), E = STRUCT (D a, b), F = STRUCT (E a, b), G = STRUCT (F a, b), H = STRUCT (G a, b); H VAR x; x.b.b.b.b.b.b.b.b := 3; put (x.b.b.b.b.b.b.b.b)
3 
> LET A=STRUCT(INT a,b),B=STRUCT(A a,b),C=STRUCT(B a,b),D=STRUCT(C a,b),E=STRUCT(D a,b),F=STRUCT(E a,b),G=STRUCT(F a,b),H=STRUCT(G a,b),I=STRUCT(H a,b),J=STRUCT(I a,b),K=STRUCT(J a,b),L=STRUCT(K a,b),M=STRUCT(L a,b);M VAR x;put(x.a)
FEHLER : zu gross (Zeile 1, Stelle 137)
> ROW 8192 INT VAR a, b; a := b
FEHLER : Operandenspeicher voll
> ROW 8191 INT VAR a, b; b [8191] := 5; a := b; put (a [8191])
5 
> ROW 8192 INT VAR a; ROW 8192 INT CONST c :: a; put (c [1])
FEHLER : Operandenspeicher voll
> ROW 8191 INT VAR a; ROW 8191 INT CONST c :: a; put (c [1]); put (1 + c [1])
0 
FEHLER : Operandenspeicher voll
> ROW 8191 INT VAR a; a [1] := 4; PROC p (ROW 8191 INT CONST r): put (1) END PROC p; p (a)
1 
> ROW 8190 INT VAR a; a [1] := 4; PROC p (ROW 8190 INT CONST r): put (r [1]) END PROC p; p (a)
4 
> PROC p (ROW 5000 INT CONST r, INT CONST n): put (n); IF n > 0 THEN p (r, n - 1) FI END PROC p; ROW 5000 INT VAR a; p (a, 0); p (a, 1); p (a, 2)
0 1 0 2 1 
FEHLER : Stapelueberlauf
> PROC p (ROW 5000 INT VAR r, INT CONST n): put (n); IF n > 0 THEN p (r, n - 1) FI END PROC p; ROW 5000 INT VAR a; p (a, 9)
9 8 7 6 5 4 3 2 1 0 
> PROC p (INT CONST n): ROW 5000 INT VAR r; put (n); IF n > 0 THEN p (n - 1) FI END PROC p; p (2); p (3)
2 1 0 3 2 1 
FEHLER : Stapelueberlauf
> ROW 4 TEXT VAR a, b; INT VAR i; FOR i UPTO 4 REP a [i] := 14336 * \"x\" PER; put (1); b := a; put (2); b := a; put (LENGTH b [4])
1 2 14336 
> ROW 4 TEXT VAR a, b; INT VAR i; FOR i UPTO 4 REP a [i] := 14337 * \"x\" PER; put (1); b := a; put (2)
1 
FEHLER : Textspeicher voll
> ROW 4 TEXT VAR a, b; INT VAR i; FOR i UPTO 4 REP a [i] := 14336 * \"x\" PER; b := a; put (1); b [2] := \"ab\"; put (2); b [2] CAT 14335 * \"x\"
1 2 
FEHLER : Textspeicher voll
> ROW 4 TEXT VAR a; INT VAR i; FOR i UPTO 4 REP a [i] := 14336 * \"x\" PER; PROC p (ROW 4 TEXT CONST t): put (LENGTH t [1]) END PROC p; p (a); p (a)
14336 14336 
> ROW 4 TEXT VAR a; INT VAR i; FOR i UPTO 4 REP a [i] := 14337 * \"x\" PER; PROC p (ROW 4 TEXT CONST t): put (LENGTH t [1]) END PROC p; put (1); p (a)
1 
FEHLER : Textspeicher voll
> ROW 5 TEXT VAR a, b; INT VAR i; FOR i UPTO 5 REP a [i] := 13097 * \"x\" PER; put (1); b := a
1 
FEHLER : Textspeicher voll
> ROW 5 TEXT VAR a, b; INT VAR i; FOR i UPTO 5 REP a [i] := 13098 * \"x\" PER; put (1); b := a
1 
FEHLER : Operandenspeicher voll
> ROW 4 TEXT VAR a, b; INT VAR i; FOR i UPTO 4 REP a [i] := 16000 * \"x\" PER; put (1); b [1] := a [1]; b [2] := a [2]; b [3] := a [3]; put (2); b [4] := a [4]
1 2 
FEHLER : Textspeicher voll
> ROW 2 ROW 3 DATASPACE VAR a
FEHLER : falsche Stelle (Zeile 1, Stelle 13)
> ROW type INT VAR a
FEHLER : unbekannt (Zeile 1, Stelle 5)
> ROW - 3 INT VAR a
FEHLER : kein ELAN-Text (Zeile 1, Stelle 5)
> ROW 3 INT a
FEHLER : kein ELAN-Text (Zeile 1, Stelle 11)
> LET n = 2; ROW n + 1 INT VAR a
FEHLER : kein ELAN-Text (Zeile 1, Stelle 18)
";
