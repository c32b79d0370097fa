//! Structures: fields, equality of types, own types over them, and types that contain themselves. Programs, and behind each
//! what it writes.

pub(crate) const STRUCTURES: &str = "\
> STRUCT (INT a, TEXT b) VAR s; put (s.a); put (LENGTH s.b); s.a := 3; s.b := \"x\"; put (s.a); put (s.b)
0 0 3 x 
> STRUCT (INT my age, TEXT b) VAR s; s.myage := 3; s . my age INCR 1; put (s.my age)
4 
> STRUCT (INT a, b, BOOL c) VAR s; s.b := 2; s.a := s.b * s.b; s.c := s.a > s.b; IF s.c THEN put (s.a) FI
4 
> ROW 2 STRUCT (INT a, TEXT b) VAR x; x [1].a := 3; x [2].b := \"z\"; put (x [1].a); put (x [2].a); put (x [2].b); put (LENGTH x [1].b)
3 0 z 0 
> STRUCT (ROW 3 INT r, STRUCT (BOOL b, TEXT t) s) VAR v; v.r [2] := 4; v.s.t := \"in\"; v.s.b := TRUE; put (v.r [2]); put (v.s.t); IF v.s.b THEN put (1) FI
4 in 1 
> ROW 2 STRUCT (INT n, ROW 2 STRUCT (TEXT t, INT k) r) VAR a; a [2].r [1].k := 5; a [2].r [1].t := \"q\"; a [1] := a [2]; a [2].r [1].k := 6; put (a [1].r [1].k); put (a [1].r [1].t)
5 q 
> STRUCT (INT a, ROW 2 INT r) VAR s; s.r [3] := 1
FEHLER : Index ausserhalb
> STRUCT (INT a, TEXT b) VAR s, t; s.b := \"x\"; t := s; s.b CAT \"y\"; put (t.b); put (s.b); t := s; put (t.b)
x xy xy 
> STRUCT (INT a, TEXT b) VAR s; s.a := 1; STRUCT (INT a, TEXT b) CONST c :: s; s.a := 2; put (c.a)
1 
> STRUCT (INT a) VAR s; (s).a := 1
FEHLER : keine Variable (Zeile 1, Stelle 23)
> STRUCT (INT a) VAR s; s.a := 4; put ((s).a)
4 
> STRUCT (INT a) VAR s; s.b := 1
FEHLER : unbekannt (Zeile 1, Stelle 23)
> STRUCT (INT a) VAR s; put (1 + s.b)
FEHLER : unbekannt (Zeile 1, Stelle 32)
> INT VAR i; i.a := 1
FEHLER : unbekannt (Zeile 1, Stelle 12)
> INT VAR i; put (i.a)
FEHLER : unbekannt (Zeile 1, Stelle 17)
> ROW 3 STRUCT (INT a) VAR s; put (s.a)
FEHLER : unbekannt (Zeile 1, Stelle 34)
> STRUCT (INT a) VAR s; put (s [1])
FEHLER : falscher Typ (Zeile 1, Stelle 28)
> STRUCT (INT a) VAR s; put (s [1].b)
FEHLER : falscher Typ (Zeile 1, Stelle 28)
> PROC p: END PROC p; put (p [1])
FEHLER : falscher Typ (Zeile 1, Stelle 26)
> STRUCT (INT a, TEXT a) VAR s
FEHLER : doppelt (Zeile 1, Stelle 21)
> STRUCT (INT a, a) VAR s
FEHLER : doppelt (Zeile 1, Stelle 16)
> STRUCT (INT a, U b, TEXT a) VAR s
FEHLER : unbekannt (Zeile 1, Stelle 16)
> STRUCT (INT a, a, U b) VAR s
FEHLER : doppelt (Zeile 1, Stelle 16)
> STRUCT (INT b, a, TEXT c, a, BOOL b) VAR s; put (s.a)
FEHLER : doppelt (Zeile 1, Stelle 27)
> STRUCT (INT a, STRUCT (INT a, b) b) VAR s; INT VAR a; s.b.a := 3; s.a := 2; a := 1; put (s.b.a + s.a + a)
6 
> STRUCT (INT a) VAR s; s.a := 4; r. r: put (s.a). t: r.
4 
> STRUCT (INT a) VAR s; put (s.a). a: 3.
0 
> STRUCT (INT a) VAR s; s. a: put (3).
FEHLER : falscher Typ (Zeile 1, Stelle 23)
> STRUCT (INT a) VAR s; s.a := TRUE
FEHLER : falscher Typ (Zeile 1, Stelle 23)
> ROW 2 STRUCT (INT a) VAR s; s [1] := s [2].a
FEHLER : falscher Typ (Zeile 1, Stelle 29)
> STRUCT (INT a, ROW 2 TEXT b) VAR s; s.b [2] CAT \"x\" + s.b [2]; s.a INCR LENGTH s.b [2]; put (s.a); put (code (s.b [s.a + 1]))
1 120 
> STRUCT (INT a) VAR s; put (s)
FEHLER : falscher Typ (Zeile 1, Stelle 23)
> STRUCT (INT a) VAR s, t; IF s = t THEN FI
FEHLER : falscher Typ (Zeile 1, Stelle 29)
> STRUCT (INT a) VAR s; STRUCT (INT b) VAR t; s := t
FEHLER : falscher Typ (Zeile 1, Stelle 45)
> STRUCT (INT a, TEXT b) VAR s; STRUCT (TEXT b, INT a) VAR t; s := t
FEHLER : falscher Typ (Zeile 1, Stelle 61)
> STRUCT (INT a, INT b) VAR s; STRUCT (INT a, b) VAR t; t.b := 3; s := t; put (s.b)
3 
> STRUCT (INT a) VAR s; STRUCT (INT a, b) VAR t; s := t
FEHLER : falscher Typ (Zeile 1, Stelle 48)
> LET S = STRUCT (INT a); S VAR s; STRUCT (INT a) VAR t; t.a := 3; s := t; put (s.a)
3 
> STRUCT (ROW 2 INT a) VAR s; STRUCT (ROW 3 INT a) VAR t; s := t
FEHLER : falscher Typ (Zeile 1, Stelle 57)
> STRUCT (STRUCT (INT a) s) VAR x; STRUCT (STRUCT (INT b) s) VAR y; x := y
FEHLER : falscher Typ (Zeile 1, Stelle 67)
> PROC p (STRUCT (INT a) CONST s): put (1) END PROC p; PROC p (STRUCT (INT b) CONST s): put (2) END PROC p; STRUCT (INT b) VAR x; p (x)
2 
> PROC p (STRUCT (INT a) CONST s): END PROC p; PROC p (STRUCT (INT a) VAR s): END PROC p; put (1)
FEHLER : doppelt (Zeile 1, Stelle 51)
> STRUCT (INT a) VAR s; STRUCT (INT b) VAR t; s.a := t.b; put (IF TRUE THEN s ELSE t FI.a)
FEHLER : falscher Typ (Zeile 1, Stelle 62)
> STRUCT (INT a, TEXT b) PROC s (INT CONST n): STRUCT (INT a, TEXT b) VAR x; x.a := n; x.b := n * \"u\"; x END PROC s; put (s (3).b); put (s (2).a)
uuu 2 
> ROW 2 STRUCT (INT a, b) PROC f: ROW 2 STRUCT (INT a, b) VAR x; x [2].b := 7; x END PROC f; put (f [2].b); put (f [1].b); put (f [3].b)
7 0 
FEHLER : Index ausserhalb
> STRUCT (INT a, ROW 2 INT r) PROC f: STRUCT (INT a, ROW 2 INT r) VAR x; x.r [1] := 4; x END PROC f; put (f.r [1]); put (f.a); f.a := 1
FEHLER : keine Variable (Zeile 1, Stelle 126)
> PROC p (STRUCT (INT a, TEXT b) VAR s): s.a INCR 1; s.b CAT \"!\" END PROC p; STRUCT (INT a, TEXT b) VAR x; p (x); p (x); put (x.a); put (x.b)
2 !! 
> PROC p (INT VAR n, TEXT VAR t): n := 5; t := \"t\" END PROC p; ROW 2 STRUCT (INT a, TEXT b) VAR x; p (x [2].a, x [1].b); put (x [2].a); put (x [1].b); put (x [1].a)
5 t 0 
> PROC p (STRUCT (INT a, b) CONST s): x.b := 9; put (s.b) END PROC p; STRUCT (INT a, b) VAR x; x.b := 1; p (x); put (x.b)
1 9 
> PROC p (STRUCT (INT a, b) VAR s): END PROC p; PROC q (ROW 2 STRUCT (INT a, b) CONST r): p (r [1]) END PROC q; put (1)
FEHLER : keine Variable (Zeile 1, Stelle 92)
> STRUCT (INT a, b) PROC f (INT CONST n): STRUCT (INT a, b) VAR x; IF n = 0 THEN LEAVE f WITH x FI; x := f (n - 1); x.b INCR n; x END PROC f; put (f (4).b)
10 
> put (s.b). s: STRUCT (INT a, b) VAR x; x.b := 6; x.
6 
> LET S = STRUCT (INT a, b); S PROC s (INT CONST a, b): S VAR x; x.a := a; x.b := b; x END PROC s; S OP + (S CONST x, y): s (x.a + y.a, x.b + y.b) END OP +; put ((s (1, 2) + s (3, 4)).b)
6 
> LET S = STRUCT (INT a, b); S VAR s, t; t.b := 5; INT VAR i; FOR i UPTO 2 REP put (SELECT i OF CASE 1: s OTHERWISE t END SELECT.b) PER
0 5 
> LET S = STRUCT (TEXT a, INT b); ROW 2 S VAR l; PROC set (S VAR s, TEXT CONST t): s.a := t; s.b := LENGTH t END PROC set; set (l [1], \"one\"); set (l [2], \"three\"); put (l [1].b + l [2].b); put (l [2].a)
8 three 
> TYPE P = STRUCT (INT x, y); P OP + (P CONST a, b): P VAR c; CONCR (c).x := CONCR (a).x + CONCR (b).x; c END OP +; P VAR p, q; CONCR (p).x := 3; CONCR (q).x := 4; put (CONCR (p + q).x)
7 
> TYPE P = STRUCT (INT x, y); OP := (P VAR a, P CONST b): CONCR (a) := CONCR (b) END OP :=; P VAR p, q; CONCR (p).y := 6; q := p; CONCR (p).y := 7; put (CONCR (q).y)
6 
> TYPE P = STRUCT (INT x, y); P VAR p, q; q := p
FEHLER : falscher Typ (Zeile 1, Stelle 41)
> TYPE P = STRUCT (INT x, y); P VAR p; CONCR (p).y := 4; P VAR q :: p; put (CONCR (q).y)
4 
> TYPE P = STRUCT (INT x, y); P VAR p; put (p.x)
FEHLER : unbekannt (Zeile 1, Stelle 43)
> TYPE T = ROW 3 INT; T VAR x; CONCR (x) [2] := 5; put (CONCR (x) [2]); put (CONCR (x) [4])
5 
FEHLER : Index ausserhalb
> TYPE T = ROW 3 INT; T VAR x; x [2] := 5
FEHLER : falscher Typ (Zeile 1, Stelle 30)
> TYPE T = ROW 3 INT; T VAR x; ROW 3 INT VAR y; y [3] := 2; CONCR (x) := y; put (CONCR (x) [3]); x := y
FEHLER : falscher Typ (Zeile 1, Stelle 96)
> TYPE T = ROW 3 INT; T PROC t: T VAR x; CONCR (x) [1] := 4; x END PROC t; put (CONCR (t) [1]); CONCR (t) [1] := 1
FEHLER : keine Variable (Zeile 1, Stelle 95)
> TYPE T = INT; ROW 2 T VAR a, b; CONCR (a [1]) := 4; CONCR (b [2]) := CONCR (a [1]) + 1; put (CONCR (b [2]))
5 
> TYPE T = INT; ROW 2 T VAR a, b; a := b
FEHLER : falscher Typ (Zeile 1, Stelle 33)
> TYPE T = INT; STRUCT (INT n, T t) VAR a, b; a := b
FEHLER : falscher Typ (Zeile 1, Stelle 45)
> TYPE T = INT; ROW 2 STRUCT (INT n, ROW 3 T t) VAR a; a [1].n := 2; a [1].t := a [2].t
FEHLER : falscher Typ (Zeile 1, Stelle 68)
> TYPE T = INT; ROW 2 STRUCT (INT n, T t) VAR a; a [1].n := 2; a [2].n := a [1].n; put (a [2].n); put (a [1].t)
FEHLER : falscher Typ (Zeile 1, Stelle 97)
> TYPE T = INT; ROW 2 T VAR a; CONCR (a [2]) := 4; ROW 2 T VAR b :: a; put (CONCR (b [2])); ROW 2 T CONST c :: b; put (CONCR (c [2]))
4 4 
> TYPE T = INT; OP := (ROW 2 T VAR a, ROW 2 T CONST b): CONCR (a [1]) := CONCR (b [2]) END OP :=; ROW 2 T VAR x, y; CONCR (y [2]) := 7; x := y; put (CONCR (x [1]))
7 
> TYPE T = INT; OP := (T VAR a, T CONST b): CONCR (a) := CONCR (b) END OP :=; ROW 2 T VAR a; CONCR (a [1]) := 3; a [2] := a [1]; put (CONCR (a [2])); ROW 2 T VAR b; b := a
FEHLER : falscher Typ (Zeile 1, Stelle 164)
> TYPE T = INT; TYPE U = INT; ROW 2 T VAR a; ROW 2 U VAR b; PROC p (ROW 2 T CONST x): put (1) END PROC p; p (a); p (b)
FEHLER : falscher Typ (Zeile 1, Stelle 112)
> TYPE S = STRUCT (INT top, ROW 9 INT of); PROC push (S VAR s, INT CONST n): CONCR (s).top INCR 1; CONCR (s).of [CONCR (s).top] := n END PROC push; S VAR s; push (s, 4); push (s, 8); put (CONCR (s).of [2])
8 
> TYPE L = STRUCT (ROW 2 TEXT t); L VAR a; CONCR (a).t [2] := \"x\"; L CONST b :: a; CONCR (a).t [2] CAT \"y\"; put (CONCR (b).t [2] + CONCR (a).t [2])
xxy 
> TYPE T = INT; TYPE U = ROW 2 T; U VAR u; CONCR (CONCR (u) [2]) := 3; put (CONCR (CONCR (u) [2])); CONCR (u) := CONCR (u)
FEHLER : falscher Typ (Zeile 1, Stelle 99)
> TYPE T = STRUCT (INT a); CONCR (s).a := 1; STRUCT (INT a) VAR s
FEHLER : falscher Typ (Zeile 1, Stelle 26)
> TYPE T = ROW 2 INT; BOOL OP = (T CONST a, b): CONCR (a) [1] = CONCR (b) [1] END OP =; T VAR a, b; CONCR (a) [2] := 1; IF a = b THEN put (1) FI
1 
> TYPE T = INT; T VAR t; ROW 2 INT VAR a; put (a [t])
FEHLER : falscher Typ (Zeile 1, Stelle 46)
> TYPE T = INT; T VAR t; ROW 2 INT VAR a; put (a [CONCR (t) + 1])
0 
> TYPE T = ROW 2 T; put (1)
FEHLER : falsche Stelle (Zeile 1, Stelle 1)
> LET T = STRUCT (INT a, T b); put (1)
FEHLER : falsche Stelle (Zeile 1, Stelle 5)
> TYPE T = STRUCT (U u); TYPE U = ROW 3 T; put (1)
FEHLER : falsche Stelle (Zeile 1, Stelle 1)
> LET T = ROW 2 U, U = STRUCT (T t, V v), V = INT; T VAR x; put (x [1])
FEHLER : falsche Stelle (Zeile 1, Stelle 5)
> TYPE T = ROW 0 T; put (1)
FEHLER : zu gross (Zeile 1, Stelle 14)
> TYPE T = ROW n T; put (1); LET n = 2
FEHLER : falsche Stelle (Zeile 1, Stelle 1)
> LET A = B, B = C, C = STRUCT (INT a, b); A VAR x; C VAR y; y.b := 4; x := y; put (x.b)
4 
> LET A = STRUCT (B b, C c), B = ROW n C, C = D, n = 2, D = INT; A VAR x; x.b [2] := 3; x.c := x.b [2]; put (x.c)
3 
> LET T = U, U = V, V = T; put (1)
FEHLER : falsche Stelle (Zeile 1, Stelle 5)
> LET S = T, T = U, U = T; put (1)
FEHLER : falsche Stelle (Zeile 1, Stelle 12)
> LET U = T; LET T = INT, T = U; put (1)
FEHLER : doppelt (Zeile 1, Stelle 25)
> LET T = INT; PROC p: LET T = ROW 2 T; put (1) END PROC p; p
FEHLER : falsche Stelle (Zeile 1, Stelle 26)
> LET T = INT; PROC p: LET U = ROW 2 T, T = TEXT; U VAR x; x [2] := \"t\"; put (x [2]) END PROC p; p
t 
> LET V = ROW 2 T, T = INT; PROC p: LET T = TEXT; V VAR x; x [2] := 3; put (x [2]) END PROC p; p
3 
> STRUCT (INT a, U b) VAR s; s.a := TRUE
FEHLER : unbekannt (Zeile 1, Stelle 16)
> ROW 2 U VAR s; s [1] := 3; put (x)
FEHLER : unbekannt (Zeile 1, Stelle 7)
> LET U = ROW 2 X; PROC p (U CONST u): END PROC p; p (1)
FEHLER : unbekannt (Zeile 1, Stelle 15)
> TYPE T = STRUCT (INT a); PROC p: LET T = STRUCT (TEXT a); T VAR x; x.a := \"p\"; put (x.a) END PROC p; p; T VAR y; CONCR (y).a := 2; put (CONCR (y).a)
p 2 
> STRUCT (INT a, DATASPACE b) VAR s
FEHLER : falsche Stelle (Zeile 1, Stelle 16)
> STRUCT (INT type) VAR s
> STRUCT (INT a) VAR s; put (s.type)
FEHLER : unbekannt (Zeile 1, Stelle 28)
> STRUCT (INT a; TEXT b) VAR s
FEHLER : kein ELAN-Text (Zeile 1, Stelle 14)
> STRUCT () VAR s
FEHLER : kein ELAN-Text (Zeile 1, Stelle 9)
> STRUCT (INT a) VAR s; put (s.3)
FEHLER : kein ELAN-Text (Zeile 1, Stelle 30)
> STRUCT INT a VAR s
FEHLER : kein ELAN-Text (Zeile 1, Stelle 8)
";
