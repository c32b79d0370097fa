//! Types of their own, and names for types: programs, and behind each what it writes.

pub(crate) const TYPES: &str = "\
> TYPE T = INT; OP := (T VAR a, T CONST b): CONCR (a) := CONCR (b) END OP :=; T VAR x; T VAR y; CONCR (y) := 4; x := y; put (CONCR (x))
4 
> TYPE T = INT; T VAR x, y; x := y
FEHLER : falscher Typ (Zeile 1, Stelle 27)
> TYPE T = INT; put (1)
1 
> LET T = INT; T VAR x :: 3; put (x)
3 
> LET ZAHL = INT; INT VAR a :: 1; ZAHL VAR b :: a; b INCR 2; a := b; put (a)
3 
> TYPE T = TEXT; T VAR x; CONCR (x) := \"abc\"; put (CONCR (x) + \"d\")
abcd 
> TYPE T = BOOL; T VAR x; CONCR (x) := TRUE; IF CONCR (x) THEN put (1) FI
1 
> TYPE T = INT; T VAR x; put (x)
FEHLER : falscher Typ (Zeile 1, Stelle 24)
> TYPE T = INT; T VAR x; x + 1
FEHLER : falscher Typ (Zeile 1, Stelle 24)
> TYPE T = INT, U = INT
FEHLER : kein ELAN-Text (Zeile 1, Stelle 13)
> TYPE T = INT; TYPE U = T; U VAR x; CONCR (CONCR (x)) := 5; put (CONCR (CONCR (x)))
5 
> TYPE T = INT; LET S = T; S VAR x; CONCR (x) := 5; put (CONCR (x))
5 
> T VAR x; put (1)
FEHLER : unbekannt (Zeile 1, Stelle 1)
> LET T = U; T VAR x
FEHLER : unbekannt (Zeile 1, Stelle 9)
> LET T = T; put (1)
FEHLER : falsche Stelle (Zeile 1, Stelle 5)
> TYPE T = T; put (1)
FEHLER : falsche Stelle (Zeile 1, Stelle 1)
> LET T = U, U = T; T VAR x
FEHLER : falsche Stelle (Zeile 1, Stelle 5)
> TYPE T = U; TYPE U = T; put (1)
FEHLER : falsche Stelle (Zeile 1, Stelle 1)
> TYPE T = INT; TYPE T = TEXT; put (1)
FEHLER : doppelt (Zeile 1, Stelle 20)
> TYPE T = INT; LET T = TEXT; put (1)
FEHLER : doppelt (Zeile 1, Stelle 19)
> TYPE T = INT; INT VAR t; put (1)
1 
> TYPE T = INT; PROC p: LET T = TEXT; T VAR x :: \"a\"; put (x) END PROC p; p
a 
> PROC p: LET T = TEXT; T VAR x :: \"a\"; put (x) END PROC p; p; T VAR y
FEHLER : unbekannt (Zeile 1, Stelle 62)
> PROC p: T VAR x :: 4; put (x) END PROC p; LET T = INT; p
4 
> TYPE T = INT; OP + (T CONST a, b): put (CONCR (a) + CONCR (b)) END OP +; T VAR x, y; CONCR (x) := 1; CONCR (y) := 2; x + y
3 
> TYPE T = INT; T OP + (T CONST a, b): T VAR c; CONCR (c) := CONCR (a) + CONCR (b); c END OP +; T VAR x, y; CONCR (x) := 1; CONCR (y) := 2; put (CONCR (x + y))
3 
> TYPE T = INT; OP put (T CONST a): END OP put
FEHLER : kein ELAN-Text (Zeile 1, Stelle 18)
> TYPE T = INT; PROC put (T CONST a): put (CONCR (a)) END PROC put; T VAR x; CONCR (x) := 7; put (x)
7 
> INT VAR x; CONCR (x) := 3
FEHLER : falscher Typ (Zeile 1, Stelle 12)
> put (CONCR (3))
FEHLER : falscher Typ (Zeile 1, Stelle 6)
> TYPE T = INT; T CONST c :: 3
FEHLER : falscher Typ (Zeile 1, Stelle 23)
> TYPE T = INT; T PROC eins: T VAR x; CONCR (x) := 1; x END PROC eins; put (CONCR (eins))
1 
> TYPE T = INT; T PROC eins: T VAR x; CONCR (x) := 1; x END PROC eins; CONCR (eins) := 2
FEHLER : keine Variable (Zeile 1, Stelle 70)
> TYPE T = INT; T PROC eins: 1 END PROC eins; put (1)
FEHLER : falscher Typ (Zeile 1, Stelle 28)
> TYPE T = INT; INT PROC eins: T VAR x; x END PROC eins; put (1)
FEHLER : falscher Typ (Zeile 1, Stelle 39)
> TYPE T = INT; T VAR x; CONCR (x) := 3; BOOL VAR b :: CONCR (x) = 3; IF b THEN put (\"ja\") FI
ja 
> TYPE T = INT; T VAR a, b; IF a = b THEN put (1) FI
FEHLER : falscher Typ (Zeile 1, Stelle 30)
> TYPE T = INT; BOOL OP = (T CONST a, b): CONCR (a) = CONCR (b) END OP =; T VAR a, b; IF a = b THEN put (1) FI
1 
> TYPE T = INT; T VAR x :: x
> TYPE T = INT; T VAR x; T VAR y :: x; put (1)
1 
> TYPE T = INT; OP := (T VAR a, T CONST b): CONCR (a) := CONCR (b) + 1 END OP :=; T VAR x; CONCR (x) := 1; T VAR y :: x; put (CONCR (y))
1 
> TYPE T = INT; PROC p (T VAR a): CONCR (a) INCR 1 END PROC p; T VAR x; CONCR (x) := 1; p (x); put (CONCR (x))
2 
> TYPE T = INT; PROC p (T VAR a): CONCR (a) INCR 1 END PROC p; INT VAR x :: 1; p (x); put (x)
FEHLER : falscher Typ (Zeile 1, Stelle 78)
> TYPE T = INT; PROC p (INT CONST a): put (a) END PROC p; PROC p (T CONST a): put (\"T\") END PROC p; T VAR x; p (x); p (3)
T 3 
> TYPE T = INT; PROC p (T CONST a): put (1) END PROC p; PROC p (T CONST a): put (2) END PROC p; put (3)
FEHLER : doppelt (Zeile 1, Stelle 60)
> TYPE A = INT, B = INT; put (1)
FEHLER : kein ELAN-Text (Zeile 1, Stelle 13)
> TYPE A = INT; TYPE B = INT; PROC p (A CONST a): put (\"A\") END PROC p; PROC p (B CONST a): put (\"B\") END PROC p; A VAR a; B VAR b; p (a); p (b)
A B 
> LET A = INT; PROC p (INT CONST a): put (1) END PROC p; PROC p (A CONST a): put (2) END PROC p; put (3)
FEHLER : doppelt (Zeile 1, Stelle 61)
> TYPE T = INT; IF TRUE THEN T VAR x; CONCR (x) := 1; put (CONCR (x)) FI
1 
> PROC p: TYPE T = INT; put (1) END PROC p; p
FEHLER : kein ELAN-Text (Zeile 1, Stelle 9)
> p: TYPE T = INT; put (1). p
FEHLER : kein ELAN-Text (Zeile 1, Stelle 2)
> put (CONCR (x)); INT VAR x
FEHLER : falscher Typ (Zeile 1, Stelle 6)
> put (CONCR (y))
FEHLER : unbekannt (Zeile 1, Stelle 13)
> U VAR x; put (CONCR (x))
FEHLER : unbekannt (Zeile 1, Stelle 1)
> U VAR x; x := 3; put (x)
FEHLER : unbekannt (Zeile 1, Stelle 1)
> U PROC f: 1 END PROC f; put (f)
FEHLER : unbekannt (Zeile 1, Stelle 1)
> PROC f (U CONST a): END PROC f; f (3)
FEHLER : unbekannt (Zeile 1, Stelle 9)
> OP + (U CONST a): END OP +; put (+ 3)
FEHLER : unbekannt (Zeile 1, Stelle 7)
> INT VAR a :: \"x\"; U VAR b
FEHLER : falscher Typ (Zeile 1, Stelle 9)
> U VAR b; INT VAR a :: \"x\"
FEHLER : unbekannt (Zeile 1, Stelle 1)
> TYPE T = INT; T VAR x; FOR x FROM 1 UPTO 3 REP PER
FEHLER : falscher Typ (Zeile 1, Stelle 24)
> TYPE T = INT; SELECT 1 OF CASE T: put (1) END SELECT
FEHLER : kein ELAN-Text (Zeile 1, Stelle 32)
> LET T = INT, n = 4; T VAR x :: n; put (x)
4 
> LET n = 4, T = INT; T VAR x :: n; put (x)
4 
> LET T = INT, T = TEXT; put (1)
FEHLER : doppelt (Zeile 1, Stelle 14)
> LET T = INT; LET t = 3; put (t)
3 
> a. a: LET T = TEXT; T VAR x :: \"r\"; put (x).
r 
> a; T VAR y :: \"s\"; put (y). a: LET T = TEXT; T VAR x :: \"r\"; put (x).
r s 
> TYPE T = INT; T VAR x; CONCR (x) := \"a\"
FEHLER : falscher Typ (Zeile 1, Stelle 24)
> TYPE T = INT; LET T = INT; T VAR x; put (1)
FEHLER : doppelt (Zeile 1, Stelle 19)
> TYPE INTTYP = INT; INTTYP VAR x; CONCR (x) := 2; INT VAR y :: CONCR (x) * CONCR (x); put (y)
4 
> TYPE T = INT; T VAR x, y; IF TRUE THEN x ELSE y FI
FEHLER : falscher Typ (Zeile 1, Stelle 27)
> TYPE T = INT; T VAR x, y; CONCR (x) := 8; put (CONCR (IF TRUE THEN x ELSE y FI))
8 
> TYPE T = INT; TEXT VAR t :: \"a\"; T VAR x; t := x
FEHLER : falscher Typ (Zeile 1, Stelle 43)
> TYPE T = TEXT; T VAR x; CONCR (x) CAT \"ab\"; CONCR (x) CAT \"c\"; put (LENGTH CONCR (x))
3 
> TYPE T = INT; LEAVE p. p: T VAR x
FEHLER : falsche Stelle (Zeile 1, Stelle 15)
> TYPE T = INT; PROC p: LEAVE p WITH 3 END PROC p; p
FEHLER : falscher Typ (Zeile 1, Stelle 23)
> TYPE T = INT; T PROC p: T VAR x; CONCR (x) := 6; LEAVE p WITH x; x END PROC p; put (CONCR (p))
6 
> TYPE T = INT; T PROC p: T VAR x; LEAVE p WITH 3; x END PROC p; p
FEHLER : falscher Typ (Zeile 1, Stelle 34)
> TYPE T = INT; put (CONCR (r)). r: T VAR x; CONCR (x) := 9; x.
9 
> TYPE T = INT; T VAR a; INT VAR b :: CONCR (a); put (b)
0 
> TYPE T = ROW 3 INT; T VAR x; put (1)
1 
> LET T = ROW 3 INT; put (1)
1 
> TYPE T = STRUCT (INT a); put (1)
1 
> TYPE T = BOOL; TYPE T = T; put (1)
FEHLER : doppelt (Zeile 1, Stelle 21)
> LET T = BOOL; LET T = T; put (1)
FEHLER : doppelt (Zeile 1, Stelle 19)
> TYPE T = T; TYPE T = INT; put (1)
FEHLER : falsche Stelle (Zeile 1, Stelle 1)
> LET V = T, T = V, V = INT; put (1)
FEHLER : falsche Stelle (Zeile 1, Stelle 5)
";
