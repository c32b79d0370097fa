//! What texts mean.

/// Texts, and behind each what it writes, or at which place and for which reason it is refused: names, operators and assignments;
/// values of lists of units, IF and SELECT; loops, scopes, CAND and COR, brackets and calls; PROCs, OPs, refinements and LEAVE;
/// the identifier after FOR, and bodies that have to deliver a type; own operators. A text that has a
/// meaning and puts nothing writes nothing. One text, since the check goes over each item of an array.
pub const MEANINGS: &str = "\
> put (1)
1 
> line; put (maxint)

32767 
> INT VAR a; INT CONST a :: 1
FEHLER : doppelt (Zeile 1, Stelle 22)
> INT VAR a, b, a
FEHLER : doppelt (Zeile 1, Stelle 15)
> INT VAR a; BOOL VAR b; INT VAR b; INT VAR a
FEHLER : doppelt (Zeile 1, Stelle 32)
> INT VAR a :: 1; a := 2; put (a)
2 
> put (a); INT VAR a
0 
> put (b); INT VAR a
FEHLER : unbekannt (Zeile 1, Stelle 6)
> a := 1
FEHLER : unbekannt (Zeile 1, Stelle 1)
> x
FEHLER : unbekannt (Zeile 1, Stelle 1)
> x + y
FEHLER : unbekannt (Zeile 1, Stelle 1)
> put (x)
FEHLER : unbekannt (Zeile 1, Stelle 6)
> put (TRUE)
FEHLER : falscher Typ (Zeile 1, Stelle 1)
> put (1, 2)
FEHLER : unbekannt (Zeile 1, Stelle 1)
> put
FEHLER : unbekannt (Zeile 1, Stelle 1)
> line (1)
FEHLER : unbekannt (Zeile 1, Stelle 1)
> maxint (1)
FEHLER : unbekannt (Zeile 1, Stelle 1)
> f (1)
FEHLER : unbekannt (Zeile 1, Stelle 1)
> INT VAR f; f (1)
FEHLER : unbekannt (Zeile 1, Stelle 12)
> TRUE + 1
FEHLER : falscher Typ (Zeile 1, Stelle 1)
> 1 + TRUE
FEHLER : falscher Typ (Zeile 1, Stelle 1)
> put (1 FOO 2)
FEHLER : unbekannt (Zeile 1, Stelle 6)
> put (FOO 2)
FEHLER : unbekannt (Zeile 1, Stelle 6)
> put (1 AND 2)
FEHLER : falscher Typ (Zeile 1, Stelle 6)
> put (NOT 1)
FEHLER : falscher Typ (Zeile 1, Stelle 6)
> put (- TRUE)
FEHLER : falscher Typ (Zeile 1, Stelle 6)
> put (1 = TRUE)
FEHLER : falscher Typ (Zeile 1, Stelle 6)
> BOOL VAR b :: TRUE = FALSE; b := 1 < 2
> BOOL VAR b :: TRUE < FALSE
FEHLER : falscher Typ (Zeile 1, Stelle 15)
> INT CONST c :: 1; c := 2
FEHLER : keine Variable (Zeile 1, Stelle 19)
> INT CONST c :: 1; c INCR 1
FEHLER : keine Variable (Zeile 1, Stelle 19)
> INT VAR v; v INCR 2; v DECR TRUE
FEHLER : falscher Typ (Zeile 1, Stelle 22)
> 1 := 2
FEHLER : keine Variable (Zeile 1, Stelle 1)
> 1 INCR 2
FEHLER : keine Variable (Zeile 1, Stelle 1)
> INT VAR x; (x) := 1
FEHLER : keine Variable (Zeile 1, Stelle 12)
> INT VAR x; x + 1 := 2
FEHLER : keine Variable (Zeile 1, Stelle 12)
> INT VAR x :: TRUE
FEHLER : falscher Typ (Zeile 1, Stelle 9)
> BOOL VAR x :: 1, y :: TRUE, z :: 2
FEHLER : falscher Typ (Zeile 1, Stelle 10)
> INT VAR x :: line
FEHLER : falscher Typ (Zeile 1, Stelle 9)
> INT VAR x; x := TRUE
FEHLER : falscher Typ (Zeile 1, Stelle 12)
> INT VAR x; x := line
FEHLER : falscher Typ (Zeile 1, Stelle 12)
> INT VAR x; TRUE := x
FEHLER : falscher Typ (Zeile 1, Stelle 12)
> 1
FEHLER : falscher Typ (Zeile 1, Stelle 1)
> INT VAR x; x; put (x)
FEHLER : falscher Typ (Zeile 1, Stelle 12)
> put (1); 1;
FEHLER : falscher Typ (Zeile 1, Stelle 10)
> IF TRUE THEN 1 FI
FEHLER : falscher Typ (Zeile 1, Stelle 1)
> IF TRUE THEN 1 ELSE 2 FI
FEHLER : falscher Typ (Zeile 1, Stelle 1)
> put (IF TRUE THEN 1 ELSE 2 FI)
1 
> put (IF TRUE THEN 1 ELIF FALSE THEN 2 ELSE 3 FI)
1 
> put (IF TRUE THEN 1 ELIF FALSE THEN TRUE ELSE 3 FI)
FEHLER : falscher Typ (Zeile 1, Stelle 6)
> put (IF TRUE THEN 1 FI)
FEHLER : falscher Typ (Zeile 1, Stelle 6)
> put (IF TRUE THEN 1 ELIF FALSE THEN 2 FI)
FEHLER : falscher Typ (Zeile 1, Stelle 6)
> put (IF TRUE THEN 1 ELSE TRUE FI)
FEHLER : falscher Typ (Zeile 1, Stelle 6)
> put (IF TRUE THEN line ELSE line FI)
FEHLER : falscher Typ (Zeile 1, Stelle 1)
> IF TRUE THEN line ELSE 1 FI
FEHLER : falscher Typ (Zeile 1, Stelle 1)
> IF 1 THEN line FI
FEHLER : falscher Typ (Zeile 1, Stelle 1)
> IF TRUE THEN line ELIF 2 THEN line FI
FEHLER : falscher Typ (Zeile 1, Stelle 1)
> IF line THEN line FI
FEHLER : falscher Typ (Zeile 1, Stelle 1)
> IF TRUE THEN 1; line FI
FEHLER : falscher Typ (Zeile 1, Stelle 14)
> IF x THEN y FI
FEHLER : unbekannt (Zeile 1, Stelle 4)
> IF TRUE THEN ELSE FI
> SELECT 1 OF CASE 1: line END SELECT

> SELECT 1 OF CASE 1, 2: line CASE 3, 1: line END SELECT
FEHLER : doppelt (Zeile 1, Stelle 37)
> SELECT 1 OF CASE -1: line CASE 2, -1: line OTHERWISE line END SELECT
FEHLER : doppelt (Zeile 1, Stelle 35)
> SELECT TRUE OF CASE 1: line END SELECT
FEHLER : falscher Typ (Zeile 1, Stelle 1)
> put (SELECT 1 OF CASE 1: 2 OTHERWISE 3 END SELECT)
2 
> put (SELECT 1 OF CASE 1: 2 END SELECT)
FEHLER : falscher Typ (Zeile 1, Stelle 6)
> put (SELECT 1 OF CASE 1: 2 OTHERWISE TRUE END SELECT)
FEHLER : falscher Typ (Zeile 1, Stelle 6)
> put (SELECT 1 OF CASE 1: 2 CASE 2: line OTHERWISE 3 END SELECT)
FEHLER : falscher Typ (Zeile 1, Stelle 6)
> SELECT 1 OF CASE a: line END SELECT
FEHLER : unbekannt (Zeile 1, Stelle 18)
> INT VAR a; SELECT 1 OF CASE a: line END SELECT
FEHLER : falscher Typ (Zeile 1, Stelle 29)
> SELECT 1 OF CASE maxint: line END SELECT
FEHLER : falscher Typ (Zeile 1, Stelle 18)
> SELECT 1 OF CASE put: line END SELECT
FEHLER : unbekannt (Zeile 1, Stelle 18)
> SELECT line OF CASE 1: line END SELECT
FEHLER : falscher Typ (Zeile 1, Stelle 1)
> REP line UNTIL TRUE PER

> REP 1 UNTIL TRUE PER
FEHLER : falscher Typ (Zeile 1, Stelle 5)
> REP line UNTIL 1 PER
FEHLER : falscher Typ (Zeile 1, Stelle 1)
> WHILE 1 REP line PER
FEHLER : falscher Typ (Zeile 1, Stelle 1)
> WHILE FALSE REP line; 2 PER
FEHLER : falscher Typ (Zeile 1, Stelle 23)
> WHILE x REP y PER
FEHLER : unbekannt (Zeile 1, Stelle 7)
> INT VAR i; FOR i FROM 1 UPTO 3 REP put (i) PER
1 2 3 
> INT VAR i; FOR i FROM TRUE UPTO 3 REP put (i) PER
FEHLER : falscher Typ (Zeile 1, Stelle 12)
> INT VAR i; FOR i UPTO TRUE REP put (i) PER
FEHLER : falscher Typ (Zeile 1, Stelle 12)
> INT VAR i; FOR i DOWNTO 0 REP put (i) PER
1 0 
> FOR i FROM 1 UPTO 3 REP put (1) PER
FEHLER : unbekannt (Zeile 1, Stelle 5)
> INT CONST i :: 1; FOR i FROM 1 UPTO 3 REP put (i) PER
FEHLER : keine Variable (Zeile 1, Stelle 23)
> BOOL VAR i; FOR i FROM 1 UPTO 3 REP line PER
FEHLER : falscher Typ (Zeile 1, Stelle 13)
> FOR maxint FROM 1 UPTO 3 REP line PER
FEHLER : keine Variable (Zeile 1, Stelle 5)
> FOR line UPTO 3 REP line PER
FEHLER : falscher Typ (Zeile 1, Stelle 1)
> INT CONST i :: 1; FOR i WHILE 1 REP line PER
FEHLER : falscher Typ (Zeile 1, Stelle 19)
> INT CONST i :: 1; FOR i FROM TRUE REP line PER
FEHLER : falscher Typ (Zeile 1, Stelle 19)
> REP INT VAR x :: 1; put (x) UNTIL TRUE PER; put (x)
1 1 
> IF TRUE THEN INT VAR x FI; IF TRUE THEN INT VAR x FI
FEHLER : doppelt (Zeile 1, Stelle 49)
> put (1 CAND TRUE)
FEHLER : falscher Typ (Zeile 1, Stelle 6)
> BOOL VAR b :: TRUE CAND 1 = 1; b := b COR FALSE
> BOOL VAR b :: TRUE COR 1
FEHLER : falscher Typ (Zeile 1, Stelle 15)
> put ((1))
1 
> put ((line))
FEHLER : falscher Typ (Zeile 1, Stelle 1)
> (line); (1 + 2)
FEHLER : falscher Typ (Zeile 1, Stelle 9)
> put (min (1, 2)); put (max (1)); put (abs (- 1))
FEHLER : unbekannt (Zeile 1, Stelle 24)
> put (min (TRUE, 2))
FEHLER : falscher Typ (Zeile 1, Stelle 6)
> put (abs (1, 2))
FEHLER : unbekannt (Zeile 1, Stelle 6)
> INT VAR min; put (min); put (min (min, 2))
0 0 
> INT VAR maxint :: 3; put (maxint); INT VAR line; line := 1
3 
> INT VAR x :: x
> INT VAR x :: y; put (z)
FEHLER : unbekannt (Zeile 1, Stelle 14)
> put (u); INT VAR a, a
FEHLER : unbekannt (Zeile 1, Stelle 6)
> INT VAR a, a; put (u)
FEHLER : doppelt (Zeile 1, Stelle 12)
> INT VAR v, v :: TRUE
FEHLER : doppelt (Zeile 1, Stelle 12)
> put (1 + (2 * (3 DIV x)))
FEHLER : unbekannt (Zeile 1, Stelle 22)
> PROC p: END PROC p; p
> INT PROC f (INT CONST a): a + 1 END PROC f; put (f (2))
3 
> PROC p (INT VAR a): a := 3 END PROC p; INT VAR v; p (v)
> PROC p (INT VAR a): a := 3 END PROC p; p (1)
FEHLER : keine Variable (Zeile 1, Stelle 43)
> PROC p (INT VAR a): a := 3 END PROC p; p (TRUE)
FEHLER : falscher Typ (Zeile 1, Stelle 40)
> PROC p (INT VAR a): a := 3 END PROC p; p (1, 2)
FEHLER : unbekannt (Zeile 1, Stelle 40)
> PROC p (INT CONST a): a := 3 END PROC p
FEHLER : keine Variable (Zeile 1, Stelle 23)
> PROC p (INT CONST a, BOOL CONST a): END PROC p
FEHLER : doppelt (Zeile 1, Stelle 33)
> PROC p (INT CONST a): END PROC p; PROC p (INT CONST b): END PROC p
FEHLER : doppelt (Zeile 1, Stelle 40)
> PROC p (INT CONST a): END PROC p; PROC p (BOOL CONST b): END PROC p; p (1); p (TRUE)
> PROC p: END PROC p; INT VAR p
FEHLER : doppelt (Zeile 1, Stelle 29)
> INT VAR p; INT PROC p: END PROC p
FEHLER : doppelt (Zeile 1, Stelle 21)
> INT PROC f: END PROC f
FEHLER : falscher Typ (Zeile 1, Stelle 10)
> INT PROC f: put (1) END PROC f
FEHLER : falscher Typ (Zeile 1, Stelle 13)
> PROC f: 1 END PROC f
FEHLER : falscher Typ (Zeile 1, Stelle 9)
> INT PROC f: put (1); TRUE; END PROC f
FEHLER : falscher Typ (Zeile 1, Stelle 22)
> INT PROC f: LEAVE f WITH 3 END PROC f; put (f)
3 
> INT PROC f: LEAVE f END PROC f
FEHLER : falscher Typ (Zeile 1, Stelle 13)
> PROC f: LEAVE f WITH 1 END PROC f
FEHLER : falscher Typ (Zeile 1, Stelle 9)
> INT PROC f: LEAVE f WITH TRUE END PROC f
FEHLER : falscher Typ (Zeile 1, Stelle 13)
> PROC f: LEAVE g END PROC f
FEHLER : falsche Stelle (Zeile 1, Stelle 9)
> LEAVE f
FEHLER : falsche Stelle (Zeile 1, Stelle 1)
> PROC f: LEAVE F END PROC f
FEHLER : falsche Stelle (Zeile 1, Stelle 9)
> INT PROC f: IF TRUE THEN LEAVE f WITH 1 ELSE 2 FI END PROC f; put (f)
1 
> put (r). r: 3.
3 
> r; put (r). r: 3.
FEHLER : falscher Typ (Zeile 1, Stelle 1)
> put (r). r: put (1).
FEHLER : falscher Typ (Zeile 1, Stelle 1)
> r. r: LEAVE r.
> put (r). r: IF TRUE THEN LEAVE r WITH 3 ELSE 4 FI.
3 
> r. r: LEAVE r WITH 1.
FEHLER : falscher Typ (Zeile 1, Stelle 7)
> r. r: r.
FEHLER : falsche Stelle (Zeile 1, Stelle 7)
> a. a: b. b: a.
FEHLER : falsche Stelle (Zeile 1, Stelle 7)
> put (a). a: b. b: 3; a.
FEHLER : falsche Stelle (Zeile 1, Stelle 13)
> a. a: put (1); b. b: put (2).
1 2 
> put (r + TRUE). r: unknown; 3.
FEHLER : falscher Typ (Zeile 1, Stelle 6)
> put (r). r: unknown.
FEHLER : unbekannt (Zeile 1, Stelle 13)
> PROC p: r END PROC p. r: put (1).
FEHLER : unbekannt (Zeile 1, Stelle 9)
> PROC p: r. r: put (1) END PROC p; r
FEHLER : unbekannt (Zeile 1, Stelle 35)
> INT PROC p: r. r: LEAVE p WITH 3 END PROC p
FEHLER : falscher Typ (Zeile 1, Stelle 13)
> INT PROC p: r; 4. r: LEAVE p WITH 3 END PROC p; put (p)
3 
> r. r: 1. r: 2.
FEHLER : falscher Typ (Zeile 1, Stelle 1)
> put (r). r: FOR r REP PER; 1.
FEHLER : keine Variable (Zeile 1, Stelle 17)
> IF r THEN FI. r: FOR r REP PER; TRUE.
FEHLER : keine Variable (Zeile 1, Stelle 22)
> r. r: FOR s REP PER; line. s: FOR r REP PER; 3.
FEHLER : keine Variable (Zeile 1, Stelle 11)
> PROC put (INT CONST a): line END PROC put; put (1); put (TRUE)
FEHLER : falscher Typ (Zeile 1, Stelle 53)
> PROC p: put (x) END PROC p. x: 3; INT VAR x.
FEHLER : unbekannt (Zeile 1, Stelle 14)
> PROC p: v := 1; INT VAR v END PROC p; v := 2
FEHLER : unbekannt (Zeile 1, Stelle 39)
> put (r). r: IF s = 1 THEN 1 ELSE 2 FI. s: FOR r REP PER; 2.
FEHLER : keine Variable (Zeile 1, Stelle 47)
> INT VAR a; a := s; put (r). r: 1 + s. s: FOR r REP PER; 2.
FEHLER : keine Variable (Zeile 1, Stelle 46)
> put (r). r: s. s: FOR r REP PER.
FEHLER : keine Variable (Zeile 1, Stelle 23)
> INT VAR i; FOR i REP r PER. r: FOR r REP PER.
FEHLER : keine Variable (Zeile 1, Stelle 36)
> r. r: FOR r UPTO r REP PER.
FEHLER : keine Variable (Zeile 1, Stelle 11)
> FOR r REP x PER. r: TRUE.
FEHLER : keine Variable (Zeile 1, Stelle 5)
> FOR r REP PER. r: x.
FEHLER : keine Variable (Zeile 1, Stelle 5)
> FOR p REP PER; BOOL PROC p: TRUE END PROC p
FEHLER : falscher Typ (Zeile 1, Stelle 1)
> INT PROC f: r; TRUE. r: x END PROC f; put (f)
FEHLER : falscher Typ (Zeile 1, Stelle 16)
> PROC p: r; 1. r: x END PROC p; p
FEHLER : falscher Typ (Zeile 1, Stelle 12)
> BOOL OP X (INT CONST a): r; a. r: x END OP X
FEHLER : falscher Typ (Zeile 1, Stelle 29)
> r; 1. r: x.
FEHLER : falscher Typ (Zeile 1, Stelle 4)
> REP r; 1 PER. r: x.
FEHLER : falscher Typ (Zeile 1, Stelle 8)
> r; 1; line. r: x.
FEHLER : falscher Typ (Zeile 1, Stelle 4)
> put (TRUE AND r). r: s; 1. s: x.
FEHLER : falscher Typ (Zeile 1, Stelle 6)
> BOOL VAR a; r. r: IF a THEN LEAVE r ELIF 3 THEN FI.
FEHLER : falscher Typ (Zeile 1, Stelle 19)
> PROC p: r. r: p END PROC p; p
FEHLER : Stapelueberlauf
> INT PROC f: ;; END PROC f
FEHLER : falscher Typ (Zeile 1, Stelle 10)
> INT PROC f: ; 1;; END PROC f; put (f)
1 
> INT PROC f: TRUE;; END PROC f
FEHLER : falscher Typ (Zeile 1, Stelle 13)
> INT PROC f: x; line; END PROC f
FEHLER : unbekannt (Zeile 1, Stelle 13)
> PROC f: ;1; END PROC f
FEHLER : falscher Typ (Zeile 1, Stelle 10)
> TEXT VAR t
> put (\"a\")
a 
> INT VAR text
> put (code (1))
\"1\" 
> a CAT b
FEHLER : unbekannt (Zeile 1, Stelle 1)
> LET T = INT
> ROW 3 INT VAR a
> INT VAR a; a [1] := 2
FEHLER : falscher Typ (Zeile 1, Stelle 12)
> INT VAR a; a.f := 2
FEHLER : unbekannt (Zeile 1, Stelle 12)
> DATASPACE VAR d
> put (x); TEXT VAR t
FEHLER : unbekannt (Zeile 1, Stelle 6)
> INT VAR copy :: TRUE
FEHLER : falscher Typ (Zeile 1, Stelle 9)
> LENGTH 1
FEHLER : falscher Typ (Zeile 1, Stelle 1)
> INT VAR a; a := LENGTH 1; put (b)
FEHLER : falscher Typ (Zeile 1, Stelle 17)
> SELECT 1 OF CASE pos: line END SELECT
FEHLER : unbekannt (Zeile 1, Stelle 18)
> BOUND INT VAR b
> T VAR x
FEHLER : unbekannt (Zeile 1, Stelle 1)
> put (CONCR (1))
FEHLER : falscher Typ (Zeile 1, Stelle 6)
> begin
FEHLER : unbekannt (Zeile 1, Stelle 1)
> FOR type REP line PER
FEHLER : unbekannt (Zeile 1, Stelle 5)
> OP SUB (INT CONST a): END OP SUB
> INT OP + (INT CONST a, b): a * b END OP +; put (3 + 4)
12 
> OP X (INT CONST a): END OP X; X 3
> OP X (INT CONST a): END OP X; X TRUE
FEHLER : falscher Typ (Zeile 1, Stelle 31)
> OP X (INT CONST a): END OP X; 3 X 4
FEHLER : unbekannt (Zeile 1, Stelle 31)
> OP X (INT VAR a): a := 1 END OP X; X 3
FEHLER : keine Variable (Zeile 1, Stelle 38)
> OP X (INT CONST a): END OP X; OP X (INT CONST b): END OP X
FEHLER : doppelt (Zeile 1, Stelle 34)
> INT OP X (INT CONST a): LEAVE X WITH a + 1 END OP X; put (X 3)
4 
> OP := (INT VAR a, INT CONST b): END OP :=; INT VAR x; x := 3
> OP := (INT VAR a, INT CONST b): END OP :=; 1 := 3
FEHLER : keine Variable (Zeile 1, Stelle 44)
> OP := (INT CONST a, BOOL CONST b): END OP :=; 1 := TRUE
> INT OP := (INT CONST a, BOOL CONST b): 1 END OP :=; 1 := TRUE
FEHLER : falscher Typ (Zeile 1, Stelle 53)
> BOOL OP < (BOOL CONST a, b): b END OP <; IF TRUE < FALSE THEN line FI
";
