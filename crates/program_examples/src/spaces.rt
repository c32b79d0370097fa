//! Data spaces in programs.

/// Texts with data spaces, and behind each what it writes, or at which place and for which reason it is refused: DATASPACE and BOUND
/// variables, the calls on data spaces and their names, where DATASPACE may stand, what is bound and what is stored, own operators beside
/// it, and the operands of messages. A text that has a meaning and puts nothing writes nothing.
pub const SPACES: &str = "\
> DATASPACE VAR d; put (type (d))
FEHLER : Datenraum existiert nicht
> DATASPACE VAR d :: nilspace; put (type (d)); type (d, 7); put (type (d)); forget (d); put (type (d))
0 7 
FEHLER : Datenraum existiert nicht
> DATASPACE VAR d :: nilspace, e :: d; type (e, 3); put (type (d)); put (type (e)); d := e; put (type (d))
0 3 3 
> DATASPACE CONST c :: nilspace; put (type (c))
0 
> BOUND INT VAR b :: nilspace
FEHLER : Datenraum existiert nicht
> DATASPACE VAR d :: nilspace; BOUND INT VAR b :: d; b := 4; put (b); b INCR 2; put (b)
4 6 
> DATASPACE VAR d :: nilspace; BOUND ROW 3 INT VAR b; b := d; b [2] := 5; put (b [2]); put (b [4])
5 
FEHLER : Index ausserhalb
> DATASPACE VAR d :: nilspace; BOUND INT VAR b :: d; BOUND TEXT VAR t :: d
FEHLER : falscher Datenraumtyp
> DATASPACE VAR d :: nilspace; BOUND INT VAR b :: d, c :: d; b := 7; put (c); c := b + 1; put (b)
7 8 
> DATASPACE VAR d :: nilspace; BOUND INT VAR b :: 3
FEHLER : Datenraum existiert nicht
> DATASPACE VAR d :: nilspace; BOUND INT VAR b; (b) := d
FEHLER : falscher Typ (Zeile 1, Stelle 47)
> TYPE T = INT; DATASPACE VAR d :: nilspace; BOUND T VAR b; CONCR (b) := d
FEHLER : falscher Typ (Zeile 1, Stelle 59)
> TYPE T = INT; DATASPACE VAR d :: nilspace; BOUND T VAR b; b := d; CONCR (b) := 3; put (CONCR (b))
3 
> TYPE T = INT; OP := (T VAR a, DATASPACE CONST d): put (9) END OP :=; BOUND T VAR b; b := nilspace
FEHLER : Datenraum existiert nicht
> TYPE T = INT; OP := (T VAR a, DATASPACE CONST d): put (9) END OP :=; T VAR b; b := nilspace
9 
> OP := (DATASPACE VAR a, DATASPACE CONST d): put (9) END OP :=; DATASPACE VAR b; b := nilspace; DATASPACE VAR c :: b
9 
FEHLER : Datenraum existiert nicht
> OP := (X VAR a, DATASPACE CONST d): END OP :=; INT PROC f: BOUND INT VAR b; b := nilspace END PROC f; put (1)
FEHLER : unbekannt (Zeile 1, Stelle 8)
> INT PROC f: BOUND INT VAR b; b := nilspace END PROC f; OP := (X VAR a, DATASPACE CONST d): END OP :=; put (1)
FEHLER : falscher Typ (Zeile 1, Stelle 30)
> ROW 2 DATASPACE VAR a
FEHLER : falsche Stelle (Zeile 1, Stelle 7)
> STRUCT (INT a, DATASPACE b) VAR s
FEHLER : falsche Stelle (Zeile 1, Stelle 16)
> LET D = DATASPACE; D VAR d
FEHLER : falsche Stelle (Zeile 1, Stelle 9)
> TYPE D = DATASPACE; D VAR d
FEHLER : falsche Stelle (Zeile 1, Stelle 10)
> BOUND DATASPACE VAR d; d := nilspace
FEHLER : falsche Stelle (Zeile 1, Stelle 7)
> BOUND ROW 2 DATASPACE VAR d
FEHLER : falsche Stelle (Zeile 1, Stelle 13)
> BOUND X VAR d; d := nilspace; put (d)
FEHLER : unbekannt (Zeile 1, Stelle 7)
> BOUND INT VAR d, d
FEHLER : doppelt (Zeile 1, Stelle 18)
> DATASPACE VAR d, e; IF d = e THEN put (1) FI
FEHLER : falscher Typ (Zeile 1, Stelle 24)
> DATASPACE VAR d; d := 3
FEHLER : falscher Typ (Zeile 1, Stelle 18)
> DATASPACE VAR d; INT VAR i :: d
FEHLER : falscher Typ (Zeile 1, Stelle 26)
> PROC p (DATASPACE CONST d): put (type (d)) END PROC p; p (nilspace)
0 
> PROC p (DATASPACE VAR d): d := nilspace END PROC p; DATASPACE VAR e; p (e); put (type (e))
0 
> DATASPACE PROC f: DATASPACE VAR d :: nilspace; type (d, 4); d END PROC f; put (type (f))
4 
> PROC p (INT VAR i): i INCR 1 END PROC p; BOUND INT VAR b :: new (\"x\"); p (b); p (b); put (b); BOUND INT VAR c :: old (\"x\"); put (c)
2 2 
> BOUND INT VAR i :: new (\"i\"); FOR i UPTO 3 REP put (i) PER; put (i)
1 2 3 3 
> put (exists (\"a\")); DATASPACE VAR d; d := new (\"a\"); IF exists (\"a\") THEN put (1) FI
FEHLER : falscher Typ (Zeile 1, Stelle 1)
> IF exists (\"a\") THEN put (1) FI; DATASPACE VAR d; d := new (\"a\"); IF exists (\"a\") THEN put (2) FI; rename (\"a\", \"b\"); copy (\"b\", \"c\"); forget (\"b\"); IF exists (\"c\") THEN put (3) FI; put (type (old (\"b\")))
2 3 
FEHLER : Datenraum gibt es nicht
> new (\"a\")
FEHLER : falscher Typ (Zeile 1, Stelle 1)
> type (3)
FEHLER : falscher Typ (Zeile 1, Stelle 1)
> type (nilspace, 3)
FEHLER : Datenraum existiert nicht
> forget (3)
FEHLER : falscher Typ (Zeile 1, Stelle 1)
> rename (\"a\")
FEHLER : unbekannt (Zeile 1, Stelle 1)
> send (niltask, 1, d, i)
FEHLER : unbekannt (Zeile 1, Stelle 19)
> INT VAR send
> INT VAR send :: 3, wait; put (send + wait)
3 
> LET call = 3; put (call)
3 
> PROC wait: put (1) END PROC wait; wait
1 
> DATASPACE VAR d; INT VAR i; put (1); send (niltask, 1, d, i); put (2)
1 
FEHLER : nur in einer Sitzung
> DATASPACE VAR d; INT VAR i; call (niltask, 1, d, i)
FEHLER : nur in einer Sitzung
> DATASPACE VAR d; INT VAR i; TASK VAR t; wait (d, i, t)
FEHLER : nur in einer Sitzung
> DATASPACE VAR d; INT VAR i; send (niltask, 1, nilspace, i)
FEHLER : keine Variable (Zeile 1, Stelle 47)
> DATASPACE CONST d :: nilspace; INT VAR i; send (niltask, 1, d, i)
FEHLER : keine Variable (Zeile 1, Stelle 61)
> DATASPACE VAR d; send (niltask, 1, d, 3)
FEHLER : keine Variable (Zeile 1, Stelle 39)
> DATASPACE VAR d; INT CONST i :: 1; call (niltask, 1, d, i)
FEHLER : keine Variable (Zeile 1, Stelle 57)
> DATASPACE VAR d; INT VAR i; wait (d, i, niltask)
FEHLER : keine Variable (Zeile 1, Stelle 41)
> DATASPACE VAR d; INT VAR i; TASK VAR t; wait (d, t, i)
FEHLER : falscher Typ (Zeile 1, Stelle 41)
> DATASPACE VAR d; INT VAR i; send (1, niltask, d, i)
FEHLER : falscher Typ (Zeile 1, Stelle 29)
> DATASPACE VAR d; INT VAR i; send (niltask, 1, d)
FEHLER : unbekannt (Zeile 1, Stelle 29)
> DATASPACE VAR d; INT VAR i; put (send (niltask, 1, d, i))
FEHLER : falscher Typ (Zeile 1, Stelle 29)
> DATASPACE VAR d; INT VAR i; send (niltask, PROC p, d, i). p: put (1).
FEHLER : falsche Stelle (Zeile 1, Stelle 44)
> BOUND INT VAR b; INT VAR i; send (niltask, 1, b, i)
FEHLER : falscher Typ (Zeile 1, Stelle 29)
> BOUND INT VAR b :: nilspace; DATASPACE VAR d; send (niltask, 1, d, b)
FEHLER : Datenraum existiert nicht
> BOUND INT VAR b :: new (\"b\"); DATASPACE VAR d; send (niltask, 1, d, b)
FEHLER : nur in einer Sitzung
> ROW 2 INT VAR r; DATASPACE VAR d; INT PROC f: put (1); 3 END PROC f; send (niltask, f, d, r [3])
1 
FEHLER : Index ausserhalb
> PROC send (INT CONST a): put (a) END PROC send; send (2); DATASPACE VAR d; INT VAR i; send (niltask, 1, d, i)
2 
FEHLER : nur in einer Sitzung
> PROC send (TASK CONST t, INT CONST a, DATASPACE VAR d, INT VAR r): r := a END PROC send; DATASPACE VAR d; INT VAR i; send (niltask, 5, d, i); put (i)
5 
> BOUND TEXT VAR t :: new (\"t\"); t := \"abc\"; t CAT \"d\"; put (t); put (LENGTH t)
abcd 4 
> PACKET p DEFINES b: BOUND INT VAR b END PACKET p
FEHLER : kein ELAN-Text (Zeile 1, Stelle 1)
> BOUND TASK VAR t :: new (\"t\"); IF t = niltask THEN put (1) FI
1 
> LET b = 3; BOUND INT VAR b
FEHLER : doppelt (Zeile 1, Stelle 26)
> BOUND INT VAR b; ROW b INT VAR a
FEHLER : falscher Typ (Zeile 1, Stelle 22)
> BOUND INT VAR b; put (b)
FEHLER : Datenraum existiert nicht
> BOUND INT VAR b :: nilspace :: nilspace
FEHLER : kein ELAN-Text (Zeile 1, Stelle 29)
> BOUND INT VAR b; b := b
FEHLER : Datenraum existiert nicht
> DATASPACE VAR d :: nilspace; BOUND INT VAR b :: d; DATASPACE VAR e :: b
FEHLER : falscher Typ (Zeile 1, Stelle 66)
> BOUND INT VAR b; DATASPACE VAR d; d := b
FEHLER : falscher Typ (Zeile 1, Stelle 35)
> BOUND STRUCT (INT x, TEXT t) VAR s :: new (\"s\"); s.x := 3; s.t := \"q\"; put (s.t); put (s.x)
q 3 
> nilspace
FEHLER : falscher Typ (Zeile 1, Stelle 1)
> put (nilspace)
FEHLER : falscher Typ (Zeile 1, Stelle 1)
> DATASPACE VAR d :: nilspace; d := d; put (type (d))
0 
> INT VAR type; type := 3; put (type)
3 
> INT PROC type (DATASPACE CONST d): 9 END PROC type; put (type (nilspace))
9 
> BOOL VAR new :: TRUE; IF new THEN put (1) FI
1 
> BOUND INT CONST b :: nilspace
FEHLER : kein ELAN-Text (Zeile 1, Stelle 11)
> PROC p (BOUND INT VAR b): END PROC p; put (1)
FEHLER : kein ELAN-Text (Zeile 1, Stelle 9)
> BOUND ROW 129 ROW 128 INT VAR a
FEHLER : zu gross (Zeile 1, Stelle 7)
";

/// Each call on data spaces and their names with each of its stops.
pub const SPACE_STOPS: &str = "\
> DATASPACE VAR d := new (\"\")
FEHLER : falscher Name
> DATASPACE VAR d := new (61 * \"a\")
FEHLER : falscher Name
> DATASPACE VAR d := new (60 * \"a\"); IF exists (60 * \"a\") THEN put (1) FI
1 
> DATASPACE VAR d := new (\"a\"); d := new (\"a\")
FEHLER : Datenraum existiert schon
> INT VAR i; FOR i UPTO 16 REP BOUND INT VAR b :: new (text (i)) PER; put (1); BOUND INT VAR c :: new (\"1\")
1 
FEHLER : Datenraum existiert schon
> INT VAR i; FOR i UPTO 16 REP BOUND INT VAR b :: new (text (i)) PER; put (1); BOUND INT VAR c :: new (\"17\")
1 
FEHLER : zu viele Datenraeume
> INT VAR i; FOR i UPTO 15 REP BOUND INT VAR b :: new (text (i)) PER; put (1); DATASPACE VAR d :: nilspace; put (2); DATASPACE VAR e :: d
1 2 
FEHLER : zu viele Datenraeume
> INT VAR i; FOR i UPTO 15 REP BOUND INT VAR b :: new (text (i)) PER; DATASPACE VAR d; put (1); DATASPACE VAR e :: d
1 
FEHLER : Datenraum existiert nicht
> INT VAR i; FOR i UPTO 16 REP BOUND INT VAR b :: new (text (i)) PER; DATASPACE VAR d; put (1); d := nilspace
1 
FEHLER : zu viele Datenraeume
> INT VAR i; FOR i UPTO 16 REP BOUND INT VAR b :: new (text (i)) PER; put (type (old (\"3\"))); DATASPACE VAR d; put (type (d))
0 
FEHLER : Datenraum existiert nicht
> put (type (nilspace)); type (nilspace, 1)
0 
FEHLER : Datenraum existiert nicht
> DATASPACE VAR d :: nilspace; type (d, 32767); put (type (d)); type (d, -7); put (type (d)); forget (d); type (d, 1)
32767 -7 
FEHLER : Datenraum existiert nicht
> DATASPACE VAR d; forget (d); forget (nilspace); d := nilspace; forget (d); forget (d); put (1); put (type (d))
1 
FEHLER : Datenraum existiert nicht
> DATASPACE VAR d; DATASPACE VAR e :: d
FEHLER : Datenraum existiert nicht
> BOUND INT VAR b; DATASPACE VAR d; b := d
FEHLER : Datenraum existiert nicht
> DATASPACE VAR d :: nilspace; BOUND INT VAR b :: d; BOUND INT VAR c :: d; c := 3; put (b); BOUND ROW 1 INT VAR r :: d
3 
FEHLER : falscher Datenraumtyp
> BOUND ROW 2 INT VAR r :: new (\"r\"); r [1] := 1; BOUND STRUCT (INT a, b) VAR s :: old (\"r\")
FEHLER : falscher Datenraumtyp
> BOUND INT VAR b :: new (\"b\"); b := 5; forget (\"b\"); IF NOT exists (\"b\") THEN put (1) FI; put (b)
1 
FEHLER : Datenraum existiert nicht
> put (type (old (\"a\")))
FEHLER : Datenraum gibt es nicht
> forget (\"a\")
FEHLER : Datenraum gibt es nicht
> forget (\"\")
FEHLER : Datenraum gibt es nicht
> rename (\"a\", \"b\")
FEHLER : Datenraum gibt es nicht
> BOUND INT VAR b :: new (\"a\"); b := 2; rename (\"a\", \"\")
FEHLER : falscher Name
> BOUND INT VAR b :: new (\"a\"); rename (\"a\", \"a\")
FEHLER : Datenraum existiert schon
> BOUND INT VAR b :: new (\"a\"); BOUND INT VAR c :: new (\"b\"); rename (\"a\", \"b\")
FEHLER : Datenraum existiert schon
> BOUND INT VAR b :: new (\"a\"); b := 2; rename (\"a\", \"c\"); BOUND INT VAR c :: old (\"c\"); c := 3; put (b); rename (\"a\", \"d\")
3 
FEHLER : Datenraum gibt es nicht
> copy (\"a\", \"b\")
FEHLER : Datenraum gibt es nicht
> BOUND INT VAR b :: new (\"a\"); copy (\"a\", \"\")
FEHLER : falscher Name
> BOUND INT VAR b :: new (\"a\"); copy (\"a\", \"a\")
FEHLER : Datenraum existiert schon
> INT VAR i; FOR i UPTO 16 REP BOUND INT VAR b :: new (text (i)) PER; put (1); copy (\"1\", \"2\")
1 
FEHLER : Datenraum existiert schon
> INT VAR i; FOR i UPTO 16 REP BOUND INT VAR b :: new (text (i)) PER; put (1); copy (\"1\", \"17\")
1 
FEHLER : zu viele Datenraeume
> BOUND INT VAR b :: new (\"a\"); b := 2; copy (\"a\", \"c\"); BOUND INT VAR c :: old (\"c\"); put (c); c := 3; put (b); copy (\"b\", \"\")
2 2 
FEHLER : Datenraum gibt es nicht
> DATASPACE VAR d :: nilspace; PROC p (DATASPACE CONST e): forget (d); put (type (e)) END PROC p; p (d)
FEHLER : Datenraum existiert nicht
> BOUND ROW 2 TEXT VAR t :: new (\"t\"); t [2] := \"x\"; PROC p (TEXT VAR s): forget (\"t\"); s CAT \"y\" END PROC p; put (t [2]); p (t [2])
x 
FEHLER : Datenraum existiert nicht
";
