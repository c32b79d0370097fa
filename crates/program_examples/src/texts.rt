//! Programs with texts.

/// Each with what it writes: denoters, variables, parameters and results; each operator and procedure with its corners; the stops of
/// texts, and where all texts have room; texts where no text can stand, and own operators on texts;
/// and `get` and `getline`, for which `line` has no terminal.
pub const TEXTS: &str = "\
> put (\"Hallo\")
Hallo 
> put (\"\")
 
> write (\"a\"); write (\"\"); write (\"b\")
ab
> putline (\"a\"); putline (\"\"); put (\"b\")
a

b 
> put (\"a\"\"b\"); put (\"\"65\"\"66\"\"); put (\"x\"10\"y\"9\"z\"127\"\")
a\"b AB x\"10\"y\"9\"z\"127\" 
> TEXT VAR t; put (t); t := \"x\"; put (t); t := \"\"; put (t)
 x  
> TEXT CONST t :: \"ab\", u :: t + t; put (u)
abab 
> TEXT VAR t :: \"a\"; TEXT VAR u :: t; t := \"b\"; put (t); put (u)
b a 
> PROC p (TEXT CONST a, TEXT VAR b): b := a + b END PROC p; TEXT VAR t :: \"x\"; p (\"ab\", t); p (t, t); put (t)
abxabx 
> TEXT PROC f (INT CONST n): IF n = 0 THEN \"\" ELSE f (n - 1) + text (n) FI END PROC f; put (f (12))
123456789101112 
> TEXT VAR t; r; put (t + s). r: t := \"r\". s: t + \"s\".
rrs 
> put (IF TRUE THEN \"a\" ELSE \"b\" FI); put (SELECT 2 OF CASE 1: \"x\" OTHERWISE \"y\" END SELECT)
a y 
> TEXT PROC f: LEAVE f WITH \"l\"; \"n\" END PROC f; put (f)
l 
> TEXT PROC f: REP LEAVE f WITH \"loop\" PER; \"\" END PROC f; put (f)
loop 
> TEXT PROC f: LEAVE f WITH \"a\"; LEAVE f WITH \"b\" END PROC f; put (f)
a 
> TEXT PROC f (TEXT CONST a, b): TEXT VAR c :: a; c CAT b; c END PROC f; put (f (\"a\", f (\"b\", \"c\")))
abc 
> INT PROC p (TEXT CONST a): 1 END PROC p; INT PROC p (INT CONST a): 2 END PROC p; put (p (\"\")); put (p (0))
1 2 
> put (\"a\" + \"b\"); put (\"\" + \"b\"); put (\"a\" + \"\"); put (\"\" + \"\")
ab b a  
> put (LENGTH (15999 * \"a\" + \"b\")); put (LENGTH (16000 * \"a\" + \"b\"))
16000 
FEHLER : Text zu lang
> put (3 * \"ab\"); put (0 * \"ab\"); put (-1 * \"ab\"); put (32767 * \"\"); put (LENGTH (16000 * \"a\"))
ababab    16000 
> put (LENGTH (16001 * \"a\"))
FEHLER : Text zu lang
> IF 8000 * \"ab\" = 4000 * \"abab\" THEN put (1) FI; put (8001 * \"ab\")
1 
FEHLER : Text zu lang
> TEXT VAR t; t CAT \"a\"; t CAT \"\"; t CAT t; t CAT \"b\"; put (t)
aab 
> TEXT VAR t :: 15999 * \"a\"; t CAT \"b\"; put (LENGTH t); t CAT \"c\"
16000 
FEHLER : Text zu lang
> PROC p (TEXT VAR t): t CAT \"x\" END PROC p; TEXT VAR t; INT VAR i; FOR i UPTO 10 REP p (t) PER; put (t)
xxxxxxxxxx 
> IF \"a\" = \"a\" THEN put (1) FI; IF \"a\" = \"b\" THEN put (2) FI; IF \"\" = \"\" THEN put (3) FI; IF \"a\" = \"ab\" THEN put (4) FI
1 3 
> IF \"a\" <> \"a\" THEN put (1) FI; IF \"a\" <> \"b\" THEN put (2) FI; IF \"\" <> \"a\" THEN put (3) FI
2 3 
> IF \"a\" < \"b\" THEN put (1) FI; IF \"a\" < \"ab\" THEN put (2) FI; IF \"ab\" < \"a\" THEN put (3) FI; IF \"\" < \"a\" THEN put (4) FI; IF \"a\" < \"a\" THEN put (5) FI
1 2 4 
> IF \"a\" <= \"b\" THEN put (1) FI; IF \"ab\" <= \"a\" THEN put (2) FI; IF \"a\" <= \"a\" THEN put (3) FI; IF \"b\" <= \"ab\" THEN put (4) FI
1 3 
> IF \"a\" > \"b\" THEN put (1) FI; IF \"ab\" > \"a\" THEN put (2) FI; IF \"a\" > \"a\" THEN put (3) FI; IF \"b\" > \"ab\" THEN put (4) FI
2 4 
> IF \"a\" >= \"b\" THEN put (1) FI; IF \"ab\" >= \"a\" THEN put (2) FI; IF \"a\" >= \"a\" THEN put (3) FI; IF \"a\" >= \"\" THEN put (4) FI
2 3 4 
> IF code (200) > \"z\" THEN put (1) FI; IF code (255) < code (128) THEN put (2) FI; IF code (0) > \"\" THEN put (3) FI; IF code (127) < code (128) THEN put (4) FI
1 3 4 
> put (\"abc\" SUB 1); put (\"abc\" SUB 3); put (\"abc\" SUB 4); put (\"abc\" SUB 0); put (\"abc\" SUB -1); put (\"\" SUB 1); put (\"abc\" SUB -32767)
a c      
> put (LENGTH \"\"); put (LENGTH \"abc\"); put (length (\"ab\")); put (length (16000 * \"x\"))
0 3 2 16000 
> put (pos (\"abcabc\", \"c\")); put (pos (\"abcabc\", \"ca\")); put (pos (\"abc\", \"x\")); put (pos (\"abc\", \"\")); put (pos (\"\", \"\")); put (pos (\"\", \"a\")); put (pos (\"a\", \"aa\")); put (pos (\"aab\", \"ab\"))
3 3 0 0 0 0 0 2 
> put (subtext (\"abcdef\", 2, 4)); put (subtext (\"abcdef\", 0, 2)); put (subtext (\"abcdef\", 5, 9)); put (subtext (\"abcdef\", 4, 2)); put (subtext (\"abcdef\", 7, 9)); put (subtext (\"abc\", -5, 32767))
bcd ab ef   abc 
> put (subtext (\"abcdef\", 3)); put (subtext (\"abcdef\", 7)); put (subtext (\"abcdef\", -3)); put (subtext (\"\", 1)); put (subtext (\"\", 1, 1)); put (subtext (\"abc\", 3))
cdef  abcdef   c 
> put (code (\"a\")); put (code (\"\")); put (code (\"ba\")); put (code (code (255))); put (code (code (0)))
97 -1 98 255 0 
> put (code (65)); put (code (0)); put (code (255) = code (255)); put (1)
FEHLER : falscher Typ (Zeile 1, Stelle 34)
> put (code (65)); write (code (10)); put (code (127)); put (code (31)); put (code (32))
A \"10\"\"127\" \"31\"   
> put (code (256))
FEHLER : falscher Code
> put (code (-1))
FEHLER : falscher Code
> put (text (0)); put (text (-5)); put (text (32767)); put (text (-32767 - 1)); put (text (1) + text (2))
0 -5 32767 -32768 12 
> put (int (\"12\")); put (int (\"-12\")); put (int (\"+12\")); put (int (\" 12 \")); put (int (\"\")); put (int (\"1 2\")); put (int (\"- 1\")); put (int (\"x\")); put (int (\"32767\")); put (int (\"32768\"))
12 -12 12 12 0 0 0 0 32767 0 
> put (int (\"-32768\")); put (int (\"-32769\")); put (int (\"0000012\")); put (int (\"+\")); put (int (\"--1\")); put (int (\" \"9\"7\"10\"\")); put (int (\"12a\")); put (int (\"99999999999\"))
-32768 0 12 0 0 7 0 0 
> errorstop (\"mein Fehler\"); put (1)
FEHLER : mein Fehler
> put (1); errorstop (\"\")
1 
FEHLER : 
> errorstop (\"a\"10\"b\")
FEHLER : a\"10\"b
> PROC p: errorstop (\"in p\") END PROC p; put (1); p; put (2)
1 
FEHLER : in p
> INT PROC f: errorstop (\"in f\"); 1 END PROC f; put (f)
FEHLER : in f
> errorstop (16001 * \"x\")
FEHLER : Text zu lang
> errorstop (1)
FEHLER : falscher Typ (Zeile 1, Stelle 1)
> PROC p (TEXT CONST t): p (t) END PROC p; p (16000 * \"a\")
FEHLER : Textspeicher voll
> TEXT VAR a :: 16000 * \"a\"; put (LENGTH (a + (a + (a + (a + \"\")))))
FEHLER : Text zu lang
> TEXT VAR a :: 16000 * \"a\"; PROC q (TEXT CONST b, c, d, e, f): END PROC q; q (a, a, a, a, a)
FEHLER : Operandenspeicher voll
> TEXT VAR a :: 16000 * \"a\", b :: a, c :: a, d :: a, e :: a, f :: a, g :: a; put (1); TEXT VAR h :: a
1 
FEHLER : Textspeicher voll
> TEXT VAR a :: 16000 * \"a\", b :: a, c :: a, d :: a, e :: a, f :: a, g :: a; put (1); g := \"\"; TEXT VAR h :: a; put (LENGTH h)
1 16000 
> TEXT VAR a :: 16000 * \"a\", b :: a, c :: a, d :: a, e :: a, f :: a, g :: a; put (LENGTH (a + \"\")); g := a + \"\"; TEXT VAR h :: 2576 * \"x\"; put (LENGTH h); h CAT \"y\"
16000 2576 
FEHLER : Textspeicher voll
> TEXT VAR a :: 16000 * \"a\"; PROC p (TEXT CONST t): put (LENGTH t) END PROC p; INT VAR i; FOR i UPTO 20 REP p (a) PER
16000 16000 16000 16000 16000 16000 16000 16000 16000 16000 16000 16000 16000 16000 16000 16000 16000 16000 16000 16000 
> TEXT VAR a :: 16000 * \"a\"; PROC p: TEXT VAR l :: a; put (LENGTH l) END PROC p; INT VAR i; FOR i UPTO 20 REP p PER
16000 16000 16000 16000 16000 16000 16000 16000 16000 16000 16000 16000 16000 16000 16000 16000 16000 16000 16000 16000 
> TEXT VAR a :: 16000 * \"a\"; PROC p (INT CONST n): TEXT VAR l :: a; IF n > 0 THEN p (n - 1) FI END PROC p; p (5); put (5); p (6)
5 
FEHLER : Textspeicher voll
> PROC p (INT CONST n): TEXT VAR l; r. r: IF n > 0 THEN l := \"x\"; LEAVE p ELSE l := \"y\" FI. END PROC p; p (1); p (0); put (1)
1 
> TEXT VAR t; INT VAR i; FOR i UPTO 32767 REP t CAT \"abcdefgh\" PER
FEHLER : Text zu lang
> TEXT VAR t :: 1
FEHLER : falscher Typ (Zeile 1, Stelle 10)
> INT VAR i :: \"a\"
FEHLER : falscher Typ (Zeile 1, Stelle 9)
> TEXT VAR t; t := 1
FEHLER : falscher Typ (Zeile 1, Stelle 13)
> put (\"a\" + 1)
FEHLER : falscher Typ (Zeile 1, Stelle 6)
> put (1 + \"a\")
FEHLER : falscher Typ (Zeile 1, Stelle 6)
> put (\"a\" * 2)
FEHLER : falscher Typ (Zeile 1, Stelle 6)
> TEXT VAR t; t INCR \"a\"
FEHLER : falscher Typ (Zeile 1, Stelle 13)
> INT VAR i; i CAT \"a\"
FEHLER : falscher Typ (Zeile 1, Stelle 12)
> \"a\" CAT \"b\"
FEHLER : keine Variable (Zeile 1, Stelle 1)
> TEXT CONST c :: \"a\"; c CAT \"b\"
FEHLER : keine Variable (Zeile 1, Stelle 22)
> PROC p (TEXT VAR t): END PROC p; p (\"a\")
FEHLER : keine Variable (Zeile 1, Stelle 37)
> IF \"a\" THEN put (1) FI
FEHLER : falscher Typ (Zeile 1, Stelle 1)
> put (LENGTH 1)
FEHLER : falscher Typ (Zeile 1, Stelle 6)
> put (subtext (\"a\"))
FEHLER : unbekannt (Zeile 1, Stelle 6)
> put (code (TRUE))
FEHLER : falscher Typ (Zeile 1, Stelle 6)
> write (1)
FEHLER : falscher Typ (Zeile 1, Stelle 1)
> TEXT PROC f: 1 END PROC f; put (f)
FEHLER : falscher Typ (Zeile 1, Stelle 14)
> PROC write (INT CONST i): put (i) END PROC write; write (1); write (\"a\")
1 a
> TEXT OP + (TEXT CONST a, INT CONST b): a + text (b) END OP +; put (\"a\" + 1 + 2)
a12 
> OP CAT (INT VAR a, INT CONST b): a := 10 * a + b END OP CAT; INT VAR i; i CAT 1; i CAT 2; put (i)
12 
> BOOL OP = (TEXT CONST a, INT CONST b): int (a) = b END OP =; IF \"12\" = 12 THEN put (\"gleich\") FI
gleich 
> TEXT VAR t; FOR t UPTO 3 REP PER
FEHLER : falscher Typ (Zeile 1, Stelle 13)
> SELECT \"a\" OF CASE 1: END SELECT
FEHLER : falscher Typ (Zeile 1, Stelle 1)
> put ((\"a\")); put ((\"a\" + (\"b\")) + \"c\")
a abc 
> TEXT VAR t; getline (t); put (t)
FEHLER : nur in einer Sitzung
> put (1); TEXT VAR t; get (t); put (2)
1 
FEHLER : nur in einer Sitzung
> write (\"a\"); INT VAR i; get (i); put (i)
a
FEHLER : nur in einer Sitzung
> PROC p (TEXT VAR t): getline (t) END PROC p; TEXT VAR t; putline (\"?\"); p (t)
?
FEHLER : nur in einer Sitzung
> INT VAR i; FOR i UPTO 3 REP put (i); IF i = 2 THEN get (i) FI PER
1 2 
FEHLER : nur in einer Sitzung
> getline (\"a\")
FEHLER : keine Variable (Zeile 1, Stelle 10)
> get (1)
FEHLER : keine Variable (Zeile 1, Stelle 6)
> TEXT CONST c :: \"a\"; get (c)
FEHLER : keine Variable (Zeile 1, Stelle 27)
> INT CONST c :: 1; get (c)
FEHLER : keine Variable (Zeile 1, Stelle 24)
> PROC p (INT CONST n): get (n) END PROC p; p (1)
FEHLER : keine Variable (Zeile 1, Stelle 28)
> BOOL VAR b; get (b)
FEHLER : falscher Typ (Zeile 1, Stelle 13)
> INT VAR i; getline (i)
FEHLER : falscher Typ (Zeile 1, Stelle 12)
> get
FEHLER : unbekannt (Zeile 1, Stelle 1)
> getline
FEHLER : unbekannt (Zeile 1, Stelle 1)
> TEXT VAR t, u; getline (t, u)
FEHLER : unbekannt (Zeile 1, Stelle 16)
> TEXT VAR t; put (getline (t))
FEHLER : falscher Typ (Zeile 1, Stelle 13)
> TEXT VAR t; t := getline (t)
FEHLER : falscher Typ (Zeile 1, Stelle 13)
> PROC get (BOOL VAR b): b := TRUE END PROC get; BOOL VAR b; get (b); IF b THEN put (1) FI
1 
> PROC getline (TEXT VAR t): t := \"own\" END PROC getline; TEXT VAR t; getline (t); put (t)
own 
> INT VAR get :: 7; put (get)
7 
> TEXT VAR getline :: \"x\"; put (getline)
x 
> TEXT VAR get; get (get)
FEHLER : nur in einer Sitzung
> REP TEXT VAR t; getline (t) PER
FEHLER : nur in einer Sitzung
";
