//! Where a text stops being one of the grammar.

/// Programs without a tree, each with `^` before the first token with which it cannot go on, or at its end.
pub const PROGRAMS: &str = "\
^
^)
put (1 +^)
put (1^
put (1 ^2)
INT VAR x ^= 5
IF 2 > 1 THEN put (2)^
(a.b^: c)
IF a THEN b. c^: d FI
REP x. y^: PER
f (a.b^: 1)
a [b.c^: 1]
SELECT a OF CASE 1: b.c^: d END SELECT
(a.^1)
x := (a.^)
IF a.^THEN b FI
IF - a.^THEN b FI
a.^1
a. b: c. d ^(e)
a. b: c.^1
PROC p: x. y: z END PROC ^q
PROC p (INT CONST a, ^1): END PROC p
OP < (INT CONST a^): END OP
INT OP NOT (INT CONST a, b^, c): END OP NOT
ROW 3 INT ^x
STRUCT (INT a, ^1) VAR x
BOUND INT ^CONST b
LET a = ^x
LET T = ^x
INT CONST c^
IF a THEN ^TYPE T = INT FI
a := b ^:= c
LEAVE ^(p)
FOR i FROM 1 UPTO 2 ^UPTO 3 REP PER
SELECT a OF ^OTHERWISE b END SELECT
REP x END ^IF
put (3.^5)
put (2 *^* 8)";

/// Packets without a tree.
pub const PACKETS: &str = "\
^
^x
PACKET p: x^
PACKET p: END PACKET ^q
PACKET p DEFINES ^(: END PACKET
PACKET p: x END PACKET p. ^r: 1
PACKET p: END PACKET p.^;
PACKET p: END PACKET; ^;";
