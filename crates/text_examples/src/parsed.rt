//! Which texts have trees.

/// Programs that have a tree, a line each.
pub const PROGRAMS: &str = "\
;
.
x
x ; ; y .
put ( 1 + 2 )
put ( PROC p , 2 )
IF a THEN b ELIF c THEN d ELSE e FI
IF a THEN b END IF
REP x PER
REP x END REPEAT
REPEAT x END REP
FOR i FROM 1 UPTO 9 WHILE b REP x UNTIL c PER
SELECT x OF CASE 1 , - 2 , c : y CASE 3 : OTHERWISE z END SELECT
SELECT x OF CASE 1 : OTHERWISE : z END SELECT
x . y : 1
x . y : 1 . z : 2 .
x . f . y : 1
x . y : 1 . z
INT VAR a , b :: 1 ; INT CONST c := 2
T VAR x
T x
BOUND INT VAR b
ROW 3 STRUCT ( INT a , b , TEXT c ) VAR x
LET a = - 1 , T = INT
TYPE T = INT
PROC p : END PROC
PROC p ( INT CONST a , b , T VAR c ) : x . y : z END PROC p ; p
INT PROC p : 1 END PROC p
OP + ( INT CONST a ) : END OP +
OP < ( INT CONST a , b ) : END OP
OP * ( INT CONST a , T CONST b ) : END OP
OP AND ( INT CONST a ) : END OP AND
a := b
LEAVE p WITH 1
NOT a AND - b CAND c
a [ 1 ] . f [ 2 ] := CONCR ( b )";

/// Texts that are no program; the last is empty.
pub const NO_PROGRAMS: &str = "\
put ( 1 + )
PROC p
IF a THEN b PER
REP x END IF
FOR i WHILE b DOWNTO 9 REP x PER
SELECT x OF OTHERWISE z END SELECT
x . f : = 1
( x . f : 1 )
x . y : INT VAR a . z
INT CONST c
T CONST x
BOUND INT CONST b :: 1
STRUCT ( INT a , 1 ) VAR x
LET a = x
IF a THEN TYPE T = INT FI
PROC p : END PROC q
OP + ( INT CONST a ) : END OP -
OP < ( INT CONST a ) : END OP
INT OP NOT ( INT CONST a , b , c ) : END OP
a := b := c
LEAVE ( p )
< a
PACKET p : END PACKET
";

/// Packets that have a tree.
pub const PACKETS: &str = "\
PACKET p : END PACKET
PACKET p DEFINES a , T , + : x END PACKET p .
PACKET p : x . y : 1 . END PACKET ;";

/// Texts that are no packet.
pub const NO_PACKETS: &str = "\
PACKET p : END PACKET q
PACKET p DEFINES ( : END PACKET
x
PACKET p : END PACKET ; ;";

/// Programs of one unit, and behind the arrow how their operators hold, or the place where one is refused.
pub const GROUPED: &str = "\
a => a
a - b - c => {{a Minus b} Minus c}
a - (b - c) => {a Minus <{b Minus c}>}
a + b * c - d => {{a Plus {b Times c}} Minus d}
a DIV b * c MOD d => {{{a DIV b} Times c} MOD d}
a = b <> c => {{a Equal b} Unequal c}
a < b + c AND d => {{a Less {b Plus c}} AND d}
a OR b AND c CAND d => {a OR {{b AND c} CAND d}}
a COR b OR c CAND d => {{a COR b} OR {c CAND d}}
a X b OR c Y d => {{a X {b OR c}} Y d}
- a * - b => {{Minus a} Times {Minus b}}
NOT a = b => {{NOT a} Equal b}
NOT NOT a => {NOT {NOT a}}
a NOT b => {a NOT b}
a NOT NOT b => {a NOT {NOT b}}
- 32767 - 1 => {{Minus 32767} Minus 1}
a [i] [j + 1] => {{a at i} at {j Plus 1}}
a.f [1].g => {{{a.f} at 1}.g}
- a.f => {Minus {a.f}}
f (a, b + 1, g (c)) => f a {b Plus 1} g c
f (a).g => {f a.g}
a [1] := b := c => 12
a.f := IF b THEN c FI => {{a.f} := IF b THEN c; FI}
IF a THEN IF b THEN c ELSE d FI ELIF e THEN f; FI => IF a THEN IF b THEN c; ELSE d; FI; IF e THEN f;; FI";
