//! Trees are at most 400 deep.

/// Forms that nest, a row each, in cells (`crate::rows`).
pub const FORMS: &str = "\
*(|1|*)
*f (a, |1|*)
*CONCR (|a|*)
*- |a
*NOT |a
a|* + a
a|*.f
a|*[1]
*a [|1|*]
*IF a THEN |x|* FI
*IF a THEN x ELSE |x|* FI
*IF |a|* THEN x FI
*SELECT a OF CASE 1: |x|* END SELECT
*SELECT a OF CASE 1: x OTHERWISE |x|* END SELECT
*SELECT |a|* OF CASE 1: x END SELECT
*REP |x|* PER
*WHILE a REP |x|* PER
*FOR i FROM 1 UPTO 2 REP |x|* PER
-*IF a THEN |LEAVE p|-* FI
-*IF a THEN |a := b|-* FI
-*IF a THEN |INT VAR x|-* FI
-*IF a THEN |LET T = INT|-* FI
-*IF a THEN |BOUND INT VAR x|-* FI
-*ROW 1 |INT VAR x
-*STRUCT (|INT|-* a)| VAR x";

/// Texts in cells, and behind the last bar the place where the text is too deep, which is that of the token with which it
/// is, or behind it where the text could have gone on otherwise.
pub const PLACES: &str = "\
7999*;|tree
400*IF a THEN |(|4001
399*ROW 1 |ROW 1 INT VAR x|2395
399*ROW 1 |STRUCT (INT a) VAR x|2395
PROC p (|398*ROW 1 |ROW 1 INT CONST a): END PROC p|2397
400*IF a THEN |LET T = INT|4005
400*IF a THEN |BOUND INT VAR x|4001
400*IF a THEN |INT VAR x|4001
400*IF a THEN |x := 1|4003
a|401*.f|804
a|401*.f|: b|tree
(a|400*.f|)|801
a|401* + a|1603";
