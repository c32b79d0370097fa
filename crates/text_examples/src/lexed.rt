//! The tokens of texts.

/// Texts, and behind the arrow their tokens, each with its place and its length, or what refuses them. A bar ends a
/// row, since a text may have several lines.
pub const TOKENS: &str = "
 => |
 \t\r\n => |
a b1 c => ab1c@1+6|
a  1 \nb => a1@1+4 b@7+1|
ab\tc\n d => ab@1+2 c@4+1 d@7+1|
a1B => a1@1+2 'B@3+1|
0a => 0@1+1 a@2+1|
END IF => End@1+3 If@5+2|
ENDIF => End@1+3 If@4+2|
ENDREP ENDREPEAT => End@1+3 Rep@4+3 End@8+3 Repeat@11+6|
ENDPROC => End@1+3 Proc@4+4|
ENDOP => End@1+3 Op@4+2|
ENDPACKET => End@1+3 Packet@4+6|
ENDSELECT => End@1+3 Select@4+6|
ENDFI => 'ENDFI@1+5|
ENDIFS => 'ENDIFS@1+6|
IFEND => 'IFEND@1+5|
END => End@1+3|
AENDIF => 'AENDIF@1+6|
TYPE TEXT DATASPACE OTHERWISE => TypeWord@1+4 Text@6+4 Dataspace@11+9 Otherwise@21+9|
DIV => 'DIV@1+3|
32767 => 32767@1+5|
32768 => NoToken(1)|
1 99999999999999999999 => NoToken(3)|
007 00000032767 => 7@1+3 32767@5+11|
00032768 => NoToken(1)|
-32767 => Minus@1+1 32767@2+5|
\"\" => \"\"@1+2|
\"a b\" => \"a b\"@1+5|
\"a\"\"b\" => \"a\"b\"@1+6|
\"a\"\"b\"65\"c\" => \"a\"bAc\"@1+11|
\"a\"0065\"\" => \"aA\"@1+9|
\"a\"65 b => \"a\"@1+3 65@4+2 b@7+1|
\"65\"66\"67\" => \"65B67\"@1+10|
\"\"\"\" => \"\"\"@1+4|
\"a => NoToken(1)|
 \"a\nb\" => NoToken(2)|
\"a\"256\" => NoToken(1)|
\"a\"256\"b\" => NoToken(1)|
\"a\"99999999999999999999\" => NoToken(1)|
\"a\"\" => NoToken(1)|
(* => NoToken(1)|
(*) => NoToken(1)|
(*)*)1 => 1@6+1|
a (* (* b *) *) c => a@1+1 c@17+1|
a (* (* b *) c => NoToken(3)|
(* } { *)1 => 1@10+1|
{ (* { *) } }1 => 1@14+1|
{\"}\"{1} => NoToken(4)|
} => NoToken(1)|
1*) => 1@1+1 Times@2+1 RightRound@3+1|
( *) => LeftRound@1+1 Times@3+1 RightRound@4+1|
:::== => DoubleColon@1+2 Becomes@3+2 Equal@5+1|
<>< =<=>=>: => Unequal@1+2 Less@3+1 Equal@5+1 LessEqual@6+2 GreaterEqual@8+2 Greater@10+1 Colon@11+1|
()[],;.+-* => LeftRound@1+1 RightRound@2+1 LeftSquare@3+1 RightSquare@4+1 Comma@5+1 \
Semicolon@6+1 Point@7+1 Plus@8+1 Minus@9+1 Times@10+1|
a! => NoToken(2)|
\u{7f} => NoToken(1)|
! \"a => NoToken(1)";

/// Texts in cells (`crate::rows`), and behind the last bar how many tokens each has, or what refuses it.
pub const MOST: &str = "\
8000*;| |8000
7999*;|ENDIF|TooMany
8001*;|TooMany
9000*;|!|NoToken(9001)";
