//! How operators are written.

ghost use Rattle.std.specs.Prelude.{◌≡◌};
ghost use Rattle.elan_walk.specs.Operators as spec;

use elan_tree::{Operator, Sign};

// How a sign is written that is an operator; the others are none.
fn sign_text(sign: Sign) -> &'static [u8]
    ensures { result.now ≡ spec.sign_text sign }
{
    match sign {
        Sign::Plus => b"+",
        Sign::Minus => b"-",
        Sign::Times => b"*",
        Sign::Equal => b"=",
        Sign::Unequal => b"<>",
        Sign::Less => b"<",
        Sign::LessEqual => b"<=",
        Sign::Greater => b">",
        Sign::GreaterEqual => b">=",
        Sign::Becomes => b":=",
        _ => b"",
    }
}

/// How an operator is written.
pub fn operator_text(operator: &Operator) -> &[u8]
    ensures { result.now ≡ spec.operator_text operator.now }
{
    match operator {
        Operator::Sign(sign) => sign_text(*sign),
        Operator::Named(name) => name.as_slice(),
    }
}
