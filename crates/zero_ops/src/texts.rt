//! Operations on texts.
ghost use Rattle.eu_base.specs.Operations.{text_result_of};
ghost use Rattle.zero_ops.specs.Given.{Gives};

use crate::convert::{code_of, number_in, text_of_code, text_of_number};
use crate::error::OpError;
use crate::join::{joined, repeated};
use crate::limit::counted;
use crate::order::is_less;
use crate::part::{subtext, subtext_from};
use crate::search::first_place;
use eu_base::{TextOperation, Value, number_at, text_at};
use std::alloc::Global;

/// The result of an operation on texts.
pub fn on_texts(
    alloc: Global,
    operation: TextOperation,
    operands: &[Value],
) -> Result<Value, OpError>
    ensures { Gives result (text_result_of operation operands.now) }
{
    let s = text_at(operands, 0);
    let t = text_at(operands, 1);
    let first = number_at(operands, 0);
    let second = number_at(operands, 1);
    match operation {
        TextOperation::Join => joined(alloc, s, t),
        TextOperation::Repeat => repeated(alloc, first, t),
        TextOperation::Equal => Ok(Value::Truth(s == t)),
        TextOperation::Unequal => Ok(Value::Truth(s != t)),
        TextOperation::Less => Ok(Value::Truth(is_less(s, t))),
        TextOperation::LessEqual => Ok(Value::Truth(!is_less(t, s))),
        TextOperation::Greater => Ok(Value::Truth(is_less(t, s))),
        TextOperation::GreaterEqual => Ok(Value::Truth(!is_less(s, t))),
        TextOperation::ByteAt => subtext(alloc, s, second, second),
        TextOperation::Length => counted(s.len()),
        TextOperation::PlaceOf => counted(first_place(s, t)),
        TextOperation::Subtext => subtext(alloc, s, second, number_at(operands, 2)),
        TextOperation::SubtextFrom => subtext_from(alloc, s, second),
        TextOperation::CodeOf => Ok(code_of(s)),
        TextOperation::TextOfCode => text_of_code(alloc, first),
        TextOperation::TextOfNumber => text_of_number(alloc, first),
        TextOperation::NumberIn => Ok(Value::Int(number_in(s))),
    }
}
