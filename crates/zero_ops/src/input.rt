//! What is taken out of a reply.
ghost use Rattle.eu_base.specs.Requests.{read_as, answer_of};
ghost use Rattle.zero_ops.specs.Given.{Gives};

use crate::convert::number_in;
use crate::error::OpError;
use crate::limit::fitting;
use crate::trim::trimmed;
use eu_base::{Reply, RequestName, Value};
use std::alloc::Global;

/// What a request takes out of a reply for its variable; 0 where it has none.
pub fn read_as(alloc: Global, name: RequestName, reply: &Reply) -> Result<Value, OpError>
    ensures { Gives result (read_as name reply.now) }
{
    match name {
        RequestName::GetNumber => Ok(Value::Int(number_in(reply.text()))),
        RequestName::GetText => fitting(alloc, trimmed(reply.text())),
        RequestName::GetLine => fitting(alloc, reply.text()),
        RequestName::Begin(_) => Ok(Value::Task(reply.task())),
        _ => Ok(Value::Int(0)),
    }
}

/// What a request delivers of a reply; 0 where it delivers nothing.
pub fn answer_of(alloc: Global, name: RequestName, reply: &Reply) -> Result<Value, OpError>
    ensures { Gives result (answer_of name reply.now) }
{
    match name {
        RequestName::Myself
        | RequestName::Father
        | RequestName::FatherOf
        | RequestName::Son
        | RequestName::Brother
        | RequestName::Named => Ok(Value::Task(reply.task())),
        RequestName::NameOf => fitting(alloc, reply.text()),
        RequestName::Exists => Ok(Value::Truth(reply.truth())),
        _ => Ok(Value::Int(0)),
    }
}
