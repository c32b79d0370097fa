//! The form of a line.
ghost use Rattle.std.specs.Prelude.{◌≡◌, ◌≤◌, length, IfOk};
ghost use Rattle.task_numbers.specs.declared.limits.TheConstants.{LONGEST_LINE};
ghost use Rattle.task_lines.specs.Below.system_meaning.specs.Monitor.{words_of};
ghost use Rattle.task_lines.specs.Forms.{form_in};

use elan_lexer::{LexError, tokens};
use elan_tree::Token;
use eu_base::NoMemory;
use monitor::{Form, form};
use std::alloc::Global;
use task_numbers::LONGEST_LINE;

/// The form of a line that is not too long.
pub(crate) fn form_of_line(alloc: Global, line: &[u8]) -> Result<Form, NoMemory>
    ensures { IfOk result (λ form. length line.now ≤ LONGEST_LINE → form ≡ form_in (words_of line.now)) }
{
    if line.len() > LONGEST_LINE {
        return Ok(Form::Program);
    }
    match tokens(alloc, line) {
        Ok(tokens) => {
            let form = form(alloc, tokens.as_slice());
            Token::all_let_go(tokens);
            form
        }
        Err(LexError::NoMemory) => Err(NoMemory),
        Err(LexError::NoToken(_)) => Ok(Form::Program),
        Err(LexError::TooMany) => Ok(Form::Program),
    }
}
