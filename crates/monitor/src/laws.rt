//! What holds of lines.
ghost use Rattle.monitor.specs.Commands.{HasOneCommand};
ghost use Rattle.monitor.specs.Forms.{HasOneForm};
ghost use Rattle.monitor.specs.Words.{words};

use elan_tree::Token;

/// Law: each line is of one form at a task, and of one at the supervisor.
pub fn one_form(tokens: &[Token])
    ensures task { HasOneForm (words tokens.now) }
    ensures supervisor { HasOneCommand (words tokens.now) }
{}
