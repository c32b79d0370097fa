//! The code of a command.

ghost use Rattle.std.specs.Prelude.{◌≡◌, IfOk, OnOk};
ghost use Rattle.elan_types.specs.declared.core_phrase.Core.{Core as Cores};
ghost use Rattle.elan_types.specs.Typing.{IsWellTyped};
ghost use Rattle.code_form.specs.Program.{Program};
ghost use Rattle.code_gen.specs.Correct.{Behaves};
ghost use Rattle.code_gen.specs.Codes.{IsCodeOf};

use crate::{generate, one_left, reached};
use code_form::Code;
use elan_types::Core;
use eu_base::NoMemory;
use std::alloc::Global;
use std::mem;

/// The code of a command, in which bodies that it does not reach do nothing.
pub fn code_of(alloc: Global, core: &mut Core) -> Result<Code, NoMemory>
    requires { IsWellTyped core.old }
    ensures core { OnOk result (core.new ≡ core.old) }
    ensures code { IfOk result (IsCodeOf core.old) }
{
    let bodies = reached(alloc, core)?;
    let all = mem::replace(&mut core.bodies, bodies);
    let code = generate(alloc, core);
    core.bodies = all;
    code
}

/// A command has one code: what is made anew is what was made before.
pub fn one_code()
    ensures { (core : Cores) → (p : Program) → (q : Program) → IsCodeOf core p → IsCodeOf core q → p ≡ q }
{
    one_left();
}

/// The code of a command does what the command does.
pub fn code_behaves()
    ensures { (core : Cores) → (p : Program) → IsCodeOf core p → Behaves core p }
{}
