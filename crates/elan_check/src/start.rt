//! PROCs in which a task can start.
ghost use Rattle.std.specs.Prelude.{◌≡◌, slice_get, Some, IfOk, IfSome};
ghost use Rattle.elan_types.specs.Typing.{IsWellTyped};
ghost use Rattle.elan_check.specs.Packets.{AreCompiled};
ghost use Rattle.units.specs.Starts as spec;

use crate::packets::shared;
use cell_kinds::{CellKinds, Packet};
use elan_scope::env::Env;
use elan_types::{Body, Content, Core, Scope};
use eu_base::{List, NoMemory};
use std::alloc::Global;

/// The PROC with this number as a command in which a task starts; `None` exactly where the packets have no PROC of that number
/// without parameters that delivers nothing.
pub fn started(alloc: Global, env: &Env, number: usize) -> Result<Option<Core>, NoMemory>
    requires { AreCompiled env.now }
    ensures core { IfOk result (λ made. made ≡ spec.start_at env.now number) }
    ensures typed { IfOk result (λ made. IfSome made IsWellTyped) }
{
    match env.bodies.as_slice().get(number) {
        None => Ok(None),
        Some(body) => started_in(alloc, env, number, body.get()),
    }
}

fn started_in(
    alloc: Global,
    env: &Env,
    number: usize,
    body: &Body,
) -> Result<Option<Core>, NoMemory>
    requires compiled { AreCompiled env.now }
    requires here { slice_get env.now.bodies number ≡ Some body.now }
    ensures core { IfOk result (λ made. made ≡ spec.start_at env.now number) }
    ensures typed { IfOk result (λ made. IfSome made IsWellTyped) }
{
    if is_start(body) {
        Ok(Some(start_core(alloc, env, number)?))
    } else {
        Ok(None)
    }
}

fn is_start(body: &Body) -> bool
    ensures { result ≡ spec.starts_by body.now.scope body.now.content }
{
    match &body.scope {
        Scope::Own {
            parameters,
            variables: _,
        } => match &body.content {
            Content::Units(_) => parameters.as_slice().is_empty(),
            Content::Value(_, _) => false,
        },
        Scope::Of(_) | Scope::Level => false,
    }
}

fn start_core(alloc: Global, env: &Env, number: usize) -> Result<Core, NoMemory>
    ensures { IfOk result (λ core. core ≡ spec.start_core env.now number) }
{
    Ok(Core {
        packets: Packet::clone_all(env.packets.as_slice(), alloc)?,
        inserted: CellKinds::new(alloc),
        variables: CellKinds::new(alloc),
        bodies: shared(alloc, env.bodies.as_slice())?,
        units: List::new(alloc),
        start: Some(number),
    })
}
