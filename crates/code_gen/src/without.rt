//! What is left of a body that is not reached.

ghost use Rattle.std.specs.Prelude.{◌≡◌, IfOk};
ghost use Rattle.code_gen.specs.Reached as spec;

use elan_types::{Body, Content, Formal, Scope, ValuePhrase};
use eu_base::{List, NoMemory, Shared};
use std::alloc::Global;

fn same_formals(alloc: Global, formals: &[Formal]) -> Result<List<Formal>, NoMemory>
    ensures { IfOk result (λ list. list ≡ formals.now) }
{
    let mut list = List::new(alloc);
    for formal in formals {
        let shape = formal.shape.try_clone(alloc)?;
        list.push(Formal {
            shape,
            access: formal.access,
        })?;
    }
    Ok(list)
}

fn same_scope(alloc: Global, scope: &Scope) -> Result<Scope, NoMemory>
    ensures { IfOk result (λ same. same ≡ scope.now) }
{
    match scope {
        Scope::Own {
            parameters,
            variables,
        } => Ok(Scope::Own {
            parameters: same_formals(alloc, parameters.as_slice())?,
            variables: variables.try_clone(alloc)?,
        }),
        Scope::Of(number) => Ok(Scope::Of(*number)),
        Scope::Level => Ok(Scope::Level),
    }
}

fn nothing_in(alloc: Global, content: &Content) -> Result<Content, NoMemory>
    ensures { IfOk result (λ nothing. nothing ≡ spec.nothing_in content.now) }
{
    match content {
        Content::Units(_) => Ok(Content::Units(List::new(alloc))),
        Content::Value(shape, _) => {
            let first = shape.try_clone(alloc)?;
            let second = shape.try_clone(alloc)?;
            Ok(Content::Value(first, ValuePhrase::Never(second)))
        }
    }
}

/// A body with the same variables and the same result that does nothing.
pub fn emptied(alloc: Global, body: &Body) -> Result<Shared<Body>, NoMemory>
    ensures { IfOk result (λ made. made ≡ spec.emptied body.now) }
{
    let scope = same_scope(alloc, &body.scope)?;
    let content = nothing_in(alloc, &body.content)?;
    Shared::new(alloc, Body { scope, content })
}
