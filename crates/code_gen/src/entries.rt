//! The bodies of a command: their code, and their entries in its tables.
ghost use Rattle.std.specs.Prelude.{◌≡◌, ◌++◌, IfOk, length, map};
ghost use Rattle.elan_types.specs.Typing.{result_of_content};
ghost use Rattle.place_gen.specs.Layouts.{layout_of, parameter_kind};
ghost use Rattle.code_gen.specs.Program.{body_lines, entries, entry_of};

use code_form::{Entry, Layout, OperandKind};
use elan_types::{Access, Body, Content, Formal, Scope};
use eu_base::{List, NoMemory, Shape, Shared};
use place_gen::{Draft, emit_content};
use std::alloc::Global;

/// Adds the code of bodies, one behind another, and gives their entries.
pub fn emit_bodies(out: &mut Draft, bodies: &[Shared<Body>]) -> Result<List<Entry>, NoMemory>
    ensures entries { IfOk result (λ made. made ≡ entries bodies.now (length out.old.lines)) }
    ensures lines { IfOk result (λ _. out.new.lines ≡ out.old.lines ++ body_lines bodies.now 0 (length out.old.lines)) }
{
    let mut entries = List::new(out.alloc);
    for (index, body) in bodies.iter().enumerate() {
        let body = body.get();
        entries.push(entry_of(out.alloc, body, out.lines.len())?)?;
        out.begin_body(index);
        emit_content(out, &body.content)?;
    }
    Ok(entries)
}

fn entry_of(alloc: Global, body: &Body, first: usize) -> Result<Entry, NoMemory>
    ensures { IfOk result (λ entry. entry ≡ entry_of body.now first) }
{
    Ok(Entry {
        first,
        layout: layout_of(alloc, &body.scope)?,
        delivers: delivered_shape(alloc, &body.content)?,
    })
}

fn layout_of(alloc: Global, scope: &Scope) -> Result<Layout, NoMemory>
    ensures { IfOk result (λ layout. layout ≡ layout_of scope.now) }
{
    match scope {
        Scope::Own {
            parameters,
            variables,
        } => Ok(Layout::Own {
            parameters: parameter_kinds(alloc, parameters.as_slice())?,
            variables: variables.try_clone(alloc)?,
        }),
        Scope::Of(body) => Ok(Layout::Of(*body)),
        Scope::Level => Ok(Layout::Level),
    }
}

fn delivered_shape(alloc: Global, content: &Content) -> Result<Option<Shape>, NoMemory>
    ensures { IfOk result (λ shape. shape ≡ result_of_content content.now) }
{
    match content {
        Content::Units(_) => Ok(None),
        Content::Value(shape, _) => Ok(Some(shape.try_clone(alloc)?)),
    }
}

fn parameter_kind(alloc: Global, parameter: &Formal) -> Result<OperandKind, NoMemory>
    ensures { IfOk result (λ kind. kind ≡ parameter_kind parameter.now) }
{
    let shape = parameter.shape.try_clone(alloc)?;
    Ok(match parameter.access {
        Access::Const => OperandKind::Value(shape),
        Access::Var => OperandKind::Place(shape),
    })
}

fn parameter_kinds(alloc: Global, parameters: &[Formal]) -> Result<List<OperandKind>, NoMemory>
    ensures { IfOk result (λ kinds. kinds ≡ map parameter_kind parameters.now) }
{
    let mut kinds = List::new(alloc);
    for parameter in parameters {
        kinds.push(parameter_kind(alloc, parameter)?)?;
    }
    Ok(kinds)
}
