//! The walk over a whole text.

ghost use Rattle.std.specs.Prelude.{map, flat_map};
ghost use Rattle.elan_walk.specs.Nodes as spec;
ghost use Rattle.elan_walk.specs.Walk.{Seen};

use crate::node::{Node, Visitor};
use crate::walk::{visit_unit, visit_units};
use elan_tree::{Body, Export, Formal, Level, LevelUnit, Name, Refinement, Tree, TypePhrase};

fn names<V: Visitor>(mut visitor: V, names: &[Name]) -> V
    ensures { Seen V.wanted V.after (map spec.other names.now) visitor result }
{
    for name in names {
        visitor = visitor.visit(Node::Other(name));
    }
    visitor
}

/// Looks at the types and names of parameters, in text order.
pub fn formals<V: Visitor>(mut visitor: V, formals: &[Formal]) -> V
    ensures { Seen V.wanted V.after (spec.formals formals.now) visitor result }
{
    for formal in formals {
        visitor = visitor.visit(Node::Type(&formal.of));
        visitor = names(visitor, formal.names.as_slice());
    }
    visitor
}

/// Looks at the nodes of refinements, in text order.
pub fn refinements<V: Visitor>(mut visitor: V, refinements: &[Refinement]) -> V
    ensures { Seen V.wanted V.after (spec.refinements refinements.now) visitor result }
{
    for refinement in refinements {
        visitor = visitor.visit(Node::Other(&refinement.name));
        visitor = visit_units(visitor, refinement.units.as_slice());
    }
    visitor
}

/// Looks at the type of what is delivered.
pub fn result_type<V: Visitor>(visitor: V, of: &Option<TypePhrase>) -> V
    ensures { Seen V.wanted V.after (spec.result of.now) visitor result }
{
    match of {
        None => visitor,
        Some(of) => visitor.visit(Node::Type(of)),
    }
}

fn in_body<V: Visitor>(visitor: V, given: &[Formal], body: &Body) -> V
    ensures { Seen V.wanted V.after (spec.body given.now body.now) visitor result }
{
    let visitor = formals(visitor, given);
    let visitor = visit_units(visitor, body.units.as_slice());
    refinements(visitor, body.refinements.as_slice())
}

fn level_unit<V: Visitor>(visitor: V, unit: &LevelUnit) -> V
    ensures { Seen V.wanted V.after (spec.level_unit unit.now) visitor result }
{
    match unit {
        LevelUnit::Plain(unit) => visit_unit(visitor, unit),
        LevelUnit::NewType { at, name, of } => visitor.visit(Node::NewType(*at, name, of)),
        LevelUnit::Proc {
            result,
            name,
            formals,
            body,
            ..
        } => {
            let visitor = result_type(visitor, result);
            let visitor = visitor.visit(Node::Other(name));
            in_body(visitor, formals.as_slice(), body)
        }
        LevelUnit::Op {
            result,
            name,
            formals,
            body,
            ..
        } => {
            let visitor = result_type(visitor, result);
            let visitor = visitor.visit(Node::Operator(&name.operator));
            in_body(visitor, formals.as_slice(), body)
        }
    }
}

fn level_units<V: Visitor>(mut visitor: V, units: &[LevelUnit]) -> V
    ensures { Seen V.wanted V.after (flat_map spec.level_unit units.now) visitor result }
{
    for unit in units {
        visitor = level_unit(visitor, unit);
    }
    visitor
}

fn visit_level<V: Visitor>(visitor: V, level: &Level) -> V
    ensures { Seen V.wanted V.after (spec.in_level level.now) visitor result }
{
    let visitor = level_units(visitor, level.units.as_slice());
    refinements(visitor, level.refinements.as_slice())
}

// A name that a packet shows.
fn export<V: Visitor>(visitor: V, shown: &Export) -> V
    ensures { Seen V.wanted V.after (spec.export shown.now) visitor result }
{
    match shown {
        Export::Ident(name) | Export::Bold(name) => visitor.visit(Node::Other(name)),
        Export::Sign(_, _) => visitor,
    }
}

fn exports<V: Visitor>(mut visitor: V, list: &[Export]) -> V
    ensures { Seen V.wanted V.after (flat_map spec.export list.now) visitor result }
{
    for shown in list {
        visitor = export(visitor, shown);
    }
    visitor
}

/// Looks at the nodes of a text, in text order.
pub fn visit_tree<V: Visitor>(visitor: V, tree: &Tree) -> V
    ensures { Seen V.wanted V.after (spec.nodes tree.now) visitor result }
{
    match tree {
        Tree::Program(level) => visit_level(visitor, level),
        Tree::Packet {
            exports: list,
            level,
            ..
        } => {
            let visitor = exports(visitor, list.as_slice());
            visit_level(visitor, level)
        }
    }
}
