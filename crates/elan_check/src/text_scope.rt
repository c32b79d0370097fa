//! The scope of a text.

ghost use Rattle.std.specs.Prelude.{◌≡◌, IfOk, length};
ghost use Rattle.cell_kinds.specs.Kinds.{packet_kinds};
ghost use Rattle.elan_scope.specs.Shown.{shown_types};
ghost use Rattle.elan_judge.specs.Level as spec;

use cell_kinds::Packet;
use elan_names::type_directory::TypeDirectory;
use elan_scope::env::Env;
use elan_scope::scope::{Home, Scope};
use elan_tree::{Export, Level, Tree};
use eu_base::NoMemory;
use std::alloc::Global;
use type_names::bodies::{level_names, level_types};
use type_names::heading::headings;
use type_names::resolve::Around;

/// The level of a text.
pub fn level_in(tree: &Tree) -> &Level
    ensures { result.now ≡ spec.level_in tree.now }
{
    match tree {
        Tree::Program(level) => level,
        Tree::Packet { level, .. } => level,
    }
}

/// The names that a text shows.
pub fn exports_in(tree: &Tree) -> &[Export]
    ensures { result.now ≡ spec.exports_in tree.now }
{
    match tree {
        Tree::Program(_) => &[],
        Tree::Packet { exports, .. } => exports.as_slice(),
    }
}

/// How many cells the variables and constants of these packets have.
pub fn cells_of(packets: &[Packet]) -> Result<usize, NoMemory>
    ensures { IfOk result (λ cells. cells ≡ length (packet_kinds packets.now)) }
{
    let mut cells = 0_usize;
    for packet in packets {
        cells = cells.checked_add(packet.variables.len()).ok_or(NoMemory)?;
    }
    Ok(cells)
}

fn home_of(env: &Env, tree: &Tree) -> Result<Home, NoMemory>
    ensures { IfOk result (λ home. home ≡ spec.home_of env.now tree.now) }
{
    match tree {
        Tree::Program(_) => Ok(Home::Level),
        Tree::Packet { .. } => Ok(Home::Packet(cells_of(env.packets.as_slice())?)),
    }
}

/// The scope of the units of a text, behind packets that show these types.
pub fn text_scope(
    alloc: Global,
    env: &Env,
    shown: &TypeDirectory,
    tree: &Tree,
) -> Result<Scope, NoMemory>
    requires { shown.now ≡ shown_types env.now }
    ensures { IfOk result (λ scope. scope ≡ spec.text_scope env.now tree.now) }
{
    let around = Around {
        names: shown,
        first: env.types,
    };
    let level = level_in(tree);
    let types = level_types(alloc, around, level)?;
    Ok(Scope {
        packets: env.inserted(alloc)?,
        bodies_before: env.bodies.len(),
        types_before: env.types,
        home: home_of(env, tree)?,
        headings: headings(alloc, &types, level)?,
        level: level_names(alloc, &types, level)?,
        types,
        routine: None,
        refinement: None,
    })
}
