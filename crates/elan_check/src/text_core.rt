//! The core of a text.

ghost use Rattle.std.specs.Prelude.{◌≡◌, ◌++◌, List, [], Some, IfOk};
ghost use Rattle.elan_meant.specs.declared.meant.Meant.{Meant as Meanings};
ghost use Rattle.elan_scope.specs.Ruled.{Ruled, breaks};
ghost use Rattle.elan_scope.specs.Shown.{shown_types};
ghost use Rattle.elan_scope.specs.Answer.{Is};
ghost use Rattle.elan_judge.specs.Level as spec;
ghost use Rattle.elan_check.specs.Text as texts;
ghost use Rattle.elan_check.specs.Packets.{AreCompiled};

use crate::below::of_elan_rules::body::level;
use crate::error::CheckError;
use crate::level::judge_level;
use crate::packets::shared;
use crate::text_scope::{exports_in, level_in, text_scope};
use cell_kinds::{CellKinds, Packet};
use elan_judge::known_of;
use elan_meant::meant::Meant;
use elan_meant::row::Row;
use elan_names::type_directory::TypeDirectory;
use elan_scope::env::Env;
use elan_scope::known::Known;
use elan_scope::scope::Scope;
use elan_scope::trouble::Trouble;
use elan_tree::Tree;
use elan_types::{Action, Body, Core, Why};
use eu_base::{List, NoMemory, Shared};
use std::alloc::Global;
use type_names::bodies::held_kinds;
use type_names::fault::level_fault;
use type_names::resolve::Around;
use type_names::search::Fault;

// The fault of a type, or that of a phrase, if that stands before it.
fn earlier(fault: Fault, at: u32, why: Why) -> CheckError
    ensures { (r : Ruled Meanings) → r ≡ breaks (at, why) → texts.IsFault (texts.earliest (Some fault) r) result }
{
    let (type_at, type_why) = fault;
    if at < type_at {
        CheckError::NoMeaning(at, why)
    } else {
        CheckError::NoMeaning(type_at, type_why)
    }
}

// A level in which a type breaks a rule.
fn refusal(fault: Fault, parts: Row) -> CheckError
    ensures { (r : Ruled (List Meanings)) → Is parts r → texts.IsFault (texts.earliest (Some fault) r) result }
{
    match parts {
        Err(Trouble::NoMemory) => CheckError::NoMemory,
        Err(Trouble::Breaks(at, why)) => earlier(fault, at, why),
        Err(Trouble::Hangs) => CheckError::NoMeaning(fault.0, fault.1),
        Ok(parts) => {
            Meant::all_let_go(parts);
            CheckError::NoMeaning(fault.0, fault.1)
        }
    }
}

// A text behind packets.
#[derive(Clone, Copy)]
struct Text<'a> {
    env: &'a Env,
    tree: &'a Tree,
}

// The bodies of the packets, and behind them those of a text.
fn all_bodies(alloc: Global, env: &Env, own: List<Body>) -> Result<List<Shared<Body>>, NoMemory>
    ensures { IfOk result (λ all. all ≡ env.now.bodies ++ own) }
{
    let mut all = shared(alloc, env.bodies.as_slice())?;
    for body in own.into_vec() {
        all.push(Shared::new(alloc, body)?)?;
    }
    Ok(all)
}

// The core of a text with these units and bodies.
fn core_with(
    alloc: Global,
    text: Text<'_>,
    scope: &Scope,
    units: List<Action>,
    own: List<Body>,
) -> Result<Core, NoMemory>
    requires { scope.now ≡ spec.text_scope text.env.now text.tree.now }
    ensures { IfOk result (λ core. core ≡ texts.core_of text.entry.env.now text.entry.tree.now units own) }
{
    let held = held_kinds(alloc, scope.level.as_slice())?;
    let (inserted, variables) = match text.tree {
        Tree::Program(_) => (CellKinds::new(alloc), held),
        Tree::Packet { .. } => (held, CellKinds::new(alloc)),
    };
    Ok(Core {
        packets: Packet::clone_all(text.env.packets.as_slice(), alloc)?,
        inserted,
        variables,
        bodies: all_bodies(alloc, text.env, own)?,
        units,
        start: None,
    })
}

// The core of a text of which no type breaks a rule, from what is known of its bodies.
fn core_meant(
    alloc: Global,
    known: &Known,
    scope: &mut Scope,
    text: Text<'_>,
) -> Result<Core, CheckError>
    requires known { known.now ≡ texts.bodies_known text.env.now text.tree.now }
    requires scope { scope.old ≡ spec.text_scope text.env.now text.tree.now }
    requires types { texts.faults text.env.now text.tree.now ≡ [] }
    requires packets { AreCompiled text.env.now }
    ensures { texts.Answers text.entry.env.now text.entry.tree.now result }
{
    match judge_level(
        alloc,
        known,
        scope,
        exports_in(text.tree),
        level_in(text.tree),
    ) {
        Ok(parts) => {
            let (units, own) = level(alloc, parts)?;
            Ok(core_with(alloc, text, scope, units, own)?)
        }
        Err(Trouble::NoMemory) => Err(CheckError::NoMemory),
        Err(Trouble::Breaks(at, why)) => Err(CheckError::NoMeaning(at, why)),
        // Where nothing breaks a rule, nothing hangs.
        Err(Trouble::Hangs) => unreachable!(),
    }
}

// The core of a text, from what is known of its bodies.
fn core_known(
    alloc: Global,
    known: &Known,
    scope: &mut Scope,
    shown: &TypeDirectory,
    text: Text<'_>,
) -> Result<Core, CheckError>
    requires known { known.now ≡ texts.bodies_known text.env.now text.tree.now }
    requires scope { scope.old ≡ spec.text_scope text.env.now text.tree.now }
    requires shown { shown.now ≡ shown_types text.env.now }
    requires packets { AreCompiled text.env.now }
    ensures { texts.Answers text.entry.env.now text.entry.tree.now result }
{
    let around = Around {
        names: shown,
        first: text.env.types,
    };
    let written = level_in(text.tree);
    match level_fault(alloc, around, &scope.types, written)? {
        None => core_meant(alloc, known, scope, text),
        Some(fault) => {
            let parts = judge_level(alloc, known, scope, exports_in(text.tree), written);
            Err(refusal(fault, parts))
        }
    }
}

// The core of a text in its scope.
fn core_within(
    alloc: Global,
    scope: &mut Scope,
    shown: &TypeDirectory,
    text: Text<'_>,
) -> Result<Core, CheckError>
    requires scope { scope.old ≡ spec.text_scope text.env.now text.tree.now }
    requires shown { shown.now ≡ shown_types text.env.now }
    requires packets { AreCompiled text.env.now }
    ensures { texts.Answers text.entry.env.now text.entry.tree.now result }
{
    let known = known_of(alloc, scope, level_in(text.tree))?;
    core_known(alloc, &known, scope, shown, text)
}

// The core of a text behind packets that show these types.
fn core_behind(alloc: Global, shown: &TypeDirectory, text: Text<'_>) -> Result<Core, CheckError>
    requires shown { shown.now ≡ shown_types text.env.now }
    requires packets { AreCompiled text.env.now }
    ensures { texts.Answers text.entry.env.now text.entry.tree.now result }
{
    let mut scope = text_scope(alloc, text.env, shown, text.tree)?;
    core_within(alloc, &mut scope, shown, text)
}

/// The core of a text behind packets.
pub fn core_of(alloc: Global, env: &Env, tree: &Tree) -> Result<Core, CheckError>
    requires { AreCompiled env.now }
    ensures { texts.Answers env.now tree.now result }
{
    let shown = env.shown_types(alloc)?;
    core_behind(alloc, &shown, Text { env, tree })
}
