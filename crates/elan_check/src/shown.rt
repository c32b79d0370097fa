//! What a packet shows.

ghost use Rattle.std.specs.Prelude.{◌≡◌, ◌++◌, ◌∷◌, [], map, option_and_then, OnOk, IfOk};
ghost use Rattle.std.specs.List.{list_any};
ghost use Rattle.std.specs.Str.{bytes_eq};
ghost use Rattle.elan_scope.specs.declared.known.Known.{Known};
ghost use Rattle.elan_tree.specs.declared.tree.Level.{Level as Written};
ghost use Rattle.elan_scope.specs.Phrase.{all_of, leaf};
ghost use Rattle.elan_scope.specs.Phrase as form;
ghost use Rattle.elan_scope.specs.Scope as scopes;
ghost use Rattle.elan_check.specs.Below.elan_rules.specs.Meaning.{judged, judged_all};
ghost use Rattle.elan_scope.specs.Answer.{Is};
ghost use Rattle.elan_walk.specs.Definitions as definitions;
ghost use Rattle.elan_judge.specs.Level as spec;

use crate::below::of_value_rules::name::exported;
use elan_meant::row::{Judged, Row};
use elan_meant::together::{let_go, none, with};
use elan_names::directory::Directory;
use elan_names::entry::Denotes;
use elan_names::heading::{Heading, What, is_one};
use elan_scope::scope::Scope;
use elan_scope::trouble::Trouble;
use elan_tree::{Export, Level, Operator};
use elan_walk::definition::{Defined, Definition, level_definitions};
use elan_walk::operator_text;
use eu_base::{Bytes, List, NoMemory};
use std::alloc::Global;

// The name that is shown.
fn export_name(alloc: Global, export: &Export) -> Result<Bytes, NoMemory>
    ensures { IfOk result (λ name. name ≡ spec.export_name export.now) }
{
    match export {
        Export::Ident(name) | Export::Bold(name) => Bytes::from(alloc, name.text.as_slice()),
        Export::Sign(_, sign) => Bytes::from(alloc, operator_text(&Operator::Sign(*sign))),
    }
}

/// The names that are shown.
pub fn export_names(alloc: Global, exports: &[Export]) -> Result<List<Bytes>, NoMemory>
    ensures { IfOk result (λ names. names ≡ map spec.export_name exports.now) }
{
    let mut names = List::new(alloc);
    for export in exports {
        names.push(export_name(alloc, export)?)?;
    }
    Ok(names)
}

fn export_place(export: &Export) -> u32
    ensures { result ≡ spec.export_place export.now }
{
    match export {
        Export::Ident(name) | Export::Bold(name) => name.at,
        Export::Sign(at, _) => *at,
    }
}

fn may_show_name(denotes: &Denotes) -> Option<bool>
    ensures { result ≡ spec.may_show_name denotes.now }
{
    match denotes {
        Denotes::Constant(_) | Denotes::Procedure => Some(true),
        Denotes::Variable(_) | Denotes::Bound(_) => Some(false),
        Denotes::Parameter(_) | Denotes::Denoter(_) => Some(false),
        Denotes::Refinement => None,
    }
}

fn may_show_declared(names: &Directory, name: &[u8]) -> Option<bool>
    ensures { result ≡ option_and_then (λ f. spec.may_show_name f.1.denotes) (scopes.first_named names.now name.now) }
{
    match names.first_named(name) {
        None => None,
        Some((_, entry)) => may_show_name(&entry.denotes),
    }
}

fn may_show_type(what: &Defined) -> Option<bool>
    ensures { result ≡ spec.may_show_type what.now }
{
    match what {
        Defined::New(_) => Some(true),
        Defined::Abbreviation(_) => Some(false),
        Defined::Number(_) | Defined::Other => None,
    }
}

fn may_show_defined(list: &[Definition], name: &[u8]) -> Option<bool>
    ensures { result ≡ option_and_then (λ f. spec.may_show_type f.1.what) (definitions.first_from 0 list.now name.now) }
{
    for definition in list {
        if is_one(definition.name.as_slice(), name) {
            return may_show_type(&definition.what);
        }
    }
    None
}

fn is_routine(heading: &Heading) -> bool
    ensures { result ≡ spec.is_routine heading.now.what }
{
    match &heading.what {
        What::Routine(_, _, _) => true,
        What::Refinement(_) => false,
    }
}

fn is_called(headings: &[Heading], name: &[u8]) -> bool
    ensures { result ≡ list_any (spec.is_routine_named name.now) headings.now }
{
    for heading in headings {
        if is_one(heading.name.as_slice(), name) && is_routine(heading) {
            return true;
        }
    }
    false
}

// Whether what a level declares under a name may be shown, where it declares that.
fn may_show(scope: &Scope, list: &[Definition], name: &[u8]) -> Option<bool>
    ensures { (l : Written) → list.now ≡ definitions.level_definitions l → result ≡ spec.may_show scope.now l name.now }
{
    let declared = may_show_declared(&scope.level, name);
    if declared.is_some() {
        return declared;
    }
    let defined = may_show_defined(list, name);
    if defined.is_some() {
        return defined;
    }
    if is_called(scope.headings.as_slice(), name) {
        Some(true)
    } else {
        None
    }
}

fn stands_among(names: &[Bytes], name: &[u8]) -> bool
    ensures { result ≡ list_any (λ y. bytes_eq y name.now) names.now }
{
    for other in names {
        if is_one(other.as_slice(), name) {
            return true;
        }
    }
    false
}

// One name, behind these.
fn judge_export(
    alloc: Global,
    scope: &Scope,
    list: &[Definition],
    earlier: &[Bytes],
    export: &Export,
) -> Judged
    ensures { (k : Known) → (l : Written) → list.now ≡ definitions.level_definitions l → Is result
        (judged k (leaf (spec.export_place export.now)
        (form.exported (list_any (λ y. bytes_eq y (spec.export_name export.now)) earlier.now) (spec.may_show scope.now l (spec.export_name export.now))))) }
{
    let name = export_name(alloc, export)?;
    let doubled = stands_among(earlier, name.as_slice());
    let may = may_show(scope, list, name.as_slice());
    exported(alloc, export_place(export), doubled, may)
}

fn remember(alloc: Global, earlier: &mut List<Bytes>, export: &Export) -> Result<(), NoMemory>
    ensures { OnOk result (earlier.new ≡ earlier.old ++ spec.export_name export.now ∷ []) }
{
    earlier.push(export_name(alloc, export)?)
}

// The names that a packet shows, whose level has these definitions.
fn judge_all(alloc: Global, scope: &Scope, list: &[Definition], exports: &[Export]) -> Row
    ensures { (k : Known) → (l : Written) → list.now ≡ definitions.level_definitions l → Is result
        (judged_all k (all_of (spec.exports scope.now l [] exports.now))) }
{
    let mut row = none(alloc);
    let mut earlier = List::new(alloc);
    for export in exports {
        let next = judge_export(alloc, scope, list, earlier.as_slice(), export);
        row = with(row, next);
        let Ok(()) = remember(alloc, &mut earlier, export) else {
            let_go(row);
            return Err(Trouble::NoMemory);
        };
    }
    row
}

/// What the names mean that a packet with this level shows.
pub fn judge_exports(alloc: Global, scope: &Scope, level: &Level, exports: &[Export]) -> Row
    ensures { (k : Known) → Is result (judged_all k (all_of (spec.exports scope.now level.now [] exports.now))) }
{
    if exports.is_empty() {
        return none(alloc);
    }
    let list = level_definitions(alloc, level)?;
    judge_all(alloc, scope, list.as_slice(), exports)
}
