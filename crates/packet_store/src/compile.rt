//! From a text, or a start procedure, to its unit.

ghost use Rattle.std.specs.Prelude.{◌≡◌, ◌<◌, ◌^◌, Bool, List, length, IfOk, IfErr};
ghost use Rattle.elan_types.specs.Typing.{IsWellTyped};
ghost use Rattle.elan_tree.specs.declared.token.Token.{Token as Spelled};
ghost use Rattle.packet_store.specs.Below.elan_grammar.specs.Reads.{Reads};
ghost use Rattle.elan_scope.specs.declared.env.Env.{Env as Behind};
ghost use Rattle.elan_check.specs.Packets.{AreCompiled};
ghost use Rattle.packet_store.specs.Meaning.{HasTokens, IsCause};
ghost use Rattle.packet_store.specs.Units as spec;

use crate::below::of_elan_names::interface::Interface;
use crate::error::CompileError;
use crate::unit::Unit;
use code_gen::code_of;
use elan_check::{check, interface_of, started};
use elan_lexer::tokens;
use elan_parser::parse;
use elan_scope::env::Env;
use elan_tree::{Token, Tree};
use eu_base::{Bytes, NoMemory, Shared};
use std::alloc::Global;
use units::{Compiled, Source};

// The tree of a text. Tokens and trees are let go by calls, so that how their parts are let go is proved in the crate of their
// types alone.
fn tree_of(alloc: Global, text: &[u8], packet: bool) -> Result<Tree, CompileError>
    requires { length text.now < 2 ^ 32 }
    ensures tree { IfOk result (λ tree. (ts : List Spelled) × HasTokens text.now ts × Reads packet ts tree) }
    ensures refused { (env : Behind) → IfErr result (IsCause env packet text.now) }
{
    let tokens = tokens(alloc, text)?;
    let parsed = parse(alloc, tokens.as_slice(), packet);
    Token::all_let_go(tokens);
    Ok(parsed?)
}

// What later texts see of a text: of a packet what it shows, of a program nothing.
fn shown_by(
    alloc: Global,
    packets: &Env,
    tree: &Tree,
) -> Result<Option<Shared<Interface>>, NoMemory>
    ensures { IfOk result (λ shown. shown ≡ spec.shown_by packets.now tree.now) }
{
    match tree {
        Tree::Program(_) => Ok(None),
        Tree::Packet { .. } => {
            let interface = interface_of(alloc, packets, tree)?;
            Ok(Some(Shared::new(alloc, interface)?))
        }
    }
}

// What a text with this tree means behind packets.
fn compiled(
    alloc: Global,
    packets: Shared<Env>,
    text: &[u8],
    tree: &Tree,
) -> Result<Compiled, CompileError>
    requires { AreCompiled packets }
    ensures unit { (packet : Bool) (ts : List Spelled) → HasTokens text.now ts → Reads packet ts tree.now
        → IfOk result (spec.IsUnitOf packets packet text.now) }
    ensures refused { (packet : Bool) (ts : List Spelled) → HasTokens text.now ts → Reads packet ts tree.now
        → IfErr result (IsCause packets packet text.now) }
{
    let shown = shown_by(alloc, packets.get(), tree)?;
    let kept = Bytes::from(alloc, text)?;
    let core = check(alloc, tree, packets.get())?;
    Ok(Compiled {
        source: Source::Text(kept),
        packets,
        core,
        shown,
    })
}

fn with_code(alloc: Global, mut compiled: Compiled) -> Result<Unit, NoMemory>
    requires unit { spec.IsUnit compiled }
    requires typed { IsWellTyped compiled.core }
    ensures { IfOk result (λ unit. unit ≡ compiled) }
{
    let code = code_of(alloc, &mut compiled.core)?;
    Ok(Unit::of(compiled, code))
}

/// The unit of a text behind packets, read as a packet or as a program.
pub fn compile_behind(
    alloc: Global,
    packets: Shared<Env>,
    text: &[u8],
    packet: bool,
) -> Result<Unit, CompileError>
    requires compiled { AreCompiled packets }
    requires small { length text.now < 2 ^ 32 }
    ensures unit { IfOk result (spec.IsUnitOf packets packet text.now) }
    ensures refused { IfErr result (IsCause packets packet text.now) }
{
    let tree = tree_of(alloc, text, packet)?;
    let compiled = compiled(alloc, packets, text, &tree);
    tree.let_go();
    Ok(with_code(alloc, compiled?)?)
}

/// The unit of the PROC with this number among all bodies of packets, as the start procedure that is named so; `None` exactly where it
/// is no PROC that takes and delivers nothing.
pub fn start_behind(
    alloc: Global,
    packets: Shared<Env>,
    packet: u32,
    number: usize,
    body: usize,
) -> Result<Option<Unit>, NoMemory>
    requires { AreCompiled packets }
    ensures { IfOk result (λ unit. unit ≡ spec.start_unit packets packet number body) }
{
    match started(alloc, packets.get(), body)? {
        None => Ok(None),
        Some(core) => {
            let compiled = Compiled {
                source: Source::Start { packet, number },
                packets,
                core,
                shown: None,
            };
            Ok(Some(with_code(alloc, compiled)?))
        }
    }
}
