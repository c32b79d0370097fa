//! VAR and CONST, which declare alike.

ghost use Rattle.std.specs.Prelude.{◌≡◌, max};
ghost use Rattle.elan_grammar.specs.Depth.{type_depth, item_depth, unit_depth, deepest_of};
ghost use Rattle.phrase_parser.specs.VarOrConst as spec;

use containers::List;
use elan_cursor::Cursor;
use elan_grammar::ParseError;
use elan_tree::{Access, Item, Key, TypePhrase, Unit};

/// Takes VAR or CONST.
pub fn declaring(cursor: &mut Cursor<'_>) -> Result<Access, ParseError>
    ensures { spec.Declares cursor.old.rest.now result cursor.new.rest.now }
{
    if cursor.passes_key(Key::Var) {
        return Ok(Access::Var);
    }
    cursor.keyword(Key::Const)?;
    Ok(Access::Const)
}

/// Whether a name stands without an initial value, and may.
pub fn is_bare(access: Access, cursor: &Cursor<'_>) -> bool
    ensures { result ≡ spec.is_bare access cursor.now.rest.now }
{
    match access {
        Access::Var => !cursor.sees_init(),
        Access::Const => false,
    }
}

/// The declaration of these items.
pub fn declaration_of(access: Access, at: u32, of: TypePhrase, row: List<Item>) -> Unit
    ensures tree { result ≡ spec.declaration_of access at of row }
    ensures depth { unit_depth result ≡ max (type_depth of) (deepest_of item_depth row) }
{
    match access {
        Access::Var => Unit::Variables(at, of, row),
        Access::Const => Unit::Constants(at, of, row),
    }
}
