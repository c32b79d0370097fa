//! Types as they are written.

ghost use Rattle.std.specs.Prelude.{◌≡◌, ◌++◌, IfOk};
ghost use Rattle.type_names.specs.Types as spec;

use crate::judgement::judge;
use crate::visible::Visible;
use elan_names::type_directory::TypeDirectory;
use elan_tree::TypePhrase;
use elan_types::ElanType;
use eu_base::NoMemory;
use std::alloc::Global;

// The type that is written, inside another one or not, where these names are declared here and around; open where it has no meaning.
fn meant(
    alloc: Global,
    here: &TypeDirectory,
    around: &TypeDirectory,
    of: &TypePhrase,
    inside: bool,
) -> Result<ElanType, NoMemory>
    ensures { IfOk result (λ meant. meant ≡ spec.meant (spec.look (here.now ++ around.now)) of.now inside) }
{
    let visible = Visible {
        own: here,
        around,
        refinements: &[],
    };
    let judged = judge(alloc, visible, of, inside)?;
    Ok(judged.of)
}

/// The type that is written, where these names are declared here and around; open where it has no meaning.
pub fn type_in(
    alloc: Global,
    here: &TypeDirectory,
    around: &TypeDirectory,
    of: &TypePhrase,
) -> Result<ElanType, NoMemory>
    ensures { IfOk result (λ meant. meant ≡ spec.type_in (here.now ++ around.now) of.now) }
{
    meant(alloc, here, around, of, false)
}

/// The type that is written for a name of a type, or for the content of a data space.
pub fn type_within(
    alloc: Global,
    here: &TypeDirectory,
    around: &TypeDirectory,
    of: &TypePhrase,
) -> Result<ElanType, NoMemory>
    ensures { IfOk result (λ meant. meant ≡ spec.type_within (here.now ++ around.now) of.now) }
{
    meant(alloc, here, around, of, true)
}
