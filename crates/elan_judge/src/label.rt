//! The labels of SELECT.

ghost use Rattle.std.specs.Prelude.{◌≡◌, ◌++◌, ◌∷◌, [], OnOk};
ghost use Rattle.elan_meant.specs.declared.meant.Meant.TheVariants as means;
ghost use Rattle.elan_scope.specs.Phrase as form;
ghost use Rattle.elan_scope.specs.Phrase.{row};
ghost use Rattle.elan_rules.specs.Meaning.{judged};
ghost use Rattle.elan_scope.specs.Answer.{Is, Gives};
ghost use Rattle.elan_judge.specs.Shape as shape;
ghost use Rattle.elan_judge.specs.walks.Steps as walk;

use elan_meant::meant::Meant;
use elan_meant::row::Judged;
use elan_rules::selection::{label_is, label_named};
use elan_scope::known::Known;
use elan_scope::scope::Scope;
use elan_scope::trouble::Trouble;
use elan_tree::Label;
use eu_base::{List, NoMemory};
use std::alloc::Global;

fn add_number(out: &mut List<i16>, scope: &Scope, label: &Label) -> Result<(), NoMemory>
    ensures { OnOk result (out.new ≡ out.old ++ shape.number scope.now label.now) }
{
    match label {
        Label::Number(_, number) => out.push(*number),
        Label::Named(name) => match scope.number_named(name.text.as_slice()) {
            None => Ok(()),
            Some(number) => out.push(number),
        },
    }
}

/// Adds the numbers of labels.
pub fn add_numbers(out: &mut List<i16>, scope: &Scope, labels: &[Label]) -> Result<(), NoMemory>
    ensures { OnOk result (out.new ≡ out.old ++ walk.numbers scope.now labels.now) }
{
    for label in labels {
        add_number(out, scope, label)?;
    }
    Ok(())
}

fn judge_label(known: &Known, scope: &Scope, earlier: &[i16], label: &Label) -> Result<i16, Trouble>
    ensures { Gives (λ n. means.Labels (n ∷ [])) result (judged known.now (shape.label_phrase scope.now earlier.now label.now)) }
{
    match label {
        Label::Number(at, number) => label_is(*at, earlier, *number),
        Label::Named(name) => {
            let text = name.text.as_slice();
            label_named(name.at, earlier, scope, text)
        }
    }
}

/// The labels of a case, each compared with all before it.
#[tactic(auto, using(crate::proofs::Rows::prefixed_push, crate::proofs::Rows::prefixed_none))]
pub fn judge_labels(
    alloc: Global,
    known: &Known,
    scope: &Scope,
    earlier: &[i16],
    labels: &[Label],
) -> Judged
    ensures { Is result (judged known.now (row 0 form.labels (shape.label_phrases scope.now earlier.now labels.now))) }
{
    let mut numbers = List::new(alloc);
    let mut before = List::from_slice(alloc, earlier)?;
    for label in labels {
        let number = judge_label(known, scope, before.as_slice(), label)?;
        numbers.push(number)?;
        add_number(&mut before, scope, label)?;
    }
    Ok(Meant::Labels(numbers))
}
