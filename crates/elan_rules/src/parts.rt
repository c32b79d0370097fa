//! What the parts of IF and SELECT deliver.

ghost use Rattle.std.specs.Prelude.{◌≡◌, IfOk};
ghost use Rattle.elan_rules.specs.Choices as spec;
ghost use Rattle.elan_rules.specs.walks.ChoiceSteps as walk;

use elan_meant::meant::Meant;
use elan_scope::delivery::Delivery;
use eu_base::NoMemory;

/// What a part delivers. One that ends with a LEAVE agrees with every type.
pub fn delivery_in(part: &Meant) -> Result<Delivery, NoMemory>
    ensures { IfOk result (λ delivery. delivery ≡ spec.delivery_in part.now) }
{
    match part {
        Meant::Value { of, .. } => Ok(Delivery::Of(of.try_clone()?)),
        Meant::Left(_) => Ok(Delivery::Open),
        _ => Ok(Delivery::Nothing),
    }
}

/// What two parts deliver, if they agree.
pub fn joined(delivery: Delivery, other: Delivery) -> Option<Delivery>
    ensures { result ≡ spec.joined delivery other }
{
    match (delivery, other) {
        (Delivery::Open, other) => Some(other),
        (Delivery::Nothing, Delivery::Open) => Some(Delivery::Nothing),
        (Delivery::Nothing, Delivery::Nothing) => Some(Delivery::Nothing),
        (Delivery::Nothing, Delivery::Of(_)) => None,
        (Delivery::Of(of), Delivery::Open) => Some(Delivery::Of(of)),
        (Delivery::Of(_), Delivery::Nothing) => None,
        (Delivery::Of(of), Delivery::Of(other)) => {
            if of.is_same(&other) {
                Some(Delivery::Of(of))
            } else {
                None
            }
        }
    }
}

/// What two parts deliver together, if they agree.
pub fn together(first: &Meant, second: &Meant) -> Result<Option<Delivery>, NoMemory>
    ensures { IfOk result (λ delivery. delivery ≡ spec.joined (spec.delivery_in first.now) (spec.delivery_in second.now)) }
{
    let delivery = delivery_in(first)?;
    let other = delivery_in(second)?;
    Ok(joined(delivery, other))
}

/// The units of ELSE or OTHERWISE.
pub fn part_for_none(units: Option<Meant>) -> Meant
    ensures { result ≡ walk.otherwise units }
{
    match units {
        None => Meant::Absent,
        Some(units) => units,
    }
}
