//! Costs, and the cheapest of the places that were looked at.
#![tactic(auto)]

ghost use Rattle.std.specs.Prelude.{◌≡◌};
ghost use Rattle.gs_lagrange.specs.Place.{cheaper, place_or};

use crate::cost::Cost;

/// A place of an instance, with its cost.
#[derive(Clone, Copy, Debug)]
pub struct Choice {
    pub place: u32,
    pub cost: Cost,
}

/// The cheaper of two choices, the earlier one where they cost the same.
pub fn cheaper_of(best: &Option<Choice>, choice: &Choice) -> Option<Choice>
    ensures { result ≡ cheaper best.now choice.now }
{
    match best {
        Some(other) => {
            if choice.cost.is_below(&other.cost) {
                Some(*choice)
            } else {
                Some(*other)
            }
        }
        None => Some(*choice),
    }
}

/// The place that was chosen, or the present one where there was no choice.
pub fn place_or(best: &Option<Choice>, present: u32) -> u32
    ensures { result ≡ place_or best.now present }
{
    match best {
        Some(choice) => choice.place,
        None => present,
    }
}
