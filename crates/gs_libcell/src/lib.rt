//! The parts of a Liberty library, as its tree says them, after the Liberty reference manual in this project's own profile.
//!
//! Each part is a definition and a function whose contract is that definition: attributes and groups by name (`specs/Attribute.antt`), white
//! and continued lines (`specs/Text.antt`), numbers (`specs/Number.antt`), units (`specs/Unit.antt`), templates (`specs/Template.antt`), lookup
//! tables (`specs/Grid.antt`), pins (`specs/Pin.antt`) and `timing` groups (`specs/Timing.antt`). Nothing is judged here: what is missing,
//! bad or given is a value ([`Amount`], [`Points`], [`Grid`]), and the crate above says which of it is refused. Want of memory is the
//! one error.
//!
//! A [`Context`] holds the units and an ordered map of the templates; contracts see the units, and the items among which the templates stand.
//! Everything is read into values of its own, once, in time linear in the text.
//!
//! A new attribute of a pin is a field of `PinFacts`, one of a `timing` group a field of `Timing`, with a line in the definition beside it.
#![tactic(auto)]

mod attribute;
mod grid;
mod number;
mod numbers;
mod pin;
mod template;
mod text;
mod timing;
mod unit;

pub use attribute::{group_in, label_of, last_complex, last_group, last_simple};
pub use grid::{Grid, Lists};
pub use number::{Amount, amount_in};
pub use numbers::Points;
pub use pin::{Direction, NamedPin, PinFacts, direction_in, is_true, pins_in};
pub use template::{Context, Template, Variable};
pub use text::{is_white, unfolded};
pub use timing::{Timing, is_read, timings_in};
pub use unit::{is_unit, load_tens, time_tens};
