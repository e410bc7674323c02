//! Starting sizes: the best of those that passes with multipliers on late endpoints go through.
//!
//! [`start`] promises the sizes that `start_of` names (`specs/Start.antt`): the first of least excess, and then least leakage, among the
//! netlist's sizes and those after each pass. What a pass does is stated in `specs/Weight.antt` (the weights of nets, by the paths of
//! `specs/Path.antt`), `specs/Place.antt` (the place that each instance takes, by the costs of `specs/Cost.antt`) and
//! `specs/Multiplier.antt`.
//!
//! The weights are defined path by path, and found in one pass against the order of nets: what comes by an edge goes on to the edge that it
//! comes from. So a pass costs some timings of the design, however many endpoints there are.
//!
//! Where to change what: where an edge comes from in `source`, the weights in `weigh` and `flow`, the cost of a place in `price`, the place of an
//! instance in `place`, the parallel map over instances in `chooser`, multipliers in `multiplier`, what sizes are judged by in `score`, a pass in `pass`, and the choice among all in `starts`.
#![tactic(auto)]

mod amount;
mod best;
mod choice;
mod chooser;
mod cost;
mod edge;
mod flow;
mod multiplier;
mod pass;
mod place;
mod price;
mod score;
mod source;
mod starts;
mod state;
mod weigh;
mod weighed;

pub use starts::start;
