// Tables of values over slews and loads, and how a value is looked up between their points.
mod axis;
mod fault;
mod look;
mod micros;
mod rounding;
mod table;
mod wide;

pub use fault::TableErr;
pub use micros::Micros;
pub use table::Table;
