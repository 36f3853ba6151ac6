// Presentations by generators and relations, and their reduction to Smith normal form.
#![tactic(auto)]

mod fault;
mod grid;
mod operation;
mod pivot;
mod prescribe;
mod product;
mod state;
mod table;

pub use fault::{CallFault, Table, TableFault};
pub use state::calls::open;
pub use state::{Finished, Open, Presentation, Reduced, Run, Step, Unreduced};
pub use table::Transform;
