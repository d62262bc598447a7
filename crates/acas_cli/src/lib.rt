//! The top call: everything that the program `acas` does, over any folder and any two outputs.
#![tactic(auto)]

mod drill_call;
mod exit;
mod top_call;
mod work;

pub use acas_accept::{AcceptFault, accept};
pub use acas_command::{Cause, FileRole, Status};
pub use acas_table_text::TableRefusal;
pub use drill_call::drill;
pub use exit::ended;
pub use top_call::run;
pub use work::Work;
