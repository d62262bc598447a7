//! The lines of reports, one for each ruling of a cell or a box; the report of an audit, cell by cell, and those of box files, whatever the
//! rulings come from.
#![tactic(auto)]

mod audit;
mod boxes;
mod cell_laws;
mod cells;
mod counts;
mod fields;
mod laws;
mod lines;
mod meet_counts;
mod pen;
mod report;
mod rulings;
mod said;
mod witness_fields;

pub use audit::{Audit, Place};
pub use boxes::{BoxSource, write_boxes_by};
pub use cell_laws::begun_reports_go_on;
pub use counts::{Counts, Which, leaves_out};
pub use fields::line_frac;
pub use laws::{begun_meetings_reports_go_on, begun_regions_reports_go_on};
pub use lines::{line_counts, write_cell_line, write_counts};
pub use meet_counts::MeetCounts;
pub use pen::Pen;
pub use report::write_report_by;
pub use rulings::Rulings;
pub use said::{SAID_BYTES, Said};
pub use witness_fields::line_witness;
