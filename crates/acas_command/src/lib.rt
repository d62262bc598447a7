//! What all commands share: how a run ends, the line on the error output, text files and those of models, and what they call for.
#![tactic(auto)]

mod error_line;
mod fault_text;
mod line_fields;
mod model_file;
mod refusal_text;
mod state_fields;
mod status;
mod text_file;

pub use acas_doc::InputFault;
pub use acas_table_text::TableRefusal;
pub use error_line::{report, report_words};
pub use line_fields::{put_count, put_millionths, put_text, put_wide_millionths};
pub use model_file::{ModelFile, read_model_file};
pub use state_fields::{
    put_count_field, put_millionths_field, put_name_field, put_number_field, put_state_fields,
    put_text_field,
};
pub use status::{Cause, FileRole, Status, cause_of, cause_of_report};
pub use text_file::read_text_file;
