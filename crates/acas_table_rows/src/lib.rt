//! What becomes of a table layer by layer: its file, stored as the sweep goes, or from layers at hand; its printed lines; and the line that
//! says how large it is.
#![tactic(auto)]

mod begun_writer;
mod entry_lines;
mod line_rows;
mod stored_layers;
mod stored_line;
mod swept_lines;
mod swept_table;
mod table_lines;
mod table_rows;

pub use stored_layers::store_layers;
pub use stored_line::print_stored_line;
pub use swept_lines::print_table;
pub use swept_table::store_swept;
pub use table_lines::Pen;
