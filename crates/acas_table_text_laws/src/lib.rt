//! Laws of the text of tables: it is read again, it is that of one table, and what is cut or wrong in it has a fault.
#![tactic(auto)]

mod laws;

pub use laws::{
    a_wrong_digest_is_the_last_that_is_read, layers_grow_to_the_text, only_texts_have_no_fault,
    prefixes_are_too_short, texts_are_one_to_one, texts_are_read_again,
    texts_in_two_formats_are_of_one_table,
};
