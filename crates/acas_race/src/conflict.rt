//! What a race is run for.

use acas_areas::{BoxState, Window};
use acas_base::Model;
use acas_rulings::Manoeuvre;

/// An area of states in a window, under an advisory of a model, and what its intruder may do.
#[derive(Clone, Copy)]
pub struct Conflict<'a> {
    pub model: &'a Model,
    pub may: &'a Manoeuvre,
    pub area: &'a BoxState,
    pub window: &'a Window,
    pub advisory: u8,
}
