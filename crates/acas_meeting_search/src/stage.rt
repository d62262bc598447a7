//! The passes of a pursuit, by what they move.
ghost use Rattle.std.specs.Prelude.{◌≡◌};
ghost use Rattle.acas_meeting_search.specs.Stages.{next_of};

use acas_witness_search::Quantity;

/// What a pass moves: a quantity of the own flight or the intruder's rate at the start, as in the search of an intruder that holds its
/// rate; or the intruder's goal.
#[derive(Clone, Copy)]
pub(crate) enum Stage {
    Of(Quantity),
    Goal,
}

impl Stage {
    /// What the next pass moves: after the altitude the goal, and else the next quantity.
    pub(crate) fn next(self) -> Option<Stage>
        ensures { result ≡ next_of self }
    {
        match self {
            Stage::Of(Quantity::Altitude) => Some(Stage::Goal),
            Stage::Of(quantity) => Some(Stage::Of(quantity.next()?)),
            Stage::Goal => Some(Stage::Of(Quantity::Intruder)),
        }
    }
}
