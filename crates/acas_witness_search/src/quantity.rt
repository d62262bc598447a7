//! One pass of a survey.
ghost use Rattle.std.specs.Prelude.{◌≡◌};
ghost use Rattle.acas_areas.specs.Flights.{value};
ghost use Rattle.acas_areas.specs.Passes.{IsLast};
ghost use Rattle.acas_areas.specs.Search.{unit};
ghost use Rattle.acas_witness_plans.specs.Plans.{CanBeFlown, clearance_of};
ghost use Rattle.acas_witness_search.specs.Order.{next_of};
ghost use Rattle.acas_witness_search.specs.Surveys.{IsPointOf, pass_of, search_of};

use crate::survey::Survey;
use acas_areas::Pass;
use acas_witness_plans::{Outcome, Plan, fly, is_under};

/// The quantity that a pass moves.
#[derive(Clone, Copy)]
pub enum Quantity {
    Time,
    Altitude,
    Intruder,
    Aim,
    Pull,
    Hold,
    Own,
}

impl Quantity {
    /// The quantity that the next pass moves.
    pub fn next(self) -> Option<Quantity>
        ensures { result ≡ next_of self }
    {
        match self {
            Quantity::Time => Some(Quantity::Altitude),
            Quantity::Altitude => Some(Quantity::Intruder),
            Quantity::Intruder => Some(Quantity::Aim),
            Quantity::Aim => Some(Quantity::Pull),
            Quantity::Pull => Some(Quantity::Hold),
            Quantity::Hold => Some(Quantity::Own),
            Quantity::Own => None,
        }
    }
}

/// The pass of a survey over a quantity, and the number of its last point.
#[derive(Clone, Copy)]
pub(crate) struct SearchPass {
    pub survey: Survey,
    pub quantity: Quantity,
    pub last: u32,
}

impl Survey {
    /// The flight of that number of the pass over a quantity.
    pub fn plan_at(&self, quantity: Quantity, number: u32) -> Plan
        ensures point { IsPointOf self.now (pass_of quantity) number result }
        ensures flown { CanBeFlown result }
    {
        match quantity {
            Quantity::Time => self.at_time(number),
            Quantity::Altitude => self.at_altitude(number),
            Quantity::Intruder => self.at_intruder(number),
            Quantity::Aim => self.at_aim(number),
            Quantity::Pull => self.at_pull(number),
            Quantity::Hold => self.at_hold(number),
            Quantity::Own => self.at_own(number),
        }
    }

    /// The number of the last point of the pass over a quantity.
    pub fn last(&self, quantity: Quantity) -> u32
        ensures { IsLast (pass_of quantity (search_of self.now)) result }
    {
        match quantity {
            Quantity::Time => self.last_time(),
            Quantity::Altitude => self.last_altitude(),
            Quantity::Intruder => self.last_intruder(),
            Quantity::Aim => self.last_aim(),
            Quantity::Pull => self.last_pull(),
            Quantity::Hold => self.last_hold(),
            Quantity::Own => self.last_own(),
        }
    }
}

impl Pass for SearchPass {
    type Flight = Outcome;

    ghost value = { λ f. clearance_of f.climb f.intruder_end };

    ghost is_at = { λ s i f. IsPointOf s.survey (pass_of s.quantity) i f.plan × CanBeFlown f.plan };

    ghost value_at = { λ s i. value (unit (search_of s.survey))
        ((pass_of s.quantity (search_of s.survey)).point i) };

    ghost last = { λ s. s.last };

    ghost half = { λ s. s.survey.half };

    fn at(&self, number: u32) -> Outcome {
        fly(&self.survey.plan_at(self.quantity, number))
    }

    fn is_below(&self, flight: &Outcome) -> bool {
        is_under(flight, self.survey.half)
    }
}
