//! One pass of a pursuit.
ghost use Rattle.acas_meeting_search.specs.Courses.{IsFlownOf, point_of, value_at};
ghost use Rattle.acas_meeting_search.specs.Turns.{value_in};

use crate::flown::{fly_against, is_under};
use crate::parts::Outcome;
use crate::pursuit::Pursuit;
use crate::stage::Stage;
use acas_areas::Pass;

/// A pass of a pursuit, and the number of its last point.
#[derive(Clone, Copy)]
pub(crate) struct StagePass {
    pub pursuit: Pursuit,
    pub stage: Stage,
    pub last: u32,
}

impl Pass for StagePass {
    type Flight = Outcome;

    ghost value = { value_in };

    ghost is_at = { λ s i o. IsFlownOf s.pursuit o.flown (point_of s.pursuit s.stage i) };

    ghost value_at = { λ s i. value_at s.pursuit (point_of s.pursuit s.stage i) };

    ghost last = { λ s. s.last };

    ghost half = { λ s. s.pursuit.survey.half };

    fn at(&self, number: u32) -> Outcome {
        let plan = self.pursuit.plan_at(self.stage, number);
        let turn = self.pursuit.turn_at(self.stage, number, &plan);
        fly_against(&plan, &turn, &self.pursuit.may)
    }

    fn is_below(&self, flight: &Outcome) -> bool {
        is_under(flight, self.pursuit.survey.half)
    }
}
