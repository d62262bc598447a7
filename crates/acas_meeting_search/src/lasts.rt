//! The numbers of the last points of the passes.
ghost use Rattle.acas_areas.specs.Passes.{IsLast};
ghost use Rattle.acas_rulings.specs.Hunt.{goal_pass};
ghost use Rattle.acas_meeting_search.specs.Stages.{pass_in};
ghost use Rattle.acas_meeting_search.specs.View.{hunt_of};

use crate::pursuit::Pursuit;
use crate::stage::Stage;
use acas_witness_search::rate_steps_between;

impl Pursuit {
    // That of the pass over the goal.
    fn last_goal(&self) -> u32
        ensures { IsLast (goal_pass (hunt_of self.now)) result }
    {
        rate_steps_between(-self.may.rate, self.may.rate)
    }

    /// That of a pass.
    pub(crate) fn last(&self, stage: Stage) -> u32
        ensures { IsLast (pass_in stage (hunt_of self.now)) result }
    {
        match stage {
            Stage::Of(quantity) => self.survey.last(quantity),
            Stage::Goal => self.last_goal(),
        }
    }
}
