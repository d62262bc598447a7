//! The courses of the passes: the own plan and the intruder's turn of each.
ghost use Rattle.std.specs.Prelude.{◌≡◌, ℕ, ◌*◌, pos, ◌*ℤ◌, neg_ℤ};
ghost use Rattle.acas_frac.specs.Fraction.{whole_of};
ghost use Rattle.acas_flight.specs.Values.{IsOver};
ghost use Rattle.acas_areas.specs.Limits.{IsRate, IsTime};
ghost use Rattle.acas_areas.specs.Passes.{falling};
ghost use Rattle.acas_areas.specs.Search.{rate_step};
ghost use Rattle.acas_witness_plans.specs.Plans.{CanBeFlown, IsPlanOf};
ghost use Rattle.acas_rulings.specs.Hunt.{Course, bottom, top};
ghost use Rattle.acas_meeting_search.specs.Courses.{point_of, unit_of};
ghost use Rattle.acas_meeting_search.specs.Turns.{CanBeFlownWith, IsTurnOf};
ghost use Rattle.acas_meeting_search.specs.View.{hunt_of};

use crate::parts::Turn;
use crate::pursuit::Pursuit;
use crate::stage::Stage;
use acas_frac::Frac;
use acas_witness_plans::{Plan, rate_at, rate_steps};
use acas_witness_search::{Quantity, falling_place};

impl Pursuit {
    /// The own plan of a course. The intruder's rate has not moved in the pass over its goal.
    pub(crate) fn plan_at(&self, stage: Stage, number: u32) -> Plan
        ensures point { IsPlanOf (unit_of self.now) (Course.own (point_of self.now stage number)) result }
        ensures flown { CanBeFlown result }
    {
        match stage {
            Stage::Of(quantity) => self.survey.plan_at(quantity, number),
            Stage::Goal => self.survey.plan_at(Quantity::Intruder, 0),
        }
    }

    /// From the greatest rate of the area toward the greatest that the intruder may have.
    pub(crate) fn upward(&self, time: &Frac) -> Turn
        requires { IsTime time.now }
        ensures time { result.time ≡ time.now }
        ensures intruder { result.intruder ≡ whole_of self.now.survey.area.v1.greatest }
        ensures goal { result.goal ≡ whole_of self.now.may.rate }
        ensures flown { CanBeFlownWith self.now.may.accel result }
    {
        Turn {
            time: *time,
            intruder: Frac::whole(self.survey.area.v1.greatest),
            goal: Frac::whole(self.may.rate),
        }
    }

    /// From the least rate of the area toward the least that the intruder may have.
    pub(crate) fn downward(&self, time: &Frac) -> Turn
        requires { IsTime time.now }
        ensures time { result.time ≡ time.now }
        ensures intruder { result.intruder ≡ whole_of self.now.survey.area.v1.least }
        ensures goal { result.goal ≡ whole_of (neg_ℤ self.now.may.rate) }
        ensures flown { CanBeFlownWith self.now.may.accel result }
    {
        Turn {
            time: *time,
            intruder: Frac::whole(self.survey.area.v1.least),
            goal: Frac::whole(-self.may.rate),
        }
    }

    // The goal of that number on the way down from the greatest rate to the least.
    fn goal_at(&self, number: u32) -> Frac
        ensures over { let h = hunt_of self.now in let q = unit_of self.now in
            IsOver (q * q) (falling (top h) (bottom h) (number * rate_step h.search)) result }
        ensures rate { IsRate result }
    {
        let top = rate_steps(self.may.rate);
        let bottom = rate_steps(-self.may.rate);
        rate_at(falling_place(top, bottom, number))
    }

    // The turn of that number of the pass over the goal.
    fn toward_goal(&self, number: u32) -> Turn
        ensures point { IsTurnOf (unit_of self.now) (point_of self.now Stage.Goal number) result }
        ensures flown { CanBeFlownWith self.now.may.accel result }
    {
        Turn {
            goal: self.goal_at(number),
            ..self.upward(&self.survey.high)
        }
    }

    // The turn from the intruder's rate of that number.
    fn from_rate(&self, number: u32, plan: &Plan) -> Turn
        requires plan { let point = point_of self.now (Stage.Of Quantity.Intruder) number in
            IsPlanOf (unit_of self.now) (Course.own point) plan.now }
        requires can { CanBeFlown plan.now }
        ensures point { IsTurnOf (unit_of self.now) (point_of self.now (Stage.Of Quantity.Intruder) number) result }
        ensures flown { CanBeFlownWith self.now.may.accel result }
    {
        Turn {
            intruder: plan.intruder,
            ..self.downward(&self.survey.high)
        }
    }

    /// The intruder's turn of a course, of which the plan is the own one.
    pub(crate) fn turn_at(&self, stage: Stage, number: u32, plan: &Plan) -> Turn
        requires plan { IsPlanOf (unit_of self.now) (Course.own (point_of self.now stage number)) plan.now }
        requires can { CanBeFlown plan.now }
        ensures point { IsTurnOf (unit_of self.now) (point_of self.now stage number) result }
        ensures flown { CanBeFlownWith self.now.may.accel result }
    {
        match stage {
            Stage::Of(quantity) => match quantity {
                Quantity::Time => self.upward(&plan.time),
                Quantity::Altitude => self.upward(&self.survey.high),
                Quantity::Intruder => self.from_rate(number, plan),
                Quantity::Aim => self.downward(&self.survey.high),
                Quantity::Pull => self.downward(&self.survey.high),
                Quantity::Hold => self.downward(&self.survey.high),
                Quantity::Own => self.downward(&self.survey.high),
            },
            Stage::Goal => self.toward_goal(number),
        }
    }
}
