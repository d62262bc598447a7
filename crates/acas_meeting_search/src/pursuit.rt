//! What the search of a meeting goes through.
ghost use Rattle.acas_flight.specs.Clear.{Area};
ghost use Rattle.acas_areas.specs.View.{area_of};
ghost use Rattle.acas_rulings.specs.Intruder.{RatesFit};
ghost use Rattle.acas_rulings.specs.MeetingView.{may_of};

use acas_rulings::Manoeuvre;
use acas_witness_search::Survey;

/// A survey, with what an intruder may do that changes its rate. It may have each intruder rate of the survey's area.
#[derive(Clone, Copy)]
pub struct Pursuit {
    pub survey: Survey,
    pub may: Manoeuvre,
    ghost fits: { RatesFit (may_of may) (Area.intruder (area_of survey.area)) },
}
