//! The two curves of an area against an intruder that may change its rate.
ghost use Rattle.std.specs.Prelude.{◌≡◌};
ghost use Rattle.acas_areas.specs.View.{area_of, demand_in};
ghost use Rattle.acas_rulings.specs.Intruder.{RatesFit};
ghost use Rattle.acas_rulings.specs.Race.{high_race, low_race, turned};
ghost use Rattle.acas_rulings.specs.MeetingView.{may_of};
ghost use Rattle.acas_race.specs.View.{race_in};

use crate::contest::Contest;
use acas_areas::{Asked, BoxState};
use acas_region::{high_chase, low_chase, natural};
use acas_rulings::Manoeuvre;

/// The low curve of an area against its highest intruder.
pub(crate) fn low_contest(asked: &Asked, may: &Manoeuvre, area: &BoxState) -> Contest
    requires { RatesFit (may_of may.now) (area_of area.now).intruder }
    ensures { race_in result ≡ low_race (demand_in asked.now) (may_of may.now) (area_of area.now) }
{
    Contest {
        chase: low_chase(asked, area),
        goal: may.rate,
        accel: natural(may.accel),
    }
}

/// The high curve of an area against its lowest intruder, turned upside down.
pub(crate) fn high_contest(asked: &Asked, may: &Manoeuvre, area: &BoxState) -> Contest
    requires { RatesFit (may_of may.now) (area_of area.now).intruder }
    ensures { race_in result ≡ turned (high_race (demand_in asked.now) (may_of may.now) (area_of area.now)) }
{
    Contest {
        chase: high_chase(asked, area),
        goal: may.rate,
        accel: natural(may.accel),
    }
}
