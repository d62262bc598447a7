//! Which course a search of a meeting tries first.
ghost use Rattle.std.specs.Prelude.{◌≡◌};
ghost use Rattle.acas_areas.specs.Search.{unit};
ghost use Rattle.acas_areas.specs.Value.{IsWithinHalf};
ghost use Rattle.acas_rulings.specs.Hunt.{Course, Finds, accel, high_course, low_course, value};
ghost use Rattle.acas_cell_examples.specs.Hunted.{level_hunt};

/// In the second the intruder goes 100 ticks up or 100 down, and half of the puck's height is 120: the low course, against an intruder that
/// goes up, is in contact at once, and so is the high course. The low one is tried first: it is found, and no other.
#[tactic(auto, unfolding(acas_flight::specs::Curves::approach))]
pub fn the_low_course_is_tried_first()
    ensures low { IsWithinHalf 120 (value (unit level_hunt.search) (accel level_hunt) (low_course level_hunt)) }
    ensures high { IsWithinHalf 120 (value (unit level_hunt.search) (accel level_hunt) (high_course level_hunt)) }
    ensures not_more { IsWithinHalf 99 (value (unit level_hunt.search) (accel level_hunt) (low_course level_hunt)) → ⊥ }
    ensures found { Finds 120 level_hunt (low_course level_hunt) }
    ensures alone { (c : Course) → Finds 120 level_hunt c → c ≡ low_course level_hunt }
    ensures not_high { Finds 120 level_hunt (high_course level_hunt) → ⊥ }
{}
