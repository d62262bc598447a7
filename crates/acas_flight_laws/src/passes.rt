//! What holds of the passes of each search, and of the flight that it finds. The functions do nothing: each clause is a law.
ghost use Rattle.std.specs.Prelude.{◌≡◌, ℕ, ◌*◌, ◌≤◌, pos, ◌*ℤ◌, List, ◌++◌};
ghost use Rattle.acas_flight.specs.Response.{Segment};
ghost use Rattle.acas_flight.specs.Window.{Times};
ghost use Rattle.acas_flight.specs.Clear.{EndsInVerticalContact, IsEndangeredDuring};
ghost use Rattle.acas_areas.specs.declared.steps.TheConstants.{TIME_STEPS, PULL_STEPS, RATE_STEPS};
ghost use Rattle.acas_areas.specs.Value.{thinnest};
ghost use Rattle.acas_areas.specs.Flights.{Flight, value};
ghost use Rattle.acas_areas.specs.Passes.{AreJoined, Each, IsGentle, IsLast, Pass};
ghost use Rattle.acas_areas.specs.Search.{CanMeet, IsFound, IsSearch, IsTimed, Search, high_flight, low_flight, own_pass, passes, pull_step, rate_step, time_pass, time_step, unit};
ghost use Rattle.acas_areas.specs.Responses.{IsFlightFrom, IsResponse, RespondsTo, fine};

/// The steps of a search over its common denominator are 1/256 s, 1/2048 ft/min per second and 1/8 ft/min.
pub fn steps_are_parts()
    ensures time { (s : Search) → TIME_STEPS * time_step s ≡ unit s }
    ensures pull { (s : Search) → PULL_STEPS * pull_step s ≡ unit s }
    ensures rate { (s : Search) → RATE_STEPS * rate_step s ≡ unit s * unit s }
{}

/// Each point of each pass is a flight from the area that lasts a time of the window, and its response meets the demand.
pub fn passes_hold_flights_that_meet()
    ensures from { (s : Search) (w : Times) → IsSearch s → IsTimed s w →
        Each (λ p. (i : ℕ) → IsFlightFrom s.demand s.area w (unit s) (Pass.point p i)) (passes s) }
    ensures meets { (s : Search) → IsSearch s →
        Each (λ p. (i : ℕ) → RespondsTo s.demand (unit s) (Pass.point p i)) (passes s) }
{}

/// One step of each pass raises the value of the flight by less than the thinnest puck is thick.
pub fn passes_are_gentle()
    ensures { (s : Search) → IsSearch s → Each (IsGentle (value (unit s))) (passes s) }
{}

/// The first pass begins at the low flight, the last point of each pass is the first of the next, and the last pass ends at the
/// high flight.
pub fn passes_are_joined()
    ensures first { (s : Search) → Pass.point (time_pass s) 0 ≡ low_flight s }
    ensures next { (s : Search) → IsSearch s → AreJoined (passes s) }
    ensures last { (s : Search) (last : ℕ) → IsSearch s → IsLast (own_pass s) last →
        Pass.point (own_pass s) last ≡ high_flight s }
{}

/// The flight that a search finds, with its response, starts in the area, meets the demand, lasts a time of the window and ends in
/// contact.
pub fn found_flights_end_in_contact()
    ensures { (half : ℕ) (s : Search) (w : Times) (c : Flight) (hold rest : List Segment) →
        thinnest ≤ 2 * half → IsSearch s → IsTimed s w → CanMeet half s → IsFound half s c →
        IsResponse (unit s) c hold rest →
        let q = fine (unit s) c in
        EndsInVerticalContact half s.demand s.area w q (c.altitude *ℤ pos q) (c.own *ℤ pos c.pull) (c.intruder *ℤ pos c.pull) (hold ++ rest) }
{}

/// A search finds one flight: the rule leaves no choice.
pub fn found_flights_are_one()
    ensures { (half : ℕ) (s : Search) (c d : Flight) → IsFound half s c → IsFound half s d → c ≡ d }
{}

/// A search that can meet finds a flight, and each flight has a response. So the area of such a search is endangered.
pub fn searches_find_a_flight()
    ensures found { (half : ℕ) (s : Search) → IsSearch s → CanMeet half s → (c : Flight) × IsFound half s c }
    ensures response { (q : ℕ) (c : Flight) → (hold : List Segment) × (rest : List Segment)
        × IsResponse q c hold rest }
    ensures danger { (half : ℕ) (s : Search) (w : Times) → thinnest ≤ 2 * half → IsSearch s → IsTimed s w →
        CanMeet half s →
        IsEndangeredDuring half s.demand s.area w }
{}
