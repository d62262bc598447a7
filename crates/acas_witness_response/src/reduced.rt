//! What the type of the fractions of a flight says of them, opened: each is in lowest terms.
ghost use Rattle.std.specs.Prelude.{[], ◌∷◌};
ghost use Rattle.std.specs.List.{All, flat_map};
ghost use Rattle.acas_frac.specs.Fraction.{IsReduced};
ghost use Rattle.acas_rulings.specs.Printed.{flight_fractions, fractions_of, hold_part, some_part};

use acas_frac::Frac;
use acas_rulings::{Flight, Segment, Witness};

// Opens a fraction.
fn open(value: &Frac)
    ensures { IsReduced value.now }
{
    let _ = value.den();
}

// Opens a hold, if there is one.
fn open_hold(hold: &Option<Frac>)
    ensures { All IsReduced (flat_map (λ s. s.duration ∷ s.acceleration ∷ []) (hold_part hold.now)) }
{
    match hold {
        Some(duration) => open(duration),
        None => {}
    }
}

/// Opens a segment, if there is one.
pub fn open_part(part: &Option<Segment>)
    ensures { All IsReduced (flat_map (λ s. s.duration ∷ s.acceleration ∷ []) (some_part part.now)) }
{
    match part {
        Some(segment) => {
            open(&segment.duration);
            open(&segment.acceleration);
        }
        None => {}
    }
}

/// Opens each fraction of a flight.
pub fn open_flight(flight: &Flight)
    ensures { All IsReduced (flight_fractions flight.now) }
{
    open(&flight.time);
    open(&flight.v0);
    open(&flight.v1);
    open_hold(&flight.hold);
    open_part(&flight.first);
    open_part(&flight.second);
}

/// Opens each fraction of a witness.
pub fn open_witness(witness: &Witness)
    ensures { All IsReduced (fractions_of witness.now) }
{
    open(&witness.range);
    open(&witness.speed);
    open_flight(&witness.flight);
}
