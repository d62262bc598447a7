//! What is told of an area in a window, line by line.
use acas_areas::{BoxState, Extreme, Window};
use acas_base::Model;
use acas_frac::Frac;
use acas_number_texts::print_frac;
use acas_region::{high_extreme, is_clear, low_extreme};
use acas_rulings::{Segment, Witness};

// A word, and a number after it.
fn word(out: &mut Vec<u8>, word: &str, value: &Frac) -> Option<()> {
    out.extend_from_slice(word.as_bytes()).ok()?;
    print_frac(out, value).ok()
}

fn gap(out: &mut Vec<u8>, name: &str, gap: &Extreme) -> Option<()> {
    word(out, name, &gap.value)?;
    word(out, " at ", &gap.time)
}

/// The window, the least gap in ticks and its time, the greatest, and whether the area is clear.
pub fn tell(
    out: &mut Vec<u8>,
    model: &Model,
    area: &BoxState,
    window: &Window,
    advisory: u8,
) -> Option<()> {
    if u32::from(advisory) >= model.grid().advisories {
        return None;
    }
    word(out, "window ", &window.from)?;
    word(out, " ", &window.to)?;
    gap(out, "\nleast ", &low_extreme(model, area, window, advisory))?;
    gap(
        out,
        "\ngreatest ",
        &high_extreme(model, area, window, advisory),
    )?;
    let clear = if is_clear(model, area, window, advisory) {
        "\nclear"
    } else {
        "\nnot clear"
    };
    out.extend_from_slice(clear.as_bytes()).ok()
}

fn segment(out: &mut Vec<u8>, segment: &Option<Segment>) -> Option<()> {
    if let Some(segment) = segment {
        word(out, " ", &segment.duration)?;
        word(out, "@", &segment.acceleration)?;
    }
    Some(())
}

// The response, segment by segment.
fn response(out: &mut Vec<u8>, witness: &Witness) -> Option<()> {
    out.extend_from_slice(b" response").ok()?;
    if let Some(hold) = &witness.flight.hold {
        word(out, " ", hold)?;
        word(out, "@", &Frac::whole(0))?;
    }
    segment(out, &witness.flight.first)?;
    segment(out, &witness.flight.second)
}

/// That there is no witness.
pub fn tell_no_witness(out: &mut Vec<u8>) -> Option<()> {
    out.extend_from_slice(b"\nno contact").ok()
}

/// A witness: the time, the range, the speed, the altitude, the own and the intruder's rate, and the response.
pub fn tell_witness(out: &mut Vec<u8>, witness: &Witness) -> Option<()> {
    let flight = &witness.flight;
    let words = [
        ("\ntime ", flight.time),
        (" range ", witness.range),
        (" speed ", witness.speed),
        (" ticks ", Frac::whole(flight.h)),
        (" own ", flight.v0),
        (" intruder ", flight.v1),
    ];
    for (name, value) in words {
        word(out, name, &value)?;
    }
    response(out, witness)
}
