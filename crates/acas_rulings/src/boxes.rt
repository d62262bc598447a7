//! Boxes as a value.
ghost use Rattle.std.specs.Prelude.{◌≡◌, ◌<◌, ◌≤◌, length, map};
ghost use Rattle.acas_units.specs.declared.limits.TheConstants.{GREATEST_BOXES, LEAST_BOXES};
ghost use Rattle.acas_rulings.specs.Boxes.{audited, box_at};

use crate::audit_box::AuditBox;
use std::marker::Model;

/// The boxes of a file in order, from [`LEAST_BOXES`](acas_units::LEAST_BOXES) to [`GREATEST_BOXES`](acas_units::GREATEST_BOXES) of
/// them. Contracts see the list of what they stand for.
#[derive(Drop)]
pub struct Boxes {
    boxes: Vec<AuditBox>,
}

impl Model for Boxes {
    ghost use Rattle.std.specs.Prelude.{List};
    ghost use Rattle.acas_rulings.specs.Boxes.{AuditedBox};
    ghost use Rattle.acas_rulings.specs.BoxView.{AreOfAFile, boxes_view};

    ghost Value = { List AuditedBox };

    ghost view = { boxes_view };

    ghost invariant = { AreOfAFile };
}

impl Boxes {
    /// These boxes. There are from [`LEAST_BOXES`](acas_units::LEAST_BOXES) to [`GREATEST_BOXES`](acas_units::GREATEST_BOXES).
    pub fn new(boxes: Vec<AuditBox>) -> Boxes
        requires some { LEAST_BOXES ≤ length boxes.items }
        requires few { length boxes.items ≤ GREATEST_BOXES }
        ensures { result ≡ map audited boxes.items }
    {
        Boxes { boxes }
    }

    /// How many boxes there are.
    pub fn len(&self) -> u32
        ensures { result ≡ length self.now }
    {
        self.boxes.len() as u32
    }

    /// The box at a place, counted from 0.
    pub fn at(&self, place: u32) -> &AuditBox
        requires { place < length self.now }
        ensures { audited result.now ≡ box_at self.now place }
    {
        &self.boxes[place as usize]
    }
}
