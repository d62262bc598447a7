//! What is the same for all entries under one present advisory, made once for the quick answer to each.
ghost use Rattle.std.specs.Prelude.{◌≡◌, ◌<◌, ◌≤◌, ℕ, length, None, IfSome, IsTrue};
ghost use Rattle.acas_spec.specs.Model.{choices_at};
ghost use Rattle.acas_process.specs.Cost.{IsKnownChoice};
ghost use Rattle.acas_bounds.specs.Planes.{IsAtPlace, IsPlane, IsPlaneChoice};

use acas_base::Model;
use acas_means::{choice_at, choice_count};
use acas_spec::Choice;
use acas_units::GREATEST_ADVISORIES;

/// A choice, with the number of its advisory's first state, and its cost in millionths.
#[derive(Clone, Copy)]
pub struct PlaneChoice {
    pub(crate) advisory: u8,
    pub(crate) first: usize,
    pub(crate) cost: i64,
}

/// A present advisory and its choices, in the order of its list.
#[derive(Clone, Copy)]
pub struct Plane {
    pub present: u8,
    pub(crate) count: usize,
    pub(crate) choices: [PlaneChoice; GREATEST_ADVISORIES as usize],
}

// How many choices a present advisory has.
fn few_choices(model: &Model, present: u8) -> usize
    requires { present < model.now.grid.advisories }
    ensures value { result ≡ length (choices_at model.now present) }
    ensures few { result ≤ 16 }
{
    let _ = model.grid();
    choice_count(model, present)
}

// A choice of a present advisory with what is made of it once.
fn plane_choice(model: &Model, present: u8, choice: &Choice) -> PlaneChoice
    requires { IsKnownChoice model.now present choice.now }
    ensures advisory { result.advisory ≡ choice.now.advisory }
    ensures choice { IsPlaneChoice model.now present result }
{
    PlaneChoice {
        advisory: choice.advisory,
        first: model.grid().state_number(choice.advisory, 0) as usize,
        cost: 1_000_000 * choice.cost,
    }
}

impl Plane {
    /// The plane of a present advisory.
    pub fn new(model: &Model, present: u8) -> Plane
        requires { present < model.now.grid.advisories }
        ensures present { result.present ≡ present }
        ensures plane { IsPlane model.now result }
    {
        let _ = model.grid();
        let none = PlaneChoice {
            advisory: 0,
            first: 0,
            cost: 0,
        };
        let count = few_choices(model, present);
        let mut choices = [none; GREATEST_ADVISORIES as usize];
        for place in 0..count {
            choices[place] = plane_choice(model, present, &choice_at(model, present, place));
        }
        Plane {
            present,
            count,
            choices,
        }
    }

    // Whether an advisory is at the place of its own number, where it stands in a list of all advisories in order.
    fn is_own(&self, advisory: u8) -> bool
        requires { self.now.count ≤ 16 }
        ensures { IsTrue result → IsAtPlace self.now advisory advisory }
    {
        let own = usize::from(advisory);
        own < self.count && self.choices[own].advisory == advisory
    }

    // The place of an advisory in the list, where it is at one.
    #[inline(never)]
    fn scanned_place(&self, advisory: u8) -> Option<usize>
        requires { self.now.count ≤ 16 }
        ensures some { IfSome result (IsAtPlace self.now advisory) }
        ensures none { result ≡ None → (place : ℕ) → ¬ (IsAtPlace self.now advisory place) }
    {
        for place in 0..self.count {
            if self.choices[place].advisory == advisory {
                return Some(place);
            }
        }
        None
    }

    /// The place of an advisory in the list, where it is at one. It looks first at the place of the advisory's own number.
    pub(crate) fn place_of(&self, advisory: u8) -> Option<usize>
        requires { self.now.count ≤ 16 }
        ensures some { IfSome result (IsAtPlace self.now advisory) }
        ensures none { result ≡ None → (place : ℕ) → ¬ (IsAtPlace self.now advisory place) }
    {
        if self.is_own(advisory) {
            return Some(usize::from(advisory));
        }
        self.scanned_place(advisory)
    }
}
