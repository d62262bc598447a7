//! Entries that are held against the layer below, by its values and by its means. More of them are cases of `acas_cases`.
use self::Wanted::{Allows, Needs, NotAllowed, Sound};
use crate::models::{COSTLY, LAST_OF_NOISY, NOISY, NONE};
use acas_base::Model;
use acas_bounds::BoundFault;
use acas_plain::{check_by_means, check_entry, fill_means};
use acas_tests_data::model_of;
use acas_units::{Entry, Pair};
use std::alloc::Global;

// What is wanted of a check: no fault, or which, with the value that the entry's own is held against.
#[derive(Clone, Copy)]
enum Wanted {
    Sound,
    NotAllowed,
    Needs(i128),
    Allows(i128),
}

impl Wanted {
    fn answer(self, entry: Entry) -> Result<(), BoundFault> {
        match self {
            Wanted::Sound => Ok(()),
            Wanted::NotAllowed => Err(BoundFault::AdviceNotAllowed),
            Wanted::Needs(needed) => Err(BoundFault::UpperTooLow {
                stands: entry.pair.upper,
                needed,
            }),
            Wanted::Allows(allowed) => Err(BoundFault::LowerTooHigh {
                stands: entry.pair.lower,
                allowed,
            }),
        }
    }
}

// Model, seconds to go, state, upper and lower value, advice, and what is wanted of the check.
const ROWS: [(&str, u32, u32, i64, i64, u8, Wanted); 6] = [
    (NOISY, 0, 0, 999_999, 999_999, 255, Needs(1_000_000)),
    (NOISY, 0, 13, 10_000_000, -10_000_000, 255, Sound),
    // the sigma points lead to 5, 10 and 15 ft, where contact costs 5, 4 and 3 sixths
    (NOISY, 1, 1, 666_667, 666_666, 0, Sound),
    // the upper value by the advice, the lower value by the cheaper choice
    (COSTLY, 1, 1, 1_666_667, 1_666_666, 1, Needs(3_666_667)),
    (COSTLY, 1, 1, 3_666_667, 1_666_667, 1, Allows(1_666_666)),
    (COSTLY, 2, 9, 3_666_667, 1_666_666, 2, NotAllowed),
];

// Whether both checks answer so of an entry over the last layer of a model of 16 states.
fn both_answer(
    model: &Model,
    n: u32,
    state: u32,
    entry: &Entry,
    answer: Result<(), BoundFault>,
) -> bool {
    if model.grid().states() != 16 || state >= 16 {
        return false;
    }
    let mut means = [NONE; 16];
    fill_means(model, &LAST_OF_NOISY, &mut means);
    check_entry(model, n, state, entry, &LAST_OF_NOISY) == answer
        && check_by_means(model, n, state, entry, &means) == answer
}

// Whether both checks answer so of an entry of the model of a text.
fn is_answered(
    alloc: Global,
    text: &str,
    n: u32,
    state: u32,
    entry: &Entry,
    answer: Result<(), BoundFault>,
) -> Option<bool> {
    let model = model_of(alloc, text)?;
    Some(both_answer(&model, n, state, entry, answer))
}

#[test]
fn entries_over_the_last_layer(rt: HostRuntime) {
    for (text, n, state, upper, lower, advice, wanted) in ROWS {
        let pair = Pair { upper, lower };
        let entry = Entry { pair, advice };
        let answer = wanted.answer(entry);
        assert!(rt;
            is_answered(rt.alloc(), text, n, state, &entry, answer) == Some(true),
            "{n} {upper} {lower} {advice}"
        );
    }
}
