//! What a report says: its lines give the rulings back, what they say holds, and there is one report alone.
#![tactic(auto)]

mod laws;

pub use laws::{
    begun_reports_begin_the_report, lines_say_their_rulings, printed_rulings_hold, reports_are_one,
    verdicts_make_one_report,
};
