//! The versions of a model's text, and the pilot's delay, which the second says.
use crate::models::{PLAIN, says_same};
use acas_model::{DELAY_VERSION, read_model};
use acas_tests_data::changed;
use std::alloc::Global;

/// The plain text as one of version 2, without a delay.
pub fn second_version(alloc: Global) -> Option<String> {
    changed(alloc, PLAIN, "version = 1 => version = 2")
}

// A line for the delay behind the limit, and the delay.
const SAID: &[(&str, i64)] = &[
    ("limit = 960 => limit = 960|delay = 0", 0),
    ("limit = 960 => limit = 960|delay = 5", 5),
    ("limit = 960 => limit = 960|delay = 0xA", 10),
];

/// The text of version 2 with a change.
pub fn delayed(alloc: Global, change: &str) -> Option<String> {
    let second = second_version(alloc)?;
    changed(alloc, second.as_str(), change)
}

// Whether the text of version 2 with such a change says a delay, and otherwise the same.
fn says_delay(alloc: Global, change: &str, delay: i64) -> Option<bool> {
    let text = delayed(alloc, change)?;
    let model = read_model(alloc, text.as_bytes()).ok()?;
    Some(model.delay() == delay && says_same(&model))
}

#[test]
fn the_second_version_says_the_delay(rt: HostRuntime) {
    let alloc = rt.alloc();
    assert!(rt; DELAY_VERSION == 2);
    assert!(rt; SAID.iter().all(|&(change, delay)| says_delay(alloc, change, delay) == Some(true)));
}

/// Of the plain text.
pub const VERSIONS: &str = r#"version = 1 =>  : key version missing
version = 1 => version = 0 : key version value 0 outside 1 to 2
version = 1 => version = 3 : key version value 3 outside 1 to 2
version = 1 => version = -2 : key version value -2 outside 1 to 2
version = 1 => version = 2.0 : key version wrong kind
version = 1 => version = '2' : key version wrong kind
version = 1 => version = 2 : key pilot.delay missing
version = 1 => version = 3|delay = 5 : key delay unknown"#;

/// Of the text of version 2 without a delay.
pub const DELAYS: &str = r#"limit = 960 => limit = 960| : key pilot.delay missing
limit = 960 => limit = 960|delay = -1 : key pilot.delay value -1 outside 0 to 10
limit = 960 => limit = 960|delay = 11 : key pilot.delay value 11 outside 0 to 10
limit = 960 => limit = 960|delay = 5.0 : key pilot.delay wrong kind
limit = 960 => limit = 960|delay = '5' : key pilot.delay wrong kind
limit = 960 => limit = 960|delay = [5] : key pilot.delay wrong kind
limit = 960 => limit = 960|hold = 5 : key pilot.hold unknown
limit = 960 => limit = 960|delay = 11|hold = 5 : key pilot.hold unknown
limit = 960 => limit = 960|[delay]|less = 5 : key delay unknown"#;

/// Of the text with a delay of 11 seconds: the first fault in the order of the format is named.
pub const ORDER: &str =
    r#"limit = 960 => limit = 479 : key pilot.limit value 479 outside 480 to 2000
contact = 10000 =>  : key pilot.delay value 11 outside 0 to 10
version = 2 => version = 1 : key pilot.delay unknown
least = 500 =>  : key closing.least missing"#;
