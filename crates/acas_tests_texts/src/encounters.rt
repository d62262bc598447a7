//! The text of an encounter, in two spellings and with each fault that it can have.
use crate::faults::three_advisories;
use acas_replay::{Encounter, Start, read_encounter};
use std::alloc::Global;

/// Three seconds.
pub const PLAIN: &str = r#"version = 1
advisory = "climb"
range = 500
closing = 400
altitude = -101
own = 240
intruder = -60
own_accel = [-480, 0, 2000]
intruder_accel = [1, 7, -2000]
"#;

const OTHER: &str = r#"# the same encounter
intruder_accel = [
  1, # each second
  0x7,
  -2_000,
]
intruder = -60
"own" = 240
own_accel = [ -480, +0, 2_000 ]
closing = 400 # in ft/s
altitude = -101
'range' = 500
advisory = 'climb'

version = 1
"#;

fn says_start(encounter: &Encounter) -> bool {
    let want = Start {
        advisory: 1,
        range: 500,
        closing: 400,
        altitude: -12_120,
        own: 240,
        intruder: -60,
    };
    *encounter.start() == want
}

// Whether both accelerate so in a second.
fn says_second(encounter: &Encounter, second: u32, own: i64, intruder: i64) -> bool {
    second < encounter.seconds() && encounter.accelerations(second) == (own, intruder)
}

fn says_seconds(encounter: &Encounter) -> bool {
    encounter.seconds() == 3
        && says_second(encounter, 0, -480, 1)
        && says_second(encounter, 1, 0, 7)
        && says_second(encounter, 2, 2000, -2000)
}

fn says_encounter(alloc: Global, text: &str) -> Option<bool> {
    let model = three_advisories(alloc)?;
    let encounter = read_encounter(alloc, &model, text.as_bytes()).ok()?;
    Some(says_start(&encounter) && says_seconds(&encounter))
}

#[test]
fn any_spelling_says_the_encounter(rt: HostRuntime) {
    for text in [PLAIN, OTHER] {
        assert!(rt; says_encounter(rt.alloc(), text) == Some(true));
    }
}

/// The document, its keys, its version and its advisory.
pub const KEYS: &str = r#"version = 1 => version = : not toml
range = 500 => range = 500|range = 500 : not toml
version = 1 => version = 1|zeta = 2|alpha = 3 : key alpha unknown
version = 1 => version = 1|"a b" = 2 : key a b unknown
version = 1 => version = 2|box = 1 : key box unknown
version = 1 =>  : key version missing
version = 1 => version = "1" : key version wrong kind
version = 1 => version = 0 : key version value 0 outside 1 to 1
version = 1 => version = 2 : key version value 2 outside 1 to 1
advisory = "climb" =>  : key advisory missing
advisory = "climb" => advisory = 1 : key advisory wrong kind
advisory = "climb" => advisory = "Climb" : unknown advisory at 0
advisory = "climb" => advisory = "" : unknown advisory at 0
advisory = "climb" => advisory = "descend" : read
version = 1|advisory = "climb" => version = 2|advisory = "none" : key version value 2 outside 1 to 1
advisory = "climb"|range = 500 => advisory = "none"|range = -1 : unknown advisory at 0"#;

/// The numbers of the start.
pub const NUMBERS: &str = r#"range = 500 =>  : key range missing
range = 500 => range = 500.0 : key range wrong kind
range = 500 => range = [500, 500] : key range wrong kind
range = 500 => range = -1 : key range value -1 outside 0 to 3000000
range = 500 => range = 0 : read
range = 500 => range = 3000000 : read
range = 500 => range = 3000001 : key range value 3000001 outside 0 to 3000000
closing = 400 =>  : key closing missing
closing = 400 => closing = true : key closing wrong kind
closing = 400 => closing = 0 : key closing value 0 outside 1 to 5000
closing = 400 => closing = 1 : read
closing = 400 => closing = 5000 : read
closing = 400 => closing = 5001 : key closing value 5001 outside 1 to 5000
altitude = -101 =>  : key altitude missing
altitude = -101 => altitude = "a" : key altitude wrong kind
altitude = -101 => altitude = -10001 : key altitude value -10001 outside -10000 to 10000
altitude = -101 => altitude = -10000 : read
altitude = -101 => altitude = 10000 : read
altitude = -101 => altitude = 10001 : key altitude value 10001 outside -10000 to 10000
own = 240 =>  : key own missing
own = 240 => own = { x = 1 } : key own wrong kind
own = 240 => own = -10001 : key own value -10001 outside -10000 to 10000
own = 240 => own = -10000 : read
own = 240 => own = 10000 : read
own = 240 => own = 10001 : key own value 10001 outside -10000 to 10000
intruder = -60 =>  : key intruder missing
intruder = -60 => intruder = 1979-05-27 : key intruder wrong kind
intruder = -60 => intruder = -10001 : key intruder value -10001 outside -10000 to 10000
intruder = -60 => intruder = -10000 : read
intruder = -60 => intruder = 10000 : read
intruder = -60 => intruder = 10001 : key intruder value 10001 outside -10000 to 10000
range = 500|closing = 400 => range = -1|closing = 0 : key range value -1 outside 0 to 3000000
closing = 400|altitude = -101 => closing = 0|altitude = 10001 : key closing value 0 outside 1 to 5000
altitude = -101|own = 240 => altitude = 10001|own = 10001 : key altitude value 10001 outside -10000 to 10000
own = 240|intruder = -60 => own = 10001|intruder = 10001 : key own value 10001 outside -10000 to 10000
intruder = -60|own_accel = [ => intruder = 10001|own_accel = [9999, : key intruder value 10001 outside -10000 to 10000"#;

/// The two lists.
pub const LISTS: &str = r#"own_accel = [-480, 0, 2000] =>  : key own_accel missing
own_accel = [-480, 0, 2000] => own_accel = -480 : key own_accel wrong kind
own_accel = [-480, 0, 2000] => own_accel = [] : key own_accel value 0 outside 1 to 600
[-480, 0, 2000] => [-480, 0.0, 2000] : key own_accel[1] wrong kind
[-480, 0, 2000] => [-480, 0, 2001] : key own_accel[2] value 2001 outside -2000 to 2000
[-480, 0, 2000] => [-2001, 0, 2000] : key own_accel[0] value -2001 outside -2000 to 2000
[-480, 0, 2000] => [-2000, 0, 2000] : read
[-480, 0, 2000] => [-480, 0] : key intruder_accel value 3 outside 2 to 2
[-480, 0, 2000] => [-480, 0, 2000, 1] : key intruder_accel value 3 outside 4 to 4
intruder_accel = [1, 7, -2000] =>  : key intruder_accel missing
intruder_accel = [1, 7, -2000] => intruder_accel = "1 7 -2000" : key intruder_accel wrong kind
intruder_accel = [1, 7, -2000] => intruder_accel = [] : key intruder_accel value 0 outside 3 to 3
[1, 7, -2000] => [1, 7] : key intruder_accel value 2 outside 3 to 3
[1, 7, -2000] => [1, 7, -2000, 0] : key intruder_accel value 4 outside 3 to 3
[1, 7, -2000] => [true, 7, -2000] : key intruder_accel[0] wrong kind
[1, 7, -2000] => [1, 7, -2001] : key intruder_accel[2] value -2001 outside -2000 to 2000
[1, 7, -2000] => [1, 2001, -2000] : key intruder_accel[1] value 2001 outside -2000 to 2000
[1, 7, -2000] => [1, 2000, -2000] : read
[-480, 0, 2000]|intruder_accel = [1, => [-480, 0, 2001]|intruder_accel = [ : key own_accel[2] value 2001 outside -2000 to 2000
[1, 7, -2000] => [9999, 7] : key intruder_accel value 2 outside 3 to 3"#;

/// An encounter of so many seconds in which nothing accelerates, as a text.
pub fn lasting(alloc: Global, seconds: u32) -> Option<String> {
    let zeros = "0,".repeat(alloc, seconds as usize).ok()?;
    let zeros = zeros.as_str();
    let front = "version = 1\nadvisory = \"clear\"\nrange = 0\nclosing = 1\naltitude = 0\nown = 0";
    format!(in alloc;
        "{front}\nintruder = 0\nown_accel = [{zeros}]\nintruder_accel = [{zeros}]\n"
    ).ok()
}

fn says_last(encounter: &Encounter, seconds: u32) -> bool {
    let last = seconds.saturating_sub(1);
    encounter.seconds() == seconds && says_second(encounter, last, 0, 0)
}

// Whether an encounter of so many seconds is read, and nothing accelerates in its last one.
fn lasts(alloc: Global, seconds: u32) -> Option<bool> {
    let text = lasting(alloc, seconds)?;
    let model = three_advisories(alloc)?;
    let encounter = read_encounter(alloc, &model, text.as_bytes()).ok()?;
    Some(says_last(&encounter, seconds))
}

#[test]
fn encounters_last_up_to_600_seconds(rt: HostRuntime) {
    for seconds in [1, 600] {
        assert!(rt; lasts(rt.alloc(), seconds) == Some(true));
    }
}
