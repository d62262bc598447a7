//! The text of boxes, in two spellings and with each fault that it can have.
use crate::faults::three_advisories;
use acas_boxes::read_boxes;
use acas_rulings::AuditBox;
use acas_units::Span;
use std::alloc::Global;

/// Two boxes.
pub const PLAIN: &str = r#"version = 1
[[box]]
advisory = "climb"
range = [10500, 11000]
closing = [500, 600]
altitude = [-137, 360]
own = [-1500, 0]
intruder = [60, 61]
[[box]]
advisory = "clear"
range = [7, 7]
closing = [30, 4000]
altitude = [1, 2]
own = [3, 4]
intruder = [5, 6]
"#;

const OTHER: &str = r#"# the same boxes
box = [
  { own = [-1500, 0], altitude = [-137, 360], intruder = [60, 0x3D], closing = [500, 600], range = [10_500, 11_000], advisory = 'climb' },
  { intruder = [5, 6], own = [3, 4], altitude = [1, 2], closing = [30, 4000], range = [7, 7], advisory = "clear" }, # and this
]
"version" = 1
"#;

fn is_span(span: &Span, least: i64, greatest: i64) -> bool {
    span.least == least && span.greatest == greatest
}

fn is_first(found: &AuditBox) -> bool {
    let area = is_span(&found.area.h, -16_440, 43_200)
        && is_span(&found.area.v0, -1500, 0)
        && is_span(&found.area.v1, 60, 61);
    area && found.advisory == 1
        && is_span(&found.range, 10_500, 11_000)
        && is_span(&found.closing, 500, 600)
}

fn is_second(found: &AuditBox) -> bool {
    let area = is_span(&found.area.h, 120, 240)
        && is_span(&found.area.v0, 3, 4)
        && is_span(&found.area.v1, 5, 6);
    area && found.advisory == 0 && is_span(&found.range, 7, 7) && is_span(&found.closing, 30, 4000)
}

fn says_boxes(alloc: Global, text: &str) -> Option<bool> {
    let model = three_advisories(alloc)?;
    let boxes = read_boxes(alloc, &model, text.as_bytes()).ok()?;
    Some(boxes.len() == 2 && is_first(boxes.at(0)) && is_second(boxes.at(1)))
}

#[test]
fn any_spelling_says_the_boxes(rt: HostRuntime) {
    for text in [PLAIN, OTHER] {
        assert!(rt; says_boxes(rt.alloc(), text) == Some(true));
    }
}

/// The document, its keys, its version and the list.
pub const KEYS: &str = r#"version = 1 => version = : not toml
[[box]] => [[box : not toml
version = 1 => version = 1|zeta = 2|alpha = 3 : key alpha unknown
version = 1 => version = 2|boxes = 1 : key boxes unknown
version = 1 =>  : key version missing
version = 1 => version = [1] : key version wrong kind
version = 1 => version = 0 : key version value 0 outside 1 to 1
version = 1 => version = 2 : key version value 2 outside 1 to 1
advisory = "climb" => advisory = "climb"|x = 1 : key box[0].x unknown
advisory = "clear" => advisory = "clear"|x = 1|b = 2 : key box[1].b unknown
advisory = "climb" => x = 1 : key box[0].x unknown
advisory = "climb" =>  : key box[0].advisory missing
advisory = "climb" => advisory = ["climb"] : key box[0].advisory wrong kind
advisory = "climb" => advisory = "none" : unknown advisory at 0
advisory = "clear" => advisory = "clea" : unknown advisory at 1
advisory = "climb" => advisory = "descend" : read
advisory = "climb"|range = [10500 => advisory = "none"|range = [-1 : unknown advisory at 0
intruder = [60, 61]|[[box]]|advisory = "clear" => intruder = [60]|[[box]]|advisory = "none" : key box[0].intruder value 1 outside 2 to 2"#;

/// The pairs of numbers.
pub const SPANS: &str = r#"range = [10500, 11000] =>  : key box[0].range missing
range = [10500, 11000] => range = 10500 : key box[0].range wrong kind
range = [10500, 11000] => range = [] : key box[0].range value 0 outside 2 to 2
range = [10500, 11000] => range = [10500] : key box[0].range value 1 outside 2 to 2
range = [10500, 11000] => range = [10500, 11000, 11000] : key box[0].range value 3 outside 2 to 2
range = [10500, 11000] => range = ["a", 11000] : key box[0].range[0] wrong kind
range = [10500, 11000] => range = [10500, 11000.0] : key box[0].range[1] wrong kind
range = [10500, 11000] => range = [-1, 11000] : key box[0].range[0] value -1 outside 0 to 3000000
range = [10500, 11000] => range = [0, 11000] : read
range = [10500, 11000] => range = [3000001, 3000001] : key box[0].range[0] value 3000001 outside 0 to 3000000
range = [10500, 11000] => range = [10500, 3000001] : key box[0].range[1] value 3000001 outside 10500 to 3000000
range = [10500, 11000] => range = [10500, 10499] : key box[0].range[1] value 10499 outside 10500 to 3000000
range = [10500, 11000] => range = [10500, 10500] : read
range = [10500, 11000] => range = [10500, -1] : key box[0].range[1] value -1 outside 10500 to 3000000
closing = [500, 600] =>  : key box[0].closing missing
closing = [500, 600] => closing = true : key box[0].closing wrong kind
closing = [500, 600] => closing = [0, 600] : key box[0].closing[0] value 0 outside 1 to 5000
closing = [30, 4000] => closing = [1, 4000] : read
closing = [500, 600] => closing = [500, 5000] : read
closing = [500, 600] => closing = [500, 5001] : key box[0].closing[1] value 5001 outside 500 to 5000
closing = [500, 600] => closing = [500, 499] : key box[0].closing[1] value 499 outside 500 to 5000
altitude = [-137, 360] =>  : key box[0].altitude missing
altitude = [-137, 360] => altitude = "-137" : key box[0].altitude wrong kind
altitude = [-137, 360] => altitude = [-10001, 360] : key box[0].altitude[0] value -10001 outside -10000 to 10000
altitude = [-137, 360] => altitude = [-10000, 10000] : read
altitude = [-137, 360] => altitude = [-137, 10001] : key box[0].altitude[1] value 10001 outside -137 to 10000
altitude = [-137, 360] => altitude = [-137, -138] : key box[0].altitude[1] value -138 outside -137 to 10000
own = [3, 4] =>  : key box[1].own missing
own = [3, 4] => own = { a = 3 } : key box[1].own wrong kind
own = [3, 4] => own = [-10001, 4] : key box[1].own[0] value -10001 outside -10000 to 10000
own = [3, 4] => own = [-10000, 10000] : read
own = [3, 4] => own = [3, 10001] : key box[1].own[1] value 10001 outside 3 to 10000
own = [3, 4] => own = [3, 2] : key box[1].own[1] value 2 outside 3 to 10000
intruder = [5, 6] =>  : key box[1].intruder missing
intruder = [5, 6] => intruder = 5 : key box[1].intruder wrong kind
intruder = [5, 6] => intruder = [-10001, 6] : key box[1].intruder[0] value -10001 outside -10000 to 10000
intruder = [5, 6] => intruder = [-10000, 10000] : read
intruder = [5, 6] => intruder = [5, 10001] : key box[1].intruder[1] value 10001 outside 5 to 10000
intruder = [5, 6] => intruder = [5, 4] : key box[1].intruder[1] value 4 outside 5 to 10000
range = [10500, 11000]|closing = [500 => range = [-1, 11000]|closing = [0 : key box[0].range[0] value -1 outside 0 to 3000000
closing = [500, 600]|altitude = [-137 => closing = [0, 600]|altitude = [-10001 : key box[0].closing[0] value 0 outside 1 to 5000
altitude = [-137, 360]|own = [-1500 => altitude = [-10001, 360]|own = [-10001 : key box[0].altitude[0] value -10001 outside -10000 to 10000
own = [-1500, 0]|intruder = [60 => own = [-10001, 0]|intruder = [-10001 : key box[0].own[0] value -10001 outside -10000 to 10000"#;

/// The window: the greatest range and the radius of 500 ft are flown in 600 seconds at the least closing speed.
pub const WINDOWS: &str =
    r#"[10500, 11000]|closing = [500, 600] => [0, 299500]|closing = [500, 500] : read
[10500, 11000]|closing = [500, 600] => [0, 299501]|closing = [500, 500] : window at 0
[10500, 11000]|closing = [500, 600] => [0, 299501]|closing = [500, 5000] : window at 0
[10500, 11000]|closing = [500, 600] => [299501, 299501]|closing = [501, 501] : read
[7, 7]|closing = [30, 4000] => [100, 100]|closing = [1, 4000] : read
[7, 7]|closing = [30, 4000] => [101, 101]|closing = [1, 4000] : window at 1
[10500, 11000]|closing = [500, 600]|altitude = [-137 => [0, 299501]|closing = [500, 500]|altitude = [-10001 : key box[0].altitude[0] value -10001 outside -10000 to 10000"#;
