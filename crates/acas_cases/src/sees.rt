//! That the runner sees each difference.
use crate::cases::{items_of, keys_of};
use crate::report::Report;
use crate::runner::{cases_of, try_each};
use acas_rows::DIFFERENCES;
use std::process::Abort;
use toml::Value;

#[test]
fn each_difference_is_seen(rt: HostRuntime) {
    let cases = cases_of(&rt, rt.alloc(), DIFFERENCES);
    for item in items_of(&rt, &cases) {
        let keys = keys_of(&rt, item);
        let mut report = Report::new(rt.alloc());
        try_each(&rt, keys, &mut report);
        match keys.get("name") {
            Some(Value::String(name)) => {
                assert!(rt;
                    report.text.is_empty() == (name.as_str() == "true"),
                    "{name}"
                );
            }
            _ => rt.panic("a case has a name"),
        }
    }
}
