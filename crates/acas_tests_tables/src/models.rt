//! The models of these tests, as `acas_tests_data` makes them, and their layers with no second to go.
use acas_units::Pair;

/// Two altitudes, 30 ft apart, and two times two rates. The intruder's rate stays, rises or falls by 600 ft/min, with equal
/// weights. Contact costs 1, and clear alone may follow.
pub const NOISY: &str = "b";

/// The same with another advisory that asks for nothing, and that may follow clear too. It stands first.
pub const TIED: &str = r#"b
lo = -500|hi = 500 => lo = -10000|hi = 10000
choices = ["clear"]|costs = [0] => choices = ["level", "clear"]|costs = [0, 0]"#;

/// The same where level costs 3 a second and clear, which stands after it, costs 1.
pub const COSTLY: &str = r#"b
lo = -500|hi = 500 => lo = -10000|hi = 10000
choices = ["clear"]|costs = [0] => choices = ["level", "clear"]|costs = [3, 1]
choices = ["clear"]|costs = [0] => choices = ["level", "clear"]|costs = [3, 1]"#;

/// One cell with the widest gaps that a model may have, and the greatest costs.
pub const WIDE: &str = "g\ncosts = [0, 1000000000] => costs = [1000000000, -1000000000]";

/// Four altitudes, three own rates and two of the intruder, four advisories, no noise.
pub const FOUR: &str = "d";

/// The values of a state that costs nothing.
pub const NONE: Pair = Pair { upper: 0, lower: 0 };

const ONE: Pair = Pair {
    upper: 1_000_000,
    lower: 1_000_000,
};

const FIVE: Pair = Pair {
    upper: 5_000_000,
    lower: 5_000_000,
};

/// The last layer of `NOISY` and of those like it: under each of two advisories, four vertices at each altitude.
pub const LAST_OF_NOISY: [Pair; 16] = [
    ONE, ONE, ONE, ONE, NONE, NONE, NONE, NONE, ONE, ONE, ONE, ONE, NONE, NONE, NONE, NONE,
];

/// The last layer of `FOUR`: under each of four advisories, six vertices at each altitude.
pub const LAST_OF_FOUR: [Pair; 96] = [
    NONE, NONE, NONE, NONE, NONE, NONE, NONE, NONE, NONE, NONE, NONE, NONE, FIVE, FIVE, FIVE, FIVE,
    FIVE, FIVE, NONE, NONE, NONE, NONE, NONE, NONE, NONE, NONE, NONE, NONE, NONE, NONE, NONE, NONE,
    NONE, NONE, NONE, NONE, FIVE, FIVE, FIVE, FIVE, FIVE, FIVE, NONE, NONE, NONE, NONE, NONE, NONE,
    NONE, NONE, NONE, NONE, NONE, NONE, NONE, NONE, NONE, NONE, NONE, NONE, FIVE, FIVE, FIVE, FIVE,
    FIVE, FIVE, NONE, NONE, NONE, NONE, NONE, NONE, NONE, NONE, NONE, NONE, NONE, NONE, NONE, NONE,
    NONE, NONE, NONE, NONE, FIVE, FIVE, FIVE, FIVE, FIVE, FIVE, NONE, NONE, NONE, NONE, NONE, NONE,
];
