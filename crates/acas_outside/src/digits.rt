//! The last decimal digits of a number.
ghost use Rattle.std.specs.Prelude.{◌≡◌, ◌+◌, ◌%◌};
ghost use Rattle.acas_outside.specs.Printed.{six_digits};

/// The last six decimal digits of a number, leading zeros included.
#[tactic(auto, unfolding(crate::specs::Printed::six_digits))]
pub fn last_six(n: u128) -> [u8; 6]
    ensures { result ≡ six_digits n }
{
    let places = (n % 1_000_000) as u32;
    [
        last_digit(places / 100_000),
        last_digit(places / 10_000),
        last_digit(places / 1_000),
        last_digit(places / 100),
        last_digit(places / 10),
        last_digit(places),
    ]
}

fn last_digit(n: u32) -> u8
    ensures { result ≡ 48 + n % 10 }
{
    b'0' + (n % 10) as u8
}
