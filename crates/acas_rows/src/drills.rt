//! What `drill` prints of numbers.

/// Its cases.
pub const DRILLS: &str = r##"
# The table has 7 * 13 * 5 * 5 states and 11 layers. No call is made on the folder: a read that is to fail is none of the drill's.
[[cases]]
name = "the drill of 0"
failing = ["read 0"]
runs = ["acas drill 0"]
ends = ["1 reported"]
output = "drill 0 states 2275 entries 25025 bytes 425837\naccepted\ncertified 6342 reported 5978 clear 5012\n"

# A number is written in digits, without a sign or leading zeros, and is at most 999999999.
[[cases]]
name = "words of no drill"
rows = [
  ["acas drill"],
  ["acas drill ''"],
  ["acas drill 00"],
  ["acas drill 07"],
  ["acas drill +7"],
  ["acas drill -7"],
  ["acas drill 7a"],
  ["acas drill 7.0"],
  ["acas drill ' 7'"],
  ["acas drill 1000000000"],
  ["acas drill 4294967296"],
  ["acas drill 18446744073709551616"],
  ["acas drill 7 7"],
  ["acas Drill 7"],
]
runs = ["$1"]
ends = ["2 words"]
error = "acas: words refused\n"
"##;
