//! Texts that are no model: advisories, their names, intervals and choices.

/// Its cases.
pub const ADVISORIES: &str = r##"
# In the text of the first model: what stands there, what stands in its place, and the fault.
[[cases]]
name = "advisories and choices"
files = [["a", "model a", "replace $1 => $2"]]
rows = [
  ["[[advisory]]\nname = \"level\"\nlo = -500\nhi = 500\nchoices = [\"clear\"]\ncosts = [0]\n", "", "key advisory value 1 outside 2 to 16"],
  ["version = 1", "advisory = 3\nversion = 1", "not toml"],
  ["lo = -500", "lo = -500\nfloor = 1", "key advisory[1].floor unknown"],
  ["name = \"clear\"\n", "", "key advisory[0].name missing"],
  ['name = "clear"', "name = 7", "key advisory[0].name wrong kind"],
  ['name = "level"', 'name = ""', "key advisory[1].name wrong kind"],
  ['name = "level"', 'name = "le vel"', "key advisory[1].name wrong kind"],
  ['name = "level"', 'name = "niveau-égal"', "key advisory[1].name wrong kind"],
  ['name = "level"', 'name = "abcdefghijklmnopqrstuvwxyz0123456"', "key advisory[1].name wrong kind"],
  ["lo = -500\n", "", "key advisory[1].lo missing"],
  ["lo = -500", "lo = -10001", "key advisory[1].lo value -10001 outside -10000 to 10000"],
  ["hi = 500\n", "", "key advisory[1].hi missing"],
  ["hi = 500", "hi = 10001", "key advisory[1].hi value 10001 outside -10000 to 10000"],
  ["hi = 500", "hi = -501", "interval of advisory 1"],
  ['name = "level"', 'name = "clear"', "repeated name of advisory 1"],
  ["hi = 10000\nchoices = [\"clear\"]", "hi = 10000\nchoices = []", "no choice of advisory 0"],
  ["name = \"level\"\nlo = -500\nhi = 500", "name = \"clear\"\nlo = -500\nhi = -501", "interval of advisory 1"],
  ["hi = 10000\nchoices = [\"clear\"]\n", "hi = 10000\n", "key advisory[0].choices missing"],
  ["hi = 10000\nchoices = [\"clear\"]", "hi = 10000\nchoices = \"clear\"", "key advisory[0].choices wrong kind"],
  ["hi = 500\nchoices = [\"clear\"]", "hi = 500\nchoices = [1]", "key advisory[1].choices[0] wrong kind"],
  ["hi = 500\nchoices = [\"clear\"]", "hi = 500\nchoices = [\"clear\", \"climb\"]", "unknown choice of advisory 1 at 1"],
  ["hi = 500\nchoices = [\"clear\"]", "hi = 500\nchoices = [\"no name\"]", "unknown choice of advisory 1 at 0"],
  ["hi = 500\nchoices = [\"clear\"]", "hi = 500\nchoices = [\"level\", \"clear\", \"level\"]", "repeated choice of advisory 1 at 2"],
  ["hi = 500\nchoices = [\"clear\"]\ncosts = [0]\n", "hi = 500\nchoices = [\"clear\"]\n", "key advisory[1].costs missing"],
  ["hi = 500\nchoices = [\"clear\"]\ncosts = [0]", "hi = 500\nchoices = [\"clear\"]\ncosts = []", "key advisory[1].costs value 0 outside 1 to 1"],
  ["hi = 500\nchoices = [\"clear\"]\ncosts = [0]", "hi = 500\nchoices = [\"clear\"]\ncosts = [0, 0]", "key advisory[1].costs value 2 outside 1 to 1"],
  ["hi = 500\nchoices = [\"clear\"]\ncosts = [0]", "hi = 500\nchoices = [\"clear\"]\ncosts = [\"x\"]", "key advisory[1].costs[0] wrong kind"],
  ["hi = 500\nchoices = [\"clear\"]\ncosts = [0]", "hi = 500\nchoices = [\"clear\"]\ncosts = [1000000001]", "key advisory[1].costs[0] value 1000000001 outside -1000000000 to 1000000000"],
  ["hi = 500\nchoices = [\"clear\"]\ncosts = [0]", "hi = 500\nchoices = [\"climb\"]\ncosts = 0", "unknown choice of advisory 1 at 0"],
  ["name = \"level\"\nlo = -500\nhi = 500\nchoices = [\"clear\"]", "name = \"clear\"\nlo = -500\nhi = 500\nchoices = []", "repeated name of advisory 1"],
  ["costs = [0]\n[[advisory]]\nname = \"level\"\nlo = -500\nhi = 500\nchoices = [\"clear\"]", "costs = []\n[[advisory]]\nname = \"level\"\nlo = -500\nhi = 500\nchoices = []", "key advisory[0].costs value 0 outside 1 to 1"],
]
runs = ["acas values a"]
ends = ["4 model"]
error = "acas: model refused: $3\n"

# What stands in the place of the advisories, and the fault.
[[cases]]
name = "lists of advisories"
files = [[
  "a",
  "text $1",
  "model a",
  "replace [[advisory]]\nname = \"clear\"\nlo = -10000\nhi = 10000\nchoices = [\"clear\"]\ncosts = [0]\n => ",
  "replace [[advisory]]\nname = \"level\"\nlo = -500\nhi = 500\nchoices = [\"clear\"]\ncosts = [0]\n => ",
]]
rows = [
  ["", "key advisory missing"],
  ["advisory = [1, 2]\n", "key advisory[0] wrong kind"],
  ["advisory = 3\n", "key advisory wrong kind"],
  ["advisory = [1, 2, 3, 4, 5, 6, 7, 8, 9, 10, 11, 12, 13, 14, 15, 16]\n", "key advisory[0] wrong kind"],
  ["advisory = [1, 2, 3, 4, 5, 6, 7, 8, 9, 10, 11, 12, 13, 14, 15, 16, 17]\n", "key advisory value 17 outside 2 to 16"],
]
runs = ["acas values a"]
ends = ["4 model"]
error = "acas: model refused: $2\n"
"##;
