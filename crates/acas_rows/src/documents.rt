//! Texts that are no model: documents, their keys at the root, and axes.

/// Its cases.
pub const DOCUMENTS: &str = r##"
[[cases]]
name = "texts of no model"
files = [["a", "$1"]]
rows = [
  ["text ", "key version missing"],
  ["text [", "not toml"],
  # a byte that is no text
  ["hex 76657273696f6e203d20ff0a", "not toml"],
]
runs = ["acas values a"]
ends = ["4 model"]
error = "acas: model refused: $2\n"

# In the text of the first model: what stands there, what stands in its place, and the fault.
[[cases]]
name = "documents and axes"
files = [["a", "model a", "replace $1 => $2"]]
rows = [
  ["version = 1", "version =", "not toml"],
  ["contact = 5", "contact = 5\ncontact = 5", "not toml"],
  ["version = 1", "version = 9223372036854775808", "not toml"],
  ["version = 1", "zeta = 1\nalpha = 2\nversion = 1", "key alpha unknown"],
  ["version = 1", "\"a b\" = 1\nversion = 1", "key a b unknown"],
  ["version = 1", "'\"quoted\"' = 1\nversion = 1", 'key "quoted" unknown'],
  ["version = 1", "\"a\\nb\" = 1\nversion = 1", "key a\nb unknown"],
  ["version = 1", "\"\" = 1\nversion = 2", "key  unknown"],
  ["version = 1\n", "", "key version missing"],
  ["version = 1", "version = 3", "key version value 3 outside 1 to 2"],
  ["version = 1", "version = 2", "key pilot.delay missing"],
  ["version = 1", 'version = "1"', "key version wrong kind"],
  ["version = 1", "version = 1.0", "key version wrong kind"],
  ["version = 1", "version = true", "key version wrong kind"],
  ["horizon = 0\n", "", "key horizon missing"],
  ["horizon = 0", "horizon = 121", "key horizon value 121 outside 0 to 120"],
  ["horizon = 0", "horizon = -1", "key horizon value -1 outside 0 to 120"],
  ["horizon = 0", "horizon = -9223372036854775808", "key horizon value -9223372036854775808 outside 0 to 120"],
  ["horizon = 0", "horizon = 1979-05-27", "key horizon wrong kind"],
  ["version = 1\nhorizon = 0", "version = 0\nhorizon = 121", "key version value 0 outside 1 to 2"],
  ["[grid]\naltitude = [0, 200]\nown_rate = [0, 600]\nintruder_rate = [0, 600]\n", "", "key grid missing"],
  ["[grid]\naltitude = [0, 200]\nown_rate = [0, 600]\nintruder_rate = [0, 600]\n", "grid = 3\n", "key grid wrong kind"],
  ["[grid]\n", "[grid]\nextra = 1\n", "key grid.extra unknown"],
  ["altitude = [0, 200]\n", "", "key grid.altitude missing"],
  ["altitude = [0, 200]", "altitude = 7", "key grid.altitude wrong kind"],
  ["[0, 200]", '[0, "x"]', "key grid.altitude[1] wrong kind"],
  ["[0, 200]", "[0, 0.5]", "key grid.altitude[1] wrong kind"],
  ["[0, 200]", "[0, 10001]", "key grid.altitude[1] value 10001 outside -10000 to 10000"],
  ["[0, 200]", "[-10001, 0]", "key grid.altitude[0] value -10001 outside -10000 to 10000"],
  ["[0, 200]", '["x"]', "key grid.altitude[0] wrong kind"],
  ["[0, 200]", "[]", "axis altitude too short"],
  ["[0, 200]", "[0]", "axis altitude too short"],
  ["[0, 200]", "[0, 200, 200]", "axis altitude not rising at 2"],
  ["[0, 200]", "[200, 0]", "axis altitude not rising at 1"],
  ["own_rate = [0, 600]", "own_rate = [600, 0]", "axis own_rate not rising at 1"],
  ["own_rate = [0, 600]", "own_rate = [600]", "axis own_rate too short"],
  ["own_rate = [0, 600]\n", "", "key grid.own_rate missing"],
  ["own_rate = [0, 600]", "own_rate = [0, 10001]", "key grid.own_rate[1] value 10001 outside -10000 to 10000"],
  ["intruder_rate = [0, 600]", "intruder_rate = [600]", "axis intruder_rate too short"],
  ["intruder_rate = [0, 600]", "intruder_rate = [-10001, 600]", "key grid.intruder_rate[0] value -10001 outside -10000 to 10000"],
  ["[0, 200]\nown_rate = [0, 600]", "[0]\nown_rate = [\"x\"]", "axis altitude too short"],
  ["horizon = 0\n[grid]\naltitude = [0, 200]", "horizon = 121\n[grid]\naltitude = [0]", "key horizon value 121 outside 0 to 120"],
  ["own_rate = [0, 600]", "own_rate = [0, 6e2]", "key grid.own_rate[1] wrong kind"],
]
runs = ["acas values a"]
ends = ["4 model"]
error = "acas: model refused: $3\n"

[[cases]]
name = "an axis of 130 numbers is too long"
files = [["a", "model a", "replace intruder_rate = [0, 600] => intruder_rate = [0, 1, 2, 3, 4, 5, 6, 7, 8, 9, 10, 11, 12, 13, 14, 15, 16, 17, 18, 19, 20, 21, 22, 23, 24, 25, 26, 27, 28, 29, 30, 31, 32, 33, 34, 35, 36, 37, 38, 39, 40, 41, 42, 43, 44, 45, 46, 47, 48, 49, 50, 51, 52, 53, 54, 55, 56, 57, 58, 59, 60, 61, 62, 63, 64, 65, 66, 67, 68, 69, 70, 71, 72, 73, 74, 75, 76, 77, 78, 79, 80, 81, 82, 83, 84, 85, 86, 87, 88, 89, 90, 91, 92, 93, 94, 95, 96, 97, 98, 99, 100, 101, 102, 103, 104, 105, 106, 107, 108, 109, 110, 111, 112, 113, 114, 115, 116, 117, 118, 119, 120, 121, 122, 123, 124, 125, 126, 127, 128, 129, ]"]]
runs = ["acas values a"]
ends = ["4 model"]
error = "acas: model refused: axis intruder_rate too long\n"

# That a text is a model shows where the table is looked for.
[[cases]]
name = "an axis of 129 numbers is the longest"
files = [["a", "model a", "replace intruder_rate = [0, 600] => intruder_rate = [0, 1, 2, 3, 4, 5, 6, 7, 8, 9, 10, 11, 12, 13, 14, 15, 16, 17, 18, 19, 20, 21, 22, 23, 24, 25, 26, 27, 28, 29, 30, 31, 32, 33, 34, 35, 36, 37, 38, 39, 40, 41, 42, 43, 44, 45, 46, 47, 48, 49, 50, 51, 52, 53, 54, 55, 56, 57, 58, 59, 60, 61, 62, 63, 64, 65, 66, 67, 68, 69, 70, 71, 72, 73, 74, 75, 76, 77, 78, 79, 80, 81, 82, 83, 84, 85, 86, 87, 88, 89, 90, 91, 92, 93, 94, 95, 96, 97, 98, 99, 100, 101, 102, 103, 104, 105, 106, 107, 108, 109, 110, 111, 112, 113, 114, 115, 116, 117, 118, 119, 120, 121, 122, 123, 124, 125, 126, 127, 128, ]"]]
runs = ["acas check a none"]
ends = ["3 absent table"]
error = "acas: absent: none\n"
"##;
