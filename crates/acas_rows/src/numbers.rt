//! Texts that are no model: numbers of tables, sigma points, and what they sum to.

/// Its cases.
pub const NUMBERS: &str = r##"
# In the text of the first model: what stands there, what stands in its place, and the fault.
[[cases]]
name = "numbers of tables, sigma points and sums"
files = [["a", "model a", "replace $1 => $2"]]
rows = [
  ["[puck]\nradius = 500\nhalf_height = 100\n", "", "key puck missing"],
  ["[puck]\n", "[puck]\nshape = 1\n", "key puck.shape unknown"],
  ["radius = 500\n", "", "key puck.radius missing"],
  ["radius = 500", "radius = 0", "key puck.radius value 0 outside 1 to 5000"],
  ["radius = 500", "radius = 5001", "key puck.radius value 5001 outside 1 to 5000"],
  ["half_height = 100", "half_height = 0", "key puck.half_height value 0 outside 1 to 1000"],
  ["half_height = 100", "half_height = 1001", "key puck.half_height value 1001 outside 1 to 1000"],
  ["[closing]\nleast = 500\ngreatest = 500\n", "", "key closing missing"],
  ["[closing]\n", "[closing]\nmean = 1\n", "key closing.mean unknown"],
  ["least = 500", "least = 0", "key closing.least value 0 outside 1 to 5000"],
  ["least = 500", "least = 5001", "key closing.least value 5001 outside 1 to 5000"],
  ["greatest = 500", "greatest = 499", "key closing.greatest value 499 outside 500 to 5000"],
  ["greatest = 500", "greatest = 5001", "key closing.greatest value 5001 outside 500 to 5000"],
  ["[pilot]\npull = 480\nlimit = 960\n", "", "key pilot missing"],
  ["limit = 960\n", "limit = 960\ndelay = 5\n", "key pilot.delay unknown"],
  ["[pilot]\n", "[pilot]\ndelay = 0\n", "key pilot.delay unknown"],
  ["pull = 480", "pull = 0", "key pilot.pull value 0 outside 1 to 2000"],
  ["pull = 480", "pull = 2001", "key pilot.pull value 2001 outside 1 to 2000"],
  ["limit = 960", "limit = 479", "key pilot.limit value 479 outside 480 to 2000"],
  ["limit = 960", "limit = 2001", "key pilot.limit value 2001 outside 480 to 2000"],
  ["[cost]\ncontact = 5\n", "", "key cost missing"],
  ["[cost]\n", "[cost]\nalert = 1\n", "key cost.alert unknown"],
  ["contact = 5\n", "", "key cost.contact missing"],
  ["contact = 5", "contact = 1000000001", "key cost.contact value 1000000001 outside -1000000000 to 1000000000"],
  ["contact = 5", "contact = -1000000001", "key cost.contact value -1000000001 outside -1000000000 to 1000000000"],
  ["radius = 500\nhalf_height = 100\n[closing]\nleast = 500", "radius = 0\nhalf_height = 100\n[closing]\nleast = 0", "key puck.radius value 0 outside 1 to 5000"],
  ["half_height = 100\n[closing]\nleast = 500", "half_height = 100\n[closing]\nleast = \"x\"", "key closing.least wrong kind"],
  ["[[sigma]]\nweight = 1\nown = 0\nintruder = 0\n", "", "key sigma missing"],
  ["[[sigma]]\nweight = 1\nown = 0\nintruder = 0\n", "[sigma]\n", "key sigma wrong kind"],
  ["weight = 1\n", "weight = 1\nage = 1\n", "key sigma[0].age unknown"],
  ["weight = 1\n", "", "key sigma[0].weight missing"],
  ["weight = 1\n", "weight = 0\n", "key sigma[0].weight value 0 outside 1 to 1000"],
  ["weight = 1\n", "weight = 1001\n", "key sigma[0].weight value 1001 outside 1 to 1000"],
  ["own = 0\n", "", "key sigma[0].own missing"],
  ["own = 0\n", "own = -5001\n", "key sigma[0].own value -5001 outside -5000 to 5000"],
  ["intruder = 0\n", "intruder = 5001\n", "key sigma[0].intruder value 5001 outside -5000 to 5000"],
  ["intruder = 0\n", "intruder = 0\n[[sigma]]\nweight = 1\nown = 0\n", "key sigma[1].intruder missing"],
  ["intruder = 0\n", "intruder = 0\n[[sigma]]\nweight = 1000\nown = 0\nintruder = 0\n", "weights 1001 over 1000"],
  ["least = 500\ngreatest = 500", "least = 1\ngreatest = 500", "window 1000 over 600"],
  ["radius = 500\nhalf_height = 100\n[closing]\nleast = 500\ngreatest = 500", "radius = 3001\nhalf_height = 100\n[closing]\nleast = 10\ngreatest = 10", "window 6002 over 6000"],
  ["horizon = 0\n[grid]\naltitude = [0, 200]\nown_rate = [0, 600]\nintruder_rate = [0, 600]\n[puck]\nradius = 500\nhalf_height = 100\n[closing]\nleast = 500\ngreatest = 500", "horizon = 100\n[grid]\naltitude = [0, 200]\nown_rate = [0, 600]\nintruder_rate = [0, 600]\n[puck]\nradius = 2501\nhalf_height = 100\n[closing]\nleast = 10\ngreatest = 10", "window 6002 over 6000"],
  ["own = 0\n", "own = true\n", "key sigma[0].own wrong kind"],
]
runs = ["acas values a"]
ends = ["4 model"]
error = "acas: model refused: $3\n"

# That a text is a model shows where the table is looked for.
[[cases]]
name = "the longest window"
files = [[
  "a",
  "model a",
  "replace horizon = 0 => horizon = 100",
  "replace radius = 500 => radius = 2500",
  "replace least = 500\ngreatest = 500 => least = 10\ngreatest = 10",
]]
runs = ["acas check a none"]
ends = ["3 absent table"]
error = "acas: absent: none\n"

[[cases]]
name = "delays in version 2"
files = [["a", "model a", "replace version = 1 => version = 2", "replace limit = 960 => limit = 960\ndelay = $1"]]
rows = [
  ["0", "3 absent table", "acas: absent: none\n"],
  ["10", "3 absent table", "acas: absent: none\n"],
  ["11", "4 model", "acas: model refused: key pilot.delay value 11 outside 0 to 10\n"],
]
runs = ["acas check a none"]
ends = ["$2"]
error = "$3"

# 20 altitudes, 20 own rates, 50 intruder rates, two advisories.
[[cases]]
name = "the most entries, and more"
files = [[
  "a",
  "model a",
  "replace altitude = [0, 200] => altitude = [0, 1, 2, 3, 4, 5, 6, 7, 8, 9, 10, 11, 12, 13, 14, 15, 16, 17, 18, 19, ]",
  "replace own_rate = [0, 600] => own_rate = [0, 1, 2, 3, 4, 5, 6, 7, 8, 9, 10, 11, 12, 13, 14, 15, 16, 17, 18, 19, ]",
  "replace intruder_rate = [0, 600] => intruder_rate = [0, 1, 2, 3, 4, 5, 6, 7, 8, 9, 10, 11, 12, 13, 14, 15, 16, 17, 18, 19, 20, 21, 22, 23, 24, 25, 26, 27, 28, 29, 30, 31, 32, 33, 34, 35, 36, 37, 38, 39, 40, 41, 42, 43, 44, 45, 46, 47, 48, 49, ]",
  "replace horizon = 0 => horizon = $1",
]]
rows = [
  ["99", "3 absent table", "acas: absent: none\n"],
  ["100", "4 model", "acas: model refused: entries 4040000 over 4000000\n"],
]
runs = ["acas check a none"]
ends = ["$2"]
error = "$3"
"##;
