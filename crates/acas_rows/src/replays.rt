//! What `replay` prints of encounters.

/// Its cases.
pub const REPLAYS: &str = r##"
# Under clear the table advises climb at the lower altitude and descend at the upper one. In the first second the two are within half the
# height of the puck after half a second alone.
[[cases]]
name = "a contact within a second alone"
files = [
  ["c", "model c"],
  ["t", "compiled c", "values 10000000 -10000000", "advices 1 0 010101010202020200000000000000000000000000000000", "seal 24"],
  ["e", "text version = 1\nadvisory = \"clear\"\nrange = 500\nclosing = 500\naltitude = 101\nown = 240\nintruder = 0\nown_accel = [-480, 0]\nintruder_accel = [0, 0]\n"],
]
runs = ["acas replay c t e"]
ends = ["0 done"]
output = """0 descend range 500 ticks 12120 own 240 intruder 0 contact
1 clear range 0 ticks 12120 own -240 intruder 0 apart
seconds 2 contact 1
"""

# The range falls by the closing speed and goes on below 0. A puck behind the intruder is advised clear.
[[cases]]
name = "an intruder that passes"
files = [
  ["c", "model c"],
  ["t", "compiled c", "values 10000000 -10000000", "advices 1 0 010101010202020200000000000000000000000000000000", "seal 24"],
  ["e", "text version = 1\nadvisory = \"clear\"\nrange = 500\nclosing = 500\naltitude = 101\nown = 240\nintruder = 0\nown_accel = [-480, 0, 0, 0]\nintruder_accel = [0, 0, 0, 0]\n"],
]
runs = ["acas replay c t e"]
ends = ["0 done"]
output = """0 descend range 500 ticks 12120 own 240 intruder 0 contact
1 clear range 0 ticks 12120 own -240 intruder 0 apart
2 descend range -500 ticks 12600 own -240 intruder 0 apart
3 clear range -1000 ticks 13080 own -240 intruder 0 apart
seconds 4 contact 1
"""

# The key that is wrong, and the fault.
[[cases]]
name = "refused encounters"
files = [
  ["c", "model c"],
  ["t", "compiled c"],
  ["e", "text version = 1\nadvisory = \"clear\"\nrange = 500\nclosing = 500\naltitude = 101\nown = 240\nintruder = 0\nown_accel = [-480, 0]\nintruder_accel = [0, 0]\n", "replace $1 => $2"],
]
rows = [
  ["version = 1", "version = 2", "key version value 2 outside 1 to 1"],
  ["\"clear\"", "\"level\"", "unknown advisory at 0"],
  ["range = 500", "range = -1", "key range value -1 outside 0 to 3000000"],
  ["closing = 500", "closing = 0", "key closing value 0 outside 1 to 5000"],
  ["altitude = 101", "altitude = 10001", "key altitude value 10001 outside -10000 to 10000"],
  ["own = 240", "own = -10001", "key own value -10001 outside -10000 to 10000"],
  ["intruder = 0", "heading = 0", "key heading unknown"],
  ["[-480, 0]", "[-2001, 0]", "key own_accel[0] value -2001 outside -2000 to 2000"],
  ["[-480, 0]", "[]", "key own_accel value 0 outside 1 to 600"],
  ["[0, 0]", "[0]", "key intruder_accel value 1 outside 2 to 2"],
  ["[0, 0]", "[0, 2001]", "key intruder_accel[1] value 2001 outside -2000 to 2000"],
]
runs = ["acas replay c t e"]
ends = ["6 input"]
error = "acas: input refused: $3\n"

# Files are looked at in order: the model, the table, the encounter.
[[cases]]
name = "a refused table before an absent encounter"
files = [["c", "model c"], ["t", "text ACX"]]
runs = ["acas replay c t e"]
ends = ["5 table"]
error = "acas: table refused: length 3 of 940\n"

[[cases]]
name = "an absent table before a refused encounter"
files = [["c", "model c"], ["e", "text version = 2"]]
runs = ["acas replay c t e"]
ends = ["3 absent table"]
error = "acas: absent: t\n"

[[cases]]
name = "words of a replay"
files = [["c", "model c"]]
rows = [["acas replay c t"], ["acas replay c"], ["acas replay c t e e"], ["acas replay c t -e"], ["acas replay c -t e"], ["acas Replay c t e"]]
runs = ["$1"]
ends = ["2 words"]
error = "acas: words refused\n"
"##;
