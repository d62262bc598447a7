//! What `regions` prints of boxes.

/// Its cases.
pub const BOXES: &str = r##"
# An advisory and the five intervals of a box.
[[cases]]
name = "certified boxes"
files = [["d", "model d"], ["b", "text version = 1\n[[box]]\nadvisory = \"$1\"\nrange = $2\nclosing = $3\naltitude = $4\nown = $5\nintruder = $6\n"]]
rows = [
  ["climb", "[10500, 11000]", "[500, 500]", "[0, 360]", "[0, 0]", "[0, 0]"],
  ["climb", "[10500, 11000]", "[500, 500]", "[399, 399]", "[1500, 1500]", "[0, 0]"],
  ["level", "[0, 299500]", "[500, 500]", "[9000, 9000]", "[0, 0]", "[0, 0]"],
]
runs = ["acas regions d b"]
ends = ["0 done"]
output = "box 0 certified\ncertified 1 reported 0\n"

# The same, and the witness.
[[cases]]
name = "reported boxes"
files = [["d", "model d"], ["b", "text version = 1\n[[box]]\nadvisory = \"$1\"\nrange = $2\nclosing = $3\naltitude = $4\nown = $5\nintruder = $6\n"]]
rows = [
  ["climb", "[10500, 11000]", "[500, 500]", "[0, 361]", "[0, 0]", "[0, 0]", "time 20 range 10500 speed 500 ticks 43320 own 0 intruder 0 response 25/8@480 135/8@0"],
  ["climb", "[1500, 2000]", "[500, 500]", "[-137, -137]", "[-1500, -1500]", "[0, 0]", "time 25/8 range 3125/2 speed 500 ticks -16440 own -1500 intruder 0 response 25/8@480"],
  ["climb", "[10500, 11000]", "[500, 500]", "[400, 400]", "[1500, 1500]", "[0, 0]", "time 20 range 10500 speed 500 ticks 48000 own 1500 intruder 0 response 20@0"],
  ["climb", "[10500, 11000]", "[500, 500]", "[2300, 2300]", "[1500, 1500]", "[-5000, -5000]", "time 5199/256 range 10500 speed 500 ticks 276000 own 1500 intruder -5000 response 5199/256@0"],
  ["level", "[15500, 15500]", "[5000, 5000]", "[150, 150]", "[-3000, 9000]", "[0, 0]", "time 16/5 range 15500 speed 5000 ticks 18000 own 13275/8 intruder 0 response 1855/768@-480 3013/3840@0"],
  ["clear", "[0, 0]", "[1, 1]", "[0, 0]", "[0, 0]", "[0, 0]", "time 500 range 0 speed 1 ticks 0 own 0 intruder 0 response 1/80@-960 39999/80@0"],
]
runs = ["acas regions d b"]
ends = ["1 reported"]
output = "box 0 reported $7\ncertified 0 reported 1\n"

# The pilot's delay, and the box's ranges, closing speeds and altitudes: a delay of 0 is none, and one of 5 seconds takes 125 ft of the climb.
[[cases]]
name = "certified boxes whose pilots may hold their rate"
files = [["d", "model d", "replace version = 1 => version = 2", "replace limit = 960 => limit = 960\ndelay = $1"], ["b", "text version = 1\n[[box]]\nadvisory = \"climb\"\nrange = $2\nclosing = $3\naltitude = $4\nown = [0, 0]\nintruder = [0, 0]\n"]]
rows = [
  ["0", "[10500, 11000]", "[500, 500]", "[0, 360]"],
  ["5", "[10500, 11000]", "[500, 500]", "[0, 235]"],
]
runs = ["acas regions d b"]
ends = ["0 done"]
output = "box 0 certified\ncertified 1 reported 0\n"

# The same, and the witness: the hold comes first, as long as the delay, shorter, or as the whole response.
[[cases]]
name = "reported boxes whose pilots may hold their rate"
files = [["d", "model d", "replace version = 1 => version = 2", "replace limit = 960 => limit = 960\ndelay = $1"], ["b", "text version = 1\n[[box]]\nadvisory = \"climb\"\nrange = $2\nclosing = $3\naltitude = $4\nown = [0, 0]\nintruder = [0, 0]\n"]]
rows = [
  ["0", "[10500, 11000]", "[500, 500]", "[0, 361]", "time 20 range 10500 speed 500 ticks 43320 own 0 intruder 0 response 25/8@480 135/8@0"],
  ["5", "[10500, 11000]", "[500, 500]", "[0, 236]", "time 20 range 10500 speed 500 ticks 28320 own 0 intruder 0 response 5@0 25/8@480 95/8@0"],
  ["10", "[50500, 50500]", "[5000, 5000]", "[400, 400]", "time 51/5 range 50500 speed 5000 ticks 48000 own 0 intruder 0 response 1043/256@0 7841/1280@960"],
  ["10", "[2500, 2500]", "[500, 500]", "[100, 100]", "time 4 range 2500 speed 500 ticks 12000 own 0 intruder 0 response 4@0"],
]
runs = ["acas regions d b"]
ends = ["1 reported"]
output = "box 0 reported $5\ncertified 0 reported 1\n"

# Boxes are ruled on in order, whatever stands between them.
[[cases]]
name = "boxes in order"
files = [["d", "model d"], ["b", """text # three boxes
version = 1
box = [
  { advisory = "climb", range = [10500, 11000], closing = [500, 500], altitude = [0, 361], own = [0, 0], intruder = [0, 0] },
  { intruder = [0, 0], own = [0, 0], altitude = [0, 360], closing = [500, 500], range = [10500, 11000], advisory = "climb" },
  { advisory = "climb", range = [10500, 11000], closing = [500, 500], altitude = [400, 400], own = [1500, 1500], intruder = [0, 0] },
]
"""]]
runs = ["acas regions d b"]
ends = ["1 reported"]
output = """box 0 reported time 20 range 10500 speed 500 ticks 43320 own 0 intruder 0 response 25/8@480 135/8@0
box 1 certified
box 2 reported time 20 range 10500 speed 500 ticks 48000 own 1500 intruder 0 response 20@0
certified 1 reported 2
"""

# The ranges of the second box, and the fault. Its window may last 600 seconds, in which 300000 ft are closed.
[[cases]]
name = "refused boxes"
files = [["d", "model d"], ["b", """text version = 1
[[box]]
advisory = "climb"
range = [0, 299500]
closing = [500, 500]
altitude = [0, 0]
own = [0, 0]
intruder = [0, 0]
[[box]]
$1
"""]]
rows = [
  ["advisory = \"climb\"\nrange = [0, 299501]\nclosing = [500, 500]\naltitude = [0, 0]\nown = [0, 0]\nintruder = [0, 0]", "window at 1"],
  ["advisory = \"turn\"\nrange = [0, 299501]\nclosing = [500, 500]\naltitude = [0, 0]\nown = [0, 0]\nintruder = [0, 0]", "unknown advisory at 1"],
  ["advisory = 2\nrange = [0, 1]", "key box[1].advisory wrong kind"],
  ["advisory = \"climb\"\nrange = [20, 10]", "key box[1].range[1] value 10 outside 20 to 3000000"],
  ["advisory = \"climb\"\nrange = [-1, 10]", "key box[1].range[0] value -1 outside 0 to 3000000"],
  ["advisory = \"climb\"\nrange = [0, 3000001]", "key box[1].range[1] value 3000001 outside 0 to 3000000"],
  ["advisory = \"climb\"\nrange = [0, 1]\nclosing = [0, 1]", "key box[1].closing[0] value 0 outside 1 to 5000"],
  ["advisory = \"climb\"\nrange = [0, 1]\nclosing = [1, 5001]", "key box[1].closing[1] value 5001 outside 1 to 5000"],
  ["advisory = \"climb\"\nrange = [0, 1]\nclosing = [1, 1]\naltitude = [-10001, 0]", "key box[1].altitude[0] value -10001 outside -10000 to 10000"],
  ["advisory = \"climb\"\nrange = [0, 1]\nclosing = [1, 1]\naltitude = [0, 0]\nown = [0, 10001]", "key box[1].own[1] value 10001 outside 0 to 10000"],
  ["advisory = \"climb\"\nrange = [0, 1]\nclosing = [1, 1]\naltitude = [0, 0]\nown = [0, 0]", "key box[1].intruder missing"],
  ["advisory = \"climb\"\nrange = [0, 1]\nzoom = 1\nheading = 1", "key box[1].heading unknown"],
]
runs = ["acas regions d b"]
ends = ["6 input"]
error = "acas: input refused: $2\n"

# The whole text, and the fault.
[[cases]]
name = "texts of no boxes"
files = [["d", "model d"], ["b", "text $1"]]
rows = [
  ["", "key version missing"],
  ["version = 2\nbox = []", "key version value 2 outside 1 to 1"],
  ["version = 1", "key box missing"],
  ["version = 1\nbox = []", "key box value 0 outside 1 to 10000"],
  ["version = 1\nbox = 1", "key box wrong kind"],
  ["version = 1\nbox = [1]", "key box[0] wrong kind"],
  ["version = 1\nboxes = []", "key boxes unknown"],
  ["version == 1", "not toml"],
]
runs = ["acas regions d b"]
ends = ["6 input"]
error = "acas: input refused: $2\n"

# Files are looked at in order: the model first.
[[cases]]
name = "an absent model before absent boxes"
runs = ["acas regions d b"]
ends = ["3 absent model"]
error = "acas: absent: d\n"

[[cases]]
name = "a refused model before absent boxes"
files = [["d", "text horizon = 1"]]
runs = ["acas regions d b"]
ends = ["4 model"]
error = "acas: model refused: key version missing\n"

[[cases]]
name = "a file of boxes as long as one may be"
files = [["d", "model d"], ["b", "text version = 1\nbox = []\n", "pad 35 1000000"]]
runs = ["acas regions d b"]
ends = ["6 input"]
error = "acas: input refused: key box value 0 outside 1 to 10000\n"

# The model read as boxes has keys that boxes have not: of them the least is named.
[[cases]]
name = "a model read as boxes"
files = [["d", "model d"]]
runs = ["acas regions d d"]
ends = ["6 input"]
error = "acas: input refused: key advisory unknown\n"
"##;
