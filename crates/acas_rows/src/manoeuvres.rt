//! What `manoeuvre` prints of boxes whose intruder may change its rate, and what it refuses.

/// Its cases.
pub const MANOEUVRES: &str = r##"
# An advisory, the five intervals of a box, and the intruder's greatest acceleration and rate.
[[cases]]
name = "boxes that are certified whatever the intruder may do"
files = [["d", "model d"], ["b", "text version = 1\n[[box]]\nadvisory = \"$1\"\nrange = $2\nclosing = $3\naltitude = $4\nown = $5\nintruder = $6\n"]]
rows = [
  ["climb", "[10500, 11000]", "[500, 500]", "[-101, -101]", "[0, 0]", "[0, 0]", "480 1500"],
  ["climb", "[10500, 11000]", "[500, 500]", "[0, 360]", "[0, 0]", "[0, 0]", "1 1"],
  ["climb", "[10500, 11000]", "[500, 500]", "[-200, 360]", "[0, 0]", "[-1, 1]", "1 1"],
  ["climb", "[15500, 15500]", "[5000, 5000]", "[1000, 1000]", "[1500, 1500]", "[0, 0]", "960 10000"],
  ["climb", "[10500, 10500]", "[5000, 5000]", "[-1700, -1700]", "[0, 0]", "[3000, 3000]", "240 3000"],
  ["descend", "[10500, 11000]", "[500, 500]", "[500, 500]", "[0, 0]", "[0, 0]", "480 1500"],
]
runs = ["acas manoeuvre d b $7"]
ends = ["0 done"]
output = "box 0 certified\ncertified 1 reported 0\n"

# The same, and the witness with the intruder's segments: that of the lowest flight, of contact at once, of the highest flight, and of
# each pass.
[[cases]]
name = "reported boxes whose intruder may change its rate"
files = [["d", "model d"], ["b", "text version = 1\n[[box]]\nadvisory = \"$1\"\nrange = $2\nclosing = $3\naltitude = $4\nown = $5\nintruder = $6\n"]]
rows = [
  ["climb", "[10500, 11000]", "[500, 500]", "[-100, -100]", "[0, 0]", "[0, 0]", "480 1500", "time 20 range 10500 speed 500 ticks -12000 own 0 intruder 0 response 25/8@480 135/8@0 against 25/8@480 135/8@0"],
  ["climb", "[15500, 15500]", "[5000, 5000]", "[120, 120]", "[1500, 1500]", "[0, 0]", "960 10000", "time 16/5 range 15500 speed 5000 ticks 14400 own 1500 intruder 0 response 16/5@0 against 11863/7680@960 12713/7680@0"],
  ["climb", "[10500, 11000]", "[500, 500]", "[-100, -100]", "[0, 0]", "[-1500, 1500]", "480 1500", "time 20 range 10500 speed 500 ticks -12000 own 0 intruder 1500 response 25/8@480 135/8@0 against 20@0"],
  ["climb", "[0, 500]", "[500, 500]", "[0, 0]", "[0, 0]", "[0, 0]", "480 1500", "time 0 range 0 speed 500 ticks 0 own 0 intruder 0 response none against none"],
  ["climb", "[1000, 1500]", "[500, 500]", "[0, 0]", "[-3000, -3000]", "[0, 0]", "1 10000", "time 1 range 1000 speed 500 ticks 0 own -3000 intruder 0 response 1@960 against 1@-1"],
  ["descend", "[4500, 5500]", "[1000, 1000]", "[-600, -600]", "[-3000, -3000]", "[3000, 3000]", "480 3000", "time 5 range 5000 speed 1000 ticks -72000 own -3000 intruder 3000 response 5@-960 against 5@0"],
  ["climb", "[4500, 4500]", "[1000, 1000]", "[200, 200]", "[1500, 1500]", "[0, 1500]", "240 3000", "time 5 range 4500 speed 1000 ticks 24000 own 1500 intruder 900 response 5@0 against 5@-240"],
  ["climb", "[4500, 5500]", "[500, 500]", "[700, 700]", "[0, 0]", "[1500, 1500]", "1 10000", "time 12 range 5500 speed 500 ticks 84000 own 0 intruder 1500 response 12@749 against 12@-1"],
  ["descend", "[4500, 4500]", "[1000, 1000]", "[200, 300]", "[1500, 7500]", "[-1500, -1500]", "960 1500", "time 5 range 4500 speed 1000 ticks 24000 own 1500 intruder -1500 response 4@-750 1@0 against 5@0"],
  ["climb", "[2500, 2500]", "[500, 500]", "[600, 600]", "[1500, 7500]", "[0, 1500]", "1 10000", "time 6 range 2500 speed 500 ticks 72000 own 2117 intruder 0 response 6@960 against 6@-1"],
  ["level", "[0, 299500]", "[500, 500]", "[10000, 10000]", "[0, 0]", "[-10000, 10000]", "2000 10000", "time 600 range 299500 speed 500 ticks 1200000 own 0 intruder 10000 response 25/48@-960 28775/48@0 against 92363/16000@-2000 9507637/16000@0"],
  ["climb", "[1000, 1000]", "[500, 500]", "[-200, 300]", "[0, 0]", "[-1500, 0]", "1 10000", "time 3 range 1000 speed 500 ticks 16311 own 0 intruder 0 response 3@480 against 3@1"],
  ["descend", "[4500, 4500]", "[500, 500]", "[0, 100]", "[-3000, -1500]", "[0, 1500]", "480 10000", "time 10 range 4500 speed 500 ticks 0 own -3000 intruder 0 response 10@0 against 10@-480"],
]
runs = ["acas manoeuvre d b $7"]
ends = ["1 reported"]
output = "box 0 reported $8\ncertified 0 reported 1\n"

# The pilot's delay before all of it: the hold comes before the other segments of the response.
[[cases]]
name = "reported boxes whose pilots may hold their rate and whose intruder may change it"
files = [["d", "model d", "replace version = 1 => version = 2", "replace limit = 960 => limit = 960\ndelay = $1"], ["b", "text version = 1\n[[box]]\nadvisory = \"$2\"\nrange = $3\nclosing = $4\naltitude = $5\nown = $6\nintruder = $7\n"]]
rows = [
  ["0", "climb", "[10500, 11000]", "[500, 500]", "[-100, -100]", "[0, 0]", "[0, 0]", "480 1500", "time 20 range 10500 speed 500 ticks -12000 own 0 intruder 0 response 25/8@480 135/8@0 against 25/8@480 135/8@0"],
  ["5", "climb", "[2500, 2500]", "[500, 500]", "[600, 700]", "[0, 1500]", "[-3000, 0]", "960 3000", "time 6 range 2500 speed 500 ticks 72000 own 0 intruder -3000 response 1@0 5@960 against 6@0"],
  ["5", "descend", "[1000, 1500]", "[500, 500]", "[100, 100]", "[500, 6500]", "[0, 0]", "1 1500", "time 4 range 1500 speed 500 ticks 12000 own 500 intruder 0 response 71/64@0 185/64@-480 against 4@-1"],
  ["5", "climb", "[10500, 11000]", "[500, 500]", "[-225, -225]", "[0, 0]", "[0, 0]", "480 1500", "time 20 range 10500 speed 500 ticks -27000 own 0 intruder 0 response 5@0 25/8@480 95/8@0 against 25/8@480 135/8@0"],
]
runs = ["acas manoeuvre d b $8"]
ends = ["1 reported"]
output = "box 0 reported $9\ncertified 0 reported 1\n"

# A delay of 5 seconds takes 125 ft of the climb.
[[cases]]
name = "a certified box whose pilot may hold the rate and whose intruder may change it"
files = [["d", "model d", "replace version = 1 => version = 2", "replace limit = 960 => limit = 960\ndelay = 5"], ["b", "text version = 1\n[[box]]\nadvisory = \"climb\"\nrange = [10500, 11000]\nclosing = [500, 500]\naltitude = [-226, -226]\nown = [0, 0]\nintruder = [0, 0]\n"]]
runs = ["acas manoeuvre d b 480 1500"]
ends = ["0 done"]
output = "box 0 certified\ncertified 1 reported 0\n"

# Boxes are ruled on in order. By `regions`, whose intruder holds its rate, the first is certified.
[[cases]]
name = "boxes in order, whose intruder may change its rate"
files = [["d", "model d"], ["b", """text version = 1
box = [
  { advisory = "climb", range = [10500, 11000], closing = [500, 500], altitude = [-100, -100], own = [0, 0], intruder = [0, 0] },
  { advisory = "climb", range = [10500, 11000], closing = [500, 500], altitude = [-101, -101], own = [0, 0], intruder = [0, 0] },
  { advisory = "climb", range = [0, 500], closing = [500, 500], altitude = [0, 0], own = [0, 0], intruder = [0, 0] },
]
"""]]
runs = ["acas manoeuvre d b 480 1500", "acas regions d b"]
ends = ["1 reported", "1 reported"]
output = """box 0 reported time 20 range 10500 speed 500 ticks -12000 own 0 intruder 0 response 25/8@480 135/8@0 against 25/8@480 135/8@0
box 1 certified
box 2 reported time 0 range 0 speed 500 ticks 0 own 0 intruder 0 response none against none
certified 1 reported 2
box 0 certified
box 1 certified
box 2 reported time 0 range 0 speed 500 ticks 0 own 0 intruder 0 response none
certified 2 reported 1
"""

# The ends of the numbers that words may give.
[[cases]]
name = "the least and the greatest acceleration and rate"
files = [["d", "model d"], ["b", "text version = 1\n[[box]]\nadvisory = \"climb\"\nrange = [10500, 11000]\nclosing = [500, 500]\naltitude = [0, 361]\nown = [0, 0]\nintruder = [0, 0]\n"]]
rows = [
  ["1 1", "time 20 range 10500 speed 500 ticks 43320 own 0 intruder 0 response 25/8@480 135/8@0 against 1@1 19@0"],
  ["1 10000", "time 20 range 10500 speed 500 ticks 43320 own 0 intruder 0 response 25/8@480 135/8@0 against 20@1"],
  ["2000 1", "time 20 range 10500 speed 500 ticks 43320 own 0 intruder 0 response 25/8@480 135/8@0 against 1/2000@2000 39999/2000@0"],
  ["2000 10000", "time 23 range 11000 speed 500 ticks 0 own 0 intruder 0 response 25/8@480 159/8@0 against 169/200@2000 4431/200@0"],
]
runs = ["acas manoeuvre d b $1"]
ends = ["1 reported"]
output = "box 0 reported $2\ncertified 0 reported 1\n"

# The intruder's rates of two boxes, its greatest rate, and the first box whose rates it may not have.
[[cases]]
name = "boxes whose intruder may not have their rates"
files = [["d", "model d"], ["b", "text version = 1\n[[box]]\nadvisory = \"climb\"\nrange = [10500, 11000]\nclosing = [500, 500]\naltitude = [0, 0]\nown = [0, 0]\nintruder = $1\n[[box]]\nadvisory = \"climb\"\nrange = [10500, 11000]\nclosing = [500, 500]\naltitude = [0, 0]\nown = [0, 0]\nintruder = $2\n"]]
rows = [
  ["[0, 1501]", "[0, 0]", "1500", "rate at 0"],
  ["[-1501, 0]", "[0, 0]", "1500", "rate at 0"],
  ["[0, 0]", "[0, 1501]", "1500", "rate at 1"],
  ["[-1500, 1500]", "[-1501, 1500]", "1500", "rate at 1"],
  ["[0, 2]", "[0, 2]", "1", "rate at 0"],
  ["[-10000, 10000]", "[-1, 1]", "9999", "rate at 0"],
  ["[1501, 1501]", "[0, 0]", "1500", "rate at 0"],
  ["[-10000, -1501]", "[0, 0]", "1500", "rate at 0"],
]
runs = ["acas manoeuvre d b 480 $3"]
ends = ["6 input"]
error = "acas: input refused: $4\n"

# That is looked at last: the first box's rates are not the intruder's, and the second box has another fault.
[[cases]]
name = "other rules of boxes come before the intruder's rates"
files = [["d", "model d"], ["b", """text version = 1
[[box]]
advisory = "climb"
range = [0, 299500]
closing = [500, 500]
altitude = [0, 0]
own = [0, 0]
intruder = [0, 1501]
[[box]]
$1
"""]]
rows = [
  ["advisory = \"turn\"\nrange = [0, 1]\nclosing = [500, 500]\naltitude = [0, 0]\nown = [0, 0]\nintruder = [0, 1501]", "unknown advisory at 1"],
  ["advisory = \"climb\"\nrange = [0, 299501]\nclosing = [500, 500]\naltitude = [0, 0]\nown = [0, 0]\nintruder = [0, 1501]", "window at 1"],
  ["advisory = \"climb\"\nrange = [0, 1]\nclosing = [1, 1]\naltitude = [0, 0]\nown = [0, 0]\nintruder = [0, 10001]", "key box[1].intruder[1] value 10001 outside 0 to 10000"],
  ["advisory = \"climb\"\nrange = [0, 1]\nclosing = [1, 1]\naltitude = [0, 0]\nown = [0, 0]", "key box[1].intruder missing"],
  ["advisory = \"climb\"\nrange = [20, 10]", "key box[1].range[1] value 10 outside 20 to 3000000"],
]
runs = ["acas manoeuvre d b 480 1500"]
ends = ["6 input"]
error = "acas: input refused: $2\n"

# One box with both faults.
[[cases]]
name = "an unknown advisory comes before the intruder's rates"
files = [["d", "model d"], ["b", "text version = 1\n[[box]]\nadvisory = \"turn\"\nrange = [0, 299501]\nclosing = [500, 500]\naltitude = [0, 0]\nown = [0, 0]\nintruder = [0, 1501]\n"]]
runs = ["acas manoeuvre d b 480 1500"]
ends = ["6 input"]
error = "acas: input refused: unknown advisory at 0\n"

# The words behind `manoeuvre` are two names and two numbers. The files are right.
[[cases]]
name = "words of manoeuvre"
files = [["d", "model d"], ["b", "text version = 1\n[[box]]\nadvisory = \"climb\"\nrange = [10500, 11000]\nclosing = [500, 500]\naltitude = [0, 0]\nown = [0, 0]\nintruder = [0, 0]\n"]]
rows = [
  ["acas manoeuvre d b 0 1500"],
  ["acas manoeuvre d b 480 0"],
  ["acas manoeuvre d b 2001 1500"],
  ["acas manoeuvre d b 480 10001"],
  ["acas manoeuvre d b 4294967776 1500"],
  ["acas manoeuvre d b 480 4294968796"],
  ["acas manoeuvre d b 18446744073709552096 1500"],
  ["acas manoeuvre d b +480 1500"],
  ["acas manoeuvre d b 480 +1500"],
  ["acas manoeuvre d b -1 1500"],
  ["acas manoeuvre d b 480 -1"],
  ["acas manoeuvre d b -480 1500"],
  ["acas manoeuvre d b 0480 1500"],
  ["acas manoeuvre d b 480 01500"],
  ["acas manoeuvre d b '' 1500"],
  ["acas manoeuvre d b 480 ''"],
  ["acas manoeuvre d b 4.0 1500"],
  ["acas manoeuvre d b 480 1500.0"],
  ["acas manoeuvre d b '480 ' 1500"],
  ["acas manoeuvre d b 480 '1500 '"],
  ["acas manoeuvre d b ' 480' 1500"],
  ["acas manoeuvre d b 480 ' 1500'"],
  ["acas manoeuvre d b 4e2 1500"],
  ["acas manoeuvre d b 480 0x10"],
  ["acas manoeuvre d b 480"],
  ["acas manoeuvre d b 480 1500 0"],
  ["acas manoeuvre d b 480 1500 --reported"],
  ["acas manoeuvre d b \uff11 1500"],
  ["acas manoeuvre"],
  ["acas manoeuvre d"],
  ["acas manoeuvre d b"],
  ["acas manoeuvre -d b 480 1500"],
  ["acas manoeuvre d -b 480 1500"],
  ["acas manoeuvre '' b 480 1500"],
  ["acas manoeuvre d '' 480 1500"],
  ["acas manoeuvre d 480 1500"],
  ["acas manoeuvre 480 1500 d b"],
  ["acas Manoeuvre d b 480 1500"],
  ["acas maneuver d b 480 1500"],
  ["acas manoeuvres d b 480 1500"],
  ["acas regions d b 480 1500"],
  ["acas audit d b 480 1500"],
  ["acas manoeuvre nnnnnnnnnnnnnnnnnnnnnnnnnnnnnnnnnnnnnnnnnnnnnnnnnnnnnnnnnnnnnnnnnnnnnnnnnnnnnnnnnnnnnnnnnnnnnnnnnnnnnnnnnnnnnnnnnnnnnnnnnnnnnnnnnnnnnnnnnnnnnnnnnnnnnnnnnnnnnnnnnnnnnnnnnnnnnnnnnnnnnnnnnnnnnnnnnnnnnnnnnnnnnnnnnnnnnnnnnnnnnnnnnnnnnnnnnnnnnnnnnnnnnnnnnnnnnnnn b 480 1500"],
  ["acas manoeuvre d nnnnnnnnnnnnnnnnnnnnnnnnnnnnnnnnnnnnnnnnnnnnnnnnnnnnnnnnnnnnnnnnnnnnnnnnnnnnnnnnnnnnnnnnnnnnnnnnnnnnnnnnnnnnnnnnnnnnnnnnnnnnnnnnnnnnnnnnnnnnnnnnnnnnnnnnnnnnnnnnnnnnnnnnnnnnnnnnnnnnnnnnnnnnnnnnnnnnnnnnnnnnnnnnnnnnnnnnnnnnnnnnnnnnnnnnnnnnnnnnnnnnnnnnnnnnnnnn 480 1500"],
]
runs = ["$1"]
ends = ["2 words"]
error = "acas: words refused\n"

# Both names may be the same: the model's own text is no boxes. Files are looked at in order: the model, then the boxes. Here `n` is no
# model and `long` is too long.
[[cases]]
name = "files of manoeuvre that are absent, too long or of another kind"
files = [["d", "model d"], ["n"], ["toml", "text version == 1"], ["long", "pad 35 1000001"], ["full", "text version = 1\nbox = []\n", "pad 35 1000000"]]
rows = [
  ["none nor", "3 absent model", "absent: none"],
  ["n none", "4 model", "model refused: key version missing"],
  ["n n", "4 model", "model refused: key version missing"],
  ["toml none", "4 model", "model refused: not toml"],
  ["long none", "9 too long model", "too long: long"],
  ["d n", "6 input", "input refused: key version missing"],
  ["d toml", "6 input", "input refused: not toml"],
  ["d full", "6 input", "input refused: key box value 0 outside 1 to 10000"],
  ["d d", "6 input", "input refused: key advisory unknown"],
  ["nnnnnnnnnnnnnnnnnnnnnnnnnnnnnnnnnnnnnnnnnnnnnnnnnnnnnnnnnnnnnnnnnnnnnnnnnnnnnnnnnnnnnnnnnnnnnnnnnnnnnnnnnnnnnnnnnnnnnnnnnnnnnnnnnnnnnnnnnnnnnnnnnnnnnnnnnnnnnnnnnnnnnnnnnnnnnnnnnnnnnnnnnnnnnnnnnnnnnnnnnnnnnnnnnnnnnnnnnnnnnnnnnnnnnnnnnnnnnnnnnnnnnnnnnnnnnnn d", "3 absent model", "absent: nnnnnnnnnnnnnnnnnnnnnnnnnnnnnnnnnnnnnnnnnnnnnnnnnnnnnnnnnnnnnnnnnnnnnnnnnnnnnnnnnnnnnnnnnnnnnnnnnnnnnnnnnnnnnnnnnnnnnnnnnnnnnnnnnnnnnnnnnnnnnnnnnnnnnnnnnnnnnnnnnnnnnnnnnnnnnnnnnnnnnnnnnnnnnnnnnnnnnnnnnnnnnnnnnnnnnnnnnnnnnnnnnnnnnnnnnnnnnnnnnnnnnnnnnnnnnnn"],
  ["d nnnnnnnnnnnnnnnnnnnnnnnnnnnnnnnnnnnnnnnnnnnnnnnnnnnnnnnnnnnnnnnnnnnnnnnnnnnnnnnnnnnnnnnnnnnnnnnnnnnnnnnnnnnnnnnnnnnnnnnnnnnnnnnnnnnnnnnnnnnnnnnnnnnnnnnnnnnnnnnnnnnnnnnnnnnnnnnnnnnnnnnnnnnnnnnnnnnnnnnnnnnnnnnnnnnnnnnnnnnnnnnnnnnnnnnnnnnnnnnnnnnnnnnnnnnnnnn", "3 absent boxes", "absent: nnnnnnnnnnnnnnnnnnnnnnnnnnnnnnnnnnnnnnnnnnnnnnnnnnnnnnnnnnnnnnnnnnnnnnnnnnnnnnnnnnnnnnnnnnnnnnnnnnnnnnnnnnnnnnnnnnnnnnnnnnnnnnnnnnnnnnnnnnnnnnnnnnnnnnnnnnnnnnnnnnnnnnnnnnnnnnnnnnnnnnnnnnnnnnnnnnnnnnnnnnnnnnnnnnnnnnnnnnnnnnnnnnnnnnnnnnnnnnnnnnnnnnnnnnnnnnn"],
]
runs = ["acas manoeuvre $1 480 1500"]
ends = ["$2"]
error = "acas: $3\n"
absent = ["none", "nor"]

# Words are looked at before files.
[[cases]]
name = "words of manoeuvre before absent files"
runs = ["acas manoeuvre none nor 480 10001"]
ends = ["2 words"]
error = "acas: words refused\n"
absent = ["none", "nor"]

[[cases]]
name = "each call of a manoeuvre that is refused, at a byte a call"
files = [["d", "model d"], ["b", "text version = 1\n[[box]]\nadvisory = \"climb\"\nrange = [10500, 11000]\nclosing = [500, 500]\naltitude = [0, 0]\nown = [0, 0]\nintruder = [0, 1501]\n"]]
most = "1"
runs = ["acas manoeuvre d b 480 1500"]
ends = ["6 input"]
error = "acas: input refused: rate at 0\n"
each_call = "903 0 0 0 31"
"##;
