//! What `safeable` prints, and what it refuses.

/// Its cases.
pub const CLEAR_CELLS: &str = r##"
# The version of the table. The intruder is 2000 to 3000 ft below, and nothing is advised. From the cell a second leads to 361200 to 239040
# ticks below, and to own rates from -960 to 1020; from there a climb is clear.
[[cases]]
name = "cells far above the intruder"
files = [
  ["g", "model c", "replace horizon = 1 => horizon = 2", "replace -1000, -170 => -3000, -2000"],
  ["t", "compiled g", "$1"],
]
rows = [["text "], ["whole"]]
runs = ["acas safeable g t"]
ends = ["0 done"]
output = """
cell 1 clear 0 0 0 safeable climb
cell 1 climb 0 0 0 safeable climb
cell 1 descend 0 0 0 safeable climb
safeable 3 open 0 near 3
"""
backups = "0"
turned = "0"
decisions = "0"

# At 100 ft no advisory is shown to help. That is said by the code, too.
[[cases]]
name = "cells in which contact is near"
files = [
  ["g", "model c", "replace horizon = 1 => horizon = 2", "replace -1000, -170 => -100, 0"],
  ["t", "compiled g", "$1"],
]
rows = [["text "], ["whole"]]
runs = ["acas safeable g t"]
ends = ["1 reported"]
output = """
cell 1 clear 0 0 0 open
cell 1 climb 0 0 0 open
cell 1 descend 0 0 0 open
safeable 0 open 3 near 3
"""

# What the first run has stored is read by the second.
[[cases]]
name = "a table that was compiled before, of cells"
files = [["g", "model c", "replace horizon = 1 => horizon = 2", "replace -1000, -170 => -3000, -2000"]]
runs = ["acas compile g t", "acas safeable g t"]
ends = ["0 done", "0 done"]
output = """
compiled layers 3 states 24 bytes 1380
cell 1 clear 0 0 0 safeable climb
cell 1 climb 0 0 0 safeable climb
cell 1 descend 0 0 0 safeable climb
safeable 3 open 0 near 3
"""
after = [["t", "compiled g"]]

# The altitudes in feet. A foot more or less changes what is said: 14880 ticks below by an own descent of 960 ticks in the first second and of
# 1920 more until a climb takes hold leave 12000, the half height; and so above, where the intruder comes down. From 237 ft on a climb is clear
# too, and is named before a descent.
[[cases]]
name = "the least distance from which an advisory is clear"
files = [
  ["g", "model c", "replace horizon = 1 => horizon = 2", "replace -1000, -170 => $1"],
  ["t", "compiled g"],
]
rows = [
  ["-3000, -125", "0 done", "safeable climb", "3 open 0"],
  ["-3000, -124", "1 reported", "open", "0 open 3"],
  ["131, 3000", "0 done", "safeable descend", "3 open 0"],
  ["130, 3000", "1 reported", "open", "0 open 3"],
  ["236, 3000", "0 done", "safeable descend", "3 open 0"],
  ["237, 3000", "0 done", "safeable climb", "3 open 0"],
]
runs = ["acas safeable g t"]
ends = ["$2"]
output = """
cell 1 clear 0 0 0 $3
cell 1 climb 0 0 0 $3
cell 1 descend 0 0 0 $3
safeable $4 near 3
"""

# Where pilots may hold their rate for five seconds, the own descent of 960 ticks a second lasts to the end of the window.
[[cases]]
name = "the least distance for pilots who may hold their rate"
files = [
  [
    "g",
    "model c",
    "replace horizon = 1 => horizon = 2",
    "replace -1000, -170 => $1",
    "replace version = 1 => version = 2",
    "replace limit = 960 => limit = 960\ndelay = 5",
  ],
  ["t", "compiled g"],
]
rows = [["-3000, -157", "0 done", "safeable climb", "3 open 0"], ["-3000, -156", "1 reported", "open", "0 open 3"]]
runs = ["acas safeable g t"]
ends = ["$2"]
output = """
cell 1 clear 0 0 0 $3
cell 1 climb 0 0 0 $3
cell 1 descend 0 0 0 $3
safeable $4 near 3
"""

# The area is to be within 1200000 ticks: a second leads 1200 ticks down, and 960 up.
[[cases]]
name = "cells at the ends of the altitudes"
files = [
  ["g", "model c", "replace horizon = 1 => horizon = 2", "replace -1000, -170 => $1"],
  ["t", "compiled g"],
]
rows = [
  ["-9990, -9000", "0 done", "safeable climb", "3 open 0"],
  ["-9991, -9000", "1 reported", "open", "0 open 3"],
  ["-10000, -9000", "1 reported", "open", "0 open 3"],
  ["9000, 9992", "0 done", "safeable climb", "3 open 0"],
  ["9000, 9993", "1 reported", "open", "0 open 3"],
]
runs = ["acas safeable g t"]
ends = ["$2"]
output = """
cell 1 clear 0 0 0 $3
cell 1 climb 0 0 0 $3
cell 1 descend 0 0 0 $3
safeable $4 near 3
"""

# The altitudes, what may be chosen under clear, and its costs. Far off both advisories are clear, and the one that stands first is named;
# from 170 ft on a climb alone is.
[[cases]]
name = "the order of the choices of clear"
files = [
  [
    "g",
    "model c",
    "replace horizon = 1 => horizon = 2",
    "replace -1000, -170 => $1",
    "replace choices = [\"clear\", \"climb\", \"descend\"]\ncosts = [0, 0, 0] => choices = [$2]\ncosts = [$3]",
  ],
  ["t", "compiled g"],
]
rows = [
  ["-3000, -2000", "\"clear\", \"descend\", \"climb\"", "0, 0, 0", "0 done", "safeable descend", "3 open 0"],
  ["-1000, -170", "\"clear\", \"descend\", \"climb\"", "0, 0, 0", "0 done", "safeable climb", "3 open 0"],
  ["-3000, -2000", "\"clear\", \"descend\"", "0, 0", "0 done", "safeable descend", "3 open 0"],
  ["-1000, -170", "\"clear\", \"descend\"", "0, 0", "1 reported", "open", "0 open 3"],
  ["-3000, -2000", "\"clear\"", "0", "1 reported", "open", "0 open 3"],
]
runs = ["acas safeable g t"]
ends = ["$4"]
output = """
cell 1 clear 0 0 0 $5
cell 1 climb 0 0 0 $5
cell 1 descend 0 0 0 $5
safeable $6 near 3
"""

# Under climb clear alone may be chosen; a second under clear leaves the choices of clear.
[[cases]]
name = "the choices of the present advisory do not matter"
files = [
  [
    "g",
    "model c",
    "replace horizon = 1 => horizon = 2",
    "replace -1000, -170 => -3000, -2000",
    "replace lo = 1500\nhi = 10000\nchoices = [\"clear\", \"climb\", \"descend\"]\ncosts = [0, 0, 0] => lo = 1500\nhi = 10000\nchoices = [\"clear\"]\ncosts = [0]",
  ],
  ["t", "compiled g"],
]
runs = ["acas safeable g t"]
ends = ["0 done"]
output = """
cell 1 clear 0 0 0 safeable climb
cell 1 climb 0 0 0 safeable climb
cell 1 descend 0 0 0 safeable climb
safeable 3 open 0 near 3
"""

# An advice at one corner is enough: a cell is then none of these, under the state's present advisory.
[[cases]]
name = "an advice at a corner with two seconds to go"
files = [
  ["g", "model c", "replace horizon = 1 => horizon = 2", "replace -1000, -170 => -3000, -2000"],
  ["t", "compiled g", "advice 2 $1 1", "seal 24"],
]
rows = [
  ["0", "climb", "descend"],
  ["1", "climb", "descend"],
  ["2", "climb", "descend"],
  ["3", "climb", "descend"],
  ["4", "climb", "descend"],
  ["5", "climb", "descend"],
  ["6", "climb", "descend"],
  ["7", "climb", "descend"],
  ["8", "clear", "descend"],
  ["16", "clear", "climb"],
  ["23", "clear", "climb"],
]
runs = ["acas safeable g t"]
ends = ["0 done"]
output = """
cell 1 $2 0 0 0 safeable climb
cell 1 $3 0 0 0 safeable climb
safeable 2 open 0 near 3
"""

[[cases]]
name = "an advice at a corner with one second to go"
files = [
  ["g", "model c", "replace horizon = 1 => horizon = 2", "replace -1000, -170 => -3000, -2000"],
  ["t", "compiled g", "advice 1 $1 1", "seal 24"],
]
rows = [["0"], ["12"], ["23"]]
runs = ["acas safeable g t"]
ends = ["0 done"]
output = """
cell 1 clear 0 0 0 safeable climb
cell 1 climb 0 0 0 safeable climb
cell 1 descend 0 0 0 safeable climb
safeable 3 open 0 near 2
"""

# With no second there is no cell, and with one they are near, whatever may be chosen. Of `b` nothing but clear may be chosen.
[[cases]]
name = "few seconds, and no other choice"
files = [["m", "model $1"], ["t", "compiled m"]]
rows = [
  ["a", "0 done", "safeable 0 open 0 near 0\n"],
  ["c", "0 done", "safeable 0 open 0 near 3\n"],
  ["b", "1 reported", "cell 1 clear 0 0 0 open\ncell 1 level 0 0 0 open\nsafeable 0 open 2 near 2\n"],
]
runs = ["acas safeable m t"]
ends = ["$2"]
output = "$3"

# The version, the limit and what stands behind it, the rates of clear, the choices of clear, and the length and the digest. What is said
# is the same whatever the order of the choices, but for the name.
[[cases]]
name = "cells of both kinds, and pilots who may hold their rate"
files = [
  [
    "d",
    "model d",
    "replace version = 1 => version = $1",
    "replace limit = 960 => limit = $2",
    "replace lo = -10000\nhi = 10000 => lo = $3\nhi = $4",
    "replace choices = [\"clear\", \"climb\", \"descend\", \"level\"]\ncosts = [0, 1, 1, 1] => choices = [$5]\ncosts = [$6]",
  ],
  ["t", "compiled d"],
]
rows = [
  ["1", "960", "-10000", "10000", "\"clear\", \"climb\", \"descend\", \"level\"", "0, 1, 1, 1", "18206", "98867d7dfc0d37f39ff720542951389e5e8cd87728f33d57fe311b0eb2bbd708", "safeable 160 open 496"],
  ["1", "960", "-10000", "10000", "\"level\", \"descend\", \"climb\", \"clear\"", "1, 1, 1, 0", "18206", "e1eeafcab1040e5797c906579c1d0e479559e75d6e2491e5749964c763133368", "safeable 160 open 496"],
  ["1", "480", "-10000", "10000", "\"clear\", \"climb\", \"descend\", \"level\"", "0, 1, 1, 1", "18622", "df8e0b9932ba70f020322130edf77fa4947074f9a470a2d4cc4540d20ff78cea", "safeable 196 open 460"],
  ["1", "960", "-500", "1800", "\"clear\", \"climb\", \"descend\", \"level\"", "0, 1, 1, 1", "18822", "073c329d193d30829de6d7d9d4446abcf1fa127c4ca87e1e177da8945e0a3b9b", "safeable 212 open 444"],
  ["2", "960\ndelay = 0", "-10000", "10000", "\"clear\", \"climb\", \"descend\", \"level\"", "0, 1, 1, 1", "18206", "98867d7dfc0d37f39ff720542951389e5e8cd87728f33d57fe311b0eb2bbd708", "safeable 160 open 496"],
  ["2", "960\ndelay = 1", "-10000", "10000", "\"clear\", \"climb\", \"descend\", \"level\"", "0, 1, 1, 1", "17982", "559867754f358e7aa8205179a6ece3d4a7599c235378a8dc7146dee9b9ee6089", "safeable 140 open 516"],
  ["2", "960\ndelay = 3", "-500", "1800", "\"clear\", \"climb\", \"descend\", \"level\"", "0, 1, 1, 1", "17814", "a2d3a15d6f3623585b41ddf5b9a83ee21731c4f3f0f4b825313ef1b4d80d82bb", "safeable 124 open 532"],
  ["2", "960\ndelay = 5", "-10000", "10000", "\"clear\", \"climb\", \"descend\", \"level\"", "0, 1, 1, 1", "17381", "1cac1dd1c4858b317eda3957a746aed74c6af0eecd3033b1646c833468a7d1a6", "safeable 84 open 572"],
  ["2", "960\ndelay = 10", "-10000", "10000", "\"clear\", \"climb\", \"descend\", \"level\"", "0, 1, 1, 1", "17221", "ecdebd0189c93e90569db0a94b85930180279f4e368c543d315d4229ad2f0106", "safeable 68 open 588"],
]
runs = ["acas safeable d t"]
ends = ["1 reported"]
output_has = ["cell 1 clear 0 0 0 safeable ", "\ncell 1 clear 1 0 0 open\n", "\n$9 near 24\n"]
output_length = "$7"
output_sha256 = "$8"

# Clear asks for a climb of 1000 to 2000 ft/min; some rates of the grid are below it and some above it, and are held for up to a second.
[[cases]]
name = "a clear that asks for rates"
files = [
  [
    "d",
    "model d",
    "replace version = 1 => version = 2",
    "replace limit = 960 => limit = 960\ndelay = 3",
    "replace lo = -10000\nhi = 10000 => lo = 1000\nhi = 2000",
  ],
  ["t", "compiled d"],
]
runs = ["acas safeable d t"]
ends = ["1 reported"]
output_has = ["\ncell 29 level 2 0 0 safeable descend\ncell 29 level 2 1 0 open\nsafeable 160 open 536 near 24\n"]
output_length = 19226
output_sha256 = "f8c0b3e396f5c49128589bf088c1c4434391d5570671c3b164832d533b83bba6"

# Nothing costs anything but contact, and all four advisories stand in patterns with 1, 2, 15, 20 and 30 seconds to go: few cells are clear,
# and none of those with one second to go.
[[cases]]
name = "a table with loose bounds and few clear cells"
files = [["d", "model d", "replace costs = [0, 1, 1, 1] => costs = [0, 0, 0, 0]", "replace costs = [0, 1, 1, 1] => costs = [0, 0, 0, 0]", "replace costs = [0, 1, 1, 1] => costs = [0, 0, 0, 0]", "replace costs = [0, 1, 1, 1] => costs = [0, 0, 0, 0]"], [
  "t",
  "compiled d",
  "values 1000000000 -1000000000",
  "advices 1 0 010203000102030001020300010203000102030001020300010203000102030001020300010203000102030001020300010203000102030001020300010203000102030001020300010203000102030001020300010203000102030001020300",
  "advices 2 0 000001000001000001000001000001000001000001000001000001000001000001000001000001000001000001000001000001000001000001000001000001000001000001000001000001000001000001000001000001000001000001000001",
  "advices 15 0 030000000003000000000300000000030000000003000000000300000000030000000003000000000300000000030000000003000000000300000000030000000003000000000300000000030000000003000000000300000000030000000003",
  "advices 20 0 020101030002010103000201010300020101030002010103000201010300020101030002010103000201010300020101030002010103000201010300020101030002010103000201010300020101030002010103000201010300020101030002",
  "advices 30 0 000102030001020300010203000102030001020300010203000102030001020300010203000102030001020300010203000102030001020300010203000102030001020300010203000102030001020300010203000102030001020300010203",
  "seal 96",
]]
runs = ["acas safeable d t"]
ends = ["1 reported"]
output_has = [
  "cell 2 clear 0 1 0 safeable climb\ncell 2 climb 0 1 0 safeable climb\n",
  "\ncell 21 level 0 1 0 open\nsafeable 64 open 8 near 0\n",
]
output_length = 2470
output_sha256 = "854aae6a0e3b4515d5fb93907ee6c9f607d1d074d530dcbd61c7699bb9562e8d"

# Both names may be the same: the model's own text is no table.
[[cases]]
name = "words of safeable"
files = [["c", "model c"], ["t", "compiled c"]]
rows = [
  ["acas safeable", "2 words", "words refused"],
  ["acas safeable c", "2 words", "words refused"],
  ["acas safeable c t t", "2 words", "words refused"],
  ["acas safeable c t --reported", "2 words", "words refused"],
  ["acas safeable c -t", "2 words", "words refused"],
  ["acas safeable -c t", "2 words", "words refused"],
  ["acas safeable c ''", "2 words", "words refused"],
  ["acas Safeable c t", "2 words", "words refused"],
  ["acas safe c t", "2 words", "words refused"],
  ["acas safeables c t", "2 words", "words refused"],
  ["acas safeable c c", "5 table", "table refused: magic"],
]
runs = ["$1"]
ends = ["$2"]
error = "acas: $3\n"

# Files are looked at in order: the model, then the table. Here `n` is no model and `long` is too long.
[[cases]]
name = "files of safeable that are absent, too long or of another kind"
files = [["c", "model c"], ["n"], ["long", "pad 35 1000001"], ["t", "text ACX"]]
rows = [
  ["acas safeable none nor", "3 absent model", "absent: none"],
  ["acas safeable n t", "4 model", "model refused: key version missing"],
  ["acas safeable n none", "4 model", "model refused: key version missing"],
  ["acas safeable c n", "5 table", "table refused: length 0 of 940"],
  ["acas safeable c long", "5 table", "table refused: magic"],
  ["acas safeable c t", "5 table", "table refused: length 3 of 940"],
]
runs = ["$1"]
ends = ["$2"]
error = "acas: $3\n"
absent = ["none", "nor"]

# The whole table is looked at before anything is printed.
[[cases]]
name = "of a refused table no cell is told"
files = [
  ["g", "model c", "replace horizon = 1 => horizon = 2", "replace -1000, -170 => -3000, -2000"],
  ["t", "compiled g", "$1"],
]
rows = [
  ["advice 2 23 3", "layer 2 state 23 byte 3"],
  ["upper 2 23 -1", "layer 2 state 23 upper -0.000001 under 0.000000"],
  ["flip 1379 1", "layer 2 digest e1306e206d19f8cc829e322412da29c1f627a2296b48366ebd16227896018e4c computed e1306e206d19f8cc829e322412da29c1f627a2296b48366ebd16227896018e4d"],
  ["cut 1379", "length 1379 of 1380"],
  ["hex 00", "length 1381 of 1380"],
]
runs = ["acas safeable g t"]
ends = ["5 table"]
error = "acas: table refused: $2\n"

# A table belongs to the text of its model, so that nobody asks of it with another delay.
[[cases]]
name = "a table of the model with another delay, of cells"
files = [
  ["late", "model c", "replace horizon = 1 => horizon = 2", "replace -1000, -170 => -3000, -2000", "replace version = 1 => version = 2", "replace limit = 960 => limit = 960\ndelay = 5"],
  ["g", "model c", "replace horizon = 1 => horizon = 2", "replace -1000, -170 => -3000, -2000", "replace version = 1 => version = 2", "replace limit = 960 => limit = 960\ndelay = 0"],
  ["t", "compiled late"],
]
runs = ["acas safeable g t"]
ends = ["5 table"]
error = "acas: table refused: other model 79a5af123b51b6f47b16dc4e952cb7c8cb48bf7a8bd7a7ad2d7a327398da0b0d found 920af935e2a9dcaf48f71c0cf7ca5a85ff887b3d251ba0af125c1b90ef03213a\n"
"##;
