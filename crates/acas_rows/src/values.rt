//! What `values` prints.

/// Its cases.
pub const VALUES: &str = r##"
# Changes of the first model's text: none, that model in version 2, and the same model in other words.
[[cases]]
name = "the lines of a model"
files = [["a", "model a", "$1", "$2", "$3", "$4"]]
rows = [
  ["text ", "text ", "text ", "text "],
  ["replace version = 1 => version = 2", "replace limit = 960 => limit = 960\ndelay = 7", "text ", "text "],
  [
    "replace [puck]\nradius = 500\nhalf_height = 100\n => ",
    "replace [closing]\nleast = 500\ngreatest = 500\n => [closing]\ngreatest = 500\nleast = 500\n",
    "replace version = 1\n => # a comment\npuck = { half_height = 100, radius = 500 }\ncost.contact = 5\nversion = 1\n",
    "replace [cost]\ncontact = 5\n => ",
  ],
]
runs = ["acas values a"]
ends = ["0 done"]
output = '''
0 clear 0 0 0 5.000000 5.000000 -
0 clear 0 0 600 5.000000 5.000000 -
0 clear 0 600 0 5.000000 5.000000 -
0 clear 0 600 600 5.000000 5.000000 -
0 clear 200 0 0 0.000000 0.000000 -
0 clear 200 0 600 0.000000 0.000000 -
0 clear 200 600 0 0.000000 0.000000 -
0 clear 200 600 600 0.000000 0.000000 -
0 level 0 0 0 5.000000 5.000000 -
0 level 0 0 600 5.000000 5.000000 -
0 level 0 600 0 5.000000 5.000000 -
0 level 0 600 600 5.000000 5.000000 -
0 level 200 0 0 0.000000 0.000000 -
0 level 200 0 600 0.000000 0.000000 -
0 level 200 600 0 0.000000 0.000000 -
0 level 200 600 600 0.000000 0.000000 -
'''

[[cases]]
name = "contact is at most half the height"
files = [[
  "a",
  "model a",
  "replace altitude = [0, 200] => altitude = [-101, -100, 100, 101]",
  "replace contact = 5 => contact = -1000000000",
  "replace own_rate = [0, 600] => own_rate = [-10000, 10000]",
]]
runs = ["acas values a"]
ends = ["0 done"]
output_has = [
  "0 clear -101 -10000 0 0.000000 0.000000 -\n",
  "0 clear -100 -10000 0 -1000000000.000000 -1000000000.000000 -\n",
  "0 level 100 10000 600 -1000000000.000000 -1000000000.000000 -\n",
  "0 level 101 10000 600 0.000000 0.000000 -\n",
]

# The lines of the model of three sigma points, worked out apart from the program.
[[cases]]
name = "values go back from the end"
files = [["b", "model b"]]
runs = ["acas values b"]
ends = ["0 done"]
output = '''
0 clear 0 0 0 1.000000 1.000000 -
0 clear 0 0 600 1.000000 1.000000 -
0 clear 0 600 0 1.000000 1.000000 -
0 clear 0 600 600 1.000000 1.000000 -
0 clear 30 0 0 0.000000 0.000000 -
0 clear 30 0 600 0.000000 0.000000 -
0 clear 30 600 0 0.000000 0.000000 -
0 clear 30 600 600 0.000000 0.000000 -
0 level 0 0 0 1.000000 1.000000 -
0 level 0 0 600 1.000000 1.000000 -
0 level 0 600 0 1.000000 1.000000 -
0 level 0 600 600 1.000000 1.000000 -
0 level 30 0 0 0.000000 0.000000 -
0 level 30 0 600 0.000000 0.000000 -
0 level 30 600 0 0.000000 0.000000 -
0 level 30 600 600 0.000000 0.000000 -
1 clear 0 0 0 0.944444 0.944445 clear
1 clear 0 0 600 0.666666 0.666667 clear
1 clear 0 600 0 1.000000 1.000000 clear
1 clear 0 600 600 0.944444 0.944445 clear
1 clear 30 0 0 0.055555 0.055556 clear
1 clear 30 0 600 0.000000 0.000000 clear
1 clear 30 600 0 0.333333 0.333334 clear
1 clear 30 600 600 0.055555 0.055556 clear
1 level 0 0 0 0.944444 0.944445 clear
1 level 0 0 600 0.666666 0.666667 clear
1 level 0 600 0 1.000000 1.000000 clear
1 level 0 600 600 0.944444 0.944445 clear
1 level 30 0 0 0.055555 0.055556 clear
1 level 30 0 600 0.000000 0.000000 clear
1 level 30 600 0 0.333333 0.333334 clear
1 level 30 600 600 0.055555 0.055556 clear
2 clear 0 0 0 0.814814 0.814816 clear
2 clear 0 0 600 0.524690 0.524692 clear
2 clear 0 600 0 0.981481 0.981482 clear
2 clear 0 600 600 0.913579 0.913581 clear
2 clear 30 0 0 0.086419 0.086421 clear
2 clear 30 0 600 0.018518 0.018519 clear
2 clear 30 600 0 0.475308 0.475310 clear
2 clear 30 600 600 0.185184 0.185186 clear
2 level 0 0 0 0.814814 0.814816 clear
2 level 0 0 600 0.524690 0.524692 clear
2 level 0 600 0 0.981481 0.981482 clear
2 level 0 600 600 0.913579 0.913581 clear
2 level 30 0 0 0.086419 0.086421 clear
2 level 30 0 600 0.018518 0.018519 clear
2 level 30 600 0 0.475308 0.475310 clear
2 level 30 600 600 0.185184 0.185186 clear
'''

[[cases]]
name = "where a second leads to a vertex, both values are the cost"
files = [[
  "a",
  "model a",
  "replace horizon = 0 => horizon = 1",
  "replace [0, 200] => [0, 10]",
  "replace half_height = 100 => half_height = 1",
  "replace contact = 5 => contact = 7",
  "replace costs = [0] => costs = [1]",
  "replace costs = [0] => costs = [1]",
]]
runs = ["acas values a"]
ends = ["0 done"]
output_has = ["\n1 clear 0 0 0 8.000000 8.000000 clear\n", "\n1 clear 0 0 600 1.000000 1.000000 clear\n"]

[[cases]]
name = "the first choice wins a tie"
files = [[
  "b",
  "model b",
  "replace lo = -500\nhi = 500 => lo = -10000\nhi = 10000",
  "replace choices = [\"clear\"]\ncosts = [0] => choices = [\"level\", \"clear\"]\ncosts = [0, 0]",
]]
runs = ["acas values b"]
ends = ["0 done"]
output_has = ["\n2 clear 0 0 600 0.524690 0.524692 level\n"]

# From 1200 ft/min climb asks for 300 ft/min more and from 1500 ft/min ease for 300 ft/min less, which is less than the pull. By hand:
# at the same altitude and the same rate of 1200 ft/min the climb leads 2.5 ft down, and a quarter of the way to 10 ft.
[[cases]]
name = "an advisory that asks for less than the pull"
files = [[
  "m",
  "model f",
]]
runs = ["acas values m"]
ends = ["0 done"]
output_length = 2040
output_has = [
  "\n1 climb -10 1200 1200 0.000000 0.000000 climb\n",
  "\n1 climb -10 1200 1500 0.250000 0.250000 climb\n",
  "\n1 climb -10 1500 1500 0.000000 0.000000 climb\n",
  "\n1 climb 0 1200 1200 0.750000 0.750000 climb\n",
  "\n1 climb 0 1200 1500 1.000000 1.000000 climb\n",
  "\n1 climb 0 1500 1200 0.500000 0.500000 climb\n",
  "\n1 ease -10 1500 1500 0.250000 0.250000 ease\n",
  "\n1 ease 0 1500 1200 0.750000 0.750000 ease\n",
  "\n1 ease 0 1200 1200 1.000000 1.000000 ease\n",
]
output_sha256 = "721e7a434d93398539edb38a99012836aa945c9ea0f941c85588e45644311b15"

[[cases]]
name = "three advisories, worked out apart"
files = [["c", "model c"]]
runs = ["acas values c"]
ends = ["0 done"]
output_length = 2000
output_has = [
  "\n1 clear -1000 0 -60 0.000000 0.000000 clear\n",
  "\n1 clear -170 60 0 0.000000 0.000000 clear\n",
  "\n1 climb -170 60 -60 0.000000 0.000000 clear\n",
]

[[cases]]
name = "thirty seconds, worked out apart"
files = [["d", "model d"]]
runs = ["acas values d"]
ends = ["0 done"]
output_length = 134064
output_has = [
  "\n10 clear 0 1500 3000 3.881645 3.881651 clear\n",
  "\n30 descend -670 1500 3000 2.247384 2.247408 clear\n",
  "\n30 descend 0 0 0 4.825895 4.825910 climb\n",
]
"##;
