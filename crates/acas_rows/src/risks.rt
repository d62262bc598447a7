//! What `risk` prints, and what it refuses.

/// Its cases.
pub const RISKS: &str = r##"
# The version of the table. Only clear may be chosen, a contact costs 1 and a second nothing, so the two chances and the cost are one, as
# `values` has it.
[[cases]]
name = "a compiled table"
files = [["b", "model b"], ["t", "compiled b", "$1"]]
rows = [["text "], ["whole"]]
runs = ["acas risk b t"]
ends = ["0 done"]
output = """
clear 0 0 0 risk 0.814814 0.814816 clear 0.814814 0.814816 cost 0.814814 0.814816
clear 0 0 600 risk 0.524690 0.524692 clear 0.524690 0.524692 cost 0.524690 0.524692
clear 0 600 0 risk 0.981481 0.981482 clear 0.981481 0.981482 cost 0.981481 0.981482
clear 0 600 600 risk 0.913579 0.913581 clear 0.913579 0.913581 cost 0.913579 0.913581
clear 30 0 0 risk 0.086419 0.086421 clear 0.086419 0.086421 cost 0.086419 0.086421
clear 30 0 600 risk 0.018518 0.018519 clear 0.018518 0.018519 cost 0.018518 0.018519
clear 30 600 0 risk 0.475308 0.475310 clear 0.475308 0.475310 cost 0.475308 0.475310
clear 30 600 600 risk 0.185184 0.185186 clear 0.185184 0.185186 cost 0.185184 0.185186
level 0 0 0 risk 0.814814 0.814816 clear 0.814814 0.814816 cost 0.814814 0.814816
level 0 0 600 risk 0.524690 0.524692 clear 0.524690 0.524692 cost 0.524690 0.524692
level 0 600 0 risk 0.981481 0.981482 clear 0.981481 0.981482 cost 0.981481 0.981482
level 0 600 600 risk 0.913579 0.913581 clear 0.913579 0.913581 cost 0.913579 0.913581
level 30 0 0 risk 0.086419 0.086421 clear 0.086419 0.086421 cost 0.086419 0.086421
level 30 0 600 risk 0.018518 0.018519 clear 0.018518 0.018519 cost 0.018518 0.018519
level 30 600 0 risk 0.475308 0.475310 clear 0.475308 0.475310 cost 0.475308 0.475310
level 30 600 600 risk 0.185184 0.185186 clear 0.185184 0.185186 cost 0.185184 0.185186
states 16
"""
backups = "0"
turned = "0"
decisions = "0"

# What the first run has stored is read by the second, which counts nothing.
[[cases]]
name = "a table that was compiled before"
files = [["b", "model b"]]
runs = ["acas compile b t", "acas risk b t"]
ends = ["0 done", "0 done"]
output_has = [
  "compiled layers 3 states 16 bytes 972\nclear 0 0 0 risk 0.814814 0.814816 clear",
  "\nclear 0 0 600 risk 0.524690 0.524692 clear 0.524690 0.524692 cost 0.524690 0.524692\n",
  " cost 0.185184 0.185186\nstates 16\n",
]
output_length = 1400
after = [["t", "compiled b"]]
backups = "32"
turned = "48"
decisions = "0"

# With no second to go the chance is 0 or 1, and the cost that of contact.
[[cases]]
name = "a table of one layer"
files = [["a", "model a"], ["t", "compiled a"]]
runs = ["acas risk a t"]
ends = ["0 done"]
output_has = [
  "clear 0 0 0 risk 1.000000 1.000000 clear 1.000000 1.000000 cost 5.000000 5.000000\n",
  "\nlevel 200 600 600 risk 0.000000 0.000000 clear 0.000000 0.000000 cost 0.000000 0.000000\nstates 16\n",
]
output_length = 1370
output_sha256 = "7b873baccc5b3e8f3c5de2a4e8dbb5d5087acccd4f2dbcb729c793bdaa9bbf08"

[[cases]]
name = "a contact that costs less than nothing"
files = [["b", "model b", "replace contact = 1 => contact = -1"], ["t", "compiled b"]]
runs = ["acas risk b t"]
ends = ["0 done"]
output_has = ["\nclear 0 0 600 risk 0.524690 0.524692 clear 0.524690 0.524692 cost -0.524692 -0.524690\n"]
output_length = 1394
output_sha256 = "93bc87710f6dee56814d35a0aa922660ab3628aab0f3e513a4c0af7220b1c852"

# The version of the table, and how many entries are behind a digest. Under clear it advises climb at the lower altitude and descend at the
# upper one, and no bound of it is near; neither is contact within a second.
[[cases]]
name = "a table with loose bounds and advices of its own"
files = [
  ["c", "model c"],
  ["t", "compiled c", "$1", "values 10000000 -10000000", "advices 1 0 010101010202020200000000000000000000000000000000", "seal $2"],
]
rows = [["text ", "24"], ["whole", "48"]]
runs = ["acas risk c t"]
ends = ["0 done"]
output_has = [
  "clear -1000 0 -60 risk 0.000000 0.000000 clear 0.000000 0.000000 cost 0.000000 0.000000\nclear -1000 0 0 risk",
  "\ndescend -170 60 0 risk 0.000000 0.000000 clear 0.000000 0.000000 cost 0.000000 0.000000\nstates 24\n",
]
output_length = 2114
output_sha256 = "eff5159cbd4d7f71de1b2b3ae6bd524c0720273d7d098e3a9a870e59b3e09d28"

# Level may be chosen under clear, at no cost. With one second to go the table advises it at four of the eight vertices, and with two at
# four others; bounds are loose. What is printed is what these advices are worth, whatever the bounds of the table say.
[[cases]]
name = "a table that advises otherwise in each layer"
files = [
  ["b", "model b", "replace choices = [\"clear\"]\ncosts = [0] => choices = [\"level\", \"clear\"]\ncosts = [0, 0]"],
  [
    "t",
    "compiled b",
    "values 10000000 -10000000",
    "advices 1 0 01000100010001000000000000000000",
    "advices 2 0 00010101010001000000000000000000",
    "seal 16",
  ],
]
runs = ["acas risk b t"]
ends = ["0 done"]
output_has = [
  "\nclear 0 600 0 risk 0.959875 0.959877 clear 0.981481 0.981482 cost 0.959875 0.959877\n",
  "\nclear 30 600 0 risk 0.428668 0.428671 clear 0.475308 0.475310 cost 0.428668 0.428671\n",
  "\nclear 30 600 600 risk 0.177468 0.177470 clear 0.185184 0.185186 cost 0.177468 0.177470\n",
  "\nlevel 0 600 600 risk 0.913579 0.913581 clear 0.913579 0.913581 cost 0.913579 0.913581\n",
  "\nlevel 30 600 0 risk 0.464505 0.464507 clear 0.475308 0.475310 cost 0.464505 0.464507\n",
]
output_length = 1362
output_sha256 = "5242d22a28d1f0dc0ff82a54c72afc7a0781c0e4d24b32ac231b36d02410b918"

# A second under clear costs 1, and level, which costs 3, is advised in one state alone: contact is less likely there, and the cost is more.
[[cases]]
name = "a table that advises a choice that costs more"
files = [
  ["b", "model b", "replace choices = [\"clear\"]\ncosts = [0] => choices = [\"level\", \"clear\"]\ncosts = [3, 1]"],
  ["t", "compiled b", "upper 2 2 $1", "advice 2 2 1", "seal 16"],
]
rows = [["3959877"], ["9000000"]]
runs = ["acas risk b t"]
ends = ["0 done"]
output_has = [
  "\nclear 0 0 600 risk 0.524690 0.524692 clear 0.524690 0.524692 cost 2.524690 2.524692\n",
  "\nclear 0 600 0 risk 0.959875 0.959877 clear 0.981481 0.981482 cost 3.959875 3.959877\n",
  "\nlevel 0 600 0 risk 0.981481 0.981482 clear 0.981481 0.981482 cost 1.981481 1.981482\n",
]
output_length = 1362
output_sha256 = "6de0108e307bdba94df155f72a3203f31327ac39c1a27aeec78d8e037b8b63df"

[[cases]]
name = "thirty seconds, worked out apart"
files = [["d", "model d"], ["t", "compiled d"]]
runs = ["acas risk d t"]
ends = ["0 done"]
output_has = [
  "\nclear 0 0 0 risk 0.435087 0.435105 clear 1.000000 1.000000 cost 4.825895 4.825910\n",
  "\nclear 0 3000 3000 risk 1.000000 1.000000 clear 1.000000 1.000000 cost 5.000000 5.000000\n",
  "\nlevel 1000 3000 0 risk 0.237585 0.237609 clear 0.237585 0.237609 cost 1.187979 1.188002\n",
  "\nstates 96\n",
]
output_length = 8506
output_sha256 = "38db139bf54b418896b114b8fa9be211213b20e62f5b88c6e685b5cdce7aafbf"

# Both names may be the same: the model's own text is no table.
[[cases]]
name = "words of a risk"
files = [["b", "model b"], ["t", "compiled b"]]
rows = [
  ["acas risk", "2 words", "words refused"],
  ["acas risk b", "2 words", "words refused"],
  ["acas risk b t t", "2 words", "words refused"],
  ["acas risk b -t", "2 words", "words refused"],
  ["acas risk -b t", "2 words", "words refused"],
  ["acas risk b ''", "2 words", "words refused"],
  ["acas Risk b t", "2 words", "words refused"],
  ["acas risks b t", "2 words", "words refused"],
  ["acas risk b b", "5 table", "table refused: magic"],
]
runs = ["$1"]
ends = ["$2"]
error = "acas: $3\n"

# Files are looked at in order: the model, then the table. Here `c` is no model and `long` is too long.
[[cases]]
name = "files that are absent, too long or of another kind"
files = [["b", "model b"], ["c"], ["long", "pad 35 1000001"], ["t", "text ACX"]]
rows = [
  ["acas risk none nor", "3 absent model", "absent: none"],
  ["acas risk c t", "4 model", "model refused: key version missing"],
  ["acas risk c none", "4 model", "model refused: key version missing"],
  ["acas risk b c", "5 table", "table refused: length 0 of 972"],
  ["acas risk b long", "5 table", "table refused: magic"],
  ["acas risk b t", "5 table", "table refused: length 3 of 972"],
]
runs = ["$1"]
ends = ["$2"]
error = "acas: $3\n"
absent = ["none", "nor"]

# The whole table is looked at before anything is printed.
[[cases]]
name = "a refused table has no risk"
files = [["b", "model b"], ["t", "compiled b", "$1", "$2"]]
rows = [
  ["text ", "upper 1 1 666666", "layer 1 state 1 upper 0.666666 under 0.666667"],
  ["text ", "lower 2 1 524691", "layer 2 state 1 lower 0.524691 over 0.524690"],
  ["text ", "flip 971 1", "layer 2 digest e1d62f7f36766dac66d3669927225bbbf9cded8a65966a2bcaa5ab0ac5c63f8b computed e1d62f7f36766dac66d3669927225bbbf9cded8a65966a2bcaa5ab0ac5c63f8a"],
  ["text ", "cut 971", "length 971 of 972"],
  ["text ", "hex 00", "length 973 of 972"],
  ["whole", "advice 2 15 1", "layer 2 state 15 advice not allowed"],
]
runs = ["acas risk b t"]
ends = ["5 table"]
error = "acas: table refused: $3\n"
"##;
