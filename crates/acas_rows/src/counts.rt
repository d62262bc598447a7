//! What runs count.

/// Its cases.
pub const COUNTS: &str = r##"
# The backups of a model: the horizon times the vertices times the sum of the lengths of the choice lists. With two altitudes, two own
# rates and two intruder rates there are 8 vertices: 0 * 8 * (1 + 1), 2 * 8 * (1 + 1), 1 * 8 * (3 + 3 + 3). The last model has
# 4 * 3 * 2 vertices: 30 * 24 * (4 + 4 + 4 + 4). The turned pairs: one more layer than the horizon, times the advisories, times
# the vertices: 1 * 2 * 8, 3 * 2 * 8, 2 * 3 * 8, 31 * 4 * 24.
[[cases]]
name = "a compiled table"
files = [["m", "model $1"]]
rows = [["a", "0", "16"], ["b", "32", "48"], ["c", "72", "48"], ["d", "11520", "2976"]]
runs = ["acas compile m t"]
ends = ["0 done"]
output_has = ["compiled layers"]
after = [["t", "compiled m"]]
backups = "$2"
turned = "$3"
decisions = "0"

[[cases]]
name = "the values of a table"
files = [["m", "model $1"]]
rows = [["a", "0", "16"], ["b", "32", "48"], ["c", "72", "48"], ["d", "11520", "2976"]]
runs = ["acas values m"]
ends = ["0 done"]
output_has = ["0 clear"]
backups = "$2"
turned = "$3"
decisions = "0"

# One cell under two advices, each of which is decided: 2 decisions, in both forms.
[[cases]]
name = "an audit of one cell"
files = [["c", "model c"], ["t", "compiled c", "values 10000000 -10000000", "advices 1 0 010101010202020200000000000000000000000000000000", "seal 24"]]
rows = [["acas audit c t"], ["acas audit c t --reported"]]
runs = ["$1"]
ends = ["1 reported"]
output_has = ["certified 1 reported 1 clear 2\n"]
backups = "0"
turned = "0"
decisions = "2"

# Two cells under one advice. None of both is endangered, so the block of both is decided at once: 1 decision. The other advices
# are at no corner.
[[cases]]
name = "an audit of a block that is certified"
files = [["f", "model c", "replace altitude = [-1000, -170] => altitude = [-3000, -2000, -1000]"], ["t", "compiled f", "values 10000000 -10000000", "advices 1 0 010101010101010101010101000000000000000000000000000000000000000000000000", "seal 36"]]
runs = ["acas audit f t"]
ends = ["0 done"]
output = """cell 0 clear 0 0 0 climb certified
cell 0 clear 1 0 0 climb certified
certified 2 reported 0 clear 4
"""
decisions = "1"

# Three cells, of which the last is endangered: 1 for the block of the three, 1 for its first half of one cell, 1 for its second half of
# two, and 1 for each of these: 5 decisions.
[[cases]]
name = "an audit of a block that is halved"
files = [["f", "model c", "replace altitude = [-1000, -170] => altitude = [-3000, -2000, -1000, 0]"], ["t", "compiled f", "values 10000000 -10000000", "advices 1 0 010101010101010101010101010101010000000000000000000000000000000000000000000000000000000000000000", "seal 48"]]
runs = ["acas audit f t"]
ends = ["1 reported"]
output_has = ["cell 0 clear 0 0 0 climb certified\ncell 0 clear 1 0 0 climb certified\ncell 0 clear 2 0 0 climb reported", "\ncertified 2 reported 1 clear 6\n"]
decisions = "5"

# What is counted of one run after another: 72 backups and 48 pairs each of `compile` and `values`, and 2 decisions of each audit.
[[cases]]
name = "one run after another"
files = [["c", "model c"], ["t", "compiled c", "values 10000000 -10000000", "advices 1 0 010101010202020200000000000000000000000000000000", "seal 24"]]
runs = ["acas compile c other", "acas audit c t", "acas values c", "acas audit c t --reported"]
ends = ["0 done", "1 reported", "0 done", "1 reported"]
output_has = ["certified 1 reported 1 clear 2\n"]
after = [["other", "compiled c"]]
backups = "144"
turned = "96"
decisions = "4"

# The other commands count nothing. A drill has counters of its own.
[[cases]]
name = "runs that count nothing"
files = [["c", "model c"], ["t", "compiled c"]]
rows = [["acas check c t", "0 done", "accepted"], ["acas migrate c t u", "0 done", "migrated"], ["acas drill 0", "1 reported", "accepted"]]
runs = ["$1"]
ends = ["$2"]
output_has = ["$3"]
backups = "0"
turned = "0"
decisions = "0"

[[cases]]
name = "refused runs count nothing"
files = [["c", "model c"], ["bad", "text version = 1"], ["short", "compiled c", "cut 3"]]
rows = [
  ["acas values", "2 words", "words refused"],
  ["acas audit c", "2 words", "words refused"],
  ["acas compile c c", "2 words", "words refused"],
  ["acas values bad", "4 model", "model refused: key horizon missing"],
  ["acas compile bad t", "4 model", "model refused: key horizon missing"],
  ["acas audit c t", "3 absent table", "absent: t"],
  ["acas audit c short", "5 table", "table refused: length 3 of 940"],
]
runs = ["$1"]
ends = ["$2"]
error = "acas: $3\n"
backups = "0"
turned = "0"
decisions = "0"
"##;
