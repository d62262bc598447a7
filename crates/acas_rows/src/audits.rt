//! What `audit` prints of tables.

/// Its cases.
pub const AUDITS: &str = r##"
# Under clear climb at the lower altitude and descend at the upper one; clear under the others.
[[cases]]
name = "a certified and a reported cell"
files = [["c", "model c"], ["t", "compiled c", "values 10000000 -10000000", "advices 1 0 010101010202020200000000000000000000000000000000", "seal 24"]]
runs = ["acas audit c t"]
ends = ["1 reported"]
output = """cell 0 clear 0 0 0 climb certified
cell 0 clear 0 0 0 descend reported time 3 range 1000 speed 500 ticks -20400 own 0 intruder 0 response 3@-960
certified 1 reported 1 clear 2
"""

[[cases]]
name = "the reported cells alone, and all counts"
files = [["c", "model c"], ["t", "compiled c", "values 10000000 -10000000", "advices 1 0 010101010202020200000000000000000000000000000000", "seal 24"]]
runs = ["acas audit c t --reported"]
ends = ["1 reported"]
output = """cell 0 clear 0 0 0 descend reported time 3 range 1000 speed 500 ticks -20400 own 0 intruder 0 response 3@-960
certified 1 reported 1 clear 2
"""

# With climb alone no cell is reported, and the certified line is left out where the reported ones are asked for.
[[cases]]
name = "a certified cell"
files = [["c", "model c"], ["t", "compiled c", "values 10000000 -10000000", "advices 1 0 010101010101010100000000000000000000000000000000", "seal 24"]]
runs = ["acas audit c t", "acas audit c t --reported"]
ends = ["0 done", "0 done"]
output = "cell 0 clear 0 0 0 climb certified\ncertified 1 reported 0 clear 2\ncertified 1 reported 0 clear 2\n"

# One corner of eight is enough: its layer and its state.
[[cases]]
name = "an advice at any corner"
files = [["c", "model c"], ["t", "compiled c", "values 10000000 -10000000", "advice $1 1", "seal 24"]]
rows = [["1 0"], ["1 1"], ["1 2"], ["1 3"], ["1 4"], ["1 5"], ["1 6"], ["1 7"]]
runs = ["acas audit c t"]
ends = ["0 done"]
output = "cell 0 clear 0 0 0 climb certified\ncertified 1 reported 0 clear 2\n"

# The present advisory of a cell is that of the table's state.
[[cases]]
name = "an advice under any present advisory"
files = [["c", "model c"], ["t", "compiled c", "values 10000000 -10000000", "advice $1 1", "seal 24"]]
rows = [["1 0", "clear"], ["1 8", "climb"], ["1 16", "descend"]]
runs = ["acas audit c t"]
ends = ["0 done"]
output = "cell 0 $2 0 0 0 climb certified\ncertified 1 reported 0 clear 2\n"

[[cases]]
name = "a table of no seconds has no cells"
files = [["a", "model a"]]
runs = ["acas compile a t", "acas audit a t", "acas audit a t --reported"]
ends = ["0 done", "0 done", "0 done"]
output = "compiled layers 1 states 16 bytes 364\ncertified 0 reported 0 clear 0\ncertified 0 reported 0 clear 0\n"
after_sha256 = [["t", "91ac195552b8cab96395ecdb6ed10ee9a0989f6b404992431099f256c1597219"]]

# Nothing costs anything but contact. All four advisories stand in patterns with 1, 2, 15, 20 and 30 seconds to go, and
# elsewhere what is compiled: 1024 cells under an advice are ruled on. The version, the limit and what stands behind it,
# the words, and the digest and the length of what is printed, where that is known. A delay leaves the values as they
# are, so the table of the text with the delay has the same entries.
[[cases]]
name = "the report of many cells, and pilots who may hold their rate"
files = [["d", "model d", "replace version = 1 => version = $1", "replace limit = 960 => limit = $2", "replace costs = [0, 1, 1, 1] => costs = [0, 0, 0, 0]", "replace costs = [0, 1, 1, 1] => costs = [0, 0, 0, 0]", "replace costs = [0, 1, 1, 1] => costs = [0, 0, 0, 0]", "replace costs = [0, 1, 1, 1] => costs = [0, 0, 0, 0]"], [
  "t",
  "compiled d",
  "values 1000000000 -1000000000",
  "advices 1 0 010203000102030001020300010203000102030001020300010203000102030001020300010203000102030001020300010203000102030001020300010203000102030001020300010203000102030001020300010203000102030001020300",
  "advices 2 0 000001000001000001000001000001000001000001000001000001000001000001000001000001000001000001000001000001000001000001000001000001000001000001000001000001000001000001000001000001000001000001000001",
  "advices 15 0 030000000003000000000300000000030000000003000000000300000000030000000003000000000300000000030000000003000000000300000000030000000003000000000300000000030000000003000000000300000000030000000003",
  "advices 20 0 020101030002010103000201010300020101030002010103000201010300020101030002010103000201010300020101030002010103000201010300020101030002010103000201010300020101030002010103000201010300020101030002",
  "advices 30 0 000102030001020300010203000102030001020300010203000102030001020300010203000102030001020300010203000102030001020300010203000102030001020300010203000102030001020300010203000102030001020300010203",
  "seal 96",
]]
rows = [
  ["1", "960", "acas audit d t", "4b1a7732b73694b3ae1dae872d4d445aeb975c8f67229fd331a96d079b6dc608", "108792"],
  ["1", "960", "acas audit d t --reported", "9e20f96c97e9abf0dbf6a8f0f2adf5f664a816ae8b3f54d5e714700f239d92e6", ""],
  ["2", "960\ndelay = 0", "acas audit d t", "4b1a7732b73694b3ae1dae872d4d445aeb975c8f67229fd331a96d079b6dc608", ""],
  ["2", "960\ndelay = 5", "acas audit d t", "9238ad197039c1e3481e12d0ed269c9e5e62bd7e9b2b1998cba84dcde8421864", ""],
  ["2", "960\ndelay = 5", "acas audit d t --reported", "ede520220b5784efa68941e4164114b557a8f3c94da27dfb33709a78c6d1346d", ""],
  ["2", "960\ndelay = 10", "acas audit d t", "38062bb0db653d32f637c4374025cb919ca09531c0ba0f97d7a0bff077dc2336", ""],
]
runs = ["$3"]
ends = ["1 reported"]
output_sha256 = "$4"
output_length = "$5"

# The whole table is accepted before a line goes out: its last value, its last advice and its last digit are looked at.
[[cases]]
name = "refused tables"
files = [["c", "model c"], ["t", "compiled c", "values 10000000 -10000000", "advices 1 0 010101010202020200000000000000000000000000000000", "seal 24", "$1"]]
rows = [
  ["advice 1 23 3", "layer 1 state 23 byte 3"],
  ["cut 939", "length 939 of 940"],
  ["cut 3", "length 3 of 940"],
  ["text  ", "length 941 of 940"],
  ["put 0 42", "magic"],
  ["put 40 03", "shape 0 is 3 not 2"],
]
runs = ["acas audit c t"]
ends = ["5 table"]
error = "acas: table refused: $2\n"

[[cases]]
name = "an entry that is not sound"
files = [["c", "model c"], ["t", "compiled c", "values 10000000 -10000000", "upper 1 23 -1", "seal 24"]]
runs = ["acas audit c t --reported"]
ends = ["5 table"]
error = "acas: table refused: layer 1 state 23 upper -0.000001 under 10.000000\n"

[[cases]]
name = "a table of another model"
files = [["c", "model c"], ["other", "model c", "text # another text\n"], ["t", "compiled other"]]
runs = ["acas audit other t", "acas audit c other"]
ends = ["0 done", "5 table"]
output = "certified 0 reported 0 clear 3\n"
error = "acas: table refused: magic\n"

# A table belongs to the text of its model, so that nobody audits it with another delay.
[[cases]]
name = "a table of the model with another delay"
files = [["late", "model c", "replace version = 1 => version = 2", "replace limit = 960 => limit = 960\ndelay = 5"], ["c", "model c", "replace version = 1 => version = 2", "replace limit = 960 => limit = 960\ndelay = 0"], ["t", "compiled late"]]
runs = ["acas audit c t"]
ends = ["5 table"]
error = "acas: table refused: other model c0c006ad59876e780a5a408e9498cdc55b7f3a174df87167a3f88cadef0eab11 found dd469595b4912cf27d0993307a2428dadceae6db8dfef3b4cfacc2092ca0debe\n"

# Files are looked at in order: the model first.
[[cases]]
name = "an absent model before an absent table"
runs = ["acas audit c t"]
ends = ["3 absent model"]
error = "acas: absent: c\n"

[[cases]]
name = "a refused model before an absent table"
files = [["c", "text version = 1"]]
runs = ["acas audit c t"]
ends = ["4 model"]
error = "acas: model refused: key horizon missing\n"

# The words behind `audit` are two names, and then nothing or the option.
[[cases]]
name = "words of an audit"
files = [["c", "model c"]]
rows = [
  ["acas audit"],
  ["acas audit c"],
  ["acas audit --reported c t"],
  ["acas audit c --reported"],
  ["acas audit c t --report"],
  ["acas audit c t --Reported"],
  ["acas audit c t ''"],
  ["acas audit c t --reported --reported"],
  ["acas audit -c t"],
  ["acas check c t --reported"],
  ["acas regions c"],
  ["acas regions c b --reported"],
  ["acas regions c -b"],
  ["acas Audit c t"],
]
runs = ["$1"]
ends = ["2 words"]
error = "acas: words refused\n"
"##;
