//! What is promised of all forms of words, tried of each.

/// Of each form each call, made to fail in turn.
pub const CALLS: &str = r##"
# Each read of each file is among them, from the first on.
[[cases]]
name = "each call of a form"
forms = "all"
runs = ["acas $1"]
ends = ["$3"]
output_sha256 = "$4"
after = [["u", "$5"]]
each_call = "$6"

[[cases]]
name = "each call of a form at a byte a call"
forms = "all"
most = "1"
runs = ["acas $1"]
ends = ["$3"]
output_sha256 = "$4"
after = [["u", "$5"]]
each_call = "$7"

[[cases]]
name = "a form with the table in version 1, at a byte a call"
forms = "all"
files = [["t", "held t", "whole"]]
most = "1"
runs = ["acas $1"]
ends = ["$3"]
output_sha256 = "$4"
after = [["u", "$5"]]
"##;

/// Of each form other words, and its files and outputs: absent, too long, without an end, and stuck.
pub const OUTSIDES: &str = r##"
# What `compile` and `migrate` store is whole then.
[[cases]]
name = "an output that takes nothing"
forms = "all"
stuck = "write"
runs = ["acas $1"]
ends = ["8 output"]
error = "acas: output failed\n"
after = [["u", "$5"]]

# The output that takes nothing, and the call that fails.
[[cases]]
name = "an error output that takes nothing, and one that fails"
forms = "all"
rows = [["error", "error 1"], ["", "error 0"]]
stuck = "$1"
failing = ["$2"]
runs = ["acas $3 more"]
ends = ["2 words"]

[[cases]]
name = "an absent file"
forms = "file"
without = "$2"
runs = ["acas $1"]
ends = ["3 absent $3"]
error = "acas: absent: $2\n"
absent = ["$2"]

[[cases]]
name = "an absent file that is not told"
forms = "file"
rows = [["error", "error 1"], ["", "error 0"]]
without = "$4"
stuck = "$1"
failing = ["$2"]
runs = ["acas $3"]
ends = ["3 absent $5"]
absent = ["$4"]

[[cases]]
name = "a text that is too long by a byte"
forms = "text"
files = [["$2", "held $2", "pad 35 1000001"]]
runs = ["acas $1"]
ends = ["9 too long $3"]
error = "acas: too long: $2\n"

# Of a text the greatest length and one byte more are read, and of a table its length and one byte more.
[[cases]]
name = "a text that never ends"
forms = "text"
endless = "$2"
runs = ["acas $1"]
ends = ["9 too long $3"]
error = "acas: too long: $2\n"
taken = "$4"

[[cases]]
name = "a table that never ends"
forms = "table"
endless = "$2"
runs = ["acas $1"]
ends = ["5 table"]
error = "acas: table refused: length 941 of 940\n"
taken = "$4"

# The table that is too long, which version 1 makes 32 bytes shorter.
[[cases]]
name = "a table that is too long by a byte, or is of version 1 and never ends"
forms = "table"
rows = [["text ", "hex 00", "", "length 941 of 940"], ["whole", "hex 00", "", "length 909 of 908"], ["whole", "text ", "t", "length 909 of 908"]]
files = [["t", "held t", "$1", "$2"]]
endless = "$3"
runs = ["acas $5"]
ends = ["5 table"]
error = "acas: table refused: $4\n"
"##;

/// The smallest table, cut and changed, under each form that reads one.
pub const DAMAGES: &str = r##"
# Of the smallest table, in either version: as many bytes as the number says, and the byte of that number changed in its lowest and in its
# highest bit.
[[cases]]
name = "a table that is cut, or of which a bit is changed"
forms = "table"
numbers = 364
rows = [
  ["text ", "cut", ""],
  ["text ", "flip", " 1"],
  ["text ", "flip", " 128"],
  ["whole", "cut", ""],
  ["whole", "flip", " 1"],
  ["whole", "flip", " 128"],
]
files = [["c", "held a"], ["t", "held least", "$2", "$3 $1$4"]]
runs = ["acas $5"]
ends = ["5 table"]
error_begins = "acas: table refused: "
"##;
