//! Folders and outputs whose calls fail.

/// Its cases.
pub const FAILING: &str = r##"
# The line has 20 bytes.
[[cases]]
name = "each call of a run that is refused, at a byte a call"
most = "1"
rows = [["acas values", "2 words", "acas: words refused\n"]]
runs = ["$1"]
ends = ["$2"]
error = "$3"
each_call = "0 0 0 0 20"

[[cases]]
name = "each call of a check that refuses, at a byte a call"
files = [["b", "model b"], ["t", "text ACX"]]
most = "1"
runs = ["acas check b t"]
ends = ["5 table"]
error = "acas: table refused: length 3 of 972\n"
each_call = "516 0 0 0 37"

[[cases]]
name = "a failing error output changes no code"
most = "3"
failing = ["error $1"]
rows = [["0", ""], ["1", "aca"], ["2", "acas: "], ["3", "acas: abs"], ["4", "acas: absent"], ["5", "acas: absent: "], ["6", "acas: absent: b"]]
runs = ["acas values b"]
ends = ["3 absent model"]
error = "$2"

# The append that fails, and how many bytes are stored then: the header, and three layers with their digests.
[[cases]]
name = "a failing append leaves a proper prefix, which is refused"
files = [["b", "model b"], ["other", "text other"], ["t", "text before"]]
most = "4096"
failing = ["append $1"]
rows = [["0", "0"], ["1", "60"], ["2", "332"], ["3", "364"], ["4", "636"], ["5", "668"], ["6", "940"]]
runs = ["acas compile b t", "acas check b t"]
ends = ["7 folder", "5 table"]
error = "acas: folder failed\nacas: table refused: length $2 of 972\n"
after = [["t", "compiled b", "cut $2"]]

[[cases]]
name = "a failing append of a byte leaves a proper prefix, which is refused"
numbers = 972
files = [["b", "model b"], ["other", "text other"], ["t", "text before"]]
most = "1"
failing = ["append $1"]
runs = ["acas compile b t", "acas check b t"]
ends = ["7 folder", "5 table"]
error = "acas: folder failed\nacas: table refused: length $1 of 972\n"
after = [["t", "compiled b", "cut $1"]]

[[cases]]
name = "a failing create makes no file"
files = [["b", "model b"], ["other", "text other"]]
most = "4096"
failing = ["create 0"]
runs = ["acas compile b t"]
ends = ["7 folder"]
error = "acas: folder failed\n"
absent = ["t"]

[[cases]]
name = "an error output that takes nothing"
files = [["b", "model b"], ["t", "text t"]]
stuck = "error"
rows = [["values t", "4 model"], ["check b t", "5 table"], ["regions b t", "6 input"], ["manoeuvre b t 480 1500", "6 input"]]
runs = ["acas $1"]
ends = ["$2"]
"##;
