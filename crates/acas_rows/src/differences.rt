//! What a runner of cases is to see.

/// One case that ends as it says, and cases that are each false in what their names say.
pub const DIFFERENCES: &str = r##"
[[cases]]
name = "true"
files = [["a", "model a"]]
runs = ["acas check a none"]
ends = ["3 absent table"]
error = "acas: absent: none\n"

[[cases]]
name = "code"
runs = ["acas values"]
ends = ["4 words"]
error = "acas: words refused\n"

[[cases]]
name = "cause"
runs = ["acas values none"]
ends = ["3 absent table"]
error = "acas: absent: none\n"

[[cases]]
name = "digit"
runs = ["acas values"]
codes = "3"
error = "acas: words refused\n"

[[cases]]
name = "runs"
runs = ["acas values", "acas values"]
ends = ["2 words"]
error = "acas: words refused\nacas: words refused\n"

[[cases]]
name = "error output"
runs = ["acas values"]
ends = ["2 words"]

[[cases]]
name = "output"
files = [["b", "model b"], ["t", "compiled b"]]
runs = ["acas check b t"]
ends = ["0 done"]

[[cases]]
name = "text in the output"
files = [["b", "model b"], ["t", "compiled b"]]
runs = ["acas check b t"]
ends = ["0 done"]
output_has = ["refused"]

[[cases]]
name = "length"
files = [["b", "model b"], ["t", "compiled b"]]
runs = ["acas check b t"]
ends = ["0 done"]
output_length = 27

[[cases]]
name = "digest of the output"
files = [["b", "model b"], ["t", "compiled b"]]
runs = ["acas check b t"]
ends = ["0 done"]
output_sha256 = "0000000000000000000000000000000000000000000000000000000000000000"

[[cases]]
name = "digest of the lines"
runs = ["acas values"]
ends = ["2 words"]
lines_sha256 = "0000000000000000000000000000000000000000000000000000000000000000"

[[cases]]
name = "file that is not as before"
files = [["b", "model b"], ["t", "text before"]]
runs = ["acas compile b t"]
ends = ["0 done"]
output = "compiled layers 3 states 16 bytes 972\n"

[[cases]]
name = "file afterwards"
files = [["b", "model b"]]
runs = ["acas compile b t"]
ends = ["0 done"]
output = "compiled layers 3 states 16 bytes 972\n"
after = [["t", "compiled b", "flip 971 1"]]

[[cases]]
name = "digest of a file"
files = [["b", "model b"]]
runs = ["acas compile b t"]
ends = ["0 done"]
output = "compiled layers 3 states 16 bytes 972\n"
after_sha256 = [["t", "0000000000000000000000000000000000000000000000000000000000000000"]]

[[cases]]
name = "no file"
files = [["b", "model b"]]
runs = ["acas compile b t"]
ends = ["0 done"]
output = "compiled layers 3 states 16 bytes 972\n"
absent = ["t"]

[[cases]]
name = "too few calls"
files = [["b", "model b"], ["t", "compiled b"]]
most = "4096"
runs = ["acas check b t"]
ends = ["0 done"]
output = "accepted layers 3 states 16\n"
each_call = "4"

[[cases]]
name = "too many calls"
files = [["b", "model b"], ["t", "compiled b"]]
most = "4096"
runs = ["acas check b t"]
ends = ["0 done"]
output = "accepted layers 3 states 16\n"
each_call = "6"

[[cases]]
name = "front of the error output"
runs = ["acas values"]
ends = ["2 words"]
error_begins = "acas: absent"

[[cases]]
name = "form"
forms = "table"
runs = ["acas $1"]
ends = ["2 words"]
error = "acas: words refused\n"

[[cases]]
name = "file of a form that is not there"
forms = "text"
without = "$2"
runs = ["acas $1"]
ends = ["9 too long $3"]
error = "acas: absent: $2\n"

[[cases]]
name = "no such text"
files = [["b", "model b", "replace horizon = 3 => horizon = 4"]]
runs = ["acas values"]
ends = ["2 words"]
error = "acas: words refused\n"
"##;
