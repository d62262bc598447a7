//! Words, and files that are absent, too long or of another kind.

/// Its cases.
pub const WORDS: &str = r##"
# The words after the program's name.
[[cases]]
name = "words of no form"
rows = [
  ["acas"],
  ["acas values"],
  ["acas values a a"],
  ["acas values -a"],
  ["acas values ''"],
  ["acas Values a"],
  ["acas audit --reported c t"],
  ["acas audit c --reported"],
  ["acas drill 07"],
  ["acas manoeuvre a b 480"],
  ["acas manoeuvre a b 0480 1500"],
  ["acas compile m.toml m.toml"],
  ["acas --help"],
  ["acas --version"],
  ["acas ''"],
]
runs = ["$1"]
ends = ["2 words"]
error = "acas: words refused\n"

[[cases]]
name = "a name of 255 bytes is looked for"
rows = [["nnnnnnnnnnnnnnnnnnnnnnnnnnnnnnnnnnnnnnnnnnnnnnnnnnnnnnnnnnnnnnnnnnnnnnnnnnnnnnnnnnnnnnnnnnnnnnnnnnnnnnnnnnnnnnnnnnnnnnnnnnnnnnnnnnnnnnnnnnnnnnnnnnnnnnnnnnnnnnnnnnnnnnnnnnnnnnnnnnnnnnnnnnnnnnnnnnnnnnnnnnnnnnnnnnnnnnnnnnnnnnnnnnnnnnnnnnnnnnnnnnnnnnnnnnnnnnn"]]
runs = ["acas values $1"]
ends = ["3 absent model"]
error = "acas: absent: $1\n"

[[cases]]
name = "a name may have spaces and letters that are not ASCII"
rows = [["a b"], ["é"], ["values"], ["a\\b"], ["../x"]]
runs = ["acas values '$1'"]
ends = ["3 absent model"]
error = "acas: absent: $1\n"

[[cases]]
name = "a name of 256 bytes is none"
runs = ["acas values nnnnnnnnnnnnnnnnnnnnnnnnnnnnnnnnnnnnnnnnnnnnnnnnnnnnnnnnnnnnnnnnnnnnnnnnnnnnnnnnnnnnnnnnnnnnnnnnnnnnnnnnnnnnnnnnnnnnnnnnnnnnnnnnnnnnnnnnnnnnnnnnnnnnnnnnnnnnnnnnnnnnnnnnnnnnnnnnnnnnnnnnnnnnnnnnnnnnnnnnnnnnnnnnnnnnnnnnnnnnnnnnnnnnnnnnnnnnnnnnnnnnnnnnnnnnnnnn"]
ends = ["2 words"]
error = "acas: words refused\n"

[[cases]]
name = "a model that is as long as one may be, and full of nothing"
files = [["full", "pad 35 1000000"]]
runs = ["acas values full"]
ends = ["4 model"]
error = "acas: model refused: key version missing\n"

# Here `b` is a model, `c` is none, `long` is too long and `t` holds other bytes.
[[cases]]
name = "files that are absent, too long or of another kind"
files = [["b", "model b"], ["c"], ["long", "pad 35 1000001"], ["t", "text ACX"]]
rows = [
  ["acas check none nor", "3 absent model", "acas: absent: none\n"],
  ["acas compile c t", "4 model", "acas: model refused: key version missing\n"],
  ["acas check c t", "4 model", "acas: model refused: key version missing\n"],
  ["acas check c none", "4 model", "acas: model refused: key version missing\n"],
  ["acas check long none", "9 too long model", "acas: too long: long\n"],
  ["acas check b b", "5 table", "acas: table refused: magic\n"],
  ["acas check b c", "5 table", "acas: table refused: length 0 of 972\n"],
  ["acas check b long", "5 table", "acas: table refused: magic\n"],
  ["acas check b t", "5 table", "acas: table refused: length 3 of 972\n"],
  ["acas compile b b", "2 words", "acas: words refused\n"],
  ["acas compile b", "2 words", "acas: words refused\n"],
  ["acas compile b -t", "2 words", "acas: words refused\n"],
  ["acas check b", "2 words", "acas: words refused\n"],
  ["acas check b t t", "2 words", "acas: words refused\n"],
]
runs = ["$1"]
ends = ["$2"]
error = "$3"
absent = ["none"]
"##;
