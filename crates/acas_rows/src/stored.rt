//! What `compile` stores, and that `check` accepts it.

/// Its cases.
pub const STORED: &str = r##"
# The model, the numbers of layers, states and bytes, and the digest of the table.
[[cases]]
name = "compiled tables are accepted"
files = [["m", "model $1"]]
most = "1000000"
rows = [
  ["a", "1", "16", "364", "91ac195552b8cab96395ecdb6ed10ee9a0989f6b404992431099f256c1597219"],
  ["c", "2", "24", "940", "504d1cec629ff4b17fa85a843989734833d1890fbd920be6d201f0d75184225c"],
  ["d", "31", "96", "51644", "878a26ce4fa7e81d22d3edbc6d14322e468ae5e89176103e81fe30c887004614"],
  ["e", "41", "17787", "12398911", "da8b836fbfaaf789e10149c91812f1d490effa1f998b1004e1b432c07b76a611"],
]
runs = ["acas compile m t", "acas check m t"]
ends = ["0 done", "0 done"]
output = "compiled layers $2 states $3 bytes $4\naccepted layers $2 states $3\n"
after_sha256 = [["t", "$5"]]

# The same values and advices in version 1.
[[cases]]
name = "tables of version 1 are accepted"
files = [["m", "model $1"], ["t", "compiled m", "whole"]]
most = "1000000"
rows = [
  ["a", "1", "16", "4b30f2bc78f90332d83c772c3f339bc496bc0a8169b9380179b160cab56356b7"],
  ["b", "3", "16", "11152b7216d576f028a03021d86ede498538ef777758dd2d4224aea770823d20"],
  ["c", "2", "24", "49e816e5c53780aa26adbd1e5ce4e70e735a691fc10235efba5a8252a5800455"],
  ["d", "31", "96", "a0861b4c304e1d37a7433e827db5178f5d5b1da10c0876ac00782f08f08f39ac"],
  ["e", "41", "17787", "136a6599f0812d32fd87644e770b3e27e5eff3bda09812647b204b3506537373"],
]
runs = ["acas check m t"]
ends = ["0 done"]
output = "accepted layers $2 states $3\n"
after_sha256 = [["t", "$4"]]

# What the name held before, and the most bytes that a call takes.
[[cases]]
name = "a table is stored whatever a call takes"
files = [["b", "model b"], ["other", "text other"], ["t", "$1"]]
most = "$2"
rows = [
  ["text ", "1"],
  ["text ", "7"],
  ["text ", "4096"],
  ["text short", "1"],
  ["text short", "7"],
  ["text short", "4096"],
  ["pad 35 2000", "1"],
  ["pad 35 2000", "7"],
  ["pad 35 2000", "4096"],
]
runs = ["acas compile b t"]
ends = ["0 done"]
output = "compiled layers 3 states 16 bytes 972\n"
after_sha256 = [["t", "41f5439a1c822efb03ec5cac28c42785cc2e43b859275a65005a61f5337994d5"]]

# Bytes that stand in the table already: the magic text and the version, the digest of the model's text, the shape, and,
# for one second to go and the state of number 1, the values 666667 and 666666 and the first advisory.
[[cases]]
name = "the bytes of a table"
files = [[
  "b",
  "model b",
], [
  "t",
  "compiled b",
  "put 0 4143585402000000",
  "put 8 544e47ea13aa86a22481c74634da8dceb574ad3d3079b39dad02353a0d2ac636",
  "put 40 0200000002000000020000000200000002000000",
  "put 381 2b2c0a00000000002a2c0a000000000000",
]]
runs = ["acas check b t"]
ends = ["0 done"]
output = "accepted layers 3 states 16\n"
after_sha256 = [["t", "41f5439a1c822efb03ec5cac28c42785cc2e43b859275a65005a61f5337994d5"]]

# The two advisories do the same, and clear names the other first.
[[cases]]
name = "a table of equal choices"
files = [["m", "model b", "replace lo = -500\nhi = 500 => lo = -10000\nhi = 10000", "replace choices = [\"clear\"]\ncosts = [0] => choices = [\"level\", \"clear\"]\ncosts = [0, 0]"]]
runs = ["acas compile m t", "acas check m t"]
ends = ["0 done", "0 done"]
output = "compiled layers 3 states 16 bytes 972\naccepted layers 3 states 16\n"
after_sha256 = [["t", "c0b3ca24dc482842e05985335cf35b02d58fa519a404f22b8af5a3b5a1ad6744"]]

# Its advices are these already: level in the eight states in which clear is present, with one and with two seconds to
# go.
[[cases]]
name = "the advices of equal choices"
files = [["m", "model b", "replace lo = -500\nhi = 500 => lo = -10000\nhi = 10000", "replace choices = [\"clear\"]\ncosts = [0] => choices = [\"level\", \"clear\"]\ncosts = [0, 0]"], [
  "t",
  "compiled m",
  "advices 0 0 ffffffffffffffffffffffffffffffff",
  "advices 1 0 01010101010101010000000000000000",
  "advices 2 0 01010101010101010000000000000000",
]]
runs = ["acas check m t"]
ends = ["0 done"]
output = "accepted layers 3 states 16\n"
after_sha256 = [["t", "c0b3ca24dc482842e05985335cf35b02d58fa519a404f22b8af5a3b5a1ad6744"]]

[[cases]]
name = "of equal choices each is accepted"
files = [["m", "model b", "replace lo = -500\nhi = 500 => lo = -10000\nhi = 10000", "replace choices = [\"clear\"]\ncosts = [0] => choices = [\"level\", \"clear\"]\ncosts = [0, 0]"], [
  "t",
  "compiled m",
  "advices 1 0 0000000000000000",
  "advices 2 0 0000000000000000",
  "seal 16",
]]
runs = ["acas check m t"]
ends = ["0 done"]
output = "accepted layers 3 states 16\n"
"##;
