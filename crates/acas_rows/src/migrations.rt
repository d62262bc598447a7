//! What `migrate` stores, and what it refuses.

/// Its cases.
pub const MIGRATIONS: &str = r##"
# The model, the numbers of layers, states and bytes, and the digests of its compiled table in version 1 and in version
# 2. The second run migrates what the first has stored.
[[cases]]
name = "compiled tables of version 1 are migrated"
files = [["m", "model $1"], ["t", "compiled m", "whole"]]
rows = [
  ["a", "1", "16", "364", "4b30f2bc78f90332d83c772c3f339bc496bc0a8169b9380179b160cab56356b7", "91ac195552b8cab96395ecdb6ed10ee9a0989f6b404992431099f256c1597219"],
  ["b", "3", "16", "972", "11152b7216d576f028a03021d86ede498538ef777758dd2d4224aea770823d20", "41f5439a1c822efb03ec5cac28c42785cc2e43b859275a65005a61f5337994d5"],
  ["c", "2", "24", "940", "49e816e5c53780aa26adbd1e5ce4e70e735a691fc10235efba5a8252a5800455", "504d1cec629ff4b17fa85a843989734833d1890fbd920be6d201f0d75184225c"],
  ["d", "31", "96", "51644", "a0861b4c304e1d37a7433e827db5178f5d5b1da10c0876ac00782f08f08f39ac", "878a26ce4fa7e81d22d3edbc6d14322e468ae5e89176103e81fe30c887004614"],
]
runs = ["acas migrate m t u", "acas migrate m u w", "acas check m w"]
ends = ["0 done", "0 done", "0 done"]
output = """
migrated layers $2 states $3 bytes $4
migrated layers $2 states $3 bytes $4
accepted layers $2 states $3
"""
after_sha256 = [["t", "$5"], ["u", "$6"], ["w", "$6"]]

# Under clear climb at the lower altitude and descend at the upper one; clear under the others; and bounds that no
# compiler would make. The values and the advices are those of the table, and what is read of it is the same.
[[cases]]
name = "a table with bounds and advices of its own"
files = [
  ["c", "model c"],
  ["t", "compiled c", "whole", "values 10000000 -10000000", "advices 1 0 010101010202020200000000000000000000000000000000", "seal 48"],
]
runs = ["acas audit c t", "acas migrate c t u", "acas audit c u", "acas migrate c u w"]
ends = ["1 reported", "0 done", "1 reported", "0 done"]
output = """
cell 0 clear 0 0 0 climb certified
cell 0 clear 0 0 0 descend reported time 3 range 1000 speed 500 ticks -20400 own 0 intruder 0 response 3@-960
certified 1 reported 1 clear 2
migrated layers 2 states 24 bytes 940
cell 0 clear 0 0 0 climb certified
cell 0 clear 0 0 0 descend reported time 3 range 1000 speed 500 ticks -20400 own 0 intruder 0 response 3@-960
certified 1 reported 1 clear 2
migrated layers 2 states 24 bytes 940
"""
after_sha256 = [
  ["t", "341e88d258afcad92fea97827ef120197a42b095fd8986226922c6d7f70499a7"],
  ["u", "f6fdbec8a1ce26b8e524f7cc94627fc5f931708a76ad70b00878caeafd4607d2"],
  ["w", "f6fdbec8a1ce26b8e524f7cc94627fc5f931708a76ad70b00878caeafd4607d2"],
]

# The version that the table had, what the new name held before, and the most bytes that a call takes or gives.
[[cases]]
name = "a table is migrated whatever a call takes"
files = [["b", "model b"], ["t", "compiled b", "$1"], ["other", "text other"], ["u", "$2"]]
most = "$3"
rows = [
  ["whole", "text ", "1"],
  ["whole", "text short", "7"],
  ["whole", "pad 35 2000", "4096"],
  ["text ", "text ", "7"],
  ["text ", "text short", "4096"],
  ["text ", "pad 35 2000", "1"],
]
runs = ["acas migrate b t u"]
ends = ["0 done"]
output = "migrated layers 3 states 16 bytes 972\n"
after_sha256 = [["u", "41f5439a1c822efb03ec5cac28c42785cc2e43b859275a65005a61f5337994d5"]]

# The model's own text is no table, but may be named as one.
[[cases]]
name = "words of a migration"
files = [["b", "model b"], ["t", "compiled b", "whole"], ["u", "text before"]]
rows = [
  ["acas migrate b t t", "2 words", "words refused"],
  ["acas migrate b t b", "2 words", "words refused"],
  ["acas migrate b b b", "2 words", "words refused"],
  ["acas migrate b t", "2 words", "words refused"],
  ["acas migrate b", "2 words", "words refused"],
  ["acas migrate", "2 words", "words refused"],
  ["acas migrate b t u u", "2 words", "words refused"],
  ["acas migrate b t -u", "2 words", "words refused"],
  ["acas migrate b -t u", "2 words", "words refused"],
  ["acas migrate -b t u", "2 words", "words refused"],
  ["acas migrate b t ''", "2 words", "words refused"],
  ["acas Migrate b t u", "2 words", "words refused"],
  ["acas migrate b b u", "5 table", "table refused: magic"],
]
runs = ["$1"]
ends = ["$2"]
error = "acas: $3\n"

# Files are looked at in order: the model, then the table. Here `c` is no model and `long` is too long.
[[cases]]
name = "files that are absent, too long or of another kind"
files = [["b", "model b"], ["c"], ["long", "pad 35 1000001"], ["t", "text ACX"], ["u", "text before"]]
rows = [
  ["acas migrate none nor u", "3 absent model", "absent: none"],
  ["acas migrate c t u", "4 model", "model refused: key version missing"],
  ["acas migrate c none u", "4 model", "model refused: key version missing"],
  ["acas migrate b c u", "5 table", "table refused: length 0 of 972"],
  ["acas migrate b long u", "5 table", "table refused: magic"],
  ["acas migrate b t u", "5 table", "table refused: length 3 of 972"],
  ["acas migrate b u t", "5 table", "table refused: magic"],
]
runs = ["$1"]
ends = ["$2"]
error = "acas: $3\n"
absent = ["none", "nor"]

# A table that is refused is not stored again, in either version, also where its last digest or its end alone is wrong.
[[cases]]
name = "refused tables are not migrated"
files = [["b", "model b"], ["t", "compiled b", "$1", "$2"], ["u", "text before"]]
rows = [
  ["text ", "put 4 03000000", "version 3"],
  ["text ", "upper 1 1 666666", "layer 1 state 1 upper 0.666666 under 0.666667"],
  ["text ", "upper 1 1 666668", "layer 1 digest fe437eb5fe1b063c0a064de618e0ac65a04ccd69e102d09332da8435edd6c920 computed 3131ae9a8f7ceb0e7edfbadc675fe3e40751b131682ef30b6d996774b2a05d7c"],
  ["text ", "flip 971 1", "layer 2 digest e1d62f7f36766dac66d3669927225bbbf9cded8a65966a2bcaa5ab0ac5c63f8b computed e1d62f7f36766dac66d3669927225bbbf9cded8a65966a2bcaa5ab0ac5c63f8a"],
  ["text ", "hex 00", "length 973 of 972"],
  ["text ", "cut 971", "length 971 of 972"],
  ["whole", "advice 2 15 1", "layer 2 state 15 advice not allowed"],
  ["whole", "put 907 87", "digest ee49563be2b835fa44385f97b98ee2883e838ff663cff741935a5ea79a334a87 computed ee49563be2b835fa44385f97b98ee2883e838ff663cff741935a5ea79a334a86"],
  ["whole", "hex 00", "length 909 of 908"],
]
runs = ["acas migrate b t u"]
ends = ["5 table"]
error = "acas: table refused: $3\n"

# The append that fails, and how many bytes are stored then.
[[cases]]
name = "a failing append of a migration leaves a proper prefix, which is refused"
files = [["b", "model b"], ["t", "compiled b", "whole"], ["u", "text before"]]
most = "4096"
failing = ["append $1"]
rows = [["0", "0"], ["1", "60"], ["2", "332"], ["3", "364"], ["4", "636"], ["5", "668"], ["6", "940"]]
runs = ["acas migrate b t u", "acas check b u"]
ends = ["7 folder", "5 table"]
error = "acas: folder failed\nacas: table refused: length $2 of 972\n"
after = [["u", "compiled b", "cut $2"]]

[[cases]]
name = "a failing create of a migration makes no file"
files = [["b", "model b"], ["t", "compiled b", "whole"]]
failing = ["create 0"]
runs = ["acas migrate b t u"]
ends = ["7 folder"]
error = "acas: folder failed\n"
absent = ["u"]
"##;
