//! Tables that differ in their entries.

/// Its cases.
pub const ENTRIES: &str = r##"
# A part of an entry that is changed, and the fault: of a table with its old digests, and with digests made anew, in
# version 2 and in version 1. The entries of a layer stand before its digest.
[[cases]]
name = "entries that are not sound"
files = [
  ["b", "model b"],
  ["t", "compiled b", "$1"],
  ["u", "compiled b", "$1", "seal 16"],
  ["v", "compiled b", "whole", "$1"],
  ["w", "compiled b", "whole", "$1", "seal 48"],
]
rows = [
  ["advice 0 0 0", "layer 0 state 0 byte 0"],
  ["advice 0 15 254", "layer 0 state 15 byte 254"],
  ["advice 1 1 7", "layer 1 state 1 byte 7"],
  ["advice 1 15 2", "layer 1 state 15 byte 2"],
  ["advice 2 0 255", "layer 2 state 0 byte 255"],
  # Under either advisory only clear may be chosen.
  ["advice 1 3 1", "layer 1 state 3 advice not allowed"],
  ["advice 2 15 1", "layer 2 state 15 advice not allowed"],
  ["upper 0 0 999999", "layer 0 state 0 upper 0.999999 under 1.000000"],
  ["lower 0 0 1000001", "layer 0 state 0 lower 1.000001 over 1.000000"],
  ["upper 0 4 -1", "layer 0 state 4 upper -0.000001 under 0.000000"],
  ["lower 0 12 1", "layer 0 state 12 lower 0.000001 over 0.000000"],
  ["upper 1 1 666666", "layer 1 state 1 upper 0.666666 under 0.666667"],
  ["lower 1 1 666667", "layer 1 state 1 lower 0.666667 over 0.666666"],
  ["upper 1 9 -9223372036854775808", "layer 1 state 9 upper -9223372036854.775808 under 0.666667"],
  ["lower 1 9 9223372036854775807", "layer 1 state 9 lower 9223372036854.775807 over 0.666666"],
  ["upper 2 1 524691", "layer 2 state 1 upper 0.524691 under 0.524692"],
  ["lower 2 1 524691", "layer 2 state 1 lower 0.524691 over 0.524690"],
  ["upper 2 15 185185", "layer 2 state 15 upper 0.185185 under 0.185186"],
]
runs = ["acas check b t", "acas check b u", "acas check b v", "acas check b w"]
ends = ["5 table", "5 table", "5 table", "5 table"]
error = """
acas: table refused: $2
acas: table refused: $2
acas: table refused: $2
acas: table refused: $2
"""

# Two parts that are both wrong, and the fault that is named.
[[cases]]
name = "of two faults the first is named"
files = [
  ["b", "model b"],
  ["t", "compiled b", "$1", "$2"],
  ["u", "compiled b", "$1", "$2", "seal 16"],
  ["v", "compiled b", "whole", "$1", "$2"],
  ["w", "compiled b", "whole", "$1", "$2", "seal 48"],
]
rows = [
  # In one entry: its advice, then whether that may be chosen, then its upper value, then its lower value.
  ["upper 1 1 0", "advice 1 1 2", "layer 1 state 1 byte 2"],
  ["upper 0 0 0", "advice 0 0 1", "layer 0 state 0 byte 1"],
  ["upper 1 1 0", "advice 1 1 1", "layer 1 state 1 advice not allowed"],
  ["lower 1 1 1000000", "upper 1 1 0", "layer 1 state 1 upper 0.000000 under 0.666667"],
  ["lower 0 0 2000000", "upper 0 0 0", "layer 0 state 0 upper 0.000000 under 1.000000"],
  # In two entries: the earlier one, whatever is wrong with it.
  ["lower 1 1 666667", "advice 1 2 7", "layer 1 state 1 lower 0.666667 over 0.666666"],
  ["advice 1 1 1", "advice 1 2 7", "layer 1 state 1 advice not allowed"],
  ["upper 0 15 -1", "advice 1 0 255", "layer 0 state 15 upper -0.000001 under 0.000000"],
  ["advice 1 15 9", "upper 2 0 0", "layer 1 state 15 byte 9"],
]
runs = ["acas check b t", "acas check b u", "acas check b v", "acas check b w"]
ends = ["5 table", "5 table", "5 table", "5 table"]
error = """
acas: table refused: $3
acas: table refused: $3
acas: table refused: $3
acas: table refused: $3
"""

# How many bytes are left of a table whose entry of layer 1 and state 1 is too low, and the fault; the table in version
# 2, and then in version 1, where 32 bytes fewer stand before the entry.
[[cases]]
name = "an entry is looked at before the next is read"
files = [["b", "model b"], ["t", "compiled b", "$1", "upper 1 1 666666", "cut $2"]]
rows = [
  ["text ", "381", "length 381 of 972"],
  ["text ", "397", "length 397 of 972"],
  ["text ", "398", "layer 1 state 1 upper 0.666666 under 0.666667"],
  ["text ", "971", "layer 1 state 1 upper 0.666666 under 0.666667"],
  ["whole", "349", "length 349 of 908"],
  ["whole", "365", "length 365 of 908"],
  ["whole", "366", "layer 1 state 1 upper 0.666666 under 0.666667"],
  ["whole", "907", "layer 1 state 1 upper 0.666666 under 0.666667"],
]
runs = ["acas check b t"]
ends = ["5 table"]
error = "acas: table refused: $3\n"

# A value that is sound, but not the one that the digest is over. In version 2 the digest of its layer names it, as soon
# as the layer is read: of layer 1 also where the file ends there, and with a byte behind it that is no advice. In
# version 1 the layer above it is looked at first, in which a value is too low then.
[[cases]]
name = "a damaged layer is named before a later one is read"
files = [["b", "model b"], ["t", "compiled b", "$1", "$2", "$3"]]
rows = [
  ["text ", "upper 0 0 1000001", "text ", "layer 0 digest 7a0bb1e18aee734ec03eb8c63f98125e67f9fe271b53bff66da3a4705f61830e computed 6f151fa3fcf62c243c0e402c5d896c540a65cf543540305060277660698abdd2"],
  ["text ", "upper 0 0 1000001", "advice 1 0 7", "layer 0 digest 7a0bb1e18aee734ec03eb8c63f98125e67f9fe271b53bff66da3a4705f61830e computed 6f151fa3fcf62c243c0e402c5d896c540a65cf543540305060277660698abdd2"],
  ["text ", "upper 1 1 666668", "text ", "layer 1 digest fe437eb5fe1b063c0a064de618e0ac65a04ccd69e102d09332da8435edd6c920 computed 3131ae9a8f7ceb0e7edfbadc675fe3e40751b131682ef30b6d996774b2a05d7c"],
  ["text ", "upper 1 1 666668", "cut 668", "layer 1 digest fe437eb5fe1b063c0a064de618e0ac65a04ccd69e102d09332da8435edd6c920 computed 3131ae9a8f7ceb0e7edfbadc675fe3e40751b131682ef30b6d996774b2a05d7c"],
  ["text ", "upper 1 1 666668", "cut 667", "length 667 of 972"],
  ["text ", "upper 1 1 666668", "cut 636", "length 636 of 972"],
  ["text ", "upper 2 15 185187", "text ", "layer 2 digest e1d62f7f36766dac66d3669927225bbbf9cded8a65966a2bcaa5ab0ac5c63f8a computed f0623dbaa967bd13b9df4d22c5f7e5c838494020c00f44e22a09cdb2fc0604f5"],
  ["whole", "upper 1 1 666668", "text ", "layer 2 state 1 upper 0.524692 under 0.524693"],
]
runs = ["acas check b t"]
ends = ["5 table"]
error = "acas: table refused: $4\n"

# The digest of the last layer, and that of all.
[[cases]]
name = "the last digest is looked at before the end of the file"
files = [["b", "model b"], ["t", "compiled b", "$1", "put $2 0000000000000000000000000000000000000000000000000000000000000000", "hex 00"]]
rows = [
  ["text ", "940", "layer 2 digest", "e1d62f7f36766dac66d3669927225bbbf9cded8a65966a2bcaa5ab0ac5c63f8a"],
  ["whole", "876", "digest", "ee49563be2b835fa44385f97b98ee2883e838ff663cff741935a5ea79a334a86"],
]
runs = ["acas check b t"]
ends = ["5 table"]
error = "acas: table refused: $3 0000000000000000000000000000000000000000000000000000000000000000 computed $4\n"
"##;
