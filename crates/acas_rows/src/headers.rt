//! Tables that differ in the header or in the digest, and tables of another length.

/// Its cases.
pub const HEADERS: &str = r##"
# Where a number of the header begins, its bytes, and the fault: of a table with its old digests, and with digests made
# anew, in version 2 and in version 1.
[[cases]]
name = "numbers of the header"
files = [
  ["b", "model b"],
  ["t", "compiled b", "put $1 $2"],
  ["u", "compiled b", "put $1 $2", "seal 16"],
  ["v", "compiled b", "whole", "put $1 $2"],
  ["w", "compiled b", "whole", "put $1 $2", "seal 48"],
]
rows = [
  ["0", "41435855", "magic"],
  ["0", "00000000", "magic"],
  ["0", "61435854", "magic"],
  ["4", "00000000", "version 0"],
  ["4", "03000000", "version 3"],
  ["4", "00000001", "version 16777216"],
  ["4", "00000002", "version 33554432"],
  ["4", "ffffffff", "version 4294967295"],
  ["40", "03000000", "shape 0 is 3 not 2"],
  ["40", "ffffffff", "shape 0 is 4294967295 not 2"],
  ["44", "04000000", "shape 1 is 4 not 2"],
  ["48", "00000000", "shape 2 is 0 not 2"],
  ["52", "03000000", "shape 3 is 3 not 2"],
  ["52", "00000002", "shape 3 is 33554432 not 2"],
  ["56", "01000000", "shape 4 is 1 not 2"],
  ["56", "03000000", "shape 4 is 3 not 2"],
]
runs = ["acas check b t", "acas check b u", "acas check b v", "acas check b w"]
ends = ["5 table", "5 table", "5 table", "5 table"]
error = """
acas: table refused: $3
acas: table refused: $3
acas: table refused: $3
acas: table refused: $3
"""

# The file goes on in the version that it names: a digest stands where there is to be an entry, and an entry where there
# is to be a digest.
[[cases]]
name = "tables that name the other version"
files = [["b", "model b"], ["t", "compiled b", "$1", "put 4 $2"]]
rows = [
  ["text ", "01000000", "layer 1 state 0 byte 103"],
  ["whole", "02000000", "layer 0 digest 3d690e00000000003c690e0000000000002b2c0a00000000002a2c0a00000000 computed 7a0bb1e18aee734ec03eb8c63f98125e67f9fe271b53bff66da3a4705f61830e"],
]
runs = ["acas check b t"]
ends = ["5 table"]
error = "acas: table refused: $3\n"

[[cases]]
name = "a table of another model"
files = [
  ["b", "model b"],
  ["t", "compiled b", "put 8 $1"],
  ["u", "compiled b", "put 8 $1", "seal 16"],
  ["v", "compiled b", "whole", "put 8 $1"],
  ["w", "compiled b", "whole", "put 8 $1", "seal 48"],
]
rows = [
  ["0000000000000000000000000000000000000000000000000000000000000000"],
]
runs = ["acas check b t", "acas check b u", "acas check b v", "acas check b w"]
ends = ["5 table", "5 table", "5 table", "5 table"]
error = """
acas: table refused: other model $1 found 544e47ea13aa86a22481c74634da8dceb574ad3d3079b39dad02353a0d2ac636
acas: table refused: other model $1 found 544e47ea13aa86a22481c74634da8dceb574ad3d3079b39dad02353a0d2ac636
acas: table refused: other model $1 found 544e47ea13aa86a22481c74634da8dceb574ad3d3079b39dad02353a0d2ac636
acas: table refused: other model $1 found 544e47ea13aa86a22481c74634da8dceb574ad3d3079b39dad02353a0d2ac636
"""

# The model's text with a comment behind it is another model's.
[[cases]]
name = "a table of the model with no comment"
files = [["b", "model b"], ["t", "compiled b"], ["c", "model b", "text # a comment\n"]]
runs = ["acas check c t"]
ends = ["5 table"]
error = "acas: table refused: other model 544e47ea13aa86a22481c74634da8dceb574ad3d3079b39dad02353a0d2ac636 found cc6a9e31b9db745ad9752d6e72b12f4b1910eb7f9da94452b448c681d42ebc0e\n"

# Where bytes of a digest are put, the bytes, and the digest that is found and the one that is computed: in version 2 of
# each layer, and in version 1 of all.
[[cases]]
name = "tables of another digest"
files = [["b", "model b"], ["t", "compiled b", "$1", "put $2 $3"]]
rows = [
  ["text ", "332", "0000000000000000000000000000000000000000000000000000000000000000", "layer 0 digest 0000000000000000000000000000000000000000000000000000000000000000 computed 7a0bb1e18aee734ec03eb8c63f98125e67f9fe271b53bff66da3a4705f61830e"],
  ["text ", "363", "8b", "layer 0 digest 7a0bb1e18aee734ec03eb8c63f98125e67f9fe271b53bff66da3a4705f61838b computed 7a0bb1e18aee734ec03eb8c63f98125e67f9fe271b53bff66da3a4705f61830e"],
  ["text ", "636", "0000000000000000000000000000000000000000000000000000000000000000", "layer 1 digest 0000000000000000000000000000000000000000000000000000000000000000 computed fe437eb5fe1b063c0a064de618e0ac65a04ccd69e102d09332da8435edd6c920"],
  ["text ", "940", "0000000000000000000000000000000000000000000000000000000000000000", "layer 2 digest 0000000000000000000000000000000000000000000000000000000000000000 computed e1d62f7f36766dac66d3669927225bbbf9cded8a65966a2bcaa5ab0ac5c63f8a"],
  ["text ", "971", "8b", "layer 2 digest e1d62f7f36766dac66d3669927225bbbf9cded8a65966a2bcaa5ab0ac5c63f8b computed e1d62f7f36766dac66d3669927225bbbf9cded8a65966a2bcaa5ab0ac5c63f8a"],
  ["whole", "876", "0000000000000000000000000000000000000000000000000000000000000000", "digest 0000000000000000000000000000000000000000000000000000000000000000 computed ee49563be2b835fa44385f97b98ee2883e838ff663cff741935a5ea79a334a86"],
  ["whole", "907", "87", "digest ee49563be2b835fa44385f97b98ee2883e838ff663cff741935a5ea79a334a87 computed ee49563be2b835fa44385f97b98ee2883e838ff663cff741935a5ea79a334a86"],
]
runs = ["acas check b t"]
ends = ["5 table"]
error = "acas: table refused: $4\n"

[[cases]]
name = "every proper prefix is too short"
numbers = 940
files = [["c", "model c"], ["t", "compiled c", "cut $1"]]
runs = ["acas check c t"]
ends = ["5 table"]
error = "acas: table refused: length $1 of 940\n"

# A file that ends before its version does is to be as long as one of version 2. The digest of all lines that are
# printed.
[[cases]]
name = "every proper prefix of version 1 is too short"
numbers = 908
files = [["c", "model c"], ["t", "compiled c", "whole", "cut $1"]]
runs = ["acas check c t"]
ends = ["5 table"]
lines_sha256 = "2e54a107b46cc6fe96176e48b12230a7b3f567bee21cdccd2afc7933fa773de6"

[[cases]]
name = "the shortest and the longest of these prefixes"
files = [["c", "model c"], ["t", "compiled c", "whole", "cut $1"]]
rows = [["7", "940"], ["8", "908"], ["907", "908"]]
runs = ["acas check c t"]
ends = ["5 table"]
error = "acas: table refused: length $1 of $2\n"

[[cases]]
name = "longer files are refused"
files = [["b", "model b"], ["t", "compiled b", "$1"], ["u", "compiled b", "whole", "$1"]]
rows = [
  ["hex 00"],
  ["hex 0086"],
  ["compiled b"],
]
runs = ["acas check b t", "acas check b u"]
ends = ["5 table", "5 table"]
error = "acas: table refused: length 973 of 972\nacas: table refused: length 909 of 908\n"

# How many bytes of the table stand before bytes that are all 255, and the fault: the first field that is not as it is
# to be.
[[cases]]
name = "the first field is named"
files = [["b", "model b"], ["t", "compiled b", "cut $1", "pad 255 1000"]]
rows = [
  ["0", "magic"],
  ["3", "magic"],
  ["4", "version 4294967295"],
  ["5", "version 4294967042"],
  ["8", "other model ffffffffffffffffffffffffffffffffffffffffffffffffffffffffffffffff found 544e47ea13aa86a22481c74634da8dceb574ad3d3079b39dad02353a0d2ac636"],
  ["40", "shape 0 is 4294967295 not 2"],
  ["44", "shape 1 is 4294967295 not 2"],
  ["48", "shape 2 is 4294967295 not 2"],
  ["52", "shape 3 is 4294967295 not 2"],
  ["56", "shape 4 is 4294967295 not 2"],
  ["60", "layer 0 state 0 upper -0.000001 under 1.000000"],
  # The rest of an entry with 255 for every byte is sound at the end, as any lower value below the cost is.
  ["68", "layer 0 state 1 upper -0.000001 under 1.000000"],
  ["332", "layer 0 digest ffffffffffffffffffffffffffffffffffffffffffffffffffffffffffffffff computed 7a0bb1e18aee734ec03eb8c63f98125e67f9fe271b53bff66da3a4705f61830e"],
  # A byte that is no advice is found before a value that is too low.
  ["364", "layer 1 state 0 byte 255"],
  ["380", "layer 1 state 0 byte 255"],
  ["381", "layer 1 state 1 byte 255"],
  ["636", "layer 1 digest ffffffffffffffffffffffffffffffffffffffffffffffffffffffffffffffff computed fe437eb5fe1b063c0a064de618e0ac65a04ccd69e102d09332da8435edd6c920"],
  ["940", "layer 2 digest ffffffffffffffffffffffffffffffffffffffffffffffffffffffffffffffff computed e1d62f7f36766dac66d3669927225bbbf9cded8a65966a2bcaa5ab0ac5c63f8a"],
  ["972", "length 973 of 972"],
]
runs = ["acas check b t"]
ends = ["5 table"]
error = "acas: table refused: $2\n"

[[cases]]
name = "the first field of version 1 is named"
files = [["b", "model b"], ["t", "compiled b", "whole", "cut $1", "pad 255 1000"]]
rows = [
  ["5", "version 4294967041"],
  ["60", "layer 0 state 0 upper -0.000001 under 1.000000"],
  ["68", "layer 0 state 1 upper -0.000001 under 1.000000"],
  ["332", "layer 1 state 0 byte 255"],
  ["348", "layer 1 state 0 byte 255"],
  ["349", "layer 1 state 1 byte 255"],
  ["876", "digest ffffffffffffffffffffffffffffffffffffffffffffffffffffffffffffffff computed ee49563be2b835fa44385f97b98ee2883e838ff663cff741935a5ea79a334a86"],
  ["908", "length 909 of 908"],
]
runs = ["acas check b t"]
ends = ["5 table"]
error = "acas: table refused: $2\n"
"##;
