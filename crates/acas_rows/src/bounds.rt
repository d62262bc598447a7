//! Tables that no compiler made: with loose bounds, and with advices that are another choice.

/// Its cases.
pub const BOUNDS: &str = r##"
# Every upper value is 1 and every lower value 0.
[[cases]]
name = "loose bounds"
files = [["b", "model b"], ["t", "compiled b", "values 1000000 0", "seal 16"], ["u", "compiled b", "whole", "values 1000000 0", "seal 48"]]
runs = ["acas check b t", "acas check b u"]
ends = ["0 done", "0 done"]
output = "accepted layers 3 states 16\naccepted layers 3 states 16\n"

# Looser yet in one entry, and of layer 0 bounds that are closer to the cost.
[[cases]]
name = "bounds that are looser or closer in one entry"
files = [["b", "model b"], ["t", "compiled b", "values 1000000 0", "$1", "seal 16"], ["u", "compiled b", "whole", "values 1000000 0", "$1", "seal 48"]]
rows = [
  ["upper 0 3 999999", "5 table", "", "acas: table refused: layer 0 state 3 upper 0.999999 under 1.000000\n"],
  ["upper 1 7 999999", "5 table", "", "acas: table refused: layer 1 state 7 upper 0.999999 under 1.000000\n"],
  ["upper 2 15 999999", "5 table", "", "acas: table refused: layer 2 state 15 upper 0.999999 under 1.000000\n"],
  ["lower 0 4 1", "5 table", "", "acas: table refused: layer 0 state 4 lower 0.000001 over 0.000000\n"],
  ["lower 1 7 1", "5 table", "", "acas: table refused: layer 1 state 7 lower 0.000001 over 0.000000\n"],
  ["lower 2 15 1", "5 table", "", "acas: table refused: layer 2 state 15 lower 0.000001 over 0.000000\n"],
  ["lower 0 3 1000000", "0 done", "accepted layers 3 states 16\n", ""],
  ["upper 0 4 0", "0 done", "accepted layers 3 states 16\n", ""],
  ["upper 2 15 1000001", "0 done", "accepted layers 3 states 16\n", ""],
  ["lower 2 15 -1", "0 done", "accepted layers 3 states 16\n", ""],
  ["upper 1 15 9223372036854775807", "0 done", "accepted layers 3 states 16\n", ""],
  ["lower 1 15 -9223372036854775808", "0 done", "accepted layers 3 states 16\n", ""],
]
runs = ["acas check b t", "acas check b u"]
ends = ["$2", "$2"]
output = "$3$3"
error = "$4$4"

[[cases]]
name = "the widest bounds"
files = [["b", "model b"], ["t", "compiled b", "values 9223372036854775807 -9223372036854775808", "seal 16"]]
runs = ["acas check b t"]
ends = ["0 done"]
output = "accepted layers 3 states 16\n"

[[cases]]
name = "less than the widest bounds"
files = [["b", "model b"], ["t", "compiled b", "values 9223372036854775807 -9223372036854775808", "seal 16", "$1"]]
rows = [
  ["upper 2 3 9223372036854775806", "layer 2 state 3 upper 9223372036854.775806 under 9223372036854.775807"],
  ["lower 2 3 -9223372036854775807", "layer 2 state 3 lower -9223372036854.775807 over -9223372036854.775808"],
]
runs = ["acas check b t"]
ends = ["5 table"]
error = "acas: table refused: $2\n"

# What a second under clear costs, and the fault of a table with the widest bounds: no entry has a number that is wide enough.
[[cases]]
name = "bounds past the widest"
files = [["b", "model b", "replace costs = [0] => $1"], ["t", "compiled b", "values 9223372036854775807 -9223372036854775808", "seal 16"]]
rows = [
  ["costs = [1]", "layer 1 state 0 upper 9223372036854.775807 under 9223372036855.775807"],
  ["costs = [-1000000000]", "layer 1 state 0 lower -9223372036854.775808 over -9224372036854.775808"],
]
runs = ["acas check b t"]
ends = ["5 table"]
error = "acas: table refused: $2\n"

# Under clear climb at the lower altitude and descend at the upper one; clear under the others.
[[cases]]
name = "a table with advices of its own"
files = [["b", "model c"], [
  "t",
  "compiled b",
  "values 10000000 -10000000",
  "advices 1 0 010101010202020200000000000000000000000000000000",
  "seal 24",
]]
runs = ["acas check b t"]
ends = ["0 done"]
output = "accepted layers 2 states 24\n"
after_sha256 = [["t", "f6fdbec8a1ce26b8e524f7cc94627fc5f931708a76ad70b00878caeafd4607d2"]]

# Of the entry of layer 30 and state 60: an upper value, a lower value and an advice, and the fault. The values of the choices
# are these: clear 4.879086 and 4.879072, climb 4.825910 and 4.825895, descend 5.859570 and 5.859555, level 5.879086 and 5.879072.
[[cases]]
name = "an entry of another choice"
files = [["b", "model d"], ["t", "compiled b", "upper 30 60 $1", "lower 30 60 $2", "advice 30 60 $3", "seal 96"]]
rows = [
  ["4825909", "4825895", "1", "5 table", "", "acas: table refused: layer 30 state 60 upper 4.825909 under 4.825910\n"],
  ["4825910", "4825896", "1", "5 table", "", "acas: table refused: layer 30 state 60 lower 4.825896 over 4.825895\n"],
  # The upper value is that of the tabled advice.
  ["4825910", "4825895", "0", "5 table", "", "acas: table refused: layer 30 state 60 upper 4.825910 under 4.879086\n"],
  ["5859569", "4825895", "2", "5 table", "", "acas: table refused: layer 30 state 60 upper 5.859569 under 5.859570\n"],
  ["5879085", "4825895", "3", "5 table", "", "acas: table refused: layer 30 state 60 upper 5.879085 under 5.879086\n"],
  # The lower value is that of the best choice, whichever is tabled.
  ["4879086", "4879072", "0", "5 table", "", "acas: table refused: layer 30 state 60 lower 4.879072 over 4.825895\n"],
  ["5859570", "5859555", "2", "5 table", "", "acas: table refused: layer 30 state 60 lower 5.859555 over 4.825895\n"],
  ["4825910", "4825895", "4", "5 table", "", "acas: table refused: layer 30 state 60 byte 4\n"],
  ["4825910", "4825895", "1", "0 done", "accepted layers 31 states 96\n", ""],
  ["4879086", "4825895", "0", "0 done", "accepted layers 31 states 96\n", ""],
  ["5859570", "4825895", "2", "0 done", "accepted layers 31 states 96\n", ""],
  ["5879086", "4825895", "3", "0 done", "accepted layers 31 states 96\n", ""],
  ["9000000", "-9000000", "3", "0 done", "accepted layers 31 states 96\n", ""],
]
runs = ["acas check b t"]
ends = ["$4"]
output = "$5"
error = "$6"

# Level costs 3 and clear, which stands after it, costs 1: the upper value is by the advice, the lower value by the cheaper choice.
[[cases]]
name = "an entry with a choice that costs more"
files = [[
  "b",
  "model b",
  "replace horizon = 2 => horizon = 1",
  "replace choices = [\"clear\"] => choices = [\"level\", \"clear\"]",
  "replace costs = [0] => costs = [3, 1]",
], ["t", "compiled b", "upper 1 1 $1", "lower 1 1 $2", "advice 1 1 $3", "seal 16"]]
rows = [
  ["1666666", "1666666", "0", "5 table", "", "acas: table refused: layer 1 state 1 upper 1.666666 under 1.666667\n"],
  ["1666667", "1666666", "1", "5 table", "", "acas: table refused: layer 1 state 1 upper 1.666667 under 3.666667\n"],
  ["3666667", "1666667", "1", "5 table", "", "acas: table refused: layer 1 state 1 lower 1.666667 over 1.666666\n"],
  ["1666667", "1666666", "0", "0 done", "accepted layers 2 states 16\n", ""],
  ["3666667", "1666666", "1", "0 done", "accepted layers 2 states 16\n", ""],
]
runs = ["acas check b t"]
ends = ["$4"]
output = "$5"
error = "$6"
"##;
