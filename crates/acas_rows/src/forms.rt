//! The forms of words, one a line, and the files that they read: what is promised of all forms is tried of each line.

/// The files, and a line for each form.
pub const FORMS: &str = r##"
# The models, the table of `c` with loose bounds and advices of its own, boxes of `d`, an encounter, the file that `compile` and `migrate`
# write, the table once more, and the table of `a`, which is the smallest there is.
files = [
  ["a", "model a"],
  ["b", "model b"],
  ["c", "model c"],
  ["d", "model d"],
  ["t", "compiled c", "values 10000000 -10000000", "advices 1 0 010101010202020200000000000000000000000000000000", "seal 24"],
  ["x", "text version = 1\n[[box]]\nadvisory = \"climb\"\nrange = [10500, 11000]\nclosing = [500, 500]\naltitude = [-100, -100]\nown = [0, 0]\nintruder = [0, 0]\n"],
  ["e", "text version = 1\nadvisory = \"clear\"\nrange = 500\nclosing = 500\naltitude = 101\nown = 240\nintruder = 0\nown_accel = [-480, 0]\nintruder_accel = [0, 0]\n"],
  ["u", "text before"],
  ["w", "held t"],
  ["least", "compiled a"],
]

# The words; the kinds of the files that they name first; how the run ends; the digest of what is printed, and the step that makes what `u`
# holds then, both of which cases of the commands know; the calls at 65536 bytes each, and those at a byte each. Two calls read a text, and
# three a table: its letters and version, the rest, and its end. At a byte a call each byte takes one, and the end of each file that is read.
forms = [
  ["values b", "model", "0 done", "ab14a9d5ba0a01d71f6a1e8d2ad1609f371314413638067b11d03d331938a816", "text before", "2 0 0 1 0", "512 0 0 1880 0"],
  ["compile c u", "model", "0 done", "c25ed5944a0081f6162e92e9312ef2751833ddc76a86329f3e7e92aba7d882a3", "compiled c", "2 1 5 1 0", "595 1 940 38 0"],
  ["check c t", "model table", "0 done", "adcc19b9161cd0ebb6f1070a35909cda71587050ae2d936bc5b271513805773f", "text before", "5 0 0 1 0", "1536 0 0 28 0"],
  ["risk c t", "model table", "0 done", "eff5159cbd4d7f71de1b2b3ae6bd524c0720273d7d098e3a9a870e59b3e09d28", "text before", "5 0 0 1 0", "1536 0 0 2114 0"],
  ["audit c t", "model table", "1 reported", "2a1e23410e4589b5e1c8c1def700f1dd4cc30171f83f90b497e81e88497e2c6f", "text before", "5 0 0 1 0", "1536 0 0 176 0"],
  ["audit c t --reported", "model table", "1 reported", "f3cbb6aac9d17d7024e5eedd378405350f8e456c0e7aef7c716e5e6132dca379", "text before", "5 0 0 1 0", "1536 0 0 141 0"],
  ["regions d x", "model boxes", "0 done", "da1ae4b91979704c528ffa300f58e0df19508aedb6124368161ea101f57faeca", "text before", "4 0 0 1 0", "906 0 0 39 0"],
  ["manoeuvre d x 480 1500", "model boxes", "1 reported", "eff743afec8353cd80f88f3e5f68afa2d51dd8791e37413a53b11e872158ffd2", "text before", "4 0 0 1 0", "906 0 0 149 0"],
  ["safeable c t", "model table", "0 done", "884b13de26ae4fa3b8c4f892a542554a0a1b631cf586947e3e1bbcdfbd0ed153", "text before", "5 0 0 1 0", "1536 0 0 25 0"],
  ["replay c t e", "model table encounter", "0 done", "33543c80d9495002407db12e9c3313e037736c39f85bf1e1df8c5f0e9c929fbe", "text before", "7 0 0 1 0", "1678 0 0 133 0"],
  ["migrate c t u", "model table", "0 done", "6772554adf26ee5bd35ce9a4a137c40c9ec2df66b175ac4c0fd3ef743660844b", "held w", "5 1 5 1 0", "1536 1 940 38 0"],
  ["drill 0", "", "1 reported", "9691ed28d8f4f94de916e1d1096f07365c1489c11f2279f1ae6eafe48ed9cdc9", "text before", "0 0 0 1 0", "0 0 0 96 0"],
]
"##;
