//! Rows: whole runs of the top call over files and outputs in memory, as data, which `acas_cases` runs.
//!
//! A text of cases is TOML, a list `[[cases]]`. Each item stands for one case, or for several that differ in a few values:
//!
//! - `name`: what is shown where a case fails.
//! - `rows`: lists of values, a case for each list. In every text below, `$1` stands for the first value, and so on.
//! - `numbers`: a case for each number from 0 up to but not this one, and each row. The number is `$1`, the row's values follow.
//! - `forms`: a case for each form of words, or for each of its files, whose values follow then: `all`, `file`, `text` or `table`, as
//!   `forms` says. Its files stand there at the start too, but for those that the item makes anew.
//!
//! What there is at the start:
//!
//! - `files`: lists, each the name of a file and the steps that make its bytes. `without`: the name of a file that is not there.
//! - `most`: the most bytes that a call takes or gives, 65536 where it is left out.
//! - `failing`: the calls that fail, each a kind and a number counted from 0, as `read 0`. The kinds are `read`, `create`,
//!   `append`, `write` (of the output) and `error` (a write of the error output).
//! - `endless`: the name of a file that never ends: behind its bytes there is a `#` for ever. `stuck`: the kind, `write` or `error`,
//!   of the output that takes nothing.
//! - `runs`: the commands, one after the other over the same folder and outputs, as in a shell: `acas values 'a b'`.
//!
//! What is to be there at the end. What is left out is to be empty, or as before:
//!
//! - `ends`: the exit code and the cause of each run, as `5 table`. Or `codes`: the code of the last run of each case, a digit
//!   for each.
//! - `output`: all that is printed. Or some of `output_has`: texts that stand in it; `output_length`: its length in bytes;
//!   `output_sha256`: its digest.
//! - `error`: all of the error output. Or `error_begins`: what its one line begins with.
//! - `lines_sha256`: in the place of both, the digest of the outputs of all cases of the item, one after the other.
//! - `after`: the files that are not as before, made as at the start. `after_sha256`: files with the digests of their bytes.
//!   `absent`: the names of no file.
//! - `taken`: how many bytes the reads gave in all.
//! - `backups`, `turned`, `decisions`: how many backups, turned pairs and decisions of blocks the runs count together. These and
//!   `taken` are not looked at where they are left out, and no number is where its text is empty.
//! - `each_call`: the numbers of calls of each kind, in the order above, as `4 0 0 1 0`. Each of these calls is made to fail in turn:
//!   the code is to say whose call it was, what is printed is to be a part of what is printed else, and a file that the run changes
//!   is to be as before where a read or the create fails, and a part of what it becomes else where an append fails. Where a
//!   write fails, all that the writes before it can take is printed, as of an output of one block.
//!
//! The steps, each on the bytes that the earlier ones made:
//!
//! - `model NAME`, `text TEXT`, `hex DIGITS`, `held FILE`, `compiled FILE`: puts behind them the text of a model of `acas_tests_data`, a
//!   text, bytes, the bytes of a file that stands before this one, or the table that is compiled of it. `pad BYTE LENGTH`: the byte until
//!   they are so long.
//! - `replace OLD => NEW`: the first such text, which has to stand there; a bar stands for the end of a line. `cut LENGTH`: the first bytes alone.
//! - `put PLACE DIGITS`: bytes in the place of others. `flip PLACE NUMBER`: the bits of a byte that the number has.
//! - Of a table, of either version: `upper LAYER STATE VALUE`, `lower LAYER STATE VALUE`, `advice LAYER STATE BYTE`: a part of an
//!   entry. `advices LAYER STATE DIGITS`: the advices of a layer from a state on. `values UPPER LOWER`: the values of each entry.
//!   `seal COUNT`: its digests, made anew: one behind so many entries, those of a layer or, in version 1, all. `whole`: of one
//!   of version 2, as `compile` stores it, the same entries in version 1.
//!
//! The values that cases compare with are from an implementation of the definitions apart from the program, `bench/reference`,
//! `bench/audits` and `bench/rows`, or worked out by hand. None is from the program.
#![tactic(auto)]

mod advisories;
mod audits;
mod bounds;
mod boxes;
mod changed_bits;
mod clear_cells;
mod counts;
mod differences;
mod documents;
mod drills;
mod entries;
mod every_form;
mod failing;
mod forms;
mod headers;
mod manoeuvres;
mod migrations;
mod numbers;
mod replays;
mod risks;
mod stored;
mod values;
mod words;

pub use advisories::ADVISORIES;
pub use audits::AUDITS;
pub use bounds::BOUNDS;
pub use boxes::BOXES;
pub use changed_bits::CHANGED_BITS;
pub use clear_cells::CLEAR_CELLS;
pub use counts::COUNTS;
pub use differences::DIFFERENCES;
pub use documents::DOCUMENTS;
pub use drills::DRILLS;
pub use entries::ENTRIES;
pub use every_form::{CALLS, DAMAGES, OUTSIDES};
pub use failing::FAILING;
pub use forms::FORMS;
pub use headers::HEADERS;
pub use manoeuvres::MANOEUVRES;
pub use migrations::MIGRATIONS;
pub use numbers::NUMBERS;
pub use replays::REPLAYS;
pub use risks::RISKS;
pub use stored::STORED;
pub use values::VALUES;
pub use words::WORDS;
