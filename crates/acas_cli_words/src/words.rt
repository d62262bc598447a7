//! The forms of words.
ghost use Rattle.std.specs.Prelude.{◌≡◌, ◌∷◌, [], map, string_bytes};
ghost use Rattle.acas_cli_words.specs.Forms.{HasForm, form_of_command, form_of_table_command};
ghost use Rattle.acas_cli_words.specs.Words.{accel_of, are_apart, are_file_names, form_of, is_file_name, rate_of};

use acas_drill_model::{drill_number, number_within};
use acas_report_lines::Which;
use acas_units::{FILE_NAME_BYTES, GREATEST_LIMIT, GREATEST_RATE};

/// A command, with the names of its files, what an intruder may do, and the number of a drill.
#[derive(Clone, Copy)]
pub enum Command<'w> {
    /// `values M`: print the table of a model.
    Values {
        model: &'w str,
    },
    /// `compile M T`: store the compiled table of a model.
    Compile {
        model: &'w str,
        table: &'w str,
    },
    /// `regions M B`: rule on each box of a file.
    Regions {
        model: &'w str,
        boxes: &'w str,
    },
    /// `manoeuvre M B A C`: rule on each box of a file, against an intruder that may change its rate, with an acceleration of up to A
    /// ft/min per second, from 1 to 2,000, and up to a rate of C ft/min, from 1 to 10,000.
    Manoeuvre {
        model: &'w str,
        boxes: &'w str,
        accel: u32,
        rate: u32,
    },
    /// A command on a table that there is.
    OnTable {
        model: &'w str,
        table: &'w str,
        command: TableCommand<'w>,
    },
    /// `drill K`: compile, accept and audit the model of a number.
    Drill {
        number: u32,
    },
}

/// A command on a table T of a model M, with the name of a third file, and which lines an audit prints.
#[derive(Clone, Copy)]
pub enum TableCommand<'w> {
    /// `check M T`: check a table of a model.
    Check,
    /// `risk M T`: how likely contact is under the policy of a table, and what that costs.
    Risk,
    /// `audit M T`, and with `--reported` behind it: rule on each advisory cell of a table.
    Audit { which: Which },
    /// `safeable M T`: whether an advisory keeps each clear cell of a table safe that is given a second later.
    Safeable,
    /// `replay M T E`: fly an encounter under the advice of a table.
    Replay { encounter: &'w str },
    /// `migrate M T1 T2`: store a table again in version 2, under another name.
    Migrate { target: &'w str },
}

/// The command of the words after the program's name, or None where they are no form. It takes no memory.
pub fn command_of(words: &[String]) -> Option<Command<'_>>
    ensures { HasForm result (form_of (map string_bytes words.now)) }
{
    match words {
        [verb, word] => of_two_words(verb.as_str(), word.as_str()),
        [verb, model, second] => of_three_words(verb.as_str(), model.as_str(), second.as_str()),
        [verb, model, table, third] => {
            of_four_words(
                verb.as_str(),
                model.as_str(),
                table.as_str(),
                third.as_str(),
            )
        }
        [verb, model, boxes, accel, rate] => {
            of_five_words(
                verb.as_str(),
                model.as_str(),
                boxes.as_str(),
                accel.as_str(),
                rate.as_str(),
            )
        }
        _ => None,
    }
}

fn of_two_words<'w>(verb: &str, word: &'w str) -> Option<Command<'w>>
    ensures { HasForm result (form_of (verb.now ∷ word.now ∷ [])) }
{
    if verb == "values" && is_file_name(word) {
        return Some(Command::Values { model: word });
    }
    if verb != "drill" {
        return None;
    }
    match drill_number(word) {
        Some(number) => Some(Command::Drill { number }),
        None => None,
    }
}

fn of_three_words<'w>(verb: &str, model: &'w str, file: &'w str) -> Option<Command<'w>>
    ensures { HasForm result (form_of (verb.now ∷ model.now ∷ file.now ∷ [])) }
{
    if verb == "compile" && are_apart(model, file) {
        return Some(Command::Compile { model, table: file });
    }
    if !are_file_names(model, file) {
        return None;
    }
    match verb {
        "check" => Some(on_table(model, file, TableCommand::Check)),
        "risk" => Some(on_table(model, file, TableCommand::Risk)),
        "audit" => {
            let which = Which::All;
            Some(on_table(model, file, TableCommand::Audit { which }))
        }
        "regions" => Some(Command::Regions { model, boxes: file }),
        "safeable" => Some(on_table(model, file, TableCommand::Safeable)),
        _ => None,
    }
}

fn of_four_words<'w>(
    verb: &str,
    model: &'w str,
    table: &'w str,
    third: &'w str,
) -> Option<Command<'w>>
    ensures { HasForm result (form_of (verb.now ∷ model.now ∷ table.now ∷ third.now ∷ [])) }
{
    if verb == "audit" && are_file_names(model, table) && third == "--reported" {
        let which = Which::Reported;
        Some(on_table(model, table, TableCommand::Audit { which }))
    } else if verb == "replay" && are_file_names(model, table) && is_file_name(third) {
        Some(on_table(model, table, TableCommand::Replay { encounter: third }))
    } else if verb == "migrate" && are_apart(model, third) && are_apart(table, third) {
        Some(on_table(model, table, TableCommand::Migrate { target: third }))
    } else {
        None
    }
}

fn of_five_words<'w>(
    verb: &str,
    model: &'w str,
    boxes: &'w str,
    accel: &str,
    rate: &str,
) -> Option<Command<'w>>
    ensures { HasForm result (form_of (verb.now ∷ model.now ∷ boxes.now ∷ accel.now ∷ rate.now ∷ [])) }
{
    if verb != "manoeuvre" || !are_file_names(model, boxes) {
        return None;
    }
    match (accel_of(accel), rate_of(rate)) {
        (Some(accel), Some(rate)) => Some(Command::Manoeuvre {
            model,
            boxes,
            accel,
            rate,
        }),
        _ => None,
    }
}

fn on_table<'w>(model: &'w str, table: &'w str, command: TableCommand<'w>) -> Command<'w>
    ensures { form_of_command result ≡ form_of_table_command model.now table.now command.entry }
{
    Command::OnTable {
        model,
        table,
        command,
    }
}

// The greatest acceleration of an intruder, by a word.
fn accel_of(word: &str) -> Option<u32>
    ensures { result ≡ accel_of word.now }
{
    number_within(word, 1, GREATEST_LIMIT)
}

// The greatest rate of an intruder, by a word.
fn rate_of(word: &str) -> Option<u32>
    ensures { result ≡ rate_of word.now }
{
    number_within(word, 1, GREATEST_RATE as u32)
}

fn is_file_name(word: &str) -> bool
    ensures { result ≡ is_file_name word.now }
{
    !word.is_empty() && word.len() <= FILE_NAME_BYTES && word.as_bytes()[0] != b'-'
}

fn are_apart(read: &str, written: &str) -> bool
    ensures { result ≡ are_apart read.now written.now }
{
    are_file_names(read, written) && read != written
}

fn are_file_names(first: &str, second: &str) -> bool
    ensures { result ≡ are_file_names first.now second.now }
{
    is_file_name(first) && is_file_name(second)
}
