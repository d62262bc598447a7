//! The laws of runs: what the answers of the top call say, in numbers and in the words of the subject. The functions do
//! nothing: their clauses are the laws.
#![tactic(auto)]

mod accepted;
mod counts;
mod drills;
mod ends;
mod faults;
mod folder;
mod line;
mod memory;
mod numbers;
mod once;
mod outcomes;
mod outside;
mod quiet;
mod reading;
mod reports;
mod taken;
mod texts;
mod two_runs;
mod verdicts;
mod words;
mod work;
mod worth;

pub use accepted::{
    accepted_tables_have_no_refusal, accepted_tables_have_two_sided_bounds,
    compiled_tables_are_accepted, migrated_texts_are_accepted,
};
pub use counts::{no_count_falls, rooms_are_of_each_count, sweeps_and_decisions_are_counted};
pub use drills::drills_need_no_folder;
pub use ends::{
    drills_are_not_refused, each_cause_has_its_code, only_reports_end_with_1,
    right_files_are_not_refused,
};
pub use faults::{faults_have_their_counts, refusals_are_of_bytes, risen_counts_are_greater};
pub use folder::{
    compile_writes_its_table, migrate_writes_its_table, only_compile_and_migrate_write,
    other_files_stay,
};
pub use line::{error_lines_are_whole_or_cut_by_a_fault, refusals_are_those_of_the_named_files};
pub use memory::memory_tells_what_it_holds;
pub use numbers::{
    counts_stand_at_their_end, millionths_have_six_digits, missing_places_are_counted_once,
    parts_go_from_0_up, tables_are_too_long_by_one_byte, texts_have_the_length_of_their_shape,
};
pub use once::files_are_read_once;
pub use outcomes::{
    done_runs_agree, done_runs_end_as_called_for, failed_outputs_hold_a_part, outcomes_are_one,
};
pub use outside::{
    calls_are_numbered_from_0, calls_of_folders_count_their_faults,
    calls_of_outputs_count_their_faults, listed_calls_fail, memory_gives_and_takes_what_it_may,
    parts_are_fewer_bytes, reads_give_what_the_file_holds, the_outside_is_what_both_tell,
    what_is_written_stands_there,
};
pub use quiet::{
    forms_are_not_refused_as_words, refused_runs_print_nothing, refused_words_change_nothing,
};
pub use reading::tables_are_taken_once;
pub use reports::{
    audits_print_their_report, drills_print_their_counts, files_beside_a_model_say_what_they_hold,
    manoeuvres_print_their_report, regions_print_their_report, replays_print_their_course,
    reports_end_by_what_they_report, safeable_prints_what_is_found,
};
pub use taken::files_taken_once_give_their_bytes;
pub use texts::{lines_say_how_large_a_table_is, states_are_said_in_feet};
pub use two_runs::{
    accepted_tables_are_audited, migrated_tables_are_accepted, migrating_again_changes_no_byte,
    stored_tables_are_accepted,
};
pub use verdicts::verdicts_tell_danger;
pub use words::{
    forms_are_of_their_words, forms_have_their_numbers, forms_name_files,
    nothing_is_written_over_what_is_read, words_have_their_forms,
};
pub use work::{
    done_runs_are_counted, refused_runs_count_nothing, what_is_not_named_is_not_counted,
    work_is_counted_over_every_folder,
};
pub use worth::{
    check_accepts_a_sound_table, compile_stores_a_tight_table, files_say_what_they_hold,
    migrate_stores_the_same_table, only_reports_report, other_words_end_with_2,
    refused_tables_are_not_sound, risk_prints_bounds, values_prints_a_tight_table,
};
