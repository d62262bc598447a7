//! Texts of commands that were worked out by hand. The functions do nothing: their clauses are the numbers.
ghost use Rattle.std.specs.Prelude.{◌≡◌, ◌∷◌, [], codes, pos, negsuc};
ghost use Rattle.acas_spec.specs.Model.{ModelData};
ghost use Rattle.acas_table_rows.specs.StoredLine.{compiled_line, migrated_line};
ghost use Rattle.acas_command.specs.Fields.{feet, field, state_fields};
ghost use Rattle.acas_check_commands.specs.AcceptedLine.{accepted_line};
ghost use Rattle.acas_drill.specs.Text.{drill_line, drill_lines};
ghost use Rattle.acas_run_laws.specs.Worked.{a_grid, an_advisory};

/// The line of a command over a grid of 3 altitudes, 2 own rates and 1 intruder rate, with 2 advisories and 4 seconds: 12 states, so 60
/// entries in 5 layers, and 60 + 17 * 60 + 32 * 5 bytes.
pub fn lines_say_how_large_a_table_is()
    ensures accepted { accepted_line a_grid ≡ codes "accepted layers 5 states 12\n" }
    ensures compiled { compiled_line a_grid ≡ codes "compiled layers 5 states 12 bytes 1240\n" }
    ensures migrated { migrated_line a_grid ≡ codes "migrated layers 5 states 12 bytes 1240\n" }
    ensures drilled { drill_line 7 a_grid ≡ codes "drill 7 states 12 entries 60 bytes 1240\n" }
    ensures all_of_a_drill { drill_lines 7 a_grid (record { certified = 3; reported = 1; clear = 2 })
        ≡ codes "drill 7 states 12 entries 60 bytes 1240\naccepted\ncertified 3 reported 1 clear 2\n" }
{}

/// The fields of a state of that grid: the present advisory, the altitude in feet, the own rate and the intruder's rate.
pub fn states_are_said_in_feet()
    ensures below { (m : ModelData) → state_fields (record m { grid = a_grid; advisories = an_advisory ∷ [] }) 0
        (record { i = 0; j = 1; k = 0 }) ≡ codes "climb -100 500 -250 " }
    ensures above { (m : ModelData) → state_fields (record m { grid = a_grid; advisories = an_advisory ∷ [] }) 0
        (record { i = 2; j = 0; k = 0 }) ≡ codes "climb 100 0 -250 " }
    ensures feet { feet (pos 12000) ≡ pos 100 }
    ensures feet_below { feet (negsuc 11999) ≡ negsuc 99 }
    ensures field { field (codes "climb") ≡ codes "climb " }
{}
