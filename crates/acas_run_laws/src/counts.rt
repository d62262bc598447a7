//! The three counts of runs. The functions do nothing: their clauses are the laws.
ghost use Rattle.std.specs.Prelude.{◌≡◌, ◌≤◌, ◌^◌, ℕ, List, Option};
ghost use Rattle.acas_outside.specs.Files.{Files};
ghost use Rattle.acas_command.specs.Answers.{EndsLooking};
ghost use Rattle.acas_command.specs.declared.status.Cause.{Cause};
ghost use Rattle.acas_cell_commands.specs.Decisions.{CountsAudit};
ghost use Rattle.acas_table_commands.specs.Work.{CountsSweep, EndsUnswept};
ghost use Rattle.acas_cli.specs.Work.{CountsReport, CountsTable, HasRoom, NoneFell};
ghost use Rattle.acas_cli.specs.declared.work.Work.{Work};

/// No count falls: neither that of backups, nor that of turned pairs, nor that of decisions.
pub fn no_count_falls()
    ensures { (old new : Work) → NoneFell old new
        → (old.backups ≤ new.backups) × (old.turned ≤ new.turned) × (old.decisions ≤ new.decisions) }
{}

/// There is room for one more run exactly where each of the three counts is at most 2^63.
pub fn rooms_are_of_each_count()
    ensures each { (work : Work) → HasRoom work
        → (work.backups ≤ 2 ^ 63) × (work.turned ≤ 2 ^ 63) × (work.decisions ≤ 2 ^ 63) }
    ensures all { (work : Work) → work.backups ≤ 2 ^ 63 → work.turned ≤ 2 ^ 63 → work.decisions ≤ 2 ^ 63
        → HasRoom work }
{}

/// What is counted of a table is its sweep, and of a report its decisions.
pub fn sweeps_and_decisions_are_counted()
    ensures printed { (model : List ℕ) (holds : Option Files) (cause : Cause) (old new : Work)
        → CountsTable EndsLooking model holds cause old new
        → CountsSweep EndsLooking model holds cause old.backups new.backups old.turned new.turned
        × (new.decisions ≡ old.decisions) }
    ensures stored { (model : List ℕ) (holds : Option Files) (cause : Cause) (old new : Work)
        → CountsTable EndsUnswept model holds cause old new
        → CountsSweep EndsUnswept model holds cause old.backups new.backups old.turned new.turned
        × (new.decisions ≡ old.decisions) }
    ensures report { (model table : List ℕ) (holds : Option Files) (cause : Cause) (old new : Work)
        → CountsReport model table holds cause old new
        → CountsAudit model table holds cause old.decisions new.decisions
        × (new.backups ≡ old.backups) × (new.turned ≡ old.turned) }
{}
