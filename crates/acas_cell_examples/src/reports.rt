//! Reports, line for line, and what they count.
ghost use Rattle.std.specs.Prelude.{◌≡◌, codes, [], ◌∷◌, true, false};
ghost use Rattle.acas_cells.specs.Corners.{advisory_cells};
ghost use Rattle.acas_rulings.specs.declared.ruling.Ruling.TheVariants.{Certified, Reported};
ghost use Rattle.acas_rulings.specs.declared.verdict.MeetVerdict.TheVariants as meet;
ghost use Rattle.acas_report_lines.specs.CellReport.{clear_cells, report_text};
ghost use Rattle.acas_report_lines.specs.Meetings.{as_counts, is_safe, meetings_text};
ghost use Rattle.acas_report_lines.specs.Regions.{regions_text};
ghost use Rattle.acas_report_lines.specs.Report.{AreRuled, IsReportOn, counts_of, is_left_out, shown};
ghost use Rattle.acas_report_lines.specs.Text.{is_certified};
ghost use Rattle.acas_report_lines.specs.declared.counts.Which.TheVariants as which;
ghost use Rattle.acas_cell_examples.specs.Reports.{IsItself, boxes_met, boxes_ruled, cells_ruled, counted, on};
ghost use Rattle.acas_cell_examples.specs.Tabled.{stacked, tabled};
ghost use Rattle.acas_cell_examples.specs.Witnesses.{levelling, turning};

/// Certified lines are left out where only the others are asked for, and no others.
pub fn lines_are_left_out_or_not()
    ensures certified { is_left_out which.Reported true ≡ true }
    ensures reported { is_left_out which.Reported false ≡ false }
    ensures all_certified { is_left_out which.All true ≡ false }
    ensures all_reported { is_left_out which.All false ≡ false }
    ensures shown { shown which.Reported false (codes "line") ≡ codes "line" }
    ensures not_shown { shown which.Reported true (codes "line") ≡ [] }
{}

/// What is ruled on stands in its order, and each ruling is its own.
pub fn rulings_are_in_order()
    ensures both { AreRuled IsItself (1 ∷ 2 ∷ []) (on 1 1 ∷ on 2 2 ∷ []) }
    ensures turned { AreRuled IsItself (2 ∷ 1 ∷ []) (on 1 1 ∷ on 2 2 ∷ []) → ⊥ }
    ensures one_is_missing { AreRuled IsItself (1 ∷ 2 ∷ []) (on 1 1 ∷ []) → ⊥ }
    ensures not_its_own { AreRuled IsItself (1 ∷ 2 ∷ []) (on 1 1 ∷ on 2 3 ∷ []) → ⊥ }
{}

/// Three of four are certified and one is reported. Of the eight cells of the model four have no advisory at any corner.
pub fn rulings_are_counted()
    ensures certified { is_certified Certified ≡ true }
    ensures reported { is_certified (Reported levelling) ≡ false }
    ensures safe { is_safe meet.Certified ≡ true }
    ensures met { is_safe (meet.Reported turning) ≡ false }
    ensures cells { counts_of is_certified cells_ruled 7 ≡ counted 3 1 7 }
    ensures boxes { counts_of is_safe boxes_met 0 ≡ counted 2 1 0 }
    ensures clear { clear_cells stacked tabled ≡ 4 }
    ensures no_clear { as_counts (record { certified = 3; reported = 5 }) ≡ counted 3 5 0 }
{}

/// The lines stand in order, and the counts behind them; these are the same where the certified lines are left out.
pub fn reports_are_written()
    ensures all { report_text stacked tabled which.All cells_ruled
        ≡ codes "cell 0 clear 0 0 0 climb certified\ncell 0 clear 1 0 0 climb reported time 2 range 1000 speed 250 ticks 100 own 0 intruder 0 response 1@0 1@100\ncell 0 climb 1 0 0 climb certified\ncell 1 clear 0 0 0 climb certified\ncertified 3 reported 1 clear 4\n" }
    ensures reported { report_text stacked tabled which.Reported cells_ruled
        ≡ codes "cell 0 clear 1 0 0 climb reported time 2 range 1000 speed 250 ticks 100 own 0 intruder 0 response 1@0 1@100\ncertified 3 reported 1 clear 4\n" }
    ensures boxes { regions_text boxes_ruled
        ≡ codes "box 0 certified\nbox 1 reported time 16/5 range 15500 speed 5000 ticks 18000 own 13275/8 intruder 0 response 1855/768@-480 3013/3840@0\nbox 2 certified\ncertified 2 reported 1\n" }
    ensures met { meetings_text boxes_met
        ≡ codes "box 0 certified\nbox 1 reported time 16/5 range 15500 speed 5000 ticks 14400 own 1500 intruder 0 response 16/5@0 against 11863/7680@960 12713/7680@0\nbox 2 certified\ncertified 2 reported 1\n" }
{}

/// A report has the counts of its rulings, and the clear cells.
pub fn reports_are_of_rulings_or_not()
    ensures whole { IsReportOn (λ name ruling. Unit {0}) is_certified (advisory_cells stacked tabled) 4
        (report_text stacked tabled which.All) (counted 3 1 4) (report_text stacked tabled which.All cells_ruled) }
{}
