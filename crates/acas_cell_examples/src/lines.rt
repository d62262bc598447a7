//! Lines of reports, byte by byte.
ghost use Rattle.std.specs.Prelude.{◌≡◌, codes, pos, [], ◌∷◌};
ghost use Rattle.acas_cells.specs.declared.name.CellName.{CellName};
ghost use Rattle.acas_rulings.specs.declared.ruling.Ruling.TheVariants.{Certified, Reported};
ghost use Rattle.acas_rulings.specs.declared.verdict.MeetVerdict.TheVariants as meet;
ghost use Rattle.acas_report_lines.specs.Meetings.{meet_text, meeting_text};
ghost use Rattle.acas_report_lines.specs.Text.{box_counts_text, box_text, cell_line, cell_text, counts_text, field, labelled, line_of_box, parts_text, response_text, ruling_text, segment_text, witness_text};
ghost use Rattle.acas_flight_examples.specs.Numbers.{minus, over};
ghost use Rattle.acas_cell_examples.specs.Reports.{counted};
ghost use Rattle.acas_cell_examples.specs.Tabled.{stacked};
ghost use Rattle.acas_cell_examples.specs.Witnesses.{at_once, levelling, part, sinking, turning};

/// A segment is its duration, `@` and its acceleration. Segments stand a space apart, and there is `none` where there are none.
pub fn responses_are_written()
    ensures apart { field (codes "7") ≡ codes " 7" }
    ensures labelled { labelled (codes "own") (codes "7") ≡ codes " own 7" }
    ensures one { segment_text (part (over (pos 3) 2) (over (minus 25) 1)) ≡ codes "3/2@-25" }
    ensures parts { parts_text (part (over (pos 3) 2) (over (minus 25) 1) ∷ part (over (pos 2) 1) (over (pos 0) 1) ∷ [])
        ≡ codes " 3/2@-25 2@0" }
    ensures both { response_text
        (part (over (pos 3) 2) (over (minus 25) 1) ∷ part (over (pos 2) 1) (over (pos 0) 1) ∷ [])
        ≡ codes "3/2@-25 2@0" }
    ensures none { response_text [] ≡ codes "none" }
{}

/// A witness has its words and numbers in their order, the altitude in ticks. A meeting has the intruder's segments behind the response.
pub fn witnesses_are_written()
    ensures held { witness_text sinking
        ≡ codes " time 7/2 range 9001/2 speed 250 ticks 100 own 1000/3 intruder -5/4 response 1/2@0 2@-100/3 1@0" }
    ensures at_once { witness_text at_once
        ≡ codes " time 7/2 range 9001/2 speed 250 ticks 100 own 1000/3 intruder -5/4 response none" }
    ensures met { meeting_text turning
        ≡ codes " time 16/5 range 15500 speed 5000 ticks 14400 own 1500 intruder 0 response 16/5@0 against 11863/7680@960 12713/7680@0" }
{}

/// A line begins with a cell under an advice, by the advisories' names, or with the number of a box, and says what is ruled.
pub fn lines_are_written()
    ensures cell { cell_text stacked (record { n = 12; present = 1; i = 3; j = 4; k = 5; advice = 0 })
        ≡ codes "cell 12 climb 3 4 5 clear" }
    ensures cell_certified { cell_line stacked (record { n = 12; present = 0; i = 3; j = 4; k = 5; advice = 1 }) Certified
        ≡ codes "cell 12 clear 3 4 5 climb certified\n" }
    ensures cell_reported { cell_line stacked (record { n = 12; present = 0; i = 3; j = 4; k = 5; advice = 1 }) (Reported at_once)
        ≡ codes "cell 12 clear 3 4 5 climb reported time 7/2 range 9001/2 speed 250 ticks 100 own 1000/3 intruder -5/4 response none\n" }
    ensures box_number { box_text 10 ≡ codes "box 10" }
    ensures box_certified { line_of_box ruling_text 0 Certified ≡ codes "box 0 certified\n" }
    ensures box_reported { line_of_box ruling_text 0 (Reported levelling)
        ≡ codes "box 0 reported time 16/5 range 15500 speed 5000 ticks 18000 own 13275/8 intruder 0 response 1855/768@-480 3013/3840@0\n" }
    ensures met { line_of_box meet_text 0 (meet.Reported turning)
        ≡ codes "box 0 reported time 16/5 range 15500 speed 5000 ticks 14400 own 1500 intruder 0 response 16/5@0 against 11863/7680@960 12713/7680@0\n" }
    ensures not_met { line_of_box meet_text 7 meet.Certified ≡ codes "box 7 certified\n" }
{}

/// The last line has the counts, and where boxes are ruled on none of clear cells.
pub fn counts_are_written()
    ensures cells { counts_text (counted 12 3 40) ≡ codes "certified 12 reported 3 clear 40\n" }
    ensures boxes { box_counts_text (counted 12 3 0) ≡ codes "certified 12 reported 3\n" }
{}
