//! Blocks of cells, their halves and areas, and sets of advices.
ghost use Rattle.std.specs.Prelude.{◌≡◌, pos, [], true, false};
ghost use Rattle.acas_audit_blocks.specs.Audits.{BlockAuditData, cell_count, place_of};
ghost use Rattle.acas_cells.specs.Blocks.{IsBlockOf, IsInBlock, all_cells, altitudes, cells_in, first_half, intruder_rates, is_highest, is_one_cell, is_wider, own_rates, second_half};
ghost use Rattle.acas_audit_blocks.specs.BlockStates.{area_of_block};
ghost use Rattle.acas_rulings.specs.Spans.{between};
ghost use Rattle.acas_cells.specs.Sets.{has_no_advisory, holds};
ghost use Rattle.acas_flight_examples.specs.Numbers.{area, from_to};
ghost use Rattle.acas_cell_examples.specs.Tabled.{block, set, stacked};

/// A block is halved along the axis on which it has the most cells. Of 3 cells from 1 to 4 the first half has 1, from 1 to 2. In a tie
/// altitude goes first, and then the own rate: 1, 2 and 2 cells are halved along the second axis.
pub fn blocks_are_halved()
    ensures first { first_half (block 1 4 0 2 0 2) ≡ block 1 2 0 2 0 2 }
    ensures second { second_half (block 1 4 0 2 0 2) ≡ block 2 4 0 2 0 2 }
    ensures tie_of_three { first_half (block 0 2 3 5 5 7) ≡ block 0 1 3 5 5 7 }
    ensures rest_of_three { second_half (block 0 2 3 5 5 7) ≡ block 1 2 3 5 5 7 }
    ensures tie_of_rates { first_half (block 0 1 3 5 5 7) ≡ block 0 1 3 4 5 7 }
    ensures rest_of_rates { second_half (block 0 1 3 5 5 7) ≡ block 0 1 4 5 5 7 }
    ensures own { first_half (block 0 1 2 5 5 7) ≡ block 0 1 2 3 5 7 }
    ensures rest_of_own { second_half (block 0 1 2 5 5 7) ≡ block 0 1 3 5 5 7 }
    ensures intruder { first_half (block 0 1 3 4 2 5) ≡ block 0 1 3 4 2 3 }
    ensures rest_of_intruder { second_half (block 0 1 3 4 2 5) ≡ block 0 1 3 4 3 5 }
    ensures highest { is_highest (block 0 2 0 2 0 2) ≡ true }
    ensures not_highest { is_highest (block 0 2 0 3 0 2) ≡ false }
    ensures not_highest_either { is_highest (block 0 2 0 2 0 3) ≡ false }
    ensures wider { is_wider (block 0 1 0 2 0 2) ≡ true }
    ensures not_wider { is_wider (block 0 1 0 2 0 3) ≡ false }
    ensures one { is_one_cell (block 4 5 2 3 7 8) ≡ true }
    ensures two { is_one_cell (block 4 5 2 3 7 9) ≡ false }
    ensures two_own { is_one_cell (block 4 5 2 4 7 8) ≡ false }
    ensures two_altitudes { is_one_cell (block 4 6 2 3 7 8) ≡ false }
{}

/// All cells of the model are 2 along the altitude and 1 along each rate. The area of both goes from 0 to 240 ticks, and that of the
/// second from 120. A place ends where the block does. Of 2, 3 and 4 cells, that at the places 1, 2 and 3 is number 23 of 24.
pub fn blocks_have_areas()
    ensures all { all_cells stacked ≡ block 0 2 0 1 0 1 }
    ensures count { cells_in (block 0 2 3 6 1 5) ≡ 24 }
    ensures altitudes { altitudes (block 1 3 3 6 1 5) ≡ 2 }
    ensures own_rates { own_rates (block 1 3 3 6 1 5) ≡ 3 }
    ensures intruder_rates { intruder_rates (block 1 3 3 6 1 5) ≡ 4 }
    ensures both { area_of_block stacked (all_cells stacked)
        ≡ area (from_to (pos 0) (pos 240)) (from_to (pos 0) (pos 600)) (from_to (pos 0) (pos 600)) }
    ensures upper { area_of_block stacked (block 1 2 0 1 0 1)
        ≡ area (from_to (pos 120) (pos 240)) (from_to (pos 0) (pos 600)) (from_to (pos 0) (pos 600)) }
    ensures inside { IsInBlock (block 1 3 3 6 1 5) 2 5 4 }
    ensures first { IsInBlock (block 1 3 3 6 1 5) 1 3 1 }
    ensures past { IsInBlock (block 1 3 3 6 1 5) 3 5 4 → ⊥ }
    ensures past_own { IsInBlock (block 1 3 3 6 1 5) 2 6 4 → ⊥ }
    ensures past_intruder { IsInBlock (block 1 3 3 6 1 5) 2 5 5 → ⊥ }
    ensures before { IsInBlock (block 1 3 3 6 1 5) 0 3 1 → ⊥ }
    ensures before_own { IsInBlock (block 1 3 3 6 1 5) 1 2 1 → ⊥ }
    ensures before_intruder { IsInBlock (block 1 3 3 6 1 5) 1 3 0 → ⊥ }
    ensures of_model { IsBlockOf stacked (block 0 2 0 1 0 1) }
    ensures empty { IsBlockOf stacked (block 0 0 0 1 0 1) → ⊥ }
    ensures too_many { IsBlockOf stacked (block 0 3 0 1 0 1) → ⊥ }
    ensures place { let a : BlockAuditData = record {
      altitudes = 2;
      own_rates = 3;
      intruder_rates = 4;
      sets = [];
    } in place_of a 1 2 3 ≡ 23 }
    ensures places { let a : BlockAuditData = record {
      altitudes = 2;
      own_rates = 3;
      intruder_rates = 4;
      sets = [];
    } in cell_count a ≡ 24 }
{}

/// The bits 101 are the advices 0 and 2. Clear of conflict, which is 0, is no advisory.
pub fn sets_hold_advices()
    ensures first { holds (set 5) 0 ≡ true }
    ensures second { holds (set 5) 1 ≡ false }
    ensures third { holds (set 5) 2 ≡ true }
    ensures none { has_no_advisory (set 0) ≡ true }
    ensures clear_alone { has_no_advisory (set 1) ≡ true }
    ensures one { has_no_advisory (set 2) ≡ false }
{}
