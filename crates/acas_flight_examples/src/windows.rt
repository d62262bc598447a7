//! The times of a window.
ghost use Rattle.std.specs.Prelude.{pos};
ghost use Rattle.acas_flight.specs.Window.{IsContactTimeOfBox, IsContactTimeOfCell, IsDuring, IsWindowOfCell};
ghost use Rattle.acas_flight_examples.specs.Flown.{near_box, small};
ghost use Rattle.acas_flight_examples.specs.Numbers.{over, times};

/// Of the numbers over 4, those from 2 to 6 are times from 1/2 to 3/2.
pub fn times_are_during_a_window_or_not()
    ensures from { IsDuring 4 (times (over (pos 1) 2) (over (pos 3) 2)) 2 }
    ensures before { IsDuring 4 (times (over (pos 1) 2) (over (pos 3) 2)) 1 → ⊥ }
    ensures to { IsDuring 4 (times (over (pos 1) 2) (over (pos 3) 2)) 6 }
    ensures after { IsDuring 4 (times (over (pos 1) 2) (over (pos 3) 2)) 7 → ⊥ }
{}

/// A range of 1000 ft at 250 ft/s, which is 1 s or 2 s away, is still at the edge after 6 s, and none that is at least 1 s away is within
/// the radius at the start. In the box a range of 1000 ft at 500 ft/s comes to the radius after 1 s, and one of 1200 ft at 250 ft/s is
/// still at the edge after 6.8 s; at the start none is within it.
pub fn times_are_of_contact_or_not()
    ensures cell { IsContactTimeOfCell small 1 1 6 }
    ensures not_cell { IsContactTimeOfCell small 1 1 0 → ⊥ }
    ensures the_box { IsContactTimeOfBox 500 near_box.range near_box.closing 1 1 }
    ensures the_box_last { IsContactTimeOfBox 500 near_box.range near_box.closing 5 34 }
    ensures not_box { IsContactTimeOfBox 500 near_box.range near_box.closing 1 0 → ⊥ }
{}

/// A range that is 1 to 2 seconds from the radius reaches it after 1 s at the earliest. At the least closing speed of 250 ft/s it is
/// within the radius of 500 ft for 4 s, so that after 2 s and these it is still at the edge: at 6 s, and no later.
pub fn windows_of_cells_are_exact()
    ensures { IsWindowOfCell small 1 (times (over (pos 1) 1) (over (pos 6) 1)) }
{}

/// So no window that begins a second sooner or later, or ends a second sooner or later, is that of the cell.
pub fn other_times_are_no_windows()
    ensures early { IsWindowOfCell small 1 (times (over (pos 0) 1) (over (pos 6) 1)) → ⊥ }
    ensures late { IsWindowOfCell small 1 (times (over (pos 2) 1) (over (pos 6) 1)) → ⊥ }
    ensures short { IsWindowOfCell small 1 (times (over (pos 1) 1) (over (pos 5) 1)) → ⊥ }
    ensures long { IsWindowOfCell small 1 (times (over (pos 1) 1) (over (pos 7) 1)) → ⊥ }
{}
