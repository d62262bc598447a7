//! The numbers of a model that stand alone.

/// The puck: its radius in ft, and half of its height in ticks.
#[derive(Clone, Copy)]
pub struct Puck {
    pub radius: u32,
    pub half: u32,
}

/// The least and the greatest closing speed, in ft/s.
#[derive(Clone, Copy)]
pub struct Closing {
    pub least: u32,
    pub greatest: u32,
}

/// The least and the greatest acceleration of a pilot who follows an advisory, in ft/min per second, and how long the pilot
/// may hold the rate before following, in seconds.
#[derive(Clone, Copy)]
pub struct Pilot {
    pub pull: u32,
    pub limit: u32,
    pub delay: u32,
}

/// The puck, the closing speeds, the pilot and the cost of contact, in units.
#[derive(Clone, Copy)]
pub struct Numbers {
    pub puck: Puck,
    pub closing: Closing,
    pub pilot: Pilot,
    pub contact: i64,
}
