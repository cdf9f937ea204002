//! Numbers for schedules and scripts.

/// A fixed sequence of numbers (Knuth's MMIX generator).
#[derive(Drop)]
pub struct Dice {
    pub state: u64,
}

impl Dice {
    /// The next number below this one.
    pub fn below(&mut self, most: u64) -> u64 {
        self.state = self
            .state
            .wrapping_mul(6364136223846793005)
            .wrapping_add(1442695040888963407);
        (self.state >> 33) % most.max(1)
    }
}
