//! What came of sittings whose log is a ring.

use std::io;

/// What came of sittings whose log is a ring.
#[derive(Clone, Copy)]
pub struct Rings {
    pub rings: u64,
    /// How often their words were used again, all of them.
    pub times_over: u64,
    /// How many turns were answered Full.
    pub fulls: u64,
    /// How many receivers have left.
    pub gone: u64,
    /// How many receivers stopped for good.
    pub stops: u64,
    /// How many receivers were forked off others.
    pub forks: u64,
    /// How many forks found each higher number taken.
    pub refused: u64,
    /// In how many a sender was without room to the last.
    pub without_room: u64,
}

impl Rings {
    /// Of none.
    pub fn none() -> Rings {
        Rings {
            rings: 0,
            times_over: 0,
            fulls: 0,
            gone: 0,
            stops: 0,
            forks: 0,
            refused: 0,
            without_room: 0,
        }
    }

    /// Those of both.
    pub fn and(self, other: Rings) -> Rings {
        Rings {
            rings: self.rings.saturating_add(other.rings),
            times_over: self.times_over.saturating_add(other.times_over),
            fulls: self.fulls.saturating_add(other.fulls),
            gone: self.gone.saturating_add(other.gone),
            stops: self.stops.saturating_add(other.stops),
            forks: self.forks.saturating_add(other.forks),
            refused: self.refused.saturating_add(other.refused),
            without_room: self.without_room.saturating_add(other.without_room),
        }
    }

    /// Words were used again, a sender was answered Full, a receiver left, one stopped, which left
    /// a sender without room, one forked, and one was refused.
    pub fn show_all(&self) -> bool {
        let has_gone = self.gone > 0 && self.stops > 0;
        let has_forked = self.forks > 0 && self.refused > 0;
        let is_short = self.fulls > 0 && self.without_room > 0;
        self.times_over > 0 && is_short && has_gone && has_forked
    }

    /// A line for each figure.
    pub fn print<R: Print>(&self, rt: &R) -> io::Result<()> {
        println!(rt;
            "  rings {}, used over {} times",
            self.rings, self.times_over
        )?;
        println!(rt; "  of these turns answered full {}", self.fulls)?;
        println!(rt; "  receivers that left {}", self.gone)?;
        println!(rt; "  receivers that stopped {}", self.stops)?;
        println!(rt;
            "  receivers forked off {}, and refused a number {}",
            self.forks, self.refused
        )?;
        println!(rt;
            "  rings with a sender without room to the last {}",
            self.without_room
        )
    }
}
