//! The floor that a page gets by the passed places.

ghost use Rattle.std.specs.Prelude.{◌≡◌, ◌<◌, ◌≤◌};
ghost use Rattle.bus_tenure.specs.Causes.{HoldsUnfitting};
ghost use Rattle.bus_tenure.specs.Seen.{floor_in};
ghost use Rattle.bus_tenure.specs.Situations.{core_floored, lesser as spec_lesser};

use crate::phases::Phase;
use crate::turning::Turns;
use bus_adoptcommit::Ratifier;
use bus_register::limits::PLACES;

/// The lesser one of two numbers.
fn lesser(one: u64, other: u64) -> u64
    ensures is { result ≡ spec_lesser one other }
    ensures first { result ≤ one }
    ensures second { result ≤ other }
{
    if one < other { one } else { other }
}

impl<Q: Ratifier + Drop> Turns<Q> {
    /// All passed places are loaded, and this is the least of them: the page's floor becomes it,
    /// or the words below the length where those are fewer. It does not fall where none of them
    /// lies before it.
    pub fn set_floor(&mut self, least: u64)
        requires lacks { HoldsUnfitting self.old }
        requires some { 0 < self.old.layout.passers }
        ensures floor { self.new ≡ core_floored self.old least }
        ensures rises { floor_in self.old.phase ≤ least
            → floor_in self.old.phase ≤ floor_in self.new.phase }
    {
        self.keeps_floor(least);
        self.put_floor(least);
    }

    /// The floor that it sets lies before the one that it had only where this place does.
    fn keeps_floor(&self, least: u64)
        ensures { floor_in self.now.phase ≤ least
            → floor_in self.now.phase ≤ floor_in (core_floored self.now least).phase }
    {
        self.is_kept();
        let _ = least;
    }

    /// The page that lies before it gets this floor, but none past its words.
    fn put_floor(&mut self, least: u64)
        requires { HoldsUnfitting self.old }
        ensures { self.new ≡ core_floored self.old least }
    {
        if let Phase::Holding { page, .. } = &mut self.phase {
            let words = page.get().words;
            page.set_floor(lesser(lesser(least, words), PLACES));
        }
    }
}
