//! A storm: runs of every shape, as many side by side as make up a number of threads.

use crate::chains::run;
use crate::rings::Rings;
use crate::storms::{SHAPES, Tale, receivers_of, senders_of};
use std::alloc::Global;
use std::thread::Threads;
use std::time::Clock;
use std::{io, thread};

/// What came of runs.
#[derive(Clone, Copy)]
pub struct Figures {
    pub runs: u64,
    pub failed: u64,
    calm: u64,
    whole: u64,
    out: u64,
    stops: u64,
    stops_while_pinned: u64,
    behinds: u64,
    gave_up: u64,
    stuck: u64,
    left: u64,
    forks: u64,
    items: u64,
    most_tenures: u64,
    chains: u64,
    sittings: u64,
    pub rings: Rings,
}

impl Figures {
    /// Of no run.
    fn new() -> Figures {
        Figures {
            runs: 0,
            failed: 0,
            calm: 0,
            whole: 0,
            out: 0,
            stops: 0,
            stops_while_pinned: 0,
            behinds: 0,
            gave_up: 0,
            stuck: 0,
            left: 0,
            forks: 0,
            items: 0,
            most_tenures: 0,
            chains: 0,
            sittings: 0,
            rings: Rings::none(),
        }
    }

    /// With one run more, that did not fail.
    fn with(self, tale: Tale) -> Figures {
        let is_chain = tale.sittings > 1;
        self.and(Figures {
            runs: 1,
            failed: 0,
            calm: u64::from(tale.is_calm),
            whole: u64::from(tale.is_whole),
            out: u64::from(tale.is_out),
            stops: tale.stops,
            stops_while_pinned: tale.stops_while_pinned,
            behinds: tale.behinds,
            gave_up: tale.gave_up,
            stuck: tale.stuck,
            left: tale.left,
            forks: tale.forks,
            items: tale.items,
            most_tenures: tale.last_tenure,
            chains: u64::from(is_chain),
            sittings: if is_chain { tale.sittings } else { 0 },
            rings: tale.rings,
        })
    }

    /// With one run more, that failed.
    fn with_failure(self) -> Figures {
        self.and(Figures {
            runs: 1,
            failed: 1,
            ..Figures::new()
        })
    }

    /// The figures of both.
    fn and(self, other: Figures) -> Figures {
        Figures {
            runs: self.runs.saturating_add(other.runs),
            failed: self.failed.saturating_add(other.failed),
            calm: self.calm.saturating_add(other.calm),
            whole: self.whole.saturating_add(other.whole),
            out: self.out.saturating_add(other.out),
            stops: self.stops.saturating_add(other.stops),
            stops_while_pinned: self
                .stops_while_pinned
                .saturating_add(other.stops_while_pinned),
            behinds: self.behinds.saturating_add(other.behinds),
            gave_up: self.gave_up.saturating_add(other.gave_up),
            stuck: self.stuck.saturating_add(other.stuck),
            left: self.left.saturating_add(other.left),
            forks: self.forks.saturating_add(other.forks),
            items: self.items.saturating_add(other.items),
            most_tenures: self.most_tenures.max(other.most_tenures),
            chains: self.chains.saturating_add(other.chains),
            sittings: self.sittings.saturating_add(other.sittings),
            rings: self.rings.and(other.rings),
        }
    }

    /// Senders stopped while they pinned a tenure, a holder was behind one to the last, a sender
    /// left, a receiver forked without a ring, and a sitting went on with the numbers of another.
    pub fn shows_all(&self) -> bool {
        let has_behind = self.behinds > 0 && self.stuck > 0;
        let has_forked = self.forks > self.rings.forks;
        self.stops_while_pinned > 0 && has_behind && self.left > 0 && has_forked && self.chains > 0
    }

    /// A line for each figure.
    pub fn print<R: Print>(&self, rt: &R) -> io::Result<()> {
        println!(rt; "  runs {}, failed {}", self.runs, self.failed)?;
        println!(rt; "  runs where nobody was to stop {}", self.calm)?;
        println!(rt; "  of these all sent, heard and audited {}", self.whole)?;
        println!(rt; "  page out at the end {}", self.out)?;
        println!(rt; "  workers that stopped {}", self.stops)?;
        println!(rt; "  of these senders in a visit {}", self.stops_while_pinned)?;
        println!(rt; "  turns answered behind {}", self.behinds)?;
        println!(rt; "  workers that waited too long {}", self.gave_up)?;
        println!(rt; "  of these senders with the page {}", self.stuck)?;
        println!(rt; "  senders that left {}", self.left)?;
        println!(rt; "  receivers forked off {}", self.forks)?;
        println!(rt; "  items {}", self.items)?;
        println!(rt; "  tenures of the longest log {}", self.most_tenures)?;
        println!(rt;
            "  chains of sittings {}, with {} sittings",
            self.chains, self.sittings
        )?;
        self.rings.print(rt)
    }
}

/// Runs under the seeds below `runs`, as many side by side as have room in so many threads, beside
/// those that wait for them. Those that fail say why.
pub fn storm<R: Threads + Clock + Print + Sync>(
    rt: &R,
    alloc: Global,
    runs: u64,
    threads: u64,
) -> anyhow::Result<Figures> {
    let mut figures = Figures::new();
    for shape in 0..SHAPES {
        let workers = senders_of(shape).saturating_add(receivers_of(shape)).max(1);
        let hands = threads.min(workers).max(1);
        let lanes = (threads / workers).clamp(1, 64);
        let mut firsts = Vec::new(alloc);
        for lane in 0..lanes {
            firsts.push(shape + SHAPES * lane)?;
        }
        let apart = SHAPES * lanes;
        let each = &|first| run_lane(rt, alloc, (first, runs, apart), hands);
        for told in thread::map_vec(rt, firsts, each)? {
            figures = figures.and(told);
        }
    }
    Ok(figures)
}

/// Runs under the seeds from the first, below the second, so far apart, one after another.
fn run_lane<R: Threads + Clock + Print + Sync>(
    rt: &R,
    alloc: Global,
    (first, end, apart): (u64, u64, u64),
    hands: u64,
) -> Figures {
    let mut figures = Figures::new();
    for seed in (first..end).step_by(apart.max(1) as usize) {
        figures = match run(rt, alloc, seed, hands) {
            Ok(tale) => figures.with(tale),
            Err(why) => {
                let _ = println!(rt; "seed {seed}: {why}");
                figures.with_failure()
            }
        };
    }
    figures
}
