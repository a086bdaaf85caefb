//! Gates for tests, which hold a half for 200,000,000 looks at most.

use lk_outside::Gate;
use std::sync::atomic::{AtomicBool, AtomicU32, Ordering};

/// How often a half that is held looks whether it may go on.
const TURNS: u32 = 200_000_000;

/// Whether a flag goes up while it is looked at.
fn sees(flag: &AtomicBool) -> bool {
    for _ in 0..TURNS {
        if flag.load(Ordering::SeqCst) {
            return true;
        }
    }
    false
}

/// Holds a half each time until the other one has entered as often.
#[derive(Drop)]
pub struct Meeting {
    times: [AtomicU32; 2],
    times_met: [AtomicU32; 2],
}

impl Meeting {
    /// The gate that no half has entered.
    pub fn new() -> Meeting {
        Meeting {
            times: [AtomicU32::new(0), AtomicU32::new(0)],
            times_met: [AtomicU32::new(0), AtomicU32::new(0)],
        }
    }

    /// How often each half entered.
    pub fn times(&self) -> [u32; 2] {
        counts(&self.times)
    }

    /// How often each half met the other one.
    pub fn times_met(&self) -> [u32; 2] {
        counts(&self.times_met)
    }

    /// Whether each half entered, and met the other one each time.
    pub fn met(&self) -> [bool; 2] {
        let (times, met) = (self.times(), self.times_met());
        [
            times[0] > 0 && met[0] == times[0],
            times[1] > 0 && met[1] == times[1],
        ]
    }
}

/// The counts of both halves.
fn counts(halves: &[AtomicU32; 2]) -> [u32; 2] {
    [
        halves[0].load(Ordering::SeqCst),
        halves[1].load(Ordering::SeqCst),
    ]
}

impl Gate for Meeting {
    fn enter(&self, half: u32) {
        let (own, other) = if half == 0 { (0, 1) } else { (1, 0) };
        let before = self.times[own].fetch_add(1, Ordering::SeqCst);
        for _ in 0..TURNS {
            if self.times[other].load(Ordering::SeqCst) > before {
                self.times_met[own].fetch_add(1, Ordering::SeqCst);
                return;
            }
        }
    }
}

/// Holds half 1 until the first item was worked on.
#[derive(Drop)]
pub struct FirstItem {
    /// Whether it was.
    pub is_done: AtomicBool,
    /// Whether half 1 has seen that.
    pub was_seen: AtomicBool,
}

impl FirstItem {
    /// The gate that no half has entered.
    pub fn new() -> FirstItem {
        FirstItem {
            is_done: AtomicBool::new(false),
            was_seen: AtomicBool::new(false),
        }
    }
}

impl Gate for FirstItem {
    fn enter(&self, half: u32) {
        if half == 1 && sees(&self.is_done) {
            self.was_seen.store(true, Ordering::SeqCst);
        }
    }
}
