//! What is learned.
use crate::search::Search;
use lk_model::OutOfMemory;

impl Search {
    /// Learns a clause from a false one above level 0, goes back as far as it forces its first literal, and makes that one
    /// true.
    pub fn learn(&mut self, conflict: usize) -> Result<(), OutOfMemory> {
        self.analyze(conflict)?;
        self.learned = self.learned.saturating_add(1);
        let level = self.second();
        let levels = self.count_levels();
        self.back(level)?;
        let number = self.chains.last();
        let index = self.clauses.push(number, levels, self.clause.as_slice())?;
        if let Some(l) = self.clause.first().copied() {
            self.trail.put(l, Some(index))?;
        }
        self.order.grow()
    }

    /// Makes a literal of the highest level below the present one the second of the clause: that level, 0 if there is none.
    fn second(&mut self) -> u32 {
        let mut best = 1usize;
        let mut level = 0u32;
        for i in 1..self.clause.len() {
            if let Some(l) = self.clause.get(i) {
                let of = self.trail.level_of(l.var());
                if of > level {
                    level = of;
                    best = i;
                }
            }
        }
        self.exchange(1, best);
        level
    }

    /// Lets two literals of the clause change places.
    fn exchange(&mut self, one: usize, other: usize) {
        if let (Some(l), Some(k)) = (
            self.clause.get(one).copied(),
            self.clause.get(other).copied(),
        ) {
            if let Some(slot) = self.clause.get_mut(one) {
                *slot = k;
            }
            if let Some(slot) = self.clause.get_mut(other) {
                *slot = l;
            }
        }
    }

    /// At how many levels the literals of the clause are false.
    fn count_levels(&mut self) -> u32 {
        self.levels.clear();
        let mut count = 0u32;
        for l in self.clause.as_slice() {
            if self.levels.mark(self.trail.level_of(l.var())) {
                count = count.saturating_add(1);
            }
        }
        count
    }

    /// Takes back what came above a level.
    pub fn back(&mut self, level: u32) -> Result<(), OutOfMemory> {
        let low = self.trail.begin_of(level.saturating_add(1));
        for _ in low..self.trail.len() {
            if let Some(l) = self.trail.pop() {
                self.order.note(l);
                self.order.put(l.var())?;
            }
        }
        self.trail.close(level);
        Ok(())
    }
}
