//! The literals that are true, in the order in which they came.
ghost use Rattle.std.specs.Prelude.{◌≡◌, ◌||◌, ℕ, ◌+◌, ◌-◌, ◌<◌, ◌≤◌, ◌++◌, ◌∷◌, [], length, take, IfOk, IsTrue};
ghost use Rattle.lk_model.specs.Formulas.Literal.{is_literal};
ghost use Rattle.watch_prop.specs.HeldTrail.{place_of};
ghost use Rattle.watch_prop.specs.Trail.{Path, literals_of, entry_of, true_in, false_in, present_level, up_to_level};
ghost use Rattle.watch_prop.specs.Trail.{may_come, is_path, forced_entry, with_forced};

use crate::entry::Entry;
use lk_model::{Lit, OutOfMemory};
use std::alloc::Global;
use std::marker::Model;

/// Entries in order, their literals, the entry of each variable, and a flag for each number from -n to n that tells
/// whether that literal is true. There is room for an entry of every variable, so that no literal that comes takes
/// memory.
#[derive(Drop)]
pub(crate) struct Trail {
    entries: Vec<Entry>,
    lits: Vec<Lit>,
    table: Vec<Option<Entry>>,
    values: Vec<bool>,
}

impl Model for Trail {
    ghost use Rattle.watch_prop.specs.Trail.{Path};

    ghost Value = { Path };

    ghost use Rattle.watch_prop.specs.HeldTrail.{seen, IsHeldTrail};

    ghost view = { seen };

    ghost invariant = { IsHeldTrail };
}

impl Trail {
    /// The trail without an entry, over the variables from 1 to n.
    pub fn new(alloc: Global, n: u32) -> Result<Trail, OutOfMemory>
        requires { n ≤ 1000000 }
        ensures vars { IfOk result (λ t. t.vars ≡ n) }
        ensures entries { IfOk result (λ t. t.entries ≡ []) }
    {
        Ok(Trail {
            entries: Vec::with_capacity(alloc, n as usize)?,
            lits: Vec::with_capacity(alloc, n as usize)?,
            table: vec![in alloc; None; n as usize]?,
            values: vec![in alloc; false; 2 * n as usize + 1]?,
        })
    }

    /// Its literals.
    pub fn lits(&self) -> &[Lit]
        ensures value { result.now ≡ literals_of self.now.entries }
        ensures path { IsTrue (is_path self.now.vars self.now.entries) }
        ensures vars { self.now.vars ≤ 1000000 }
    {
        self.lits.as_slice()
    }

    /// How many entries it has.
    pub fn len(&self) -> usize
        ensures value { result ≡ length self.now.entries }
        ensures most { result ≤ self.now.vars }
    {
        self.entries.len()
    }

    /// The level of the last entry, 0 before the first.
    pub fn level(&self) -> u32
        ensures value { result ≡ present_level self.now.entries }
        ensures bound { result ≤ self.now.vars }
        ensures vars { self.now.vars ≤ 1000000 }
        ensures path { IsTrue (is_path self.now.vars self.now.entries) }
    {
        let len = self.entries.len();
        if len == 0 {
            0
        } else {
            self.entries[len - 1].level
        }
    }

    /// The entry of a variable.
    pub fn entry(&self, v: u32) -> Option<Entry>
        requires first { 0 < v }
        requires last { v ≤ self.now.vars }
        ensures value { result ≡ entry_of self.now.entries v }
        ensures path { IsTrue (is_path self.now.vars self.now.entries) }
    {
        self.table[v as usize - 1]
    }

    /// Whether a literal is true.
    pub fn is_true(&self, l: Lit) -> bool
        requires { IsTrue (is_literal self.now.vars l) }
        ensures { result ≡ true_in self.now.entries l }
    {
        self.values[self.place(l)]
    }

    /// Whether its complement is true.
    pub fn is_false(&self, l: Lit) -> bool
        requires { IsTrue (is_literal self.now.vars l) }
        ensures { result ≡ false_in self.now.entries l }
    {
        self.is_true(l.negated())
    }

    /// Appends an entry.
    pub fn put(&mut self, lit: Lit, level: u32, reason: Option<u64>)
        requires { IsTrue
            (may_come self.old.vars self.old.entries (record { lit = lit; level = level; reason = reason })) }
        ensures value { self.new ≡ record self.old {
          entries = self.old.entries ++
              (record { lit = lit; level = level; reason = reason }) ∷ [];
        } }
        ensures room { length self.new.entries ≤ self.new.vars }
    {
        let at = self.place(lit);
        let place = lit.var() as usize - 1;
        self.table[place] = Some(Entry { lit, level, reason });
        self.values[at] = true;
        self.entries.push_reserved(Entry { lit, level, reason });
        self.lits.push_reserved(lit);
    }

    /// Makes a literal true at the present level that the clause of a number forces, if it is not true yet.
    pub fn force(&mut self, l: Lit, number: u64)
        requires literal { IsTrue (is_literal self.old.vars l) }
        requires comes { IsTrue
            (true_in self.old.entries l || may_come self.old.vars self.old.entries
            (forced_entry self.old.entries l number)) }
        ensures { self.new ≡ with_forced self.old l number }
    {
        if !self.is_true(l) {
            let level = self.level();
            self.put(l, level, Some(number));
        }
    }

    /// Takes back the entries above a level.
    pub fn retract(&mut self, level: u32)
        ensures { self.new ≡ record self.old { entries = up_to_level level self.old.entries } }
    {
        'entries: while self.level() > level {
            self.take_back();
        }
    }

    // Where the flag of a literal stands.
    fn place(&self, l: Lit) -> usize
        requires { IsTrue (is_literal self.now.vars l) }
        ensures { result ≡ place_of self.now.vars l }
    {
        (self.table.len() as i32 + l.get()) as usize
    }

    // Takes the last entry back.
    fn take_back(&mut self)
        requires { 0 < length self.old.entries }
        ensures { self.new ≡ record self.old { entries = take (length self.old.entries - 1) self.old.entries } }
    {
        let last = self.entries.len() - 1;
        let lit = self.entries[last].lit;
        let at = self.place(lit);
        let place = lit.var() as usize - 1;
        self.table[place] = None;
        self.values[at] = false;
        self.entries.truncate(last);
        self.lits.truncate(last);
    }
}
