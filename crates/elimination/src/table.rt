//! Clauses with their numbers, found by their literals.
//!
//! The table is the log of an elimination: the clauses of the formula have their positions as numbers, and each derived
//! clause has the next one. None is taken out; a clause that others replace dies. Each literal has the list of its
//! clauses. Besides, each clause stands in one single list, that of its rarest literal, in which clauses are looked for
//! that another one contains. Signatures of 64 bits tell most clauses apart without a look at them. A list of which most
//! clauses are dead is freed of these before it is gone through, so that they do not make it long again and again.
use crate::allowance::Allowance;
use crate::literals::literals_in;
use crate::marks::{Marks, ranks};
use lk_model::{Formula, FormulaError, Lit, OpenClause, OutOfMemory};
use std::alloc::Global;
use std::mem;

/// A list that is no longer than this is not freed of dead clauses.
const FEW: usize = 16;

/// A clause in the list of a literal.
#[derive(Clone, Copy)]
struct Entry {
    number: u32,
    length: u32,
    /// A bit for each variable, by its number modulo 64.
    signature: u64,
}

/// Whether a clause is live, and how many of its literals were not yet found to be false.
#[derive(Clone, Copy)]
struct State {
    is_live: bool,
    open: u32,
}

/// The clauses.
#[derive(Drop)]
pub(crate) struct Table {
    pub clauses: Formula,
    pub allowance: Allowance,
    /// By number, from 1 on.
    states: Vec<State>,
    /// By the rank of a literal: the clauses with it, dead ones among them.
    lists: Vec<Vec<Entry>>,
    /// By the rank of a literal: the clauses that stand in this list alone.
    single_lists: Vec<Vec<Entry>>,
    /// How many live clauses have the literal.
    counts: Vec<u32>,
    /// By variable, whether one of its clauses came or went since it was last tried.
    is_touched: Vec<bool>,
}

impl Table {
    /// The clauses of a formula. A tautology is dead.
    pub fn of(alloc: Global, f: &Formula) -> Result<Table, OutOfMemory> {
        let literals = literals_in(f);
        let mut table = Table {
            clauses: f.copy(alloc)?,
            allowance: Allowance::new(f.vars(), literals),
            states: Vec::new(alloc),
            lists: lists(alloc, f.vars())?,
            single_lists: lists(alloc, f.vars())?,
            counts: vec![in alloc; 0u32; ranks(f.vars())]?,
            is_touched: vec![in alloc; false; f.vars() as usize + 1]?,
        };
        let mut marks = Marks::new(alloc, f.vars())?;
        for k in 0..f.len() {
            let clause = f.clause(k + 1);
            marks.mark_only(clause);
            let is_tautology = clause.iter().any(|l| marks.has(l.negated()));
            table.enter(k + 1, !is_tautology)?;
        }
        Ok(table)
    }

    /// All clauses.
    pub fn into_clauses(self) -> Formula {
        self.clauses
    }

    /// How many clauses there are, dead ones among them.
    pub fn len(&self) -> u32 {
        self.clauses.len()
    }

    /// The clause of a number, or the empty one if there is none.
    pub fn clause(&self, number: u32) -> &[Lit] {
        clause_of(&self.clauses, number)
    }

    /// Whether a clause is live.
    pub fn is_live(&self, number: u32) -> bool {
        is_live(self.states.as_slice(), number)
    }

    /// How many live clauses have a literal.
    pub fn count(&self, l: Lit) -> u32 {
        self.counts.get(l.rank()).copied().unwrap_or(0)
    }

    /// How many entries the list of a literal has.
    pub fn list_len(&self, l: Lit) -> usize {
        match self.lists.get(l.rank()) {
            Some(list) => list.len(),
            None => 0,
        }
    }

    /// The number at an index of the list of a literal.
    pub fn number_at(&self, l: Lit, i: usize) -> u32 {
        match self.lists.get(l.rank()) {
            Some(list) => match list.get(i) {
                Some(entry) => entry.number,
                None => 0,
            },
            None => 0,
        }
    }

    /// The live clauses with a literal.
    pub fn live(&mut self, alloc: Global, l: Lit) -> Result<Vec<u32>, OutOfMemory> {
        let mut numbers = Vec::new(alloc);
        let live = self.count(l);
        sweep(&mut self.lists, l, live, self.states.as_slice());
        let count = self.list_len(l);
        self.allowance.spend(count);
        for i in 0..count {
            let number = self.number_at(l, i);
            if self.is_live(number) {
                numbers.push(number)?;
            }
        }
        Ok(numbers)
    }

    /// Appends a clause, which is live. False where the formula of all clauses would pass a limit.
    pub fn push(&mut self, clause: &OpenClause) -> Result<bool, OutOfMemory> {
        if clause.vars() != self.clauses.vars() {
            return Ok(false);
        }
        match self.clauses.push_clause(clause.literals()) {
            Ok(()) => {}
            Err(FormulaError::Limit) => {
                self.allowance.end();
                return Ok(false);
            }
            Err(FormulaError::OutOfMemory) => return Err(OutOfMemory),
        }
        self.allowance.derive(clause.literals().len());
        let number = self.clauses.len();
        self.enter(number, true)?;
        Ok(true)
    }

    /// Lets the clause of a number, which is the next one, into the lists, if it is live.
    fn enter(&mut self, number: u32, is_live: bool) -> Result<(), OutOfMemory> {
        let length = self.clause(number).len();
        self.states.push(State {
            is_live,
            open: short(length),
        })?;
        self.allowance.spend(length);
        if is_live {
            self.list(number)?;
        }
        Ok(())
    }

    /// Puts a live clause into the lists of its literals, and into the single list of the rarest of them.
    fn list(&mut self, number: u32) -> Result<(), OutOfMemory> {
        let clause = clause_of(&self.clauses, number);
        let entry = Entry {
            number,
            length: short(clause.len()),
            signature: signature(clause),
        };
        let mut rarest: Option<(u32, Lit)> = None;
        for l in clause {
            put(&mut self.lists, *l, entry)?;
            touch(&mut self.is_touched, *l);
            let count = raise(&mut self.counts, *l);
            rarest = match rarest {
                Some((least, k)) if least <= count => Some((least, k)),
                _ => Some((count, *l)),
            };
        }
        match rarest {
            Some((_, l)) => put(&mut self.single_lists, l, entry),
            None => Ok(()),
        }
    }

    /// A clause dies.
    pub fn kill(&mut self, number: u32) {
        if !self.is_live(number) {
            return;
        }
        if let Some(state) = self.states.get_mut((number as usize).wrapping_sub(1)) {
            state.is_live = false;
        }
        let clause = clause_of(&self.clauses, number);
        self.allowance.spend(clause.len());
        for l in clause {
            lower(&mut self.counts, *l);
            touch(&mut self.is_touched, *l);
        }
    }

    /// One literal more of a clause is false: whether at most one is left that is not, in a live clause.
    pub fn close_one(&mut self, number: u32) -> bool {
        match self.states.get_mut((number as usize).wrapping_sub(1)) {
            Some(state) => {
                state.open = state.open.saturating_sub(1);
                state.is_live && state.open <= 1
            }
            None => false,
        }
    }

    /// Whether a variable was touched since this was last asked.
    pub fn take_touched(&mut self, v: u32) -> bool {
        match self.is_touched.get_mut(v as usize) {
            Some(is_touched) => mem::replace(is_touched, false),
            None => false,
        }
    }

    /// Whether a live clause is contained in a clause.
    pub fn has_within(&mut self, marks: &mut Marks, clause: &[Lit]) -> bool {
        marks.mark_only(clause);
        let signature = signature(clause);
        for l in clause {
            let live = self.count(*l);
            sweep(&mut self.single_lists, *l, live, self.states.as_slice());
            let count = self.single_len(*l);
            self.allowance.spend(count);
            if self.has_single(*l, clause.len(), signature, marks) {
                return true;
            }
        }
        false
    }

    /// How many entries the single list of a literal has.
    fn single_len(&self, l: Lit) -> usize {
        match self.single_lists.get(l.rank()) {
            Some(list) => list.len(),
            None => 0,
        }
    }

    /// Whether a live clause in the single list of a literal is contained in the marked clause, which has this length and
    /// this signature.
    fn has_single(&self, l: Lit, length: usize, signature: u64, marks: &Marks) -> bool {
        match self.single_lists.get(l.rank()) {
            Some(list) => list.iter().any(|entry| {
                entry.length as usize <= length
                    && entry.signature & !signature == 0
                    && self.is_live(entry.number)
                    && marks.has_all(self.clause(entry.number))
            }),
            None => false,
        }
    }
}

/// An empty list for each literal over the variables from 1 to n.
fn lists(alloc: Global, n: u32) -> Result<Vec<Vec<Entry>>, OutOfMemory> {
    let mut lists = Vec::new(alloc);
    for _ in 0..ranks(n) {
        lists.push(Vec::new(alloc))?;
    }
    Ok(lists)
}

/// The clause of a number, or the empty one if there is none.
fn clause_of(clauses: &Formula, number: u32) -> &[Lit] {
    if number == 0 || number > clauses.len() {
        return &[];
    }
    clauses.clause(number)
}

/// Whether the clause of a number is live.
fn is_live(states: &[State], number: u32) -> bool {
    match states.get((number as usize).wrapping_sub(1)) {
        Some(state) => state.is_live,
        None => false,
    }
}

/// Takes dead clauses out of the list of a literal, of whose clauses at most `live` are live, if they are most of it.
fn sweep(lists: &mut Vec<Vec<Entry>>, l: Lit, live: u32, states: &[State]) {
    let most = (live as usize).saturating_mul(2).saturating_add(FEW);
    if let Some(list) = lists.get_mut(l.rank()) {
        if list.len() > most {
            list.retain(|entry| is_live(states, entry.number));
        }
    }
}

/// A length in 32 bits.
fn short(length: usize) -> u32 {
    u32::try_from(length).unwrap_or(u32::MAX)
}

/// A bit for each variable of a clause.
fn signature(clause: &[Lit]) -> u64 {
    let mut bits = 0u64;
    for l in clause {
        bits |= 1u64.wrapping_shl(l.var());
    }
    bits
}

/// Puts an entry into the list of a literal.
fn put(lists: &mut Vec<Vec<Entry>>, l: Lit, entry: Entry) -> Result<(), OutOfMemory> {
    if let Some(list) = lists.get_mut(l.rank()) {
        list.push(entry)?;
    }
    Ok(())
}

/// One clause more has a literal: how many these are.
fn raise(counts: &mut Vec<u32>, l: Lit) -> u32 {
    match counts.get_mut(l.rank()) {
        Some(count) => {
            *count = count.saturating_add(1);
            *count
        }
        None => 0,
    }
}

/// One clause fewer has a literal.
fn lower(counts: &mut Vec<u32>, l: Lit) {
    if let Some(count) = counts.get_mut(l.rank()) {
        *count = count.saturating_sub(1);
    }
}

/// Touches the variable of a literal.
fn touch(is_touched: &mut Vec<bool>, l: Lit) {
    if let Some(is_touched) = is_touched.get_mut(l.var() as usize) {
        *is_touched = true;
    }
}
