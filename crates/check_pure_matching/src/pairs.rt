//! The check of the pairs of a pure document.
ghost use Rattle.std.specs.Prelude.{◌≡◌, ◌≤◌, ◌<◌, ◌+◌, ◌*◌, length, map, IfOk, IsTrue};
ghost use Rattle.std.specs.List.{list_all};
ghost use Rattle.lk_model.specs.Lists.{rises_within};
ghost use Rattle.lk_model.specs.Formulas.Literal.{is_literal};
ghost use Rattle.lk_model.specs.Formulas.Lean.{are_positions};
ghost use Rattle.lk_model.specs.Formulas.Crossed.{no_variable};
ghost use Rattle.lk_model.specs.Documents.Form.{is_pair};
ghost use Rattle.lk_model.specs.Checks.PureChecks.{bad_pair};
ghost use Rattle.lk_model.specs.declared.document.Pair.{Pair};
ghost use Rattle.check_tables.specs.Occurring.{AreOccurring, NotesVariables};
ghost use Rattle.check_pure_matching.specs.Pairs.{AreNamed, AreShown, NotesLiterals, is_bad_at};

use check_tables::{LiteralSet, Workers};
use lk_model::{DoneDocument, Formula, Lit, LitTable, OutOfMemory, Pair, VarSet};
use lk_outside::Gate;
use std::alloc::Global;
use std::thread::Threads;

/// What the kept clauses hold: the variables that occur in them, and the literals whose named position
/// is that of a kept clause with the literal.
#[derive(Drop)]
struct Seen {
    occurring: VarSet,
    shown: LiteralSet,
}

/// The first variable whose pair is missing, or is not wanted since the variable does not occur in the
/// kept clauses, or names a position that is not kept or lacks the literal; or none. The error says that
/// memory ran out.
///
/// One pass over the kept clauses finds what they hold.
pub fn bad_pair<R: Threads + Sync, G: Gate>(
    workers: &Workers<R, G>,
    alloc: Global,
    f: &Formula,
    d: &DoneDocument,
    pairs: &[Pair],
) -> Result<Option<u32>, OutOfMemory>
    requires kept { IsTrue (are_positions f.now d.now.kept) }
    requires rising { IsTrue (rises_within 0 f.now.vars (map (λ (q : Pair). q.var) pairs.now)) }
    requires pairs { IsTrue (list_all (is_pair (length f.now.clauses)) pairs.now) }
    ensures { IfOk result (λ place. place ≡ (bad_pair no_variable f.now d.now pairs.now).place) }
{
    let named = named_positions(alloc, f.vars(), pairs)?;
    let seen = seen_at(alloc, f, d.kept.as_slice(), &named)?;
    workers.least_place(f.vars(), &|v| is_bad(v, &named, &seen))
}

/// For each literal the position that the pair of its variable names for it, or 0.
fn named_positions(alloc: Global, n: u32, pairs: &[Pair]) -> Result<LitTable<u32>, OutOfMemory>
    requires small { n ≤ 1000000 }
    requires rising { IsTrue (rises_within 0 n (map (λ (q : Pair). q.var) pairs.now)) }
    ensures { IfOk result (λ named. AreNamed n pairs.now named) }
{
    let mut named = LitTable::new(alloc, n, 0u32)?;
    for pair in pairs {
        named[Lit::from_var(pair.var, true)] = pair.with;
        named[Lit::from_var(pair.var, false)] = pair.against;
    }
    Ok(named)
}

/// What the clauses at these positions hold.
fn seen_at(
    alloc: Global,
    f: &Formula,
    kept: &[u32],
    named: &LitTable<u32>,
) -> Result<Seen, OutOfMemory>
    requires kept { IsTrue (are_positions f.now kept.now) }
    requires named { length named.now ≡ 2 * f.now.vars + 2 }
    ensures occurring { IfOk result (λ seen. AreOccurring f.now kept.now seen.occurring) }
    ensures shown { IfOk result (λ seen. AreShown f.now kept.now named.now seen.shown) }
{
    let mut seen = Seen {
        occurring: VarSet::new(alloc, f.vars())?,
        shown: LiteralSet::new(alloc, f.vars())?,
    };
    for p in kept {
        seen.note(f.vars(), f.clause(*p), *p, named);
    }
    Ok(seen)
}

impl Seen {
    /// Notes what the clause at a position holds.
    fn note(&mut self, n: u32, clause: &[Lit], position: u32, named: &LitTable<u32>)
        requires clause { IsTrue (list_all (is_literal n) clause.now) }
        requires occurring { length self.old.occurring ≡ n }
        requires shown { length self.old.shown ≡ 2 * n + 2 }
        requires named { length named.now ≡ 2 * n + 2 }
        ensures occurring { NotesVariables n clause.now self.old.occurring self.new.occurring }
        ensures shown { NotesLiterals n clause.now position named.now self.old.shown self.new.shown }
    {
        self.occurring.add_clause(clause);
        for l in clause {
            if named[*l] == position {
                self.shown.add(*l);
            }
        }
    }
}

/// Whether the pair of a variable is missing, not wanted or not borne out.
fn is_bad(v: u32, named: &LitTable<u32>, seen: &Seen) -> bool
    requires first { 0 < v }
    requires last { v ≤ 1000000 }
    requires occurring { v ≤ length seen.now.occurring }
    requires shown { 2 * v + 1 < length seen.now.shown }
    requires named { 2 * v + 1 < length named.now }
    ensures { result ≡ is_bad_at named.now seen.now.occurring seen.now.shown v }
{
    let l = Lit::from_var(v, true);
    if named[l] == 0 {
        seen.occurring.has(v)
    } else {
        !seen.occurring.has(v) || !seen.shown.has(l) || !seen.shown.has(l.negated())
    }
}
