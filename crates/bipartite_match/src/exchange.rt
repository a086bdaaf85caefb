//! The exchange of the pairs of a path that a search found.
ghost use Rattle.std.specs.Prelude.{◌≡◌, ◌<◌, ◌≤◌, ◌-◌, ℕ, List, length, slice_index, true, IsTrue};
ghost use Rattle.lk_model.specs.Formulas.Formula.{Cnf, is_formula};
ghost use Rattle.lk_model.specs.Lists.{among, rises_within};
ghost use Rattle.bipartite_match.specs.declared.augmenting.Start.{Start as AnyStart};
ghost use Rattle.bipartite_match.specs.declared.matching.Matching.{Matching as AMatching};
ghost use Rattle.bipartite_match.specs.Covers.{IsAugmented};
ghost use Rattle.bipartite_match.specs.Visiting.{EndsIn, CanSearch, with_own};

use crate::matching::Matching;
use crate::visits::{Visits, visit_at};
use lk_model::List;

/// Exchanges the pairs of the path that a search found, from its end back to where it began. Returns the position of
/// the clause there, which has a variable now.
pub fn augment_found(visits: &Visits, part: &[u32], m: &mut Matching) -> u32
    requires rises { (high : ℕ) × (rises_within 0 high part.now ≡ true) }
    requires found { (F : Cnf) × (from : AnyStart) × IsTrue (is_formula F) × CanSearch F part.now m.old from ×
        EndsIn F part.now m.old from visits.now.queue.items visits.now.place visits.now.end }
    ensures augmented { (F : Cnf) (from : AnyStart) → IsTrue (is_formula F) → CanSearch F part.now m.old from
        → EndsIn F part.now m.old from visits.now.queue.items visits.now.place visits.now.end →
        IsAugmented F part.now from m.old m.new result }
    ensures unmatched { m.new.unmatched ≡ m.old.unmatched }
    ensures seen { m.new.seen ≡ m.old.seen }
{
    let mut root = 0;
    let mut place = visits.place;
    let mut v = visits.end;
    'back: while v != 0 {
        let visit = visit_at(&visits.queue, place);
        root = visit.pos;
        take(m, index_of(part, root), root, v);
        v = visit.by;
        place = visit.from as usize;
    }
    root
}

/// As `augment_found`, in the positions of the variables alone, where no variable is kept for each clause: each clause
/// on the path takes the variable that leads on, and the one that it gives up is the next that is taken.
pub fn exchange(visits: &Visits, of_var: &mut List<u32>) -> u32
    requires found { (F : Cnf) × (part : List ℕ) × (m : AMatching) × (from : AnyStart) × (m.of_var ≡ of_var.old) ×
        IsTrue (is_formula F) × CanSearch F part m from ×
        EndsIn F part m from visits.now.queue.items visits.now.place visits.now.end }
    ensures augmented { (F : Cnf) (part : List ℕ) (m : AMatching) (from : AnyStart) → m.of_var ≡ of_var.old
        → IsTrue (is_formula F) → CanSearch F part m from
        → EndsIn F part m from visits.now.queue.items visits.now.place visits.now.end →
        (own : List ℕ) × IsAugmented F part from m (record m { of_clause = own; of_var = of_var.new }) result }
{
    let mut root = 0;
    let mut place = visits.place;
    let mut v = visits.end;
    'back: while v != 0 {
        let visit = visit_at(&visits.queue, place);
        root = visit.pos;
        of_var.set(v as usize - 1, root);
        v = visit.by;
        place = visit.from as usize;
    }
    root
}

// The clause at an index, which is at a position, gives its variable up, if it has one, and takes another one.
fn take(m: &mut Matching, index: usize, pos: u32, v: u32)
    requires index { index < length m.old.of_clause }
    requires some { 0 < v }
    requires variable { v ≤ length m.old.of_var }
    requires old { slice_index m.old.of_clause index ≤ length m.old.of_var }
    ensures { m.new ≡ with_own m.old index pos v }
{
    let old = m.of_clause.as_slice()[index];
    if old != 0 {
        m.of_var.set(old as usize - 1, 0);
    }
    m.of_clause.set(index, v);
    m.of_var.set(v as usize - 1, pos);
}

/// The index of a position among positions that rise. Where all up to it are there, it is read at once.
pub fn index_of(positions: &[u32], pos: u32) -> usize
    requires rises { (high : ℕ) × (rises_within 0 high positions.now ≡ true) }
    requires there { IsTrue (among positions.now pos) }
    ensures inside { result < length positions.now }
    ensures is { slice_index positions.now result ≡ pos }
{
    let first = (pos as usize).saturating_sub(1);
    if first < positions.len() && positions[first] == pos {
        return first;
    }
    match positions.binary_search(&pos) {
        Ok(index) => index,
        Err(index) => index,
    }
}
