//! One line more of a model as solvers print it.
ghost use Rattle.std.specs.Prelude.{◌≡◌, ◌≤◌, ◌∷◌, [], ℤ, List, drop, length, IsTrue};
ghost use Rattle.lk_model.specs.Formulas.Literal.{is_literal};
ghost use Rattle.lk_model.specs.Held.PartialValues.{assignment_by};
ghost use Rattle.lk_model.specs.Texts.ModelText.{is_satisfiable};
ghost use Rattle.lk_model.specs.Texts.NumberWords.{number};
ghost use Rattle.lk_text.specs.Cutting.{is_one_line};
ghost use Rattle.model_text.specs.ModelTexts.{Gives, TakesLiteral, TakesLine, TakesWords, number_up_to, words_in};

use lk_model::Lit;
use lk_text::{NumberWord, classify, next_word};
use partial_assign::Partial;

/// What was read of a model text so far: the values that its literals gave, and whether a 0 closed them.
#[derive(Drop)]
pub(crate) struct ModelDraft {
    pub values: Partial,
    pub closed: bool,
}

/// Takes the next line, or reports that it is faulty.
pub(crate) fn take_line(draft: &mut ModelDraft, line: &[u8]) -> bool
    requires { IsTrue (is_one_line line.now) }
    ensures vars { length draft.new.values ≡ length draft.old.values }
    ensures taken { (numbers : List ℤ) → Gives numbers draft.old
        → TakesLine (length draft.old.values) numbers (words_in line.now) result draft.new }
{
    let Some(word) = next_word(line, 0) else {
        return true;
    };
    let first = &line[word.begin..word.end];
    if first[0] == b'c' {
        return true;
    }
    if first == b"s".as_slice() {
        return says_satisfiable(line, word.next);
    }
    if first == b"v".as_slice() {
        return take_words(draft, line, word.next);
    }
    false
}

/// Whether `SATISFIABLE` and no other word stands from there on.
fn says_satisfiable(line: &[u8], from: usize) -> bool
    requires within { from ≤ length line.now }
    requires one_line { IsTrue (is_one_line line.now) }
    ensures { result ≡ is_satisfiable (words_in (drop from line.now)) }
{
    let Some(word) = next_word(line, from) else {
        return false;
    };
    if let Some(_) = next_word(line, word.next) {
        return false;
    }
    &line[word.begin..word.end] == b"SATISFIABLE".as_slice()
}

/// Takes the words from there on, or reports that one of them is faulty.
fn take_words(draft: &mut ModelDraft, line: &[u8], begin: usize) -> bool
    requires within { begin ≤ length line.now }
    requires one_line { IsTrue (is_one_line line.now) }
    ensures vars { length draft.new.values ≡ length draft.old.values }
    ensures taken { (numbers : List ℤ) → Gives numbers draft.old
        → TakesWords (length draft.old.values) numbers (words_in (drop begin line.now)) result draft.new }
{
    let mut from = begin;
    while let Some(cut) = next_word(line, from) {
        if !take_word(draft, &line[cut.begin..cut.end]) {
            return false;
        }
        from = cut.next;
    }
    true
}

/// Takes a word after `v`, or reports that it is faulty: no number, one after the 0, or a literal
/// whose complement was given.
fn take_word(draft: &mut ModelDraft, word: &[u8]) -> bool
    ensures vars { length draft.new.values ≡ length draft.old.values }
    ensures taken { (numbers : List ℤ) → Gives numbers draft.old
        → TakesWords (length draft.old.values) numbers (word.now ∷ []) result draft.new }
{
    let Some(number) = number_up_to(word, draft.values.vars()) else {
        return false;
    };
    if draft.closed {
        return false;
    }
    let Some(lit) = Lit::new(number) else {
        draft.closed = true;
        return true;
    };
    make_true(&mut draft.values, lit)
}

/// Makes a literal true unless it is false.
fn make_true(values: &mut Partial, lit: Lit) -> bool
    requires { IsTrue (is_literal (length values.old) lit) }
    ensures vars { length values.new ≡ length values.old }
    ensures made { TakesLiteral (assignment_by values.old) lit result (assignment_by values.new) }
{
    if let Some(value) = values.value(lit.var()) {
        return value == lit.positive();
    }
    values.put(lit);
    true
}

/// The number that a word writes, where it is 0 or a literal of a variable up to n.
fn number_up_to(word: &[u8], n: u32) -> Option<i32>
    requires { n ≤ 1000000 }
    ensures { result ≡ number_up_to n (number word.now) }
{
    let NumberWord::Is(number) = classify(word) else {
        return None;
    };
    let Ok(number) = i32::try_from(number) else {
        return None;
    };
    if number.unsigned_abs() <= n {
        Some(number)
    } else {
        None
    }
}
