//! One line more of a text of edits.
ghost use Rattle.std.specs.Prelude.{◌≡◌, ◌≤◌, [], ℕ, List, IfOk, OnOk, min, ◌^◌, length, drop, IsTrue, option_map};
ghost use Rattle.lk_text.specs.Cutting.{is_one_line};
ghost use Rattle.model_text.specs.ModelTexts.{words_in};
ghost use Rattle.edit_text.specs.LiveClauses.{LiveClauses};
ghost use Rattle.edit_text.specs.EditText.{added, removed};
ghost use Rattle.edit_text.specs.Fed.{Tells, TakesLine, MakesIfAny, IsSoundDraft};
ghost use Rattle.edit_text.specs.Words.{entry_of, with_once};
ghost use Rattle.line_text.specs.FieldLists.{IsClauseOf};
ghost use Rattle.lk_model.specs.Formulas.Literal.{is_literal};
ghost use Rattle.lk_model.specs.Lists.{is_empty};
ghost use Rattle.lk_model.specs.Texts.NumberWords.{number};
ghost use Rattle.edit_text.specs.declared.edit.Edit.{Edit as EditOf};
ghost use Rattle.edit_text.specs.declared.edit.Edit.TheVariants.{Add, Remove};

use crate::draft::{Draft, add, remove};
use crate::edit::EditFault;
use lk_model::{Lit, OpenClause, OutOfMemory};
use lk_text::{NumberWord, classify, next_word, read_natural};

/// Takes the next line, or reports what is wrong with it.
pub(crate) fn take_line(draft: &mut Draft, line: &[u8]) -> Result<Option<EditFault>, OutOfMemory>
    requires sound { IsSoundDraft draft.old }
    requires line { IsTrue (is_one_line line.now) }
    ensures sound { OnOk result (IsSoundDraft draft.new) }
    ensures taken { (s : LiveClauses) (edits : List EditOf) → Tells s edits draft.old
        → IfOk result (λ fault. TakesLine s edits (words_in line.now) fault draft.new) }
{
    let Some(word) = next_word(line, 0) else {
        return Ok(None);
    };
    let first = &line[word.begin..word.end];
    if first[0] == b'c' {
        return Ok(None);
    }
    if first == b"a".as_slice() {
        return take_added(draft, line, word.next);
    }
    if first == b"d".as_slice() {
        return take_removed(draft, line, word.next);
    }
    Ok(Some(EditFault::NotAnEdit))
}

/// Adds the clause that the words from there on write, or reports what is wrong with them.
fn take_added(draft: &mut Draft, line: &[u8], from: usize) -> Result<Option<EditFault>, OutOfMemory>
    requires sound { IsSoundDraft draft.old }
    requires within { from ≤ length line.now }
    requires line { IsTrue (is_one_line line.now) }
    ensures sound { OnOk result (IsSoundDraft draft.new) }
    ensures taken { (s : LiveClauses) (edits : List EditOf) → Tells s edits draft.old
        → IfOk result
        (λ fault. MakesIfAny s edits
        (option_map Add (added s.held.vars (words_in (drop from line.now)))) fault draft.new) }
{
    draft.clause.clear();
    if !read_clause(&mut draft.clause, line, from)? {
        return Ok(Some(EditFault::NotAnEdit));
    }
    add(draft)
}

/// Removes the clause whose number is the word from there on, or reports what is wrong with that.
fn take_removed(
    draft: &mut Draft,
    line: &[u8],
    from: usize,
) -> Result<Option<EditFault>, OutOfMemory>
    requires sound { IsSoundDraft draft.old }
    requires within { from ≤ length line.now }
    requires line { IsTrue (is_one_line line.now) }
    ensures sound { OnOk result (IsSoundDraft draft.new) }
    ensures taken { (s : LiveClauses) (edits : List EditOf) → Tells s edits draft.old
        → IfOk result
        (λ fault. MakesIfAny s edits (option_map Remove (removed (words_in (drop from line.now)))) fault draft.new) }
{
    let Some(number) = removed_number(line, from) else {
        return Ok(Some(EditFault::NotAnEdit));
    };
    remove(draft, number)
}

/// The number, at least 1, that is the one word from there on, or 2^127 where it is greater.
fn removed_number(line: &[u8], from: usize) -> Option<u128>
    requires within { from ≤ length line.now }
    requires line { IsTrue (is_one_line line.now) }
    ensures { result ≡ option_map (λ k. min k (2 ^ 127)) (removed (words_in (drop from line.now))) }
{
    let Some(word) = next_word(line, from) else {
        return None;
    };
    if let Some(_) = next_word(line, word.next) {
        return None;
    }
    let Some(number) = read_natural(&line[word.begin..word.end]) else {
        return None;
    };
    if number == 0 {
        return None;
    }
    Some(number)
}

/// Reads the literals up to the 0 that is the last word into a clause without literals; repeats are dropped.
/// Returns whether the words are such a clause; if they are not, it may contain some.
fn read_clause(clause: &mut OpenClause, line: &[u8], begin: usize) -> Result<bool, OutOfMemory>
    requires empty { clause.old.literals ≡ [] }
    requires within { begin ≤ length line.now }
    requires line { IsTrue (is_one_line line.now) }
    ensures vars { clause.new.vars ≡ clause.old.vars }
    ensures read { IfOk result
        (λ is. IsClauseOf (added clause.old.vars (words_in (drop begin line.now))) is clause.new.literals) }
{
    let n = clause.vars();
    let mut from = begin;
    while let Some(cut) = next_word(line, from) {
        match entry_in(&line[cut.begin..cut.end], n) {
            Entry::Other => return Ok(false),
            Entry::Zero => return Ok(is_end(line, cut.next)),
            Entry::Literal(literal) => add_once(clause, literal)?,
        }
        from = cut.next;
    }
    Ok(false)
}

/// What a word stands for in a clause.
pub(crate) enum Entry {
    /// A literal of a variable up to n.
    Literal(Lit),
    /// The 0 that closes the clause.
    Zero,
    /// Nothing.
    Other,
}

/// What a word stands for in a clause over the variables from 1 to n.
fn entry_in(word: &[u8], n: u32) -> Entry
    requires { n ≤ 1000000 }
    ensures { result ≡ entry_of n (number word.now) }
{
    let NumberWord::Is(number) = classify(word) else {
        return Entry::Other;
    };
    if number.unsigned_abs() > u128::from(n) {
        return Entry::Other;
    }
    match Lit::new(number as i32) {
        Some(literal) => Entry::Literal(literal),
        None => Entry::Zero,
    }
}

/// Adds a literal that the clause does not contain.
fn add_once(clause: &mut OpenClause, literal: Lit) -> Result<(), OutOfMemory>
    requires { IsTrue (is_literal clause.old.vars literal) }
    ensures vars { clause.new.vars ≡ clause.old.vars }
    ensures added { OnOk result (clause.new.literals ≡ with_once clause.old.literals literal) }
{
    if !clause.holds(literal) {
        clause.push(literal)?;
    }
    Ok(())
}

/// Whether no word stands from there on.
fn is_end(line: &[u8], from: usize) -> bool
    requires within { from ≤ length line.now }
    requires line { IsTrue (is_one_line line.now) }
    ensures { result ≡ is_empty (words_in (drop from line.now)) }
{
    match next_word(line, from) {
        Some(_) => false,
        None => true,
    }
}
