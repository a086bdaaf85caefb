//! Reading whole inputs.
ghost use Rattle.std.specs.Prelude.{◌≡◌, ◌≢◌, OnOk, Some, ◌<◌, ◌≤◌, ◌∷◌, [], length, IfOk, IfErr, IfSome, IsTrue};
ghost use Rattle.std.specs.Prelude.{IsErrAnd};
ghost use Rattle.lk_model.specs.Documents.Form.{is_in_form};
ghost use Rattle.lk_model.specs.Documents.Reading.{IsTextOfDocument};
ghost use Rattle.lk_model.specs.Texts.Dimacs.{Spells};
ghost use Rattle.lk_model.specs.Documents.Answers.{is_answer, IsAnswerText};
ghost use Rattle.edit_text.specs.LiveClauses.{live_of};
ghost use Rattle.edit_text.specs.Edits.{CanBeMade};
ghost use Rattle.edit_text.specs.EditText.{IsEdits};
ghost use Rattle.line_text.specs.LineReading.{CanComplete};
ghost use Rattle.lk_outside.specs.Reads.{ReadTakes};
ghost use Rattle.lk_outside.specs.Causes.{HasCause, TellsTheSame};
ghost use Rattle.command_inputs.specs.LineTexts.{IsReadAs};
ghost use Rattle.command_stops.specs.Stops.{StopsText};
ghost use Rattle.command_inputs.specs.Inputs.{nothing_known, AreRead, IsModelRead, StopsReading, StopsOn};
ghost use Rattle.command_stops.specs.Stops.{IsFailure};
ghost use Rattle.command_words.specs.declared.shape.Grammar.TheVariants.{Formula as FormulaText};
ghost use Rattle.command_words.specs.declared.shape.Grammar.TheVariants.{Document as DocumentText, Model as ModelText};
ghost use Rattle.command_words.specs.declared.shape.Grammar.TheVariants.{Answer as AnswerText, Edits as EditsText};

use answer_check::{Answer, answer_reader};
use cert_text::document_reader;
use command_stops::{Stop, read_piece, start_text};
use dimacs_reader::Reader;
use edit_text::{Edit, EditsReader};
use line_pieces::PieceReader;
use line_text::LineReader;
use lk_model::{Document, Formula, List, ReadStop as TextStop};
use lk_outside::Shelf;
use model_text::ModelReader;
use partial_assign::Partial;
use std::alloc::Global;

/// How many bytes are asked for at a time.
const PIECE: usize = 65_536;

/// Reads the formula under a name.
pub fn read_formula<H: Shelf>(alloc: Global, shelf: &mut H, name: &str) -> Result<Formula, Stop>
    ensures told { TellsTheSame (H.told shelf.old) (H.told shelf.new) }
    ensures formula { IfOk result (λ f. IfSome (H.told shelf.old name.now) (λ bytes. Spells bytes f)) }
    ensures stop { IfErr result
        (StopsReading FormulaText nothing_known (H.told shelf.old name.now) (H.ailing shelf.new)) }
    ensures current { IsErrAnd result (λ s. s ≡ Stop.Read) → H.current shelf.new ≡ Some name.now }
    ensures cause { HasCause (H.faults shelf.old) (H.faults shelf.new) (IsErrAnd result (λ s. s ≡ Stop.Read)) }
    ensures well { IsTrue (H.ailing shelf.new) → IsErrAnd result IsFailure }
{
    let mut piece = vec![in alloc; 0u8; PIECE]?;
    start_text(shelf, name)?;
    read_started(alloc, shelf, piece.as_mut_slice())
}

/// Reads what is left of the started text.
fn read_started<H: Shelf>(alloc: Global, shelf: &mut H, piece: &mut [u8]) -> Result<Formula, Stop>
    requires started { IsTrue (H.started shelf.old) }
    requires room { 0 < length piece.old }
    ensures told { TellsTheSame (H.told shelf.old) (H.told shelf.new) }
    ensures formula { IfOk result (λ f. IfSome (H.unread shelf.old) (λ bytes. Spells bytes f)) }
    ensures stop { IfErr result (StopsReading FormulaText nothing_known (H.unread shelf.old) (H.ailing shelf.new)) }
    ensures current { H.current shelf.new ≡ H.current shelf.old }
    ensures cause { HasCause (H.faults shelf.old) (H.faults shelf.new) (IsErrAnd result (λ s. s ≡ Stop.Read)) }
    ensures well { IsTrue (H.ailing shelf.new) → IsErrAnd result IsFailure }
{
    let mut reader = Reader::new(alloc);
    'pieces: loop {
        let count = read_piece(shelf, piece)?;
        if count == 0 {
            break 'pieces;
        }
        reader.feed(&piece[..count])?;
    }
    Ok(reader.finish()?)
}

/// A formula and a document.
#[derive(Drop)]
pub struct Checked {
    /// The formula.
    pub formula: Formula,
    /// The document, which is in form.
    pub document: Document,
}

/// Reads the formula under the first name, and then the document under the second.
pub fn read_checked<H: Shelf>(
    alloc: Global,
    shelf: &mut H,
    formula: &str,
    document: &str,
) -> Result<Checked, Stop>
    ensures told { TellsTheSame (H.told shelf.old) (H.told shelf.new) }
    ensures read { IfOk result (λ r. AreRead (H.told shelf.old) nothing_known (FormulaText ∷ DocumentText ∷ [])
        (formula.now ∷ document.now ∷ []) (r.formula, (r.document, tt))) }
    ensures form { IfOk result (λ r. IsTrue (is_in_form r.document)) }
    ensures stop { IfErr result (StopsOn (H.told shelf.old) nothing_known (FormulaText ∷ DocumentText ∷ [])
        (formula.now ∷ document.now ∷ []) (H.ailing shelf.new) (H.current shelf.new)) }
    ensures cause { HasCause (H.faults shelf.old) (H.faults shelf.new) (IsErrAnd result (λ s. s ≡ Stop.Read)) }
    ensures well { IsTrue (H.ailing shelf.new) → IsErrAnd result IsFailure }
{
    let formula = read_formula(alloc, shelf, formula)?;
    let document = read_document(alloc, shelf, document)?;
    Ok(Checked { formula, document })
}

/// Reads the document under a name. It is in form.
fn read_document<H: Shelf>(alloc: Global, shelf: &mut H, name: &str) -> Result<Document, Stop>
    ensures told { TellsTheSame (H.told shelf.old) (H.told shelf.new) }
    ensures document { IfOk result (λ d. IfSome (H.told shelf.old name.now) (λ bytes. IsTextOfDocument bytes d)) }
    ensures form { IfOk result (λ d. IsTrue (is_in_form d)) }
    ensures stop { IfErr result
        (StopsReading DocumentText nothing_known (H.told shelf.old name.now) (H.ailing shelf.new)) }
    ensures current { IsErrAnd result (λ s. s ≡ Stop.Read) → H.current shelf.new ≡ Some name.now }
    ensures cause { HasCause (H.faults shelf.old) (H.faults shelf.new) (IsErrAnd result (λ s. s ≡ Stop.Read)) }
    ensures well { IsTrue (H.ailing shelf.new) → IsErrAnd result IsFailure }
{
    let reader = document_reader(alloc)?;
    let read = read_by_lines(alloc, shelf, name, reader)?;
    match read {
        Ok(document) => Ok(document),
        Err(stop) => Err(Stop::from(stop)),
    }
}

/// Reads the model under a name, for the variables of a formula.
pub fn read_values<H: Shelf>(
    alloc: Global,
    shelf: &mut H,
    name: &str,
    formula: &Formula,
) -> Result<Partial, Stop>
    ensures told { TellsTheSame (H.told shelf.old) (H.told shelf.new) }
    ensures model { IfOk result (IsModelRead (H.told shelf.old name.now) formula.now) }
    ensures stop { IfErr result (StopsReading ModelText formula.now (H.told shelf.old name.now) (H.ailing shelf.new)) }
    ensures current { IsErrAnd result (λ s. s ≡ Stop.Read) → H.current shelf.new ≡ Some name.now }
    ensures cause { HasCause (H.faults shelf.old) (H.faults shelf.new) (IsErrAnd result (λ s. s ≡ Stop.Read)) }
    ensures well { IsTrue (H.ailing shelf.new) → IsErrAnd result IsFailure }
{
    let mut piece = vec![in alloc; 0u8; PIECE]?;
    start_text(shelf, name)?;
    read_started_model(alloc, shelf, piece.as_mut_slice(), formula)
}

/// Reads what is left of the started text as a model, for the variables of a formula. Behind a line that is
/// refused nothing more is read.
fn read_started_model<H: Shelf>(
    alloc: Global,
    shelf: &mut H,
    piece: &mut [u8],
    formula: &Formula,
) -> Result<Partial, Stop>
    requires started { IsTrue (H.started shelf.old) }
    requires room { 0 < length piece.old }
    ensures told { TellsTheSame (H.told shelf.old) (H.told shelf.new) }
    ensures model { IfOk result (IsModelRead (H.unread shelf.old) formula.now) }
    ensures stop { IfErr result (StopsReading ModelText formula.now (H.unread shelf.old) (H.ailing shelf.new)) }
    ensures current { H.current shelf.new ≡ H.current shelf.old }
    ensures cause { HasCause (H.faults shelf.old) (H.faults shelf.new) (IsErrAnd result (λ s. s ≡ Stop.Read)) }
    ensures well { IsTrue (H.ailing shelf.new) → IsErrAnd result IsFailure }
{
    let mut reader = ModelReader::new(alloc, formula.vars())?;
    'pieces: loop {
        let count = read_piece(shelf, piece)?;
        if count == 0 {
            break 'pieces;
        }
        if let Err(stop) = reader.feed(&piece[..count]) {
            return Err(Stop::of_model(stop));
        }
    }
    match reader.finish() {
        Ok(model) => Ok(model),
        Err(stop) => Err(Stop::of_model(stop)),
    }
}

/// A formula and an answer.
#[derive(Drop)]
pub struct Answered {
    /// The formula.
    pub formula: Formula,
    /// The answer, which is in form for the formula's variables and clauses.
    pub answer: Answer,
}

/// Reads the formula under the first name, and then the answer under the second.
pub fn read_answered<H: Shelf>(
    alloc: Global,
    shelf: &mut H,
    formula_name: &str,
    answer_name: &str,
) -> Result<Answered, Stop>
    ensures told { TellsTheSame (H.told shelf.old) (H.told shelf.new) }
    ensures read { IfOk result (λ r. AreRead (H.told shelf.old) nothing_known (FormulaText ∷ AnswerText ∷ [])
        (formula_name.now ∷ answer_name.now ∷ []) (r.formula, (r.answer, tt))) }
    ensures form { IfOk result (λ r. IsTrue (is_answer r.formula.vars (length r.formula.clauses) r.answer)) }
    ensures stop { IfErr result (StopsOn (H.told shelf.old) nothing_known (FormulaText ∷ AnswerText ∷ [])
        (formula_name.now ∷ answer_name.now ∷ []) (H.ailing shelf.new) (H.current shelf.new)) }
    ensures cause { HasCause (H.faults shelf.old) (H.faults shelf.new) (IsErrAnd result (λ s. s ≡ Stop.Read)) }
    ensures well { IsTrue (H.ailing shelf.new) → IsErrAnd result IsFailure }
{
    let formula = read_formula(alloc, shelf, formula_name)?;
    let answer = read_answer_of(alloc, shelf, answer_name, &formula)?;
    Ok(Answered { formula, answer })
}

/// Reads the answer under a name, for the variables and the clauses of a formula. It is in form for them.
fn read_answer_of<H: Shelf>(
    alloc: Global,
    shelf: &mut H,
    name: &str,
    formula: &Formula,
) -> Result<Answer, Stop>
    ensures told { TellsTheSame (H.told shelf.old) (H.told shelf.new) }
    ensures answer { IfOk result
        (λ a. IfSome (H.told shelf.old name.now)
        (λ bytes. IsAnswerText formula.now.vars (length formula.now.clauses) bytes a)) }
    ensures form { IfOk result (λ a. IsTrue (is_answer formula.now.vars (length formula.now.clauses) a)) }
    ensures stop { IfErr result (StopsReading AnswerText formula.now (H.told shelf.old name.now) (H.ailing shelf.new)) }
    ensures current { IsErrAnd result (λ s. s ≡ Stop.Read) → H.current shelf.new ≡ Some name.now }
    ensures cause { HasCause (H.faults shelf.old) (H.faults shelf.new) (IsErrAnd result (λ s. s ≡ Stop.Read)) }
    ensures well { IsTrue (H.ailing shelf.new) → IsErrAnd result IsFailure }
{
    let reader = answer_reader(formula.vars(), formula.len());
    let read = read_by_lines(alloc, shelf, name, reader)?;
    match read {
        Ok(answer) => Ok(answer),
        Err(stop) => Err(Stop::of_answer(stop)),
    }
}

/// A formula and edits of its clauses.
#[derive(Drop)]
pub struct Edited {
    /// The formula.
    pub formula: Formula,
    /// The edits, in their order, which can be made one after the other.
    pub edits: List<Edit>,
}

/// Reads the formula under the first name, and then the edits of its clauses under the second.
pub fn read_edited<H: Shelf>(
    alloc: Global,
    shelf: &mut H,
    formula_name: &str,
    edits_name: &str,
) -> Result<Edited, Stop>
    ensures told { TellsTheSame (H.told shelf.old) (H.told shelf.new) }
    ensures read { IfOk result (λ r. AreRead (H.told shelf.old) nothing_known (FormulaText ∷ EditsText ∷ [])
        (formula_name.now ∷ edits_name.now ∷ []) (r.formula, (r.edits, tt))) }
    ensures made { IfOk result (λ r. CanBeMade (live_of r.formula) r.edits) }
    ensures stop { IfErr result (StopsOn (H.told shelf.old) nothing_known (FormulaText ∷ EditsText ∷ [])
        (formula_name.now ∷ edits_name.now ∷ []) (H.ailing shelf.new) (H.current shelf.new)) }
    ensures cause { HasCause (H.faults shelf.old) (H.faults shelf.new) (IsErrAnd result (λ s. s ≡ Stop.Read)) }
    ensures well { IsTrue (H.ailing shelf.new) → IsErrAnd result IsFailure }
{
    let formula = read_formula(alloc, shelf, formula_name)?;
    let edits = read_edits_of(alloc, shelf, edits_name, &formula)?;
    Ok(Edited { formula, edits })
}

/// Reads the edits under a name, of the clauses of a formula. They can be made one after the other.
fn read_edits_of<H: Shelf>(
    alloc: Global,
    shelf: &mut H,
    name: &str,
    formula: &Formula,
) -> Result<List<Edit>, Stop>
    ensures told { TellsTheSame (H.told shelf.old) (H.told shelf.new) }
    ensures edits { IfOk result (λ edits. IfSome (H.told shelf.old name.now) (IsEdits formula.now edits)) }
    ensures made { IfOk result (CanBeMade (live_of formula.now)) }
    ensures stop { IfErr result (StopsReading EditsText formula.now (H.told shelf.old name.now) (H.ailing shelf.new)) }
    ensures current { IsErrAnd result (λ s. s ≡ Stop.Read) → H.current shelf.new ≡ Some name.now }
    ensures cause { HasCause (H.faults shelf.old) (H.faults shelf.new) (IsErrAnd result (λ s. s ≡ Stop.Read)) }
    ensures well { IsTrue (H.ailing shelf.new) → IsErrAnd result IsFailure }
{
    let mut piece = vec![in alloc; 0u8; PIECE]?;
    start_text(shelf, name)?;
    read_started_edits(alloc, shelf, piece.as_mut_slice(), formula)
}

/// Reads what is left of the started text, as edits of the clauses of a formula.
fn read_started_edits<H: Shelf>(
    alloc: Global,
    shelf: &mut H,
    piece: &mut [u8],
    formula: &Formula,
) -> Result<List<Edit>, Stop>
    requires started { IsTrue (H.started shelf.old) }
    requires room { 0 < length piece.old }
    ensures told { TellsTheSame (H.told shelf.old) (H.told shelf.new) }
    ensures edits { IfOk result (λ edits. IfSome (H.unread shelf.old) (IsEdits formula.now edits)) }
    ensures made { IfOk result (CanBeMade (live_of formula.now)) }
    ensures stop { IfErr result (StopsReading EditsText formula.now (H.unread shelf.old) (H.ailing shelf.new)) }
    ensures current { H.current shelf.new ≡ H.current shelf.old }
    ensures cause { HasCause (H.faults shelf.old) (H.faults shelf.new) (IsErrAnd result (λ s. s ≡ Stop.Read)) }
    ensures well { IsTrue (H.ailing shelf.new) → IsErrAnd result IsFailure }
{
    let mut reader = EditsReader::new(alloc, formula)?;
    'pieces: loop {
        let count = read_piece(shelf, piece)?;
        if count == 0 {
            break 'pieces;
        }
        reader.feed(&piece[..count])?;
    }
    Ok(reader.finish()?)
}

/// Reads the text under a name by a reader of its lines: its value, or where the reader refuses it. Behind a
/// line that is refused nothing more is read.
fn read_by_lines<H: Shelf, R: LineReader + Drop>(
    alloc: Global,
    shelf: &mut H,
    name: &str,
    reader: R,
) -> Result<Result<R::Value, TextStop>, Stop>
    requires fits { R.fits reader }
    requires first { R.count reader ≡ 0 }
    requires completed { CanComplete (R.completes reader) }
    ensures told { TellsTheSame (H.told shelf.old) (H.told shelf.new) }
    ensures read { IfOk result (IsReadAs (R.completes reader) (H.told shelf.old name.now)) }
    ensures stop { IfErr result (StopsText (H.ailing shelf.new)) }
    ensures current { IsErrAnd result (λ s. s ≡ Stop.Read) → H.current shelf.new ≡ Some name.now }
    ensures cause { HasCause (H.faults shelf.old) (H.faults shelf.new) (IsErrAnd result (λ s. s ≡ Stop.Read)) }
    ensures well { IsTrue (H.ailing shelf.new) → IsErrAnd result IsFailure }
{
    let mut piece = vec![in alloc; 0u8; PIECE]?;
    start_text(shelf, name)?;
    read_started_lines(alloc, shelf, piece.as_mut_slice(), reader)
}

/// Reads what is left of the started text by a reader of its lines.
fn read_started_lines<H: Shelf, R: LineReader + Drop>(
    alloc: Global,
    shelf: &mut H,
    piece: &mut [u8],
    reader: R,
) -> Result<Result<R::Value, TextStop>, Stop>
    requires started { IsTrue (H.started shelf.old) }
    requires room { 0 < length piece.old }
    requires fits { R.fits reader }
    requires first { R.count reader ≡ 0 }
    requires completed { CanComplete (R.completes reader) }
    ensures told { TellsTheSame (H.told shelf.old) (H.told shelf.new) }
    ensures read { IfOk result (IsReadAs (R.completes reader) (H.unread shelf.old)) }
    ensures stop { IfErr result (StopsText (H.ailing shelf.new)) }
    ensures current { H.current shelf.new ≡ H.current shelf.old }
    ensures cause { HasCause (H.faults shelf.old) (H.faults shelf.new) (IsErrAnd result (λ s. s ≡ Stop.Read)) }
    ensures well { IsTrue (H.ailing shelf.new) → IsErrAnd result IsFailure }
{
    let mut pieces = PieceReader::new(alloc, reader);
    'pieces: loop {
        let count = read_piece(shelf, piece)?;
        if count == 0 {
            break 'pieces;
        }
        if let Err(stop) = pieces.feed(alloc, &piece[..count]) {
            return Ok(Err(stop));
        }
    }
    Ok(pieces.finish())
}
