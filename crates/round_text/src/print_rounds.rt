//! The lines of rounds, which the class general and unfinished documents have.
ghost use Rattle.std.specs.Prelude.{◌≡◌, ◌++◌, ◌∷◌, [], OnOk, map};
ghost use Rattle.std.specs.List.{flat_map};
ghost use Rattle.std.specs.Fmt.{decimal, signed_decimal};
ghost use Rattle.lk_model.specs.Texts.PlainText.{line};
ghost use Rattle.lk_model.specs.Documents.Text.{round_lines, step_line};
ghost use Rattle.line_text.specs.Spaced.{spaced};
ghost use Rattle.round_text.specs.StepWords.{step_words, turn_words};

use line_text::{put, put_closing_zero, put_keyword, put_literal, put_literals, put_number};
use lk_model::{OutOfMemory, Round, Step, Turn};

/// Appends the lines of each round, one round after another. Fails only if memory runs out.
pub fn put_rounds(out: &mut Vec<u8>, rounds: &[Round]) -> Result<(), OutOfMemory>
    ensures { OnOk result (out.new.items
        ≡ out.old.items ++ flat_map line (flat_map round_lines rounds.now)) }
{
    for round in rounds {
        put_round(out, round)?;
    }
    Ok(())
}

/// Appends the lines of a round: `c round`, and its steps. Fails only if memory runs out.
pub fn put_round(out: &mut Vec<u8>, round: &Round) -> Result<(), OutOfMemory>
    ensures { OnOk result (out.new.items
        ≡ out.old.items ++ flat_map line (round_lines round.now)) }
{
    put(out, b"c round\n")?;
    put_steps(out, round.steps.as_slice())
}

fn put_steps(out: &mut Vec<u8>, steps: &[Step]) -> Result<(), OutOfMemory>
    ensures { OnOk result (out.new.items
        ≡ out.old.items ++ flat_map line (map step_line steps.now)) }
{
    for step in steps {
        put_step(out, step)?;
    }
    Ok(())
}

fn put_step(out: &mut Vec<u8>, step: &Step) -> Result<(), OutOfMemory>
    ensures { OnOk result (out.new.items ≡ out.old.items ++ line (step_line step.now)) }
{
    put_keyword(out, b"step")?;
    put_step_words(out, step)?;
    put_closing_zero(out)
}

/// Appends the words of a step between its keyword and its closing 0, each with a space after it.
fn put_step_words(out: &mut Vec<u8>, step: &Step) -> Result<(), OutOfMemory>
    ensures { OnOk result (out.new.items ≡ out.old.items ++ spaced (step_words step.now)) }
{
    put_number(out, step.number, b' ')?;
    put_literals(out, step.clause.as_slice())?;
    put(out, b"0 ")?;
    put_number(out, step.first, b' ')?;
    put_turns(out, step.turns.as_slice())
}

/// Appends the literals and numbers of turns, each with a space after it.
fn put_turns(out: &mut Vec<u8>, turns: &[Turn]) -> Result<(), OutOfMemory>
    ensures { OnOk result (out.new.items ≡ out.old.items ++ spaced (turn_words turns.now)) }
{
    for turn in turns {
        put_turn(out, *turn)?;
    }
    Ok(())
}

fn put_turn(out: &mut Vec<u8>, turn: Turn) -> Result<(), OutOfMemory>
    ensures { OnOk result (out.new.items
        ≡ out.old.items ++ spaced (signed_decimal turn.lit ∷ decimal turn.«with» ∷ [])) }
{
    put_literal(out, turn.lit, b' ')?;
    put_number(out, turn.with, b' ')
}
