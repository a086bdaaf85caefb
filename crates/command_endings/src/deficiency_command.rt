//! How `deficiency` ends.
ghost use Rattle.std.specs.Prelude.{◌≡◌, ◌++◌, map, IfOk, OnOk};
ghost use Rattle.std.specs.List.{flat_map};
ghost use Rattle.lk_model.specs.Texts.PlainText.{line};
ghost use Rattle.command_words.specs.OptionRows.{values_of};
ghost use Rattle.command_endings.specs.Answering.{IsAnswer};
ghost use Rattle.command_endings.specs.Commands.Deficiency.{lines_of, own_words};

use crate::numbers::put_closed;
use command_words::{Command, Options};
use deficiency::{Deficiency, max_deficiency};
use line_text::{put, put_number};
use lk_model::{Formula, OutOfMemory, Own};
use status_lines::{Ending, Status};
use std::alloc::Global;

/// The maximal deficiency of a formula, with what shows it.
pub fn answer(alloc: Global, f: &Formula, options: &Options<'_>) -> Result<Ending, OutOfMemory>
    ensures { IfOk result (IsAnswer Command.Deficiency (values_of options.now) (f.now, tt)) }
{
    let found = max_deficiency(alloc, f)?;
    Ok(Ending {
        status: Status::Done,
        written: text_of(alloc, &found)?,
        said: Vec::new(alloc),
    })
}

/// The lines of a maximal deficiency.
fn text_of(alloc: Global, found: &Deficiency) -> Result<Vec<u8>, OutOfMemory>
    ensures { IfOk result (λ text. text.items ≡ flat_map line (lines_of found.now.value found.now.kept found.now.own)) }
{
    let mut text = Vec::new(alloc);
    put(&mut text, b"deficiency ")?;
    put_number(&mut text, u64::from(found.value), b'\n')?;
    put_closed(&mut text, b"subset", found.kept.as_slice())?;
    put_owns(&mut text, found.own.as_slice())?;
    Ok(text)
}

/// Appends a line for each entry.
fn put_owns(text: &mut Vec<u8>, owns: &[Own]) -> Result<(), OutOfMemory>
    ensures { OnOk result (text.new.items ≡ text.old.items ++ flat_map line (map own_words owns.now)) }
{
    for own in owns {
        put_own(text, *own)?;
    }
    Ok(())
}

/// Appends the line of an entry.
fn put_own(text: &mut Vec<u8>, own: Own) -> Result<(), OutOfMemory>
    ensures { OnOk result (text.new.items ≡ text.old.items ++ line (own_words own)) }
{
    put(text, b"own ")?;
    put_number(text, u64::from(own.pos), b' ')?;
    put_number(text, u64::from(own.var), b'\n')
}
