//! The calls that a run makes on its shelf and its sinks, and what each of them gave.
use lk_outside::{Failed, StartStop};
use std::alloc::{AllocError, Global};
use std::cell::RefCell;
use std::fmt::Write;
use std::io;
use std::test::Fail;

/// The lines of the calls so far.
#[derive(Drop)]
struct Lines {
    text: String,
    // the word of the last line
    word: &'static str,
    // whether there was memory for all calls
    is_whole: bool,
}

impl Lines {
    /// Puts the start of a text in a line of its own.
    fn put_start(&mut self, name: &str, failed: bool) -> Result<(), AllocError> {
        self.word = "start";
        let end = if failed { " failed" } else { "" };
        write!(self.text, "\nstart {name}{end}")
    }

    /// Appends how many bytes were moved to those of the same word.
    fn put_move(
        &mut self,
        word: &'static str,
        moved: &Result<usize, Failed>,
    ) -> Result<(), AllocError> {
        if self.word != word {
            self.word = word;
            write!(self.text, "\n{word}")?;
        }
        match moved {
            Ok(count) => write!(self.text, " {count}"),
            Err(Failed) => write!(self.text, " failed"),
        }
    }

    /// Remembers whether a call was put.
    fn remember(&mut self, put: Result<(), AllocError>) {
        self.is_whole = self.is_whole && put.is_ok();
    }
}

/// The calls on a shelf and two sinks, in their order: a line for each start, and one for reads, or writes of
/// one sink, that follow one another.
#[derive(Drop)]
pub(crate) struct Calls {
    lines: RefCell<Lines>,
}

impl Calls {
    /// Before the first call.
    pub(crate) fn new(alloc: Global) -> Calls {
        Calls {
            lines: RefCell::new(Lines {
                text: String::new(alloc),
                word: "",
                is_whole: true,
            }),
        }
    }

    /// Notes the start of a text.
    pub(crate) fn start(&self, name: &str, started: &Result<(), StartStop>) {
        if let Ok(mut lines) = self.lines.try_borrow_mut() {
            let put = lines.put_start(name, started.is_err());
            lines.remember(put);
        }
    }

    /// Notes a call that moves bytes, under its word.
    pub(crate) fn moved(&self, word: &'static str, moved: &Result<usize, Failed>) {
        if let Ok(mut lines) = self.lines.try_borrow_mut() {
            let put = lines.put_move(word, moved);
            lines.remember(put);
        }
    }

    /// Prints the calls after a line `-- calls`.
    pub(crate) fn print<R: Print>(&self, rt: &R) -> Result<(), Fail> {
        match self.lines.try_borrow() {
            Ok(lines) if lines.is_whole => Ok(print_lines(rt, lines.text.as_str())?),
            _ => Err(Fail::from("not all calls were noted")),
        }
    }
}

fn print_lines<R: Print>(rt: &R, text: &str) -> io::Result<()> {
    println!(rt; "-- calls{text}")
}
