//! What a script says of the outside: its texts, and how it behaves.
use std::alloc::{AllocError, Global};
use std::test::Fail;

/// How many bytes move at a time, how many a sink takes, and the numbers of the calls that fail.
#[derive(Drop)]
pub(crate) struct Side {
    pub(crate) chunk: usize,
    pub(crate) room: usize,
    pub(crate) fails: Vec<u64>,
}

/// A text, and the name that it stands under.
#[derive(Drop)]
pub(crate) struct Text {
    pub(crate) name: String,
    pub(crate) bytes: Vec<u8>,
}

/// The texts, of which the first one of a name counts; the shelf and the two sinks; and what the last
/// run wrote.
#[derive(Drop)]
pub(crate) struct Script {
    pub(crate) texts: Vec<Text>,
    pub(crate) shelf: Side,
    pub(crate) out: Side,
    pub(crate) say: Side,
    pub(crate) written: Vec<u8>,
}

impl Side {
    /// One that never fails.
    fn new(alloc: Global, chunk: usize) -> Side {
        Side {
            chunk,
            room: 8192,
            fails: Vec::new(alloc),
        }
    }

    /// Becomes one that never fails.
    fn restart(&mut self, chunk: usize) {
        self.chunk = chunk;
        self.room = 8192;
        self.fails.clear();
    }

    /// Takes a setting.
    fn set(&mut self, setting: &str) -> Result<(), Fail> {
        let (key, rest) = setting.split_once(" ").unwrap_or((setting, ""));
        match key {
            "chunk" => self.chunk = size_of(rest)?,
            "room" => self.room = size_of(rest)?,
            "fails" => return set_numbers(&mut self.fails, rest),
            _ => return Err(Fail::from("no setting")),
        }
        Ok(())
    }
}

impl Script {
    /// The script before its first line.
    pub(crate) fn new(alloc: Global) -> Script {
        Script {
            texts: Vec::new(alloc),
            shelf: Side::new(alloc, 8),
            out: Side::new(alloc, 16),
            say: Side::new(alloc, 16),
            written: Vec::new(alloc),
        }
    }

    /// Becomes the script before its first line.
    fn restart(&mut self) {
        self.texts.clear();
        self.shelf.restart(8);
        self.out.restart(16);
        self.say.restart(16);
        self.written.clear();
    }

    /// Takes a line that runs nothing: its first word, and the rest.
    pub(crate) fn take(&mut self, alloc: Global, word: &str, rest: &str) -> Result<(), Fail> {
        match word {
            "" | "#" | "@" => {}
            "new" => self.restart(),
            "text" => return self.put(alloc, rest),
            "keep" => return self.keep(alloc, rest),
            "shelf" => return self.shelf.set(rest),
            "out" => return self.out.set(rest),
            "say" => return self.say.set(rest),
            _ => return Err(Fail::from("no line of a script")),
        }
        Ok(())
    }

    /// Puts a text under a name.
    fn put(&mut self, alloc: Global, line: &str) -> Result<(), Fail> {
        let (name, written) = line.split_once(" ").unwrap_or((line, ""));
        let text = text_of(alloc, written)?;
        insert(alloc, &mut self.texts, name, text.as_bytes())
    }

    /// Puts what the last run wrote under a name.
    fn keep(&mut self, alloc: Global, name: &str) -> Result<(), Fail> {
        insert(alloc, &mut self.texts, name, self.written.as_slice())
    }
}

/// Inserts a text before the others.
fn insert(alloc: Global, texts: &mut Vec<Text>, name: &str, bytes: &[u8]) -> Result<(), Fail> {
    texts.insert(0, text_under(alloc, name, bytes)?)?;
    Ok(())
}

/// The text of these bytes.
fn text_under(alloc: Global, name: &str, bytes: &[u8]) -> Result<Text, AllocError> {
    let name = String::from_str(alloc, name)?;
    let bytes = Vec::from_slice(alloc, bytes)?;
    Ok(Text { name, bytes })
}

/// The text that is written with `\n` and `\r`.
fn text_of(alloc: Global, written: &str) -> Result<String, AllocError> {
    let ends = written.replace(alloc, "\\n", "\n")?;
    ends.as_str().replace(alloc, "\\r", "\r")
}

/// The size that a word writes.
fn size_of(word: &str) -> Result<usize, Fail> {
    Ok(word.parse()?)
}

/// Puts the numbers that a text has in the place of others.
fn set_numbers(numbers: &mut Vec<u64>, text: &str) -> Result<(), Fail> {
    numbers.clear();
    for word in text.split_whitespace() {
        numbers.push(word.parse()?)?;
    }
    Ok(())
}
