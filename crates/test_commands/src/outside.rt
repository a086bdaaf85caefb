//! A shelf and two sinks in memory, as a script says, whose calls are noted.
ghost use Rattle.lk_outside.specs.ShelfState.{bytes_under};
ghost use Rattle.std.specs.Prelude.{Some, is_some};

use crate::calls::Calls;
use crate::script::{Script, Side, Text};
use lk_model::{List, OutOfMemory};
use lk_outside::{Bytes, Failed, MemoryShelf, MemorySink, Name, Shelf, Sink, StartStop};
use std::alloc::Global;
use std::marker::Model;

/// A shelf in memory whose calls are noted.
#[derive(Drop)]
pub(crate) struct NotedShelf<'a> {
    shelf: MemoryShelf,
    calls: &'a Calls,
}

impl<'a> Model for NotedShelf<'a> {
    ghost use Rattle.lk_outside.specs.ShelfState.{ShelfState};

    ghost Value = { ShelfState };

    ghost view = { λ m. m.shelf };
}

impl<'a> Shelf for NotedShelf<'a> {
    ghost told = { λ s name. bytes_under s.files name };

    ghost unread = { λ s. s.unread };

    ghost started = { λ s. is_some s.unread };

    ghost current = { λ s. s.current };

    ghost ailing = { λ s. s.ailing };

    ghost faults = { λ s. s.faults };

    fn start(&mut self, name: &str) -> Result<(), StartStop> {
        let started = self.shelf.start(name);
        self.calls.start(name, &started);
        started
    }

    fn read(&mut self, piece: &mut [u8]) -> Result<usize, Failed> {
        let moved = self.shelf.read(piece);
        self.calls.moved("read", &moved);
        moved
    }
}

/// A sink in memory whose calls are noted under a word.
#[derive(Drop)]
pub(crate) struct NotedSink<'a> {
    sink: MemorySink,
    word: &'static str,
    calls: &'a Calls,
}

impl<'a> Model for NotedSink<'a> {
    ghost use Rattle.lk_outside.specs.SinkState.{SinkState};

    ghost Value = { SinkState };

    ghost view = { λ m. m.sink };
}

impl<'a> NotedSink<'a> {
    /// All bytes that were taken.
    pub(crate) fn bytes(&self) -> &[u8] {
        self.sink.bytes()
    }
}

impl<'a> Sink for NotedSink<'a> {
    ghost written = { λ s. Some s.written };

    ghost faults = { λ s. s.faults };

    fn write(&mut self, piece: &[u8]) -> Result<usize, Failed> {
        let moved = self.sink.write(piece);
        self.calls.moved(self.word, &moved);
        moved
    }
}

/// What a run reads from, writes on and says on.
#[derive(Drop)]
pub(crate) struct Outside<'a> {
    pub(crate) shelf: NotedShelf<'a>,
    pub(crate) out: NotedSink<'a>,
    pub(crate) say: NotedSink<'a>,
}

/// The shelf and the sinks that a script has.
pub(crate) fn outside_of<'a>(
    alloc: Global,
    script: &Script,
    calls: &'a Calls,
) -> Result<Outside<'a>, OutOfMemory> {
    Ok(Outside {
        out: sink_of(alloc, &script.out, "out", calls)?,
        say: sink_of(alloc, &script.say, "say", calls)?,
        shelf: shelf_of(alloc, script, calls)?,
    })
}

fn shelf_of<'a>(
    alloc: Global,
    script: &Script,
    calls: &'a Calls,
) -> Result<NotedShelf<'a>, OutOfMemory> {
    let fails = list_of(alloc, script.shelf.fails.as_slice())?;
    let files = files_of(alloc, script.texts.as_slice())?;
    Ok(NotedShelf {
        shelf: MemoryShelf::new(alloc, files, script.shelf.chunk.max(1), fails),
        calls,
    })
}

fn sink_of<'a>(
    alloc: Global,
    side: &Side,
    word: &'static str,
    calls: &'a Calls,
) -> Result<NotedSink<'a>, OutOfMemory> {
    let fails = list_of(alloc, side.fails.as_slice())?;
    Ok(NotedSink {
        sink: MemorySink::new(alloc, side.room, side.chunk.max(1), fails)?,
        word,
        calls,
    })
}

/// The texts under their names.
fn files_of(alloc: Global, texts: &[Text]) -> Result<List<(Name, Bytes)>, OutOfMemory> {
    let mut files = List::new(alloc);
    for text in texts {
        files.push(file_of(alloc, text)?)?;
    }
    Ok(files)
}

fn file_of(alloc: Global, text: &Text) -> Result<(Name, Bytes), OutOfMemory> {
    let name = Name::of(alloc, text.name.as_str())?;
    let bytes = Bytes::of(alloc, text.bytes.as_slice())?;
    Ok((name, bytes))
}

fn list_of(alloc: Global, numbers: &[u64]) -> Result<List<u64>, OutOfMemory> {
    Ok(List::from_vec(Vec::from_slice(alloc, numbers)?))
}
