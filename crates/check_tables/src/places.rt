//! The first place at which a check fails, searched for in ranges of places on threads.
//!
//! The places from 1 on are cut into a range for each worker. Each range is searched from its front, and of what the
//! ranges find the first counts, so the result is the same for every number of workers.
ghost use Rattle.std.specs.Prelude.{◌≡◌, ◌+◌, ◌^◌, ◌<◌, ◌≤◌, ℕ, Bool, find, min, option_map, IfOk};
ghost use Rattle.std.specs.Fn.{FnReturns};
ghost use Rattle.lk_model.specs.Lists.{up_to};
ghost use Rattle.check_tables.specs.Places.{AcceptsParts, AcceptsPlaces, AcceptsSpans, AreCut, Decides, Finds};
ghost use Rattle.check_tables.specs.Places.{FindsItems, pieces_for, places_in};

use check_places::first_answer;
use lk_model::OutOfMemory;
use par_halves::{Gate, map_halves};
use std::alloc::Global;
use std::marker::Model;
use std::thread::Threads;

/// Each further worker has to have an item of work for each part of its tables of this many bytes.
const BYTES_FOR_ITEM: usize = 128;

/// A range of places: `count` many, from the place `first` on. Places are positions or variables, which
/// count from 1.
#[derive(Clone, Copy)]
pub struct Span {
    pub first: u32,
    pub count: u32,
}

/// Shares the places of a search out among workers, of whom there is at least one. Contracts see how
/// many there are; what a search returns does not depend on it.
#[derive(Drop)]
pub struct Workers<'a, R, G> {
    rt: &'a R,
    alloc: Global,
    // What the halves of each search enter before their first place.
    gate: &'a G,
    count: u32,
}

impl<'a, R, G> Model for Workers<'a, R, G> {
    ghost use Rattle.std.specs.Prelude.{ℕ, ◌<◌};

    ghost Value = { ℕ };

    ghost view = { λ w. w.count };

    ghost invariant = { λ w. 0 < w.count };
}

impl<'a, R: Threads + Sync, G: Gate> Workers<'a, R, G> {
    /// `count` workers. In each search the halves of the work enter the gate once, as 0 and as 1, each
    /// before its first place; no clause says so.
    pub fn new(rt: &'a R, alloc: Global, gate: &'a G, count: u32) -> Workers<'a, R, G>
        requires { 0 < count }
        ensures { result ≡ count }
    {
        Workers {
            rt,
            alloc,
            gate,
            count,
        }
    }

    /// As many of them as have work enough if each makes tables of its own, of `bytes` bytes: at least two, if there
    /// are, for two items or more, and at least one. So all these tables together take no more memory than those of two
    /// workers and some for each item of work.
    pub fn for_work(&self, items: usize, bytes: usize) -> Workers<'a, R, G>
        ensures { result ≡ min self.now (pieces_for items bytes) }
    {
        let worth = items / (bytes / BYTES_FOR_ITEM + 1);
        let more = worth.max(items.min(2).saturating_sub(1));
        Workers {
            rt: self.rt,
            alloc: self.alloc,
            gate: self.gate,
            count: more.min(self.count as usize - 1) as u32 + 1,
        }
    }
}

impl<R: Threads + Sync, G: Gate> Workers<'_, R, G> {
    /// The first of the places from 1 to n at which a test says yes, or none. The error says that memory
    /// ran out.
    pub fn least_place<F: Fn(u32) -> bool + Sync>(
        &self,
        n: u32,
        test: &F,
    ) -> Result<Option<u32>, OutOfMemory>
        requires accepts { AcceptsPlaces F.Fn test.now 1 (n + 1) }
        requires few { n + 1 < 2 ^ 32 }
        ensures { (by : ℕ → Bool) → Decides F.Fn test.now 1 (n + 1) by →
            IfOk result (λ place. place ≡ find by (up_to n)) }
    {
        self.least_found(n, &|span| first_passing(span, test))
    }

    /// What a search in ranges of the places from 1 to n finds first. The search is to return the first
    /// place of its range at which a test says yes, or none; so this is the first of all places. The
    /// error says that memory ran out, here or in the search.
    pub fn least_found<F: Fn(Span) -> Result<Option<u32>, OutOfMemory> + Sync>(
        &self,
        n: u32,
        search_in: &F,
    ) -> Result<Option<u32>, OutOfMemory>
        requires { AcceptsSpans F.Fn search_in.now n }
        ensures { (by : ℕ → Bool) → Finds F.Fn search_in.now n by → IfOk result (λ place. place ≡ find by (up_to n)) }
    {
        let spans = cut(self.alloc, n, n.saturating_sub(1) / self.count + 1)?;
        let answers = map_halves(
            self.rt,
            self.alloc,
            self.gate,
            spans.as_slice(),
            self.count,
            &|_, span: &Span| -> Result<Option<u32>, OutOfMemory>
                requires { F.Fn.pre search_in.now (span.now, tt) }
                ensures { FnReturns F.Fn search_in.entry.now (span.now, tt) result }
            { search_in(*span) },
        )?;
        first_answer(answers.as_slice())
    }

    /// What is found of the first item of a list by a search in pieces of it, of which each worker has one.
    /// The search is to return what is found of the first item of its piece at which a test says yes, or
    /// none; so what is found of the first such item of all is returned. The error says that memory ran out,
    /// here or in the search.
    pub fn first_found<T: Sync, F: Fn(&[T]) -> Result<Option<u64>, OutOfMemory> + Sync>(
        &self,
        items: &[T],
        search_in: &F,
    ) -> Result<Option<u64>, OutOfMemory>
        requires { AcceptsParts F.Fn search_in.now items.now }
        ensures { (by : T → Bool) (tell : T → ℕ) → FindsItems F.Fn search_in.now items.now by tell
            → IfOk result (λ place. place ≡ option_map tell (find by items.now)) }
    {
        let size = items.len().saturating_sub(1) / self.count as usize + 1;
        let mut parts = Vec::new(self.alloc);
        for part in items.chunks(size) {
            parts.push(part)?;
        }
        let answers = map_halves(
            self.rt,
            self.alloc,
            self.gate,
            parts.as_slice(),
            self.count,
            &|_, part: &&[T]| -> Result<Option<u64>, OutOfMemory>
                requires { F.Fn.pre search_in.now (part.now, tt) }
                ensures { FnReturns F.Fn search_in.entry.now (part.now, tt) result }
            { search_in(*part) },
        )?;
        first_answer(answers.as_slice())
    }
}

/// The first place of a range at which a test says yes.
fn first_passing<F: Fn(u32) -> bool>(span: Span, test: &F) -> Result<Option<u32>, OutOfMemory>
    requires accepts { AcceptsPlaces F.Fn test.now span.first (span.first + span.count) }
    requires few { span.first + span.count < 2 ^ 32 }
    ensures { (by : ℕ → Bool) → Decides F.Fn test.now span.first (span.first + span.count) by →
        IfOk result (λ place. place ≡ find by (places_in span)) }
{
    for p in span.first..span.first + span.count {
        if test(p) {
            return Ok(Some(p));
        }
    }
    Ok(None)
}

/// The places from 1 to n, cut into ranges of one size; the last one may have fewer.
fn cut(alloc: Global, n: u32, size: u32) -> Result<Vec<Span>, OutOfMemory>
    requires { 0 < size }
    ensures { IfOk result (λ spans. AreCut 1 n spans.items) }
{
    let mut spans = Vec::new(alloc);
    let mut done = 0;
    while done < n {
        let count = size.min(n - done);
        spans.push(Span {
            first: done + 1,
            count,
        })?;
        done += count;
    }
    Ok(spans)
}
