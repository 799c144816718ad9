//! Calls by their texts, and what they give as a text.
ghost use Rattle.std.specs.Prelude.{◌≡◌, ◌<◌};

use crate::rules::{NumberRules, PLACES, rank};
use rooms_val::{OutOfMemory, Steps};
use signal_core::{Graph, WatchFault, WatchId};
use std::alloc::Global;
use std::cell::Cell;
use std::marker::Brand;
use std::rc::Rc;
use std::sync::ledger::{Blank, Ledger};
use std::test::Fail;
use test_with_cases::{cells, rows};

// A graph, and how often its rules were asked.
#[derive(Drop)]
struct Board<L: Ledger> {
    graph: Graph<NumberRules>,
    asked: Rc<Cell<u64>>,
    steps: Steps<L>,
}

// The key of a text: its rank and its place, as in `1.0`.
pub(crate) fn key(text: &str) -> Result<u64, Fail> {
    let mut parts = text.split('.');
    let rank: u8 = parts.next().unwrap_or("").parse()?;
    let place: u32 = parts.next().unwrap_or("").parse()?;
    Ok(rank as u64 * PLACES + place as u64)
}

// What a call of `watch` gave: the number, or that there are too many.
pub(crate) fn watch_text(
    alloc: Global,
    given: Result<WatchId, WatchFault>,
) -> Result<String, Fail> {
    match given {
        Ok(id) => Ok(format!(in alloc; "{}", id.number)?),
        Err(WatchFault::Full) => Ok(format!(in alloc; "full")?),
        Err(WatchFault::OutOfMemory) => Err(OutOfMemory)?,
    }
}

// What is due, and how often the rules were asked for it.
pub(crate) fn due_text(alloc: Global, due: &[(WatchId, u64)], asks: u64) -> Result<String, Fail> {
    let mut text = String::new(alloc);
    for (id, value) in due {
        let part = format!(in alloc; "{}:{value} ", id.number)?;
        text.push_str(part.as_str())?;
    }
    let part = format!(in alloc; "after {asks}")?;
    text.push_str(part.as_str())?;
    Ok(text)
}

// What a call gave in place of what was wanted.
fn message(alloc: Global, call: &str, given: &str, wanted: &str) -> Result<String, Fail> {
    Ok(format!(in alloc; "{call} gave {given}, not {wanted}")?)
}

impl<L: Ledger> Board<L> {
    // A board on which nothing was set.
    fn new(alloc: Global, steps: Steps<L>) -> Result<Board<L>, Fail> {
        let asked = Rc::new(alloc, Cell::new(0))?;
        let rules = NumberRules {
            asked: Rc::clone(&asked)?,
        };
        Ok(Board {
            graph: Graph::new(alloc, rules)?,
            asked,
            steps,
        })
    }

    // How often the rules were asked since so many asks.
    fn asks_since(&self, before: u64) -> u64 {
        self.asked.get().saturating_sub(before)
    }

    fn set(&mut self, alloc: Global, key: u64, value: u64) -> Result<String, Fail> {
        if rank(key) != 0 {
            return Ok(format!(in alloc; "no atom")?);
        }
        let differs = self.graph.set(alloc, key, value)?;
        Ok(format!(in alloc; "{differs}")?)
    }

    fn get(&mut self, alloc: Global, key: u64) -> Result<String, Fail> {
        let before = self.asked.get();
        let value = *self.graph.get(alloc, &key, &mut self.steps)?;
        Ok(format!(in alloc; "{value} after {}", self.asks_since(before))?)
    }

    // The sum of so many keys of rank 1 from place 1 on.
    fn get_each(&mut self, alloc: Global, count: u16) -> Result<String, Fail> {
        let before = self.asked.get();
        let mut sum: u64 = 0;
        for place in 0..count {
            let value = *self
                .graph
                .get(alloc, &(PLACES + 1 + place as u64), &mut self.steps)?;
            sum = sum.saturating_add(value);
        }
        Ok(format!(in alloc; "{sum} after {}", self.asks_since(before))?)
    }

    // Watches a key so often, and gives the last number.
    fn watch_often(&mut self, alloc: Global, key: u64, count: u16) -> Result<String, Fail> {
        for _ in 1..count {
            drop(watch_text(alloc, self.graph.watch(key))?);
        }
        watch_text(alloc, self.graph.watch(key))
    }

    fn unwatch(&mut self, alloc: Global, number: u32) -> Result<String, Fail> {
        let id = WatchId { number };
        if !self.graph.is_watched(id) {
            return Ok(format!(in alloc; "not watched")?);
        }
        self.graph.unwatch(id);
        Ok(format!(in alloc; "done")?)
    }

    fn due(&mut self, alloc: Global) -> Result<String, Fail> {
        let before = self.asked.get();
        let due = self.graph.due(alloc, &mut self.steps)?;
        due_text(alloc, &due, self.asks_since(before))
    }

    // What is due, without telling it.
    fn news(&mut self, alloc: Global) -> Result<String, Fail> {
        let before = self.asked.get();
        let news = self.graph.news(alloc, &mut self.steps)?;
        due_text(alloc, news.due(), self.asks_since(before))
    }

    // What is due, which is told.
    fn tell(&mut self, alloc: Global) -> Result<String, Fail> {
        let before = self.asked.get();
        let news = self.graph.news(alloc, &mut self.steps)?;
        let due = self.graph.tell(news);
        due_text(alloc, &due, self.asks_since(before))
    }

    fn epoch_of_change(&self, alloc: Global, key: u64) -> Result<String, Fail> {
        match self.graph.changed_at(&key) {
            Some(epoch) => Ok(format!(in alloc; "{epoch}")?),
            None => Ok(format!(in alloc; "none")?),
        }
    }

    // What a call gives.
    fn call(&mut self, alloc: Global, text: &str) -> Result<String, Fail> {
        let mut words = text.split(' ');
        let name = words.next().unwrap_or("");
        let first = words.next().unwrap_or("");
        let second = words.next().unwrap_or("");
        match name {
            "set" => self.set(alloc, key(first)?, second.parse()?),
            "get" => self.get(alloc, key(first)?),
            "get_each" => self.get_each(alloc, first.parse()?),
            "watch" => self.watch_often(alloc, key(first)?, 1),
            "watch_often" => self.watch_often(alloc, key(first)?, second.parse()?),
            "unwatch" => self.unwatch(alloc, first.parse()?),
            "due" => self.due(alloc),
            "news" => self.news(alloc),
            "tell" => self.tell(alloc),
            "changed" => self.epoch_of_change(alloc, key(first)?),
            _ => Ok(format!(in alloc; "no such call")?),
        }
    }

    // What the call of a row gives in place of what the row says, if that is something else.
    fn difference(&mut self, alloc: Global, row: &str) -> Result<String, Fail> {
        let [call, wanted, _, _] = cells(row);
        let given = self.call(alloc, call)?;
        if given.as_str() == wanted {
            return Ok(String::new(alloc));
        }
        message(alloc, call, given.as_str(), wanted)
    }
}

fn play_in<L: Ledger>(blank: Blank, alloc: Global, table: String) -> Result<String, Fail>
    requires name { blank.name ≡ L.name }
    requires parts { blank.parts ≡ L.parts }
    requires some { 0 < blank.parts }
{
    let mut board = Board::new(alloc, Steps::<L>::new(blank))?;
    for row in &rows(alloc, table.as_str())? {
        let difference = board.difference(alloc, row)?;
        if !difference.is_empty() {
            return Ok(difference);
        }
    }
    Ok(String::new(alloc))
}

/// The first row of a table whose call gives something else, with what it gave; nothing where each
/// gives what the row says.
///
/// # Errors
/// Where memory is refused, or a row can't be read.
pub fn play(alloc: Global, table: &str) -> Result<String, Fail> {
    let owned = format!(in alloc; "{table}")?;
    play_in::<Brand>(Blank::new(1), alloc, owned)
}
