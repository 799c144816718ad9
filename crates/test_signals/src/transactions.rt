//! Calls of a graph with transactions by their texts, and what they give as a text.
ghost use Rattle.std.specs.Prelude.{◌≡◌, ◌<◌};

use crate::calls::{due_text, key, watch_text};
use crate::rules::{NumberRules, rank};
use rooms_val::{OutOfMemory, Steps};
use signal_txn::{Since, Txn, TxnFault};
use std::alloc::Global;
use std::cell::Cell;
use std::marker::Brand;
use std::rc::Rc;
use std::sync::ledger::{Blank, Ledger};
use std::test::Fail;
use test_with_cases::{cells, rows};

// A graph with transactions, and how often its rules were asked.
#[derive(Drop)]
struct Nest<L: Ledger> {
    txn: Txn<NumberRules>,
    asked: Rc<Cell<u64>>,
    steps: Steps<L>,
}

// What a call gave in place of what was wanted.
fn message(alloc: Global, call: &str, given: &str, wanted: &str) -> Result<String, Fail> {
    Ok(format!(in alloc; "{call} gave {given}, not {wanted}")?)
}

impl<L: Ledger> Nest<L> {
    // One on which nothing was set.
    fn new(alloc: Global, steps: Steps<L>) -> Result<Nest<L>, Fail> {
        let asked = Rc::new(alloc, Cell::new(0))?;
        let rules = NumberRules {
            asked: Rc::clone(&asked)?,
        };
        Ok(Nest {
            txn: Txn::new(alloc, rules)?,
            asked,
            steps,
        })
    }

    // Sets an atom.
    fn set(&mut self, alloc: Global, atom: u64, value: u64) -> Result<String, Fail> {
        if rank(atom) != 0 {
            return Ok(format!(in alloc; "no atom")?);
        }
        let differs = self.txn.set(alloc, atom, value)?;
        Ok(format!(in alloc; "{differs}")?)
    }

    // Sets an atom to each number from 1 on, up to one.
    fn set_each(&mut self, alloc: Global, atom: u64, count: u16) -> Result<String, Fail> {
        for value in 0..count {
            drop(self.set(alloc, atom, value as u64 + 1)?);
        }
        Ok(format!(in alloc; "done")?)
    }

    // How often the rules were asked since so many asks.
    fn asks_since(&self, before: u64) -> u64 {
        self.asked.get().saturating_sub(before)
    }

    // The value of a key, and how often the rules were asked for it.
    fn get(&mut self, alloc: Global, key: u64) -> Result<String, Fail> {
        let before = self.asked.get();
        let value = *self.txn.get(alloc, &key, &mut self.steps)?;
        Ok(format!(in alloc; "{value} after {}", self.asks_since(before))?)
    }

    // The same of a copy of the value.
    fn get_copy(&mut self, alloc: Global, key: u64) -> Result<String, Fail> {
        let before = self.asked.get();
        let value = self.txn.copied(alloc, &key, &mut self.steps)?;
        Ok(format!(in alloc; "{value} after {}", self.asks_since(before))?)
    }

    // What is due, and how often the rules were asked for it.
    fn due(&mut self, alloc: Global) -> Result<String, Fail> {
        if self.txn.depth() > 0 {
            return Ok(format!(in alloc; "one is open")?);
        }
        let before = self.asked.get();
        let due = self.txn.due(alloc, &mut self.steps)?;
        due_text(alloc, &due, self.asks_since(before))
    }

    // The same in two calls, of which the second tells it.
    fn tell(&mut self, alloc: Global) -> Result<String, Fail> {
        if self.txn.depth() > 0 {
            return Ok(format!(in alloc; "one is open")?);
        }
        let before = self.asked.get();
        let news = self.txn.news(alloc, &mut self.steps)?;
        let due = self.txn.tell(news);
        due_text(alloc, &due, self.asks_since(before))
    }

    fn begin(&mut self, alloc: Global) -> Result<String, Fail> {
        match self.txn.begin(alloc) {
            Ok(()) => Ok(format!(in alloc; "open")?),
            Err(TxnFault::TooNested) => Ok(format!(in alloc; "too nested")?),
            Err(TxnFault::OutOfMemory) => Err(OutOfMemory)?,
        }
    }

    // Begins so often, and gives what the last gave.
    fn begin_often(&mut self, alloc: Global, count: u16) -> Result<String, Fail> {
        for _ in 1..count {
            drop(self.begin(alloc)?);
        }
        self.begin(alloc)
    }

    fn commit(&mut self, alloc: Global) -> Result<String, Fail> {
        if self.txn.depth() == 0 {
            return Ok(format!(in alloc; "none is open")?);
        }
        self.txn.commit();
        Ok(format!(in alloc; "done")?)
    }

    fn abort(&mut self, alloc: Global) -> Result<String, Fail> {
        if self.txn.depth() == 0 {
            return Ok(format!(in alloc; "none is open")?);
        }
        self.txn.abort();
        Ok(format!(in alloc; "done")?)
    }

    // The epoch at which the value of a key last changed.
    fn epoch_of_change(&self, alloc: Global, key: u64) -> Result<String, Fail> {
        match self.txn.changed_at(&key) {
            Some(epoch) => Ok(format!(in alloc; "{epoch}")?),
            None => Ok(format!(in alloc; "none")?),
        }
    }

    // What was written after an epoch: how much, and each atom with its value.
    fn since(&self, alloc: Global, epoch: u64) -> Result<String, Fail> {
        let Since::Diffs(diffs) = self.txn.diffs_since(alloc, epoch)? else {
            return Ok(format!(in alloc; "reset")?);
        };
        let mut text = format!(in alloc; "{}", diffs.len())?;
        for (atom, value) in &diffs {
            let part = format!(in alloc; " {atom}:{value}")?;
            text.push_str(part.as_str())?;
        }
        Ok(text)
    }

    // How much was written after an epoch.
    fn count_since(&self, alloc: Global, epoch: u64) -> Result<String, Fail> {
        match self.txn.diffs_since(alloc, epoch)? {
            Since::Diffs(diffs) => Ok(format!(in alloc; "{}", diffs.len())?),
            Since::Reset => Ok(format!(in alloc; "reset")?),
        }
    }

    // What a call gives.
    fn call(&mut self, alloc: Global, text: &str) -> Result<String, Fail> {
        let mut words = text.split(' ');
        let name = words.next().unwrap_or("");
        let first = words.next().unwrap_or("0");
        let second = words.next().unwrap_or("0");
        match name {
            "set" => self.set(alloc, first.parse()?, second.parse()?),
            "set_each" => self.set_each(alloc, first.parse()?, second.parse()?),
            "get" => self.get(alloc, key(first)?),
            "copied" => self.get_copy(alloc, key(first)?),
            "watch" => watch_text(alloc, self.txn.watch(key(first)?)),
            "due" => self.due(alloc),
            "tell" => self.tell(alloc),
            "begin" => self.begin(alloc),
            "begin_often" => self.begin_often(alloc, first.parse()?),
            "commit" => self.commit(alloc),
            "abort" => self.abort(alloc),
            "changed" => self.epoch_of_change(alloc, first.parse()?),
            "since" => self.since(alloc, first.parse()?),
            "count_since" => self.count_since(alloc, first.parse()?),
            "epoch" => Ok(format!(in alloc; "{}", self.txn.epoch())?),
            _ => Ok(format!(in alloc; "no such call")?),
        }
    }

    // What the call of a row gives in place of what the row says, if that is something else.
    fn difference(&mut self, alloc: Global, row: &str) -> Result<String, Fail> {
        let [call, wanted, _, _] = cells(row);
        let given = self.call(alloc, call)?;
        if given.as_str() == wanted {
            return Ok(String::new(alloc));
        }
        message(alloc, call, given.as_str(), wanted)
    }
}

fn play_in<L: Ledger>(blank: Blank, alloc: Global, table: String) -> Result<String, Fail>
    requires name { blank.name ≡ L.name }
    requires parts { blank.parts ≡ L.parts }
    requires some { 0 < blank.parts }
{
    let mut nest = Nest::new(alloc, Steps::<L>::new(blank))?;
    for row in &rows(alloc, table.as_str())? {
        let difference = nest.difference(alloc, row)?;
        if !difference.is_empty() {
            return Ok(difference);
        }
    }
    Ok(String::new(alloc))
}

/// The first row of a table of calls of a graph with transactions that gives something else, with
/// what it gave; nothing where each gives what the row says.
///
/// # Errors
/// Where memory is refused, or a row can't be read.
pub fn play_nested(alloc: Global, table: &str) -> Result<String, Fail> {
    let owned = format!(in alloc; "{table}")?;
    play_in::<Brand>(Blank::new(1), alloc, owned)
}
