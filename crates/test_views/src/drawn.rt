//! Calls that are drawn by a small rule.
use std::alloc::Global;
use std::test::Fail;

/// Draws of whole numbers, one after the other.
#[derive(Drop)]
pub(crate) struct Draws {
    /// The last draw; any number begins a row of draws.
    pub(crate) last: u16,
}

impl Draws {
    // The next draw, below a number that isn't 0.
    fn below(&mut self, count: u16) -> u16 {
        self.last = self.last.wrapping_mul(25_173).wrapping_add(13_849);
        let scaled = u32::from(self.last).saturating_mul(u32::from(count)) / 65_536;
        u16::try_from(scaled).unwrap_or(0)
    }

    // The id of a parent: one of two pages, or of the first six shapes.
    fn parent(&mut self, alloc: Global) -> Result<String, Fail> {
        Ok(match self.below(8) {
            6 => String::from_str(alloc, "page:p")?,
            7 => String::from_str(alloc, "page:q")?,
            name => format!(in alloc; "shape:s{name}")?,
        })
    }

    // A shape of a kind is put at one of four indices.
    fn put(&mut self, alloc: Global, kind: &str) -> Result<String, Fail> {
        let parent = self.parent(alloc)?;
        let (name, index) = (self.below(8), self.below(4));
        let (x, y) = (self.below(100), self.below(100));
        Ok(format!(in alloc; "{kind} s{name} a{index} {parent} {x} {y}")?)
    }

    // A shape is patched: nine times of ten its parent, and else its x.
    fn patch(&mut self, alloc: Global) -> Result<String, Fail> {
        let (name, x) = (self.below(8), self.below(1000));
        if x < 100 {
            return Ok(format!(in alloc; "set shape:s{name} x {x}")?);
        }
        let parent = self.parent(alloc)?;
        Ok(format!(in alloc; r#"set shape:s{name} parentId "{parent}""#)?)
    }

    // A binding from one shape to another is put, or goes.
    fn bind(&mut self, alloc: Global) -> Result<String, Fail> {
        let (name, from, to) = (self.below(4), self.below(8), self.below(12));
        if to < 8 {
            return Ok(format!(in alloc; "bind b{name} s{from} s{to}")?);
        }
        Ok(format!(in alloc; "take binding:b{name}")?)
    }

    // A page or a shape goes.
    fn take(&mut self, alloc: Global) -> Result<String, Fail> {
        Ok(match self.below(10) {
            8 => String::from_str(alloc, "take page:p")?,
            9 => String::from_str(alloc, "take page:q")?,
            name => format!(in alloc; "take shape:s{name}")?,
        })
    }

    // The next call.
    fn call(&mut self, alloc: Global) -> Result<String, Fail> {
        let plain = match self.below(16) {
            0 | 1 | 2 => return self.put(alloc, "geo"),
            3 => return self.put(alloc, "frame"),
            4 => return self.put(alloc, "group"),
            5 | 6 | 7 | 8 => return self.patch(alloc),
            9 | 10 => return self.bind(alloc),
            11 => return self.take(alloc),
            12 => "page p",
            13 => "begin",
            14 => "commit",
            _ => "abort",
        };
        Ok(String::from_str(alloc, plain)?)
    }
}

/// A script of so many calls that are drawn, with a look at the stores after each so many of them.
pub(crate) fn draw_script(
    alloc: Global,
    first: u16,
    count: u16,
    looks: u16,
) -> Result<String, Fail> {
    let mut draws = Draws { last: first };
    let mut script = String::new(alloc);
    let mut unseen = 0u16;
    for _ in 0..count {
        script.push_str(draws.call(alloc)?.as_str())?;
        script.push_str("\n")?;
        unseen = unseen.saturating_add(1);
        if unseen >= looks {
            script.push_str("look\n")?;
            unseen = 0;
        }
    }
    Ok(script)
}
