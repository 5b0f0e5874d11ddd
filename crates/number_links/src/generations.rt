// A generation number (topological level, as in Git's commit-graph) for each number, in pages. A page without
// generations takes no memory but its place.
ghost use Rattle.std.specs.Prelude.{◌≡◌, ◌<◌, ◌≤◌, ℕ, [], OnOk, OnErr, get_or, length, nat_eq, if◌then◌else◌};
ghost use Rattle.number_links.specs.Facts.{Facts};
ghost use Rattle.number_links.specs.Generations.{AreGenerations, generation};

use crate::generation_page::GenerationPage;
use std::alloc::{AllocError, Global};
use std::marker::Model;

// For each number, its generation. A marked number without a generation has 1, and any other has 0.
#[derive(Drop)]
pub(crate) struct Generations {
    pages: Vec<GenerationPage>,
}

impl Model for Generations {
    ghost use Rattle.std.specs.Prelude.{List, ℕ, ◌≤◌, length};
    ghost use Rattle.number_links.specs.Generations.{words_of};

    ghost Value = { List ℕ };

    ghost view = { λ a. words_of a.pages.items };

    ghost invariant = { λ a. length a.pages.items ≤ 1048576 };
}

impl Generations {
    // No number has a generation.
    pub(crate) fn new(alloc: Global) -> Generations
        ensures { result ≡ [] }
    {
        Generations {
            pages: Vec::new(alloc),
        }
    }

    // There are no more generations than numbers.
    pub(crate) fn invariant(&self)
        ensures { length self.now ≤ 4294967296 }
    {
        let _pages = &self.pages;
    }

    // The generation of a number.
    pub(crate) fn at(&self, n: u32) -> u32
        ensures value { result ≡ get_or self.now n 0 }
        ensures few { length self.now ≤ 4294967296 }
    {
        let at = n as usize / 4096;
        if at >= self.pages.len() {
            return 0;
        }
        self.pages[at].at(n % 4096)
    }

    // Writes the generation of a number.
    pub(crate) fn write(&mut self, n: u32, word: u32) -> Result<(), AllocError>
        ensures ok { OnOk result ((q : ℕ) → generation self.new q ≡ (if nat_eq q n then word else generation self.old q)) }
        ensures err { OnErr result ((q : ℕ) → generation self.new q ≡ generation self.old q) }
    {
        let at = n as usize / 4096;
        lengthen(&mut self.pages, at)?;
        self.pages[at].write(n % 4096, word)
    }

    // Clears all generations if this number has one or is marked.
    pub(crate) fn let_go(&mut self, n: u32)
        ensures still { generation self.old n ≡ 0 → self.new ≡ self.old }
        ensures none { generation self.new n ≡ 0 }
        ensures kept { (facts : Facts) → AreGenerations facts self.old → AreGenerations facts self.new }
    {
        if self.at(n) > 0 {
            self.clear();
        }
    }

    // Clears all generations. Allocates nothing.
    pub(crate) fn clear(&mut self)
        ensures { self.new ≡ [] }
    {
        self.pages.clear();
    }
}

// Makes the list of pages long enough for this page.
fn lengthen(pages: &mut Vec<GenerationPage>, at: usize) -> Result<(), AllocError>
    requires { at < 1048576 }
    ensures slots { (i : ℕ) → get_or pages.new.items i [] ≡ get_or pages.old.items i [] }
    ensures ok { OnOk result (at < length pages.new.items) }
    ensures few { length pages.old.items ≤ 1048576 → length pages.new.items ≤ 1048576 }
{
    let alloc = *pages.allocator();
    'pages: while pages.len() <= at {
        pages.push(GenerationPage::new(alloc))?;
    }
    Ok(())
}
