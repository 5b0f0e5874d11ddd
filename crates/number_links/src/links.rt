ghost use Rattle.std.specs.Prelude.{◌≡◌, ◌≢◌, true, ◌⊎◌, ◌<◌, ◌≤◌, ℕ, List, Some, None, IfOk, IfSome, IfNone, OnOk, OnErr, All, Contains, get_or, length};
ghost use Rattle.number_links.specs.Known.{known};
ghost use Rattle.number_links.specs.Records.{IsWritten};

use crate::lists::{get, greatest, lengthen, put};
use crate::packing::pack;
use crate::records::{UNKNOWN, read, words, write};
use std::alloc::{AllocError, Global};
use std::marker::Model;

/// The known links of each number. They are forgotten as soon as the number, or one that it links to, is renewed.
#[derive(Drop)]
pub struct Links {
    // How many renewals there were.
    clock: u32,
    // For each number, the clock when it was last renewed; 0 after the end of the list.
    renewed: Vec<u32>,
    // For each number, the place of its record in the pool.
    begins: Vec<u32>,
    pool: Vec<u32>,
    // About how many words of the pool belong to records that are no longer known.
    gone: usize,
}

impl Model for Links {
    ghost use Rattle.std.specs.Prelude.{map};
    ghost use Rattle.number_links.specs.Known.{Known};
    ghost use Rattle.number_links.specs.Records.{AreRecords, told};

    ghost Value = { Known };

    ghost view = { λ a. map (told a.renewed.items a.pool.items) a.begins.items };

    ghost invariant = { λ a. AreRecords a.clock a.renewed.items a.begins.items a.pool.items };
}

impl Links {
    /// Links of which nothing is known.
    pub fn new(alloc: Global) -> Links
        ensures { (n : ℕ) → known result n ≡ None }
    {
        Links {
            clock: 0,
            renewed: Vec::new(alloc),
            begins: Vec::new(alloc),
            pool: Vec::new(alloc),
            gone: 0,
        }
    }

    // An upper bound of how many numbers have known links.
    pub(crate) fn room(&self) -> usize
        ensures { result ≡ length self.now }
    {
        self.begins.len()
    }

    /// The links of a number, if they are known.
    pub fn of(&self, n: u32) -> Option<&[u32]>
        ensures some { IfSome result (λ to. known self.now n ≡ Some to.now) }
        ensures none { IfNone result (known self.now n ≡ None) }
    {
        let begin = get(&self.begins, n, UNKNOWN);
        read(self.clock, &self.renewed, &self.pool, begin)
    }

    /// Learns the links of a number, replacing those known before. An `Err` means that memory ran out, or that the
    /// pool is full, at 2^32 - 2 words.
    pub fn learn(&mut self, n: u32, to: &[u32]) -> Result<(), AllocError>
        ensures only { (q : ℕ) (ms : List ℕ) → known self.new q ≡ Some ms → (known self.old q ≡ Some ms) ⊎ ((q ≡ n) × (ms ≡ to.now)) }
        ensures ok { OnOk result (known self.new n ≡ Some to.now) }
        ensures stays { (q : ℕ) → q ≢ n → known self.new q ≡ known self.old q }
        ensures err { OnErr result ((q : ℕ) → known self.new q ≡ known self.old q) }
    {
        self.pack_if_sparse();
        self.note(n, to)
    }

    /// Forgets what is known of a number, so that it can be given to another name. Allocates nothing. Returns whether
    /// everything else that was known still is.
    pub fn renew(&mut self, n: u32) -> bool
        ensures gone { (q : ℕ) (ms : List ℕ) → known self.new q ≡ Some ms → (known self.old q ≡ Some ms) × (q ≢ n) × (Contains ms n → ⊥) }
        ensures stays { result ≡ true → (q : ℕ) (ms : List ℕ) → known self.old q ≡ Some ms → q ≢ n → (Contains ms n → ⊥) → known self.new q ≡ Some ms }
    {
        if self.clock == u32::MAX {
            self.clock = 0;
            self.renewed.clear();
            self.begins.clear();
            self.pool.clear();
            self.gone = 0;
            return false;
        }
        self.clock += 1;
        let last = get(&self.begins, n, UNKNOWN);
        self.gone = self.gone.saturating_add(words(&self.pool, last));
        put(&mut self.renewed, n, self.clock);
        put(&mut self.begins, n, UNKNOWN);
        true
    }

    // Learns the links of a number without packing the pool.
    fn note(&mut self, n: u32, to: &[u32]) -> Result<(), AllocError>
        ensures ok { OnOk result (known self.new n ≡ Some to.now) }
        ensures stays { (q : ℕ) → q ≢ n → known self.new q ≡ known self.old q }
        ensures err { OnErr result ((q : ℕ) → known self.new q ≡ known self.old q) }
    {
        let begin = enter(
            self.clock,
            &mut self.renewed,
            &mut self.begins,
            &mut self.pool,
            n,
            to,
        )?;
        let last = get(&self.begins, n, UNKNOWN);
        self.gone = self.gone.saturating_add(words(&self.pool, last));
        put(&mut self.begins, n, begin);
        Ok(())
    }

    // Rebuilds the pool from the known records if more than half of it is unused. If memory runs out, the pool stays
    // as it is.
    fn pack_if_sparse(&mut self)
        ensures { (q : ℕ) → known self.new q ≡ known self.old q }
    {
        if self.gone <= 1024 {
            return;
        }
        if self.gone <= self.pool.len() / 2 {
            return;
        }
        self.gone = 0;
        let alloc = *self.pool.allocator();
        let mut begins = Vec::new(alloc);
        let mut pool = Vec::new(alloc);
        let Ok(()) = pack(
            self.clock,
            &self.renewed,
            &self.begins,
            &self.pool,
            &mut begins,
            &mut pool,
        ) else {
            return;
        };
        self.begins = begins;
        self.pool = pool;
    }
}

// Appends a number's record to the pool, and makes the lists long enough for the number and for those that it links
// to.
fn enter(
    clock: u32,
    renewed: &mut Vec<u32>,
    begins: &mut Vec<u32>,
    pool: &mut Vec<u32>,
    n: u32,
    to: &[u32],
) -> Result<u32, AllocError>
    requires { length pool.old.items ≤ 4294967294 }
    ensures renewed { (m : ℕ) → get_or renewed.new.items m 0 ≡ get_or renewed.old.items m 0 }
    ensures longer { length renewed.old.items ≤ length renewed.new.items }
    ensures begins { (q : ℕ) → get_or begins.new.items q 4294967295 ≡ get_or begins.old.items q 4294967295 }
    ensures place { OnOk result (n < length begins.new.items) }
    ensures below { OnOk result (All (λ m. m < length renewed.new.items) to.now) }
    ensures written { IfOk result (λ begin. IsWritten clock to.now pool.old.items pool.new.items begin) }
    ensures err { OnErr result (pool.new.items ≡ pool.old.items) }
{
    lengthen(renewed, greatest(to), 0)?;
    lengthen(begins, n, UNKNOWN)?;
    write(pool, clock, to)
}
