ghost use Rattle.std.specs.Prelude.{◌≡◌, ◌≢◌, ◌⊎◌, ◌↔◌, ℕ, List, [], ◌∷◌, Some, None, true, is_some, IfOk, IfSome, IfNone, OnOk, All, Contains};
ghost use Rattle.std.specs.Option.{option_map};
ghost use Rattle.number_links.specs.Numbers.{has};
ghost use Rattle.number_links.specs.Bases.{IsBest};
ghost use Rattle.number_links.specs.Facts.{Learned, goes_on, learned, nothing, told};
ghost use Rattle.number_links.specs.Kept.{IsKept};
ghost use Rattle.number_links.specs.Known.{LeadNowhere, RestsOrIsKnown, known};
ghost use Rattle.number_links.specs.Reach.{IsReached, ReachesUnknown};
ghost use Rattle.number_links.specs.declared.along.Along.TheVariants.{Links as along_links, Parents as along_parents};

use crate::along::{Along, time_beside};
use crate::climbing::climb_all;
use crate::gathering::gather_allowed;
use crate::generations::Generations;
use crate::ground::Ground;
use crate::history::near;
use crate::keeping::keep_all;
use crate::kept::{Kept, let_go};
use crate::links::Links;
use crate::merge_bases::bases;
use crate::number_set::NumberSet;
use crate::resting::Resting;
use crate::taking::reach_all;
use crate::times::Times;
use crate::walking::walk;
use std::alloc::{AllocError, Global};
use std::marker::Model;

/// The known links of numbers, and the times of commits. For some numbers, the set of all reachable numbers is kept,
/// so that it need not be walked again. Some commits have generation numbers (topological levels, as in Git's
/// commit-graph), which serve to find common ancestors and histories.
#[derive(Drop)]
pub struct Graph {
    links: Links,
    // Some of the numbers that are known to have no links.
    ends: NumberSet,
    times: Times,
    kept: Vec<Kept>,
    generations: Generations,
}

impl Model for Graph {
    ghost use Rattle.std.specs.Prelude.{All};
    ghost use Rattle.number_links.specs.Facts.{Facts};
    ghost use Rattle.number_links.specs.Generations.{AreGenerations};
    ghost use Rattle.number_links.specs.Kept.{IsKept};
    ghost use Rattle.number_links.specs.Known.{LeadNowhere};
    ghost use Rattle.number_links.specs.Numbers.{has};

    ghost Value = { Facts };

    ghost view = { λ a. record { links = a.links; times = a.times } };

    ghost invariant = { λ a. All (IsKept a.links) a.kept.items × AreGenerations (record { links = a.links; times = a.times }) a.generations × LeadNowhere a.links (has a.ends) };
}

impl Graph {
    /// A graph in which nothing is known.
    pub fn new(alloc: Global) -> Graph
        ensures { (n : ℕ) → learned result n ≡ None }
    {
        Graph {
            links: Links::new(alloc),
            ends: NumberSet::new(alloc),
            times: Times::new(alloc),
            kept: Vec::new(alloc),
            generations: Generations::new(alloc),
        }
    }

    /// The time of a number whose links are known.
    pub fn time(&self, n: u32) -> Option<u64>
        ensures { result ≡ option_map (λ one. one.time) (learned self.now n) }
    {
        let Some(to) = self.links.of(n) else {
            return None;
        };
        Some(time_beside(to, self.times.at(n)))
    }

    /// Learns the links of a number and its time, unless they are known. An `Err` means that memory ran out, or that
    /// there are too many links.
    pub fn learn(&mut self, n: u32, to: &[u32], time: u64) -> Result<(), AllocError>
        ensures only { (q : ℕ) (one : Learned ℕ) → learned self.new q ≡ Some one → (learned self.old q ≡ Some one) ⊎ ((q ≡ n) × (one ≡ told to.now time)) }
        ensures ok { OnOk result (is_some (learned self.new n) ≡ true) }
        ensures stays { (q : ℕ) → is_some (learned self.old q) ≡ true → learned self.new q ≡ learned self.old q }
    {
        if self.links.of(n).is_some() {
            return Ok(());
        }
        if to.is_empty() {
            return note_end(&mut self.links, &mut self.ends, n);
        }
        note(&mut self.links, &mut self.times, n, to, time)
    }

    /// Forgets what is known of a number, so that it can be given to another name. Allocates nothing. Returns whether
    /// everything else that was known still is.
    pub fn renew(&mut self, n: u32) -> bool
        ensures gone { (q : ℕ) (one : Learned ℕ) → learned self.new q ≡ Some one → (learned self.old q ≡ Some one) × (q ≢ n) × (Contains one.links n → ⊥) }
        ensures stays { result ≡ true → (q : ℕ) (one : Learned ℕ) → learned self.old q ≡ Some one → q ≢ n → (Contains one.links n → ⊥) → learned self.new q ≡ Some one }
    {
        let_go(&mut self.kept, n);
        self.generations.let_go(n);
        self.ends.remove(n);
        if !self.links.renew(n) {
            self.kept.clear();
            self.ends.clear();
            self.generations.clear();
            return false;
        }
        true
    }

    /// For each of the first 8 roots, keeps the set of all numbers reachable from it. A set is kept only if it took
    /// many steps to find, all of it is allowed, and each number in it rests or has known links. A resting number on
    /// the way is then known to have no links.
    pub fn keep<R: Resting>(
        &mut self,
        alloc: Global,
        allowed: &NumberSet,
        resting: &R,
        roots: &[u32],
    )
        ensures only { (q : ℕ) (one : Learned ℕ) → learned self.new q ≡ Some one → (learned self.old q ≡ Some one) ⊎ ((one ≡ nothing) × (has allowed.now q ≡ true) × (R.rests resting.now q ≡ true)) }
    {
        keep_all(
            alloc,
            &mut self.links,
            &self.ends,
            &mut self.kept,
            allowed,
            resting,
            roots,
        );
    }

    /// Gives these commits and their ancestors generation numbers, as far as their links are known. A commit that
    /// already has one costs nothing. Stops early if memory runs out.
    pub fn learn_generations(&mut self, alloc: Global, from: &[u32])
        ensures { self.new ≡ self.old }
    {
        climb_all(alloc, &self.links, &self.times, &mut self.generations, from);
    }

    /// The best common ancestors of two numbers, or `None` if one of the two has no generation number. That is so if
    /// its links or those of an ancestor are not known, or if memory ran out.
    pub fn bases(
        &self,
        alloc: Global,
        allowed: &NumberSet,
        a: u32,
        b: u32,
    ) -> Result<Option<NumberSet>, AllocError>
        ensures found { IfOk result (λ r. IfSome r (λ found. (n : ℕ) → (has found n ≡ true) ↔ IsBest (goes_on along_parents self.now) (has allowed.now) a b n)) }
        ensures known { IfOk result (λ r. IfSome r (λ found. (n : ℕ) → IsReached (goes_on along_parents self.now) (has allowed.now) (a ∷ []) n ⊎ IsReached (goes_on along_parents self.now) (has allowed.now) (b ∷ []) n → is_some (known self.now.links n) ≡ true)) }
    {
        let ground = Ground {
            links: &self.links,
            times: &self.times,
            generations: &self.generations,
            allowed,
        };
        bases(alloc, &ground, a, b)
    }

    /// The numbers reachable from `wanted` but not from `excluded`, or `None` if a number on the way neither rests
    /// nor has known links.
    pub fn between<R: Resting>(
        &self,
        alloc: Global,
        allowed: &NumberSet,
        resting: &R,
        wanted: &[u32],
        excluded: &[u32],
    ) -> Result<Option<NumberSet>, AllocError>
        ensures found { IfOk result (λ r. IfSome r (λ found. (n : ℕ) → (has found n ≡ true) ↔ (IsReached (goes_on along_links self.now) (has allowed.now) wanted.now n × (IsReached (goes_on along_links self.now) (has allowed.now) excluded.now n → ⊥)))) }
        ensures known { IfOk result (λ r. IfSome r (λ found. (n : ℕ) → IsReached (goes_on along_links self.now) (has allowed.now) wanted.now n ⊎ IsReached (goes_on along_links self.now) (has allowed.now) excluded.now n → RestsOrIsKnown self.now.links (R.rests resting.now) n)) }
        ensures unknown { IfOk result (λ r. IfNone r (ReachesUnknown (goes_on along_links self.now) self.now.links (R.rests resting.now) (has allowed.now) wanted.now ⊎ ReachesUnknown (goes_on along_links self.now) self.now.links (R.rests resting.now) (has allowed.now) excluded.now)) }
    {
        between(
            alloc,
            &self.links,
            &self.times,
            self.kept.as_slice(),
            allowed,
            resting,
            wanted,
            excluded,
        )
    }

    /// The numbers reachable from the roots, or `None` if one of them is not allowed, or neither rests nor has known
    /// links. A resting number on the way is then known to have no links.
    pub fn reached<R: Resting>(
        &mut self,
        alloc: Global,
        allowed: &NumberSet,
        resting: &R,
        roots: &[u32],
    ) -> Result<Option<NumberSet>, AllocError>
        ensures found { IfOk result (λ r. IfSome r (λ found. (n : ℕ) → (has found n ≡ true) ↔ IsReached (goes_on along_links self.old) (has allowed.now) roots.now n)) }
        ensures known { IfOk result (λ r. IfSome r (λ found. (n : ℕ) → has found n ≡ true → RestsOrIsKnown self.old.links (R.rests resting.now) n)) }
        ensures only { (q : ℕ) (one : Learned ℕ) → learned self.new q ≡ Some one → (learned self.old q ≡ Some one) ⊎ ((one ≡ nothing) × (has allowed.now q ≡ true) × (R.rests resting.now q ≡ true)) }
    {
        let mut count = 0;
        gather_allowed(
            alloc,
            &mut self.links,
            &self.ends,
            self.kept.as_slice(),
            allowed,
            resting,
            roots,
            &mut count,
        )
    }

    /// The numbers reachable from `wanted`, but not from `excluded`, along the parents of commits. Returns `None` if a
    /// number on the way neither rests nor has known links. If some are excluded, and all roots that are allowed have
    /// generation numbers, it visits only what lies between the two sides.
    pub fn history<R: Resting>(
        &self,
        alloc: Global,
        allowed: &NumberSet,
        resting: &R,
        wanted: &[u32],
        excluded: &[u32],
    ) -> Result<Option<NumberSet>, AllocError>
        ensures found { IfOk result (λ r. IfSome r (λ found. (n : ℕ) → (has found n ≡ true) ↔ (IsReached (goes_on along_parents self.now) (has allowed.now) wanted.now n × (IsReached (goes_on along_parents self.now) (has allowed.now) excluded.now n → ⊥)))) }
        ensures known { IfOk result (λ r. IfSome r (λ found. (n : ℕ) → IsReached (goes_on along_parents self.now) (has allowed.now) wanted.now n ⊎ IsReached (goes_on along_parents self.now) (has allowed.now) excluded.now n → RestsOrIsKnown self.now.links (R.rests resting.now) n)) }
        ensures unknown { IfOk result (λ r. IfNone r (ReachesUnknown (goes_on along_parents self.now) self.now.links (R.rests resting.now) (has allowed.now) wanted.now ⊎ ReachesUnknown (goes_on along_parents self.now) self.now.links (R.rests resting.now) (has allowed.now) excluded.now)) }
    {
        let ground = Ground {
            links: &self.links,
            times: &self.times,
            generations: &self.generations,
            allowed,
        };
        let Some(found) = near(alloc, &ground, wanted, excluded)? else {
            return history(
                alloc,
                &self.links,
                &self.times,
                allowed,
                resting,
                wanted,
                excluded,
            );
        };
        Ok(Some(found))
    }
}

// Learns the links of a number and its time.
fn note(
    links: &mut Links,
    times: &mut Times,
    n: u32,
    to: &[u32],
    time: u64,
) -> Result<(), AllocError>
    requires { known links.old n ≡ None }
    ensures only { (q : ℕ) (one : Learned ℕ) → learned (record { links = links.new; times = times.new }) q ≡ Some one → (learned (record { links = links.old; times = times.old }) q ≡ Some one) ⊎ ((q ≡ n) × (one ≡ told to.now time)) }
    ensures ok { OnOk result (is_some (learned (record { links = links.new; times = times.new }) n) ≡ true) }
    ensures stays { (q : ℕ) → is_some (learned (record { links = links.old; times = times.old }) q) ≡ true → learned (record { links = links.new; times = times.new }) q ≡ learned (record { links = links.old; times = times.old }) q }
    ensures kept { (q : ℕ) → is_some (known links.old q) ≡ true → known links.new q ≡ known links.old q }
{
    times.reserve(n)?;
    links.learn(n, to)?;
    times.put(n, time);
    Ok(())
}

// Learns that a number has no links. It is an end then, unless memory runs out.
fn note_end(links: &mut Links, ends: &mut NumberSet, n: u32) -> Result<(), AllocError>
    requires { known links.old n ≡ None }
    ensures only { (q : ℕ) (ms : List ℕ) → known links.new q ≡ Some ms → (known links.old q ≡ Some ms) ⊎ ((q ≡ n) × (ms ≡ [])) }
    ensures ok { OnOk result (known links.new n ≡ Some []) }
    ensures stays { (q : ℕ) → is_some (known links.old q) ≡ true → known links.new q ≡ known links.old q }
    ensures ends { LeadNowhere links.old (has ends.old) → LeadNowhere links.new (has ends.new) }
    ensures kept { (q : ℕ) → has ends.old q ≡ true → has ends.new q ≡ true }
{
    links.learn(n, &[])?;
    let Ok(()) = ends.reserve(n) else {
        return Ok(());
    };
    ends.insert(n);
    Ok(())
}

// The numbers reachable from `wanted` but not from `excluded`.
fn between<R: Resting>(
    alloc: Global,
    links: &Links,
    times: &Times,
    kept: &[Kept],
    allowed: &NumberSet,
    resting: &R,
    wanted: &[u32],
    excluded: &[u32],
) -> Result<Option<NumberSet>, AllocError>
    requires { All (IsKept links.now) kept.now }
    ensures found { IfOk result (λ r. IfSome r (λ found. (n : ℕ) → (has found n ≡ true) ↔ (IsReached (goes_on along_links (record { links = links.now; times = times.now })) (has allowed.now) wanted.now n × (IsReached (goes_on along_links (record { links = links.now; times = times.now })) (has allowed.now) excluded.now n → ⊥)))) }
    ensures known { IfOk result (λ r. IfSome r (λ found. (n : ℕ) → IsReached (goes_on along_links (record { links = links.now; times = times.now })) (has allowed.now) wanted.now n ⊎ IsReached (goes_on along_links (record { links = links.now; times = times.now })) (has allowed.now) excluded.now n → RestsOrIsKnown links.now (R.rests resting.now) n)) }
    ensures unknown { IfOk result (λ r. IfNone r (ReachesUnknown (goes_on along_links (record { links = links.now; times = times.now })) links.now (R.rests resting.now) (has allowed.now) wanted.now ⊎ ReachesUnknown (goes_on along_links (record { links = links.now; times = times.now })) links.now (R.rests resting.now) (has allowed.now) excluded.now)) }
{
    let Some(beyond) = reach_all(alloc, links, kept, allowed, resting, excluded)? else {
        return Ok(None);
    };
    walk(
        alloc,
        links,
        times,
        Along::Links,
        allowed,
        resting,
        wanted,
        &beyond,
    )
}

// The same, following only the parents of commits.
fn history<R: Resting>(
    alloc: Global,
    links: &Links,
    times: &Times,
    allowed: &NumberSet,
    resting: &R,
    wanted: &[u32],
    excluded: &[u32],
) -> Result<Option<NumberSet>, AllocError>
    ensures found { IfOk result (λ r. IfSome r (λ found. (n : ℕ) → (has found n ≡ true) ↔ (IsReached (goes_on along_parents (record { links = links.now; times = times.now })) (has allowed.now) wanted.now n × (IsReached (goes_on along_parents (record { links = links.now; times = times.now })) (has allowed.now) excluded.now n → ⊥)))) }
    ensures known { IfOk result (λ r. IfSome r (λ found. (n : ℕ) → IsReached (goes_on along_parents (record { links = links.now; times = times.now })) (has allowed.now) wanted.now n ⊎ IsReached (goes_on along_parents (record { links = links.now; times = times.now })) (has allowed.now) excluded.now n → RestsOrIsKnown links.now (R.rests resting.now) n)) }
    ensures unknown { IfOk result (λ r. IfNone r (ReachesUnknown (goes_on along_parents (record { links = links.now; times = times.now })) links.now (R.rests resting.now) (has allowed.now) wanted.now ⊎ ReachesUnknown (goes_on along_parents (record { links = links.now; times = times.now })) links.now (R.rests resting.now) (has allowed.now) excluded.now)) }
{
    let none = NumberSet::new(alloc);
    let Some(beyond) = walk(
        alloc,
        links,
        times,
        Along::Parents,
        allowed,
        resting,
        excluded,
        &none,
    )?
    else {
        return Ok(None);
    };
    walk(
        alloc,
        links,
        times,
        Along::Parents,
        allowed,
        resting,
        wanted,
        &beyond,
    )
}
