//! The pairs of processes, as the sets that the questions of a panel watch.
ghost use Rattle.std.specs.Prelude.{◌≡◌, ℕ, ◌+◌, ◌<◌, ◌≤◌, length, All, IfOk, OnOk};
ghost use Rattle.wcp_clock.specs.Limits.{most_processes};
ghost use Rattle.wcp_model.specs.Watched.{AreSomeWatched};
ghost use Rattle.wcp_queue.specs.Pairs.{pair_number, ArePairs, ArePairsBefore};

use std::alloc::{AllocError, Global};
use wcp_model::Watched;

/// The pairs of `n` processes, the lesser number first, in order: (0, 1), (0, 2), .., (1, 2), ..
/// `Err` where memory runs out.
pub fn pairs_of(alloc: Global, n: u32) -> Result<Vec<Watched>, AllocError>
    requires { n ≤ most_processes }
    ensures pairs { IfOk result (λ pairs. ArePairs n pairs.items) }
    ensures watched { IfOk result (λ pairs. All (AreSomeWatched n) pairs.items) }
{
    let mut pairs = Vec::new(alloc);
    for a in 0..n {
        add_pairs(&mut pairs, n, a)?;
    }
    Ok(pairs)
}

/// Adds the pairs of `n` processes whose lesser number is `a`. `Err` where memory runs out.
fn add_pairs(pairs: &mut Vec<Watched>, n: u32, a: u32) -> Result<(), AllocError>
    requires few { n ≤ most_processes }
    requires within { a < n }
    requires pairs { ArePairsBefore n pairs.old.items a (a + 1) }
    requires watched { All (AreSomeWatched n) pairs.old.items }
    ensures pairs { OnOk result (ArePairsBefore n pairs.new.items (a + 1) (a + 2)) }
    ensures watched { OnOk result (All (AreSomeWatched n) pairs.new.items) }
{
    for b in a + 1..n {
        pairs.push(Watched::pair(a, b))?;
    }
    Ok(())
}

/// The number of the pair (`a`, `b`) among the pairs of `n` processes, counted from 0.
pub fn number_of_pair(n: u32, a: u32, b: u32) -> u32
    requires few { n ≤ most_processes }
    requires order { a < b }
    requires within { b < n }
    ensures { result ≡ pair_number n a b }
{
    let mut before = 0;
    for lesser in 0..a {
        before += n - 1 - lesser;
    }
    before + (b - 1 - a)
}
