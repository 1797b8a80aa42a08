// How many couples each rank has.
ghost use Rattle.std.specs.Prelude.{◌≡◌, length};
ghost use Rattle.show.specs.Sheet.{count_of, marked_in, ranks_in};
ghost use Rattle.show.specs.inner.Steps.{counted, Counted};

use machine::{COUPLES, UNMARKED};

// Ranks below this are counted together; an eighth of those that a machine may have, so that the counts take little of the stack.
pub(crate) const COUNTED: usize = COUPLES / 8;

// How many couples are marked.
pub(crate) fn marked(ranks: &[u16]) -> usize
    ensures { result ≡ marked_in ranks.now }
{
    ranks.iter().filter(|rank| **rank != UNMARKED).count()
}

// How many ranks there are from 0 to the highest.
pub(crate) fn levels(ranks: &[u16]) -> usize
    ensures { result ≡ ranks_in ranks.now }
{
    ranks
        .iter()
        .filter(|rank| **rank != UNMARKED)
        .map(|rank| usize::from(*rank) + 1)
        .max()
        .unwrap_or(0)
}

// Counts the couples of each rank below COUNTED.
pub(crate) fn count_each(ranks: &[u16], counts: &mut [usize; COUNTED])
    ensures { Counted counted ranks.now counts.new }
{
    counts.fill(0);
    for rank in ranks {
        let at = usize::from(*rank);
        if at < COUNTED {
            counts[at] += 1;
        }
    }
}

// How many couples have a rank: from the counts where they reach, and by one more pass beyond them.
pub(crate) fn count_of(ranks: &[u16], counts: &[usize; COUNTED], rank: usize) -> usize
    requires { Counted counted ranks.now counts.now }
    ensures { result ≡ count_of rank ranks.now }
{
    if rank < COUNTED {
        return counts[rank];
    }
    ranks.iter().filter(|r| usize::from(**r) == rank).count()
}
