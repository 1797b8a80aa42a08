// Marking (document 01, "Runs and ranks"; document 02, ticket 6): the rank of each couple; and the weight of the run to it, by single changes
// or by several inputs at once, with its parent, the couple before it on that run.
#![tactic(auto)]

ghost use Rattle.std.specs.Prelude.{◌≡◌, ◌≤◌, length, get_or, IfOk};
ghost use Rattle.verdict.specs.Buffers.{Filled};
ghost use Rattle.verdict.specs.Refusals.{verdict_of};
ghost use Rattle.machine.specs.Runs.{machine_of, couples};
ghost use Rattle.tables.specs.Tables.{machine_in};
ghost use Rattle.marking.specs.Marking.{MarkedAs, ParentedAs};
ghost use Rattle.marking.specs.inner.Parts.{SizedAs, Exact, Blank, WeighedAs, rank_of, ExactAs};

use machine::{COUPLES, Frame, UNMARKED};
use tables::Job;
use tables::jobs::SizedJob;
use verdict::{Refusal, Room, check_rooms};

mod changes;
mod queue;
mod rounds;

// What stands in place of a weight for a couple that no run visits.
pub const UNWEIGHED: u32 = 4294967295;

// What a multiple change weighs more than a single one.
pub const EXTRA: u32 = 65536;

// The rank of each couple, 65,535 where it is not marked; or the first failing check at its smallest place.
pub fn mark(frame: Frame, table: &[u8], ranks: &mut [u16]) -> Result<(), Refusal>
    ensures { MarkedAs (machine_of frame table.now) ranks.old (verdict_of result) ranks.new }
{
    let mut weights = [0u32; COUPLES];
    let mut parents = [0u16; COUPLES];
    mark_parents(Job::single(frame, table), ranks, &mut weights, &mut parents)
}

// The same with the weight of the run to each couple, one input changing at a time or several at once, and its parent, 0 where it has none.
pub fn mark_parents(
    job: Job,
    ranks: &mut [u16],
    weights: &mut [u32],
    parents: &mut [u16],
) -> Result<(), Refusal>
    ensures { ParentedAs (machine_in job.entry) ranks.old weights.old parents.old (verdict_of result) ranks.new weights.new parents.new }
{
    let sized = check_sizes(job, ranks.len(), weights.len(), parents.len())?;
    let needed = sized.couples();
    mark_exact(
        sized,
        &mut ranks[..needed],
        &mut weights[..needed],
        &mut parents[..needed],
    )
}

// Refusals 2 and 3, with room for so many ranks, weights and parents.
fn check_sizes<'a>(
    job: Job<'a>,
    ranks: usize,
    weights: usize,
    parents: usize,
) -> Result<SizedJob<'a>, Refusal>
    ensures verdict { SizedAs (machine_in job.entry) ranks weights parents (verdict_of result) }
    ensures job { IfOk result (λ sized. sized.job ≡ job.entry) }
{
    let sized = job.check_sizes()?;
    let needed = sized.couples();
    check_rooms(
        Room { needed, has: ranks },
        Room {
            needed,
            has: weights,
        },
        Room {
            needed,
            has: parents,
        },
    )?;
    Ok(sized)
}

// Refusals 4, 10 and 13, and the buffers, of as many elements as there are couples. The ranks' buffer is the queue until the ranks are told.
fn mark_exact(
    sized: SizedJob,
    ranks: &mut [u16],
    weights: &mut [u32],
    parents: &mut [u16],
) -> Result<(), Refusal>
    requires { Exact (machine_in sized.job) weights.old parents.old × (length ranks.old ≡ couples (machine_in sized.job)) }
    ensures { ExactAs (machine_in sized.entry.job) ranks.old weights.old parents.old (verdict_of result) ranks.new weights.new parents.new }
{
    weights.fill(UNWEIGHED);
    parents.fill(0);
    let result = weigh(sized, weights, parents, ranks);
    give_ranks(weights, ranks);
    result
}

// Refusals 4, 10 and 13, and the weights and parents in blank buffers; the queue has room for each couple.
fn weigh(
    sized: SizedJob,
    weights: &mut [u32],
    parents: &mut [u16],
    queue: &mut [u16],
) -> Result<(), Refusal>
    requires { Blank (machine_in sized.job) weights.old parents.old × (length weights.old ≤ length queue.old) }
    ensures { WeighedAs (machine_in sized.entry.job) (verdict_of result) weights.new parents.new }
{
    let sound = sized.check_moves()?;
    if !sized.started() {
        return Err(Refusal::NoStart);
    }
    rounds::fill(sound, weights, parents, queue);
    Ok(())
}

// The rank of each couple: the weight of a run without multiple changes.
fn give_ranks(weights: &[u32], ranks: &mut [u16])
    requires { length weights.now ≡ length ranks.old }
    ensures { Filled (length ranks.old) (λ c x. x ≡ rank_of (get_or weights.now c 0)) ranks.old ranks.new }
{
    for (c, rank) in ranks.iter_mut().enumerate() {
        *rank = rank_of(weights[c]);
    }
}

fn rank_of(weight: u32) -> u16
    ensures { result ≡ rank_of weight }
{
    if weight < EXTRA {
        return weight as u16;
    }
    UNMARKED
}
