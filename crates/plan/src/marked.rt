// What marking leaves: the weight of the run to each couple and the couple before it on that run.
ghost use Rattle.plan.specs.inner.Choosing.{Room};

use tables::jobs::SizedJob;

// The weights and parents of a job's couples, by which the runs of its plan, or of its list, are chosen and written.
#[derive(Clone, Copy)]
pub(crate) struct Marked<'a> {
    pub(crate) several: bool,
    pub(crate) table: &'a [u8],
    pub(crate) weights: &'a [u32],
    pub(crate) parents: &'a [u16],
    pub(crate) size: usize,
    pub(crate) couples: usize,
    pub(crate) ghost room: { Room table.now parents.now weights.now size couples },
}

impl<'a> Marked<'a> {
    ghost use Rattle.std.specs.Prelude.{◌≡◌};
    ghost use Rattle.machine.specs.Runs.{size, couples};
    ghost use Rattle.tables.specs.Tables.{machine_in};

    // What marking left of a job that it did not refuse.
    pub(crate) fn of(sized: SizedJob<'a>, weights: &'a [u32], parents: &'a [u16]) -> Self
        requires { Room sized.job.table.now parents.now weights.now (size (machine_in sized.job)) (couples (machine_in sized.job)) }
        ensures numbers { (result.several ≡ sized.entry.job.several) × (result.size ≡ size (machine_in sized.entry.job)) × (result.couples ≡ couples (machine_in sized.entry.job)) }
        ensures lists { (result.table.now ≡ sized.entry.job.table.now) × (result.weights.now ≡ weights.now) × (result.parents.now ≡ parents.now) }
    {
        Marked {
            several: sized.job.several,
            table: sized.job.table,
            weights,
            parents,
            size: sized.settings(),
            couples: sized.couples(),
        }
    }
}
