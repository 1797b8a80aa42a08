// The changes from a couple of the queue: single ones, an input flipped, and multiple ones, to any other setting.
ghost use Rattle.std.specs.Prelude.{◌≡◌, true, ◌^◌, ◌<◌};
ghost use Rattle.verdict.specs.Checks.{Decides};
ghost use Rattle.machine.specs.Limits.{most_inputs, most_settings};
ghost use Rattle.machine.specs.Couples.{differing};
ghost use Rattle.machine.specs.inner.Flips.{flipped};
ghost use Rattle.tables.specs.Tables.{machine_in};
ghost use Rattle.marking.specs.inner.Engine.{weight_of, tried, Told, ByRest, Expands};
ghost use Rattle.marking.specs.inner.Lent.{Lent, PushedIn};

use crate::EXTRA;
use crate::queue::{Offered, Queue};
use tables::Job;
use tables::jobs::SoundJob;

// Which changes a head of the queue makes.
#[derive(Clone, Copy)]
pub(crate) enum Changes {
    Single,
    Multiple,
}

impl Changes {
    // What one of them weighs.
    pub(crate) fn weight(self) -> u32
        ensures { result ≡ weight_of self }
    {
        match self {
            Changes::Single => 1,
            Changes::Multiple => EXTRA + 1,
        }
    }

    // How many are tried from a setting.
    fn tried(self, sound: SoundJob) -> usize
        ensures { result ≡ tried self (machine_in sound.entry.job) }
    {
        match self {
            Changes::Single => sound.job.frame.inputs,
            Changes::Multiple => sound.settings(),
        }
    }

    // The setting to which the one with number i leads, where a run may make it.
    fn to(self, sound: SoundJob, from: usize, i: usize) -> Option<usize>
        requires { (from < 2 ^ sound.job.frame.inputs) × (i < tried self (machine_in sound.job)) }
        ensures { Told self (machine_in sound.entry.job) from i result }
    {
        match self {
            Changes::Single => {
                let to = flip(from, i);
                sound.job.frame.usable(to).then_some(to)
            }
            Changes::Multiple => many_change(sound.job, from, i).then_some(i),
        }
    }
}

// The setting with input i flipped.
fn flip(setting: usize, i: usize) -> usize
    requires { (i < most_inputs) × (setting < most_settings) }
    ensures { result ≡ flipped setting (2 ^ i) }
{
    setting ^ (1 << i)
}

// Whether a run may make a change, and it is of two inputs or more.
fn many_change(job: Job, from: usize, to: usize) -> bool
    requires { (from < 2 ^ job.frame.inputs) × (to < 2 ^ job.frame.inputs) }
    ensures { Decides ((1 < differing job.entry.frame.inputs from to) × ((machine_in job.entry).may_change from to ≡ true)) result }
{
    job.several && usize::count_ones(from ^ to) >= 2 && job.frame.usable(to)
}

impl<'a> Queue<'a> {
    // A couple of the queue, expanded where it is at rest: each change of a kind that a run may make.
    pub(crate) fn expand(&mut self, sound: SoundJob, changes: Changes, couple: usize, weight: u32)
        requires { Expands (machine_in sound.job) self.old.weights.now self.old.parents.now self.old.couples.now self.old.tail couple weight }
        ensures pushed { PushedIn (ByRest changes (machine_in sound.entry.job) couple) weight couple self.old self.new }
        ensures lent { Lent self.old self.new }
    {
        let settings = sound.settings();
        let state = couple / settings;
        let setting = couple % settings;
        if usize::from(sound.job.table[couple]) != state {
            return;
        }
        let offer = Offered {
            weight,
            parent: couple as u16,
        };
        for i in 0..changes.tried(sound) {
            if let Some(to) = changes.to(sound, setting, i) {
                self.change(sound, state, to, offer);
            }
        }
    }
}
