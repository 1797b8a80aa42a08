// The queue of marking: couples enter it when they get a weight.
ghost use Rattle.std.specs.Prelude.{◌≡◌, ℕ, ◌^◌, ◌<◌, length};
ghost use Rattle.machine.specs.Runs.{size, couples};
ghost use Rattle.several.specs.Weights.{unweighed};
ghost use Rattle.tables.specs.Tables.{machine_in};
ghost use Rattle.marking.specs.inner.Engine.{ByChange, ByStarts};
ghost use Rattle.marking.specs.inner.Lent.{Lent, RoomIn, RoomFor, PushedIn};

use crate::UNWEIGHED;
use tables::jobs::{SizedJob, SoundJob};

// The weight and parent of each couple as far as they are told, and the couples that have a weight: the first `tail` of the queue.
#[derive(Drop)]
pub(crate) struct Queue<'a> {
    pub(crate) weights: &'a mut [u32],
    pub(crate) parents: &'a mut [u16],
    pub(crate) couples: &'a mut [u16],
    pub(crate) tail: usize,
}

// What a change offers to the couples that it visits: a weight, and the couple before it as parent.
#[derive(Clone, Copy)]
pub(crate) struct Offered {
    pub(crate) weight: u32,
    pub(crate) parent: u16,
}

impl<'a> Queue<'a> {
    // A couple without a weight takes the one offered and enters the queue; of two parents of that weight the smaller one stays.
    fn push(&mut self, couple: usize, offer: Offered)
        requires { RoomIn self.old × (couple < length self.old.weights.now) × (offer.weight < unweighed) }
        ensures pushed { PushedIn (λ (d : ℕ). d ≡ couple) offer.weight offer.parent self.old self.new }
        ensures lent { Lent self.old self.new }
    {
        if self.weights[couple] == UNWEIGHED {
            self.weights[couple] = offer.weight;
            self.parents[couple] = offer.parent;
            self.couples[self.tail] = couple as u16;
            self.tail += 1;
        } else if self.weights[couple] == offer.weight && offer.parent < self.parents[couple] {
            self.parents[couple] = offer.parent;
        }
    }

    // In a state, a change to a setting: both couples that it visits.
    pub(crate) fn change(&mut self, sound: SoundJob, state: usize, setting: usize, offer: Offered)
        requires room { RoomFor (machine_in sound.job) self.old × (offer.weight < unweighed) }
        requires inside { (state < sound.job.frame.states) × (setting < 2 ^ sound.job.frame.inputs) }
        ensures pushed { PushedIn (ByChange (machine_in sound.entry.job) state setting) offer.weight offer.parent self.old self.new }
        ensures lent { Lent self.old self.new }
    {
        let couple = sound.couple(state, setting);
        let moved = sound.couple(usize::from(sound.job.table[couple]), setting);
        self.push(couple, offer);
        if moved != couple {
            self.push(moved, offer);
        }
    }

    // Each setting that is a start: its couple of the initial state, by no change.
    pub(crate) fn give_starts(&mut self, sized: SizedJob)
        requires { RoomFor (machine_in sized.job) self.old }
        ensures pushed { PushedIn (ByStarts (machine_in sized.entry.job) (size (machine_in sized.entry.job))) 0 0 self.old self.new }
        ensures lent { Lent self.old self.new }
    {
        let offer = Offered {
            weight: 0,
            parent: 0,
        };
        for v in 0..sized.settings() {
            if sized.is_start(v) {
                self.push(sized.couple(sized.job.frame.initial, v), offer);
            }
        }
    }
}
