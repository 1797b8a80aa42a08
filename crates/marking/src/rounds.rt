// Marking in the order of weights: a change weighs 1, a multiple change 65,536 more. The queue holds the couples with a weight, the lighter
// first; those before its first head have had their single changes, those before its second their multiple ones.
ghost use Rattle.std.specs.Prelude.{◌≡◌, suc, ◌+◌, ◌≤◌, ◌<◌, length, get_or};
ghost use Rattle.verdict.specs.Checks.{Decides};
ghost use Rattle.several.specs.Weights.{extra, unweighed};
ghost use Rattle.tables.specs.Tables.{machine_in};
ghost use Rattle.marking.specs.inner.Engine.{Spreading, SpreadAs, Light, Next, RoundLeft};
ghost use Rattle.marking.specs.inner.Lent.{Lent, ProgressIn};
ghost use Rattle.marking.specs.inner.Parts.{Blank, Weighed};

use crate::changes::Changes;
use crate::queue::Queue;
use tables::jobs::SoundJob;

// Where the heads of the queue are: the one that makes single changes, and the one that makes multiple ones.
#[derive(Clone, Copy)]
struct Heads {
    single: usize,
    many: usize,
}

impl<'a> Queue<'a> {
    // One head goes over the queue from `from` on and before `to`, as long as its changes bring couples to a weight. Answers where it came to.
    // Inlined, so that the queue is no place in memory that the loops read again after each write.
    #[inline(always)]
    fn spread(
        &mut self,
        sound: SoundJob,
        changes: Changes,
        from: usize,
        to: usize,
        weight: u32,
    ) -> usize
        requires { Spreading (machine_in sound.job) self.old.weights.now self.old.parents.now self.old.couples.now weight from to self.old.tail }
        ensures spread { SpreadAs (machine_in sound.entry.job) changes weight from to self.old.weights.now self.old.parents.now self.old.couples.now self.old.tail self.new.weights.now self.new.parents.now self.new.couples.now result self.new.tail }
        ensures lent { Lent self.old self.new }
    {
        for head in from..to {
            let couple = usize::from(self.couples[head]);
            if self.weights[couple] + changes.weight() != weight {
                return head;
            }
            self.expand(sound, changes, couple, weight);
        }
        to
    }

    // The weight of the couple at a place of the queue.
    fn weight_at(&self, place: usize) -> u32
        requires { Light self.now.weights.now self.now.couples.now place }
        ensures { (result ≡ get_or self.now.weights.now (get_or self.now.couples.now place 0) 0) × (result + suc extra ≤ unweighed) }
    {
        self.weights[usize::from(self.couples[place])]
    }

    // The next weight to offer: the least that the couples under the two heads lead to.
    fn next_weight(&self, heads: Heads) -> u32
        requires { (heads.many < self.now.tail) × Light self.now.weights.now self.now.couples.now heads.many × (heads.single < self.now.tail → Light self.now.weights.now self.now.couples.now heads.single) }
        ensures { Next result self.now.weights.now self.now.couples.now heads.single heads.many self.now.tail }
    {
        let other = self.weight_at(heads.many) + Changes::Multiple.weight();
        if self.tail <= heads.single {
            return other;
        }
        let one = self.weight_at(heads.single) + Changes::Single.weight();
        other.min(one)
    }

    // Whether a round is left: some couple has no weight, and the head that has the most to go over is not at the queue's end.
    fn round_left(&self, several: bool, heads: Heads) -> bool
        ensures { Decides (RoundLeft several heads.single heads.many self.now.tail (length self.now.weights.now)) result }
    {
        let head = if several { heads.many } else { heads.single };
        self.tail < self.weights.len() && head < self.tail
    }

    // A round: each head goes on as far as its changes lead to the next weight, over the couples that were in the queue before.
    fn round(&mut self, sound: SoundJob, heads: Heads) -> Heads
        requires { ProgressIn (machine_in sound.job) self.old heads × RoundLeft sound.job.several heads.single heads.many self.old.tail (length self.old.weights.now) }
        ensures progress { ProgressIn (machine_in sound.entry.job) self.new result }
        ensures further { heads.single + heads.many < result.single + result.many }
        ensures lent { Lent self.old self.new }
    {
        let weight = self.next_weight(heads);
        let end = self.tail;
        let single = self.spread(sound, Changes::Single, heads.single, end, weight);
        let many = self.spread(sound, Changes::Multiple, heads.many, end, weight);
        Heads { single, many }
    }
}

// The weights and parents of a sound machine, in blank buffers of as many elements as there are couples; the queue has room for each.
pub(crate) fn fill(sound: SoundJob, weights: &mut [u32], parents: &mut [u16], couples: &mut [u16])
    requires { Blank (machine_in sound.job) weights.old parents.old × (length weights.old ≤ length couples.old) }
    ensures { Weighed (machine_in sound.entry.job) weights.new parents.new }
{
    let mut queue = Queue {
        weights,
        parents,
        couples,
        tail: 0,
    };
    queue.give_starts(sound.sized());
    let mut heads = Heads { single: 0, many: 0 };
    while queue.round_left(sound.job.several, heads) {
        heads = queue.round(sound, heads);
    }
}
