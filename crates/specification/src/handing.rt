// The evolutions handed on: the lent records are filled.
ghost use Rattle.std.specs.Prelude.{◌≡◌, ◌++◌, ◌+◌, ◌≤◌, ◌<◌, length, drop, replicate};
ghost use Rattle.evolutions.specs.Evolutions.{blank};
ghost use Rattle.specification.specs.Limits.{most_bytes};
ghost use Rattle.specification.specs.Records.{records};
ghost use Rattle.specification.specs.Evolutions.{evolutions};
ghost use Rattle.specification.specs.inner.Private.{evolution_at};

use crate::records::Records;
use crate::specification::Specification;
use evolutions::Evolution;

// The first `count` records become zero; the others stay.
pub(crate) fn blank(records: &mut [Evolution], count: usize)
    requires { count ≤ length records.old }
    ensures { records.new ≡ replicate count blank ++ drop count records.old }
{
    records[..count].fill(Evolution::default());
}

impl<'a> Records<'a> {
    // The evolution with record r, its text at `at`.
    fn evolution(self, r: usize, at: usize) -> Evolution
        requires { (r < records self.z) × (at ≤ most_bytes) }
        ensures { result ≡ evolution_at self.entry.file.now self.entry.z r at }
    {
        Evolution {
            source: self.source(r),
            target: self.target(r),
            at: at as u16,
            length: self.text_length(r),
        }
    }
}

impl<'a> Specification<'a> {
    // The first records become the evolutions; the others stay.
    pub(crate) fn hand_on(self, records: &mut [Evolution])
        requires { self.z.evolutions ≤ length records.old }
        ensures { records.new ≡ evolutions self.entry.file.now self.entry.z self.entry.z.evolutions ++ drop self.entry.z.evolutions records.old }
    {
        let from = Records {
            file: self.file,
            z: self.z,
        };
        let states = self.z.states;
        let mut at = from.at(states + self.z.evolutions) + from.texts_sum(states);
        for (e, record) in records[..self.z.evolutions].iter_mut().enumerate() {
            *record = from.evolution(states + e, at);
            at += usize::from(from.text_length(states + e));
        }
    }
}
