// The lines of the sheet, and the line of a refusal, as bytes in a lent buffer. Where the buffer ends, the front of the text stands in it
// and the rest is left out.
#![tactic(auto)]

mod ranks;
mod text;

ghost use Rattle.std.specs.Prelude.{◌≡◌, ◌+◌, ◌*◌, MatchOption, Some, None};
ghost use Rattle.machine.specs.Plans.{runs_in};
ghost use Rattle.several.specs.Lists.{list_in};
ghost use Rattle.show.specs.Sheet.{count_of, first_line, rank_line, rank_lines, run_line, run_lines, multi_lines, ranks_in, sheet_text, refusal_text};
ghost use Rattle.show.specs.Written.{Writes};
ghost use Rattle.show.specs.inner.Steps.{Adds, first_run};

use crate::ranks::{COUNTED, count_each, count_of, levels, marked};
use crate::text::Text;
use runs::run_end;

// The buffer ends before the text does.
#[derive(Clone, Copy, Debug, PartialEq, Eq)]
pub struct Short;

// Writes the sheet over the front of out, from the ranks of all couples and the bytes of the stored plan and of the stored list, and
// answers how many bytes it has.
pub fn sheet(
    inputs: usize,
    states: usize,
    ranks: &[u16],
    plan: &[u8],
    list: &[u8],
    out: &mut [u8],
) -> Result<usize, Short>
    ensures { Writes (sheet_text inputs states ranks.now plan.now list.now) result out.old out.new }
{
    let mut text = Text { out, end: 0 };
    text.first_line(inputs, states, ranks.len(), marked(ranks))?;
    text.rank_lines(ranks)?;
    text.run_lines(plan)?;
    text.multi_lines(list)?;
    Ok(text.end)
}

// Writes the line of a refusal over the front of out, for 5 alone with the character, and answers how many bytes it has.
pub fn refusal(
    number: usize,
    place: usize,
    character: usize,
    out: &mut [u8],
) -> Result<usize, Short>
    ensures { Writes (refusal_text number place character) result out.old out.new }
{
    let mut text = Text { out, end: 0 };
    text.named(b"REFUSED", number)?;
    text.field(place)?;
    if number == 5 {
        text.field(character)?;
    }
    text.byte(b'\n')?;
    Ok(text.end)
}

impl Text<'_> {
    // Writes inputs, states, couples and the number of marked couples.
    fn first_line(
        &mut self,
        inputs: usize,
        states: usize,
        couples: usize,
        marked: usize,
    ) -> Result<(), Short>
        ensures { Adds (first_line inputs states couples marked) self.old result self.new }
    {
        self.named(b"INPUTS", inputs)?;
        self.named(b" STATES", states)?;
        self.named(b" COUPLES", couples)?;
        self.named(b" MARKED", marked)?;
        self.byte(b'\n')
    }

    // Writes a line for each rank from 0 to the highest, with its count of couples.
    fn rank_lines(&mut self, ranks: &[u16]) -> Result<(), Short>
        ensures { Adds (rank_lines (λ k. count_of k ranks.now) (ranks_in ranks.now)) self.old result self.new }
    {
        let mut counts = [0usize; COUNTED];
        count_each(ranks, &mut counts);
        for rank in 0..levels(ranks) {
            self.rank_line(rank, count_of(ranks, &counts, rank))?;
        }
        Ok(())
    }

    // Writes a rank and its count of couples.
    fn rank_line(&mut self, rank: usize, count: usize) -> Result<(), Short>
        ensures { Adds (rank_line rank count) self.old result self.new }
    {
        self.named(b"RANK", rank)?;
        self.field(count)?;
        self.byte(b'\n')
    }

    // Writes a line for each run of a stored plan.
    fn run_lines(&mut self, plan: &[u8]) -> Result<(), Short>
        ensures { Adds (run_lines 1 (runs_in plan.now)) self.old result self.new }
    {
        let mut number = 1;
        let mut rest = plan;
        while let Some((settings, others)) = first_run(rest) {
            self.run_line(b"RUN", number, settings)?;
            number += 1;
            rest = others;
        }
        Ok(())
    }

    // Writes a line for each run of a stored list apart from the plan: its count of multiple changes stands in the two bytes before it.
    fn multi_lines(&mut self, list: &[u8]) -> Result<(), Short>
        ensures { Adds (multi_lines (list_in list.now)) self.old result self.new }
    {
        let mut rest = list;
        while let [low, high, stored @ ..] = rest {
            let count = two_bytes(*low, *high);
            let Some((settings, others)) = first_run(stored) else {
                return Ok(());
            };
            self.run_line(b"MULTI", count, settings)?;
            rest = others;
        }
        Ok(())
    }

    // Writes a word, a number and the settings of a run.
    fn run_line(&mut self, name: &[u8], number: usize, settings: &[u8]) -> Result<(), Short>
        ensures { Adds (run_line name.now number settings.now) self.old result self.new }
    {
        self.named(name, number)?;
        self.fields(settings)
    }
}

// The settings of the first run that stored bytes hold, and the bytes behind it: a run ends where its count says, at the latest with the
// bytes.
fn first_run(stored: &[u8]) -> Option<(&[u8], &[u8])>
    ensures { MatchOption result (first_run stored.now ≡ None) (λ p. first_run stored.now ≡ Some (p.0.now, p.1.now)) }
{
    if stored.len() < 2 {
        return None;
    }
    let (run, others) = stored.split_at(run_end(stored, 0));
    Some((&run[2..], others))
}

// A number in two bytes, low byte first.
fn two_bytes(low: u8, high: u8) -> usize
    ensures { result ≡ high * 256 + low }
{
    usize::from(u16::from_le_bytes([low, high]))
}
