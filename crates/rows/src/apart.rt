// The rows about the list apart from the plan: the answer and every byte of the list that was lent, 7 before; then the ranks' counts.
use crate::lines::answered;
use crate::machines::{Machine, gate, lamp, pair, ruled_gate};
use crate::ranks::counted;
use plan::{multi_list, multi_run_to};
use readings::multi_expected;
use sets::WORDS;
use std::io;

pub(crate) fn rows(out: &impl Print) -> io::Result<()> {
    // The list of the lamp, which is empty, and the lamp without a start.
    lamp().listed(out, "lamp list", &mut [7; 4], 2, &mut [7; 1])?;
    let nowhere = lamp().started([0; WORDS]);
    let what = "lamp list, no allowed start";
    nowhere.listed(out, what, &mut [7; 4], 0, &mut [7; 1])?;
    // The list of the gate where it fits, one byte short, and without the settings at which a and b are both on.
    gate().listed(out, "gate list", &mut [7; 48], 3, &mut [7; 57])?;
    let what = "gate list into 55 bytes";
    gate().listed(out, what, &mut [7; 48], 3, &mut [7; 55])?;
    let what = "gate without a.b, list";
    ruled_gate().listed(out, what, &mut [7; 48], 3, &mut [7; 29])?;
    pair_rows(out)
}

// Runs with one multiple change where fewer changes would have two, and with two; the list, whose first run visits 4 and 8; readings.
fn pair_rows(out: &impl Print) -> io::Result<()> {
    let pair = pair();
    for couple in [4, 8, 11] {
        let what = format_args!("pair multi run to {couple}");
        pair.run_to(out, what, multi_run_to, couple, &mut [7; 6])?;
    }
    pair.listed(out, "pair list", &mut [7; 12], 3, &mut [7; 36])?;
    let what = "pair multi readings of 0 3 0";
    pair.readings(out, what, multi_expected, &[0, 3, 0])
}

impl Machine<'_> {
    // The list, and the counts of the ranks up to the highest.
    fn listed(
        self,
        out: &impl Print,
        what: &str,
        ranks: &mut [u16],
        highest: u16,
        room: &mut [u8],
    ) -> io::Result<()> {
        let told = multi_list(self.frame, self.table, ranks, room);
        answered(out, what, told, room)?;
        counted(out, what, ranks, highest)
    }
}
