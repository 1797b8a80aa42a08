// The rows about table jobs that are told of few starts: the gate from setting 8 alone, and the lamp from none.
use crate::machines::{gate, lamp};
use sets::WORDS;
use std::io;

pub(crate) fn rows(out: &impl Print) -> io::Result<()> {
    let from_8 = gate().started(sets::with([0; WORDS], 8));
    from_8.published(out, "gate from 8", &mut [7; 48], 5)?;
    // A run that starts at 8, and one that starts at 5, where the initial state rests too.
    let what = "gate from 8, run to 44";
    from_8.run_to(out, what, plan::run_to, 44, &mut [7; 5])?;
    let what = "gate, run that starts at 5";
    gate().readings(out, what, readings::expected, &[5, 1])?;
    let what = "gate from 8, run that starts at 5";
    from_8.readings(out, what, readings::expected, &[5, 1])?;
    let what = "gate from 8, plan of a run that starts at 5";
    from_8.shortened(out, what, &mut [2, 0, 5, 1])?;
    lamp_ranks(out)
}

// Allowed starts of the lamp that are none: no setting, the one at which it does not rest, and settings that it does not have.
fn lamp_ranks(out: &impl Print) -> io::Result<()> {
    let starts = [
        ("no allowed start", [0; WORDS]),
        ("allowed start without rest", [2, 0, 0, 0]),
        ("allowed starts beyond the settings", [4, 1, 1, 1]),
    ];
    for (fault, starts) in starts {
        let what = format_args!("marking, {fault}");
        lamp().started(starts).marked(out, what)?;
    }
    Ok(())
}
