// The row about the conditions of evolutions, by the records that reading the lamp handed on: 1 where one holds, else 0.
use crate::lines::Numbers;
use crate::samples::LAMP;
use evolutions::{Evolution, evolution_holds};
use specification::EVOLUTIONS;
use std::io;

pub(crate) fn rows(out: &impl Print) -> io::Result<()> {
    // Three, of which the lamp fills two.
    let mut records = [Evolution::default(); 3];
    specification::read(&LAMP, &mut [0; 4], &mut [0; 2], &mut records);
    let holds = |text: &[u8], evolution, inputs, setting| {
        u8::from(evolution_holds(&records, evolution, text, inputs, setting))
    };
    let settings = [
        holds(&LAMP, 0, 1, 0),
        holds(&LAMP, 0, 1, 1),
        holds(&LAMP, 1, 1, 0),
        holds(&LAMP, 1, 1, 1),
    ];
    // One beyond the list, one beyond the records.
    let beyond = [holds(&LAMP, 2, 1, 0), holds(&LAMP, EVOLUTIONS, 1, 0)];
    // In the file one byte short, where the second ends beyond it.
    let short = [holds(&LAMP[..46], 0, 1, 1), holds(&LAMP[..46], 1, 1, 0)];
    // With no inputs and with 9.
    let inputs = [holds(&LAMP, 0, 0, 1), holds(&LAMP, 0, 9, 1)];
    print!(out; "evolutions {} {}", Numbers(&settings), Numbers(&beyond))?;
    println!(out; " {} {}", Numbers(&short), Numbers(&inputs))
}
