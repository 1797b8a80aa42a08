// The machines of the rows: what the table jobs are handed.
use crate::samples::RULED_GATE;
use machine::Frame;
use sets::WORDS;

// The frame, the table of moves, and the output words of the states.
#[derive(Clone, Copy)]
pub(crate) struct Machine<'a> {
    pub frame: Frame,
    pub table: &'a [u8],
    pub words: &'a [u16],
}

impl<'a> Machine<'a> {
    // What a file reads as, into room that is lent.
    pub(crate) fn read(file: &[u8], table: &'a mut [u8], words: &'a mut [u16]) -> Self {
        let frame = specification::read_here(file, table, words).frame;
        Machine {
            frame,
            table,
            words,
        }
    }

    // With other allowed starts.
    pub(crate) fn started(self, starts: [u64; WORDS]) -> Self {
        Machine {
            frame: Frame {
                starts,
                ..self.frame
            },
            ..self
        }
    }
}

// No setting ruled out, initial state 0, and these of the settings below 64 as allowed starts.
fn frame(inputs: usize, states: usize, starts: u64) -> Frame {
    Frame {
        inputs,
        states,
        initial: 0,
        never: [0; WORDS],
        starts: [starts, 0, 0, 0],
    }
}

// The lamp, as its file without kind 6 has it.
pub(crate) fn lamp() -> Machine<'static> {
    lamp_with(0, &[0, 1, 0, 1])
}

// The lamp with an initial state and a table.
fn lamp_with(initial: usize, table: &'static [u8]) -> Machine<'static> {
    Machine {
        frame: Frame {
            initial,
            ..frame(1, 2, 1)
        },
        table,
        words: &[0, 1],
    }
}

// Sizes and tables that are refused, and a table without a start.
pub(crate) fn wrong_lamps() -> [(&'static str, Machine<'static>); 5] {
    [
        ("initial 2 of 2", lamp_with(2, &[0, 1, 0, 1])),
        ("table of 3", lamp_with(0, &[0, 1, 0])),
        ("move to 2 of 2", lamp_with(0, &[0, 1, 0, 2])),
        ("transient", lamp_with(0, &[0, 1, 0, 0])),
        ("no start", lamp_with(0, &[1, 1, 1, 1])),
    ]
}

// The gate, as its file has it: every setting is an allowed start. Its moves are those of source document 002, table 1.
pub(crate) fn gate() -> Machine<'static> {
    Machine {
        frame: frame(4, 3, 65535),
        table: b"\x01\x02\x02\x02\x01\x00\x00\x00\x00\x00\x02\x02\x00\x00\x00\x00\x01\x02\x02\x02\x01\x00\x00\x00\x00\x00\x02\x02\x00\x00\x00\x00\x02\x02\x02\x02\x01\x00\x00\x00\x02\x02\x02\x02\x00\x00\x00\x00",
        words: &[0, 1, 2],
    }
}

// The gate without the settings at which a and b are both on, with the frame that its file has.
pub(crate) fn ruled_gate() -> Machine<'static> {
    Machine {
        frame: Machine::read(&RULED_GATE, &mut [7; 48], &mut [7; 3]).frame,
        ..gate()
    }
}

// Source document 001, table IV, in the order of our settings.
pub(crate) fn table_iv() -> Machine<'static> {
    Machine {
        frame: frame(3, 5, 255),
        table: b"\x02\x01\x02\x00\x02\x00\x02\x00\x01\x01\x03\x03\x04\x04\x02\x00\x02\x01\x02\x00\x02\x00\x02\x00\x03\x03\x03\x03\x02\x00\x02\x00\x04\x04\x02\x00\x04\x04\x02\x00",
        words: &[],
    }
}

// The pair, two inputs: with one on every state moves to 0, with both to 1; with none state 1 moves to 2, and the others rest.
pub(crate) fn pair() -> Machine<'static> {
    Machine {
        frame: frame(2, 3, 1),
        table: b"\x00\x00\x00\x01\x02\x00\x00\x01\x02\x00\x00\x01",
        words: &[0, 1, 2],
    }
}
