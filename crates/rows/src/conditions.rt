// The rows about conditions: for each text 0 0 where it reads, 5 and the character where it does not.
use condition::Unread;
use std::io;
use verdict::Refusal;

pub(crate) fn rows(out: &impl Print) -> io::Result<()> {
    row(out, "unread", &[(b"a+", 2), (b"()", 2), (b"c", 2)])?;
    // A letter is below the number of inputs and one of a to h.
    row(out, "letters", &[(b"h", 9), (b"i", 9), (b"a", 0)])?;
    // 8 and 9 nested parentheses.
    row(
        out,
        "parentheses",
        &[(b"((((((((a))))))))", 1), (b"(((((((((a)))))))))", 1)],
    )?;
    characters(out)
}

// Texts that are wrong in the middle, at their end or at their front, one that stops too early, and one as long as a file may have it.
fn characters(out: &impl Print) -> io::Result<()> {
    row(
        out,
        "characters",
        &[
            (b"a b", 2),
            (b"0a", 1),
            (b"!a)", 1),
            (b"(((((((((", 1),
            (b")", 1),
            (b"a.", 1),
            (b"", 1),
            (&[b'!'; 255], 1),
        ],
    )
}

// Texts, each read at so many inputs; where one does not read, what it says does not depend on the setting: it is read at 0.
fn row(out: &impl Print, what: &str, texts: &[(&[u8], usize)]) -> io::Result<()> {
    print!(out; "{what}")?;
    for &(text, inputs) in texts {
        let (number, character) = match condition::read(text, inputs, 0) {
            Ok(_) => (0, 0),
            Err(Unread { character }) => (Refusal::Unread(0).number(), character),
        };
        print!(out; " | {number} {character}")?;
    }
    println!(out;)
}
