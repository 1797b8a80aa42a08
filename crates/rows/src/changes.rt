// Bytes of a file changed as a text says: blanks between the changes, each a place, then `=` and the byte there as a number, or `'` and
// the byte itself.

// Makes the changes; one that does not read, or whose place the file does not have, changes nothing.
pub(crate) fn change(file: &mut [u8], changes: &str) {
    for change in changes.split_whitespace() {
        if let Some((place, byte)) = place_and_byte(change)
            && let Some(there) = file.get_mut(place)
        {
            *there = byte;
        }
    }
}

fn place_and_byte(change: &str) -> Option<(usize, u8)> {
    if let Some((place, byte)) = change.split_once('\'') {
        return Some((place.parse().ok()?, byte.bytes().next()?));
    }
    let (place, byte) = change.split_once('=')?;
    Some((place.parse().ok()?, byte.parse().ok()?))
}
