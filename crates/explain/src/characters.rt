pub fn is_blank(byte: u8) -> bool {
    byte == b' ' || byte == b'\t' || byte == b'\r' || byte == b'\n'
}

fn len_of_lead(lead: u8) -> usize {
    match lead {
        0xC2..=0xDF => 2,
        0xE0..=0xEF => 3,
        0xF0..=0xF4 => 4,
        _ => 1,
    }
}

/// How many bytes the character has that begins at this place. A byte that begins none counts as one.
pub fn char_len(bytes: &[u8], at: usize) -> usize {
    let len = len_of_lead(bytes.get(at).copied().unwrap_or(0));
    for more in 1..len {
        let byte = bytes.get(at.saturating_add(more)).copied().unwrap_or(0);
        if byte & 0xC0 != 0x80 {
            return 1;
        }
    }
    len
}

/// Whether a terminal prints the character there and does nothing else: it is no control character, and none that turns the direction of
/// a text.
pub fn is_printable(bytes: &[u8], at: usize) -> bool {
    let first = bytes.get(at).copied().unwrap_or(0);
    let second = bytes.get(at.saturating_add(1)).copied().unwrap_or(0);
    let third = bytes.get(at.saturating_add(2)).copied().unwrap_or(0);
    match char_len(bytes, at) {
        1 => (b' '..0x7F).contains(&first),
        2 => first != 0xC2 || second >= 0xA0,
        3 => !is_mark_of_direction(first, second, third),
        _ => true,
    }
}

fn is_mark_of_direction(first: u8, second: u8, third: u8) -> bool {
    let low = second == 0x80 && (0x8B..=0x8F).contains(&third);
    let embeds = second == 0x80 && (0xA8..=0xAE).contains(&third);
    let isolates = second == 0x81 && third >= 0xA6;
    first == 0xE2 && (low || embeds || isolates)
}

/// The number of characters.
pub fn count_characters(bytes: &[u8]) -> usize {
    let mut next = 0;
    let mut count: usize = 0;
    for at in 0..bytes.len() {
        if at == next {
            next = at.saturating_add(char_len(bytes, at));
            count = count.saturating_add(1);
        }
    }
    count
}
