// Texts made byte by byte: rows of dead cells, and a long text of rows and comments.

// A cell of the long text.
pub fn cell(k: usize) -> u8 {
    u8::from(k % 3 == 0 || k % 7 == 2)
}

fn comment_byte(i: usize) -> u8 {
    match i % 256 {
        10 => b'!',
        byte => byte as u8,
    }
}

// Byte i of the long text: a comment of 64 bytes that may hold every byte but LF, then a row of 10 letters with CR and LF.
fn long_byte(i: usize) -> u8 {
    match i % 76 {
        0 => b'!',
        63 => b'\n',
        74 => b'\r',
        75 => b'\n',
        64..=73 => if cell(i / 76 * 10 + i % 76 - 64) == 0 {
            b'.'
        } else {
            b'O'
        },
        _ => comment_byte(i),
    }
}

// Byte i of rows that take so many bytes each, or of the long text, where they take 76.
fn byte(period: usize, i: usize) -> u8 {
    match period {
        76 => long_byte(i),
        0 => b'\n',
        _ if i % period == period - 1 => b'\n',
        _ => b'.',
    }
}

pub fn fill(text: &mut [u8], period: usize) {
    for (i, place) in text.iter_mut().enumerate() {
        *place = byte(period, i);
    }
}
