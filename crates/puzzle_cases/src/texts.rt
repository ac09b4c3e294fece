// The texts that are tried.
use crate::answers;
use crate::judge::Size;

pub fn refused() {
    show(&[
        ("no text", ""),
        ("a comment alone", "! O\n"),
        ("one empty line", "\n"),
        ("a row of 11", "...........\n"),
        ("a wrong byte", "..\n.x\n"),
        ("8 by 1", "........\n"),
        ("3 by 2, the second row live", "...\nOOO\n"),
        ("8 by 1, three live", ".....OOO\n"),
    ]);
}

pub fn infeasible() {
    show(&[
        ("1 by 1, live", "O\n"),
        ("3 by 1, the first live", "O.."),
        ("3 by 3, the second row live", "...\nOOO\n...\n"),
    ]);
}

pub fn scored() {
    show(&[
        ("1 by 1", "."),
        ("2 by 2", "..\n..\n"),
        ("2 by 2, the first live", "O\r\n..\r\n"),
        ("3 by 2", "...\n...\n"),
        ("3 by 3", "!\n...\n\n..."),
        ("4 by 5", "....\n....\n....\n....\n....\n"),
    ]);
}

fn show(texts: &[(&str, &str)]) {
    for (name, text) in texts {
        answers::show(*name, text.as_bytes(), None);
    }
}

// A wrong byte, then a comment, and 2 by 2.
pub fn longest() {
    let mut text = [b'!'; 4097];
    text[0] = b'x';
    text[4091] = b'\n';
    text[4092] = b'.';
    text[4093] = b'.';
    text[4094] = b'\n';
    text[4095] = b'.';
    text[4096] = b'.';
    answers::show("4,097 bytes, the first one wrong", &text, None);
    answers::show("4,096 bytes", &text[1..], None);
}

// Grids whose whole tables would have more entries than the program's, and one of 60 rows.
pub fn large() {
    for (width, height) in [
        (4, 60),
        (5, 33),
        (6, 9),
        (7, 1),
        (7, 2),
        (7, 3),
        (7, 7),
        (7, 10),
    ] {
        let size = Size { width, height };
        show_free(size, Some(size));
    }
}

// 61 rows are refused before the table is; 8 columns by the table, however few the rows are.
pub fn too_large() {
    for (width, height) in [(4, 61), (7, 61), (8, 2), (8, 60), (10, 1), (10, 60)] {
        show_free(Size { width, height }, None);
    }
}

// A table with one entry too few.
pub fn short_table() {
    answers::show_in::<&str, 32767, { puzzle::OUTPUT }>("32,767 entries", b"..\n..\n", None);
}

// An output with one byte too many.
pub fn long_output() {
    answers::show_in::<&str, { puzzle::ENTRIES }, 666>("an output of 666 bytes", b"..\n..\n", None);
}

// A grid of free cells, in up to 660 bytes.
fn show_free(size: Size, judged: Option<Size>) {
    let mut text = [b'.'; 660];
    let row = size.width.saturating_add(1);
    for end in text.iter_mut().skip(size.width).step_by(row) {
        *end = b'\n';
    }
    let n = row.saturating_mul(size.height).min(text.len());
    answers::show(size, &text[..n], judged);
}
