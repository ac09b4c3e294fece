// The refusals in their order: each call breaks several rules, and fewer from call to call. 0 is no refusal.
use crate::{common, made};
use board::Refusal;

fn place(refusal: Refusal) -> usize {
    match refusal {
        Refusal::Letter(place) | Refusal::Cell(place) => place,
        _ => 0,
    }
}

fn show<T>(answer: &Result<T, Refusal>) {
    io::write_all(1, b" ");
    io::print_decimal(1, common::number(answer) as u64);
    if let Err(refusal) = answer {
        let place = place(*refusal);
        if place != 0 {
            io::write_all(1, b" at ");
            io::print_decimal(1, place as u64);
        }
    }
}

fn show_write(w: usize, h: usize, board: &[u8], room: usize) {
    show(&common::write::<16>(w, h, board, 0..room).0);
}

fn show_read(text: &[u8], at: usize, room: usize) {
    show(&common::read::<600>(text, at, room).0);
}

fn text_out() {
    let bad = [0, 1, 0, 2, 1, 3];
    let good = [0, 1, 0, 1, 1, 0];
    io::write_all(1, b"text out, fewer faults from call to call:");
    show_write(0, 0, &bad, 0);
    show_write(11, 61, &bad, 0);
    show_write(3, 0, &bad, 0);
    show_write(3, 61, &bad, 0);
    show_write(3, 3, &bad, 0);
    show_write(3, 2, &bad, 0);
    show_write(3, 2, &good, 7);
    show_write(3, 2, &good, 8);
    io::write_all(1, b"\n");
}

fn text_in() {
    let mut text = [0u8; 733];
    io::write_all(1, b"text in, fewer faults from call to call:");
    made::fill(&mut text, 12);
    text[732] = b'x';
    show_read(&text, 0, 0);
    show_read(common::first(&text, 732), 0, 0);
    show_read(common::first(&text, 720), 0, 0);
    made::fill(&mut text, 11);
    show_read(common::first(&text, 660), 0, 599);
    show_read(common::first(&text, 660), 0, 600);
    show_read(&text, 733, 600);
    show_read(b"\n", 0, 600);
    show_read(b"!\n", 0, 600);
    io::write_all(1, b"\n");
}

pub fn run() {
    text_out();
    text_in();
}
