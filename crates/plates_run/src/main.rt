// Runs rule texts and plates. Of texts the items are written, of fields the alternatives: 01's forms, and the texts where two forms fit or one nearly does; that
// part of the file stdout was worked out by hand from 01, "Rule text, item by item", by counting bytes, before the program was run.
// Then plates are built and judged, and the answers written: 01's worked plates, the largest plates, each refusal of build at its edge, bytes that break one condition
// of acceptance, and one bit at a time over two small plates. The cases stand in data/, but for the plates that hand.rt writes.
// A line of build: the text's name, its bytes, the buffer's bytes; then 01's number, line and length, and whether every byte behind the plate (of the whole buffer,
// if it is refused) is as lent.
// That part of the file stdout was worked out from 01 before the program was run, by a reader and writer of plates that follow 01's words and share nothing with this repository.
#![tactic(auto)]

mod cases; // cases.rt: the cases of a file
mod items; // items.rt: the items of a text and the alternatives of a field
mod ask; // ask.rt: a text is built, and the answer written
mod judge; // judge.rt: bytes are judged, whole or one bit at a time
mod hand; // hand.rt: plates written bit by bit

use hand::Edition;

// What cannot be written is missed by who compares what was.
fn main(rt: HostRuntime) {
    cases::run(&rt, "items.txt");
    cases::run(&rt, "worked.txt");
    let _ = hand::show_largest(&rt, &mut [0; 51429], Edition::One, 512);
    let _ = hand::show_largest(&rt, &mut [0; 149365], Edition::Two, 1500);
    cases::run(&rt, "texts.txt");
    cases::run(&rt, "plates.txt");
    let _ = hand::show_foldings(&rt, 128);
    let _ = hand::show_foldings(&rt, 129);
    cases::run(&rt, "bits.txt");
}
