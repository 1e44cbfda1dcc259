// 10 and 14 of a step, 18 and 19 of a run, on a fresh card.
use crate::steps::refusal;
use crate::table::Table;
use volatile::Volatile;

fn fresh_step(memory: &mut [u8], fuses: u8) -> u64 {
    let stepped = card::step(memory, fuses, Volatile::fresh(), 0);
    refusal(stepped.answer)
}

fn sized(t: &mut Table, memory: &mut [u8], expected: u64) {
    let bytes = memory.len() as u64;
    t.row(b"  bytes ", bytes, expected, fresh_step(memory, 7))
}

fn fused(t: &mut Table, fuses: u8, expected: u64) {
    let mut memory = [255u8; 174];
    let got = fresh_step(&mut memory, fuses);
    t.row(b"  fuse byte ", fuses as u64, expected, got)
}

fn ten(t: &mut Table) {
    t.head(b"10: memory buffer isn't 174 bytes");
    sized(t, &mut [255u8; 173], 10);
    sized(t, &mut [255u8; 174], 0);
    sized(t, &mut [255u8; 175], 10)
}

fn fourteen(t: &mut Table) {
    t.head(b"14: fuse byte over 7");
    fused(t, 8, 14);
    fused(t, 7, 0)
}

// Steps without a difference.
fn run(t: &mut Table, steps: &[u8], answers: &mut [u8], expected: u64) {
    let mut memory = [255u8; 174];
    let ran = card::run(&mut memory, 7, Volatile::fresh(), steps, answers);
    t.row(
        b"  steps ",
        steps.len() as u64,
        expected,
        rules::number_if_any(ran.refusal) as u64,
    )
}

fn eighteen(t: &mut Table) {
    t.head(b"18: a run of over 4,096 steps");
    run(t, &[0u8; 4097], &mut [0u8; 4097], 18);
    run(t, &[0u8; 4096], &mut [0u8; 4097], 0)
}

fn nineteen(t: &mut Table) {
    t.head(b"19: answer buffer shorter than the steps, here room for two");
    run(t, &[0u8; 3], &mut [0u8; 2], 19);
    run(t, &[0u8; 2], &mut [0u8; 2], 0)
}

pub(crate) fn rows(t: &mut Table) {
    ten(t);
    fourteen(t);
    eighteen(t);
    nineteen(t)
}
