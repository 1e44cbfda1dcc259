// 1 to 7, each with its nearest accepted neighbour; then the clauses of 9, of a step with no difference, with theirs.
// Flags: SV 1, P1 2, R1 4, programming 8, latch 16, E1 32, match 64.
use crate::steps::{Row, steps};
use crate::table::Table;

const ROWS: [(&[u8], &[Row]); 12] = [
    (
        b"1: step byte over 63",
        &[(59, 0, 0, 64, 1), (59, 0, 0, 63, 0)],
    ),
    (
        b"2: more than one line differs",
        &[
            (0, 0, 0, 3, 2),
            (0, 0, 0, 1, 0),
            (17, 0, 0, 5, 2),
            (17, 0, 0, 21, 0),
        ],
    ),
    (
        b"3: RST or FUS changes in programming",
        &[
            (21, 0, 8, 23, 3),
            (23, 0, 8, 21, 3),
            (21, 0, 8, 53, 3),
            (53, 0, 8, 21, 3),
            (21, 0, 8, 5, 0),
            (21, 0, 0, 23, 0),
            (21, 0, 0, 53, 0),
            (53, 0, 0, 21, 0),
        ],
    ),
    (
        b"4: CLK falls in programming with PGM high",
        &[(29, 0, 8, 25, 4), (21, 0, 8, 17, 0)],
    ),
    (
        b"5: RST falls with CLK high",
        &[(23, 0, 0, 21, 5), (19, 0, 0, 17, 0), (22, 0, 0, 20, 0)],
    ),
    (
        b"6: PGM rises with CLK high",
        &[(21, 0, 0, 29, 6), (17, 0, 0, 25, 0), (20, 0, 0, 28, 0)],
    ),
    (
        b"7: VCC rises with CLK or PGM high",
        &[(4, 0, 0, 5, 7), (8, 0, 0, 9, 7), (50, 0, 0, 51, 0)],
    ),
    (
        b"9: line levels over 63; address over 1519; a flag that no card has",
        &[
            (64, 0, 0, 64, 9),
            (63, 0, 8, 63, 0),
            (17, 1520, 0, 17, 9),
            (17, 1519, 0, 17, 0),
            (17, 0, 128, 17, 9),
            (29, 1240, 127, 29, 0),
        ],
    ),
    (
        b"9: VCC off with anything but the lines non-zero",
        &[
            (16, 1, 0, 16, 9),
            (16, 0, 1, 16, 9),
            (16, 0, 2, 16, 9),
            (16, 0, 4, 16, 9),
            (20, 0, 16, 20, 9),
            (20, 0, 8, 20, 9),
            (62, 0, 0, 62, 0),
        ],
    ),
    (
        b"9: latch or programming with CLK low; VCC, CLK and PGM high without programming",
        &[
            (17, 0, 16, 17, 9),
            (21, 0, 16, 21, 0),
            (17, 0, 8, 17, 9),
            (21, 0, 8, 21, 0),
            (29, 0, 0, 29, 9),
            (29, 0, 8, 29, 0),
        ],
    ),
    (
        b"9: match outside 81 to 103 and 1201 to 1359",
        &[
            (17, 80, 64, 17, 9),
            (17, 81, 64, 17, 0),
            (17, 103, 64, 17, 0),
            (17, 104, 64, 17, 9),
            (17, 1200, 64, 17, 9),
            (17, 1201, 64, 17, 0),
            (17, 1359, 64, 17, 0),
            (17, 1360, 64, 17, 9),
        ],
    ),
    (
        b"9: E1 outside 1232 to 1519",
        &[
            (17, 1231, 32, 17, 9),
            (17, 1232, 32, 17, 0),
            (17, 1519, 32, 17, 0),
            (17, 0, 32, 17, 9),
        ],
    ),
];

pub(crate) fn rows(t: &mut Table) {
    for (head, rows) in ROWS {
        steps(t, head, rows);
    }
}
