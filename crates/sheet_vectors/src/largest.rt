// The largest sheet: every table has its largest count, and every record is good.
ghost use Rattle.std.specs.Prelude.{◌<◌};

use crate::sheets::WORDS;

const HEADER: [i64; 16] = [
    1, 24, 128, 1024, 128, 32, 512, 128, 512, 32, 256, 1024, 0, 0, 0, 0,
];

const RECORDS: usize = 3776;

pub const SIZE: usize = 16 + 8 * RECORDS;

// The words of a record but the last three, which are 0.
type Row = [usize; 5];

// One tree of 640 nodes, each the negation of the one before; the other nodes are literals.
fn node(n: usize) -> Row {
    match n {
        1..640 => [11, n - 1, 0, 0, 0],
        _ => [1, 1, 0, 0, 0],
    }
}

// Eight rules to a stratum; the tree is the last rule's.
fn rule(k: usize) -> Row
    requires { k < 128 }
{
    [k / 8, 766 - k, 0, 0, 0]
}

fn operation(k: usize) -> Row
    requires { k < 128 }
{
    [16_777_215, 767 + k, 4 * k, 4, 3]
}

// Four effects to an operation: outcomes 0, 1, 2 and 2.
fn effect(e: usize) -> Row {
    [e / 16, e % 16, e % 16, (e % 4).min(2), 0]
}

// The failure route goes to the next step of the flow, where there is one.
fn route(r: usize) -> Row {
    let step = r / 4;
    if r % 4 == 3 && step % 8 < 7 {
        [0, step + 1, 0, 0, 0]
    } else {
        [1, r % 3, 0, 0, 0]
    }
}

fn record(k: usize) -> Row
    requires { k < 3776 }
{
    match k {
        ..128 => [0, 0, 1, 0, 0],
        128..1152 => node(k - 128),
        1152..1280 => rule(k - 1152),
        1280..1312 => [16, 15, 0, 0, 0],
        1312..1824 => {
            let t = k - 1312;
            [t / 16, t % 16, t % 16, 0, 0]
        }
        1824..1952 => operation(k - 1824),
        1952..2464 => effect(k - 1952),
        2464..2496 => [8 * (k - 2464), 8, 0, 0, 0],
        2496..2752 => {
            let i = k - 2496;
            [0, i / 2, i % 24, 4 * i, 4]
        }
        _ => route(k - 2752),
    }
}

pub(crate) fn lay(out: &mut [i64; WORDS]) {
    out[..16].copy_from_slice(&HEADER);
    for k in 0..RECORDS {
        for (j, n) in record(k).iter().enumerate() {
            out[16 + 8 * k + j] = i64::try_from(*n).unwrap_or(0);
        }
    }
}
