//! Stores of format version 1, as they lie on a device, and what the opening of a journal makes of them.
//!
//! Each is a list of offsets, with the bytes from there on. Every other byte is 0. A program of version 1 made them. The first three have
//! four variables and four slots, in 22016 bytes: copy 1 of the image begins at 3072, slot 0 at 5632.
use super::acts::Act::{
    Case, Checkpoints, Closes, CountsAnew, FlushesTo, Holds, HoldsAll, HoldsBytes, HoldsNames,
    Made, MakesWith, Opens, Reads, Row, Writes, Wrote,
};
use super::acts::{Act, play};
use super::refusals::Refusal::{Damaged, Spent};

/// A store that was formatted.
const FRESH: &[(u64, &[u8])] = &[
    (0, &[0xA5, 0x54, 0x4D, 0x45, 0x4D, 1, 4, 0, 4, 0]),
    (512, &[0xA5, 1]),
];

/// A store with one record, which writes 5 to variable 0.
const FIRST: &[(u64, &[u8])] = &[
    (0, &[0xA5, 0x54, 0x4D, 0x45, 0x4D, 1, 4, 0, 4, 0]),
    (512, &[0xA5, 1]),
    (
        5632,
        &[
            0xA5, 1, 0, 0, 0, 0, 0, 0, 0, 0, 0, 0, 0, 0, 0, 0, 0, 1, 0, 1, 0, 0, 5, 0, 0, 0, 0, 0,
            0, 0, 0,
        ],
    ),
];

/// A store with an image of generation 2, and one batch, whose record checks `ordered`. Behind it are bytes of the longer batch that
/// the slot had before the checkpoint: the name `nonneg` behind the number 1.
const SHORTER_OVER_LONGER: &[(u64, &[u8])] = &[
    (0, &[0xA5, 0x54, 0x4D, 0x45, 0x4D, 1, 4, 0, 4, 0]),
    (512, &[0xA5, 1]),
    (
        3072,
        &[
            0xA5, 2, 0, 0, 0, 0, 0, 0, 0, 2, 0, 0, 0, 0, 0, 0, 0, 1, 6, b'n', b'o', b'n', b'n',
            b'e', b'g',
        ],
    ),
    (
        5632,
        &[
            0xA5, 2, 0, 0, 0, 0, 0, 0, 0, 2, 0, 0, 0, 0, 0, 0, 0, 1, 0, 0, 1, 7, b'o', b'r', b'd',
            b'e', b'r', b'e', b'd', 1, 6, b'n', b'o', b'n', b'n', b'e', b'g',
        ],
    ),
];

/// A store of 65 variables and four slots, in 23040 bytes: copy 1 of the image begins at 3584, with its pages at 5632 and 6144, slot 0 at
/// 6656 and slot 1 at 10752. It has an image of generation 2, a batch over what is left of an older one, and a batch of two records.
const TWO_BATCHES: &[(u64, &[u8])] = &[
    (0, &[0xA5, 0x54, 0x4D, 0x45, 0x4D, 1, 0x41, 0, 4, 0]),
    (512, &[0xA5, 1]),
    (3584, &[0xA5, 2]),
    (3593, &[3]),
    (
        3601,
        &[
            2, 6, b'n', b'o', b'n', b'n', b'e', b'g', 3, b's', b'u', b'm',
        ],
    ),
    (5632, &[0x3C]),
    (5640, &[0x28]),
    (6151, &[0x80]),
    (6656, &[0xA5, 2]),
    (6665, &[3]),
    (
        6673,
        &[
            1, 0, 2, 2, 0, 0xFB, 0xFF, 0xFF, 0xFF, 0xFF, 0xFF, 0xFF, 0xFF, 3, 0, 7,
        ],
    ),
    (
        6696,
        &[
            1, 7, b'o', b'r', b'd', b'e', b'r', b'e', b'd', b'o', b'n', b'n', b'e', b'g', 1, 0x40,
        ],
    ),
    (6720, &[0x80]),
    (10752, &[0xA5, 2]),
    (10761, &[4]),
    (
        10769,
        &[
            2, 0, 1, 0x3F, 0, 0xFF, 0xFF, 0xFF, 0xFF, 0xFF, 0xFF, 0xFF, 0x7F, 0, 1, 5, 0, 1,
        ],
    ),
];

/// What the opening of each of them changes: the copy of the image that was not chosen, which is of the second version then, and the gate
/// of each log slot that was in use.
const FRESH_AFTER: &[(u64, &[u8])] = &[(3072, &[0xA5, 2]), (5119, &[2])];

const FIRST_AFTER: &[(u64, &[u8])] = &[
    (3072, &[0xA5, 2]),
    (3081, &[1]),
    (5119, &[2, 5]),
    (5632, &[0]),
];

const SHORTER_AFTER: &[(u64, &[u8])] = &[
    (513, &[3]),
    (521, &[3]),
    (
        529,
        &[
            2, 6, b'n', b'o', b'n', b'n', b'e', b'g', 7, b'o', b'r', b'd', b'e', b'r', b'e', b'd',
        ],
    ),
    (2559, &[2]),
    (5632, &[0]),
];

const TWO_BATCHES_AFTER: &[(u64, &[u8])] = &[
    (513, &[3]),
    (521, &[6]),
    (
        529,
        &[
            3, 6, b'n', b'o', b'n', b'n', b'e', b'g', 7, b'o', b'r', b'd', b'e', b'r', b'e', b'd',
            3, b's', b'u', b'm',
        ],
    ),
    (2559, &[2]),
    // 60, 40, -5, 7, 0 and 1; and the last two
    (2560, &[60]),
    (2568, &[40]),
    (2576, &[0xFB, 0xFF, 0xFF, 0xFF, 0xFF, 0xFF, 0xFF, 0xFF]),
    (2584, &[7]),
    (2600, &[1]),
    (3064, &[0xFF, 0xFF, 0xFF, 0xFF, 0xFF, 0xFF, 0xFF, 0x7F]),
    (3079, &[0x80]),
    (6656, &[0]),
    (10752, &[0]),
];

// Each is opened once more, and nothing is written then.
static OPENED: &[Act<'static>] = &[
    Case("a store that was formatted"),
    Row,
    MakesWith(22016, FRESH),
    CountsAnew,
    Opens(4, 4, Ok(0)),
    Holds(0, 0),
    HoldsNames(&[]),
    Closes,
    Made(None, 3, 3),
    Wrote(&[(5120, 512), (3073, 2047), (3072, 1)]),
    HoldsBytes(FRESH, FRESH_AFTER),
    CountsAnew,
    Opens(4, 4, Ok(0)),
    Holds(0, 0),
    HoldsNames(&[]),
    Closes,
    Made(None, 0, 1),
    Case("a first record"),
    Row,
    MakesWith(22016, FIRST),
    CountsAnew,
    Opens(4, 4, Ok(1)),
    Holds(1, 5),
    HoldsAll(&[(1, 0), (2, 0), (3, 0)]),
    HoldsNames(&[]),
    Closes,
    Made(None, 4, 4),
    Wrote(&[(5120, 512), (3073, 2047), (3072, 1), (5632, 1)]),
    HoldsBytes(FIRST, FIRST_AFTER),
    CountsAnew,
    Opens(4, 4, Ok(1)),
    Holds(1, 5),
    HoldsAll(&[(1, 0), (2, 0), (3, 0)]),
    HoldsNames(&[]),
    Closes,
    Made(None, 0, 1),
    Case("a shorter batch over a longer one"),
    Row,
    MakesWith(22016, SHORTER_OVER_LONGER),
    CountsAnew,
    Opens(4, 4, Ok(3)),
    Holds(3, 0),
    HoldsNames(&["nonneg", "ordered"]),
    Closes,
    Made(None, 5, 5),
    Wrote(&[(512, 1), (2560, 512), (513, 2047), (512, 1), (5632, 1)]),
    HoldsBytes(SHORTER_OVER_LONGER, SHORTER_AFTER),
    CountsAnew,
    Opens(4, 4, Ok(3)),
    Holds(3, 0),
    HoldsNames(&["nonneg", "ordered"]),
    Closes,
    Made(None, 0, 1),
];

static OPENED_WITH_TWO: &[Act<'static>] = &[
    Case("two images and two batches"),
    Row,
    MakesWith(23040, TWO_BATCHES),
    CountsAnew,
    Opens(65, 4, Ok(6)),
    Holds(6, 60),
    HoldsAll(&[
        (1, 40),
        (2, -5),
        (3, 7),
        (4, 0),
        (5, 1),
        (6, 0),
        (62, 0),
        (63, i64::MAX),
        (64, i64::MIN),
    ]),
    HoldsNames(&["nonneg", "ordered", "sum"]),
    Closes,
    Made(None, 7, 5),
    Wrote(&[
        (512, 1),
        (2560, 512),
        (3072, 512),
        (513, 2047),
        (512, 1),
        (6656, 1),
        (10752, 1),
    ]),
    HoldsBytes(TWO_BATCHES, TWO_BATCHES_AFTER),
    CountsAnew,
    Opens(65, 4, Ok(6)),
    Holds(6, 60),
    HoldsAll(&[
        (1, 40),
        (2, -5),
        (3, 7),
        (5, 1),
        (63, i64::MAX),
        (64, i64::MIN),
    ]),
    HoldsNames(&["nonneg", "ordered", "sum"]),
    Closes,
    Made(None, 0, 1),
];

static BEHIND: &[Act<'static>] = &[
    // behind a migration too, nothing is known of any page
    Case("the checkpoint behind a migration writes all pages"),
    Row,
    MakesWith(23040, TWO_BATCHES),
    CountsAnew,
    Opens(65, 4, Ok(6)),
    FlushesTo(64, 9, Ok(7)),
    Checkpoints(Ok(())),
    Closes,
    Wrote(&[
        (512, 1),
        (2560, 512),
        (3072, 512),
        (513, 2047),
        (512, 1),
        (6656, 1),
        (10752, 1),
        (6657, 31),
        (6656, 1),
        (3584, 1),
        (5632, 512),
        (6144, 512),
        (3585, 2047),
        (3584, 1),
        (6656, 1),
    ]),
    Opens(65, 4, Ok(7)),
    Holds(7, 60),
    HoldsAll(&[(1, 40), (63, i64::MAX), (64, 9)]),
    HoldsNames(&["nonneg", "ordered", "sum"]),
    // behind the last generation there is no image of the second version
    Case("the last generation"),
    MakesWith(22016, FRESH),
    Row,
    Writes(513, &[0xFF, 0xFF, 0xFF, 0xFF, 0xFF, 0xFF, 0xFF, 0xFF]),
    CountsAnew,
    Opens(4, 4, Err(Spent)),
    Made(None, 0, 1),
    Opens(4, 4, Err(Spent)),
    // a stale gate behind the log is closed first
    Row,
    Writes(513, &[0xFF, 0xFF, 0xFF, 0xFF, 0xFF, 0xFF, 0xFF, 0xFF]),
    Writes(13824, &[0xA5, 1]),
    CountsAnew,
    Opens(4, 4, Err(Spent)),
    Made(None, 1, 2),
    Reads(13824, &[0, 1]),
    // what is damaged is so at the last generation too
    Row,
    Writes(513, &[0xFF, 0xFF, 0xFF, 0xFF, 0xFF, 0xFF, 0xFF, 0xFF]),
    Writes(5, &[2]),
    Opens(4, 4, Err(Damaged)),
    Row,
    Writes(513, &[0xFE, 0xFF, 0xFF, 0xFF, 0xFF, 0xFF, 0xFF, 0xFF]),
    Opens(4, 4, Ok(0)),
    Checkpoints(Err(Spent)),
    Closes,
    Reads(3073, &[0xFF, 0xFF, 0xFF, 0xFF, 0xFF, 0xFF, 0xFF, 0xFF]),
];

#[test]
fn a_store_of_version_1_becomes_one_of_version_2(rt: HostRuntime) {
    play(&rt, OPENED);
    play(&rt, OPENED_WITH_TWO);
    play(&rt, BEHIND);
}
