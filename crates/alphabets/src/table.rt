// The letters of all bytes, one table.
ghost use Rattle.std.specs.Prelude.{◌≡◌, true};
ghost use Rattle.alphabets.specs.Titles.{title_letter, follows};

const LETTERS: [u8; 256] = [
    // from 0x00
    7, 7, 7, 7, 7, 7, 7, 7, 7, 7, 7, 7, 7, 7, 7, 7,
    // from 0x10
    7, 7, 7, 7, 7, 7, 7, 7, 7, 7, 7, 7, 7, 7, 7, 7,
    // from 0x20
    2, // the space
    7, 7, 7, 7, 7, 7, 7, 4, // (
    5, // )
    7, 7, 3, // ,
    3, // -
    3, // .
    3, // /
    // from 0x30
    0, // 0 to 9
    0, 0, 0, 0, 0, 0, 0, 0, 0, 3, // :
    3, // ;
    7, 7, 7, 7,
    // from 0x40
    7, 1, // A to Z
    1, 1, 1, 1, 1, 1, 1, 1, 1, 1, 1, 1, 1, 1,
    // from 0x50
    1, 1, 1, 1, 1, 1, 1, 1, 1, 1, 1, 4, // [
    7, 5, // ]
    7, 7,
    // from 0x60
    7, 1, // a to z
    1, 1, 1, 1, 1, 1, 1, 1, 1, 1, 1, 1, 1, 1,
    // from 0x70
    1, 1, 1, 1, 1, 1, 1, 1, 1, 1, 1, 7, 7, 7, 7, 7,
    // from 0x80
    6, // past ASCII
    6, 6, 6, 6, 6, 6, 6, 6, 6, 6, 6, 6, 6, 6, 6,
    // from 0x90
    6, 6, 6, 6, 6, 6, 6, 6, 6, 6, 6, 6, 6, 6, 6, 6,
    // from 0xA0
    6, 6, 6, 6, 6, 6, 6, 6, 6, 6, 6, 6, 6, 6, 6, 6,
    // from 0xB0
    6, 6, 6, 6, 6, 6, 6, 6, 6, 6, 6, 6, 6, 6, 6, 6,
    // from 0xC0
    6, 6, 6, 6, 6, 6, 6, 6, 6, 6, 6, 6, 6, 6, 6, 6,
    // from 0xD0
    6, 6, 6, 6, 6, 6, 6, 6, 6, 6, 6, 6, 6, 6, 6, 6,
    // from 0xE0
    6, 6, 6, 6, 6, 6, 6, 6, 6, 6, 6, 6, 6, 6, 6, 6,
    // from 0xF0
    6, 6, 6, 6, 6, 6, 6, 6, 6, 6, 6, 6, 6, 6, 6, 6,
];

// The table, each of whose entries follows the rule by ranges.
pub(crate) fn table() -> &'static [u8; 256]
    ensures { follows title_letter 0 result.now ≡ true }
{
    &LETTERS
}
