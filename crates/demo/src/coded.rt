// The codes of the program's frames: for each symbol that has a word its place among the lengths (2^depth a plane, planes in wire order)
// and its length. Beside each stands the word that document 01 gives the symbol, taking lengths from the longest down.

// Planes B', G and R' of frames::RGB. G has no word: its slices are raw.
//   B'  0: 1, 1: 00, 16: 01
//   R'  0: 1, 106: 000, 254: 01, 255: 001
pub const RGB: [(usize, u8); 7] = [
    (0, 1),
    (1, 2),
    (16, 2),
    (512, 1),
    (618, 3),
    (766, 2),
    (767, 3),
];

// Planes Y, U and V of frames::YUV. V's code is not complete: no word begins with 1.
//   Y  0: 10, 1: 0010, 2: 11, 3: 00000, 10: 00001, 16: 00010, 90: 00011, 190: 0011, 200: 0100, 202: 0101, 255: 011
//   U  128: 000, 129: 001, 255: 1
//   V  2: 00, 92: 01
pub const YUV: [(usize, u8); 16] = [
    (0, 2),
    (1, 4),
    (2, 2),
    (3, 5),
    (10, 5),
    (16, 5),
    (90, 5),
    (190, 4),
    (200, 4),
    (202, 4),
    (255, 3),
    (384, 3),
    (385, 3),
    (511, 1),
    (514, 2),
    (604, 2),
];

// The plane of frames::DEEP. Words of 13 and 14 bits: the lookup needs its second level.
//   0: 1, 10: 010, 20: 0010, 90: 00001, 100: 00000000000000, 190: 00010, 200: 00000000000001, 700: 0000000000001, 1023: 011
pub const DEEP: [(usize, u8); 9] = [
    (0, 1),
    (10, 3),
    (20, 4),
    (90, 5),
    (100, 14),
    (190, 5),
    (200, 14),
    (700, 13),
    (1023, 3),
];

// No word, in up to three planes at depth 8.
pub const NONE: [u8; 768] = [0; 768];
