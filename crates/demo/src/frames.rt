// The frames that the program decodes, as document 01's "Layout" has them; a line for each group of bytes. Every frame begins with
// 32 header bytes, which the core does not read, and then the little-endian entries: entry s + 1 is where slice s starts, counted
// from offset 32.

// Document 01's frame, a line for each group of bytes: Gray 2x1, depth 8, slice height 1, no words. 32 header bytes, which the core
// does not read; entry 0 and entry 1 = 10; the plane count 1 and the one slice's plane; the slice: raw, predictor 1 (Left), residues
// 7 and 5.
pub const SMALL: [u8; 46] = *b"\
    \0\0\0\0\0\0\0\0\0\0\0\0\0\0\0\0\0\0\0\0\0\0\0\0\0\0\0\0\0\0\0\0\
    \0\0\0\0\x0a\0\0\0\
    \x01\x00\
    \x01\x01\x07\x05";

// Rgb 4x4, depth 8, slice height 2: three planes of two slices, which do not come plane by plane. The header; entries 0 to 6; the
// plane count 3 and the planes of the slices, 1 0 2 2 1 0 (0 is B', 1 is G, 2 is R'). Then the slices:
//   0  G, place 0: raw, Gradient (2), residues 250 2 2 2 / 1 0 0 0
//   1  B', place 0: coded, Median (3), residues 16 0 0 1 / 0 0 1 1 as 01 1 1 00 1 1 00 00
//   2  R', place 0: coded, Gradient, residues 106 254 255 254 / 254 0 0 0 as 000 01 001 01 01 1 1 1
//   3  R', place 1: raw, Median, residues 102 254 255 255 / 254 255 255 255
//   4  G, place 1: raw (of the flag byte 3 only bit 0 is read), Left (1), residues 252 2 2 2 / 1 2 2 3
//   5  B', place 1: coded (flag byte 2), Gradient, residues 16 1 1 1 / 0 0 1 0 as 01 00 00 00 1 1 00 1
pub const RGB: [u8; 109] = *b"\
    \0\0\0\0\0\0\0\0\0\0\0\0\0\0\0\0\0\0\0\0\0\0\0\0\0\0\0\0\0\0\0\0\
    \0\0\0\0\x23\0\0\0\x2d\0\0\0\x31\0\0\0\x35\0\0\0\x3f\0\0\0\x49\0\0\0\
    \x03\x01\x00\x02\x02\x01\x00\
    \x01\x02\xfa\x02\x02\x02\x01\x00\x00\x00\
    \x00\x03\x73\x00\
    \x00\x02\x09\x5e\
    \x01\x03\x66\xfe\xff\xff\xfe\xff\xff\xff\
    \x03\x01\xfc\x02\x02\x02\x01\x02\x02\x03\
    \x02\x02\x40\xc8";

// Yuv 4x6 with sx = sy = 2, depth 8, slice height 4, interlaced: planes 1 and 2 are 2x3 with slice height 2, and the second place
// of each plane is cut at its height. The header; entries 0 to 6; the plane count 3 and the planes of the slices, 0 2 1 1 0 2. Then
// the slices:
//   0  Y, place 0: coded, Median, residues 10 90 2 2 / 200 255 255 255 / 190 1 2 2 / 1 0 0 0
//      as 00001 00011 11 11 0100 011 011 011 0011 0010 11 11 0010 10 10 10
//   1  V, place 0: raw, Left, residues 90 1 / 60 1
//   2  U, place 0: coded, Gradient, residues 128 255 / 129 255 as 000 1 001 1
//   3  U, place 1, one row: raw, Median, residues 130 255
//   4  Y, place 1, two rows: coded, Gradient, residues 16 2 2 3 / 202 0 255 0 as 00010 11 11 00000 0101 10 011 10
//   5  V, place 1, one row: coded, Median, residues 92 2 as 01 00
pub const YUV: [u8; 98] = *b"\
    \0\0\0\0\0\0\0\0\0\0\0\0\0\0\0\0\0\0\0\0\0\0\0\0\0\0\0\0\0\0\0\0\
    \0\0\0\0\x23\0\0\0\x2c\0\0\0\x32\0\0\0\x35\0\0\0\x39\0\0\0\x3f\0\0\0\
    \x03\x00\x02\x01\x01\x00\x02\
    \x00\x03\x08\xfd\x1b\x66\x5e\x55\x00\
    \x01\x01\x5a\x01\x3c\x01\
    \x00\x02\x13\
    \x01\x03\x82\xff\
    \x00\x02\x17\x81\x67\x00\
    \x00\x03\x40";

// Gray 4x3, depth 10, one slice. The header; entry 0 and entry 1 = 10; the plane count 1 and the slice's plane; the slice: coded,
// Median, residues 10 90 200 700 / 190 0 100 20 / 0 1023 10 20 as
// 010 00001 00000000000001 0000000000001 00010 1 00000000000000 0010 1 011 010 0010.
pub const DEEP: [u8; 53] = *b"\
    \0\0\0\0\0\0\0\0\0\0\0\0\0\0\0\0\0\0\0\0\0\0\0\0\0\0\0\0\0\0\0\0\
    \0\0\0\0\x0a\0\0\0\
    \x01\x00\
    \x00\x03\x41\x00\x04\x00\x22\x80\x00\x56\x88";

// Rgb 1x1, depth 8, slice height 1, no words: a line for each group of bytes. The header; entries 0 to 3; the plane count 3 and the
// planes of the slices; three raw slices, Left, of one residue each: 5, 7 and 9.
pub const DOT: [u8; 61] = *b"\
    \0\0\0\0\0\0\0\0\0\0\0\0\0\0\0\0\0\0\0\0\0\0\0\0\0\0\0\0\0\0\0\0\
    \0\0\0\0\x14\0\0\0\x17\0\0\0\x1a\0\0\0\
    \x03\x00\x01\x02\
    \x01\x01\x05\
    \x01\x01\x07\
    \x01\x01\x09";

// The same with the planes 0, 0 and 1.
pub const TWICE: [u8; 61] = *b"\
    \0\0\0\0\0\0\0\0\0\0\0\0\0\0\0\0\0\0\0\0\0\0\0\0\0\0\0\0\0\0\0\0\
    \0\0\0\0\x14\0\0\0\x17\0\0\0\x1a\0\0\0\
    \x03\x00\x00\x01\
    \x01\x01\x05\
    \x01\x01\x07\
    \x01\x01\x09";
