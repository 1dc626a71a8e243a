// Tapes, and what must come of each. Below the first line, the fields of `500,600,550` begin at the
// columns 1, 5 and 9.
use crate::case::Text::{Below, Many, Whole};
use crate::case::{Case, Refused};

pub const TAPES: &[Case] = &[
    // The first line.
    (Whole(b""), Err(Refused(1, 1, 1))),
    (Whole(b"bid,offer,ref"), Err(Refused(1, 1, 1))),
    (Whole(b"\n500,600,550\n"), Err(Refused(1, 1, 1))),
    (Whole(b"500,600,550\n"), Err(Refused(1, 1, 1))),
    (
        Whole(b"bid,offer,rev\n500,600,550\n"),
        Err(Refused(1, 1, 1)),
    ),
    (
        Whole(b"Bid,offer,ref\n500,600,550\n"),
        Err(Refused(1, 1, 1)),
    ),
    (
        Whole(b"bid, offer,ref\n500,600,550\n"),
        Err(Refused(1, 1, 1)),
    ),
    (
        Whole(b"bid,offer,ref\r\n500,600,550\n"),
        Err(Refused(1, 1, 1)),
    ),
    (Whole(b"bid,offer\n500,600\n"), Err(Refused(1, 1, 1))),
    (
        Whole(b"bid,offer,ref,\n500,600,550\n"),
        Err(Refused(1, 1, 1)),
    ),
    (
        Whole(b"bid,offer,ref,venue\n500,600,550,3\n"),
        Err(Refused(1, 1, 1)),
    ),
    (
        Whole(b"venue,bid,offer,ref\n3,500,600,550\n"),
        Err(Refused(1, 1, 1)),
    ),
    (
        Whole(b"call,number,firm,side,kind,price,shares\nadvance,-,-,-,-,-,-\n"),
        Err(Refused(1, 1, 1)),
    ),
    (Whole(b"bid,offer,rev\n"), Err(Refused(1, 1, 1))),

    // The number of value lines, ahead of what is in them.
    (Whole(b"bid,offer,ref\n"), Err(Refused(2, 0, 0))),
    (Many(b"0,0,100\n", 65_535, b""), Ok(())),
    (Many(b"0,0,100\n", 65_536, b""), Err(Refused(2, 0, 0))),
    (Many(b"0,0,100\n", 65_537, b""), Err(Refused(2, 0, 0))),
    (Many(b"0,0,100\n", 65_534, b"0"), Err(Refused(3, 65_536, 1))),
    (Many(b"0,0,100\n", 65_535, b"0"), Err(Refused(2, 0, 0))),
    (
        Many(b"0,0,100\n", 65_534, b"0,0,99\n"),
        Err(Refused(4, 65_536, 5)),
    ),
    (Many(b"abc\n", 65_535, b""), Err(Refused(3, 2, 1))),
    (Many(b"abc\n", 65_536, b""), Err(Refused(2, 0, 0))),
    (Many(b"\n", 65_536, b""), Err(Refused(2, 0, 0))),

    // Good tapes: no bid, no offer, a bid at the offer and above it.
    (Below(b"0,0,100\n"), Ok(())),
    (Below(b"0,600,550\n"), Ok(())),
    (Below(b"500,0,550\n"), Ok(())),
    (Below(b"500,500,9000\n"), Ok(())),
    (Below(b"600,500,550\n"), Ok(())),
    (Below(b"100000,100300,100200\n0,100300,100200\n"), Ok(())),

    // The ends of the grid.
    (Below(b"100,9999,10000\n"), Ok(())),
    (Below(b"10000,100,9999\n"), Ok(())),
    (Below(b"9999,10000,100\n"), Ok(())),
    (Below(b"900000000,900000000,900000000\n"), Ok(())),
    (Below(b"99,600,550\n"), Err(Refused(4, 2, 1))),
    (Below(b"500,99,550\n"), Err(Refused(4, 2, 5))),
    (Below(b"500,600,99\n"), Err(Refused(4, 2, 9))),
    (Below(b"900000100,600,550\n"), Err(Refused(4, 2, 1))),
    (Below(b"500,900000100,550\n"), Err(Refused(4, 2, 5))),
    (Below(b"500,600,900000100\n"), Err(Refused(4, 2, 9))),
    (Below(b"10001,600,550\n"), Err(Refused(4, 2, 1))),
    (Below(b"500,10050,550\n"), Err(Refused(4, 2, 5))),
    (Below(b"500,600,10001\n"), Err(Refused(4, 2, 9))),
    (Below(b"500,600,0\n"), Err(Refused(4, 2, 9))),

    // Fields that are no number.
    (Below(b"abc,600,550\n"), Err(Refused(3, 2, 1))),
    (Below(b"500,-,550\n"), Err(Refused(3, 2, 5))),
    (Below(b"500,600,abc\n"), Err(Refused(3, 2, 9))),
    (Below(b"0500,600,550\n"), Err(Refused(3, 2, 1))),
    (Below(b"500,00,550\n"), Err(Refused(3, 2, 5))),
    (Below(b"+500,600,550\n"), Err(Refused(3, 2, 1))),
    (Below(b"500,-600,550\n"), Err(Refused(3, 2, 5))),
    (Below(b"500, 600,550\n"), Err(Refused(3, 2, 5))),
    (Below(b"500,600,550 \n"), Err(Refused(3, 2, 9))),
    (Below(b"500,6.00,550\n"), Err(Refused(3, 2, 5))),
    (Below(b"500,60/,550\n"), Err(Refused(3, 2, 5))),
    (Below(b"500,600,55:\n"), Err(Refused(3, 2, 9))),
    (Below(b"\xff,600,550\n"), Err(Refused(3, 2, 1))),
    (Below(b"500,6\xb00,550\n"), Err(Refused(3, 2, 5))),
    (Below(b"500,600,550\x00\n"), Err(Refused(3, 2, 9))),

    // Large numbers: 4294967295 can be read.
    (Below(b"4294967295,600,550\n"), Err(Refused(4, 2, 1))),
    (Below(b"500,600,4294967295\n"), Err(Refused(4, 2, 9))),
    (Below(b"4294967296,600,550\n"), Err(Refused(3, 2, 1))),
    (Below(b"500,4294967796,550\n"), Err(Refused(3, 2, 5))),
    (Below(b"500,600,4294967296\n"), Err(Refused(3, 2, 9))),
    (Below(b"500,10000000000,550\n"), Err(Refused(3, 2, 5))),
    (Below(b"00000000500,600,550\n"), Err(Refused(3, 2, 1))),
    (
        Below(b"500,18446744073709552216,550\n"),
        Err(Refused(3, 2, 5)),
    ),

    // CR before LF.
    (Below(b"500,600,550\r\n"), Err(Refused(3, 2, 9))),
    (Below(b"500,600\r\n"), Err(Refused(3, 2, 5))),
    (Below(b"\r\n"), Err(Refused(3, 2, 1))),

    // Too few fields, and too many.
    (Below(b"500,600\n"), Err(Refused(3, 2, 8))),
    (Below(b"500\n"), Err(Refused(3, 2, 4))),
    (Below(b"500,600,550,700\n"), Err(Refused(3, 2, 13))),
    (Below(b"500,600,550,\n"), Err(Refused(3, 2, 13))),
    (Below(b"500,600,550,,\n"), Err(Refused(3, 2, 13))),
    (Below(b"500;600;550\n"), Err(Refused(3, 2, 1))),

    // Empty fields and empty lines.
    (Below(b",600,550\n"), Err(Refused(3, 2, 1))),
    (Below(b"500,,550\n"), Err(Refused(3, 2, 5))),
    (Below(b"500,600,\n"), Err(Refused(3, 2, 9))),
    (Below(b"500,\n"), Err(Refused(3, 2, 5))),
    (Below(b"\n"), Err(Refused(3, 2, 1))),
    (
        Below(b"500,600,550\n\n500,600,550\n"),
        Err(Refused(3, 3, 1)),
    ),
    (Below(b"500,600,550\n\n"), Err(Refused(3, 3, 1))),

    // A last line without LF, ahead of its fields and after the lines above it.
    (Below(b"500,600,550"), Err(Refused(3, 2, 11))),
    (Below(b"500,600,550\n500,600,550"), Err(Refused(3, 3, 11))),
    (Below(b"10050,abc"), Err(Refused(3, 2, 9))),
    (Below(b","), Err(Refused(3, 2, 1))),
    (Below(b"500,600,550\n500,"), Err(Refused(3, 3, 4))),
    (Below(b"500,600,550\r"), Err(Refused(3, 2, 12))),
    (Below(b"500,10050,550\n500,600,550"), Err(Refused(4, 2, 5))),
    (Below(b"500,600,abc\n,"), Err(Refused(3, 2, 9))),

    // The first bad field decides.
    (Below(b"10050,abc,550\n"), Err(Refused(4, 2, 1))),
    (Below(b"500,10050,abc\n"), Err(Refused(4, 2, 5))),
    (Below(b"abc,10050,550\n"), Err(Refused(3, 2, 1))),
    (Below(b"500,abc,0\n"), Err(Refused(3, 2, 5))),
    (Below(b"500,10050\n"), Err(Refused(4, 2, 5))),
    (Below(b"500,600,0,700\n"), Err(Refused(4, 2, 9))),
    (Below(b"500,600,0\nabc,600,550\n"), Err(Refused(4, 2, 9))),
    (
        Below(b"500,600,abc\n10050,600,550\n"),
        Err(Refused(3, 2, 9)),
    ),
    (
        Below(b"500,600,550\n500,10050,550\nabc\n"),
        Err(Refused(4, 3, 5)),
    ),
];
