// Montages, and what must come of each. Below the first line, the fields of `3,500,600,550` begin at
// the columns 1, 3, 7 and 11.
use crate::case::Text::{Below, Many, Whole};
use crate::case::{Case, Refused};

pub const MONTAGES: &[Case] = &[
    // The first line.
    (Whole(b""), Err(Refused(1, 1, 1))),
    (Whole(b"venue,bid,offer,ref"), Err(Refused(1, 1, 1))),
    (Whole(b"\n3,500,600,550\n"), Err(Refused(1, 1, 1))),
    (Whole(b"3,500,600,550\n"), Err(Refused(1, 1, 1))),
    (
        Whole(b"venus,bid,offer,ref\n3,500,600,550\n"),
        Err(Refused(1, 1, 1)),
    ),
    (
        Whole(b"venue,bid,offer,Ref\n3,500,600,550\n"),
        Err(Refused(1, 1, 1)),
    ),
    (
        Whole(b"venue,bid,offer,ref \n3,500,600,550\n"),
        Err(Refused(1, 1, 1)),
    ),
    (
        Whole(b"venue,bid,offer,ref\r\n3,500,600,550\n"),
        Err(Refused(1, 1, 1)),
    ),
    (
        Whole(b"venue,bid,offer\n3,500,600\n"),
        Err(Refused(1, 1, 1)),
    ),
    (
        Whole(b"venue,bid,offer,ref,\n3,500,600,550\n"),
        Err(Refused(1, 1, 1)),
    ),
    (
        Whole(b"venue,bid,offer,ref,ref\n3,500,600,550\n"),
        Err(Refused(1, 1, 1)),
    ),
    (
        Whole(b"bid,offer,ref\n500,600,550\n"),
        Err(Refused(1, 1, 1)),
    ),
    (
        Whole(b"call,number,firm,side,kind,price,shares\nadvance,-,-,-,-,-,-\n"),
        Err(Refused(1, 1, 1)),
    ),
    (Whole(b"venus,bid,offer,ref\n"), Err(Refused(1, 1, 1))),

    // The number of value lines, ahead of what is in them.
    (Whole(b"venue,bid,offer,ref\n"), Err(Refused(2, 0, 0))),
    (Many(b"1,0,0,100\n", 65_535, b""), Ok(())),
    (Many(b"1,0,0,100\n", 65_536, b""), Err(Refused(2, 0, 0))),
    (Many(b"1,0,0,100\n", 65_537, b""), Err(Refused(2, 0, 0))),
    (
        Many(b"1,0,0,100\n", 65_534, b"1,"),
        Err(Refused(3, 65_536, 2)),
    ),
    (Many(b"1,0,0,100\n", 65_535, b"1,"), Err(Refused(2, 0, 0))),
    (
        Many(b"1,0,0,100\n", 65_534, b"1,0,0\n"),
        Err(Refused(3, 65_536, 6)),
    ),
    (Many(b"0\n", 65_535, b""), Err(Refused(4, 2, 1))),
    (Many(b"0\n", 65_536, b""), Err(Refused(2, 0, 0))),
    (Many(b"\n", 65_536, b""), Err(Refused(2, 0, 0))),

    // Good montages: no bid, no offer, a bid at the offer and above it.
    (Below(b"1,0,0,100\n"), Ok(())),
    (Below(b"3,0,600,550\n"), Ok(())),
    (Below(b"3,500,0,550\n"), Ok(())),
    (Below(b"3,500,500,9000\n"), Ok(())),
    (Below(b"3,600,500,550\n"), Ok(())),
    (Below(b"3,500,600,550\n3,500,600,550\n4,0,0,550\n"), Ok(())),

    // Venues.
    (Below(b"1,500,600,550\n"), Ok(())),
    (Below(b"16,500,600,550\n"), Ok(())),
    (Below(b"0,500,600,550\n"), Err(Refused(4, 2, 1))),
    (Below(b"17,500,600,550\n"), Err(Refused(4, 2, 1))),
    (Below(b"257,500,600,550\n"), Err(Refused(4, 2, 1))),
    (Below(b"03,500,600,550\n"), Err(Refused(3, 2, 1))),
    (Below(b"-,500,600,550\n"), Err(Refused(3, 2, 1))),

    // The ends of the grid.
    (Below(b"3,100,9999,10000\n"), Ok(())),
    (Below(b"3,10000,100,9999\n"), Ok(())),
    (Below(b"3,9999,10000,100\n"), Ok(())),
    (Below(b"3,900000000,900000000,900000000\n"), Ok(())),
    (Below(b"3,99,600,550\n"), Err(Refused(4, 2, 3))),
    (Below(b"3,500,99,550\n"), Err(Refused(4, 2, 7))),
    (Below(b"3,500,600,99\n"), Err(Refused(4, 2, 11))),
    (Below(b"3,900000100,600,550\n"), Err(Refused(4, 2, 3))),
    (Below(b"3,500,900000100,550\n"), Err(Refused(4, 2, 7))),
    (Below(b"3,500,600,900000100\n"), Err(Refused(4, 2, 11))),
    (Below(b"3,10050,600,550\n"), Err(Refused(4, 2, 3))),
    (Below(b"3,500,10001,550\n"), Err(Refused(4, 2, 7))),
    (Below(b"3,500,600,10050\n"), Err(Refused(4, 2, 11))),
    (Below(b"3,500,600,0\n"), Err(Refused(4, 2, 11))),

    // Fields that are no number.
    (Below(b"a,500,600,550\n"), Err(Refused(3, 2, 1))),
    (Below(b"3,abc,600,550\n"), Err(Refused(3, 2, 3))),
    (Below(b"3,500,-,550\n"), Err(Refused(3, 2, 7))),
    (Below(b"3,500,600,abc\n"), Err(Refused(3, 2, 11))),
    (Below(b"3,0500,600,550\n"), Err(Refused(3, 2, 3))),
    (Below(b"00,500,600,550\n"), Err(Refused(3, 2, 1))),
    (Below(b"3,500,00,550\n"), Err(Refused(3, 2, 7))),
    (Below(b"+3,500,600,550\n"), Err(Refused(3, 2, 1))),
    (Below(b"3,500,-600,550\n"), Err(Refused(3, 2, 7))),
    (Below(b" 3,500,600,550\n"), Err(Refused(3, 2, 1))),
    (Below(b"3,500 ,600,550\n"), Err(Refused(3, 2, 3))),
    (Below(b"3,500,600,5.50\n"), Err(Refused(3, 2, 11))),
    (Below(b"/,500,600,550\n"), Err(Refused(3, 2, 1))),
    (Below(b"3,50:,600,550\n"), Err(Refused(3, 2, 3))),
    (Below(b"3,500,\xff,550\n"), Err(Refused(3, 2, 7))),
    (Below(b"3,500,600,5\xb50\n"), Err(Refused(3, 2, 11))),
    (Below(b"\xb3,500,600,550\n"), Err(Refused(3, 2, 1))),

    // Large numbers: 4294967295 can be read.
    (Below(b"4294967295,500,600,550\n"), Err(Refused(4, 2, 1))),
    (Below(b"3,500,4294967295,550\n"), Err(Refused(4, 2, 7))),
    (Below(b"4294967296,500,600,550\n"), Err(Refused(3, 2, 1))),
    (Below(b"4294967299,500,600,550\n"), Err(Refused(3, 2, 1))),
    (Below(b"3,500,4294967296,550\n"), Err(Refused(3, 2, 7))),
    (Below(b"3,500,600,10000000000\n"), Err(Refused(3, 2, 11))),
    (Below(b"3,00000000500,600,550\n"), Err(Refused(3, 2, 3))),

    // CR before LF.
    (Below(b"3,500,600,550\r\n"), Err(Refused(3, 2, 11))),
    (Below(b"3\r\n"), Err(Refused(3, 2, 1))),
    (Below(b"\r\n"), Err(Refused(3, 2, 1))),

    // Too few fields, and too many.
    (Below(b"3,500,600\n"), Err(Refused(3, 2, 10))),
    (Below(b"16\n"), Err(Refused(3, 2, 3))),
    (Below(b"3,500,600,550,700\n"), Err(Refused(3, 2, 15))),
    (Below(b"3,500,600,550,\n"), Err(Refused(3, 2, 15))),
    (Below(b"3,500,600,550,,700\n"), Err(Refused(3, 2, 15))),
    (Below(b"3;500;600;550\n"), Err(Refused(3, 2, 1))),

    // Empty fields and empty lines.
    (Below(b",500,600,550\n"), Err(Refused(3, 2, 1))),
    (Below(b"3,500,,550\n"), Err(Refused(3, 2, 7))),
    (Below(b"3,500,600,\n"), Err(Refused(3, 2, 11))),
    (Below(b"3,,,\n"), Err(Refused(3, 2, 3))),
    (Below(b"\n"), Err(Refused(3, 2, 1))),
    (
        Below(b"3,500,600,550\n\n3,500,600,550\n"),
        Err(Refused(3, 3, 1)),
    ),
    (Below(b"3,500,600,550\n\n"), Err(Refused(3, 3, 1))),

    // A last line without LF, ahead of its fields and after the lines above it.
    (Below(b"3,500,600,550"), Err(Refused(3, 2, 13))),
    (
        Below(b"3,500,600,550\n16,500,600,550"),
        Err(Refused(3, 3, 14)),
    ),
    (Below(b"17,abc"), Err(Refused(3, 2, 6))),
    (Below(b","), Err(Refused(3, 2, 1))),
    (
        Below(b"3,500,600,550\n3,500,600,550\n3,"),
        Err(Refused(3, 4, 2)),
    ),
    (Below(b"3,500,600,550\r"), Err(Refused(3, 2, 14))),
    (
        Below(b"17,500,600,550\n3,500,600,550"),
        Err(Refused(4, 2, 1)),
    ),
    (Below(b"3,500,600\n,"), Err(Refused(3, 2, 10))),

    // The first bad field decides.
    (Below(b"17,abc,600,550\n"), Err(Refused(4, 2, 1))),
    (Below(b"3,500,10050,abc\n"), Err(Refused(4, 2, 7))),
    (Below(b"abc,500,600,0\n"), Err(Refused(3, 2, 1))),
    (Below(b"3,abc,10050,550\n"), Err(Refused(3, 2, 3))),
    (Below(b"0\n"), Err(Refused(4, 2, 1))),
    (Below(b"3,500,600,0,700\n"), Err(Refused(4, 2, 11))),
    (
        Below(b"3,500,600,0\nabc,500,600,550\n"),
        Err(Refused(4, 2, 11)),
    ),
    (
        Below(b"3,500,600,abc\n17,500,600,550\n"),
        Err(Refused(3, 2, 11)),
    ),
    (
        Below(b"3,500,600,550\n17,500,600,550\nabc\n"),
        Err(Refused(4, 3, 1)),
    ),
];
