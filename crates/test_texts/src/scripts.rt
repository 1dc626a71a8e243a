// Scripts, and what must come of each: the first bad line decides. Below the first line, the fields of
// `enter,5,7,buy,limit,900,100` begin at the columns 1, 7, 9, 11, 15, 21 and 25, those of
// `amend,5,-,-,-,900,100` at 1, 7, 9, 11, 13, 15 and 19, those of `cancel,5,-,-,-,-,-` at 1, 8, 10, 12,
// 14, 16 and 18, and those of `advance,-,-,-,-,-,-` at 1, 9, 11, 13, 15, 17 and 19.
use crate::case::Text::{Below, Many, Whole};
use crate::case::{Case, Outcome, Refused};

pub const SCRIPTS: &[Case] = &[
    // The first line.
    (Whole(b""), Err(Refused(1, 1, 1))),
    (
        Whole(b"call,number,firm,side,kind,price,shares"),
        Err(Refused(1, 1, 1)),
    ),
    (Whole(b"\nadvance,-,-,-,-,-,-\n"), Err(Refused(1, 1, 1))),
    (Whole(b"advance,-,-,-,-,-,-\n"), Err(Refused(1, 1, 1))),
    (
        Whole(b"call,number,firm,side,kind,price,shared\n"),
        Err(Refused(1, 1, 1)),
    ),
    (
        Whole(b"call,number,firm,Side,kind,price,shares\n"),
        Err(Refused(1, 1, 1)),
    ),
    (
        Whole(b"call, number,firm,side,kind,price,shares\n"),
        Err(Refused(1, 1, 1)),
    ),
    (
        Whole(b"call,number,firm,side,kind,price,shares\r\n"),
        Err(Refused(1, 1, 1)),
    ),
    (
        Whole(b"call,number,firm,side,kind,price\n"),
        Err(Refused(1, 1, 1)),
    ),
    (
        Whole(b"call,number,firm,side,kind,price,shares,\n"),
        Err(Refused(1, 1, 1)),
    ),
    (
        Whole(b"call,number,firm,side,kind,price,shares,note\n"),
        Err(Refused(1, 1, 1)),
    ),
    (
        Whole(b"bid,offer,ref\n500,600,550\n"),
        Err(Refused(1, 1, 1)),
    ),
    (
        Whole(b"venue,bid,offer,ref\n3,500,600,550\n"),
        Err(Refused(1, 1, 1)),
    ),

    // The number of value lines, ahead of what is in them. There may be none.
    (Whole(b"call,number,firm,side,kind,price,shares\n"), Ok(())),
    (Many(b"advance,-,-,-,-,-,-\n", 65_535, b""), Ok(())),
    (
        Many(b"advance,-,-,-,-,-,-\n", 65_536, b""),
        Err(Refused(2, 0, 0)),
    ),
    (
        Many(b"advance,-,-,-,-,-,-\n", 65_537, b""),
        Err(Refused(2, 0, 0)),
    ),
    (
        Many(b"advance,-,-,-,-,-,-\n", 65_534, b"halt"),
        Err(Refused(3, 65_536, 4)),
    ),
    (
        Many(b"advance,-,-,-,-,-,-\n", 65_535, b"halt"),
        Err(Refused(2, 0, 0)),
    ),
    (
        Many(b"advance,-,-,-,-,-,-\n", 65_534, b"cancel,5\n"),
        Err(Refused(3, 65_536, 9)),
    ),
    (Many(b"halt\n", 65_535, b""), Err(Refused(3, 2, 1))),
    (Many(b"halt\n", 65_536, b""), Err(Refused(2, 0, 0))),
    (Many(b"\n", 65_536, b""), Err(Refused(2, 0, 0))),

    // Each call, each side and each kind.
    (Below(b"enter,5,7,buy,limit,900,100\n"), Ok(())),
    (Below(b"enter,5,7,sell,limit,900,100\n"), Ok(())),
    (Below(b"enter,5,7,buy,ioc,900,100\n"), Ok(())),
    (Below(b"enter,5,7,sell,market,0,100\n"), Ok(())),
    (Below(b"enter,5,7,buy,hidden,900,100\n"), Ok(())),
    (Below(b"enter,5,7,sell,nonroute,900,100\n"), Ok(())),
    (Below(b"amend,5,-,-,-,900,100\n"), Ok(())),
    (Below(b"cancel,5,-,-,-,-,-\n"), Ok(())),
    (Below(b"advance,-,-,-,-,-,-\n"), Ok(())),
    (
        Below(b"enter,5,7,buy,limit,900,100\ncancel,5,-,-,-,-,-\n"),
        Ok(()),
    ),

    // Numbers, prices and shares that only the book refuses.
    (Below(b"enter,0,0,buy,limit,0,0\n"), Ok(())),
    (Below(b"enter,5,7,buy,limit,10050,1000001\n"), Ok(())),
    (Below(b"enter,5,7,sell,market,900,100\n"), Ok(())),
    (Below(b"enter,5,7,buy,ioc,4294967295,4294967295\n"), Ok(())),
    (Below(b"amend,0,-,-,-,99,0\n"), Ok(())),
    (Below(b"cancel,4294967295,-,-,-,-,-\n"), Ok(())),

    // Firms.
    (Below(b"enter,5,65535,buy,limit,900,100\n"), Ok(())),
    (
        Below(b"enter,5,65536,buy,limit,900,100\n"),
        Err(Refused(4, 2, 9)),
    ),
    (
        Below(b"enter,5,4294967295,buy,limit,900,100\n"),
        Err(Refused(4, 2, 9)),
    ),
    (
        Below(b"enter,5,4294967296,buy,limit,900,100\n"),
        Err(Refused(3, 2, 9)),
    ),
    (
        Below(b"enter,5,065535,buy,limit,900,100\n"),
        Err(Refused(3, 2, 9)),
    ),

    // Unknown words.
    (Below(b"halt,-,-,-,-,-,-\n"), Err(Refused(3, 2, 1))),
    (Below(b"halt\n"), Err(Refused(3, 2, 1))),
    (
        Below(b"Enter,5,7,buy,limit,900,100\n"),
        Err(Refused(3, 2, 1)),
    ),
    (Below(b"cance,5,-,-,-,-,-\n"), Err(Refused(3, 2, 1))),
    (Below(b"cancels,5,-,-,-,-,-\n"), Err(Refused(3, 2, 1))),
    (Below(b" cancel,5,-,-,-,-,-\n"), Err(Refused(3, 2, 1))),
    (Below(b"\xff,5,-,-,-,-,-\n"), Err(Refused(3, 2, 1))),
    (
        Below(b"enter,5,7,BUY,limit,900,100\n"),
        Err(Refused(3, 2, 11)),
    ),
    (
        Below(b"enter,5,7,sel,limit,900,100\n"),
        Err(Refused(3, 2, 11)),
    ),
    (
        Below(b"enter,5,7,b\xf5y,limit,900,100\n"),
        Err(Refused(3, 2, 11)),
    ),
    (
        Below(b"enter,5,7,buy,peg,900,100\n"),
        Err(Refused(3, 2, 15)),
    ),
    (
        Below(b"enter,5,7,buy,Limit,900,100\n"),
        Err(Refused(3, 2, 15)),
    ),
    (
        Below(b"enter,5,7,sell,limits,900,100\n"),
        Err(Refused(3, 2, 16)),
    ),

    // `-` where a value must stand.
    (Below(b"-,-,-,-,-,-,-\n"), Err(Refused(3, 2, 1))),
    (
        Below(b"enter,-,7,buy,limit,900,100\n"),
        Err(Refused(3, 2, 7)),
    ),
    (
        Below(b"enter,5,-,buy,limit,900,100\n"),
        Err(Refused(3, 2, 9)),
    ),
    (
        Below(b"enter,5,7,-,limit,900,100\n"),
        Err(Refused(3, 2, 11)),
    ),
    (Below(b"enter,5,7,buy,-,900,100\n"), Err(Refused(3, 2, 15))),
    (
        Below(b"enter,5,7,buy,limit,-,100\n"),
        Err(Refused(3, 2, 21)),
    ),
    (
        Below(b"enter,5,7,buy,market,-,100\n"),
        Err(Refused(3, 2, 22)),
    ),
    (
        Below(b"enter,5,7,buy,limit,900,-\n"),
        Err(Refused(3, 2, 25)),
    ),
    (Below(b"amend,-,-,-,-,900,100\n"), Err(Refused(3, 2, 7))),
    (Below(b"amend,5,-,-,-,-,100\n"), Err(Refused(3, 2, 15))),
    (Below(b"amend,5,-,-,-,900,-\n"), Err(Refused(3, 2, 19))),
    (Below(b"cancel,-,-,-,-,-,-\n"), Err(Refused(3, 2, 8))),

    // Unused fields that are not `-`.
    (Below(b"amend,5,7,-,-,900,100\n"), Err(Refused(3, 2, 9))),
    (Below(b"amend,5,70000,-,-,900,100\n"), Err(Refused(3, 2, 9))),
    (Below(b"amend,5,-,buy,-,900,100\n"), Err(Refused(3, 2, 11))),
    (
        Below(b"amend,5,-,-,limit,900,100\n"),
        Err(Refused(3, 2, 13)),
    ),
    (Below(b"cancel,5,7,-,-,-,-\n"), Err(Refused(3, 2, 10))),
    (Below(b"cancel,5,-,buy,-,-,-\n"), Err(Refused(3, 2, 12))),
    (Below(b"cancel,5,-,-,limit,-,-\n"), Err(Refused(3, 2, 14))),
    (Below(b"cancel,5,-,-,-,900,-\n"), Err(Refused(3, 2, 16))),
    (Below(b"cancel,5,-,-,-,-,100\n"), Err(Refused(3, 2, 18))),
    (Below(b"advance,5,-,-,-,-,-\n"), Err(Refused(3, 2, 9))),
    (Below(b"advance,-,7,-,-,-,-\n"), Err(Refused(3, 2, 11))),
    (Below(b"advance,-,-,buy,-,-,-\n"), Err(Refused(3, 2, 13))),
    (Below(b"advance,-,-,--,-,-,-\n"), Err(Refused(3, 2, 13))),
    (Below(b"advance,-,-,-,limit,-,-\n"), Err(Refused(3, 2, 15))),
    (Below(b"advance,-,-,-,-,0,-\n"), Err(Refused(3, 2, 17))),
    (Below(b"advance,-,-,-,-,-,0\n"), Err(Refused(3, 2, 19))),

    // Fields that are no number.
    (
        Below(b"enter,abc,7,buy,limit,900,100\n"),
        Err(Refused(3, 2, 7)),
    ),
    (
        Below(b"enter,5,7,buy,limit,abc,100\n"),
        Err(Refused(3, 2, 21)),
    ),
    (
        Below(b"enter,5,7,buy,limit,900,1e3\n"),
        Err(Refused(3, 2, 25)),
    ),
    (
        Below(b"enter,05,7,buy,limit,900,100\n"),
        Err(Refused(3, 2, 7)),
    ),
    (
        Below(b"enter,5,00,buy,limit,900,100\n"),
        Err(Refused(3, 2, 9)),
    ),
    (Below(b"amend,5,-,-,-,0900,100\n"), Err(Refused(3, 2, 15))),
    (
        Below(b"enter,+5,7,buy,limit,900,100\n"),
        Err(Refused(3, 2, 7)),
    ),
    (Below(b"amend,5,-,-,-,-900,100\n"), Err(Refused(3, 2, 15))),
    (Below(b"amend,5,-,-,-,900, 100\n"), Err(Refused(3, 2, 19))),
    (Below(b"cancel,5 ,-,-,-,-,-\n"), Err(Refused(3, 2, 8))),
    (Below(b"cancel,5,-,-,-,-,- \n"), Err(Refused(3, 2, 18))),
    (Below(b"cancel,\xff,-,-,-,-,-\n"), Err(Refused(3, 2, 8))),
    (Below(b"cancel,1\xb05,-,-,-,-,-\n"), Err(Refused(3, 2, 8))),
    (Below(b"amend,/,-,-,-,900,100\n"), Err(Refused(3, 2, 7))),
    (Below(b"amend,5,-,-,-,900,10:\n"), Err(Refused(3, 2, 19))),

    // Numbers that are too large.
    (
        Below(b"enter,4294967296,7,buy,limit,900,100\n"),
        Err(Refused(3, 2, 7)),
    ),
    (
        Below(b"amend,5,-,-,-,4294968196,100\n"),
        Err(Refused(3, 2, 15)),
    ),
    (
        Below(b"amend,5,-,-,-,900,4294967396\n"),
        Err(Refused(3, 2, 19)),
    ),
    (
        Below(b"cancel,10000000000,-,-,-,-,-\n"),
        Err(Refused(3, 2, 8)),
    ),
    (
        Below(b"cancel,00000000005,-,-,-,-,-\n"),
        Err(Refused(3, 2, 8)),
    ),

    // CR before LF.
    (
        Below(b"enter,5,7,buy,limit,900,100\r\n"),
        Err(Refused(3, 2, 25)),
    ),
    (Below(b"cancel,5,-,-,-,-,-\r\n"), Err(Refused(3, 2, 18))),
    (Below(b"advance\r\n"), Err(Refused(3, 2, 1))),
    (Below(b"\r\n"), Err(Refused(3, 2, 1))),

    // Too few fields, and too many.
    (Below(b"enter,5,7,buy,limit,900\n"), Err(Refused(3, 2, 24))),
    (Below(b"advance,-,-,-,-,-\n"), Err(Refused(3, 2, 18))),
    (Below(b"cancel,5\n"), Err(Refused(3, 2, 9))),
    (Below(b"advance\n"), Err(Refused(3, 2, 8))),
    (
        Below(b"enter,5,7,buy,limit,900,100,-\n"),
        Err(Refused(3, 2, 29)),
    ),
    (Below(b"cancel,5,-,-,-,-,-,\n"), Err(Refused(3, 2, 20))),
    (Below(b"advance,-,-,-,-,-,-,,-\n"), Err(Refused(3, 2, 21))),
    (Below(b"cancel;5;-;-;-;-;-\n"), Err(Refused(3, 2, 1))),

    // Empty fields and empty lines.
    (Below(b",5,-,-,-,-,-\n"), Err(Refused(3, 2, 1))),
    (
        Below(b"enter,,7,buy,limit,900,100\n"),
        Err(Refused(3, 2, 7)),
    ),
    (Below(b"cancel,5,-,-,,-,-\n"), Err(Refused(3, 2, 14))),
    (Below(b"enter,5,7,buy,limit,900,\n"), Err(Refused(3, 2, 25))),
    (Below(b"advance,-,-,-,-,-,\n"), Err(Refused(3, 2, 19))),
    (Below(b"advance,\n"), Err(Refused(3, 2, 9))),
    (Below(b"\n"), Err(Refused(3, 2, 1))),
    (
        Below(b"cancel,5,-,-,-,-,-\n\ncancel,6,-,-,-,-,-\n"),
        Err(Refused(3, 3, 1)),
    ),
    (Below(b"cancel,5,-,-,-,-,-\n\n"), Err(Refused(3, 3, 1))),

    // A last line without LF, ahead of its fields and after the lines above it.
    (Below(b"cancel,5,-,-,-,-,-"), Err(Refused(3, 2, 18))),
    (
        Below(b"cancel,5,-,-,-,-,-\nadvance,-,-,-,-,-,-"),
        Err(Refused(3, 3, 19)),
    ),
    (Below(b"halt"), Err(Refused(3, 2, 4))),
    (Below(b"enter,5,65536,BUY"), Err(Refused(3, 2, 17))),
    (Below(b","), Err(Refused(3, 2, 1))),
    (Below(b"cancel,5,-,-,-,-,-\n,"), Err(Refused(3, 3, 1))),
    (Below(b"advance,-,-,-,-,-,-\r"), Err(Refused(3, 2, 20))),
    (
        Below(b"cancel,5\nadvance,-,-,-,-,-,-"),
        Err(Refused(3, 2, 9)),
    ),
    (
        Below(b"enter,5,65536,buy,limit,900,100\n,"),
        Err(Refused(4, 2, 9)),
    ),

    // The first bad field decides.
    (
        Below(b"enter,5,65536,BUY,limit,900,100\n"),
        Err(Refused(4, 2, 9)),
    ),
    (Below(b"enter,5,65536\n"), Err(Refused(4, 2, 9))),
    (
        Below(b"enter,abc,65536,buy,limit,900,100\n"),
        Err(Refused(3, 2, 7)),
    ),
    (
        Below(b"halt,5,65536,buy,limit,900,100\n"),
        Err(Refused(3, 2, 1)),
    ),
    (Below(b"cancel,abc\n"), Err(Refused(3, 2, 8))),
    (
        Below(b"enter,5,7,BUY,peg,abc,abc,-\n"),
        Err(Refused(3, 2, 11)),
    ),
    (
        Below(b"enter,5,65536,buy,limit,900,100\nhalt\n"),
        Err(Refused(4, 2, 9)),
    ),
    (
        Below(b"advance\nenter,5,65536,buy,limit,900,100\n"),
        Err(Refused(3, 2, 8)),
    ),
    (
        Below(b"halt,-,-,-,-,-,-\nadvance,-,-,-,-,-,-\n"),
        Err(Refused(3, 2, 1)),
    ),
];

// Value lines below the first line, and what must come of each line by itself.
pub const LINES: &[(&[u8], &[Outcome])] = &[
    (b"", &[]),
    (b"advance,-,-,-,-,-,-\n", &[Ok(())]),
    (
        b"halt\nadvance,-,-,-,-,-,-\n",
        &[Err(Refused(3, 2, 1)), Ok(())],
    ),
    (
        b"advance\nhalt,-,-,-,-,-,-\n",
        &[Err(Refused(3, 2, 8)), Err(Refused(3, 3, 1))],
    ),
    (
        b"cancel,5,-,-,-,-,-\n\nenter,5,65536,buy,limit,900,100\nadvance,-,-,-,-,-,-\n",
        &[Ok(()), Err(Refused(3, 3, 1)), Err(Refused(4, 4, 9)), Ok(())],
    ),
    (
        b"enter,5,7,BUY,limit,900,100\namend,5,-,-,-,900,100\ncancel,5,-,-,-,-,-",
        &[Err(Refused(3, 2, 11)), Ok(()), Err(Refused(3, 4, 18))],
    ),
];
