use crate::number::read_number;
use crate::script::{ScriptCall, read_call, script_lines};
use crate::tape::{check_tape, read_quote};
use market::quote::Quote;
use market::row::{Entry, Kind};
use market::side::Side;
use std::process::Abort;

fn refused(rt: &impl Abort, text: &[u8], number: u8, line: u32, column: usize) {
    let answer = check_tape(text).map_err(|r| (r.refusal.number(), r.line, r.column));
    assert_eq!(rt; answer, Err((number, line, column)));
}

fn bad_call(rt: &impl Abort, line: &[u8], number: u8, column: usize) {
    let answer = read_call(line).map_err(|fault| (fault.refusal.number(), fault.column));
    assert_eq!(rt; answer, Err((number, column)));
}

#[test]
fn numbers(rt: HostRuntime) {
    assert_eq!(rt; read_number(b"0"), Some(0));
    assert_eq!(rt; read_number(b"4294967295"), Some(4294967295));
    assert_eq!(rt; read_number(b"4294967296"), None);
    assert_eq!(rt; read_number(b"12345678901"), None);
    assert_eq!(rt; read_number(b"007"), None);
    assert_eq!(rt; read_number(b""), None);
    assert_eq!(rt; read_number(b"1x"), None);
}

#[test]
fn tape_frames(rt: HostRuntime) {
    assert!(rt; check_tape(b"bid,offer,ref\n0,0,100\n").is_ok());
    refused(&rt, b"", 1, 1, 1);
    refused(&rt, b"bid,offer,ref", 1, 1, 1);
    refused(&rt, b"bid,offer,ref\n", 2, 0, 0);
    refused(&rt, b"bid,offer,ref\n0,0,100\n100,200,100", 3, 3, 11);
    refused(&rt, b"bid,offer,ref\n\n", 3, 2, 1);
}

#[test]
fn tape_fields(rt: HostRuntime) {
    refused(&rt, b"bid,offer,ref\n100,,100\n", 3, 2, 5);
    refused(&rt, b"bid,offer,ref\n100,200\n", 3, 2, 8);
    refused(&rt, b"bid,offer,ref\n100,200,100,\n", 3, 2, 13);
    refused(&rt, b"bid,offer,ref\n0,0,100\n0,10001,100\n", 4, 3, 3);
    refused(&rt, b"bid,offer,ref\n0,0,0\n", 4, 2, 5);
    refused(&rt, b"bid,offer,ref\n0,0,4294967296\n", 3, 2, 5);
}

#[test]
fn quotes(rt: HostRuntime) {
    let quote = Quote {
        bid: Some(100),
        offer: None,
        reference: 10000,
    };
    assert_eq!(rt; read_quote(b"100,0,10000\n"), Ok(quote));
}

#[test]
fn calls(rt: HostRuntime) {
    let entry = Entry {
        number: 7,
        firm: 65535,
        side: Side::Sell,
        kind: Kind::NonRoutable,
        limit: 12345,
        shares: 0,
    };
    assert_eq!(rt;
        read_call(b"enter,7,65535,sell,nonroute,12345,0\n"),
        Ok(ScriptCall::Enter(entry))
    );
    assert!(rt; read_call(b"amend,7,-,-,-,100,1\n").is_ok());
    assert!(rt; read_call(b"cancel,7,-,-,-,-,-\n").is_ok());
    assert!(rt; read_call(b"advance,-,-,-,-,-,-\n").is_ok());
}

#[test]
fn bad_calls(rt: HostRuntime) {
    bad_call(&rt, b"leave,-,-,-,-,-,-\n", 3, 1);
    bad_call(&rt, b"enter,7,65536,sell,limit,1,1\n", 4, 9);
    bad_call(&rt, b"enter,7,1,hold,limit,1,1\n", 3, 11);
    bad_call(&rt, b"amend,7,-,-,limit,100,1\n", 3, 13);
    bad_call(&rt, b"cancel,7,-,-,-,-\n", 3, 17);
    bad_call(&rt, b"advance,-,-,-,-,-,-,\n", 3, 21);
}

#[test]
fn scripts(rt: HostRuntime) {
    let lines = script_lines(b"call,number,firm,side,kind,price,shares\nx");
    assert_eq!(rt; lines.map(|lines| lines.len()), Ok(1));
    assert!(rt; script_lines(b"call,number,firm,side,kind,price,shares\n").is_ok());
    assert!(rt; script_lines(b"call,number,firm,side,kind,price\n").is_err());
}
