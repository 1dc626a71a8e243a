use crate::source::QuoteSource;
use crate::tape::Tape;
use market::quote::Quote;

#[test]
fn reads_to_the_last_quote(rt: HostRuntime) {
    let mut tape = Tape::over(b"bid,offer,ref\n100,20000,9999\n0,900000000,10000\n");
    let first = Quote {
        bid: Some(100),
        offer: Some(20000),
        reference: 9999,
    };
    assert_eq!(rt; tape.look(), first);
    assert!(rt; tape.advance().is_ok());
    assert_eq!(rt; tape.look().bid, None);
    assert_eq!(rt; tape.advance().map_err(|refusal| refusal.number()), Err(13));
    assert_eq!(rt; tape.look().reference, 10000);
}

#[test]
fn stands_in_for_what_is_no_tape(rt: HostRuntime) {
    let mut tape = Tape::over(b"bid,offer,ref\n1,0,100\n");
    let quote = Quote {
        bid: None,
        offer: None,
        reference: 100,
    };
    assert_eq!(rt; tape.look(), quote);
    assert!(rt; tape.advance().is_err());
}
