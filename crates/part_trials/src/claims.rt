//! What lines of a history claim, by hand.

use claim_lines::claim_of;
use kabi_types::Cached;
use run_pasts::{Claim, Deed};
use std::test::Fail;

fn did(pid: u32, deed: Deed) -> Option<Claim> {
    Some(Claim::Did { pid, deed })
}

#[test]
fn each_deed_has_its_word(rt: HostRuntime) -> Result<(), Fail> {
    assert!(rt; claim_of(b"1 p1 done getpid = 1\n") == did(1, Deed::Done));
    assert!(rt; claim_of(b"2 p20 part write 4096\n") == did(20, Deed::Part));
    assert!(rt; claim_of(b"3 p1 refused read bound 10368 = ENOMEM\n") == did(1, Deed::Refused));
    assert!(rt; claim_of(b"4 p3 sleep poll\n") == did(3, Deed::Slept));
    assert!(rt; claim_of(b"5 p1 ended exit 0\n") == did(1, Deed::Ended));
    assert!(rt; claim_of(b"6 p4294967295 gone fork\n") == did(4294967295, Deed::Gone));
    Ok(())
}

#[test]
fn kills_and_evictions_are_told(rt: HostRuntime) -> Result<(), Fail> {
    let killed = Some(Claim::Killed { pid: 7, waiter: 2 });
    assert!(rt; claim_of(b"8 p7 killed for p2 need 3328 live 3200\n") == killed);
    let gone = Some(Claim::Evicted { what: Cached::Name });
    assert!(rt; claim_of(b"9 evict name\n") == gone);
    Ok(())
}

#[test]
fn other_lines_claim_nothing(rt: HostRuntime) -> Result<(), Fail> {
    assert!(rt; claim_of(b"") == None);
    assert!(rt; claim_of(b"1 p done getpid = 1\n") == None);
    assert!(rt; claim_of(b"1 q1 done getpid = 1\n") == None);
    assert!(rt; claim_of(b"1 p4294967296 done getpid = 1\n") == None);
    assert!(rt; claim_of(b"1 p1 did getpid = 1\n") == None);
    assert!(rt; claim_of(b"1 evict page\n") == None);
    assert!(rt; claim_of(b"end finished entries 2 charged 2304 reads 0\n") == None);
    Ok(())
}
