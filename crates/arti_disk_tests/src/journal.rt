// Journals over grounds in memory.
use arti_ground::{FaultyGround, Ground, MemoryGround};
use arti_journal::{AppendFault, Journal, JournalFault, frame};
use std::alloc::Global;
use std::test::Fail;

// The bodies in file 1.
fn bodies_in<G: Ground>(alloc: Global, ground: &mut G) -> Result<Vec<Vec<u8>>, JournalFault> {
    let (_journal, bodies) = Journal::open(alloc, ground, 1)?;
    Ok(bodies)
}

// Opens the journal in file 1, adds a body, and answers the length after it. None is any fault before the append.
fn add_body<G: Ground>(
    alloc: Global,
    ground: &mut G,
    body: &[u8],
    limit: u32,
) -> Result<u64, Option<AppendFault>> {
    let body = body.to_vec(alloc).map_err(|_| None)?;
    let framed = frame(alloc, body).map_err(|_| None)?;
    match Journal::open(alloc, ground, 1) {
        Err(_) => Err(None),
        Ok((mut journal, _bodies)) => match journal.append(ground, &framed, u64::from(limit)) {
            Err(fault) => Err(Some(fault)),
            Ok(()) => Ok(journal.length()),
        },
    }
}

#[test]
fn bytes_of_a_journal(rt: HostRuntime) -> Result<(), Fail> {
    let alloc = rt.alloc();
    let mut ground = MemoryGround::new(alloc, 100, 1000)?;
    assert_eq!(rt;
        add_body(alloc, &mut ground, b"abc", 24),
        Err(Some(AppendFault::Full))
    );
    assert_eq!(rt; add_body(alloc, &mut ground, b"abc", 25), Ok(25));
    assert_eq!(rt;
        add_body(alloc, &mut ground, b"d", 30),
        Err(Some(AppendFault::Full))
    );
    assert_eq!(rt; add_body(alloc, &mut ground, b"d", 31), Ok(31));
    let mut bytes = [9u8; 40];
    assert_eq!(rt; ground.read(1, 0, &mut bytes), Ok(31));
    assert_eq!(rt;
        &bytes[..31],
        b"ARTIJNL1\x01\0\0\0\0\0\0\0\x01\0\0\0\x03abc\x01\0\0\0\x01d\0".as_slice()
    );
    let bodies = bodies_in(alloc, &mut ground)?;
    assert_eq!(rt; bodies.len(), 2);
    assert_eq!(rt; bodies[0].as_slice(), b"abc".as_slice());
    assert_eq!(rt; bodies[1].as_slice(), b"d".as_slice());
    Ok(())
}

// The body of a change that defines a repository, and the file of a journal with it alone.
const BODY: &[u8] =
    b"\x00\x00\x00\x00\x00\x00\x00\x00\x00\x09anonymous\x00\x00\x00\x01\x01\x00\x04libs\x00\x00\x00\x00\x00\x00\x00\x00\x04**/*\x00\x00";

const FILE: &[u8] =
    b"ARTIJNL1\x01\0\0\0\0\0\0\0\x01\0\0\0\x2d\x00\x00\x00\x00\x00\x00\x00\x00\x00\x09anonymous\x00\x00\x00\x01\x01\x00\x04libs\x00\x00\x00\x00\x00\x00\x00\x00\x04**/*\x00\x00\0";

#[test]
fn one_change_in_a_journal(rt: HostRuntime) -> Result<(), Fail> {
    let alloc = rt.alloc();
    let mut ground = MemoryGround::new(alloc, 100, 1000)?;
    assert_eq!(rt;
        add_body(alloc, &mut ground, BODY, 66),
        Err(Some(AppendFault::Full))
    );
    assert_eq!(rt; add_body(alloc, &mut ground, BODY, 67), Ok(67));
    let mut bytes = [9u8; 80];
    assert_eq!(rt; ground.read(1, 0, &mut bytes), Ok(67));
    assert_eq!(rt; &bytes[..67], FILE);
    let mut longer = MemoryGround::new(alloc, 100, 1000)?;
    assert_eq!(rt; add_body(alloc, &mut longer, &[7; 132], 154), Ok(154));
    Ok(())
}

#[test]
fn bodies_longer_than_a_piece(rt: HostRuntime) -> Result<(), Fail> {
    let alloc = rt.alloc();
    let mut ground = MemoryGround::new(alloc, 100, 400_000)?;
    let mut body = vec![in alloc; 7u8; 131_000]?;
    body.extend_from_slice(b"end")?;
    assert_eq!(rt; add_body(alloc, &mut ground, &body, 400_000), Ok(131_025));
    assert_eq!(rt;
        add_body(alloc, &mut ground, b"short", 400_000),
        Ok(131_035)
    );
    let bodies = bodies_in(alloc, &mut ground)?;
    assert_eq!(rt; bodies.len(), 2);
    assert_eq!(rt; bodies[0].as_slice(), body.as_slice());
    assert_eq!(rt; bodies[1].as_slice(), b"short".as_slice());
    Ok(())
}

#[test]
fn files_that_are_none(rt: HostRuntime) -> Result<(), Fail> {
    let alloc = rt.alloc();
    let none: Result<usize, JournalFault> = Err(JournalFault::NotAJournal);
    let files: [(&[u8], Result<usize, JournalFault>); 9] = [
        (b"", Ok(0)),
        (b"xxxxxxxxxxxxxxxxx", Ok(0)),
        (b"xxxxxxxxxxxxxxxxxx", none),
        (b"ARTIJNL1\x01\0\0\0\0\0\0\0\0?", Ok(0)),
        (b"ARTIJNL0\x01\0\0\0\0\0\0\0\0?", none),
        (b"ARTIJNL1\x01\0\0\0\0\0\0\0\x01\0\0\0\x01a\x02rest", Ok(1)),
        (b"ARTIJNL1\x01\0\0\0\0\0\0\0\x01\0\0\0\x01a", none),
        (b"ARTIJNL1\x01\0\0\0\0\0\0\0\x01\0\0\0\0a\0", none),
        (b"ARTIJNL1\x01\0\0\0\0\0\0\0\x01\x04\0\0\x01a\0", none),
    ];
    for (bytes, expected) in files {
        let mut ground = MemoryGround::new(alloc, 100, 1000)?;
        assert_eq!(rt; ground.length(1), Ok(0));
        ground.write_at(1, 0, bytes)?;
        let count = bodies_in(alloc, &mut ground).map(|bodies| bodies.len());
        assert_eq!(rt; count, expected);
    }
    Ok(())
}

#[test]
fn an_append_stopped_at_each_moment(rt: HostRuntime) -> Result<(), Fail> {
    let alloc = rt.alloc();
    let mut ground = MemoryGround::new(alloc, 100, 1000)?;
    assert_eq!(rt; add_body(alloc, &mut ground, b"first", 1000), Ok(27));
    let begins = ground.moments();
    assert_eq!(rt; add_body(alloc, &mut ground, b"second", 1000), Ok(38));
    let moments = ground.moments();
    for moment in 0..moments {
        for choice in [0u64, 1, 2] {
            let mut after = ground.after_crash(alloc, moment, choice)?;
            let count = bodies_in(alloc, &mut after)?.len();
            let expected = if moment < begins {
                count < 2
            } else {
                count == 1 || count == 2
            };
            assert!(rt; expected);
            assert!(rt; moment < moments - 1 || count == 2);
            assert_eq!(rt; bodies_in(alloc, &mut after)?.len(), count);
        }
    }
    Ok(())
}

#[test]
fn each_call_of_an_append_fails_in_turn(rt: HostRuntime) -> Result<(), Fail> {
    let alloc = rt.alloc();
    for number in 0..12u64 {
        let failing = [number].to_vec(alloc)?;
        let mut ground = FaultyGround::new(alloc, 100, 1000, failing)?;
        let added = add_body(alloc, &mut ground, b"body", 1000);
        let expected = match number {
            0..7 => Err(None),
            7..11 => Err(Some(AppendFault::Device)),
            _ => Ok(26),
        };
        assert_eq!(rt; added, expected);
    }
    Ok(())
}
