// Each fake once, by what it gives.
use arti_ground::{
    Clock, Failed, FaultyGround, FetchFault, Fetched, Ground, ListClock, ListUpstream,
    MemoryGround, MemorySource, RemoteEntry, Source, Upstream,
};
use arti_rows::{Moment, Seq, Text};
use std::alloc::{AllocError, Global};
use std::test::Fail;

fn exercise<G: Ground>(ground: &mut G) -> Result<(), Failed> {
    ground.write_at(1, 0, b"abc")?;
    ground.sync()?;
    ground.write_at(1, 0, b"xy")?;
    ground.tell(0, b"hello")
}

#[test]
fn images_of_each_moment(rt: HostRuntime) -> Result<(), Fail> {
    let alloc = rt.alloc();
    let mut ground = MemoryGround::new(alloc, 100, 1000)?;
    exercise(&mut ground)?;
    assert_eq!(rt; ground.told(alloc, 0)?.as_slice(), b"hello".as_slice());
    assert_eq!(rt; ground.moments(), 5);
    let expected: [[&[u8]; 2]; 5] = [
        [b"", b""],
        [b"", b"abc"],
        [b"abc", b"abc"],
        [b"abc", b"xyc"],
        [b"abc", b"xyc"],
    ];
    for (moment, images) in expected.iter().enumerate() {
        let moment = moment as u64;
        if moment < ground.moments() {
            for choice in 0..2u8 {
                let mut after = ground.after_crash(alloc, moment, u64::from(choice))?;
                let mut buf = [0u8; 8];
                let n = after.read(1, 0, &mut buf)?;
                assert_eq!(rt; &buf[..n], images[choice as usize]);
            }
            let mut torn = ground.after_crash(alloc, moment, 2)?;
            let mut buf = [9u8; 8];
            let n = torn.read(1, 0, &mut buf)?;
            assert_eq!(rt; n, images[1].len());
            for (byte, (old, new)) in buf.iter().zip(images[0].iter().zip(images[1])) {
                assert!(rt; byte == old || byte == new || *byte == 0);
            }
            assert_eq!(rt; torn.moments(), 2);
        }
    }
    Ok(())
}

#[test]
fn a_chosen_call_fails_and_leaves_all(rt: HostRuntime) -> Result<(), Fail> {
    let alloc = rt.alloc();
    for number in 0..5u64 {
        let failing = [number].to_vec(alloc)?;
        let mut ground = FaultyGround::new(alloc, 100, 1000, failing)?;
        let expected = if number < 4 { Err(Failed) } else { Ok(()) };
        assert_eq!(rt; exercise(&mut ground), expected);
        assert_eq!(rt; ground.moments(), number + 1);
        let told: &[u8] = if number < 4 { b"" } else { b"hello" };
        assert_eq!(rt; ground.told(alloc, 0)?.as_slice(), told);
        let mut whole = ground.after_crash(alloc, number, 1)?;
        let length = if number == 0 { 0 } else { 3 };
        assert_eq!(rt; whole.length(1)?, length);
    }
    Ok(())
}

#[test]
fn a_call_past_the_room_fails(rt: HostRuntime) -> Result<(), Fail> {
    let alloc = rt.alloc();
    let mut few_calls = MemoryGround::new(alloc, 3, 1000)?;
    assert_eq!(rt; exercise(&mut few_calls), Err(Failed));
    assert_eq!(rt; few_calls.moments(), 4);
    let mut few_bytes = MemoryGround::new(alloc, 100, 4)?;
    assert_eq!(rt; exercise(&mut few_bytes), Err(Failed));
    assert_eq!(rt; few_bytes.moments(), 3);
    assert_eq!(rt; few_bytes.length(1), Ok(3));
    Ok(())
}

fn remote(alloc: Global, path: &str, content: Option<&[u8]>) -> Result<RemoteEntry, AllocError> {
    let content = match content {
        Some(bytes) => Some(Seq::from_vec(bytes.to_vec(alloc)?)),
        None => None,
    };
    Ok(RemoteEntry {
        url: Text::from_str(alloc, "http://far")?,
        path: Text::from_str(alloc, path)?,
        content,
    })
}

fn entries(alloc: Global) -> Result<Vec<RemoteEntry>, AllocError> {
    let mut entries = Vec::new(alloc);
    entries.push(remote(alloc, "a", Some(b"abc"))?)?;
    entries.push(remote(alloc, "a", None)?)?;
    entries.push(remote(alloc, "b", None)?)?;
    Ok(entries)
}

#[test]
fn the_other_fakes_give_what_they_hold(rt: HostRuntime) -> Result<(), Fail> {
    let alloc = rt.alloc();
    let bytes = b"abcdefgh".to_vec(alloc)?;
    let sizes = [1usize, 5, 2].to_vec(alloc)?;
    let failing = [1u64].to_vec(alloc)?;
    let mut source = MemorySource::new(bytes, sizes, failing);
    let mut buf = [0u8; 4];
    for expected in [Ok(1), Err(Failed), Ok(2), Ok(4), Ok(1), Ok(0)] {
        assert_eq!(rt; source.read(&mut buf), expected);
    }
    assert_eq!(rt; &buf, b"hefg");

    let mut answers = Vec::new(alloc);
    for _ in 0..3u8 {
        answers.push(entries(alloc)?)?;
    }
    let mut upstream = ListUpstream::new(answers);
    let mut buf = Vec::new(alloc);
    let asked: [(&str, u64, Result<Fetched, FetchFault>); 4] = [
        ("a", 3, Ok(Fetched::Found)),
        ("a", 2, Ok(Fetched::TooLarge)),
        ("b", 3, Err(FetchFault::Failed)),
        ("a", 3, Ok(Fetched::Missing)),
    ];
    for (path, max, expected) in asked {
        assert_eq!(rt; upstream.fetch("http://far", path, max, &mut buf), expected);
    }
    assert_eq!(rt; buf.as_slice(), b"abc".as_slice());

    let moments = [moment(&rt, 5), moment(&rt, -1)].to_vec(alloc)?;
    let mut clock = ListClock::new(moments);
    for expected in [5, -1, 0, 0] {
        assert_eq!(rt; clock.now().ms(), expected);
    }
    Ok(())
}

fn moment<R: std::process::Abort>(rt: &R, ms: i64) -> Moment {
    Moment::new(ms).expect(rt, "a moment in range")
}
