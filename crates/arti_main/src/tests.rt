// The top call against bytes that come from outside.
ghost use Rattle.std.specs.Prelude.{◌≡◌, ◌<◌};

use crate::top::{Status, run};
use arti_ground::{
    FaultyGround, Ground, ListClock, ListUpstream, MemoryGround, MemorySource, Steps,
};
use arti_rows::Limits;
use std::alloc::{AllocError, Global};
use std::marker::Brand;
use std::sync::ledger::{Blank, Ledger};
use std::test::Fail;

const PUT: &[u8] =
    b"PUT /generic-local/a/b.txt HTTP/1.1\r\nHost: x\r\nContent-Length: 3\r\n\r\nabc";

const GET: &[u8] = b"GET /generic-local/a/b.txt HTTP/1.1\r\nHost: x\r\n\r\n";

const CREATED: &[u8] =
    b"HTTP/1.1 201 Created\r\nContent-Type: application/json\r\nContent-Length: 295\r\n\r\n{\"repo\":\"generic-local\",\"path\":\"/a/b.txt\",\"created\":\"1970-01-01T00:00:00.000Z\",\"createdBy\":\"anonymous\",\"size\":\"3\",\"checksums\":{\"md5\":\"900150983cd24fb0d6963f7d28e17f72\",\"sha1\":\"a9993e364706816aba3e25717850c26c9cd0d89d\",\"sha256\":\"ba7816bf8f01cfea414140de5dae2223b00361a396177a9cb410ff61f20015ad\"}}";

const FETCHED: &[u8] =
    b"HTTP/1.1 200 OK\r\nContent-Type: application/octet-stream\r\nX-Checksum-Md5: 900150983cd24fb0d6963f7d28e17f72\r\nX-Checksum-Sha1: a9993e364706816aba3e25717850c26c9cd0d89d\r\nX-Checksum-Sha256: ba7816bf8f01cfea414140de5dae2223b00361a396177a9cb410ff61f20015ad\r\nContent-Length: 3\r\n\r\nabc";

// Words as strings of their own.
fn words_of(alloc: Global, words: &[&str]) -> Result<Vec<String>, AllocError> {
    let mut owned = Vec::new(alloc);
    for word in words {
        owned.push(String::from_str(alloc, word)?)?;
    }
    Ok(owned)
}

// Runs the words over the files of the ground, and gives the status.
fn run_on<G: Ground, L: Ledger>(
    rt: &HostRuntime,
    words: &[&str],
    ground: &mut G,
    mut source: MemorySource,
    blank: Blank,
) -> Result<Status, AllocError>
    requires name { blank.name ≡ L.name }
    requires parts { blank.parts ≡ L.parts }
    requires some { 0 < blank.parts }
{
    let alloc = rt.alloc();
    let mut upstream = ListUpstream::new(Vec::new(alloc));
    let mut clock = ListClock::new(Vec::new(alloc));
    let mut steps = Steps::<L>::open(blank);
    let words = words_of(alloc, words)?;
    Ok(run(
        rt,
        alloc,
        &words,
        &Limits::standard(),
        ground,
        &mut source,
        &mut upstream,
        &mut clock,
        &mut steps,
    ))
}

// What a run told on a new store, and its status. Each of the first reads takes that many bytes.
fn told_by<L: Ledger>(
    rt: &HostRuntime,
    words: &[&str],
    input: Vec<u8>,
    sizes: Vec<usize>,
    blank: Blank,
) -> Result<(Vec<u8>, Status), AllocError>
    requires name { blank.name ≡ L.name }
    requires parts { blank.parts ≡ L.parts }
    requires some { 0 < blank.parts }
    requires sizes { All (λ n. 1 ≤ n) sizes.items }
{
    let alloc = rt.alloc();
    let mut ground = MemoryGround::new(alloc, 100, 10_000)?;
    let source = MemorySource::new(input, sizes, Vec::new(alloc));
    let status = run_on::<MemoryGround, L>(rt, words, &mut ground, source, blank)?;
    Ok((ground.told(alloc, 0)?, status))
}

// A source that gives these bytes.
fn source_of(alloc: Global, bytes: &[u8]) -> Result<MemorySource, AllocError> {
    let bytes = bytes.to_vec(alloc)?;
    Ok(MemorySource::new(bytes, Vec::new(alloc), Vec::new(alloc)))
}

ghost use Rattle.std.specs.Prelude.{◌≤◌, All};

const REPLAY: &[&str] = &["replay", "--start", "0"];

// The deploy and the fetch behind it.
fn first_deploy(alloc: Global) -> Result<Vec<u8>, AllocError> {
    let mut input = PUT.to_vec(alloc)?;
    input.extend_from_slice(GET)?;
    Ok(input)
}

// The replies to both.
fn both_replies(alloc: Global) -> Result<Vec<u8>, AllocError> {
    let mut replies = CREATED.to_vec(alloc)?;
    replies.extend_from_slice(FETCHED)?;
    Ok(replies)
}

#[test]
fn first_deploy_in_reads_of_each_size(rt: HostRuntime) -> Result<(), Fail> {
    let alloc = rt.alloc();
    let want = both_replies(alloc)?;
    for size in 1..5 {
        let input = first_deploy(alloc)?;
        let sizes = vec![in alloc; size; 200]?;
        let (told, status) = told_by::<Brand>(&rt, REPLAY, input, sizes, Blank::new(1))?;
        assert!(&rt; status == Status::Ok);
        assert!(&rt; told.as_slice() == want.as_slice());
    }
    Ok(())
}

// What is to be told where only so many bytes came, and the status.
fn wanted(len: usize) -> (bool, bool, Status) {
    let whole = PUT.len() + GET.len();
    let status = if len == 0 || len == PUT.len() || len == whole {
        Status::Ok
    } else {
        Status::BadInput
    };
    (len >= PUT.len(), len == whole, status)
}

#[test]
fn first_deploy_cut_at_each_place(rt: HostRuntime) -> Result<(), Fail> {
    let alloc = rt.alloc();
    let all = first_deploy(alloc)?;
    for len in 0..all.len() + 1 {
        let input = all[..len].to_vec(alloc)?;
        let (created, fetched, want) = wanted(len);
        let (told, status) = told_by::<Brand>(&rt, REPLAY, input, Vec::new(alloc), Blank::new(1))?;
        let mut replies = Vec::new(alloc);
        if created {
            replies.extend_from_slice(CREATED)?;
        }
        if fetched {
            replies.extend_from_slice(FETCHED)?;
        }
        assert!(&rt; status == want);
        assert!(&rt; told.as_slice() == replies.as_slice());
    }
    Ok(())
}

#[test]
fn words_that_are_no_command(rt: HostRuntime) -> Result<(), Fail> {
    let alloc = rt.alloc();
    let table: &[&[&str]] = &[
        &[],
        &["replay", "--start", "x"],
        &["replay", "--start", "01"],
        &["replay", "--start", "+1"],
        &["replay", "--start", "253402200000001"],
        &["replay", "--start", ""],
        &["replay", "--begin", "0"],
        &["answer", "--start", "0"],
        &["replay", "--start", "0", "0"],
    ];
    for words in table {
        let input = first_deploy(alloc)?;
        let (told, status) = told_by::<Brand>(&rt, words, input, Vec::new(alloc), Blank::new(1))?;
        assert!(&rt; status == Status::Usage);
        assert!(&rt; told.is_empty());
    }
    let greatest = &["replay", "--start", "253402200000000"];
    let (_, status) = told_by::<Brand>(
        &rt,
        greatest,
        Vec::new(alloc),
        Vec::new(alloc),
        Blank::new(1),
    )?;
    assert!(&rt; status == Status::Ok);
    Ok(())
}

const QUERY: &[u8] =
    b"POST /api/search/aql HTTP/1.1\r\nContent-Length: 36\r\n\r\nitems.find({\"repo\":\"generic-local\"})";

const ROW: &[u8] =
    b"HTTP/1.1 200 OK\r\nContent-Type: application/json\r\nContent-Length: 296\r\n\r\n{\"results\":[{\"repo\":\"generic-local\",\"path\":\"a\",\"name\":\"b.txt\",\"type\":\"file\",\"size\":3,\"created\":\"1970-01-01T00:00:00.000Z\",\"created_by\":\"anonymous\",\"modified\":\"1970-01-01T00:00:00.000Z\",\"modified_by\":\"anonymous\",\"updated\":\"1970-01-01T00:00:00.000Z\"}],\"range\":{\"start_pos\":0,\"end_pos\":1,\"total\":1}}";

const NO_ROW: &[u8] =
    b"HTTP/1.1 200 OK\r\nContent-Type: application/json\r\nContent-Length: 60\r\n\r\n{\"results\":[],\"range\":{\"start_pos\":0,\"end_pos\":0,\"total\":0}}";

const OTHER_QUERY: &[u8] =
    b"POST /api/search/aql HTTP/1.1\r\nContent-Length: 12\r\n\r\nitems.find()";

const NOT_YET_AT: &[u8] =
    b"HTTP/1.1 501 Not Implemented\r\nContent-Type: application/json\r\nContent-Length: 50\r\n\r\n{\"errors\":[{\"status\":501,\"message\":\"NotYet: 11\"}]}";

const PING: &[u8] = b"\r\nGET /api/system/ping HTTP/1.1\r\nConnection: close\r\n\r\nrest";

const NOT_YET: &[u8] =
    b"HTTP/1.1 501 Not Implemented\r\nContent-Type: application/json\r\nContent-Length: 46\r\n\r\n{\"errors\":[{\"status\":501,\"message\":\"NotYet\"}]}";

const TOO_LARGE: &[u8] = b"PUT /generic-local/a HTTP/1.1\r\nContent-Length: 67108865\r\n\r\n";

const BODY_TOO_LARGE: &[u8] =
    b"HTTP/1.1 413 Payload Too Large\r\nContent-Type: application/json\r\nContent-Length: 52\r\n\r\n{\"errors\":[{\"status\":413,\"message\":\"BodyTooLarge\"}]}";

const NO_NUMBER: &[u8] = b"PUT /generic-local/a HTTP/1.1\r\nContent-Length: 3x\r\n\r\n";

const BAD_LENGTH: &[u8] =
    b"HTTP/1.1 400 Bad Request\r\nContent-Type: application/json\r\nContent-Length: 49\r\n\r\n{\"errors\":[{\"status\":400,\"message\":\"BadLength\"}]}";

const CODED: &[u8] = b"PUT /generic-local/a HTTP/1.1\r\nTransfer-Encoding: gzip\r\n\r\n";

const UNKNOWN_CODING: &[u8] =
    b"HTTP/1.1 501 Not Implemented\r\nContent-Type: application/json\r\nContent-Length: 53\r\n\r\n{\"errors\":[{\"status\":501,\"message\":\"UnknownCoding\"}]}";

#[test]
fn queries_and_hostile_requests(rt: HostRuntime) -> Result<(), Fail> {
    let alloc = rt.alloc();
    let table: &[(&[u8], &[u8], &[u8], &[u8], Status)] = &[
        (PUT, QUERY, CREATED, ROW, Status::Ok),
        (QUERY, OTHER_QUERY, NO_ROW, NOT_YET_AT, Status::Ok),
        (b"", PING, b"", NOT_YET, Status::Ok),
        (QUERY, TOO_LARGE, NO_ROW, BODY_TOO_LARGE, Status::BadInput),
        (b"", NO_NUMBER, b"", BAD_LENGTH, Status::BadInput),
        (b"", CODED, b"", UNKNOWN_CODING, Status::BadInput),
    ];
    for (first, second, reply, last, status) in table {
        let mut input = first.to_vec(alloc)?;
        input.extend_from_slice(second)?;
        let mut want = reply.to_vec(alloc)?;
        want.extend_from_slice(last)?;
        let (told, ended) = told_by::<Brand>(&rt, REPLAY, input, Vec::new(alloc), Blank::new(1))?;
        assert!(&rt; ended == *status);
        assert!(&rt; told.as_slice() == want.as_slice());
    }
    Ok(())
}

const NOT_FOUND: &[u8] =
    b"HTTP/1.1 404 Not Found\r\nContent-Type: application/json\r\nContent-Length: 71\r\n\r\n{\"errors\":[{\"status\":404,\"message\":\"NotFound: generic-local/a/b.txt\"}]}";

#[test]
fn files_that_are_no_store(rt: HostRuntime) -> Result<(), Fail> {
    let alloc = rt.alloc();
    // A journal that was there before, the status, and what is told.
    let table: &[(&[u8], Status, &[u8])] = &[
        (b"", Status::Ok, NOT_FOUND),
        (b"ARTIJNL1\x01\0\0\0\0\0\0\0\0", Status::Ok, NOT_FOUND),
        (b"of something else.", Status::NotAStore, b""),
        (b"ARTIJNL0\x01\0\0\0\0\0\0\0\0\0", Status::NotAStore, b""),
    ];
    for (journal, wanted, told) in table {
        let mut ground = MemoryGround::new(alloc, 100, 10_000)?;
        let written = ground.write_at(1, 0, journal);
        assert!(&rt; written == Ok(()));
        let source = source_of(alloc, GET)?;
        let status = run_on::<MemoryGround, Brand>(
            &rt,
            REPLAY,
            &mut ground,
            source,
            Blank::new(1),
        )?;
        assert!(&rt; status == *wanted);
        assert!(&rt; ground.told(alloc, 0)?.as_slice() == *told);
    }
    Ok(())
}

#[test]
fn each_call_fails_in_turn(rt: HostRuntime) -> Result<(), Fail> {
    let alloc = rt.alloc();
    let mut disk_faults = 0u64;
    let mut tell_faults = 0u64;
    for number in 0..40u64 {
        let failing = [number].to_vec(alloc)?;
        let mut ground = FaultyGround::new(alloc, 100, 10_000, failing)?;
        let source = source_of(alloc, PUT)?;
        let status = run_on::<FaultyGround, Brand>(
            &rt,
            REPLAY,
            &mut ground,
            source,
            Blank::new(1),
        )?;
        let mut told = ground.told(alloc, 0)?;
        let source = source_of(alloc, GET)?;
        let again = run_on::<FaultyGround, Brand>(&rt, REPLAY, &mut ground, source, Blank::new(1))?;
        let behind = ground.told(alloc, 0)?;
        match status {
            Status::Ok => assert!(&rt; told.as_slice() == CREATED),
            Status::DiskFault => {
                disk_faults = disk_faults.saturating_add(1);
                assert!(&rt; told.is_empty());
                assert!(&rt; behind.as_slice() == FETCHED || behind.as_slice() == NOT_FOUND);
            }
            Status::TellFault => {
                tell_faults = tell_faults.saturating_add(1);
                assert!(&rt; told.is_empty());
                assert!(&rt; behind.as_slice() == FETCHED);
            }
            _ => assert!(&rt; false),
        }
        if again == Status::Ok && status == Status::Ok {
            told.extend_from_slice(FETCHED)?;
            assert!(&rt; behind.as_slice() == told.as_slice());
        }
    }
    assert!(&rt; disk_faults > 4);
    assert!(&rt; tell_faults == 1);
    Ok(())
}

#[test]
fn first_deploy_stopped_at_each_moment(rt: HostRuntime) -> Result<(), Fail> {
    let alloc = rt.alloc();
    let mut ground = MemoryGround::new(alloc, 100, 10_000)?;
    let source = source_of(alloc, PUT)?;
    run_on::<MemoryGround, Brand>(&rt, REPLAY, &mut ground, source, Blank::new(1))?;
    assert!(&rt; ground.told(alloc, 0)?.as_slice() == CREATED);
    // The moment behind which the reply to the deploy was told.
    let created = ground.moments();
    let source = source_of(alloc, GET)?;
    run_on::<MemoryGround, Brand>(&rt, REPLAY, &mut ground, source, Blank::new(1))?;
    for moment in 0..ground.moments() {
        for choice in [0u64, 1, 2] {
            let mut after = ground.after_crash(alloc, moment, choice)?;
            let source = source_of(alloc, GET)?;
            let status = run_on::<MemoryGround, Brand>(
                &rt,
                REPLAY,
                &mut after,
                source,
                Blank::new(1),
            )?;
            assert!(&rt; status == Status::Ok);
            let told = after.told(alloc, 0)?;
            let is_fetched = told.as_slice() == FETCHED;
            assert!(&rt; is_fetched || (moment + 1 < created && told.as_slice() == NOT_FOUND));
        }
    }
    Ok(())
}
