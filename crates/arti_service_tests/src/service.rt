// Streams of requests against the bytes that they are to be answered, and what the store has then.
ghost use Rattle.std.specs.Prelude.{◌≡◌, ◌<◌};

use arti_ground::{Ground, ListClock, ListUpstream, MemoryGround, MemorySource, Steps};
use arti_rows::{ItemKey, Limits, Moment};
use arti_service::{Ending, converse};
use arti_store::{OpenFault, Store};
use arti_wire::Why;
use std::alloc::{AllocError, Global};
use std::marker::Brand;
use std::sync::ledger::{Blank, Ledger};
use std::test::Fail;

const DEPLOY: &[u8] =
    b"PUT /generic-local/a/b.txt HTTP/1.1\r\nHost: x\r\nContent-Length: 3\r\n\r\nabc";

const FETCH: &[u8] = b"GET /generic-local/a/b.txt HTTP/1.1\r\nHost: x\r\n\r\n";

const CUT_DEPLOY: &[u8] =
    b"PUT /generic-local/a/b.txt HTTP/1.1\r\nHost: x\r\nContent-Length: 3\r\n\r\nab";

const CUT_FETCH: &[u8] = b"GET /generic-local/a";

const CREATED: &[u8] =
    b"HTTP/1.1 201 Created\r\nContent-Type: application/json\r\nContent-Length: 295\r\n\r\n{\"repo\":\"generic-local\",\"path\":\"/a/b.txt\",\"created\":\"1970-01-01T00:00:00.000Z\",\"createdBy\":\"anonymous\",\"size\":\"3\",\"checksums\":{\"md5\":\"900150983cd24fb0d6963f7d28e17f72\",\"sha1\":\"a9993e364706816aba3e25717850c26c9cd0d89d\",\"sha256\":\"ba7816bf8f01cfea414140de5dae2223b00361a396177a9cb410ff61f20015ad\"}}";

const FETCHED: &[u8] =
    b"HTTP/1.1 200 OK\r\nContent-Type: application/octet-stream\r\nX-Checksum-Md5: 900150983cd24fb0d6963f7d28e17f72\r\nX-Checksum-Sha1: a9993e364706816aba3e25717850c26c9cd0d89d\r\nX-Checksum-Sha256: ba7816bf8f01cfea414140de5dae2223b00361a396177a9cb410ff61f20015ad\r\nContent-Length: 3\r\n\r\nabc";

const NOT_FOUND: &[u8] =
    b"HTTP/1.1 404 Not Found\r\nContent-Type: application/json\r\nContent-Length: 71\r\n\r\n{\"errors\":[{\"status\":404,\"message\":\"NotFound: generic-local/a/b.txt\"}]}";

const NOT_YET: &[u8] =
    b"HTTP/1.1 501 Not Implemented\r\nContent-Type: application/json\r\nContent-Length: 46\r\n\r\n{\"errors\":[{\"status\":501,\"message\":\"NotYet\"}]}";

const HEAD: &[u8] = b"HEAD /generic-local/a/b.txt HTTP/1.1\r\nHost: x\r\n\r\n";

const HEAD_NOT_YET: &[u8] =
    b"HTTP/1.1 501 Not Implemented\r\nContent-Type: application/json\r\nContent-Length: 46\r\n\r\n";

const BAD_LENGTH: &[u8] =
    b"HTTP/1.1 400 Bad Request\r\nContent-Type: application/json\r\nContent-Length: 49\r\n\r\n{\"errors\":[{\"status\":400,\"message\":\"BadLength\"}]}";

const BAD_HEAD: &[u8] = b"GET /generic-local/x HTTP/1.1\r\nContent-Length: 3x\r\n\r\n";

const DEPLOY_D: &[u8] =
    b"PUT /generic-local/a/b.txt HTTP/1.1\r\nHost: x\r\nContent-Length: 1\r\n\r\nd";

const CREATED_D: &[u8] =
    b"HTTP/1.1 201 Created\r\nContent-Type: application/json\r\nContent-Length: 295\r\n\r\n{\"repo\":\"generic-local\",\"path\":\"/a/b.txt\",\"created\":\"1970-01-01T00:00:00.000Z\",\"createdBy\":\"anonymous\",\"size\":\"1\",\"checksums\":{\"md5\":\"8277e0910d750195b448797616e091ad\",\"sha1\":\"3c363836cf4e16666669a25da280a1865c2d2874\",\"sha256\":\"18ac3e7343f016890c510e93f935261169d9e3f565436429830faf0934f4f8e4\"}}";

const QUERY: &[u8] =
    b"POST /api/search/aql HTTP/1.1\r\nContent-Length: 36\r\n\r\nitems.find({\"repo\":\"generic-local\"})";

const ROW_D: &[u8] =
    b"HTTP/1.1 200 OK\r\nContent-Type: application/json\r\nContent-Length: 296\r\n\r\n{\"results\":[{\"repo\":\"generic-local\",\"path\":\"a\",\"name\":\"b.txt\",\"type\":\"file\",\"size\":1,\"created\":\"1970-01-01T00:00:00.000Z\",\"created_by\":\"anonymous\",\"modified\":\"1970-01-01T00:00:00.001Z\",\"modified_by\":\"anonymous\",\"updated\":\"1970-01-01T00:00:00.001Z\"}],\"range\":{\"start_pos\":0,\"end_pos\":1,\"total\":1}}";

const FETCHED_D: &[u8] =
    b"HTTP/1.1 200 OK\r\nContent-Type: application/octet-stream\r\nX-Checksum-Md5: 8277e0910d750195b448797616e091ad\r\nX-Checksum-Sha1: 3c363836cf4e16666669a25da280a1865c2d2874\r\nX-Checksum-Sha256: 18ac3e7343f016890c510e93f935261169d9e3f565436429830faf0934f4f8e4\r\nContent-Length: 1\r\n\r\nd";

const DEPLOY_C: &[u8] =
    b"PUT /generic-local/c.txt HTTP/1.1\r\nHost: x\r\nContent-Length: 3\r\n\r\nabc";

const DEPLOY_C_BY_SHA1: &[u8] =
    b"PUT /generic-local/c.txt HTTP/1.1\r\nHost: x\r\nX-Checksum-Deploy: true\r\nX-Checksum-Sha1: a9993e364706816aba3e25717850c26c9cd0d89d\r\nContent-Length: 3\r\n\r\nabc";

const CREATED_C: &[u8] =
    b"HTTP/1.1 201 Created\r\nContent-Type: application/json\r\nContent-Length: 293\r\n\r\n{\"repo\":\"generic-local\",\"path\":\"/c.txt\",\"created\":\"1970-01-01T00:00:00.001Z\",\"createdBy\":\"anonymous\",\"size\":\"3\",\"checksums\":{\"md5\":\"900150983cd24fb0d6963f7d28e17f72\",\"sha1\":\"a9993e364706816aba3e25717850c26c9cd0d89d\",\"sha256\":\"ba7816bf8f01cfea414140de5dae2223b00361a396177a9cb410ff61f20015ad\"}}";

const FETCH_C: &[u8] = b"GET /generic-local/c.txt HTTP/1.1\r\nHost: x\r\n\r\n";

const NO_CONTENT: &[u8] =
    b"HTTP/1.1 404 Not Found\r\nContent-Type: application/json\r\nContent-Length: 49\r\n\r\n{\"errors\":[{\"status\":404,\"message\":\"NoContent\"}]}";

const DEPLOY_BY_NONE: &[u8] =
    b"PUT /generic-local/c.txt HTTP/1.1\r\nHost: x\r\nX-Checksum-Deploy: true\r\nContent-Length: 3\r\n\r\nabc";

const CHECKSUM_MISSING: &[u8] =
    b"HTTP/1.1 400 Bad Request\r\nContent-Type: application/json\r\nContent-Length: 55\r\n\r\n{\"errors\":[{\"status\":400,\"message\":\"ChecksumMissing\"}]}";

const DEPLOY_BAD_SHA1: &[u8] =
    b"PUT /generic-local/c.txt HTTP/1.1\r\nHost: x\r\nX-Checksum-Sha1: 0\r\nContent-Length: 0\r\n\r\n";

const BAD_HEADER: &[u8] =
    b"HTTP/1.1 400 Bad Request\r\nContent-Type: application/json\r\nContent-Length: 66\r\n\r\n{\"errors\":[{\"status\":400,\"message\":\"BadHeader: X-Checksum-Sha1\"}]}";

const DEPLOY_OTHER_MD5: &[u8] =
    b"PUT /generic-local/c.txt HTTP/1.1\r\nHost: x\r\nX-Checksum-Md5: 900150983cd24fb0d6963f7d28e17f72\r\nContent-Length: 1\r\n\r\nd";

const MISMATCH_MD5: &[u8] =
    b"HTTP/1.1 409 Conflict\r\nContent-Type: application/json\r\nContent-Length: 61\r\n\r\n{\"errors\":[{\"status\":409,\"message\":\"ChecksumMismatch: md5\"}]}";

const DEPLOY_OTHER_SHA1: &[u8] =
    b"PUT /generic-local/c.txt HTTP/1.1\r\nHost: x\r\nX-Checksum-Sha1: a9993e364706816aba3e25717850c26c9cd0d89d\r\nContent-Length: 1\r\n\r\nd";

const MISMATCH_SHA1: &[u8] =
    b"HTTP/1.1 409 Conflict\r\nContent-Type: application/json\r\nContent-Length: 62\r\n\r\n{\"errors\":[{\"status\":409,\"message\":\"ChecksumMismatch: sha1\"}]}";

const DEPLOY_OTHER_SHA256: &[u8] =
    b"PUT /generic-local/c.txt HTTP/1.1\r\nHost: x\r\nX-Checksum-Sha256: ba7816bf8f01cfea414140de5dae2223b00361a396177a9cb410ff61f20015ad\r\nContent-Length: 1\r\n\r\nd";

const MISMATCH_SHA256: &[u8] =
    b"HTTP/1.1 409 Conflict\r\nContent-Type: application/json\r\nContent-Length: 64\r\n\r\n{\"errors\":[{\"status\":409,\"message\":\"ChecksumMismatch: sha256\"}]}";

const DEPLOY_ALL_RIGHT: &[u8] =
    b"PUT /generic-local/a/b.txt HTTP/1.1\r\nHost: x\r\nX-Checksum-Md5: 900150983cd24fb0d6963f7d28e17f72\r\nX-Checksum-Sha1: a9993e364706816aba3e25717850c26c9cd0d89d\r\nX-Checksum-Sha256: ba7816bf8f01cfea414140de5dae2223b00361a396177a9cb410ff61f20015ad\r\nContent-Length: 3\r\n\r\nabc";

const DEPLOY_E: &[u8] = b"PUT /generic-local/e HTTP/1.1\r\nHost: x\r\nContent-Length: 0\r\n\r\n";

const CREATED_E: &[u8] =
    b"HTTP/1.1 201 Created\r\nContent-Type: application/json\r\nContent-Length: 289\r\n\r\n{\"repo\":\"generic-local\",\"path\":\"/e\",\"created\":\"1970-01-01T00:00:00.000Z\",\"createdBy\":\"anonymous\",\"size\":\"0\",\"checksums\":{\"md5\":\"d41d8cd98f00b204e9800998ecf8427e\",\"sha1\":\"da39a3ee5e6b4b0d3255bfef95601890afd80709\",\"sha256\":\"e3b0c44298fc1c149afbf4c8996fb92427ae41e4649b934ca495991b7852b855\"}}";

const DEPLOY_F: &[u8] = b"PUT /generic-local/f HTTP/1.1\r\nHost: x\r\nContent-Length: 0\r\n\r\n";

const CREATED_F: &[u8] =
    b"HTTP/1.1 201 Created\r\nContent-Type: application/json\r\nContent-Length: 289\r\n\r\n{\"repo\":\"generic-local\",\"path\":\"/f\",\"created\":\"1970-01-01T00:00:00.001Z\",\"createdBy\":\"anonymous\",\"size\":\"0\",\"checksums\":{\"md5\":\"d41d8cd98f00b204e9800998ecf8427e\",\"sha1\":\"da39a3ee5e6b4b0d3255bfef95601890afd80709\",\"sha256\":\"e3b0c44298fc1c149afbf4c8996fb92427ae41e4649b934ca495991b7852b855\"}}";

const FULL_BLOBS: &[u8] =
    b"HTTP/1.1 507 Insufficient Storage\r\nContent-Type: application/json\r\nContent-Length: 51\r\n\r\n{\"errors\":[{\"status\":507,\"message\":\"Full: blobs\"}]}";

const FULL_JOURNAL: &[u8] =
    b"HTTP/1.1 507 Insufficient Storage\r\nContent-Type: application/json\r\nContent-Length: 53\r\n\r\n{\"errors\":[{\"status\":507,\"message\":\"Full: journal\"}]}";

const DEPLOY_UNDER: &[u8] =
    b"PUT /generic-local/a/b.txt/c HTTP/1.1\r\nHost: x\r\nContent-Length: 0\r\n\r\n";

const DEPLOY_ABOVE: &[u8] =
    b"PUT /generic-local/a HTTP/1.1\r\nHost: x\r\nContent-Length: 0\r\n\r\n";

// Limits of items, of the journal and of kept contents.
fn limits(items: u32, journal: u64, blobs: u64) -> Limits {
    let most = Limits::standard();
    match Limits::new(
        most.repositories,
        items,
        most.builds,
        most.content,
        most.document,
        journal,
        blobs,
        most.requests,
    ) {
        Some(limits) => limits,
        None => most,
    }
}

// The greatest limits of the same.
const MOST: (u32, u64, u64) = (262_144, 1_073_741_824, 1_099_511_627_776);

// The parts, one behind the other.
fn joined(alloc: Global, parts: &[&[u8]]) -> Result<Vec<u8>, AllocError> {
    let mut whole = Vec::new(alloc);
    for part in parts {
        whole.extend_from_slice(part)?;
    }
    Ok(whole)
}

// A clock that shows 0 and 1 milliseconds, and then 0.
fn clock(alloc: Global) -> Result<ListClock, AllocError> {
    let mut moments = Vec::new(alloc);
    for ms in 0..2i64 {
        if let Some(moment) = Moment::new(ms) {
            moments.push(moment)?;
        }
    }
    Ok(ListClock::new(moments))
}

// Opens the store of the ground, answers the input on line 0, and says how that ended.
fn talk<L: Ledger>(
    alloc: Global,
    ground: &mut MemoryGround,
    limits: &Limits,
    input: Vec<u8>,
    blank: Blank,
) -> Result<Ending, OpenFault>
    requires name { blank.name ≡ L.name }
    requires parts { blank.parts ≡ L.parts }
    requires some { 0 < blank.parts }
{
    let mut store = Store::open(alloc, ground, limits)?;
    let mut source = MemorySource::new(input, Vec::new(alloc), Vec::new(alloc));
    let mut upstream = ListUpstream::new(Vec::new(alloc));
    let mut clock = clock(alloc)?;
    let mut steps = Steps::<L>::open(blank);
    Ok(converse(
        alloc,
        &mut store,
        ground,
        &mut source,
        &mut upstream,
        &mut clock,
        0,
        limits,
        &mut steps,
    ))
}

#[test]
fn streams_are_answered(rt: HostRuntime) -> Result<(), Fail> {
    let alloc = rt.alloc();
    // Requests on a new store, their replies, the end, and then how much of the journal is used, how much is kept and how many
    // items there are.
    let table: &[(&[&[u8]], &[&[u8]], Ending, u64, u64, usize)] = &[
        (&[], &[], Ending::End, 17, 0, 0),
        (
            &[DEPLOY, FETCH],
            &[CREATED, FETCHED],
            Ending::End,
            212,
            3,
            2,
        ),
        (&[DEPLOY, CUT_FETCH], &[CREATED], Ending::Cut, 158, 3, 2),
        (&[CUT_DEPLOY], &[], Ending::Cut, 17, 0, 0),
        (&[FETCH], &[NOT_FOUND], Ending::End, 17, 0, 0),
        (
            &[HEAD, FETCH],
            &[HEAD_NOT_YET, NOT_FOUND],
            Ending::End,
            17,
            0,
            0,
        ),
        (
            &[BAD_HEAD],
            &[BAD_LENGTH],
            Ending::Bad(Why::BadLength),
            17,
            0,
            0,
        ),
        (
            &[DEPLOY, DEPLOY_D, QUERY, FETCH],
            &[CREATED, CREATED_D, ROW_D, FETCHED_D],
            Ending::End,
            353,
            4,
            2,
        ),
        (
            &[DEPLOY, DEPLOY_C],
            &[CREATED, CREATED_C],
            Ending::End,
            299,
            3,
            3,
        ),
        (
            &[DEPLOY_E, DEPLOY_E],
            &[CREATED_E, CREATED_E],
            Ending::End,
            291,
            0,
            1,
        ),
        (
            &[DEPLOY_E, DEPLOY_F],
            &[CREATED_E, CREATED_F],
            Ending::End,
            291,
            0,
            2,
        ),
        (
            &[DEPLOY, DEPLOY_UNDER, DEPLOY_ABOVE],
            &[CREATED, NOT_YET, NOT_YET],
            Ending::End,
            158,
            3,
            2,
        ),
    ];
    for (requests, replies, end, used, kept, items) in table {
        let most = Limits::standard();
        let mut ground = MemoryGround::new(alloc, 100, 10_000)?;
        let input = joined(alloc, requests)?;
        let ending = talk::<Brand>(alloc, &mut ground, &most, input, Blank::new(1))?;
        assert_eq!(rt; ending, *end);
        assert_eq!(rt; ground.told(alloc, 0)?, joined(alloc, replies)?);
        let store = Store::open(alloc, &mut ground, &most)?;
        assert_eq!(rt; store.used(), *used);
        assert_eq!(rt; store.kept_length(), *kept);
        assert_eq!(rt; store.items().len(), *items);
    }
    Ok(())
}

// What the contents file has before the first request: free bytes, which no change names.
const FREE: &[u8] = b"????????";

#[test]
fn digests_are_minded(rt: HostRuntime) -> Result<(), Fail> {
    let alloc = rt.alloc();
    // Requests on a new store whose contents file has free bytes, their replies, how much of the journal is used then, how much
    // is kept, and the contents file. A content that is refused was staged and isn't kept, so the next one takes its place. A
    // deploy by digests writes nothing there, whatever its body is.
    let table: &[(&[&[u8]], &[&[u8]], u64, u64, &[u8])] = &[
        (
            &[DEPLOY_ALL_RIGHT, FETCH],
            &[CREATED, FETCHED],
            212,
            3,
            b"abc?????",
        ),
        (
            &[DEPLOY, DEPLOY_C_BY_SHA1, FETCH_C],
            &[CREATED, CREATED_C, FETCHED],
            353,
            3,
            b"abc?????",
        ),
        (&[DEPLOY_C_BY_SHA1], &[NO_CONTENT], 17, 0, FREE),
        (&[DEPLOY_BY_NONE], &[CHECKSUM_MISSING], 17, 0, FREE),
        (&[DEPLOY_BAD_SHA1], &[BAD_HEADER], 17, 0, FREE),
        (&[DEPLOY_OTHER_MD5], &[MISMATCH_MD5], 17, 0, b"d???????"),
        (&[DEPLOY_OTHER_SHA1], &[MISMATCH_SHA1], 17, 0, b"d???????"),
        (
            &[DEPLOY_OTHER_SHA256],
            &[MISMATCH_SHA256],
            17,
            0,
            b"d???????",
        ),
        (
            &[DEPLOY_OTHER_MD5, DEPLOY_C, FETCH_C],
            &[MISMATCH_MD5, CREATED_C, FETCHED],
            212,
            3,
            b"abc?????",
        ),
        (
            &[DEPLOY, DEPLOY_OTHER_MD5],
            &[CREATED, MISMATCH_MD5],
            158,
            3,
            b"abcd????",
        ),
    ];
    for (requests, replies, used, kept, contents) in table {
        let most = Limits::standard();
        let mut ground = MemoryGround::new(alloc, 100, 10_000)?;
        ground.write_at(3, 0, FREE)?;
        let input = joined(alloc, requests)?;
        let ending = talk::<Brand>(alloc, &mut ground, &most, input, Blank::new(1))?;
        assert_eq!(rt; ending, Ending::End);
        assert_eq!(rt; ground.told(alloc, 0)?, joined(alloc, replies)?);
        let mut bytes = [0u8; 9];
        assert_eq!(rt; ground.read(3, 0, &mut bytes), Ok(8));
        assert_eq!(rt; &bytes[..8], *contents);
        let store = Store::open(alloc, &mut ground, &most)?;
        assert_eq!(rt; store.used(), *used);
        assert_eq!(rt; store.kept_length(), *kept);
    }
    Ok(())
}

#[test]
fn what_is_full(rt: HostRuntime) -> Result<(), Fail> {
    let alloc = rt.alloc();
    let (items, journal, blobs) = MOST;
    // Limits of items, of the journal and of kept contents, requests on a new store, and their replies.
    let table: &[((u32, u64, u64), &[&[u8]], &[&[u8]])] = &[
        (
            (items, journal, 3),
            &[DEPLOY, DEPLOY_C, DEPLOY_D, DEPLOY_E],
            &[CREATED, CREATED_C, FULL_BLOBS, CREATED_E],
        ),
        (
            (items, journal, 2),
            &[DEPLOY, FETCH],
            &[FULL_BLOBS, NOT_FOUND],
        ),
        (
            (items, 158, blobs),
            &[DEPLOY, FETCH, DEPLOY_D],
            &[CREATED, FULL_JOURNAL, FULL_JOURNAL],
        ),
        (
            (items, 157, blobs),
            &[DEPLOY, FETCH],
            &[FULL_JOURNAL, NOT_FOUND],
        ),
        (
            (2, journal, blobs),
            &[DEPLOY, DEPLOY_E, DEPLOY_D],
            &[CREATED, NOT_YET, CREATED_D],
        ),
        ((1, journal, blobs), &[DEPLOY, FETCH], &[NOT_YET, NOT_FOUND]),
    ];
    for ((items, journal, blobs), requests, replies) in table {
        let limits = limits(*items, *journal, *blobs);
        let mut ground = MemoryGround::new(alloc, 100, 10_000)?;
        let input = joined(alloc, requests)?;
        let ending = talk::<Brand>(alloc, &mut ground, &limits, input, Blank::new(1))?;
        assert_eq!(rt; ending, Ending::End);
        assert_eq!(rt; ground.told(alloc, 0)?, joined(alloc, replies)?);
    }
    Ok(())
}

#[test]
fn downloads_are_counted(rt: HostRuntime) -> Result<(), Fail> {
    let alloc = rt.alloc();
    let most = Limits::standard();
    let mut ground = MemoryGround::new(alloc, 100, 10_000)?;
    let key = ItemKey::new(alloc, "generic-local", "a/b.txt")?;
    // Requests on the store that the lines before left, and the downloads of the file then.
    let table: &[(&[&[u8]], &str)] = &[
        (&[DEPLOY, FETCH], "1 at 1"),
        (&[FETCH, FETCH], "3 at 1"),
        (&[FETCH], "4 at 0"),
        (&[HEAD, QUERY], "4 at 0"),
        (&[DEPLOY_D], "never"),
    ];
    for (requests, wanted) in table {
        let input = joined(alloc, requests)?;
        talk::<Brand>(alloc, &mut ground, &most, input, Blank::new(1))?;
        let store = Store::open(alloc, &mut ground, &most)?;
        assert_eq!(rt; stat_at(alloc, &store, &key)?.as_str(), *wanted);
    }
    Ok(())
}

// How often the file at the key was downloaded, and when last.
fn stat_at(alloc: Global, store: &Store, key: &ItemKey) -> Result<String, AllocError> {
    match store.find(key) {
        None => String::from_str(alloc, "no item"),
        Some(row) => match &row.stat {
            None => String::from_str(alloc, "never"),
            Some(stat) => format!(in alloc; "{} at {}", stat.downloads, stat.downloaded.ms()),
        },
    }
}
