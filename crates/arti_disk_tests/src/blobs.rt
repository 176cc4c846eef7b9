// Contents over grounds in memory.
ghost use Rattle.std.specs.Prelude.{◌≡◌, ◌+◌, ◌≤◌, ◌<◌, ◌^◌, Contains, None, false, IsTrue, IfOk, OnOk};
ghost use Rattle.arti_ground.specs.State.{State};
ghost use Rattle.arti_blobs.specs.Contents.{end_of, kept_with, staged_length, HoldsContents};

use arti_blobs::{Blobs, KeepFault, StageFault, Staged, digests_of};
use arti_ground::{FaultyGround, Ground, MemoryGround};
use arti_rows::{Digests, FileRef};
use std::alloc::{AllocError, Global};
use std::test::Fail;

#[derive(Clone, Copy, Debug, PartialEq, Eq)]
enum Stop {
    Stage(StageFault),
    Keep(KeepFault),
    Memory,
}

// The digests of `abc` (FIPS 180-4, RFC 1321).
const ABC: Digests = Digests {
    md5: *b"\x90\x01\x50\x98\x3c\xd2\x4f\xb0\xd6\x96\x3f\x7d\x28\xe1\x7f\x72",
    sha1: *b"\xa9\x99\x3e\x36\x47\x06\x81\x6a\xba\x3e\x25\x71\x78\x50\xc2\x6c\x9c\xd0\xd8\x9d",
    sha256: *b"\xba\x78\x16\xbf\x8f\x01\xcf\xea\x41\x41\x40\xde\x5d\xae\x22\x23\xb0\x03\x61\xa3\x96\x17\x7a\x9c\xb4\x10\xff\x61\xf2\x00\x15\xad",
};

// Nothing is kept.
fn no_contents(alloc: Global) -> Result<Blobs, AllocError>
    ensures { IfOk result (λ b. end_of b.kept + staged_length b.staging ≡ 0) }
{
    Blobs::open(alloc, Vec::new(alloc))
}

// Stages a content in pieces of a size.
fn stage<G: Ground>(
    blobs: &mut Blobs,
    outside: &mut G,
    content: &[u8],
    size: usize,
) -> Result<Staged, StageFault>
    requires size { 1 ≤ size }
    requires holds { G.tells → HoldsContents (G.state outside.old) blobs.old }
    ensures ended { OnOk result (blobs.new ≡ record blobs.old { staging = None }) }
    ensures kept { IfOk result (λ s. s.fresh ≡ false → Contains blobs.old.kept s.file) }
    ensures place { IfOk result (λ s. IsTrue s.fresh → s.file.place ≡ end_of blobs.old.kept) }
    ensures short { IfOk result (λ s. end_of (kept_with blobs.old.kept s) < 2 ^ 63) }
    ensures holds { G.tells → HoldsContents (G.state outside.new) blobs.new }
    ensures next { G.tells → IfOk result (λ s. HoldsContents (G.state outside.new) (record { kept = kept_with blobs.old.kept s; staging = None })) }
{
    if blobs.kept_length() > 1_000_000 {
        return Err(StageFault::TooLarge);
    }
    blobs.stage_begin();
    'pieces: for piece in content.chunks(size) {
        blobs.stage_piece(outside, piece, 1_048_576)?;
    }
    blobs.stage_end(outside)
}

// Stages a content and keeps it.
fn add<G: Ground>(
    blobs: &mut Blobs,
    outside: &mut G,
    content: &[u8],
    size: usize,
    limit: u64,
) -> Result<Staged, Stop>
    requires size { 1 ≤ size }
    requires holds { G.tells → HoldsContents (G.state outside.old) blobs.old }
    ensures holds { G.tells → HoldsContents (G.state outside.new) blobs.new }
    ensures kept { IfOk result (λ s. Contains blobs.new.kept s.file) }
{
    let staged = stage(blobs, outside, content, size).map_err(|fault| Stop::Stage(fault))?;
    blobs
        .keep(&staged, limit)
        .map_err(|fault| Stop::Keep(fault))?;
    Ok(staged)
}

// The same, and reads it from a place on.
fn add_and_read<G: Ground>(
    blobs: &mut Blobs,
    outside: &mut G,
    content: &[u8],
    at: u64,
    buf: &mut [u8],
) -> Result<(Staged, usize), Stop>
    requires { G.tells → HoldsContents (G.state outside.old) blobs.old }
    ensures { G.tells → HoldsContents (G.state outside.new) blobs.new }
{
    let staged = add(blobs, outside, content, 65_536, 65_536)?;
    let n = blobs
        .read(outside, &staged.file, at, buf)
        .map_err(|fault| Stop::Stage(fault))?;
    Ok((staged, n))
}

// Writes bytes at the front of the contents file, and takes them as one kept content of these digests.
fn kept_already<G: Ground>(
    alloc: Global,
    outside: &mut G,
    bytes: &[u8],
    digests: Digests,
) -> Result<Blobs, Stop>
    ensures { G.tells → IfOk result (λ b. HoldsContents (G.state outside.new) b) }
{
    let device = Stop::Stage(StageFault::Device);
    outside.write_at(3, 0, bytes).map_err(|_| device)?;
    let len = outside.length(3).map_err(|_| device)?;
    if len > 1000 {
        return Err(device);
    }
    let file = FileRef {
        place: 0,
        len,
        digests,
    };
    let kept = [file].to_vec(alloc).map_err(|_| Stop::Memory)?;
    Blobs::open(alloc, kept).map_err(|_| Stop::Memory)
}

// The numbers from 0 to 250, again and again.
fn numbers(alloc: Global, len: usize) -> Result<Vec<u8>, AllocError> {
    let mut bytes = Vec::new(alloc);
    for i in 0..len {
        bytes.push((i % 251) as u8)?;
    }
    Ok(bytes)
}

#[test]
fn digests_from_outside(rt: HostRuntime) -> Result<(), Fail> {
    let alloc = rt.alloc();
    let rows: [(usize, Digests); 7] = [
        (
            0,
            Digests {
                md5: *b"\xd4\x1d\x8c\xd9\x8f\x00\xb2\x04\xe9\x80\x09\x98\xec\xf8\x42\x7e",
                sha1: *b"\xda\x39\xa3\xee\x5e\x6b\x4b\x0d\x32\x55\xbf\xef\x95\x60\x18\x90\xaf\xd8\x07\x09",
                sha256: *b"\xe3\xb0\xc4\x42\x98\xfc\x1c\x14\x9a\xfb\xf4\xc8\x99\x6f\xb9\x24\x27\xae\x41\xe4\x64\x9b\x93\x4c\xa4\x95\x99\x1b\x78\x52\xb8\x55",
            },
        ),
        (
            1,
            Digests {
                md5: *b"\x93\xb8\x85\xad\xfe\x0d\xa0\x89\xcd\xf6\x34\x90\x4f\xd5\x9f\x71",
                sha1: *b"\x5b\xa9\x3c\x9d\xb0\xcf\xf9\x3f\x52\xb5\x21\xd7\x42\x0e\x43\xf6\xed\xa2\x78\x4f",
                sha256: *b"\x6e\x34\x0b\x9c\xff\xb3\x7a\x98\x9c\xa5\x44\xe6\xbb\x78\x0a\x2c\x78\x90\x1d\x3f\xb3\x37\x38\x76\x85\x11\xa3\x06\x17\xaf\xa0\x1d",
            },
        ),
        (
            63,
            Digests {
                md5: *b"\x48\xa6\x29\x52\x21\x90\x2e\x8e\x09\x38\xf7\x73\xa7\x18\x5e\x72",
                sha1: *b"\x6d\x94\x2d\xa0\xc4\x39\x2b\x12\x35\x28\xf2\x90\x5c\x71\x3a\x3c\xe2\x83\x64\xbd",
                sha256: *b"\x29\xaf\x26\x86\xfd\x53\x37\x4a\x36\xb0\x84\x66\x94\xcc\x34\x21\x77\xe4\x28\xd1\x64\x75\x15\xf0\x78\x78\x4d\x69\xcd\xb9\xe4\x88",
            },
        ),
        (
            64,
            Digests {
                md5: *b"\xb2\xd3\xf5\x6b\xc1\x97\xfd\x98\x5d\x59\x65\x07\x9b\x5e\x71\x48",
                sha1: *b"\xc6\x13\x8d\x51\x4f\xfa\x21\x35\xbf\xce\x0e\xd0\xb8\xfa\xc6\x56\x69\x91\x7e\xc7",
                sha256: *b"\xfd\xea\xb9\xac\xf3\x71\x03\x62\xbd\x26\x58\xcd\xc9\xa2\x9e\x8f\x9c\x75\x7f\xcf\x98\x11\x60\x3a\x8c\x44\x7c\xd1\xd9\x15\x11\x08",
            },
        ),
        (
            65,
            Digests {
                md5: *b"\x8b\xd7\x05\x38\x01\xc7\x68\x42\x0f\xaf\x81\x6f\xad\xba\x97\x1c",
                sha1: *b"\x69\xbd\x72\x8a\xd6\xe1\x3c\xd7\x6f\xf1\x97\x51\xfd\xe4\x27\xb0\x0e\x39\x57\x46",
                sha256: *b"\x4b\xfd\x2c\x8b\x6f\x1e\xec\x7a\x2a\xfe\xb4\x8b\x93\x4e\xe4\xb2\x69\x41\x82\x02\x7e\x6d\x0f\xc0\x75\x07\x4f\x2f\xab\xb3\x17\x81",
            },
        ),
        (
            65_536,
            Digests {
                md5: *b"\x9c\xc6\x07\x13\x92\x35\x28\xa1\xdd\x94\xe1\xc1\xab\x0e\xbc\x9e",
                sha1: *b"\xfe\xfb\x71\x74\x0a\x82\xb9\x4a\x2d\xa3\xbc\xd2\xfd\x72\xfc\x64\xa7\xfb\x86\x66",
                sha256: *b"\x4b\x64\x0d\x85\xab\x3b\xa3\x0f\xd0\x2c\x9f\xc9\xdb\x4a\x89\x28\xf4\x16\x32\x2a\xd2\x70\x22\xea\x58\xa6\x5a\xae\xe6\x8a\x4d\xf2",
            },
        ),
        (
            1_048_576,
            Digests {
                md5: *b"\x8f\x29\x3a\x2f\x6c\x19\xb3\x45\x15\x2f\x7a\x49\xbb\x4c\x64\x3c",
                sha1: *b"\xc2\xfc\x4c\xb2\x0f\x13\x01\xa6\xb0\xdd\x21\x1c\x19\xe6\x9a\x13\x92\x5d\xbe\x40",
                sha256: *b"\x63\x1b\x84\x02\x7d\x6b\x9e\x52\xb5\x39\xc4\xe8\x37\x36\x22\xd2\x30\x32\xdf\xad\xc6\x4d\x60\xaf\x87\x33\x9c\x90\x37\xe4\xf7\x69",
            },
        ),
    ];
    for (len, digests) in rows {
        let content = numbers(alloc, len)?;
        assert_eq!(rt; digests_of(&content), digests);
        let small = if len > 65_536 { 4096 } else { 1 };
        for size in [small, 7, 65_537] {
            let mut ground = MemoryGround::new(alloc, 1_048_600, 1_048_600)?;
            let mut blobs = no_contents(alloc)?;
            let staged = add(&mut blobs, &mut ground, &content, size, 1_048_576);
            let file = FileRef {
                place: 0,
                len: len as u64,
                digests,
            };
            assert_eq!(rt; staged, Ok(Staged { file, fresh: true }));
            assert_eq!(rt; blobs.kept_length(), len as u64);
            let mut bytes = vec![in alloc; 0u8; 1_048_577]?;
            let n = ground.read(3, 0, &mut bytes)?;
            bytes.truncate(n);
            assert_eq!(rt; bytes.as_slice(), content.as_slice());
        }
    }
    Ok(())
}

#[test]
fn each_content_is_kept_once(rt: HostRuntime) -> Result<(), Fail> {
    let alloc = rt.alloc();
    let mut ground = MemoryGround::new(alloc, 1000, 10_000)?;
    let mut blobs = no_contents(alloc)?;
    let rows: [(&[u8], u64, bool, u64, &[u8]); 7] = [
        (b"", 0, true, 0, b""),
        (b"abc", 0, true, 3, b"bc"),
        (b"defg", 3, true, 7, b"efg"),
        (b"abc", 0, false, 7, b"bc"),
        (b"", 0, false, 7, b""),
        (b"a", 7, true, 8, b""),
        (b"defg", 3, false, 8, b"efg"),
    ];
    for (content, place, fresh, kept_length, rest) in rows {
        let mut buf = [0u8; 10];
        let added = add_and_read(&mut blobs, &mut ground, content, 1, &mut buf);
        let file = FileRef {
            place,
            len: content.len() as u64,
            digests: digests_of(content),
        };
        assert_eq!(rt; added, Ok((Staged { file, fresh }, rest.len())));
        assert_eq!(rt; blobs.kept_length(), kept_length);
        if rest.len() <= 10 {
            assert_eq!(rt; &buf[..rest.len()], rest);
        }
    }
    Ok(())
}

#[test]
fn recorded_digests_of_another_content(rt: HostRuntime) -> Result<(), Fail> {
    let alloc = rt.alloc();
    let other = digests_of(b"xyz");
    // The bytes that are kept, their recorded digests, and whether `abc` is another content than that.
    let rows: [(&[u8], Digests, bool); 4] = [
        (b"abc", ABC, false),
        (b"abc", other, true),
        (b"abd", ABC, true),
        (b"ab", ABC, true),
    ];
    for (bytes, digests, fresh) in rows {
        let mut ground = MemoryGround::new(alloc, 1000, 1000)?;
        match kept_already(alloc, &mut ground, bytes, digests) {
            Err(_) => return Ok(assert!(rt; false)),
            Ok(mut blobs) => {
                let added = add(&mut blobs, &mut ground, b"abc", 2, 1000);
                let place = if fresh { bytes.len() as u64 } else { 0 };
                let file = FileRef {
                    place,
                    len: 3,
                    digests: ABC,
                };
                assert_eq!(rt; added, Ok(Staged { file, fresh }));
            }
        }
    }
    Ok(())
}

#[test]
fn limits_to_the_byte(rt: HostRuntime) -> Result<(), Fail> {
    let alloc = rt.alloc();
    let mut ground = MemoryGround::new(alloc, 2000, 1_200_000)?;
    let mut blobs = no_contents(alloc)?;
    let long = numbers(alloc, 1_048_577)?;
    assert_eq!(rt;
        stage(&mut blobs, &mut ground, &long, 1000),
        Err(StageFault::TooLarge)
    );
    assert_eq!(rt;
        add(&mut blobs, &mut ground, b"abc", 3, 2),
        Err(Stop::Keep(KeepFault::Full))
    );
    assert_eq!(rt; blobs.kept_length(), 0);
    assert!(rt; add(&mut blobs, &mut ground, b"abc", 3, 3).is_ok());
    assert!(rt; add(&mut blobs, &mut ground, b"abc", 3, 0).is_ok());
    assert_eq!(rt;
        add(&mut blobs, &mut ground, b"d", 3, 3),
        Err(Stop::Keep(KeepFault::Full))
    );
    assert!(rt; add(&mut blobs, &mut ground, b"", 3, 3).is_ok());
    assert_eq!(rt; blobs.kept_length(), 3);
    Ok(())
}

#[test]
fn each_call_of_the_ground_fails_in_turn(rt: HostRuntime) -> Result<(), Fail> {
    let alloc = rt.alloc();
    for number in 0..8u64 {
        let failing = [number].to_vec(alloc)?;
        let mut ground = FaultyGround::new(alloc, 1000, 1000, failing)?;
        let mut blobs = no_contents(alloc)?;
        let mut buf = [0u8; 3];
        // Two writes; then a write and two reads that compare; then a read.
        let first = add(&mut blobs, &mut ground, b"abc", 2, 1000);
        let failed = Err(Stop::Stage(StageFault::Device));
        assert_eq!(rt; first.is_ok(), number >= 2);
        assert!(rt; first.is_ok() || first == failed);
        let second = add_and_read(&mut blobs, &mut ground, b"abc", 0, &mut buf);
        let fails = number >= 2 && number < 6;
        assert_eq!(rt; second.is_ok(), !fails);
        assert_eq!(rt; blobs.kept_length(), 3);
    }
    Ok(())
}

#[test]
fn a_kept_content_stays_through_a_crash(rt: HostRuntime) -> Result<(), Fail> {
    let alloc = rt.alloc();
    let mut ground = MemoryGround::new(alloc, 1000, 1000)?;
    let mut blobs = no_contents(alloc)?;
    assert!(rt; add(&mut blobs, &mut ground, b"abc", 2, 1000).is_ok());
    ground.sync()?;
    let synced = ground.moments();
    assert!(rt; stage(&mut blobs, &mut ground, b"defgh", 2).is_ok());
    assert!(rt; stage(&mut blobs, &mut ground, b"ij", 1).is_ok());
    for moment in synced..ground.moments() {
        for choice in [0u64, 1, 2] {
            let mut after = ground.after_crash(alloc, moment, choice)?;
            let mut buf = [0u8; 3];
            assert_eq!(rt; after.read(3, 0, &mut buf), Ok(3));
            assert_eq!(rt; &buf, b"abc");
        }
    }
    Ok(())
}
