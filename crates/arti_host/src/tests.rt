// The files of a real folder, through grounds over it.
use crate::RealGround;
use arti_ground::{Failed, Ground};
use std::fs;
use std::io::Stdout;
use std::test::Fail;

// A ground over a folder of the folder that the test runs in.
fn ground_of(rt: &HostRuntime, folder: &str) -> Result<RealGround<Stdout>, Fail> {
    Ok(RealGround::new(rt, rt.alloc(), folder, rt.stdout())?)
}

#[test]
fn files_of_a_folder(rt: HostRuntime) -> Result<(), Fail> {
    fs::create_dir(&rt, "files")?;
    let mut outside = ground_of(&rt, "files")?;
    let mut buf = [0u8; 8];
    assert!(&rt; outside.length(5) == Ok(0));
    assert!(&rt; outside.read(5, 0, &mut buf) == Ok(0));
    assert!(&rt; outside.sync() == Ok(()));
    assert!(&rt; outside.write_at(5, 0, b"abcdef") == Ok(()));
    assert!(&rt; outside.write_at(5, 2, b"XY") == Ok(()));
    assert!(&rt; outside.cut(5, 5) == Ok(()));
    assert!(&rt; outside.sync() == Ok(()));
    // It has the folder to itself until it is let go.
    drop(outside);
    let mut again = ground_of(&rt, "files")?;
    assert!(&rt; again.length(5) == Ok(5));
    assert!(&rt; again.read(5, 1, &mut buf) == Ok(4));
    assert!(&rt; &buf[..4] == b"bXYe".as_slice());
    assert!(&rt; again.read(5, 5, &mut buf) == Ok(0));
    let mut nowhere = ground_of(&rt, "no/folder")?;
    assert!(&rt; nowhere.length(1) == Err(Failed));
    assert!(&rt; nowhere.write_at(1, 0, b"a") == Err(Failed));
    fs::remove_dir_all(&rt, "files")?;
    Ok(())
}

#[test]
fn one_ground_a_folder(rt: HostRuntime) -> Result<(), Fail> {
    fs::create_dir(&rt, "one")?;
    let mut first = ground_of(&rt, "one")?;
    let mut second = ground_of(&rt, "one")?;
    // A ground that used no file yet keeps nobody out.
    assert!(&rt; second.write_at(1, 0, b"a") == Ok(()));
    let mut buf = [0u8; 8];
    assert!(&rt; first.read(1, 0, &mut buf) == Err(Failed));
    assert!(&rt; first.length(1) == Err(Failed));
    assert!(&rt; first.write_at(1, 0, b"b") == Err(Failed));
    assert!(&rt; first.cut(1, 0) == Err(Failed));
    assert!(&rt; first.sync() == Err(Failed));
    assert!(&rt; second.read(1, 0, &mut buf) == Ok(1));
    assert!(&rt; &buf[..1] == b"a".as_slice());
    drop(second);
    assert!(&rt; first.read(1, 0, &mut buf) == Ok(1));
    fs::remove_dir_all(&rt, "one")?;
    Ok(())
}

#[test]
fn a_sync_that_failed_fails_again(rt: HostRuntime) -> Result<(), Fail> {
    // What stands in the place of file 2 can't be opened as a file.
    fs::create_dir_all(&rt, "failed/2")?;
    let mut outside = ground_of(&rt, "failed")?;
    assert!(&rt; outside.length(1) == Ok(0));
    assert!(&rt; outside.sync() == Err(Failed));
    fs::remove_dir_all(&rt, "failed/2")?;
    assert!(&rt; outside.sync() == Err(Failed));
    drop(outside);
    let mut next = ground_of(&rt, "failed")?;
    assert!(&rt; next.sync() == Ok(()));
    fs::remove_dir_all(&rt, "failed")?;
    Ok(())
}
