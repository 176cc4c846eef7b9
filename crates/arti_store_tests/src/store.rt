// Stores over grounds in memory.
ghost use Rattle.std.specs.Prelude.{◌≡◌, ◌∷◌, ◌≤◌, ◌^◌, ◌<◌, [], ℕ, List, None, Some, Option, All, Contains, IfOk, IsTrue};
ghost use Rattle.arti_rows.specs.declared.rows.FileRef.{FileRef};
ghost use Rattle.arti_codec.specs.ChangeBytes.{HasBytes};
ghost use Rattle.arti_store.specs.Changes.{edit_references, references_of};
ghost use Rattle.arti_store.specs.Store.{judged};
ghost use Rattle.arti_store.specs.Commit.{Supplies};

use crate::quiet::Quiet;
use arti_blobs::{StageFault, Staged};
use arti_codec::decode;
use arti_ground::{FaultyGround, Ground, MemoryGround};
use arti_journal::{Journal, frame};
use arti_rows::{Change, Edit, FileRef, ItemKey, Limits, Which};
use arti_store::{CommitFault, ContentFault, OpenFault, Store};
use std::alloc::{AllocError, Global};
use std::test::Fail;

#[derive(Clone, Copy, Debug, PartialEq, Eq)]
enum Stop {
    Open(OpenFault),
    Stage(StageFault),
    Commit(CommitFault),
    Content(ContentFault),
    OtherContent,
    Refused,
    NoFile,
    Memory,
}

// File x with `abc`, whose content is the first one.
const X_ABC: &[u8] =
    b"\0\0\0\0\0\0\x04\xd2\0\x03ann\0\0\0\x01\x03\0\x0dgeneric-local\0\x01.\0\x01x\0\0\0\0\0\0\0\0\0\0\0\0\0\0\0\0\x03\x90\x01P\x98<\xd2O\xb0\xd6\x96?}(\xe1\x7fr\xa9\x99>6G\x06\x81j\xba>%qxP\xc2l\x9c\xd0\xd8\x9d\xbax\x16\xbf\x8f\x01\xcf\xeaAA@\xde]\xae\x22#\xb0\x03a\xa3\x96\x17z\x9c\xb4\x10\xffa\xf2\0\x15\xad\0\0";

// File a/b/y with the same content.
const Y_ABC: &[u8] =
    b"\0\0\0\0\0\0\x04\xd3\0\x03ann\0\0\0\x01\x03\0\x0dgeneric-local\0\x03a/b\0\x01y\0\0\0\0\0\0\0\0\0\0\0\0\0\0\0\0\x03\x90\x01P\x98<\xd2O\xb0\xd6\x96?}(\xe1\x7fr\xa9\x99>6G\x06\x81j\xba>%qxP\xc2l\x9c\xd0\xd8\x9d\xbax\x16\xbf\x8f\x01\xcf\xeaAA@\xde]\xae\x22#\xb0\x03a\xa3\x96\x17z\x9c\xb4\x10\xffa\xf2\0\x15\xad\0\0";

// File x with `d`, whose content stands behind `abc`.
const X_D: &[u8] =
    b"\0\0\0\0\0\0\x04\xd4\0\x03ann\0\0\0\x01\x03\0\x0dgeneric-local\0\x01.\0\x01x\0\0\0\0\0\0\0\0\x03\0\0\0\0\0\0\0\x01\x82w\xe0\x91\x0du\x01\x95\xb4Hyv\x16\xe0\x91\xad<686\xcfN\x16ffi\xa2]\xa2\x80\xa1\x86\x5c-(t\x18\xac>sC\xf0\x16\x89\x0cQ\x0e\x93\xf95&\x11i\xd9\xe3\xf5eCd)\x83\x0f\xaf\x094\xf4\xf8\xe4\0\0";

// A download of a/b/y.
const GET_Y: &[u8] =
    b"\0\0\0\0\0\0\x04\xd5\0\x03ann\0\0\0\x01\x09\0\x0dgeneric-local\0\x03a/b\0\x01y";

// Folder f.
const FOLDER: &[u8] =
    b"\0\0\0\0\0\0\x04\xd6\0\x03ann\0\0\0\x01\x02\0\x0dgeneric-local\0\x01.\0\x01f";

// File y, whose content doesn't begin where the kept ones end.
const Y_END: &[u8] =
    b"\0\0\0\0\0\0\x04\xd7\0\x03ann\0\0\0\x01\x03\0\x0dgeneric-local\0\x01.\0\x01y\0\0\0\0\0\0\0\0\x01\0\0\0\0\0\0\0\x03\x90\x01P\x98<\xd2O\xb0\xd6\x96?}(\xe1\x7fr\xa9\x99>6G\x06\x81j\xba>%qxP\xc2l\x9c\xd0\xd8\x9d\xbax\x16\xbf\x8f\x01\xcf\xeaAA@\xde]\xae\x22#\xb0\x03a\xa3\x96\x17z\x9c\xb4\x10\xffa\xf2\0\x15\xad\0\0";

// Whether each content that the edits name is that one.
fn name_only(edits: &[Edit], wanted: Option<FileRef>) -> bool
    ensures { IsTrue result → All (λ file. wanted ≡ Some file) (references_of edits.now) }
{
    for edit in edits {
        if !names_only(edit, wanted) {
            return false;
        }
    }
    true
}

fn names_only(edit: &Edit, wanted: Option<FileRef>) -> bool
    ensures { IsTrue result → All (λ file. wanted ≡ Some file) (edit_references edit.now) }
{
    match edit {
        Edit::File { file, .. } => wanted == Some(*file),
        _ => true,
    }
}

// Stages a content as one piece.
fn stage<G: Ground>(store: &mut Store, ground: &mut G, content: &[u8]) -> Result<Staged, Stop>
    requires still_open { store.old.closed ≡ None }
    requires quiet { G.tells → ⊥ }
    ensures supplies { IfOk result (λ s. Supplies G.tells (G.state ground.new) store.new.contents (Some s) (s.file ∷ [])) }
{
    store.stage_begin(ground);
    store
        .stage_piece(ground, content, 65_536)
        .map_err(|fault| Stop::Stage(fault))?;
    store.stage_end(ground).map_err(|fault| Stop::Stage(fault))
}

// The change that has these bytes.
fn change_of(alloc: Global, bytes: &[u8]) -> Result<Change, Stop>
    ensures { IfOk result (λ c. HasBytes c) }
{
    match decode(alloc, bytes) {
        Err(_) => Err(Stop::Memory),
        Ok(change) => Ok(change),
    }
}

// Whether a change is one edit that the store accepts.
fn accepts(alloc: Global, store: &Store, change: &Change) -> Result<bool, Stop>
    ensures { IfOk result (λ b. IsTrue b → judged store.now change.now ≡ None) }
{
    let edits = change.edits.as_slice();
    if edits.len() != 1 {
        return Ok(false);
    }
    store.accepts(alloc, &edits[0]).map_err(|_| Stop::Memory)
}

// Commits a change that is accepted, with the content that was staged for it.
fn commit<G: Ground>(
    alloc: Global,
    store: &mut Store,
    ground: &mut G,
    bytes: &[u8],
    content: &[u8],
) -> Result<(), Stop>
    requires { G.tells → ⊥ }
{
    let change = change_of(alloc, bytes)?;
    if store.closed().is_some() {
        return store
            .commit(alloc, ground, change, None)
            .map_err(|fault| Stop::Commit(fault));
    }
    let staged = stage(store, ground, content)?;
    if !name_only(change.edits.as_slice(), Some(staged.file)) {
        return Err(Stop::OtherContent);
    }
    if !accepts(alloc, store, &change)? {
        return Err(Stop::Refused);
    }
    store
        .commit(alloc, ground, change, Some(staged))
        .map_err(|fault| Stop::Commit(fault))
}

fn open<G: Ground>(alloc: Global, ground: &mut G, limits: &Limits) -> Result<Store, Stop> {
    Store::open(alloc, ground, limits).map_err(|fault| Stop::Open(fault))
}

// Opens a store, and commits the three first changes.
fn three<G: Ground>(alloc: Global, ground: &mut G, limits: &Limits) -> Result<Store, Stop>
    requires { G.tells → ⊥ }
{
    let mut store = open(alloc, ground, limits)?;
    commit(alloc, &mut store, ground, X_ABC, b"abc")?;
    commit(alloc, &mut store, ground, Y_ABC, b"abc")?;
    commit(alloc, &mut store, ground, GET_Y, b"abc")?;
    Ok(store)
}

fn memory(alloc: Global) -> Result<Quiet<MemoryGround>, AllocError> {
    Ok(Quiet::new(MemoryGround::new(alloc, 200, 4000)?))
}

// Limits of the journal and of kept contents.
fn limits(journal: u64, blobs: u64) -> Limits {
    let most = Limits::standard();
    match Limits::new(
        most.repositories,
        most.items,
        most.builds,
        most.content,
        most.document,
        journal,
        blobs,
        most.requests,
    ) {
        Some(limits) => limits,
        None => most,
    }
}

// The content of the file at a key, or what is wrong with it.
fn content_at<G: Ground>(
    alloc: Global,
    store: &mut Store,
    ground: &mut G,
    whole: &str,
) -> Result<Vec<u8>, Stop>
    requires { G.tells → ⊥ }
{
    let key = ItemKey::new(alloc, "generic-local", whole).map_err(|_| Stop::Memory)?;
    let file = match store.find(&key) {
        None => return Err(Stop::NoFile),
        Some(row) => row.file,
    };
    match file {
        None => Err(Stop::NoFile),
        Some(file) => read_all(alloc, store, ground, &file),
    }
}

fn read_all<G: Ground>(
    alloc: Global,
    store: &mut Store,
    ground: &mut G,
    file: &FileRef,
) -> Result<Vec<u8>, Stop>
    requires quiet { G.tells → ⊥ }
    requires kept { Contains store.old.contents.kept file.now }
{
    let mut bytes = vec![in alloc; 7u8; 10].map_err(|_| Stop::Memory)?;
    let n = store
        .content(ground, file, 0, &mut bytes)
        .map_err(|fault| Stop::Content(fault))?;
    bytes.truncate(n);
    Ok(bytes)
}

// Whether the content at a key is that one.
fn reads<G: Ground>(
    alloc: Global,
    store: &mut Store,
    ground: &mut G,
    whole: &str,
    wanted: &[u8],
) -> Result<bool, Stop>
    requires { G.tells → ⊥ }
{
    let bytes = content_at(alloc, store, ground, whole)?;
    Ok(bytes.as_slice() == wanted)
}

#[test]
fn items_and_contents(rt: HostRuntime) -> Result<(), Fail> {
    let alloc = rt.alloc();
    let most = Limits::standard();
    let mut ground = memory(alloc)?;
    let mut store = three(alloc, &mut ground, &most)?;
    let counts = (store.commits(), store.kept_length(), store.used());
    assert!(rt; counts == (3, 3, 327));
    assert!(rt; reads(alloc, &mut store, &mut ground, "x", b"abc")?);
    Ok(())
}

// Opens a store, and commits the three first changes, another content for `x` and a folder.
fn five<G: Ground>(alloc: Global, ground: &mut G, limits: &Limits) -> Result<Store, Stop>
    requires { G.tells → ⊥ }
{
    let mut store = three(alloc, ground, limits)?;
    commit(alloc, &mut store, ground, X_D, b"d")?;
    commit(alloc, &mut store, ground, FOLDER, b"d")?;
    Ok(store)
}

// Whether two stores have the same rows, and as much is used and kept.
fn is_same(a: &Store, b: &Store) -> bool {
    a.items() == b.items() && a.used() == b.used() && a.kept_length() == b.kept_length()
}

// Whether each of three keys of those five reads as it should.
fn reads_five<G: Ground>(alloc: Global, store: &mut Store, ground: &mut G) -> Result<bool, Stop>
    requires { G.tells → ⊥ }
{
    if !reads(alloc, store, ground, "x", b"d")? {
        return Ok(false);
    }
    if !reads(alloc, store, ground, "a/b/y", b"abc")? {
        return Ok(false);
    }
    Ok(reads(alloc, store, ground, "f", b"") == Err(Stop::NoFile))
}

#[test]
fn items_after_an_opening(rt: HostRuntime) -> Result<(), Fail> {
    let alloc = rt.alloc();
    let most = Limits::standard();
    let mut ground = memory(alloc)?;
    let store = five(alloc, &mut ground, &most)?;
    let mut again = open(alloc, &mut ground, &most)?;
    assert!(rt; is_same(&again, &store));
    let counts = (again.items().len(), again.kept_length(), again.commits());
    assert!(rt; counts == (5, 4, 0));
    assert!(rt; again.closed() == None && again.limits() == &most);
    assert!(rt; reads_five(alloc, &mut again, &mut ground)?);
    Ok(())
}

#[test]
fn what_is_full(rt: HostRuntime) -> Result<(), Fail> {
    let alloc = rt.alloc();
    let journal = Err(Stop::Commit(CommitFault::Full(Which::Journal)));
    let blobs = Err(Stop::Commit(CommitFault::Full(Which::Blobs)));
    // The limits, and what the changes of `x`, of `y` with the same content and of `x` with another one are answered.
    let rows: [(u64, u64, [Result<(), Stop>; 3]); 6] = [
        (1000, 4, [Ok(()), Ok(()), Ok(())]),
        (1000, 3, [Ok(()), Ok(()), blobs]),
        (1000, 2, [blobs, blobs, Err(Stop::OtherContent)]),
        (148, 4, [Ok(()), journal, journal]),
        (147, 4, [journal, journal, Err(Stop::OtherContent)]),
        (148, 3, [Ok(()), journal, blobs]),
    ];
    for (journal, blobs, expected) in rows {
        let mut ground = memory(alloc)?;
        let limits = limits(journal, blobs);
        let mut store = open(alloc, &mut ground, &limits)?;
        let x = commit(alloc, &mut store, &mut ground, X_ABC, b"abc");
        let y = commit(alloc, &mut store, &mut ground, Y_ABC, b"abc");
        let d = commit(alloc, &mut store, &mut ground, X_D, b"d");
        assert_eq!(rt; [x, y, d], expected);
        let again = open(alloc, &mut ground, &limits)?;
        assert_eq!(rt; again.items(), store.items());
        assert_eq!(rt; again.kept_length(), store.kept_length());
    }
    Ok(())
}

// Whether the store has the rows that so many of the three first changes leave.
fn has_first(alloc: Global, store: &Store, count: u64) -> Result<bool, Stop> {
    let most = Limits::standard();
    let mut other = memory(alloc).map_err(|_| Stop::Memory)?;
    let mut model = open(alloc, &mut other, &most)?;
    if count > 0 {
        commit(alloc, &mut model, &mut other, X_ABC, b"abc")?;
    }
    if count > 1 {
        commit(alloc, &mut model, &mut other, Y_ABC, b"abc")?;
    }
    if count > 2 {
        commit(alloc, &mut model, &mut other, GET_Y, b"abc")?;
    }
    Ok(store.items() == model.items() && store.kept_length() == model.kept_length())
}

// Commits the three first changes to an open store, and gives the fault of the first commit that has one.
fn commit_three<G: Ground>(alloc: Global, store: &mut Store, ground: &mut G) -> Result<(), Stop>
    requires { G.tells → ⊥ }
{
    commit(alloc, store, ground, X_ABC, b"abc")?;
    commit(alloc, store, ground, Y_ABC, b"abc")?;
    commit(alloc, store, ground, GET_Y, b"abc")
}

// Whether the store in the files is one that so many of the first changes leave, or one more.
fn reopens<G: Ground>(
    alloc: Global,
    ground: &mut G,
    count: u64,
    one_more: bool,
) -> Result<bool, Stop> {
    let again = open(alloc, ground, &Limits::standard())?;
    if has_first(alloc, &again, count)? {
        return Ok(true);
    }
    Ok(one_more && has_first(alloc, &again, count.saturating_add(1))?)
}

// Whether a store that a fault of the disk closed says so, with the number of the commit.
fn says_closed<G: Ground>(alloc: Global, store: &mut Store, ground: &mut G) -> bool
    requires { G.tells → ⊥ }
{
    let number = store.commits().saturating_add(1);
    let closed = Err(Stop::Commit(CommitFault::Closed(number)));
    store.closed() == Some(number) && commit(alloc, store, ground, FOLDER, b"abc") == closed
}

// Whether a store is as it should be where the call of that number fails.
fn fails_at(alloc: Global, number: u64) -> Result<bool, Stop> {
    let failing = [number].to_vec(alloc).map_err(|_| Stop::Memory)?;
    let faulty = FaultyGround::new(alloc, 200, 4000, failing).map_err(|_| Stop::Memory)?;
    let mut ground = Quiet::new(faulty);
    let mut store = open(alloc, &mut ground, &Limits::standard())?;
    let done = commit_three(alloc, &mut store, &mut ground);
    let commits = store.commits();
    if commits > 2 {
        return Ok(false);
    }
    if done == Err(Stop::Commit(CommitFault::Device)) {
        if !says_closed(alloc, &mut store, &mut ground) {
            return Ok(false);
        }
        return reopens(alloc, &mut ground, commits, true);
    }
    if done.is_ok() || store.closed().is_some() {
        return Ok(false);
    }
    reopens(alloc, &mut ground, commits, false)
}

#[test]
fn each_call_fails_in_turn(rt: HostRuntime) -> Result<(), Fail> {
    let alloc = rt.alloc();
    for number in 11..39u64 {
        assert!(rt; fails_at(alloc, number)?);
    }
    Ok(())
}

// Whether a crash at that moment leaves the store after so many changes, or one more where it may.
fn recovers(
    alloc: Global,
    ground: &MemoryGround,
    moment: u64,
    count: u64,
    one_more: bool,
) -> Result<bool, Stop> {
    for choice in [0u64, 1, 2] {
        if moment >= ground.moments() {
            return Ok(false);
        }
        let after = ground
            .after_crash(alloc, moment, choice)
            .map_err(|_| Stop::Memory)?;
        if !reopens(alloc, &mut Quiet::new(after), count, one_more)? {
            return Ok(false);
        }
    }
    Ok(true)
}

// Whether each crash in a commit leaves the store before it or behind it, and one after it the store behind it.
fn recovers_in_commit(
    alloc: Global,
    store: &mut Store,
    ground: &mut Quiet<MemoryGround>,
    bytes: &[u8],
    count: u64,
) -> Result<bool, Stop>
    requires { count ≤ 2 }
{
    let least = ground.inner.moments();
    commit(alloc, store, ground, bytes, b"abc")?;
    let moments = ground.inner.moments();
    for moment in least..moments {
        if !recovers(alloc, &ground.inner, moment, count, true)? {
            return Ok(false);
        }
    }
    if moments == 0 {
        return Ok(false);
    }
    recovers(alloc, &ground.inner, moments - 1, count + 1, false)
}

#[test]
fn commits_stopped_at_each_moment(rt: HostRuntime) -> Result<(), Fail> {
    let alloc = rt.alloc();
    let mut ground = memory(alloc)?;
    let mut store = open(alloc, &mut ground, &Limits::standard())?;
    assert!(rt; recovers_in_commit(alloc, &mut store, &mut ground, X_ABC, 0)?);
    assert!(rt; recovers_in_commit(alloc, &mut store, &mut ground, Y_ABC, 1)?);
    assert!(rt; recovers_in_commit(alloc, &mut store, &mut ground, GET_Y, 2)?);
    Ok(())
}

#[test]
fn files_that_are_none(rt: HostRuntime) -> Result<(), Fail> {
    let alloc = rt.alloc();
    let most = Limits::standard();
    // Bodies of a journal, the contents file, and how many items its store has.
    let rows: [(&[u8], &[u8], Result<usize, OpenFault>); 7] = [
        (X_ABC, b"abc", Ok(1)),
        (X_ABC, b"abcd", Ok(1)),
        (X_ABC, b"ab", Err(OpenFault::NotAStore)),
        (Y_END, b"abcabc", Err(OpenFault::NotAStore)),
        (GET_Y, b"", Err(OpenFault::NotAStore)),
        (FOLDER, b"", Ok(1)),
        (b"no change", b"", Err(OpenFault::NotAStore)),
    ];
    for (body, contents, expected) in rows {
        let mut ground = MemoryGround::new(alloc, 100, 1000)?;
        add_body(alloc, &mut ground, body)?;
        let mut ground = Quiet::new(ground);
        ground.write_at(3, 0, contents)?;
        let opened = Store::open(alloc, &mut ground, &most).map(|store| store.items().len());
        assert_eq!(rt; opened, expected);
    }
    Ok(())
}

// Puts a body into the journal of a new store.
fn add_body(alloc: Global, ground: &mut MemoryGround, body: &[u8]) -> Result<(), Stop> {
    let body = body.to_vec(alloc).map_err(|_| Stop::Memory)?;
    let framed = frame(alloc, body).map_err(|_| Stop::Memory)?;
    match Journal::open(alloc, ground, 1) {
        Err(_) => Err(Stop::Memory),
        Ok((mut journal, _bodies)) => {
            journal
                .append(ground, &framed, 1000)
                .map_err(|_| Stop::Memory)
        }
    }
}
