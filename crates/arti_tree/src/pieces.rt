// The blocks that a long list is kept in, each with its start in the whole list.
ghost use Rattle.std.specs.Prelude.{◌≡◌, ◌++◌, ℕ, ◌+◌, ◌-◌, ◌*◌, ◌<◌, ◌≤◌, ◌^◌, [], length, set, slice_index, slice_index_or, vec_len, vec_capacity, take, drop, OnOk, ◌⊎◌};
ghost use Rattle.std.specs.List.{All, concat, insert, remove};
ghost use Rattle.arti_tree.specs.Pieces.{lists, offset, over, room_for, halved, IsBlocks, IsSpare, IsWide, HasStarts};

use std::alloc::{AllocError, Global};

/// How many ids a block has after it was cut in two.
pub(crate) const HALF: usize = 2_048;
/// How many ids a block has at most.
pub(crate) const MOST: usize = 4_096;

/// The block that a place lies in, or the last one.
pub(crate) fn block_of(starts: &[usize], place: usize) -> usize
    requires some { 0 < length starts.now }
    requires first { slice_index starts.now 0 ≡ 0 }
    ensures within { result < length starts.now }
    ensures start { slice_index starts.now result ≤ place }
    ensures end { result + 1 < length starts.now → place < slice_index starts.now (result + 1) }
{
    let mut low = 0usize;
    let mut high = starts.len();
    'halves: while high - low > 1 {
        let middle = low + (high - low) / 2;
        if starts[middle] <= place {
            low = middle;
        } else {
            high = middle;
        }
    }
    low
}

// The starts are counted again.
fn restart(starts: &mut [usize], blocks: &[Vec<u32>])
    requires long { length starts.old ≡ length blocks.now }
    requires few { length (concat (lists blocks.now)) ≤ 2 ^ 32 }
    ensures { HasStarts starts.new blocks.now }
{
    let mut next = 0usize;
    for i in 0..blocks.len() {
        starts[i] = next;
        next += blocks[i].len();
    }
}

// The starts are counted again.
fn restart_all(starts: &mut Vec<usize>, blocks: &Vec<Vec<u32>>)
    requires long { length starts.old.items ≡ length blocks.now.items }
    requires few { length (concat (lists blocks.now.items)) ≤ 2 ^ 32 }
    ensures has { HasStarts starts.new.items blocks.now.items }
    ensures capacity { vec_capacity starts.new ≡ vec_capacity starts.old }
{
    restart(starts, blocks);
}

// Where a block begins.
fn start_of(starts: &Vec<usize>, at: usize) -> usize
    requires { at < length starts.now.items }
    ensures { result ≡ slice_index starts.now.items at }
{
    starts[at]
}

// How many ids a block has.
fn len_at(blocks: &Vec<Vec<u32>>, at: usize) -> usize
    requires { at < length blocks.now.items }
    ensures { result ≡ length (slice_index_or (lists blocks.now.items) at []) }
{
    blocks[at].len()
}

// The block that an id is to come into.
fn block_for(starts: &Vec<usize>, blocks: &Vec<Vec<u32>>, place: usize) -> usize
    requires has { HasStarts starts.now.items blocks.now.items }
    requires some { 0 < length blocks.now.items }
    requires within { place ≤ length (concat (lists blocks.now.items)) }
    ensures at { result < length blocks.now.items }
    ensures start { slice_index starts.now.items result ≤ place }
    ensures end { place ≤ slice_index starts.now.items result + length (slice_index_or (lists blocks.now.items) result []) }
{
    block_of(starts, place)
}

/// The id at a place of the whole list.
pub(crate) fn id_at(starts: &[usize], blocks: &[Vec<u32>], place: usize) -> u32
    requires some { 0 < length blocks.now }
    requires has { HasStarts starts.now blocks.now }
    requires place { place < length (concat (lists blocks.now)) }
    ensures { result ≡ slice_index (concat (lists blocks.now)) place }
{
    let at = block_of(starts, place);
    id_in(&blocks[at], place - starts[at])
}

fn id_in(ids: &Vec<u32>, place: usize) -> u32
    requires { place < length ids.now.items }
    ensures { result ≡ slice_index ids.now.items place }
{
    ids[place]
}

/// How many ids there are.
pub(crate) fn count(starts: &[usize], blocks: &[Vec<u32>]) -> usize
    requires some { 0 < length blocks.now }
    requires has { HasStarts starts.now blocks.now }
    requires few { length (concat (lists blocks.now)) ≤ 2 ^ 32 }
    ensures { result ≡ length (concat (lists blocks.now)) }
{
    let last = blocks.len() - 1;
    starts[last] + blocks[last].len()
}

/// An id more in a block that isn't full.
pub(crate) fn insert_at(
    starts: &mut Vec<usize>,
    blocks: &mut Vec<Vec<u32>>,
    at: usize,
    place: usize,
    id: u32,
)
    requires has { HasStarts starts.old.items blocks.old.items }
    requires wide { All IsWide blocks.old.items }
    requires few { length (concat (lists blocks.old.items)) < 2 ^ 32 }
    requires at { at < length blocks.old.items }
    requires start { slice_index starts.old.items at ≤ place }
    requires end { place ≤ slice_index starts.old.items at + length (slice_index_or (lists blocks.old.items) at []) }
    requires free { length (slice_index_or (lists blocks.old.items) at []) < 4096 }
    ensures items { concat (lists blocks.new.items) ≡ insert (concat (lists blocks.old.items)) place id }
    ensures over { over (lists blocks.new.items) ≤ over (lists blocks.old.items) + 1 }
    ensures has { HasStarts starts.new.items blocks.new.items }
    ensures wide { All IsWide blocks.new.items }
    ensures len { length blocks.new.items ≡ length blocks.old.items }
    ensures capacity { vec_capacity blocks.new ≡ vec_capacity blocks.old }
    ensures starts_capacity { vec_capacity starts.new ≡ vec_capacity starts.old }
{
    let within = place - start_of(starts, at);
    insert_in(blocks, at, within, id);
    restart_all(starts, blocks);
}

// An id more in a block, by its place there.
fn insert_in(blocks: &mut Vec<Vec<u32>>, at: usize, place: usize, id: u32)
    requires at { at < length blocks.old.items }
    requires place { place ≤ length (slice_index_or (lists blocks.old.items) at []) }
    requires room { length (slice_index_or (lists blocks.old.items) at []) < 4096 }
    requires wide { All IsWide blocks.old.items }
    ensures lists { lists blocks.new.items ≡ set (lists blocks.old.items) at (insert (slice_index_or (lists blocks.old.items) at []) place id) }
    ensures wide { All IsWide blocks.new.items }
    ensures len { length blocks.new.items ≡ length blocks.old.items }
    ensures capacity { vec_capacity blocks.new ≡ vec_capacity blocks.old }
{
    insert_ready(&mut blocks[at], place, id);
}

fn insert_ready(ids: &mut Vec<u32>, place: usize, id: u32)
    requires within { place ≤ length ids.old.items }
    requires room { length ids.old.items < 4096 }
    requires wide { IsWide ids.old }
    ensures items { ids.new.items ≡ insert ids.old.items place id }
    ensures wide { IsWide ids.new }
{
    let _ = ids.insert(place, id);
}

/// An id less.
pub(crate) fn remove_at(starts: &mut Vec<usize>, blocks: &mut Vec<Vec<u32>>, place: usize)
    requires some { 0 < length blocks.old.items }
    requires has { HasStarts starts.old.items blocks.old.items }
    requires wide { All IsWide blocks.old.items }
    requires few { length (concat (lists blocks.old.items)) ≤ 2 ^ 32 }
    requires place { place < length (concat (lists blocks.old.items)) }
    ensures items { concat (lists blocks.new.items) ≡ remove (concat (lists blocks.old.items)) place }
    ensures over { over (lists blocks.new.items) ≤ over (lists blocks.old.items) }
    ensures some { 0 < length blocks.new.items }
    ensures has { HasStarts starts.new.items blocks.new.items }
    ensures wide { All IsWide blocks.new.items }
    ensures len { length blocks.new.items ≤ length blocks.old.items }
    ensures capacity { vec_capacity blocks.new ≡ vec_capacity blocks.old }
    ensures starts_capacity { vec_capacity starts.new ≡ vec_capacity starts.old }
{
    let at = remove_near(starts, blocks, place);
    merge_around(blocks, at);
    cut_starts(starts, blocks.len());
    restart_all(starts, blocks);
}

fn cut_starts(starts: &mut Vec<usize>, count: usize)
    requires { count ≤ length starts.old.items }
    ensures len { length starts.new.items ≡ count }
    ensures capacity { vec_capacity starts.new ≡ vec_capacity starts.old }
{
    starts.truncate(count);
}

// An id goes from its block, whose place is answered.
fn remove_near(starts: &[usize], blocks: &mut Vec<Vec<u32>>, place: usize) -> usize
    requires some { 0 < length blocks.old.items }
    requires has { HasStarts starts.now blocks.old.items }
    requires wide { All IsWide blocks.old.items }
    requires place { place < length (concat (lists blocks.old.items)) }
    ensures at { result < length blocks.new.items }
    ensures items { concat (lists blocks.new.items) ≡ remove (concat (lists blocks.old.items)) place }
    ensures over { over (lists blocks.new.items) ≤ over (lists blocks.old.items) }
    ensures wide { All IsWide blocks.new.items }
    ensures len { length blocks.new.items ≡ length blocks.old.items }
    ensures capacity { vec_capacity blocks.new ≡ vec_capacity blocks.old }
{
    let at = block_of(starts, place);
    let within = place - starts[at];
    remove_in(blocks, at, within);
    at
}

// An id less in a block, by its place there.
fn remove_in(blocks: &mut Vec<Vec<u32>>, at: usize, place: usize)
    requires at { at < length blocks.old.items }
    requires place { place < length (slice_index_or (lists blocks.old.items) at []) }
    requires wide { All IsWide blocks.old.items }
    ensures lists { lists blocks.new.items ≡ set (lists blocks.old.items) at (remove (slice_index_or (lists blocks.old.items) at []) place) }
    ensures wide { All IsWide blocks.new.items }
    ensures len { length blocks.new.items ≡ length blocks.old.items }
    ensures capacity { vec_capacity blocks.new ≡ vec_capacity blocks.old }
{
    remove_one(&mut blocks[at], place);
}

fn remove_one(ids: &mut Vec<u32>, place: usize)
    requires within { place < length ids.old.items }
    requires wide { IsWide ids.old }
    ensures items { ids.new.items ≡ remove ids.old.items place }
    ensures wide { IsWide ids.new }
{
    ids.remove(place);
}

// A full block is cut in two, the second half into one that is set aside.
fn halve(blocks: &mut Vec<Vec<u32>>, at: usize, spare: Vec<u32>)
    requires at { at < length blocks.old.items }
    requires full { length (slice_index_or (lists blocks.old.items) at []) ≡ 4096 }
    requires room { vec_len blocks.old < vec_capacity blocks.old }
    requires wide { All IsWide blocks.old.items }
    requires spare { IsSpare spare }
    ensures lists { lists blocks.new.items ≡ halved (lists blocks.old.items) at }
    ensures wide { All IsWide blocks.new.items }
    ensures len { length blocks.new.items ≡ length blocks.old.items + 1 }
    ensures capacity { vec_capacity blocks.old ≤ vec_capacity blocks.new }
{
    let back = cut_back(&mut blocks[at], spare);
    add_block(blocks, at + 1, back);
}

fn add_block(blocks: &mut Vec<Vec<u32>>, at: usize, block: Vec<u32>)
    requires at { at ≤ length blocks.old.items }
    requires room { vec_len blocks.old < vec_capacity blocks.old }
    ensures items { blocks.new.items ≡ insert blocks.old.items at block }
    ensures len { length blocks.new.items ≡ length blocks.old.items + 1 }
    ensures capacity { vec_capacity blocks.old ≤ vec_capacity blocks.new }
{
    let _ = blocks.insert(at, block);
}

// The second half of a full block.
fn cut_back(block: &mut Vec<u32>, spare: Vec<u32>) -> Vec<u32>
    requires full { length block.old.items ≡ 4096 }
    requires wide { IsWide block.old }
    requires spare { IsSpare spare }
    ensures front { block.new.items ≡ take 2048 block.old.items }
    ensures back { result.items ≡ drop 2048 block.old.items }
    ensures front_wide { IsWide block.new }
    ensures wide { IsWide result }
{
    let back = filled(spare, back_half(block));
    block.truncate(HALF);
    back
}

fn back_half(ids: &[u32]) -> &[u32]
    requires { length ids.now ≡ 4096 }
    ensures items { result.now ≡ drop 2048 ids.now }
    ensures few { length result.now ≤ 4096 }
{
    &ids[HALF..]
}

// A block that is set aside, with these ids.
fn filled(spare: Vec<u32>, ids: &[u32]) -> Vec<u32>
    requires spare { IsSpare spare }
    requires few { length ids.now ≤ 4096 }
    ensures items { result.items ≡ ids.now }
    ensures wide { IsWide result }
{
    let mut block = spare;
    append_ready(&mut block, ids);
    block
}

fn append_ready(block: &mut Vec<u32>, ids: &[u32])
    requires few { length block.old.items + length ids.now ≤ 4096 }
    requires wide { 4096 ≤ vec_capacity block.old }
    ensures items { block.new.items ≡ block.old.items ++ ids.now }
    ensures wide { IsWide block.new }
{
    let _ = block.extend_from_slice(ids);
}

/// A block becomes one with those beside it that are small with it.
pub(crate) fn merge_around(blocks: &mut Vec<Vec<u32>>, at: usize)
    requires at { at < length blocks.old.items }
    requires wide { All IsWide blocks.old.items }
    ensures items { concat (lists blocks.new.items) ≡ concat (lists blocks.old.items) }
    ensures over { over (lists blocks.new.items) ≡ over (lists blocks.old.items) }
    ensures wide { All IsWide blocks.new.items }
    ensures some { 0 < length blocks.new.items }
    ensures len { length blocks.new.items ≤ length blocks.old.items }
    ensures capacity { vec_capacity blocks.new ≡ vec_capacity blocks.old }
{
    merge(blocks, at);
    if at > 0 {
        merge(blocks, at - 1);
    }
}

// A block and the next become one where they are small together.
fn merge(blocks: &mut Vec<Vec<u32>>, at: usize)
    requires at { at < length blocks.old.items }
    requires wide { All IsWide blocks.old.items }
    ensures items { concat (lists blocks.new.items) ≡ concat (lists blocks.old.items) }
    ensures over { over (lists blocks.new.items) ≡ over (lists blocks.old.items) }
    ensures wide { All IsWide blocks.new.items }
    ensures at { at < length blocks.new.items }
    ensures len { vec_len blocks.new ≤ vec_len blocks.old }
    ensures capacity { vec_capacity blocks.new ≡ vec_capacity blocks.old }
{
    if at + 1 >= blocks.len() || blocks[at].len() + blocks[at + 1].len() > HALF {
        return;
    }
    let next = blocks.remove(at + 1);
    append_to(blocks, at, next.as_slice());
}

// Ids more at the end of a block, where there is room for them.
fn append_to(blocks: &mut Vec<Vec<u32>>, at: usize, more: &[u32])
    requires at { at < length blocks.old.items }
    requires room { length (slice_index_or (lists blocks.old.items) at []) + length more.now ≤ 4096 }
    requires wide { All IsWide blocks.old.items }
    ensures lists { lists blocks.new.items ≡ set (lists blocks.old.items) at (slice_index_or (lists blocks.old.items) at [] ++ more.now) }
    ensures wide { All IsWide blocks.new.items }
    ensures len { vec_len blocks.new ≡ vec_len blocks.old }
    ensures capacity { vec_capacity blocks.new ≡ vec_capacity blocks.old }
{
    append_ready(&mut blocks[at], more);
}

/// By how many ids blocks are more than half full.
pub(crate) fn over_in(blocks: &[Vec<u32>]) -> usize
    requires { length (concat (lists blocks.now)) ≤ 2 ^ 32 }
    ensures { result ≡ over (lists blocks.now) }
{
    let mut over = 0usize;
    for block in blocks {
        if block.len() > HALF {
            over += block.len() - HALF;
        }
    }
    over
}

/// Blocks are set aside until there are so many.
pub(crate) fn set_aside(
    starts: &mut Vec<usize>,
    blocks: &mut Vec<Vec<u32>>,
    spare: &mut Vec<Vec<u32>>,
    alloc: Global,
    wanted: usize,
) -> Result<(), AllocError>
    requires spare { All IsSpare spare.old.items }
    requires starts_room { length starts.old.items + length spare.old.items ≤ vec_capacity starts.old }
    requires room { length blocks.old.items + length spare.old.items ≤ vec_capacity blocks.old }
    ensures starts { starts.new.items ≡ starts.old.items }
    ensures blocks { blocks.new.items ≡ blocks.old.items }
    ensures spare { All IsSpare spare.new.items }
    ensures wanted { OnOk result (wanted ≤ length spare.new.items) }
    ensures more { length spare.old.items ≤ length spare.new.items }
    ensures starts_room { length starts.new.items + length spare.new.items ≤ vec_capacity starts.new }
    ensures room { length blocks.new.items + length spare.new.items ≤ vec_capacity blocks.new }
{
    'spares: while spare.len() < wanted {
        let count = spare.len() + 1;
        starts.reserve(count)?;
        blocks.reserve(count)?;
        spare.push(Vec::with_capacity(alloc, MOST)?)?;
    }
    Ok(())
}

/// The block that an id is to come into, which isn't full: a full one is cut in two first.
pub(crate) fn ready_at(
    starts: &mut Vec<usize>,
    blocks: &mut Vec<Vec<u32>>,
    spare: &mut Vec<Vec<u32>>,
    place: usize,
) -> usize
    requires is { IsBlocks starts.old.items blocks.old.items spare.old.items (vec_capacity starts.old) (vec_capacity blocks.old) }
    requires within { place ≤ length (concat (lists blocks.old.items)) }
    requires room { 0 < room_for (length spare.old.items) (over (lists blocks.old.items)) }
    ensures is { IsBlocks starts.new.items blocks.new.items spare.new.items (vec_capacity starts.new) (vec_capacity blocks.new) }
    ensures items { concat (lists blocks.new.items) ≡ concat (lists blocks.old.items) }
    ensures at { result < length blocks.new.items }
    ensures start { slice_index starts.new.items result ≤ place }
    ensures end { place ≤ slice_index starts.new.items result + length (slice_index_or (lists blocks.new.items) result []) }
    ensures free { length (slice_index_or (lists blocks.new.items) result []) < 4096 }
    ensures room { room_for (length spare.old.items) (over (lists blocks.old.items)) ≤ room_for (length spare.new.items) (over (lists blocks.new.items) + 1) + 1 }
{
    let at = block_for(starts, blocks, place);
    if len_at(blocks, at) < MOST {
        return at;
    }
    cut_at(starts, blocks, spare, at);
    side(start_of(starts, at + 1), at, place)
}

// Of a block that was cut, and the one with its second half, that in which a place lies.
fn side(middle: usize, at: usize, place: usize) -> usize
    requires { at < 2 ^ 63 }
    ensures { ((result ≡ at) × (place < middle)) ⊎ ((result ≡ at + 1) × (middle ≤ place)) }
{
    if place < middle { at } else { at + 1 }
}

// A full block is cut in two.
fn cut_at(starts: &mut Vec<usize>, blocks: &mut Vec<Vec<u32>>, spare: &mut Vec<Vec<u32>>, at: usize)
    requires is { IsBlocks starts.old.items blocks.old.items spare.old.items (vec_capacity starts.old) (vec_capacity blocks.old) }
    requires at { at < length blocks.old.items }
    requires full { length (slice_index_or (lists blocks.old.items) at []) ≡ 4096 }
    requires aside { 0 < length spare.old.items }
    ensures lists { lists blocks.new.items ≡ halved (lists blocks.old.items) at }
    ensures len { length blocks.new.items ≡ length blocks.old.items + 1 }
    ensures spare { length spare.old.items ≡ length spare.new.items + 1 }
    ensures has { HasStarts starts.new.items blocks.new.items }
    ensures wide { All IsWide blocks.new.items }
    ensures aside { All IsSpare spare.new.items }
    ensures starts_fit { length starts.new.items + length spare.new.items ≤ vec_capacity starts.new }
    ensures fit { length blocks.new.items + length spare.new.items ≤ vec_capacity blocks.new }
{
    let back = take_spare(spare);
    halve(blocks, at, back);
    push_start(starts);
    restart_all(starts, blocks);
}

// One of the blocks that are set aside.
fn take_spare(spare: &mut Vec<Vec<u32>>) -> Vec<u32>
    requires aside { All IsSpare spare.old.items }
    requires some { 0 < length spare.old.items }
    ensures is { IsSpare result }
    ensures aside { All IsSpare spare.new.items }
    ensures len { length spare.old.items ≡ length spare.new.items + 1 }
{
    spare.remove(spare.len() - 1)
}

fn push_start(starts: &mut Vec<usize>)
    requires { vec_len starts.old < vec_capacity starts.old }
    ensures len { length starts.new.items ≡ length starts.old.items + 1 }
    ensures capacity { vec_capacity starts.old ≤ vec_capacity starts.new }
{
    let _ = starts.push(0);
}
