// Where a key stands in the default order.
ghost use Rattle.std.specs.Prelude.{◌≡◌, ℕ, ◌<◌, ◌≤◌, length, slice_index, IsSome, IfOk, IfErr};
ghost use Rattle.std.specs.declared.cmp.Ordering.TheVariants.{Less, Equal, Greater};
ghost use Rattle.arti_rows.specs.Key.{key_cmp, path_of, name_of};
ghost use Rattle.arti_tree.specs.Slots.{at, key_at};
ghost use Rattle.arti_tree.specs.Searched.{key, AllLive, RisingAt};

use crate::blocks::Blocks;
use crate::slot::{Slot, slot_of};
use arti_rows::ItemKey;
use std::cmp::Ordering;

/// The place of a key among the ids in the default order, or the place where it would stand.
pub(crate) fn place_of(
    slots: &[Option<Slot>],
    order: &Blocks,
    repo: &str,
    path: &str,
    name: &str,
) -> Result<usize, usize>
    requires live { AllLive slots.now order.now.items }
    requires rising { RisingAt slots.now order.now.items }
    ensures found { IfOk result (λ i. (i < length order.now.items) × (key_cmp (key_at slots.now (slice_index order.now.items i)) (key repo.now path.now name.now) ≡ Equal)) }
    ensures within { IfErr result (λ i. i ≤ length order.now.items) }
    ensures before { IfErr result (λ i. (k : ℕ) → k < i → key_cmp (key_at slots.now (slice_index order.now.items k)) (key repo.now path.now name.now) ≡ Less) }
    ensures behind { IfErr result (λ i. (k : ℕ) → i ≤ k → k < length order.now.items → key_cmp (key_at slots.now (slice_index order.now.items k)) (key repo.now path.now name.now) ≡ Greater) }
{
    let mut low = 0usize;
    let mut high = order.len();
    'places: while low < high {
        let middle = low + (high - low) / 2;
        match compared(slots, order.get(middle), repo, path, name) {
            Ordering::Less => low = middle + 1,
            Ordering::Greater => high = middle,
            Ordering::Equal => return Ok(middle),
        }
    }
    Err(low)
}

// How the key of a row compares with these parts of one.
fn compared(slots: &[Option<Slot>], id: u32, repo: &str, path: &str, name: &str) -> Ordering
    requires { IsSome (at slots.now id) }
    ensures { result ≡ key_cmp (key_at slots.now id) (key repo.now path.now name.now) }
{
    match slot_of(slots, id) {
        Some(slot) => in_order(&slot.key, repo, path, name),
        None => unreachable!(),
    }
}

// How a key compares with these parts of one.
fn in_order(one: &ItemKey, repo: &str, path: &str, name: &str) -> Ordering
    ensures { result ≡ key_cmp one.now (key repo.now path.now name.now) }
{
    match one.repo.as_str().cmp(repo) {
        Ordering::Equal => match one.path.as_str().cmp(path) {
            Ordering::Equal => one.name.as_str().cmp(name),
            other => other,
        },
        other => other,
    }
}

/// The path, or `.` where there is none, and the name behind it.
pub(crate) fn cut(whole: &str) -> (&str, &str)
    ensures path { result.0.now ≡ path_of whole.now }
    ensures name { result.1.now ≡ name_of whole.now }
{
    match whole.rsplit_once('/') {
        Some(parts) => parts,
        None => (".", whole),
    }
}
