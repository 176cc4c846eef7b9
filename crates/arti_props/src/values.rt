// Lists of ids under pairs of a key and a value.
ghost use Rattle.std.specs.Prelude.{◌≡◌, ℕ, List, ◌&&◌, true, false, if◌then◌else◌, OnOk, []};
ghost use Rattle.std.specs.Str.{bytes_eq};
ghost use Rattle.std.specs.List.{list_any};
ghost use Rattle.std.specs.Ordering.{nat_cmp};
ghost use Rattle.std.specs.List.Sorted.{IsStrictlySortedBy};
ghost use Rattle.arti_ids.specs.Ids.{with_id, without_id};
ghost use Rattle.arti_ids.specs.Lists.{ids_of, IsReady};
ghost use Rattle.arti_props.specs.Lists.{list_at};
ghost use Rattle.arti_props.specs.Rows.{is_pair};

use arti_ids::TextLists;
use arti_rows::Property;
use std::alloc::{AllocError, Global};
use std::collections::BTreeMap;

/// The list under a pair.
pub(crate) fn list<'a>(values: &'a BTreeMap<String, TextLists>, key: &str, value: &str) -> &'a [u32]
    ensures ids { result.now ≡ ids_of (list_at values.now key.now value.now) }
    ensures ascending { IsStrictlySortedBy nat_cmp result.now }
{
    match values.get(key) {
        Some(lists) => lists.list(value),
        None => &[],
    }
}

fn make_room(
    alloc: Global,
    values: &mut BTreeMap<String, TextLists>,
    key: &str,
    value: &str,
    id: u32,
) -> Result<(), AllocError>
    ensures ids { (k v : List ℕ) → ids_of (list_at values.new k v) ≡ ids_of (list_at values.old k v) }
    ensures ready { OnOk result (IsReady id (list_at values.new key.now value.now)) }
    ensures keeps { OnOk result ((k v : List ℕ) → IsReady id (list_at values.old k v) → IsReady id (list_at values.new k v)) }
{
    if let Some(lists) = values.get_mut(key) {
        return lists.make_room(alloc, value, id);
    }
    let mut lists = TextLists::new(alloc);
    lists.make_room(alloc, value, id)?;
    values.insert(String::from_str(alloc, key)?, lists)?;
    Ok(())
}

fn add(values: &mut BTreeMap<String, TextLists>, key: &str, value: &str, id: u32)
    requires ready { IsReady id (list_at values.old key.now value.now) }
    ensures ids { (k v : List ℕ) → ids_of (list_at values.new k v) ≡ (if bytes_eq key.now k && bytes_eq value.now v then with_id id (ids_of (list_at values.old k v)) else ids_of (list_at values.old k v)) }
    ensures ready { (k v : List ℕ) → IsReady id (list_at values.old k v) → IsReady id (list_at values.new k v) }
{
    if let Some(lists) = values.get_mut(key) {
        lists.add(value, id);
    }
}

fn remove(values: &mut BTreeMap<String, TextLists>, key: &str, value: &str, id: u32)
    ensures ids { (k v : List ℕ) → ids_of (list_at values.new k v) ≡ (if bytes_eq key.now k && bytes_eq value.now v then without_id id (ids_of (list_at values.old k v)) else ids_of (list_at values.old k v)) }
    ensures ready { (k v : List ℕ) → IsReady id (list_at values.old k v) → IsReady id (list_at values.new k v) }
{
    if let Some(lists) = values.get_mut(key) {
        lists.remove(value, id);
    }
}

fn tidy(values: &mut BTreeMap<String, TextLists>, key: &str, value: &str)
    ensures ids { (k v : List ℕ) → ids_of (list_at values.new k v) ≡ ids_of (list_at values.old k v) }
{
    if tidy_key(values, key, value) {
        values.remove(key);
    }
}

// Without the list under a pair, if it is empty; whether no value of the key is left then.
fn tidy_key(values: &mut BTreeMap<String, TextLists>, key: &str, value: &str) -> bool
    ensures ids { (k v : List ℕ) → ids_of (list_at values.new k v) ≡ ids_of (list_at values.old k v) }
    ensures none { result ≡ true → (v : List ℕ) → ids_of (list_at values.new key.now v) ≡ [] }
{
    match values.get_mut(key) {
        Some(lists) => {
            lists.tidy(value);
            lists.is_empty()
        }
        None => false,
    }
}

/// Room for the id in the list under each of the pairs, unless it stands there alone.
pub(crate) fn make_rooms(
    alloc: Global,
    values: &mut BTreeMap<String, TextLists>,
    pairs: &[Property],
    id: u32,
) -> Result<(), AllocError>
    ensures ids { (k v : List ℕ) → ids_of (list_at values.new k v) ≡ ids_of (list_at values.old k v) }
    ensures ready { OnOk result ((k v : List ℕ) → list_any (is_pair k v) pairs.now ≡ true → IsReady id (list_at values.new k v)) }
{
    for pair in pairs {
        make_room(alloc, values, pair.key.as_str(), pair.value.as_str(), id)?;
    }
    Ok(())
}

/// The id is in the list under each of the pairs.
pub(crate) fn add_all(values: &mut BTreeMap<String, TextLists>, pairs: &[Property], id: u32)
    requires ready { (k v : List ℕ) → list_any (is_pair k v) pairs.now ≡ true → IsReady id (list_at values.old k v) }
    ensures ids { (k v : List ℕ) → ids_of (list_at values.new k v) ≡ (if list_any (is_pair k v) pairs.now then with_id id (ids_of (list_at values.old k v)) else ids_of (list_at values.old k v)) }
{
    for pair in pairs {
        add(values, pair.key.as_str(), pair.value.as_str(), id);
    }
}

// Whether a pair is among these. A search finds it where they stand in order; elsewhere it may miss it.
fn is_found(pairs: &[Property], pair: &Property) -> bool
    ensures { result ≡ true → list_any (is_pair pair.now.key pair.now.value) pairs.now ≡ true }
{
    match pairs.binary_search(pair) {
        Ok(_) => true,
        Err(_) => false,
    }
}

/// The id isn't in the list under any of the pairs but for those that stay, whose lists are left alone where they are found
/// among the ones that stay.
pub(crate) fn remove_all(
    values: &mut BTreeMap<String, TextLists>,
    pairs: &[Property],
    stay: &[Property],
    id: u32,
)
    ensures gone { (k v : List ℕ) → list_any (is_pair k v) stay.now ≡ false → ids_of (list_at values.new k v) ≡ (if list_any (is_pair k v) pairs.now then without_id id (ids_of (list_at values.old k v)) else ids_of (list_at values.old k v)) }
    ensures others { (k v : List ℕ) → with_id id (ids_of (list_at values.new k v)) ≡ with_id id (ids_of (list_at values.old k v)) }
    ensures ready { (k v : List ℕ) → IsReady id (list_at values.old k v) → IsReady id (list_at values.new k v) }
{
    for pair in pairs {
        if !is_found(stay, pair) {
            remove(values, pair.key.as_str(), pair.value.as_str(), id);
        }
    }
}

/// Without the lists under the pairs that are empty.
pub(crate) fn tidy_all(values: &mut BTreeMap<String, TextLists>, pairs: &[Property])
    ensures ids { (k v : List ℕ) → ids_of (list_at values.new k v) ≡ ids_of (list_at values.old k v) }
{
    for pair in pairs {
        tidy(values, pair.key.as_str(), pair.value.as_str());
    }
}
