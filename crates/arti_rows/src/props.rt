// The properties that a text gives.
ghost use Rattle.std.specs.Prelude.{◌≡◌, ◌==◌, ◌<◌, ◌≤◌, ◌⊎◌, [], ◌∷◌, true, false, length, IfOk, OnOk, IsErrOf, Some, None, string_bytes};
ghost use Rattle.std.specs.List.{list_all, list_any, fold, flat_map, filter};
ghost use Rattle.std.specs.List.Sorted.{IsStrictlySortedBy};
ghost use Rattle.std.specs.BTreeSet.{insert_key};
ghost use Rattle.arti_rows.specs.PropTexts.{is_control_byte, barred_in_keys, is_barred_in_key, is_prop_key, is_prop_value, property_cmp, text_of, values_at, pairs_at, has_marks, pieces_of, pairs_in, is_good_piece, props_of, keys_of_text};
ghost use Rattle.std.specs.Cmp.Lexicographic.{slice_cmp};
ghost use Rattle.std.specs.Ordering.{nat_cmp};

use crate::mark::Mark;
use crate::{Property, PropsFault, Text, marks};
use std::alloc::{AllocError, Global};
use std::collections::BTreeSet;

// The most pairs of one item.
const MOST_PAIRS: usize = 1024;

/// The properties that a text gives, by key, then value, each once.
pub fn read_props(alloc: Global, text: &str) -> Result<Vec<Property>, PropsFault>
    ensures value { IfOk result (λ v. props_of text.now ≡ Some v.items) }
    ensures ordered { IfOk result (λ v. IsStrictlySortedBy property_cmp v.items) }
    ensures count { IfOk result (λ v. (0 < length v.items) × (length v.items ≤ 1024)) }
    ensures bad_props { IsErrOf result PropsFault.BadProps → props_of text.now ≡ None }
{
    let marks = marks::marks(alloc, text)?;
    let mut pairs = BTreeSet::new(alloc);
    add_pieces(alloc, marks.as_slice(), &mut pairs)?;
    if pairs.is_empty() {
        return Err(PropsFault::BadProps);
    }
    Ok(listed(alloc, pairs)?)
}

/// The keys of a list that is separated by commas, in byte order, each once.
pub fn read_keys(alloc: Global, text: &str) -> Result<Vec<Text>, PropsFault>
    ensures value { IfOk result (λ v. keys_of_text text.now ≡ Some v.items) }
    ensures ordered { IfOk result (λ v. IsStrictlySortedBy (slice_cmp nat_cmp) v.items) }
    ensures bad_props { IsErrOf result PropsFault.BadProps → keys_of_text text.now ≡ None }
{
    let mut keys = BTreeSet::new(alloc);
    let mut rest = text;
    'keys: loop {
        match rest.split_once(',') {
            Some((key, after)) => {
                add_key(alloc, key, &mut keys)?;
                rest = after;
            }
            None => {
                add_key(alloc, rest, &mut keys)?;
                return Ok(listed(alloc, keys)?);
            }
        }
    }
}

fn add_key(alloc: Global, key: &str, keys: &mut BTreeSet<Text>) -> Result<(), PropsFault>
    ensures good { OnOk result (is_prop_key key.now ≡ true) }
    ensures more { OnOk result (keys.new.keys ≡ insert_key (slice_cmp nat_cmp) keys.old.keys key.now) }
    ensures bad_props { IsErrOf result PropsFault.BadProps → is_prop_key key.now ≡ false }
{
    if !is_prop_key(key) {
        return Err(PropsFault::BadProps);
    }
    keys.insert(Text::from_str(alloc, key)?)?;
    Ok(())
}

// The pairs of all pieces.
fn add_pieces(
    alloc: Global,
    marks: &[Mark],
    pairs: &mut BTreeSet<Property>,
) -> Result<(), PropsFault>
    ensures good { OnOk result (list_all is_good_piece (pieces_of marks.now) ≡ true) }
    ensures more { OnOk result (pairs.new.keys ≡ fold (insert_key property_cmp) pairs.old.keys (flat_map pairs_in (pieces_of marks.now))) }
    ensures few { OnOk result (length pairs.old.keys ≤ 1024 → length pairs.new.keys ≤ 1024) }
    ensures bad_props { IsErrOf result PropsFault.BadProps → (list_all is_good_piece (pieces_of marks.now) ≡ false) ⊎ (1024 < length (fold (insert_key property_cmp) pairs.old.keys (flat_map pairs_in (pieces_of marks.now)))) }
{
    let mut rest = marks;
    'pieces: loop {
        match marks::cut(rest, ';') {
            Some((piece, after)) => {
                add_piece(alloc, piece, pairs)?;
                rest = after;
            }
            None => return add_piece(alloc, rest, pairs),
        }
    }
}

// The pairs of a piece, none where it is empty.
fn add_piece(
    alloc: Global,
    piece: &[Mark],
    pairs: &mut BTreeSet<Property>,
) -> Result<(), PropsFault>
    ensures good { OnOk result (list_all is_good_piece (filter has_marks (piece.now ∷ [])) ≡ true) }
    ensures more { OnOk result (pairs.new.keys ≡ fold (insert_key property_cmp) pairs.old.keys (flat_map pairs_in (filter has_marks (piece.now ∷ [])))) }
    ensures few { OnOk result (length pairs.old.keys ≤ 1024 → length pairs.new.keys ≤ 1024) }
    ensures bad_props { IsErrOf result PropsFault.BadProps → (list_all is_good_piece (filter has_marks (piece.now ∷ [])) ≡ false) ⊎ (1024 < length (fold (insert_key property_cmp) pairs.old.keys (flat_map pairs_in (filter has_marks (piece.now ∷ []))))) }
{
    if piece.is_empty() {
        return Ok(());
    }
    let Some((front, values)) = marks::cut(piece, '=') else {
        return Err(PropsFault::BadProps);
    };
    let key = marks::text(alloc, front)?;
    if !is_prop_key(key.as_str()) {
        return Err(PropsFault::BadProps);
    }
    add_values(alloc, key.as_str(), values, pairs)
}

// The pairs of a key and values that commas separate.
fn add_values(
    alloc: Global,
    key: &str,
    values: &[Mark],
    pairs: &mut BTreeSet<Property>,
) -> Result<(), PropsFault>
    ensures good { OnOk result (list_all is_prop_value (values_at values.now) ≡ true) }
    ensures more { OnOk result (pairs.new.keys ≡ fold (insert_key property_cmp) pairs.old.keys (pairs_at key.now values.now)) }
    ensures few { OnOk result (length pairs.old.keys ≤ 1024 → length pairs.new.keys ≤ 1024) }
    ensures bad_props { IsErrOf result PropsFault.BadProps → (list_all is_prop_value (values_at values.now) ≡ false) ⊎ (1024 < length (fold (insert_key property_cmp) pairs.old.keys (pairs_at key.now values.now))) }
{
    let mut rest = values;
    'values: loop {
        match marks::cut(rest, ',') {
            Some((value, after)) => {
                add_pair(alloc, key, value, pairs)?;
                rest = after;
            }
            None => return add_pair(alloc, key, rest, pairs),
        }
    }
}

fn add_pair(
    alloc: Global,
    key: &str,
    value: &[Mark],
    pairs: &mut BTreeSet<Property>,
) -> Result<(), PropsFault>
    ensures good { OnOk result (is_prop_value (text_of value.now) ≡ true) }
    ensures more { OnOk result (pairs.new.keys ≡ insert_key property_cmp pairs.old.keys (record { key = key.now; value = text_of value.now })) }
    ensures few { OnOk result (length pairs.new.keys ≤ 1024) }
    ensures bad_props { IsErrOf result PropsFault.BadProps → (is_prop_value (text_of value.now) ≡ false) ⊎ (1024 < length (insert_key property_cmp pairs.old.keys (record { key = key.now; value = text_of value.now }))) }
{
    let value = marks::text(alloc, value)?;
    if !is_prop_value(value.as_str()) {
        return Err(PropsFault::BadProps);
    }
    pairs.insert(Property {
        key: Text::from_str(alloc, key)?,
        value: Text::from_string(value),
    })?;
    if pairs.len() > MOST_PAIRS {
        return Err(PropsFault::BadProps);
    }
    Ok(())
}

// The keys of a set.
fn listed<K: Ord + Drop>(alloc: Global, set: BTreeSet<K>) -> Result<Vec<K>, AllocError>
    ensures keys { IfOk result (λ v. v.items ≡ set.keys) }
    ensures ordered { IfOk result (λ v. IsStrictlySortedBy K.cmp v.items) }
{
    let mut keys = Vec::with_capacity(alloc, set.len())?;
    for key in set {
        keys.push(key)?;
    }
    Ok(keys)
}

/// Whether a text is a property's key.
pub fn is_prop_key(key: &str) -> bool
    ensures { result ≡ is_prop_key key.now }
{
    if key.is_empty() || key.len() > 255 {
        return false;
    }
    !has_barred(key.as_bytes())
}

fn has_barred(bytes: &[u8]) -> bool
    ensures { result ≡ list_any is_barred_in_key bytes.now }
{
    bytes.iter().any(|b| is_barred_in_key(*b))
}

fn is_barred_in_key(b: u8) -> bool
    ensures { result ≡ is_barred_in_key b }
{
    is_control_byte(b) || is_barred_mark(b)
}

fn is_barred_mark(b: u8) -> bool
    ensures { result ≡ list_any (λ c. c == b) barred_in_keys }
{
    match b {
        b' ' | b'=' | b';' | b',' | b'|' | b'*' | b'?' | b'{' | b'}' | b'"' => true,
        _ => false,
    }
}

fn is_control_byte(b: u8) -> bool
    ensures { result ≡ is_control_byte b }
{
    b < 32 || b == 127
}

/// Whether a text is a property's value.
pub fn is_prop_value(value: &str) -> bool
    ensures { result ≡ is_prop_value value.now }
{
    if value.len() > 2048 {
        return false;
    }
    !has_control(value.as_bytes())
}

/// Whether a control character is among the bytes.
pub fn has_control(bytes: &[u8]) -> bool
    ensures { result ≡ list_any is_control_byte bytes.now }
{
    bytes.iter().any(|b| is_control_byte(*b))
}
