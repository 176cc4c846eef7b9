// What edits do to the properties of an item.
ghost use Rattle.std.specs.Prelude.{◌≡◌, map, not, filter, IfOk, OnOk};
ghost use Rattle.std.specs.List.{fold, list_any};
ghost use Rattle.std.specs.BTreeSet.{insert_key};
ghost use Rattle.std.specs.Cmp.Lexicographic.{pointwise};
ghost use Rattle.std.specs.Prelude.{nat_eq};
ghost use Rattle.arti_rows.specs.PropTexts.{property_cmp};
ghost use Rattle.arti_model.specs.Edits.{names_key, props_set, props_dropped};

use arti_rows::{Property, Seq, Text};
use std::alloc::{AllocError, Global};
use std::collections::BTreeSet;

/// The properties with the values of each key that is named replaced.
pub(crate) fn with_set(
    alloc: Global,
    named: &[Property],
    props: &[Property],
) -> Result<Seq<Property>, AllocError>
    ensures { IfOk result (λ s. s ≡ props_set named.now props.now) }
{
    let mut pairs = BTreeSet::new(alloc);
    add_others(named, props, &mut pairs)?;
    add_all(named, &mut pairs)?;
    Ok(Seq::from_vec(listed(alloc, pairs)?))
}

/// The properties without those of some keys.
pub(crate) fn without(
    alloc: Global,
    keys: &[Text],
    props: &[Property],
) -> Result<Seq<Property>, AllocError>
    ensures { IfOk result (λ s. s ≡ props_dropped keys.now props.now) }
{
    let mut left = Vec::new(alloc);
    for pair in props {
        if !is_among(keys, &pair.key) {
            left.push(pair.clone()?)?;
        }
    }
    Ok(Seq::from_vec(left))
}

// Those whose key isn't named come.
fn add_others(
    named: &[Property],
    props: &[Property],
    pairs: &mut BTreeSet<Property>,
) -> Result<(), AllocError>
    ensures { OnOk result (pairs.new.keys ≡ fold (insert_key property_cmp) pairs.old.keys (filter (λ pair. not (names_key named.now pair.key)) props.now)) }
{
    for pair in props {
        if !names_key(named, &pair.key) {
            pairs.insert(pair.clone()?)?;
        }
    }
    Ok(())
}

// All of them come.
fn add_all(props: &[Property], pairs: &mut BTreeSet<Property>) -> Result<(), AllocError>
    ensures { OnOk result (pairs.new.keys ≡ fold (insert_key property_cmp) pairs.old.keys props.now) }
{
    for pair in props {
        pairs.insert(pair.clone()?)?;
    }
    Ok(())
}

// The pairs of a set, in its order.
fn listed(alloc: Global, pairs: BTreeSet<Property>) -> Result<Vec<Property>, AllocError>
    ensures { IfOk result (λ v. v.items ≡ pairs.keys) }
{
    let mut listed = Vec::with_capacity(alloc, pairs.len())?;
    for pair in pairs {
        listed.push(pair)?;
    }
    Ok(listed)
}

// Whether some of the properties have the key.
fn names_key(props: &[Property], key: &Text) -> bool
    ensures { result ≡ names_key props.now key.now }
{
    props.iter().any(|pair| pair.key == *key)
}

// Whether the key is one of these.
fn is_among(keys: &[Text], key: &Text) -> bool
    ensures { result ≡ list_any (pointwise nat_eq key.now) keys.now }
{
    keys.iter().any(|k| *key == *k)
}
