// Properties and their keys.
ghost use Rattle.std.specs.Prelude.{◌≡◌};
ghost use Rattle.std.specs.List.{list_all};
ghost use Rattle.std.specs.Int.{w16};
ghost use Rattle.arti_codec.specs.Rules.{is_property, text_cmp, comes_first, ascends, are_prop_keys};
ghost use Rattle.arti_rows.specs.PropTexts.{is_prop_key, property_cmp};
ghost use Rattle.arti_codec.specs.ChangeBytes.{property};
ghost use Rattle.arti_codec.specs.Reading.{Gives};
ghost use Rattle.arti_codec.specs.ReadingRows.{property_at, properties_at, prop_keys_at};

use crate::fault::DecodeFault;
use crate::field::{Field, take_list16, take_some16};
use crate::reader::Reader;
use arti_rows::{Property, Seq, Text, is_prop_key, is_prop_value};
use std::alloc::{AllocError, Global};
use std::cmp::Ordering;

impl Field for Property {
    ghost format = { property };

    ghost read = { property_at };

    #[tactic(auto, unfolding(crate::specs::ChangeBytes::property))]
    fn put(&self, out: &mut Vec<u8>) -> Result<(), AllocError> {
        self.key.put(out)?;
        self.value.put(out)?;
        Ok(())
    }

    #[tactic(auto, unfolding(crate::specs::ReadingRows::property_at))]
    fn take(alloc: Global, reader: &mut Reader<'_>) -> Result<Property, DecodeFault> {
        let key = Text::take(alloc, reader)?;
        let value = Text::take(alloc, reader)?;
        if !is_property(key.as_str(), value.as_str()) {
            return Err(DecodeFault::NotAChange);
        }
        Ok(Property { key, value })
    }
}

fn is_property(key: &str, value: &str) -> bool
    ensures { result ≡ is_property (record { key = key.now; value = value.now }) }
{
    is_prop_key(key) && is_prop_value(value)
}

// Whether each stands before the one behind it.
fn ascends<T: Ord>(items: &[T]) -> bool
    ensures { result ≡ ascends T.cmp items.now }
{
    let mut rest = items;
    while let [first, behind @ ..] = rest {
        if !comes_first(first, behind) {
            return false;
        }
        rest = behind;
    }
    true
}

fn comes_first<T: Ord>(first: &T, behind: &[T]) -> bool
    ensures { result ≡ comes_first T.cmp first.now behind.now }
{
    match behind {
        [] => true,
        [next, ..] => first.cmp(next) == Ordering::Less,
    }
}

// Reads at most so many properties.
#[tactic(auto, unfolding(crate::specs::ReadingRows::properties_at))]
pub fn take_properties(
    alloc: Global,
    reader: &mut Reader<'_>,
    most: u16,
) -> Result<Seq<Property>, DecodeFault>
    ensures { Gives result (properties_at most reader.old) reader.new }
{
    let props = take_some16::<Property>(alloc, reader, most)?;
    if !properties_ascend(props.as_slice()) {
        return Err(DecodeFault::NotAChange);
    }
    Ok(props)
}

// Reads property keys.
#[tactic(auto, unfolding(crate::specs::ReadingRows::prop_keys_at))]
pub fn take_prop_keys(alloc: Global, reader: &mut Reader<'_>) -> Result<Seq<Text>, DecodeFault>
    ensures { Gives result (prop_keys_at reader.old) reader.new }
{
    let keys = take_list16::<Text>(alloc, reader)?;
    if !are_prop_keys(keys.as_slice()) {
        return Err(DecodeFault::NotAChange);
    }
    Ok(keys)
}

fn properties_ascend(props: &[Property]) -> bool
    ensures { result ≡ ascends property_cmp props.now }
{
    ascends(props)
}

fn are_prop_keys(keys: &[Text]) -> bool
    ensures { result ≡ are_prop_keys keys.now }
{
    all_prop_keys(keys) && texts_ascend(keys)
}

fn all_prop_keys(keys: &[Text]) -> bool
    ensures { result ≡ list_all is_prop_key keys.now }
{
    keys.iter().all(|key| is_prop_key(key.as_str()))
}

fn texts_ascend(texts: &[Text]) -> bool
    ensures { result ≡ ascends text_cmp texts.now }
{
    ascends(texts)
}
