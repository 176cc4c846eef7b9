// Rows of items in the default order.
ghost use Rattle.std.specs.Prelude.{◌≡◌, ◌+◌, ◌≤◌, ◌<◌, ◌↔◌, [], ℕ, List, length, map, filter, not, is_some, All, IfOk, IfErr, OnOk, OnErr, IsTrue, slice_set, slice_index_or};
ghost use Rattle.std.specs.List.{insert, list_any};
ghost use Rattle.std.specs.Option.{option_copied};
ghost use Rattle.std.specs.Vec.{vec_len, vec_capacity};
ghost use Rattle.arti_rows.specs.declared.rows.ItemRow.{ItemRow};
ghost use Rattle.arti_rows.specs.declared.rows.FileRef.{FileRef};
ghost use Rattle.arti_model.specs.Store.{has_item, has_file, put_items};
ghost use Rattle.arti_model.specs.Apply.{with_download};
ghost use Rattle.arti_store.specs.Items.{InOrder, HasFileIn, items_of, find_row, put_row, put_rows, no_row, counted_row, rows_with_download};
ghost use Rattle.arti_store.specs.Places.{IsPlace, IsGap};

use arti_rows::{FileRef, ItemKey, ItemRow, Moment, Stat, Text};
use std::alloc::{AllocError, Global};
use std::marker::Model;

/// Rows of items, one for each key, in the default order. Contracts see the list.
#[derive(Drop)]
pub(crate) struct Rows {
    rows: Vec<ItemRow>,
}

impl Model for Rows {
    ghost use Rattle.std.specs.Prelude.{List};
    ghost use Rattle.arti_rows.specs.declared.rows.ItemRow.{ItemRow};
    ghost use Rattle.arti_store.specs.Items.{InOrder};

    ghost Value = { List ItemRow };

    ghost view = { λ r. r.rows.items };

    ghost invariant = { λ r. record { order : InOrder r.rows.items } };
}

impl Rows {
    /// No rows.
    pub(crate) fn new(alloc: Global) -> Rows
        ensures { result ≡ [] }
    {
        Rows {
            rows: Vec::new(alloc),
        }
    }

    /// The rows.
    pub(crate) fn as_slice(&self) -> &[ItemRow]
        ensures rows { result.now ≡ self.now }
        ensures order { InOrder self.now }
    {
        self.rows.as_slice()
    }

    /// The row of a key.
    pub(crate) fn find(&self, key: &ItemKey) -> Option<&ItemRow>
        ensures { option_copied result ≡ find_row self.now key.now }
    {
        find(&self.rows, key)
    }

    /// Whether something stands at the key.
    pub(crate) fn has(&self, key: &ItemKey) -> bool
        ensures { result ≡ has_item (items_of self.now) key.now }
    {
        self.find(key).is_some()
    }

    /// Whether a file stands at the key.
    pub(crate) fn has_file(&self, key: &ItemKey) -> bool
        ensures { result ≡ has_file (items_of self.now) key.now }
    {
        has_file(&self.rows, key)
    }

    /// Puts rows at their places, one after the other. An `Err` changes nothing.
    pub(crate) fn put_all(&mut self, news: Vec<ItemRow>) -> Result<(), AllocError>
        ensures put { OnOk result (items_of self.new ≡ put_items (items_of news.items) (items_of self.old)) }
        ensures unchanged { OnErr result (self.new ≡ self.old) }
    {
        self.rows.reserve(news.len())?;
        put_all(&mut self.rows, news);
        Ok(())
    }

    /// Counts a download of the item of a key. An `Err` changes nothing.
    pub(crate) fn count(
        &mut self,
        moment: Moment,
        user: &Text,
        key: &ItemKey,
    ) -> Result<(), AllocError>
        ensures counted { OnOk result (items_of self.new ≡ with_download (items_of self.old) moment user.now key.now) }
        ensures unchanged { OnErr result (self.new ≡ self.old) }
    {
        let user = user.clone()?;
        count(&mut self.rows, moment, user, key);
        Ok(())
    }
}

// Where the row of a key stands, or where it is to be put.
fn place(rows: &[ItemRow], key: &ItemKey) -> Result<usize, usize>
    requires order { InOrder rows.now }
    ensures found { IfOk result (λ at. IsPlace rows.now key.now at) }
    ensures missing { IfErr result (λ at. IsGap rows.now key.now at) }
{
    rows.binary_search_by(|row| row.key.cmp(key))
}

// The row of a key.
fn find<'a>(rows: &'a [ItemRow], key: &ItemKey) -> Option<&'a ItemRow>
    requires order { InOrder rows.now }
    ensures { option_copied result ≡ find_row rows.now key.now }
{
    match place(rows, key) {
        Ok(at) => Some(&rows[at]),
        Err(_) => None,
    }
}

// Whether a file stands at the key.
fn has_file(rows: &[ItemRow], key: &ItemKey) -> bool
    requires order { InOrder rows.now }
    ensures { result ≡ has_file (items_of rows.now) key.now }
{
    match find(rows, key) {
        None => false,
        Some(row) => row.file.is_some(),
    }
}

// Puts rows at their places, where there is room for them.
fn put_all(rows: &mut Vec<ItemRow>, news: Vec<ItemRow>)
    requires order { InOrder rows.old.items }
    requires room { vec_len rows.old + vec_len news ≤ vec_capacity rows.old }
    ensures put { rows.new.items ≡ put_rows news.items rows.old.items }
    ensures order { InOrder rows.new.items }
{
    for new in news {
        put(rows, new);
    }
}

// Puts a row at its place, where there is room for it.
fn put(rows: &mut Vec<ItemRow>, new: ItemRow)
    requires order { InOrder rows.old.items }
    requires room { vec_len rows.old < vec_capacity rows.old }
    ensures put { rows.new.items ≡ put_row new rows.old.items }
    ensures order { InOrder rows.new.items }
    ensures capacity { vec_capacity rows.old ≤ vec_capacity rows.new }
    ensures len { vec_len rows.new ≤ vec_len rows.old + 1 }
{
    match place(rows, &new.key) {
        Ok(at) => set_at(rows, at, new),
        Err(at) => put_at(rows, at, new),
    }
}

// Puts a row in the stead of another.
fn set_at(rows: &mut Vec<ItemRow>, at: usize, new: ItemRow)
    requires within { at < vec_len rows.old }
    ensures rows { rows.new.items ≡ slice_set rows.old.items at new }
    ensures capacity { vec_capacity rows.new ≡ vec_capacity rows.old }
    ensures len { vec_len rows.new ≡ vec_len rows.old }
{
    rows[at] = new;
}

// Puts a row between others, where there is room for it.
fn put_at(rows: &mut Vec<ItemRow>, at: usize, new: ItemRow)
    requires within { at ≤ vec_len rows.old }
    requires room { vec_len rows.old < vec_capacity rows.old }
    ensures rows { rows.new.items ≡ insert rows.old.items at new }
    ensures capacity { vec_capacity rows.old ≤ vec_capacity rows.new }
    ensures len { vec_len rows.new ≡ vec_len rows.old + 1 }
{
    match rows.insert(at, new) {
        Ok(()) => {}
        Err(_) => unreachable!(),
    }
}

// Counts a download of the row of a key.
fn count(rows: &mut Vec<ItemRow>, moment: Moment, user: Text, key: &ItemKey)
    requires order { InOrder rows.old.items }
    ensures counted { rows.new.items ≡ rows_with_download rows.old.items moment user key.now }
    ensures order { InOrder rows.new.items }
{
    match place(rows, key) {
        Ok(at) => count_at(rows, at, moment, user),
        Err(_) => {}
    }
}

// Counts a download of a row.
fn count_at(rows: &mut Vec<ItemRow>, at: usize, moment: Moment, user: Text)
    requires within { at < vec_len rows.old }
    ensures { rows.new.items ≡ slice_set rows.old.items at (counted_row moment user (slice_index_or rows.old.items at no_row)) }
{
    count_one(&mut rows[at], moment, user);
}

fn count_one(row: &mut ItemRow, moment: Moment, user: Text)
    ensures { row.new ≡ counted_row moment user row.old }
{
    let before = match &row.stat {
        None => 0,
        Some(stat) => stat.downloads,
    };
    row.stat = Some(Stat {
        downloads: before.saturating_add(1),
        downloaded: moment,
        downloaded_by: user,
    });
}
