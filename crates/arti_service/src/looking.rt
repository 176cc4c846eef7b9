// The contents that requests name.
ghost use Rattle.std.specs.Prelude.{◌≡◌, ℕ, List, IfSome, Contains, option_map};
ghost use Rattle.arti_model.specs.Store.{File};
ghost use Rattle.arti_model.specs.Deploys.{is_wanted, file_with};
ghost use Rattle.arti_model.specs.Decide.{file_at};
ghost use Rattle.arti_store.specs.Items.{file_in, items_in};

use arti_route::has_digests;
use arti_rows::{FileRef, ItemKey, ItemRow, SomeDigests};
use arti_store::Store;

// Whether the row is a file that has the digests.
fn is_wanted(row: &ItemRow, wanted: &SomeDigests) -> bool
    ensures { (bytes : List ℕ) → result ≡ is_wanted (λ (f : File). f.digests) wanted.now (item_in bytes row.now).file }
{
    match &row.file {
        None => false,
        Some(file) => has_digests(wanted, &file.digests),
    }
}

ghost use Rattle.arti_store.specs.Items.{item_in};

// The first of the rows that is a file that has the digests.
fn row_with<'a>(rows: &'a [ItemRow], wanted: &SomeDigests) -> Option<&'a ItemRow>
    ensures row { (bytes : List ℕ) → option_map (item_in bytes) (option_copied result) ≡ find (λ item. is_wanted (λ (f : File). f.digests) wanted.now item.file) (items_in bytes rows.now) }
    ensures among { IfSome result (λ row. Contains rows.now row.now) }
{
    for row in rows {
        if is_wanted(row, wanted) {
            return Some(row);
        }
    }
    None
}

ghost use Rattle.std.specs.List.{find};
ghost use Rattle.std.specs.Option.{option_copied};

/// The content of the first file that has the digests, in the default order.
pub fn file_with(store: &Store, wanted: &SomeDigests) -> Option<FileRef>
    ensures file { (bytes : List ℕ) → option_map (file_in bytes) result ≡ file_with (λ (f : File). f.digests) wanted.now (items_in bytes store.now.rows) }
    ensures kept { IfSome result (Contains store.now.contents.kept) }
{
    match row_with(store.items(), wanted) {
        None => None,
        Some(row) => row.file,
    }
}

/// The content of the file at the key.
pub fn file_at(store: &Store, key: &ItemKey) -> Option<FileRef>
    ensures file { (bytes : List ℕ) → option_map (file_in bytes) result ≡ file_at (items_in bytes store.now.rows) key.now }
    ensures kept { IfSome result (Contains store.now.contents.kept) }
{
    match store.find(key) {
        None => None,
        Some(row) => row.file,
    }
}
