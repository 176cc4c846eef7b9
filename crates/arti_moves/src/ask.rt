// What is asked of items.
use arti_rows::{FileRef, ItemKey, Property, Seq, SomeDigests, Text};

/// What is asked: a deploy of a staged content, or of the one that has the digests; a folder; that an item and all beneath it go;
/// that the values of properties are set, or that properties go, of the item alone or of all beneath it too.
#[derive(Debug, Drop)]
pub enum MoveAsk {
    Deploy {
        key: ItemKey,
        props: Seq<Property>,
        digests: SomeDigests,
        file: Option<FileRef>,
    },
    Folder {
        key: ItemKey,
    },
    Delete {
        key: ItemKey,
    },
    SetProps {
        key: ItemKey,
        props: Seq<Property>,
        deep: bool,
    },
    DropProps {
        key: ItemKey,
        keys: Seq<Text>,
        deep: bool,
    },
}
