// What changes a repository.
use crate::{
    BuildRow, FileRef, Given, ItemKey, ItemRow, ModuleRow, Moment, PromotionRow, Property, RepoDef,
    Seq, Text,
};

/// A build as it was put.
#[derive(Debug, Drop)]
pub struct BuildInfo {
    pub name: Text,
    pub number: Text,
    pub started: Moment,
    pub url: Text,
    pub props: Seq<Property>,
    pub modules: Seq<ModuleRow>,
    pub document: Seq<u8>,
}

/// One step of a change.
#[derive(Debug, Drop)]
pub enum Edit {
    Define {
        def: RepoDef,
    },
    Folder {
        key: ItemKey,
    },
    File {
        key: ItemKey,
        given: Given,
        file: FileRef,
        props: Seq<Property>,
    },
    Remove {
        key: ItemKey,
    },
    Move {
        from: ItemKey,
        to: ItemKey,
    },
    Copy {
        from: ItemKey,
        to: ItemKey,
    },
    SetProps {
        key: ItemKey,
        deep: bool,
        props: Seq<Property>,
    },
    DropProps {
        key: ItemKey,
        deep: bool,
        keys: Seq<Text>,
    },
    Downloaded {
        key: ItemKey,
    },
    Build {
        info: BuildInfo,
    },
    Unbuild {
        name: Text,
        number: Text,
    },
    Promote {
        name: Text,
        number: Text,
        row: PromotionRow,
    },
    Kept {
        file: FileRef,
    },
    Item {
        row: ItemRow,
    },
    Held {
        row: BuildRow,
    },
}

/// What one accepted request changes, as a whole or not at all.
#[derive(Debug, Drop)]
pub struct Change {
    pub moment: Moment,
    pub user: Text,
    pub edits: Seq<Edit>,
}
