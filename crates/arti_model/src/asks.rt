// What requests ask, as it is handed on.
use arti_rows::{ItemKey, Seq, SomeDigests, Text};

/// The requests that there are, by method and path.
#[derive(Clone, Copy)]
pub enum Route {
    /// `PUT` of an item's path.
    Deploy,
    /// `PUT` of an item's path that ends in a slash.
    Folder,
    /// `GET` of an item's path.
    Fetch,
    /// `HEAD` of an item's path.
    Head,
    /// `DELETE` of an item's path.
    Delete,
    /// `GET` under `api/storage`: the item's row, or its properties.
    Info,
    /// `PUT` under `api/storage`.
    SetProps,
    /// `DELETE` under `api/storage`.
    DropProps,
    /// `POST` under `api/copy`.
    Copy,
    /// `POST` under `api/move`.
    Move,
    /// `PUT` of a repository.
    Define,
    /// `POST` of a repository.
    Redefine,
    /// `GET` of a repository.
    GetRepo,
    /// `GET` of all repositories.
    ListRepos,
    /// `GET` of `api/system/ping`.
    Ping,
    /// `PUT` of a build.
    PutBuild,
    /// `GET` of a build.
    GetBuild,
    /// `DELETE` of builds of one name.
    DropBuilds,
    /// `POST` under `api/build/promote`.
    Promote,
    /// `POST` of a query.
    Aql,
    /// `POST` of a file spec.
    Spec,
}

/// What a request asks, and for which user.
#[derive(Drop)]
pub struct Ask {
    pub user: Text,
    pub row: AskRow,
}

/// What a request asks. Texts are without the target's escapes; property texts and lists of keys are unread.
#[derive(Drop)]
pub enum AskRow {
    /// With `checksum` the content is to be found by the digests.
    Deploy {
        key: ItemKey,
        props: Text,
        digests: SomeDigests,
        checksum: bool,
    },
    Folder {
        key: ItemKey,
    },
    Fetch {
        key: ItemKey,
    },
    Head {
        key: ItemKey,
    },
    Delete {
        key: ItemKey,
    },
    Info {
        key: ItemKey,
    },
    /// Without `keys` all properties are asked for.
    GetProps {
        key: ItemKey,
        keys: Option<Text>,
    },
    /// With `deep` those of all items beneath as well.
    SetProps {
        key: ItemKey,
        props: Text,
        deep: bool,
    },
    DropProps {
        key: ItemKey,
        keys: Text,
        deep: bool,
    },
    /// With `dry` nothing is changed.
    Copy {
        from: ItemKey,
        to: ItemKey,
        dry: bool,
    },
    Move {
        from: ItemKey,
        to: ItemKey,
        dry: bool,
    },
    /// With `update` the definition is there already.
    Define {
        repo: Text,
        update: bool,
    },
    GetRepo {
        repo: Text,
    },
    ListRepos,
    Ping,
    PutBuild,
    GetBuild {
        name: Text,
        number: Text,
    },
    /// With `artifacts` what the builds made goes too; with `all` every build of the name.
    DropBuilds {
        name: Text,
        numbers: Seq<Text>,
        artifacts: bool,
        all: bool,
    },
    Promote {
        name: Text,
        number: Text,
    },
    Aql,
    Spec,
}
