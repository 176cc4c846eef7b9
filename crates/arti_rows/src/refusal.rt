// Why a request is refused.
use crate::{ItemKey, Text};
use std::alloc::AllocError;
use thiserror::Error;

/// What a limit counts.
#[derive(Clone, Copy, Debug, PartialEq, Eq)]
pub enum Which {
    Repositories,
    Items,
    Builds,
    Blobs,
    Journal,
    Properties,
    Promotions,
}

/// The part of a query that should begin at a place.
#[derive(Clone, Copy, Debug, PartialEq, Eq)]
pub enum What {
    Name,
    Dot,
    Open,
    Object,
    CommaOrClose,
    Suffix,
    Key,
    Colon,
    List,
    Operand,
    Operator,
    Literal,
    Text,
    SortOrder,
    Number,
    Truth,
}

/// Why a request is refused, with the values that its message carries. Places are byte offsets.
#[derive(Debug, Drop, Error)]
pub enum Refusal {
    #[error("the target is malformed")]
    BadTarget,
    #[error("no route fits the path")]
    NoRoute,
    #[error("the path has no such method")]
    NoMethod,
    #[error("the user's name is malformed")]
    BadUser,
    #[error("a digest field is malformed")]
    BadHeader(Text),
    #[error("a checksum deploy without a digest")]
    ChecksumMissing,
    #[error("something required is missing")]
    Missing(Text),
    #[error("a query parameter is malformed")]
    BadQuery(Text),
    #[error("a bad name")]
    BadName,
    #[error("a text that is too long")]
    TooLong(Option<Text>),
    #[error("a property text is malformed")]
    BadProps,
    #[error("a document that is too large")]
    DocumentTooLarge,
    #[error("the body is no JSON text")]
    NotJson,
    #[error("a member of the wrong kind")]
    WrongKind(Text),
    #[error("a spec is malformed")]
    NotASpec(Text),
    #[error("something that is not supported")]
    NotSupported(Text),
    #[error("a placeholder that the pattern lacks")]
    NoPlaceholder(u32),
    #[error("no such domain")]
    NoDomain(Text),
    #[error("no such field")]
    NoField(Text),
    #[error("an operator that the field doesn't take")]
    WrongOperator(Text),
    #[error("a value that the field doesn't take")]
    BadValue(Text),
    #[error("a path of too many relations")]
    PathTooLong(Text),
    #[error("criteria of too many cases")]
    TooManyCases,
    #[error("a sort by a field that isn't shown")]
    SortNotShown(Text),
    #[error("a query that is too long")]
    QueryTooLong,
    #[error("a byte that begins no token")]
    BadByte(u32),
    #[error("a text without end")]
    OpenText(u32),
    #[error("a malformed escape")]
    BadEscape(u32),
    #[error("a token that doesn't fit")]
    Expected(u32, What),
    #[error("too many levels")]
    TooDeep,
    #[error("no such repository")]
    NoRepo(Text),
    #[error("the repository takes no deploys")]
    NotDeployable(Text),
    #[error("the repository's patterns keep the path out")]
    NotAdmitted(ItemKey),
    #[error("a file stands above")]
    FileAbove(ItemKey),
    #[error("a folder is here")]
    FolderHere(ItemKey),
    #[error("a file is here")]
    FileHere(ItemKey),
    #[error("no file has these digests")]
    NoContent,
    #[error("the content has another digest")]
    ChecksumMismatch(Text),
    #[error("no such item")]
    NotFound(ItemKey),
    #[error("a remote failed")]
    RemoteFailed(Text),
    #[error("a content that is too large")]
    ContentTooLarge,
    #[error("the repository is no local one")]
    NotLocal(Text),
    #[error("too many items at once")]
    TooManyItems,
    #[error("the target lies in the source")]
    IntoItself(ItemKey),
    #[error("something is at the target")]
    TargetTaken(ItemKey),
    #[error("no such build")]
    NoBuild(Text, Text),
    #[error("the key is taken")]
    Taken(Text),
    #[error("the definition has another class")]
    ClassChange,
    #[error("a member that isn't defined")]
    UnknownMember(Text),
    #[error("a virtual repository that holds itself")]
    Cycle(crate::Seq<Text>),
    #[error("a reply that is too large")]
    ReplyTooLarge,
    #[error("a limit would be passed")]
    Full(Which),
    #[error("not built yet")]
    NotYet(Option<u32>),
    #[error("out of memory")]
    Memory,
}

impl From<AllocError> for Refusal {
    ghost use Rattle.std.specs.Prelude.{◌≡◌};
    ghost use Rattle.arti_rows.specs.declared.refusal.Refusal.TheVariants.{Memory};

    ghost from_gives = { λ _ e. e ≡ Memory };

    fn from(_error: AllocError) -> Refusal {
        Refusal::Memory
    }
}
