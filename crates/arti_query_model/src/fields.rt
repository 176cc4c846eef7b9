//! Relations and fields.

/// A relation, which has the name of the domain that it leads to. So it names that domain, too.
#[derive(Clone, Copy)]
pub enum Rel {
    Property,
    Stat,
    Artifact,
    Dependency,
    Item,
    Module,
    Build,
    Promotion,
}

/// What values a field has.
#[derive(Clone, Copy)]
pub enum FieldType {
    Texts,
    Numbers,
    Dates,
    Kinds,
    /// A list of texts, which is shown and not tested.
    Lists,
}

/// A field of a domain.
#[derive(Clone, Copy)]
pub enum FieldId {
    ItemRepo,
    ItemPath,
    ItemName,
    ItemType,
    ItemSize,
    ItemCreated,
    ItemCreatedBy,
    ItemModified,
    ItemModifiedBy,
    ItemUpdated,
    ItemDepth,
    ItemOriginalMd5,
    ItemOriginalSha1,
    ItemActualMd5,
    ItemActualSha1,
    ItemSha256,
    ItemVirtualRepos,
    PropertyKey,
    PropertyValue,
    StatDownloads,
    StatDownloaded,
    StatDownloadedBy,
    ArtifactName,
    ArtifactType,
    ArtifactSha1,
    ArtifactSha256,
    ArtifactMd5,
    DependencyName,
    DependencyType,
    DependencyScope,
    DependencySha1,
    DependencySha256,
    DependencyMd5,
    ModuleName,
    BuildName,
    BuildNumber,
    BuildStarted,
    BuildUrl,
    BuildCreated,
    BuildCreatedBy,
    BuildModified,
    BuildModifiedBy,
    PromotionCreated,
    PromotionCreatedBy,
    PromotionStatus,
    PromotionRepo,
    PromotionComment,
    PromotionUser,
}
