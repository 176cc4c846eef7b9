// The limits of a repository.
ghost use Rattle.std.specs.Prelude.{◌≡◌, ◌<◌, ◌≤◌, ◌↔◌, IsSome, IfSome};
ghost use Rattle.arti_rows.specs.LimitsOf.{AreLimits};
ghost use Rattle.arti_rows.specs.Sizes.{most_content};

/// The bytes of the greatest content.
pub const MOST_CONTENT: u64 = 67_108_864;

/// The bytes of the greatest body of a reply.
pub const MOST_REPLY: usize = 67_108_864;

/// The file of a ground that has the journal.
pub const JOURNAL_FILE: u32 = 1;

/// The file of a ground that has the contents.
pub const CONTENTS_FILE: u32 = 3;

/// How much a repository may hold and how long a request may be.
#[derive(Clone, Copy, Debug, PartialEq)]
pub struct Limits {
    /// Definitions of repositories, caches not counted.
    pub repositories: u32,
    /// Files and folders.
    pub items: u32,
    pub builds: u32,
    /// Bytes of one content or request body.
    pub content: u64,
    /// Bytes of a body that is no deploy.
    pub document: u64,
    /// Bytes of the journal's used part.
    pub journal: u64,
    /// Bytes of all kept contents together.
    pub blobs: u64,
    /// Requests of one stream.
    pub requests: u32,
    ghost within: { AreLimits repositories items builds content document journal blobs requests },
}

impl Limits {
    /// The greatest limits.
    pub fn standard() -> Limits
        ensures repositories { result.repositories ≡ 1024 }
        ensures items { result.items ≡ 262144 }
        ensures builds { result.builds ≡ 65536 }
        ensures content { result.content ≡ most_content }
        ensures document { result.document ≡ 8388608 }
        ensures journal { result.journal ≡ 1073741824 }
        ensures blobs { result.blobs ≡ 1099511627776 }
        ensures requests { result.requests ≡ 1000000 }
    {
        Limits {
            repositories: 1_024,
            items: 262_144,
            builds: 65_536,
            content: MOST_CONTENT,
            document: 8_388_608,
            journal: 1_073_741_824,
            blobs: 1_099_511_627_776,
            requests: 1_000_000,
        }
    }

    /// Limits of one's own: each above 0, and none above the standard one.
    pub fn new(
        repositories: u32,
        items: u32,
        builds: u32,
        content: u64,
        document: u64,
        journal: u64,
        blobs: u64,
        requests: u32,
    ) -> Option<Limits>
        ensures some { IsSome result ↔ AreLimits repositories items builds content document journal blobs requests }
        ensures counts { IfSome result (λ l. (l.repositories ≡ repositories) × (l.items ≡ items) × (l.builds ≡ builds) × (l.requests ≡ requests)) }
        ensures bytes { IfSome result (λ l. (l.content ≡ content) × (l.document ≡ document) × (l.journal ≡ journal) × (l.blobs ≡ blobs)) }
    {
        let most = Limits::standard();
        if !is_within(u64::from(repositories), u64::from(most.repositories))
            || !is_within(u64::from(items), u64::from(most.items))
            || !is_within(u64::from(builds), u64::from(most.builds))
            || !is_within(content, most.content)
            || !is_within(document, most.document)
            || !is_within(journal, most.journal)
            || !is_within(blobs, most.blobs)
            || !is_within(u64::from(requests), u64::from(most.requests))
        {
            return None;
        }
        Some(Limits {
            repositories,
            items,
            builds,
            content,
            document,
            journal,
            blobs,
            requests,
        })
    }
}

ghost use Rattle.std.specs.Prelude.{IsTrue};

fn is_within(n: u64, most: u64) -> bool
    ensures { IsTrue result ↔ ((0 < n) × (n ≤ most)) }
{
    n > 0 && n <= most
}
