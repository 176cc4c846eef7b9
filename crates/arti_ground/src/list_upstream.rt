// Remote repositories in memory.
ghost use Rattle.std.specs.Prelude.{◌≡◌, ◌≢◌, ◌≤◌, [], map, drop, vec_len, option_map};
ghost use Rattle.std.specs.List.{find};
ghost use Rattle.arti_ground.specs.Sources.{first_answer, FetchGives};
ghost use Rattle.arti_ground.specs.Remotes.{is_for, lists_of, answer_of, content_of};

use crate::{FetchFault, Fetched, Upstream};
use arti_rows::{Seq, Text};
use std::marker::Model;

/// What an upstream answers to one pair of a remote's address and a path: a content, or none where it fails.
#[derive(Debug, Drop)]
pub struct RemoteEntry {
    pub url: Text,
    pub path: Text,
    pub content: Option<Seq<u8>>,
}

/// Lists of entries as an upstream, one list for each fetch.
#[derive(Drop)]
pub struct ListUpstream {
    answers: Vec<Vec<RemoteEntry>>,
    next: usize,
    faults: u64,
}

impl Model for ListUpstream {
    ghost use Rattle.std.specs.Prelude.{◌≤◌, length, drop};
    ghost use Rattle.arti_ground.specs.Remotes.{Remotes, lists_of};

    ghost Value = { Remotes };

    ghost view = { λ u. record { answers = drop u.next (lists_of u.answers.items); faults = u.faults } };

    ghost invariant = { λ u. u.next ≤ length u.answers.items };
}

impl ListUpstream {
    /// Each fetch is answered by the next list: by its first entry of the asked pair, and Missing where it has none. Past
    /// these lists every pair is Missing.
    pub fn new(answers: Vec<Vec<RemoteEntry>>) -> ListUpstream
        ensures holds { result ≡ record { answers = lists_of answers.items; faults = 0 } }
    {
        ListUpstream {
            answers,
            next: 0,
            faults: 0,
        }
    }
}

impl Upstream for ListUpstream {
    ghost use Rattle.std.specs.Prelude.{◌≡◌, ◌≢◌, ◌≤◌, map, vec_len, drop, IsErrOf, Err, Ok};
    ghost use Rattle.arti_ground.specs.State.{Rose};
    ghost use Rattle.arti_ground.specs.Sources.{first_answer, FetchGives};
    ghost use Rattle.arti_ground.specs.Remotes.{answer_of};

    ghost tells = { Unit {0} };

    ghost answers = { λ u. map answer_of u.answers };

    ghost faults = { λ u. u.faults };

    fn fetch(
        &mut self,
        url: &str,
        path: &str,
        max: u64,
        buf: &mut Vec<u8>,
    ) -> Result<Fetched, FetchFault> {
        let outcome = give(asked(&self.answers, self.next, url, path), max, buf);
        match outcome {
            Err(FetchFault::Memory) => return outcome,
            Err(FetchFault::Failed) => self.faults = self.faults.saturating_add(1),
            Ok(_) => {}
        }
        if self.next < self.answers.len() {
            self.next += 1;
        }
        outcome
    }
}

// The first entry of this pair.
fn entry_of<'a>(entries: &'a [RemoteEntry], url: &str, path: &str) -> Option<&'a RemoteEntry>
    ensures { option_map (λ e. e.now) result ≡ find (is_for url.now path.now) entries.now }
{
    entries.iter().find(|entry| entry.url.as_str() == url && entry.path.as_str() == path)
}

// The same in the list of a number, and none past the lists.
fn asked<'a>(
    answers: &'a Vec<Vec<RemoteEntry>>,
    next: usize,
    url: &str,
    path: &str,
) -> Option<&'a RemoteEntry>
    ensures { content_of (option_map (λ e. e.now) result) ≡ first_answer (map answer_of (drop next (lists_of answers.now.items))) url.now path.now }
{
    if next < answers.len() {
        return entry_of(&answers[next], url, path);
    }
    None
}

// What an entry gives.
fn give(entry: Option<&RemoteEntry>, max: u64, buf: &mut Vec<u8>) -> Result<Fetched, FetchFault>
    ensures gives { result ≢ Err FetchFault.Memory → FetchGives (content_of (option_map (λ e. e.now) entry.entry)) max result buf.new.items }
    ensures within { result ≡ Ok Fetched.Found → vec_len buf.new ≤ max }
{
    let Some(entry) = entry else {
        return Ok(Fetched::Missing);
    };
    let Some(content) = &entry.content else {
        return Err(FetchFault::Failed);
    };
    let bytes = content.as_slice();
    if bytes.len() as u64 > max {
        return Ok(Fetched::TooLarge);
    }
    buf.clear();
    match buf.extend_from_slice(bytes) {
        Ok(()) => Ok(Fetched::Found),
        Err(_) => Err(FetchFault::Memory),
    }
}
