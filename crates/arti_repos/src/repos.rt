// The definitions of repositories.
ghost use Rattle.std.specs.Prelude.{◌≡◌, ◌≢◌, ℕ, List, [], length, None, Some, IfOk, IfErr, OnOk, OnErr};
ghost use Rattle.std.specs.Option.{option_map, option_copied};
ghost use Rattle.arti_repos.specs.Definitions.{InOrder, definition, is_cache, put_definition};
ghost use Rattle.arti_repos.specs.Ranks.{IsAcyclic};
ghost use Rattle.arti_repos.specs.Cycles.{way_to, way_by};
ghost use Rattle.arti_repos.specs.Walks.{walk, expand, expanded, behind, admits, lets_through, includes, target_of, deploy_to};
ghost use Rattle.arti_repos.specs.Refused.{define_fault};

use crate::definitions::{cached_by, find, put};
use crate::judging::judge;
use crate::walking::walk;
use crate::{Place, PlaceKind, RepoFault};
use arti_rows::{Class, RepoDef, Text};
use arti_wild::ant;
use std::alloc::{AllocError, Global};
use std::marker::Model;

/// The definitions of repositories, one for each key. Contracts see them as a list that rises by key.
#[derive(Drop)]
pub struct Repos {
    definitions: Vec<RepoDef>,
}

impl Model for Repos {
    ghost use Rattle.std.specs.Prelude.{List};
    ghost use Rattle.arti_rows.specs.declared.rows.RepoDef.{RepoDef};
    ghost use Rattle.arti_repos.specs.Definitions.{InOrder};
    ghost use Rattle.arti_repos.specs.Ranks.{IsAcyclic};

    ghost Value = { List RepoDef };

    ghost view = { λ r. r.definitions.items };

    ghost invariant = { λ r. record { order : InOrder r.definitions.items; acyclic : IsAcyclic r.definitions.items } };
}

impl Repos {
    /// No definitions.
    pub fn new(alloc: Global) -> Repos
        ensures { result ≡ [] }
    {
        Repos {
            definitions: Vec::new(alloc),
        }
    }

    /// What holds of the definitions: none leads back to itself, so that as many levels as there are definitions are enough
    /// for what a key stands for and for its ways.
    pub fn rules(&self)
        ensures order { InOrder self.now }
        ensures acyclic { IsAcyclic self.now }
        ensures expands { (key : List ℕ) → expand (length self.now) self.now key ≡ expanded (λ member. expand (length self.now) self.now member) (definition self.now key) }
        ensures leads { (target key : List ℕ) → way_to (length self.now) self.now target key ≡ way_by (λ member. way_to (length self.now) self.now target member) self.now target key }
    {
        let _ = &self.definitions;
    }

    /// The definition of a key.
    pub fn get(&self, key: &str) -> Option<&RepoDef>
        ensures { option_copied result ≡ definition self.now key.now }
    {
        find(&self.definitions, key)
    }

    /// All definitions, by key.
    pub fn all(&self) -> &[RepoDef]
        ensures definitions { result.now ≡ self.now }
        ensures order { InOrder self.now }
    {
        self.definitions.as_slice()
    }

    /// Whether the key is that of a remote's cache.
    pub fn is_cache(&self, key: &str) -> bool
        ensures { result ≡ is_cache self.now key.now }
    {
        cached_by(&self.definitions, key).is_some()
    }

    /// The key that a deploy goes to: a local's own, the default of a virtual.
    pub fn deploy_to(&self, key: &str) -> Option<&str>
        ensures { option_copied result ≡ deploy_to self.now key.now }
    {
        match find(&self.definitions, key) {
            Some(def) => target_of(def),
            None => None,
        }
    }

    /// Whether the patterns of a key let the path and name through: one of those that include does, and none that
    /// excludes. A cache has its remote's.
    pub fn admits(&self, key: &str, path: &str) -> bool
        ensures { result ≡ admits self.now key.now path.now }
    {
        match self.behind(key) {
            Some(def) => lets_through(def, path),
            None => false,
        }
    }

    // The definition of a key, or of the remote whose cache it is.
    fn behind(&self, key: &str) -> Option<&RepoDef>
        ensures { option_copied result ≡ behind self.now key.now }
    {
        match find(&self.definitions, key) {
            Some(def) => Some(def),
            None => cached_by(&self.definitions, key),
        }
    }

    /// The places where the items of a key are looked for: locals, then caches, then remotes.
    pub fn walk(&self, alloc: Global, key: &str) -> Result<Option<Vec<Place>>, AllocError>
        ensures { IfOk result (λ places. option_map (λ v. v.items) places ≡ walk self.now key.now) }
    {
        if find(&self.definitions, key).is_some() {
            return Ok(Some(walk(alloc, &self.definitions, key)?));
        }
        if cached_by(&self.definitions, key).is_none() {
            return Ok(None);
        }
        // The key is the cache's already.
        let mut places = Vec::new(alloc);
        places.push(Place {
            key: Text::from_str(alloc, key)?,
            kind: PlaceKind::Cache,
        })?;
        Ok(Some(places))
    }

    /// The fault that `define` has for the same values.
    pub fn may_define(
        &self,
        alloc: Global,
        def: &RepoDef,
        update: bool,
        limit: u32,
    ) -> Result<(), RepoFault>
        ensures ok { OnOk result (define_fault self.now def.now update limit ≡ None) }
        ensures fault { IfErr result (λ e. e ≢ RepoFault.Memory → define_fault self.now def.now update limit ≡ Some e) }
    {
        judge(alloc, &self.definitions, def, update, limit)
    }

    /// Adds a definition or, where `update` is said, replaces the one of its key. `limit` is how many there may be.
    pub fn define(
        &mut self,
        alloc: Global,
        def: RepoDef,
        update: bool,
        limit: u32,
    ) -> Result<(), RepoFault>
        ensures ok { OnOk result (define_fault self.old def update limit ≡ None) }
        ensures defined { OnOk result (self.new ≡ put_definition def self.old) }
        ensures fault { IfErr result (λ e. e ≢ RepoFault.Memory → define_fault self.old def update limit ≡ Some e) }
        ensures unchanged { OnErr result (self.new ≡ self.old) }
    {
        judge(alloc, &self.definitions, &def, update, limit)?;
        put(&mut self.definitions, def)?;
        Ok(())
    }
}

// Whether a definition's own patterns let a path through. No pattern that includes stands for all paths.
fn lets_through(def: &RepoDef, path: &str) -> bool
    ensures { result ≡ lets_through path.now def.now }
{
    includes(def.includes.as_str(), path) && !ant(def.excludes.as_str(), path)
}

fn includes(patterns: &str, path: &str) -> bool
    ensures { result ≡ includes patterns.now path.now }
{
    if patterns.is_empty() {
        return ant("**/*", path);
    }
    ant(patterns, path)
}

// Where a definition's deploys go.
fn target_of(def: &RepoDef) -> Option<&str>
    ensures { option_copied result ≡ target_of def.now def.now.class }
{
    match def.class {
        Class::Local => Some(def.key.as_str()),
        Class::Remote => None,
        Class::Virtual => match &def.default_to {
            Some(key) => Some(key.as_str()),
            None => None,
        },
    }
}
