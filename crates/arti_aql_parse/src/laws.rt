//! What is spelled is one query.
ghost use Rattle.std.specs.Prelude.{◌≡◌, ℕ, List};
ghost use Rattle.arti_aql_parse.specs.Spellable.{HasSpelling};
ghost use Rattle.arti_aql_parse.specs.Spelling.{Spells};
ghost use Rattle.arti_aql_parse.specs.Tree.{PlainQuery};

/// A text spells one query at most.
pub fn texts_spell_one_query()
    ensures { (text : List ℕ) (p q : PlainQuery) → Spells text p → Spells text q → p ≡ q }
{}

/// Only what has a spelling is spelled by a text.
pub fn spelled_queries_have_spellings()
    ensures { (text : List ℕ) (q : PlainQuery) → Spells text q → HasSpelling q }
{}
