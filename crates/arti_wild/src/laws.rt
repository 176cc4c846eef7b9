// Laws of patterns.
ghost use Rattle.std.specs.Prelude.{◌≡◌, ◌≢◌, ◌↔◌, ◌++◌, ◌∷◌, [], ℕ, List, true, false, Some, None, codes};
ghost use Rattle.arti_wild.specs.declared.part.Part.{Part};
ghost use Rattle.arti_wild.specs.Wild.{wild_chars, wild_text};
ghost use Rattle.arti_wild.specs.Ant.{is_double_star, segments, pattern_segments, segments_fit};
ghost use Rattle.arti_wild.specs.Splits.{Splits, IsAtMost, greatest};

/// A wild pattern by its first character, over characters: `*` is any text, `?` one character, any other character itself.
pub fn wild_by_first_character()
    ensures end { (text : List ℕ) → (wild_chars [] text ≡ true) ↔ (text ≡ []) }
    ensures star { (pattern text : List ℕ) → (wild_chars (42 ∷ pattern) text ≡ true) ↔ ((front : List ℕ) × (rest : List ℕ) × (front ++ rest ≡ text) × (wild_chars pattern rest ≡ true)) }
    ensures any { (pattern text : List ℕ) → (wild_chars (63 ∷ pattern) text ≡ true) ↔ ((c : ℕ) × (rest : List ℕ) × (c ∷ rest ≡ text) × (wild_chars pattern rest ≡ true)) }
    ensures itself { (c : ℕ) (pattern text : List ℕ) → c ≢ 42 → c ≢ 63 → (wild_chars (c ∷ pattern) text ≡ true) ↔ ((rest : List ℕ) × (c ∷ rest ≡ text) × (wild_chars pattern rest ≡ true)) }
{}

/// An ant pattern by its first segment: `**` is any number of segments, another one a segment that it stands for as a
/// wild pattern. A pattern that ends in `/` has `**` appended.
pub fn ant_by_first_segment()
    ensures end { (path : List (List ℕ)) → (segments_fit [] path ≡ true) ↔ (path ≡ []) }
    ensures double_star { (pattern path : List (List ℕ)) → (segments_fit (codes "**" ∷ pattern) path ≡ true) ↔ ((front : List (List ℕ)) × (rest : List (List ℕ)) × (front ++ rest ≡ path) × (segments_fit pattern rest ≡ true)) }
    ensures other { (first : List ℕ) (pattern path : List (List ℕ)) → is_double_star first ≡ false → (segments_fit (first ∷ pattern) path ≡ true) ↔ ((segment : List ℕ) × (rest : List (List ℕ)) × (segment ∷ rest ≡ path) × (wild_text first segment ≡ true) × (segments_fit pattern rest ≡ true)) }
    ensures open_end { (pattern : List ℕ) → pattern_segments (pattern ++ codes "/") ≡ segments (pattern ++ codes "/**") }
{}

/// The greatest lengths are those of a split, and no split has greater ones.
pub fn greatest_of_all_splits()
    ensures split { (parts : List Part) (text lengths : List ℕ) → greatest parts text ≡ Some lengths → Splits parts text lengths }
    ensures greatest { (parts : List Part) (text lengths others : List ℕ) → greatest parts text ≡ Some lengths → Splits parts text others → IsAtMost others lengths }
    ensures none { (parts : List Part) (text lengths : List ℕ) → greatest parts text ≡ None → ¬ (Splits parts text lengths) }
{}
