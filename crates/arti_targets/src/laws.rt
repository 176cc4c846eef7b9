// What braces are.
ghost use Rattle.std.specs.Prelude.{◌≡◌, ◌+◌, ◌-◌, ◌*◌, ◌==◌, ◌∷◌, ℕ, List, true, false, map};
ghost use Rattle.std.specs.List.{list_any};
ghost use Rattle.arti_targets.specs.declared.part.TargetPart.TheVariants.{Char, Group};
ghost use Rattle.arti_targets.specs.Targets.{is_digit, parts_from};

/// Characters without an opening brace stand for themselves; one to three digits in braces are the placeholder of that number, and four are none.
pub fn braces_hold_numbers()
    ensures plain { (text : List ℕ) → list_any (λ c. c == 123) text ≡ false → parts_from 0 text ≡ map (λ c. Char c) text }
    ensures one { (a : ℕ) (rest : List ℕ) → is_digit a ≡ true → parts_from 0 (123 ∷ a ∷ 125 ∷ rest) ≡ Group (a - 48) ∷ parts_from 0 rest }
    ensures two { (a b : ℕ) (rest : List ℕ) → is_digit a ≡ true → is_digit b ≡ true
        → parts_from 0 (123 ∷ a ∷ b ∷ 125 ∷ rest) ≡ Group ((a - 48) * 10 + (b - 48)) ∷ parts_from 0 rest }
    ensures three { (a b c : ℕ) (rest : List ℕ) → is_digit a ≡ true → is_digit b ≡ true → is_digit c ≡ true
        → parts_from 0 (123 ∷ a ∷ b ∷ c ∷ 125 ∷ rest) ≡ Group (((a - 48) * 10 + (b - 48)) * 10 + (c - 48)) ∷ parts_from 0 rest }
    ensures four { (a b c d : ℕ) (rest : List ℕ) → is_digit a ≡ true → is_digit b ≡ true → is_digit c ≡ true → is_digit d ≡ true
        → parts_from 0 (123 ∷ a ∷ b ∷ c ∷ d ∷ rest) ≡ Char 123 ∷ parts_from 0 (a ∷ b ∷ c ∷ d ∷ rest) }
{}
