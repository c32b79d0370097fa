//! Where texts begin.
ghost use Rattle.std.specs.Prelude.{◌≡◌, ℕ, List, [], Some};
ghost use Rattle.eu_base.specs.Spaces.{Content};
ghost use Rattle.text_heap.specs.Texts.{Texts, Holds};

/// Law: a space of zeros is sound, and holds "" in every cell in which a text is looked for.
pub fn zeros_hold_empty_texts()
    ensures { (content : Content) (texts : Texts) → ((n : ℕ) → content n ≡ 0) →
        ((c : ℕ) (t : List ℕ) → texts c ≡ Some t → t ≡ []) → Holds content texts }
{}
