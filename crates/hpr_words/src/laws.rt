//! Laws of the words: each function's contract is the law, for all words.
ghost use Rattle.std.specs.Prelude.{◌≡◌, ◌≤◌, ◌<◌, ℕ, ◌-◌, length, true, false, List, [], ◌∷◌, ◌++◌, Some, None, codes};
ghost use Rattle.std.specs.List.{list_all};
ghost use Rattle.hpr_terms.specs.declared.limits.TheConstants.{DEFAULT_STEPS, DEFAULT_TRIES, MAX_PARTS, MAX_STEPS, MAX_TAG_NUMBER, MAX_TRIES, MAX_VARIANTS};
ghost use Rattle.hpr_words.specs.Request.{Request, Text, affected, edit, graph, integrate, integrate_many, run, sample, slice, tag, trial, verify};
ghost use Rattle.hpr_words.specs.Taken.{taken};
ghost use Rattle.hpr_words.specs.Commands.{number_within};
ghost use Rattle.hpr_words.specs.Plain.{is_numeral, is_name, number, plain};

/// Plain words are taken, with the values that are read straight from the words: an option may
/// stand in any place behind the command, but not between two words of a list.
pub fn plain_words_are_taken()
    ensures { (words : List Text) (asked : Request) → plain words ≡ Some asked → taken words ≡ Some asked }
{}

/// The words of `integrate` with two variants are plain, with the option before the base, behind it or
/// at the end, or with none.
pub fn integrate_words_are_plain()
    ensures alone { (base a b : Text) → is_name base ≡ true → is_name a ≡ true → is_name b ≡ true
        → plain (codes "integrate" ∷ base ∷ a ∷ b ∷ []) ≡ Some (integrate base a b DEFAULT_TRIES) }
    ensures first { (base a b n : Text) (tries : ℕ) → is_name base ≡ true → is_name a ≡ true → is_name b ≡ true
        → number MAX_TRIES n ≡ Some tries
        → plain (codes "integrate" ∷ codes "--tries" ∷ n ∷ base ∷ a ∷ b ∷ []) ≡ Some (integrate base a b tries) }
    ensures second { (base a b n : Text) (tries : ℕ) → is_name base ≡ true → is_name a ≡ true → is_name b ≡ true
        → number MAX_TRIES n ≡ Some tries
        → plain (codes "integrate" ∷ base ∷ codes "--tries" ∷ n ∷ a ∷ b ∷ []) ≡ Some (integrate base a b tries) }
    ensures last { (base a b n : Text) (tries : ℕ) → is_name base ≡ true → is_name a ≡ true → is_name b ≡ true
        → number MAX_TRIES n ≡ Some tries
        → plain (codes "integrate" ∷ base ∷ a ∷ b ∷ codes "--tries" ∷ n ∷ []) ≡ Some (integrate base a b tries) }
{}

/// The words of `integrate` with three to sixteen variants are plain, with the option before the base,
/// behind it or at the end, or with none.
pub fn integrate_many_words_are_plain()
    ensures alone { (base : Text) (variants : List Text) → is_name base ≡ true → list_all is_name variants ≡ true
        → 3 ≤ length variants → length variants ≤ MAX_VARIANTS
        → plain (codes "integrate" ∷ base ∷ variants) ≡ Some (integrate_many base variants DEFAULT_TRIES) }
    ensures first { (base n : Text) (variants : List Text) (tries : ℕ) → is_name base ≡ true
        → list_all is_name variants ≡ true → 3 ≤ length variants → length variants ≤ MAX_VARIANTS
        → number MAX_TRIES n ≡ Some tries
        → plain (codes "integrate" ∷ codes "--tries" ∷ n ∷ base ∷ variants)
        ≡ Some (integrate_many base variants tries) }
    ensures second { (base n : Text) (variants : List Text) (tries : ℕ) → is_name base ≡ true
        → list_all is_name variants ≡ true → 3 ≤ length variants → length variants ≤ MAX_VARIANTS
        → number MAX_TRIES n ≡ Some tries
        → plain (codes "integrate" ∷ base ∷ codes "--tries" ∷ n ∷ variants)
        ≡ Some (integrate_many base variants tries) }
    ensures last { (base n : Text) (variants : List Text) (tries : ℕ) → is_name base ≡ true
        → list_all is_name variants ≡ true → 3 ≤ length variants → length variants ≤ MAX_VARIANTS
        → number MAX_TRIES n ≡ Some tries
        → plain (codes "integrate" ∷ base ∷ (variants ++ codes "--tries" ∷ n ∷ []))
        ≡ Some (integrate_many base variants tries) }
{}

/// The words of `integrate` with more than sixteen variants, with one or with none are not taken.
pub fn other_numbers_of_variants_are_not_taken()
    ensures more { (base : Text) (variants : List Text) → is_name base ≡ true → list_all is_name variants ≡ true
        → MAX_VARIANTS < length variants → taken (codes "integrate" ∷ base ∷ variants) ≡ None }
    ensures one { (base a : Text) → is_name base ≡ true → is_name a ≡ true
        → taken (codes "integrate" ∷ base ∷ a ∷ []) ≡ None }
    ensures none { (base : Text) → is_name base ≡ true → taken (codes "integrate" ∷ base ∷ []) ≡ None }
{}

/// The words of `run` are plain, with each option in each of its places or with none, and with both.
pub fn run_words_are_plain()
    ensures alone { (file : Text) (states : List Text) → is_name file ≡ true → list_all is_name states ≡ true
        → plain (codes "run" ∷ file ∷ states) ≡ Some (run file states DEFAULT_STEPS false) }
    ensures first { (file n : Text) (states : List Text) (steps : ℕ) → is_name file ≡ true
        → list_all is_name states ≡ true → number MAX_STEPS n ≡ Some steps
        → plain (codes "run" ∷ codes "--steps" ∷ n ∷ file ∷ states) ≡ Some (run file states steps false) }
    ensures second { (file n : Text) (states : List Text) (steps : ℕ) → is_name file ≡ true
        → list_all is_name states ≡ true → number MAX_STEPS n ≡ Some steps
        → plain (codes "run" ∷ file ∷ codes "--steps" ∷ n ∷ states) ≡ Some (run file states steps false) }
    ensures last { (file n : Text) (states : List Text) (steps : ℕ) → is_name file ≡ true
        → list_all is_name states ≡ true → number MAX_STEPS n ≡ Some steps
        → plain (codes "run" ∷ file ∷ (states ++ codes "--steps" ∷ n ∷ [])) ≡ Some (run file states steps false) }
    ensures traced_first { (file : Text) (states : List Text) → is_name file ≡ true → list_all is_name states ≡ true
        → plain (codes "run" ∷ codes "--trace" ∷ file ∷ states) ≡ Some (run file states DEFAULT_STEPS true) }
    ensures traced_second { (file : Text) (states : List Text) → is_name file ≡ true → list_all is_name states ≡ true
        → plain (codes "run" ∷ file ∷ codes "--trace" ∷ states) ≡ Some (run file states DEFAULT_STEPS true) }
    ensures traced_last { (file : Text) (states : List Text) → is_name file ≡ true → list_all is_name states ≡ true
        → plain (codes "run" ∷ file ∷ (states ++ codes "--trace" ∷ [])) ≡ Some (run file states DEFAULT_STEPS true) }
    ensures both { (file n : Text) (states : List Text) (steps : ℕ) → is_name file ≡ true
        → list_all is_name states ≡ true → number MAX_STEPS n ≡ Some steps
        → plain (codes "run" ∷ file ∷ (states ++ codes "--steps" ∷ n ∷ codes "--trace" ∷ []))
        ≡ Some (run file states steps true) }
    ensures both_apart { (file n : Text) (states : List Text) (steps : ℕ) → is_name file ≡ true
        → list_all is_name states ≡ true → number MAX_STEPS n ≡ Some steps
        → plain (codes "run" ∷ codes "--trace" ∷ file ∷ codes "--steps" ∷ n ∷ states)
        ≡ Some (run file states steps true) }
{}

/// The words of `graph` are plain, with the flag in each of its places or with none.
pub fn graph_words_are_plain()
    ensures alone { (file : Text) → is_name file ≡ true → plain (codes "graph" ∷ file ∷ []) ≡ Some (graph file false) }
    ensures first { (file : Text) → is_name file ≡ true → plain (codes "graph" ∷ codes "--json" ∷ file ∷ [])
        ≡ Some (graph file true) }
    ensures last { (file : Text) → is_name file ≡ true → plain (codes "graph" ∷ file ∷ codes "--json" ∷ [])
        ≡ Some (graph file true) }
{}

/// A file and at least one point behind `slice` are plain, with the flag in each of its places or with none.
pub fn slice_words_are_plain()
    ensures alone { (file point : Text) (points : List Text) → is_name file ≡ true
        → list_all is_name (point ∷ points) ≡ true
        → plain (codes "slice" ∷ file ∷ point ∷ points) ≡ Some (slice file (point ∷ points) false) }
    ensures first { (file point : Text) (points : List Text) → is_name file ≡ true
        → list_all is_name (point ∷ points) ≡ true
        → plain (codes "slice" ∷ codes "--program" ∷ file ∷ point ∷ points) ≡ Some (slice file (point ∷ points) true) }
    ensures second { (file point : Text) (points : List Text) → is_name file ≡ true
        → list_all is_name (point ∷ points) ≡ true
        → plain (codes "slice" ∷ file ∷ codes "--program" ∷ point ∷ points) ≡ Some (slice file (point ∷ points) true) }
    ensures last { (file point : Text) (points : List Text) → is_name file ≡ true
        → list_all is_name (point ∷ points) ≡ true
        → plain (codes "slice" ∷ file ∷ point ∷ (points ++ codes "--program" ∷ []))
        ≡ Some (slice file (point ∷ points) true) }
{}

/// Two names behind `affected` are plain.
pub fn affected_words_are_plain()
    ensures { (base a : Text) → is_name base ≡ true → is_name a ≡ true
        → plain (codes "affected" ∷ base ∷ a ∷ []) ≡ Some (affected base a) }
{}

/// The words of `trial` are plain, with the option in each of its places or with none.
pub fn trial_words_are_plain()
    ensures alone { (base a b : Text) (states : List Text) → is_name base ≡ true → is_name a ≡ true → is_name b ≡ true
        → list_all is_name states ≡ true
        → plain (codes "trial" ∷ base ∷ a ∷ b ∷ states) ≡ Some (trial base a b states DEFAULT_STEPS) }
    ensures first { (base a b n : Text) (states : List Text) (steps : ℕ) → is_name base ≡ true → is_name a ≡ true
        → is_name b ≡ true → list_all is_name states ≡ true
        → number MAX_STEPS n ≡ Some steps → plain (codes "trial" ∷ codes "--steps" ∷ n ∷ base ∷ a ∷ b ∷ states)
        ≡ Some (trial base a b states steps) }
    ensures second { (base a b n : Text) (states : List Text) (steps : ℕ) → is_name base ≡ true → is_name a ≡ true
        → is_name b ≡ true → list_all is_name states ≡ true
        → number MAX_STEPS n ≡ Some steps → plain (codes "trial" ∷ base ∷ codes "--steps" ∷ n ∷ a ∷ b ∷ states)
        ≡ Some (trial base a b states steps) }
    ensures third { (base a b n : Text) (states : List Text) (steps : ℕ) → is_name base ≡ true → is_name a ≡ true
        → is_name b ≡ true → list_all is_name states ≡ true
        → number MAX_STEPS n ≡ Some steps → plain (codes "trial" ∷ base ∷ a ∷ codes "--steps" ∷ n ∷ b ∷ states)
        ≡ Some (trial base a b states steps) }
    ensures fourth { (base a b n : Text) (states : List Text) (steps : ℕ) → is_name base ≡ true → is_name a ≡ true
        → is_name b ≡ true → list_all is_name states ≡ true
        → number MAX_STEPS n ≡ Some steps → plain (codes "trial" ∷ base ∷ a ∷ b ∷ codes "--steps" ∷ n ∷ states)
        ≡ Some (trial base a b states steps) }
    ensures last { (base a b n : Text) (states : List Text) (steps : ℕ) → is_name base ≡ true → is_name a ≡ true
        → is_name b ≡ true → list_all is_name states ≡ true
        → number MAX_STEPS n ≡ Some steps → plain (codes "trial" ∷ base ∷ a ∷ b ∷
        (states ++ codes "--steps" ∷ n ∷ [])) ≡ Some (trial base a b states steps) }
{}

/// The words of `edit` are plain, with the option in each of its places.
pub fn edit_words_are_plain()
    ensures first { (file script n : Text) (author : ℕ) → is_name file ≡ true → is_name script ≡ true
        → number MAX_TAG_NUMBER n ≡ Some author
        → plain (codes "edit" ∷ codes "--author" ∷ n ∷ file ∷ script ∷ []) ≡ Some (edit file script author) }
    ensures second { (file script n : Text) (author : ℕ) → is_name file ≡ true → is_name script ≡ true
        → number MAX_TAG_NUMBER n ≡ Some author
        → plain (codes "edit" ∷ file ∷ codes "--author" ∷ n ∷ script ∷ []) ≡ Some (edit file script author) }
    ensures last { (file script n : Text) (author : ℕ) → is_name file ≡ true → is_name script ≡ true
        → number MAX_TAG_NUMBER n ≡ Some author
        → plain (codes "edit" ∷ file ∷ script ∷ codes "--author" ∷ n ∷ []) ≡ Some (edit file script author) }
{}

/// The words of `tag` are plain, with the option in each of its places.
pub fn tag_words_are_plain()
    ensures first { (file n : Text) (author : ℕ) → is_name file ≡ true → number MAX_TAG_NUMBER n ≡ Some author
        → plain (codes "tag" ∷ codes "--author" ∷ n ∷ file ∷ []) ≡ Some (tag file author) }
    ensures last { (file n : Text) (author : ℕ) → is_name file ≡ true → number MAX_TAG_NUMBER n ≡ Some author
        → plain (codes "tag" ∷ file ∷ codes "--author" ∷ n ∷ []) ≡ Some (tag file author) }
{}

/// A seed and a number of parts behind `sample` are plain: decimal digits without leading zeros, in range.
pub fn sample_words_are_plain()
    ensures { (seed parts : Text) (s n : ℕ) → is_numeral seed ≡ true
        → number_within 0 18446744073709551615 seed ≡ Some s
        → number (MAX_PARTS - 2) parts ≡ Some n → plain (codes "sample" ∷ seed ∷ parts ∷ []) ≡ Some (sample s n) }
{}

/// Four names behind `verify` are plain.
pub fn verify_words_are_plain()
    ensures { (base a b offered : Text) → is_name base ≡ true → is_name a ≡ true → is_name b ≡ true
        → is_name offered ≡ true → plain (codes "verify" ∷ base ∷ a ∷ b ∷ offered ∷ [])
        ≡ Some (verify base a b offered) }
{}
