//! Laws of files, on a function that does nothing.

ghost use Rattle.std.specs.Prelude.{◌≡◌, ◌<◌, ◌^◌, ℕ, List, All, length};
ghost use Rattle.grant_journal.specs.Histories.{ReadsAs};

use byte_fields::one_form;

/// A file reads as one history at most.
pub fn one_history()
    ensures once { (header file : List ℕ) (a b : List (List ℕ)) →
        All (λ body. length body < 2 ^ 32) a → All (λ body. length body < 2 ^ 32) b →
        ReadsAs header a file → ReadsAs header b file → a ≡ b }
{
    one_form();
}
