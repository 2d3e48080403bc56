//! The names of files that most commands read.

ghost use Rattle.std.specs.Prelude.{◌≡◌, ◌∷◌, [], ℕ, List, codes, IfOk, IsErrOf};
ghost use Rattle.command_line.specs.Spelling.{values_under};

use canonical_words::FileNames;
use command_line::{Setting, WordsFault, single_value};
use std::alloc::Global;

/// The names under `network`, `base` and `journal`, each given once.
pub(crate) fn file_names<'a>(
    alloc: Global,
    settings: &[Setting<'a>],
) -> Result<FileNames<'a>, WordsFault>
    ensures network { IfOk result
        (λ names. values_under (codes "network") settings.now ≡ names.network.now ∷ []) }
    ensures base { IfOk result
        (λ names. values_under (codes "base") settings.now ≡ names.base.now ∷ []) }
    ensures journal { IfOk result
        (λ names. values_under (codes "journal") settings.now ≡ names.journal.now ∷ []) }
    ensures other { IsErrOf result WordsFault.NotUnderstood → (network base journal : List ℕ)
        → values_under (codes "network") settings.now ≡ network ∷ []
        → values_under (codes "base") settings.now ≡ base ∷ []
        → values_under (codes "journal") settings.now ≡ journal ∷ [] → ⊥ }
{
    let network = match single_value(alloc, "network", settings) {
        Ok(network) => network,
        Err(fault) => return Err(fault),
    };
    let base = match single_value(alloc, "base", settings) {
        Ok(base) => base,
        Err(fault) => return Err(fault),
    };
    let journal = match single_value(alloc, "journal", settings) {
        Ok(journal) => journal,
        Err(fault) => return Err(fault),
    };
    Ok(FileNames {
        network,
        base,
        journal,
    })
}
