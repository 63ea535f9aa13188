//! What is known of changelogs, over every list of changes and all rows: the function stands for a theorem, which is its contract.
ghost use Rattle.std.specs.Prelude.{◌≡◌, List};
ghost use Rattle.ct_change.specs.declared.change.Change.{Change};
ghost use Rattle.ct_change.specs.Changelog.{Mode, Rows, fold, IsValid, Means};

/// A valid changelog means the rows that it folds to, and no others.
pub fn valid_changelog_means_its_fold()
    ensures fold { (mode : Mode) (changes : List Change) → IsValid mode changes → Means mode changes (fold mode changes) }
    ensures only { (mode : Mode) (changes : List Change) (rows : Rows) → IsValid mode changes → Means mode changes rows → rows ≡ fold mode changes }
{}
