//! What the archive of a version is: its code, its fragments, its manifest.
//!
//! These are definitions alone, over the strings of versions, the rows of the code and the spelling of
//! manifests. The code of a version depends on its number and nothing else, so correct members that
//! archive one version seal it alike. Each function here is a law: it does nothing, and its contract is
//! a statement about every list of versions.
#![tactic(auto)]

ghost use Rattle.archive_model.specs.Statements.{ManifestsFit, ListedByName, ManifestsAreRead};

/// The manifest of a version from 1 on is in the grammar, where its strings can be listed.
pub fn manifests_fit()
    ensures { ManifestsFit }
{}

/// Under a name a manifest lists the first of its strings that has the name.
pub fn listed_by_name()
    ensures { ListedByName }
{}

/// The manifest string of a version from 1 on, within the limits, is read as the manifest that lists
/// what no older version has, by the code of its number.
pub fn manifests_are_read()
    ensures { ManifestsAreRead }
{}
