//! Which version of journals tells of a run.
ghost use Rattle.std.specs.Prelude.{◌≡◌};
ghost use Rattle.amo_run.specs.Versions.{version_for};

use crate::RunSettings;
use amo_journal::Version;

/// The version of journals that has a line for each event of a run with these settings: the second where messages travel together.
pub fn version_of(settings: &RunSettings) -> Version
    ensures { result ≡ version_for settings.now.batch }
{
    if settings.batch {
        Version::Two
    } else {
        Version::One
    }
}
