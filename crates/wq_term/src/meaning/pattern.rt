//! Whether the name of a file fits a pattern.
ghost use Rattle.std.specs.Prelude.{◌≡◌, ◌≤◌, length};
ghost use Rattle.wq_term.specs.NameFit.{name_fits, scope_with};
ghost use Rattle.wq_term.specs.Text.{scope_part};

use crate::expr::Scope;
use crate::meaning::text::part_of;
use wq_glob::{Flags, Pattern};
use wq_record::Record;

/// Whether the part of the file's name that the pattern is for fits it.
pub(super) fn name_fits(pattern: &Pattern, file: &Record) -> bool
    ensures { result ≡ name_fits pattern.now file.now.name }
{
    let part = part_of(scope_with(pattern.flags()), file);
    pattern.fits(part)
}

/// The part of a name that a pattern with these flags is for.
fn scope_with(flags: Flags) -> Scope
    ensures { result ≡ scope_with flags }
{
    if flags.wholename {
        Scope::Wholename
    } else {
        Scope::Basename
    }
}
