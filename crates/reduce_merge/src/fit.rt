// Whether two languages fit together.
ghost use Rattle.std.specs.Prelude.{◌≡◌};
ghost use Rattle.format_language.specs.Inner.Entries.{RisingEntries};
ghost use Rattle.reduce_merge.specs.Inner.Parts.{fit_together};

use super::within::agree;
use format_language::clash::clash_between;
use format_language::entries::CLASS;

// No class of one is a result of the other, and entries of one key are the same.
pub fn languages_fit(a: &[u8], b: &[u8]) -> bool
    requires { RisingEntries a.now × RisingEntries b.now }
    ensures { result ≡ fit_together a.now b.now }
{
    !clash_between(a, b) && agree(a, b, CLASS)
}
