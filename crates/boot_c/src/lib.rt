// The boot call for C (include/pyeodasik.h): what `boot` answers.
#![tactic(auto)]

ghost use Rattle.std.specs.Prelude.{◌≡◌};
ghost use Rattle.paper.specs.Fields.{boot_call};

use paper::BootAnswer;

#[unsafe(no_mangle)]
pub extern "C" fn pyeodasik_boot(fields: &[u8]) -> BootAnswer
    ensures { result ≡ boot_call fields.now }
{
    boot::pyeodasik_boot(fields)
}
