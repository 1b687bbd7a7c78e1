//! Lines that several commands say.

ghost use Rattle.std.specs.Prelude.{◌≡◌};
ghost use Rattle.sk_tools.specs.Outside.{Says};
ghost use Rattle.sk_tools.specs.Check.{warning_lines};

use crate::outside::writing::say_line;
use sk_base::Sink;
use sk_config::Warning;
use std::alloc::Global;

/// Says each warning on a line of its own.
pub fn warn<E: Sink>(alloc: Global, warnings: &[Warning], err: &mut E)
    ensures tells { E.tells err.new ≡ E.tells err.old }
    ensures says { Says (E.tells err.old) (E.faults err.old) (E.faults err.new) (E.written err.old) (E.written err.new) (warning_lines warnings.now) }
{
    for warning in warnings {
        say_line(
            alloc,
            err,
            "warning: ",
            warning.path.as_str(),
            warning.rule(),
        );
    }
}
