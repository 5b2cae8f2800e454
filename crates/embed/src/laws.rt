ghost use Rattle.std.specs.Prelude.{◌<◌, ◌^◌, length};
ghost use Rattle.embed.specs.Headline.{IsAsTheHeadlineSays};

use crate::host_definitions::HostDef;
use hostfunc::HostFn;
use meaning::writing_is_read;

/// Law: the headline.
///
/// Any list of commands is applied to a fresh embedding with these definitions of host functions. Then every call of an exported
/// function with arguments of its types spends at most its fuel and never goes wrong. It ends with values of its result types,
/// with a named trap, or with exhaustion of fuel, depth or memory. Exhaustion of fuel or depth occurs only if the next step
/// would pass the bound. Every step is by the specification's reduction, in which each host function acts by the relation of its
/// object alone. `Embedding::apply_all` ensures that the replies and the final state of an embedding are a run of the embedding
/// machine.
pub fn headline(definitions: &[HostDef])
    requires { length definitions.now < 2 ^ 32 }
    ensures { IsAsTheHeadlineSays ⟦<dyn HostFn as HostFn>⟧ definitions.now }
{
    writing_is_read();
}
