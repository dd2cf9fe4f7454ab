// A whole output.
ghost use Rattle.std.specs.Prelude.{◌≡◌, [], ◌∷◌, false, map, option_map, Contains, OnOk, OnErr};
ghost use Rattle.std.specs.Option.{ForSome};
ghost use Rattle.cine_ports.specs.Failure.{is_failed};
ghost use Rattle.cinema_run.specs.Output.{kept_and, OutputBrokeOff};

use cine_ports::{Outputs, PortFault, write_all};

/// Writes a whole output: begins it, writes its bytes, and finishes it.
///
/// An error leaves it unbegun, or unfinished with some prefix of its bytes.
pub fn write_output<O: Outputs>(outputs: &mut O, name: &str, bytes: &[u8]) -> Result<(), PortFault>
    requires working { O.has_failed outputs.old ≡ false }
    requires closed { O.is_open outputs.old ≡ false }
    requires other_name { ForSome (O.kept outputs.old)
        (λ kept. ¬ Contains (map (λ file. file.name) kept.finished) name.now) }
    ensures ok { OnOk result (O.kept outputs.new
        ≡ option_map (kept_and (record { name = name.now; bytes = bytes.now } ∷ []))
        (O.kept outputs.old)) }
    ensures closed { OnOk result (O.is_open outputs.new ≡ false) }
    ensures err { OnErr result (OutputBrokeOff name.now bytes.now (O.kept outputs.old)
        (O.kept outputs.new)) }
    ensures failed { O.has_failed outputs.new ≡ is_failed result }
{
    outputs.begin(name)?;
    write_all(outputs, bytes)?;
    outputs.finish()?;
    Ok(())
}
