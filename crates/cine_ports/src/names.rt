// The order of the names of a source.
ghost use Rattle.std.specs.Prelude.{◌↔◌, map, IsTrue};
ghost use Rattle.std.specs.String.{string_bytes};
ghost use Rattle.cine_ports.specs.Names.{IsNameList};

use crate::MemoryFrame;

/// The least number of names that a source can't have.
const TOO_MANY: usize = 1 << 32;

/// Whether a source may list these names: fewer than 2^32, each before the next in the order of
/// their bytes.
pub fn is_name_list(names: &[String]) -> bool
    ensures { IsTrue result ↔ IsNameList (map string_bytes names.now) }
{
    names.len() < TOO_MANY && names.is_sorted_by(|a, b| a < b)
}

/// Whether a source may have these files: fewer than 2^32, and the name of each before the next
/// in the order of their bytes.
pub fn is_frame_list(entries: &[MemoryFrame]) -> bool
    ensures { IsTrue result ↔ IsNameList (map (λ file. file.name) entries.now) }
{
    entries.len() < TOO_MANY && entries.is_sorted_by(|a, b| a.name() < b.name())
}
