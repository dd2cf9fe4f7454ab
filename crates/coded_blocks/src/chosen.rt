// The bytes of a choice of coding passes.
ghost use Rattle.std.specs.Prelude.{◌↔◌, IfOk, IsTrue};
ghost use Rattle.band_geometry.specs.declared.geometry.Geometry.{Geometry};
ghost use Rattle.dz_quantiser.specs.declared.steps.StepSizes.{StepSizes};
ghost use Rattle.profile_reader.specs.Chosen.{Planes};
ghost use Rattle.coded_blocks.specs.Coded.{AreCoded, AreCounts};
ghost use Rattle.coded_blocks.specs.Codes.{AreChosenCodes};

use crate::blocks::CodedBlocks;
use crate::codes::ChosenCodes;
use std::alloc::{AllocError, Global};

impl CodedBlocks {
    /// Whether there is one number for each block, by block number, none above the number of its
    /// passes, and fewer than 2^32 of them.
    pub fn has_passes(&self, counts: &[u8]) -> bool
        ensures { IsTrue result ↔ AreCounts self.now counts.now }
    {
        if counts.len() != self.rows.len() {
            return false;
        }
        if counts.len() > u32::MAX as usize {
            return false;
        }
        for n in 0..counts.len() {
            if counts[n] > self.rows[n].passes {
                return false;
            }
        }
        true
    }

    /// The bytes of a choice of passes: of each block, by its number, those of so many of its first
    /// passes, which are the ended code of their symbols (ISO/IEC 15444-1, Annex C.2.9). The only
    /// refusal is out of memory.
    pub fn chosen(&self, alloc: Global, counts: &[u8]) -> Result<ChosenCodes, AllocError>
        requires { AreCounts self.now counts.now }
        ensures { IfOk result (λ codes. (g : Geometry) (steps : StepSizes) (planes : Planes) →
            AreCoded g steps planes self.now →
            AreChosenCodes g steps planes counts.now codes) }
    {
        let mut codes = ChosenCodes::new(alloc);
        let mut code = Vec::new(alloc);
        for n in 0..counts.len() {
            code.clear();
            self.push_code(n as u32, counts[n], &mut code)?;
            codes.push(code.as_slice())?;
        }
        Ok(codes)
    }
}
