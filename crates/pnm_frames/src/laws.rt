// A law of the definitions: a call of this function, which does nothing, gives the caller its
// clauses.
ghost use Rattle.std.specs.Prelude.{ℕ, ◌≡◌, ◌↔◌, ◌∷◌, ◌++◌, List, Ok, Err, length};
ghost use Rattle.pnm_frames.specs.declared.fault.FrameFault.{FrameFault};
ghost use Rattle.pnm_frames.specs.declared.fault.FrameFault.TheVariants.{Truncated};
ghost use Rattle.pnm_frames.specs.FirstFault.{Foretells};
ghost use Rattle.pnm_frames.specs.HasFault.{HasAllSamples, HasFault};
ghost use Rattle.pnm_frames.specs.Picture.{Picture};
ghost use Rattle.pnm_frames.specs.Reading.{frame_of};
ghost use Rattle.pnm_frames.specs.declared.limits.SizeLimits.{SizeLimits};

/// A file is refused by its first fault, found at the byte that shows it, whatever the limits.
///
/// Which files have a fault is said in the words of the grammar, by their bytes up to the one that
/// shows it (`HasFault` in specs/HasFault.antt, a case a fault), and `frame_of` gives the fault
/// exactly there. So a file has one fault at most, and it has none exactly where it is a header
/// within the limits with all its samples. Hence its fault is that of every longer file that begins
/// with it, save that Truncated says how many bytes the file has. A file that spells a picture has
/// nothing after it, and each of its proper prefixes is Truncated.
pub fn first_fault()
    ensures stands { (limits : SizeLimits) (bytes more : List ℕ) →
        Foretells (length bytes) more (frame_of limits bytes) (frame_of limits (bytes ++ more)) }
    ensures prefixes { (limits : SizeLimits) (bytes : List ℕ) (b : ℕ) (more : List ℕ) (p : Picture) →
        frame_of limits (bytes ++ b ∷ more) ≡ Ok p →
        frame_of limits bytes ≡ Err (Truncated (length bytes)) }
    ensures ends { (limits : SizeLimits) (bytes : List ℕ) (fault : FrameFault) →
        frame_of limits bytes ≡ Err fault ↔ HasFault limits bytes fault }
    ensures frames { (limits : SizeLimits) (bytes : List ℕ) →
        ((p : Picture) × (frame_of limits bytes ≡ Ok p)) ↔ HasAllSamples limits bytes }
{}
