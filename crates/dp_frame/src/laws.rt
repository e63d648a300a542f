//! Laws of frames: each list of bytes is frames and a rest in exactly one way. Each function does
//! nothing: its contract is the law.
//!
//! The rule: docs/protocol.md, "Frames".

ghost use Rattle.std.specs.Prelude.{◌≡◌, ℕ, ◌<◌, List, [], ◌∷◌, ◌++◌};
ghost use Rattle.std.specs.List.{All};
ghost use Rattle.dp_frame.specs.Frames.{FrameParts, IsFrame, spelling, HoldsNoFrame, Splits};

/// Two splittings of one list of bytes are one: the same frames, and the same rest.
pub fn one_splitting()
    ensures { (bytes : List ℕ) (frames others : List FrameParts) (rest last : List ℕ)
        → Splits bytes frames rest → Splits bytes others last
        → (frames ≡ others) × (rest ≡ last) }
{}

/// Bytes begin with at most one frame.
pub fn one_first_frame()
    ensures { (f g : FrameParts) (bytes others : List ℕ)
        → IsFrame f → IsFrame g → spelling f ++ bytes ≡ spelling g ++ others
        → (f ≡ g) × (bytes ≡ others) }
{}

/// Each list of bytes has a splitting.
pub fn every_splitting()
    ensures { (bytes : List ℕ) → All (λ byte. byte < 256) bytes
        → (frames : List FrameParts) × (rest : List ℕ) × Splits bytes frames rest }
{}

/// Bytes that hold no frame are their own rest.
pub fn no_frames()
    ensures { (bytes : List ℕ) → HoldsNoFrame bytes → Splits bytes [] bytes }
{}

/// A frame begins the bytes exactly if it is the first of their frames: the bytes after it have
/// the other frames and the same rest.
pub fn first_frame()
    ensures put { (f : FrameParts) (bytes : List ℕ) (frames : List FrameParts) (rest : List ℕ)
        → IsFrame f → Splits bytes frames rest
        → Splits (spelling f ++ bytes) (f ∷ frames) rest }
    ensures taken { (f : FrameParts) (bytes : List ℕ) (frames : List FrameParts) (rest : List ℕ)
        → IsFrame f → Splits (spelling f ++ bytes) frames rest
        → (others : List FrameParts) × (frames ≡ f ∷ others) × Splits bytes others rest }
{}

/// If more bytes come, the frames so far stay, and the rest with those bytes has the frames that
/// come after them.
pub fn further_frames()
    ensures { (bytes more : List ℕ) (frames others : List FrameParts) (rest last : List ℕ)
        → Splits bytes frames rest → Splits (rest ++ more) others last
        → Splits (bytes ++ more) (frames ++ others) last }
{}
