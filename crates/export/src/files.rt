// Bytes of a plan into lent memory.
ghost use Rattle.std.specs.Prelude.{◌≡◌};
ghost use Rattle.export.specs.Files.{to_front};

// A part to the front of lent bytes, where they are enough.
#[tactic(auto, unfolding(crate::specs::Files::to_front))]
pub(crate) fn to_front(part: &[u8], lent: &mut [u8])
    ensures { lent.new ≡ to_front part.now lent.old }
{
    let n = part.len();
    if n <= lent.len() {
        lent[..n].copy_from_slice(part);
    }
}
