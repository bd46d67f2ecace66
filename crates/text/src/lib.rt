// Text in lent bytes. Each method puts its bytes from the text's place on, as far as the lent ones reach, and moves the place past
// them, also past the lent bytes' end: so a short slice tells how much room a text needs.
#![tactic(auto)]

mod lines;

ghost use Rattle.std.specs.Prelude.{◌^◌, ◌<◌};

// Lent bytes, and the place of the byte that comes next, of which other crates' proofs know by the ghost field that it fits.
#[derive(Drop)]
pub struct Text<'a> {
    pub bytes: &'a mut [u8],
    pub at: usize,
    pub ghost counted: { at < 2 ^ 64 },
}

impl Text<'_> {
    ghost use Rattle.std.specs.Prelude.{[], ◌∷◌, ◌+◌, ◌*◌, ◌≤◌, length};
    ghost use Rattle.text.specs.Put.{Puts, digits_of, spaced};

    pub fn put_byte(&mut self, b: u8)
        ensures { Puts self.old (b ∷ []) self.new }
    {
        let at = self.at;
        if at < self.bytes.len() {
            self.bytes[at] = b;
        }
        self.at = at.saturating_add(1);
    }

    pub fn put_bytes(&mut self, bytes: &[u8])
        ensures { Puts self.old bytes.now self.new }
    {
        for &b in bytes {
            self.put_byte(b);
        }
    }

    // The digits of x. No number has more than 20.
    pub fn put_number(&mut self, x: u64)
        ensures puts { Puts self.old (digits_of x) self.new }
        ensures short { self.new.at ≤ self.old.at + 20 }
    {
        if 10 <= x {
            self.put_number(x / 10);
        }
        self.put_byte(b'0' + (x % 10) as u8);
    }

    // Each number after a space.
    pub fn put_spaced(&mut self, numbers: &[u64])
        ensures puts { Puts self.old (spaced numbers.now) self.new }
        ensures short { self.new.at ≤ self.old.at + 21 * length numbers.now }
    {
        for &x in numbers {
            self.put_byte(b' ');
            self.put_number(x);
        }
    }
}
