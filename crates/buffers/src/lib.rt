// Putting bytes into a lent buffer: a writer, which has the buffer and the place up to which it is written; and the laws of putting bytes
// one after another, in specs/ and proofs/.
#![tactic(auto)]

ghost use Rattle.std.specs.Prelude.{◌≡◌, [], ◌∷◌};
ghost use Rattle.buffers.specs.Writing.{Puts, HasRoom};

// A lent buffer, and the place where the next byte goes.
#[derive(Drop)]
pub struct Writer<'a> {
    pub buffer: &'a mut [u8],
    pub at: usize,
}

impl<'a> Writer<'a> {
    // Begins at the buffer's front.
    pub fn new(buffer: &'a mut [u8]) -> Writer<'a>
        ensures same { result.buffer.ghost_name ≡ buffer.entry.ghost_name }
        ensures as_lent { result.buffer.now ≡ buffer.old }
        ensures front { result.at ≡ 0 }
    {
        Writer { buffer, at: 0 }
    }

    // Puts a byte. Open for the crates above, which show that there is room.
    pub fn put(&mut self, byte: u8)
        requires { HasRoom self.old 1 }
        ensures { Puts self.old (byte ∷ []) self.new }
    {
        self.buffer[self.at] = byte;
        self.at += 1;
    }
}
