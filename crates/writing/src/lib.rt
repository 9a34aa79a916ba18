// Bytes and words, printed to a lent buffer: of the text as much as there is room for.
#![tactic(auto)]

ghost use Rattle.std.specs.Prelude.{◌≡◌, ◌∷◌, [], ◌+◌, ◌≤◌, ◌<◌, ◌^◌, length};
ghost use Rattle.writing.specs.Laid.{Written};
ghost use Rattle.writing.specs.Printed.{Printed};

// Kept: how far on the place may be, each function that prints asks for its own text.
// Where printing stands: a lent buffer, and the place in it. The place goes on past the buffer's end.
#[derive(Drop)]
pub struct Pen<'a> {
    pub out: &'a mut [u8],
    pub at: usize,
}

impl<'a> Pen<'a> {
    // At the start of `out`.
    pub fn new(out: &'a mut [u8]) -> Pen<'a>
        ensures same_buffer { result.out.ghost_name ≡ out.entry.ghost_name }
        ensures start { result.at ≡ 0 }
        ensures bytes { result.out.now ≡ out.old }
    {
        Pen { out, at: 0 }
    }

    // One byte.
    pub fn put(&mut self, b: u8)
        requires { self.old.at < 2 ^ 32 }
        ensures { Printed (b ∷ []) self.old self.new }
    {
        self.at = put(self.out, self.at, b);
    }

    // The bytes of `word`.
    pub fn word(&mut self, word: &[u8])
        requires { self.old.at + length word.now ≤ 2 ^ 32 }
        ensures { Printed word.now self.old self.new }
    {
        self.at = put_word(self.out, self.at, word);
    }
}

// One byte, at a place that is handed over, and the place behind it.
// Kept beside the pen: what goes through bytes has the place by value, in a register, where through the pen each byte waits for the place
// that the one before it stored. The pen takes the place back behind a word or a number.
pub fn put(out: &mut [u8], at: usize, b: u8) -> usize
    requires { at < 2 ^ 32 }
    ensures { Written (b ∷ []) at out.old result out.new }
{
    if at < out.len() {
        out[at] = b;
        return at + 1;
    }
    at + 1
}

// The bytes of `word`, and the place behind them.
pub fn put_word(out: &mut [u8], at: usize, word: &[u8]) -> usize
    requires { at + length word.now ≤ 2 ^ 32 }
    ensures { Written word.now at out.old result out.new }
{
    let mut end = at;
    for b in word {
        end = put(out, end, *b);
    }
    end
}
