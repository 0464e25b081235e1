// The image's bytes, put one behind the other into lent room: numbers have their lowest byte first.
ghost use Rattle.std.specs.Prelude.{◌≡◌, List, [], ◌∷◌, ℕ, ◌<◌};
ghost use Rattle.whole.specs.Table.{each};
ghost use Rattle.words.specs.Words.{two_bytes, word_bytes};
ghost use Rattle.image.specs.Image.{signed_bytes, section_bytes};
ghost use Rattle.writer.specs.Steps.{Room, Puts, one_byte};

// The lent room, and the place in it behind what is put.
// That it has room stands with each function that puts, and is no fact of this struct, since how much is asked depends on what is put.
#[derive(Drop)]
pub(super) struct Out<'a> {
    pub(super) bytes: &'a mut [u8],
    pub(super) at: usize,
}

// An item of a section, in its bytes.
pub(super) trait Number: Copy {
    ghost bytes: { Self → List ℕ };

    fn put(self, out: &mut Out<'_>)
        requires { Room out.old (bytes self) }
        ensures { Puts out.old (bytes self) out.new };
}

// A byte.
impl Number for u8 {
    ghost bytes = { one_byte };

    fn put(self, out: &mut Out<'_>) {
        out.put_bytes(&[self]);
    }
}

// Four bytes.
impl Number for u32 {
    ghost bytes = { word_bytes };

    fn put(self, out: &mut Out<'_>) {
        out.put_bytes(&self.to_le_bytes());
    }
}

// The four bytes of its bits.
impl Number for i32 {
    ghost bytes = { signed_bytes };

    fn put(self, out: &mut Out<'_>) {
        self.cast_unsigned().put(out);
    }
}

impl Out<'_> {
    // Bytes, as they are.
    pub(super) fn put_bytes(&mut self, bytes: &[u8])
        requires { Room self.old bytes.now }
        ensures { Puts self.old bytes.now self.new }
    {
        let end = self.at + bytes.len();
        self.bytes[self.at..end].copy_from_slice(bytes);
        self.at = end;
    }

    // The two bytes of a count.
    pub(super) fn put_count(&mut self, k: usize)
        requires room { Room self.old (two_bytes k) }
        requires k_bound { k < 65536 }
        ensures { Puts self.old (two_bytes k) self.new }
    {
        // No From leads here from a usize; TryFrom and an unwrap is no plainer.
        self.put_bytes(&(k as u16).to_le_bytes());
    }

    // Numbers one after the other.
    fn put_each<N: Number>(&mut self, numbers: &[N])
        requires { Room self.old (each N.bytes numbers.now) }
        ensures { Puts self.old (each N.bytes numbers.now) self.new }
    {
        for number in numbers {
            number.put(self);
        }
    }

    // A section of numbers: their count k, then each.
    pub(super) fn put_section<N: Number>(&mut self, k: usize, numbers: &[N])
        requires k_bound { k < 65536 }
        requires room { Room self.old (section_bytes k (each N.bytes numbers.now)) }
        ensures { Puts self.old (section_bytes k (each N.bytes numbers.now)) self.new }
    {
        self.put_count(k);
        self.put_each(numbers);
    }
}
