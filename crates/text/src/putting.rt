// Text put into a lent slice. Printing here cannot fail, so it is not by `write!`: that one answers a Result, and what
// it promises is said for its Ok alone.
ghost use Rattle.std.specs.Prelude.{◌++◌, ◌+◌, ◌≤◌, ◌<◌, length};
ghost use Rattle.text.specs.Text as texts;
ghost use Rattle.text.specs.inner.Writing.{Prints};

// A lent slice, and the place from which the next text is put.
#[derive(Drop)]
pub struct Text<'a> {
    pub out: &'a mut [u8],
    pub at: usize,
}

impl<'a> Text<'a> {
    // A word.
    pub fn put(&mut self, word: &[u8])
        requires { self.old.at + length word.now ≤ length self.old.out.now }
        ensures { Prints word.now self.old self.new }
    {
        let end = self.at + word.len();
        self.out[self.at..end].copy_from_slice(word);
        self.at = end;
    }

    // n in decimal.
    pub fn decimal(&mut self, n: u64)
        requires { self.old.at + length (texts.decimal n) ≤ length self.old.out.now }
        ensures { Prints (texts.decimal n) self.old self.new }
    {
        if 10 <= n {
            self.decimal(n / 10);
        }
        self.put(&[48 + (n % 10) as u8]);
    }

    // z in decimal, with a minus sign if it is below 0.
    pub fn signed(&mut self, z: i64)
        requires { self.old.at + length (texts.signed_decimal z) ≤ length self.old.out.now }
        ensures { Prints (texts.signed_decimal z) self.old self.new }
    {
        if z < 0 {
            self.put(b"-");
        }
        self.decimal(z.unsigned_abs());
    }

    // A word and a number after it.
    pub fn labelled(&mut self, word: &[u8], n: u64)
        requires { self.old.at + (length word.now + 20) ≤ length self.old.out.now }
        ensures printed { Prints (word.now ++ texts.decimal n) self.old self.new }
        ensures upper_bound { self.new.at ≤ self.old.at + (length word.now + 20) }
    {
        self.put(word);
        self.decimal(n);
    }

    pub fn labelled_signed(&mut self, word: &[u8], z: i32)
        requires { self.old.at + (length word.now + 11) ≤ length self.old.out.now }
        ensures printed { Prints (word.now ++ texts.signed_decimal z) self.old self.new }
        ensures upper_bound { self.new.at ≤ self.old.at + (length word.now + 11) }
    {
        self.put(word);
        self.signed(i64::from(z));
    }
}
