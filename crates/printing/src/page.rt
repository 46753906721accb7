// A buffer that is filled from an offset on.
ghost use Rattle.std.specs.Prelude.{◌++◌, ◌+◌, ◌*◌, ◌≤◌, length};
ghost use Rattle.printing.specs.Put.{Put};
ghost use Rattle.printing.specs.Text.{decimal, spaced};

#[derive(Drop)]
pub(crate) struct Page<'a> {
    pub out: &'a mut [u8],
    // Where the next text goes.
    pub at: usize,
}

impl Page<'_> {
    // Puts a text.
    pub(crate) fn put(&mut self, text: &[u8])
        requires { self.old.at + length text.now ≤ length self.old.out.now }
        ensures { Put text.now self.old self.new }
    {
        let end = self.at + text.len();
        self.out[self.at..end].copy_from_slice(text);
        self.at = end;
    }

    // Puts a number's digits.
    #[tactic(auto, using(crate::proofs::DigitLaws::decimal_one))]
    fn put_number(&mut self, n: u64)
        requires { self.old.at + 20 ≤ length self.old.out.now }
        ensures { Put (decimal n) self.old self.new }
    {
        if n < 10 {
            self.put(&[b'0' + n as u8]);
            return;
        }
        self.put_number(n / 10);
        self.put(&[b'0' + (n % 10) as u8]);
    }

    // Puts a name and a number.
    pub(crate) fn put_named(&mut self, name: &[u8], n: u64)
        requires { self.old.at + length name.now + 20 ≤ length self.old.out.now }
        ensures put { Put (name.now ++ decimal n) self.old self.new }
        ensures upper_bound { self.new.at ≤ self.old.at + length name.now + 20 }
    {
        self.put(name);
        self.put_number(n);
    }

    // Puts a space and a number for each length.
    pub(crate) fn put_lengths(&mut self, lens: &[u32])
        requires { self.old.at + 11 * length lens.now + 20 ≤ length self.old.out.now }
        ensures put { Put (spaced lens.now) self.old self.new }
        ensures upper_bound { self.new.at ≤ self.old.at + 11 * length lens.now }
    {
        for n in lens {
            self.put_named(b" ", u64::from(*n));
        }
    }
}
