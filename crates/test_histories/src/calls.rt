// What a line says.
ghost use Rattle.std.specs.Prelude.{◌≤◌, length};

// The most numbers that a line gives to a call.
pub(crate) const MOST_GIVEN: usize = 256;

// A line as words: 8 digits each, a byte between two; 0 for what is no word, and past the end.
#[derive(Clone, Copy)]
pub(crate) struct Words<'a> {
    line: &'a [u8],
}

impl<'a> Words<'a> {
    pub(crate) fn of(line: &'a [u8]) -> Self {
        Words { line }
    }

    fn get(self, k: usize) -> u32 {
        u32::try_from(test_lines::hex_at(self.line, k.saturating_mul(9))).unwrap_or(0)
    }

    // Those from word `k` on.
    fn after(self, k: usize) -> Self {
        Words {
            line: self.line.get(k.saturating_mul(9)..).unwrap_or(&[]),
        }
    }

    // Puts what they stand for to the front of a space, as many as there is room for, and answers how many these are.
    pub(crate) fn read<T: Copy, F: Fn(u32) -> T>(self, space: &mut [T], stands_for: F) -> usize
        requires { F.IsAlwaysCallable stands_for }
        ensures { result ≤ length space.new }
    {
        let n = (self.line.len().saturating_add(1) / 9).min(space.len());
        for (k, x) in space[..n].iter_mut().enumerate() {
            *x = stands_for(self.get(k));
        }
        n
    }
}

// The words that a store's shape has on the boundary.
#[derive(Clone, Copy)]
pub(crate) struct Shape {
    pub format: u32,
    pub layers: u32,
    pub heads: u32,
    pub head_size: u32,
    pub capacity: u32,
}

// A call, or what is done to the memory behind the store's back.
#[derive(Clone, Copy)]
pub(crate) enum Call<'a> {
    Open(Shape),
    // Of the numbers `count` are keys, and the others values.
    Append {
        layer: u32,
        count: usize,
        numbers: Words<'a>,
    },
    Truncate {
        layer: u32,
        positions: u32,
    },
    Advance {
        count: u32,
    },
    CachedLen {
        layer: u32,
    },
    MemoryBytes,
    ReadRow {
        layer: u32,
        side: u32,
        head: u32,
        position: u32,
        places: usize,
    },
    Lend {
        cells: usize,
        scales: usize,
    },
    DamageRecord {
        at: usize,
        word: u32,
    },
    DamageCell {
        at: usize,
        byte: u8,
    },
    DamageScale {
        at: usize,
        word: u32,
    },
    Scores {
        layer: u32,
        head: u32,
        scale: u32,
        places: usize,
        query: Words<'a>,
    },
    Sums {
        layer: u32,
        head: u32,
        places: usize,
        weights: Words<'a>,
    },
    // Holds the store to a fresh one.
    Compare,
}

// Every word past a line's end is 0, and every kind that no other call has is an advance.
impl<'a> From<Words<'a>> for Call<'a> {
    fn from(words: Words<'a>) -> Self {
        let word = |k: usize| words.get(k);
        let place = |k: usize| word(k) as usize;
        match word(0) {
            1 => Call::Open(Shape {
                format: word(1),
                layers: word(2),
                heads: word(3),
                head_size: word(4),
                capacity: word(5),
            }),
            2 => Call::Append {
                layer: word(1),
                count: place(2),
                numbers: words.after(3),
            },
            3 => Call::Truncate {
                layer: word(1),
                positions: word(2),
            },
            5 => Call::CachedLen { layer: word(1) },
            6 => Call::MemoryBytes,
            7 => Call::ReadRow {
                layer: word(1),
                side: word(2),
                head: word(3),
                position: word(4),
                places: place(5),
            },
            8 => Call::Lend {
                cells: place(1),
                scales: place(2),
            },
            9 => Call::DamageRecord {
                at: place(1),
                word: word(2),
            },
            10 => Call::DamageCell {
                at: place(1),
                byte: (word(2) % 256) as u8,
            },
            11 => Call::DamageScale {
                at: place(1),
                word: word(2),
            },
            12 => Call::Scores {
                layer: word(1),
                head: word(2),
                scale: word(3),
                places: place(4),
                query: words.after(5),
            },
            13 => Call::Sums {
                layer: word(1),
                head: word(2),
                places: place(3),
                weights: words.after(4),
            },
            14 => Call::Compare,
            _ => Call::Advance { count: word(1) },
        }
    }
}
