// Runs of words in hex, as lines of text.

// The most words of a run.
const MOST: usize = 64;

// A run's words, which stand at the front.
#[derive(Clone, Copy)]
pub(crate) struct Run {
    space: [u32; MOST],
    count: usize,
}

impl Run {
    pub(crate) fn words(&self) -> &[u32] {
        &self.space[..self.count.min(MOST)]
    }

    // A word more; None where there are as many as a run may have.
    fn push(&mut self, word: u32) -> Option<()> {
        *self.space.get_mut(self.count)? = word;
        self.count += 1;
        Some(())
    }
}

// The run of a line: a space between two words, and a line feed after the last. None for a line that is no run.
pub(crate) fn run_of(line: &[u8]) -> Option<Run> {
    let line = line.strip_suffix(b"\n")?;
    let mut run = Run {
        space: [0; MOST],
        count: 0,
    };
    if line.is_empty() {
        return Some(run);
    }
    for digits in line.split(|b| *b == b' ') {
        run.push(word_of(digits)?)?;
    }
    Some(run)
}

// The word of 8 digits.
fn word_of(digits: &[u8]) -> Option<u32> {
    if digits.len() == 8 {
        u32::try_from(test_lines::hex_at(digits, 0)).ok()
    } else {
        None
    }
}
