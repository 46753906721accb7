// The record as 134 words.
ghost use Rattle.std.specs.Prelude.{◌≡◌};
ghost use Rattle.host.specs.Words.{record_from, record_words};

use shapes::Shape;
use store::Record;

pub(crate) fn record_of(words: &[u32; 134]) -> Record
    ensures { result ≡ record_from words.now }
{
    let mut lens = [0; 128];
    lens.copy_from_slice(&words[6..]);
    Record {
        shape: Shape {
            format: words[0],
            layers: words[1],
            heads: words[2],
            head_size: words[3],
            capacity: words[4],
        },
        lens,
        seq_len: words[5],
    }
}

pub(crate) fn words_of(record: &Record) -> [u32; 134]
    ensures { result ≡ record_words «record».now }
{
    let mut words = [0; 134];
    words[0] = record.shape.format;
    words[1] = record.shape.layers;
    words[2] = record.shape.heads;
    words[3] = record.shape.head_size;
    words[4] = record.shape.capacity;
    words[5] = record.seq_len;
    words[6..].copy_from_slice(&record.lens);
    words
}
