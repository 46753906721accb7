// The store: a cache of keys and values in lent buffers, with the record that says what it holds. The Rust's `KvStore`.
#![tactic(auto)]

ghost use Rattle.std.specs.Prelude.{◌≡◌, ◌++◌, true, ◌<◌, length};
ghost use Rattle.replies.specs.Reply.{reply_number};
ghost use Rattle.replies.specs.Outcome.{lowest, answered};
ghost use Rattle.shapes.specs.Shape.{within};
ghost use Rattle.shapes.specs.Buffers.{buffers};
ghost use Rattle.store.specs.Record.{length_of, most_of, good_lengths, new_record_of, with_length_of, position_bytes_of, byte_count};
ghost use Rattle.store.specs.Calls.{no_shape, store, opened, counted, record_refusals, lent_refusals};
ghost use Rattle.store.specs.Calls.{append_refusals, remove_refusals, read_refusals, sequence_refusal};
ghost use Rattle.store.specs.Calls.{open_of, append_of, truncate_of, advance_of, cached_len_of, memory_bytes_of, read_of};

use buffers::{append_rows, clear_all, remove_rows};
use decode::get_row;
use places::span_of;
use replies::{Refusal, require};
use shapes::{Shape, cell_bytes, is_within, room_reply, scale_words};

// A shape, the positions of each layer, and the sequence number that the host counts.
#[derive(Clone, Copy)]
pub struct Record {
    pub shape: Shape,
    pub lens: [u32; 128],
    pub seq_len: u32,
}

impl Record {
    // Makes an empty store in buffers of exactly the shape's need.
    pub fn open(shape: Shape, cells: &mut [u8], scales: &mut [u32]) -> Result<Record, Refusal>
        ensures { opened result (buffers cells.new scales.new) ≡ open_of shape (buffers cells.old scales.old) }
    {
        room_reply(shape, cells.len(), scales.len())?;
        clear_all(cells, scales);
        Ok(Record::new(shape))
    }

    // The record where no store is open: no layers.
    pub fn not_open() -> Record
        ensures { result ≡ new_record_of no_shape }
    {
        Record::new(Shape {
            format: 0,
            layers: 0,
            heads: 0,
            head_size: 0,
            capacity: 0,
        })
    }

    fn new(shape: Shape) -> Record
        ensures { result ≡ new_record_of shape }
    {
        Record {
            shape,
            lens: [0; 128],
            seq_len: 0,
        }
    }

    // Appends keys and values of n positions to a layer. The Rust's `append`.
    pub fn append(
        &mut self,
        cells: &mut [u8],
        scales: &mut [u32],
        layer: u32,
        keys: &[u32],
        values: &[u32],
    ) -> Result<(), Refusal>
        ensures { answered result (store self.new (buffers cells.new scales.new))
            ≡ append_of self.old (buffers cells.old scales.old) layer keys.now values.now }
    {
        self.append_reply(layer, keys, values, cells.len(), scales.len())?;
        let len = self.length_of(layer);
        let n = keys.len() / (self.shape.heads as usize * self.shape.head_size as usize);
        append_rows(self.shape, layer, len, keys, values, cells, scales);
        self.set_length(layer, len + n as u32);
        Ok(())
    }

    // Keeps the first `t` positions of a layer. The Rust's `truncate_to`.
    pub fn truncate_to(
        &mut self,
        cells: &mut [u8],
        scales: &mut [u32],
        layer: u32,
        t: u32,
    ) -> Result<(), Refusal>
        ensures { answered result (store self.new (buffers cells.new scales.new))
            ≡ truncate_of self.old (buffers cells.old scales.old) layer t }
    {
        self.truncate_reply(layer, cells.len(), scales.len())?;
        let len = self.length_of(layer);
        remove_rows(self.shape, layer, len, t, cells, scales);
        self.set_length(layer, len.min(t));
        Ok(())
    }

    // Adds to the sequence number. The Rust's `advance_seq_len`.
    pub fn advance_seq_len(&mut self, count: u32) -> Result<(), Refusal>
        ensures { answered result self.new ≡ advance_of self.old count }
    {
        self.advance_reply(count)?;
        self.seq_len += count;
        Ok(())
    }

    // The positions of a layer. The Rust's `cached_len`.
    pub fn cached_len(&self, layer: u32) -> Result<u64, Refusal>
        ensures { counted result ≡ cached_len_of self.now layer }
    {
        self.layer_reply(layer)?;
        Ok(u64::from(self.length_of(layer)))
    }

    // The bytes of all rows, scale words too. The Rust's `memory_bytes`.
    pub fn memory_bytes(&self) -> Result<u64, Refusal>
        ensures { counted result ≡ memory_bytes_of self.now }
    {
        self.reply()?;
        Ok(self.bytes_of_layers())
    }

    // Reads one position of a side and head as numbers.
    pub fn read_row(
        &self,
        cells: &[u8],
        scales: &[u32],
        layer: u32,
        side: u32,
        head: u32,
        position: u32,
        out: &mut [u32],
    ) -> Result<(), Refusal>
        ensures { answered result out.new
            ≡ read_of self.now (buffers cells.now scales.now) layer side head position out.old }
    {
        self.read_reply(
            layer,
            side,
            head,
            position,
            out.len(),
            cells.len(),
            scales.len(),
        )?;
        let span = span_of(self.shape, layer, side, head, position as usize, 1);
        get_row(
            self.shape.format,
            &cells[span.cells_from..span.cells_to],
            &scales[span.scales_from..span.scales_to],
            out,
        );
        Ok(())
    }

    // The lowest refusal of a record and of the lengths of its buffers.
    pub fn store_reply(&self, cells: usize, scales: usize) -> Result<(), Refusal>
        ensures { reply_number result ≡ lowest (lent_refusals self.now cells scales) }
    {
        room_reply(self.shape, cells, scales)?;
        require(self.has_good_lengths(), Refusal::Lengths)
    }

    // Of a record alone.
    fn reply(&self) -> Result<(), Refusal>
        ensures { reply_number result ≡ lowest (record_refusals self.now) }
    {
        require(is_within(self.shape), Refusal::Shape)?;
        require(self.has_good_lengths(), Refusal::Lengths)
    }

    fn layer_reply(&self, layer: u32) -> Result<(), Refusal>
        ensures { reply_number result ≡ lowest (record_refusals self.now ++ remove_refusals self.now.shape layer) }
    {
        self.reply()?;
        require(layer < self.shape.layers, Refusal::Layer)
    }

    fn append_reply(
        &self,
        layer: u32,
        keys: &[u32],
        values: &[u32],
        cells: usize,
        scales: usize,
    ) -> Result<(), Refusal>
        ensures { reply_number result
            ≡ lowest
            (lent_refusals self.now cells scales
            ++ append_refusals self.now.shape layer (length_of self.now layer) (length keys.now) (length values.now)) }
    {
        self.store_reply(cells, scales)?;
        require(layer < self.shape.layers, Refusal::Layer)?;
        let width = self.shape.heads as usize * self.shape.head_size as usize;
        let whole = (keys.len() % width == 0) & (values.len() == keys.len());
        require(whole, Refusal::Size)?;
        let after = self.length_of(layer) as usize + keys.len() / width;
        require(after <= self.shape.capacity as usize, Refusal::Full)
    }

    fn truncate_reply(&self, layer: u32, cells: usize, scales: usize) -> Result<(), Refusal>
        ensures { reply_number result ≡ lowest (lent_refusals self.now cells scales ++ remove_refusals self.now.shape layer) }
    {
        self.store_reply(cells, scales)?;
        require(layer < self.shape.layers, Refusal::Layer)
    }

    fn advance_reply(&self, count: u32) -> Result<(), Refusal>
        ensures { reply_number result ≡ lowest (record_refusals self.now ++ sequence_refusal self.now count) }
    {
        self.reply()?;
        require(count <= u32::MAX - self.seq_len, Refusal::Sequence)
    }

    fn read_reply(
        &self,
        layer: u32,
        side: u32,
        head: u32,
        position: u32,
        out: usize,
        cells: usize,
        scales: usize,
    ) -> Result<(), Refusal>
        ensures { reply_number result
            ≡ lowest
            (lent_refusals self.now cells scales ++ read_refusals self.now.shape layer (length_of self.now layer) side head position out) }
    {
        self.store_reply(cells, scales)?;
        require(layer < self.shape.layers, Refusal::Layer)?;
        require((head < self.shape.heads) & (side < 2), Refusal::Head)?;
        require(out == self.shape.head_size as usize, Refusal::Size)?;
        require(position < self.length_of(layer), Refusal::Position)
    }

    // Whether each length is at most the capacity, and 0 past the layers.
    fn has_good_lengths(&self) -> bool
        ensures { result ≡ good_lengths self.now }
    {
        self.lens
            .iter()
            .enumerate()
            .all(|(l, len)| *len <= most_of(self.shape, l))
    }

    // The positions of a layer; 0 past the array.
    pub fn length_of(&self, layer: u32) -> u32
        ensures { result ≡ length_of self.now layer }
    {
        if layer < 128 {
            self.lens[layer as usize]
        } else {
            0
        }
    }

    fn set_length(&mut self, layer: u32, n: u32)
        requires { layer < 128 }
        ensures { self.new ≡ with_length_of self.old layer n }
    {
        self.lens[layer as usize] = n;
    }

    fn bytes_of_layers(&self) -> u64
        requires { lowest (record_refusals self.now) ≡ 0 }
        ensures { result ≡ byte_count self.now }
    {
        let each = position_bytes(self.shape);
        let mut sum = 0;
        for len in &self.lens[..self.shape.layers as usize] {
            sum += u64::from(*len) * each;
        }
        sum
    }
}

// The most positions that layer `l` may have.
fn most_of(shape: Shape, l: usize) -> u32
    ensures { result ≡ most_of shape l }
{
    if l < shape.layers as usize {
        shape.capacity
    } else {
        0
    }
}

// The bytes of one position in all heads and both sides.
fn position_bytes(shape: Shape) -> u64
    requires { within shape ≡ true }
    ensures { result ≡ position_bytes_of shape }
{
    let row = cell_bytes(shape.format, shape.head_size)
        + 4 * scale_words(shape.format, shape.head_size);
    2 * shape.heads as u64 * row as u64
}
