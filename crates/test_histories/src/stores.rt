// A store on the boundary: its record, and the memory that it is lent.
use crate::calls::Shape;

// Memory, of which the front is lent.
#[derive(Drop)]
pub(crate) struct Buffer<T, const N: usize> {
    pub memory: [T; N],
    lent: usize,
}

impl<T: Copy, const N: usize> Buffer<T, N> {
    // Full of what was there before, and not lent.
    pub(crate) fn new(used: T) -> Self {
        Buffer {
            memory: [used; N],
            lent: 0,
        }
    }

    // Lends the first `len` places, or all where there are no more.
    pub(crate) fn lend(&mut self, len: usize) {
        self.lent = len;
    }

    pub(crate) fn lent(&self) -> &[T] {
        let n = self.lent.min(self.memory.len());
        &self.memory[..n]
    }

    pub(crate) fn lent_mut(&mut self) -> &mut [T] {
        let n = self.lent.min(self.memory.len());
        &mut self.memory[..n]
    }
}

// Changes a place, where it is there, lent or not.
pub(crate) fn damage<T: Copy>(memory: &mut [T], at: usize, with: T) {
    if let Some(x) = memory.get_mut(at) {
        *x = with;
    }
}

#[derive(Drop)]
pub(crate) struct Store {
    pub cells: Buffer<u8, 2048>,
    pub scales: Buffer<u32, 256>,
    pub record: [u32; 134],
}

impl Store {
    // A record of zeros over memory that is full of `used` bytes.
    pub(crate) fn new(used: u8) -> Self {
        Store {
            cells: Buffer::new(used),
            scales: Buffer::new(u32::from_ne_bytes([used; 4])),
            record: [0; 134],
        }
    }

    pub(crate) fn shape(&self) -> Shape {
        let [format, layers, heads, head_size, capacity, ..] = self.record;
        Shape {
            format,
            layers,
            heads,
            head_size,
            capacity,
        }
    }

    pub(crate) fn open(&mut self, shape: Shape) -> u32 {
        let cells = self.cells.lent_mut();
        let scales = self.scales.lent_mut();
        host::kv_open(
            &mut self.record,
            shape.format,
            shape.layers,
            shape.heads,
            shape.head_size,
            shape.capacity,
            cells,
            scales,
        )
    }

    pub(crate) fn append(&mut self, layer: u32, keys: &[u32], values: &[u32]) -> u32 {
        let cells = self.cells.lent_mut();
        let scales = self.scales.lent_mut();
        host::kv_append(&mut self.record, cells, scales, layer, keys, values)
    }

    pub(crate) fn truncate(&mut self, layer: u32, positions: u32) -> u32 {
        let cells = self.cells.lent_mut();
        let scales = self.scales.lent_mut();
        host::kv_truncate(&mut self.record, cells, scales, layer, positions)
    }

    pub(crate) fn advance(&mut self, count: u32) -> u32 {
        host::kv_advance(&mut self.record, count)
    }

    pub(crate) fn read_row(
        &self,
        layer: u32,
        side: u32,
        head: u32,
        position: u32,
        out: &mut [u32],
    ) -> u32 {
        let cells = self.cells.lent();
        let scales = self.scales.lent();
        host::kv_read_row(
            &self.record,
            cells,
            scales,
            layer,
            side,
            head,
            position,
            out,
        )
    }

    pub(crate) fn scores(
        &self,
        layer: u32,
        head: u32,
        query: &[f32],
        scale: f32,
        out: &mut [u32],
    ) -> u32 {
        let cells = self.cells.lent();
        let scales = self.scales.lent();
        host::kv_scores(&self.record, cells, scales, layer, head, query, scale, out)
    }

    pub(crate) fn sums(&self, layer: u32, head: u32, weights: &[f32], out: &mut [u32]) -> u32 {
        let cells = self.cells.lent();
        let scales = self.scales.lent();
        host::kv_sums(&self.record, cells, scales, layer, head, weights, out)
    }
}
