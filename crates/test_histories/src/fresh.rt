// The store against a fresh one.
use crate::show;
use crate::stores::Store;
use std::io;

// The most layers that are followed.
const MOST_LAYERS: usize = 8;

// The most numbers of a side in one.
const MOST_KEPT: usize = 512;

// A layer's keys and values of accepted calls that no later one removed: the first of each side.
#[derive(Clone, Copy)]
struct Layer {
    keys: [u32; MOST_KEPT],
    values: [u32; MOST_KEPT],
    count: usize,
}

impl Layer {
    fn keys(&self) -> &[u32] {
        &self.keys[..self.count.min(MOST_KEPT)]
    }

    fn values(&self) -> &[u32] {
        &self.values[..self.count.min(MOST_KEPT)]
    }
}

#[derive(Clone, Copy)]
pub(crate) struct Survivors {
    layers: [Layer; MOST_LAYERS],
}

impl Survivors {
    // Those of an empty store.
    pub(crate) fn new() -> Self {
        Survivors {
            layers: [Layer {
                keys: [0; MOST_KEPT],
                values: [0; MOST_KEPT],
                count: 0,
            }; MOST_LAYERS],
        }
    }

    pub(crate) fn clear(&mut self) {
        for layer in &mut self.layers {
            layer.count = 0;
        }
    }

    // Puts `count` keys and as many values after those of a layer, 0 for each that is not given; false where they do not fit.
    pub(crate) fn append(
        &mut self,
        layer: u32,
        count: usize,
        keys: &[u32],
        values: &[u32],
    ) -> bool {
        let Some(layer) = self.layers.get_mut(layer as usize) else {
            return false;
        };
        let from = layer.count;
        let to = from.saturating_add(count);
        if MOST_KEPT < to {
            return false;
        }
        put(keys, &mut layer.keys[from..to]);
        put(values, &mut layer.values[from..to]);
        layer.count = to;
        true
    }

    // Leaves at most `kept` numbers a side in a layer.
    pub(crate) fn truncate(&mut self, layer: u32, kept: usize) {
        if let Some(layer) = self.layers.get_mut(layer as usize) {
            layer.count = layer.count.min(kept);
        }
    }
}

fn put(numbers: &[u32], side: &mut [u32]) {
    for (k, x) in side.iter_mut().enumerate() {
        *x = numbers.get(k).copied().unwrap_or(0);
    }
}

// The store against a fresh one of its shape, in as much other memory, that got the survivors of each layer in one call.
pub(crate) fn compare(rt: &impl Print, store: &Store, survivors: &Survivors) -> io::Result<()> {
    let mut fresh = Store::new(0x5A);
    fresh.cells.lend(store.cells.lent().len());
    fresh.scales.lend(store.scales.lent().len());
    rt.write_all(b"fresh replies")?;
    fill(rt, &mut fresh, store, survivors)?;
    rt.write_all(difference(store, &fresh))
}

// Opens the fresh store, appends to it, and tells each reply.
fn fill(
    rt: &impl Print,
    fresh: &mut Store,
    store: &Store,
    survivors: &Survivors,
) -> io::Result<()> {
    let shape = store.shape();
    show::decimal(rt, fresh.open(shape))?;
    for (k, layer) in (0..shape.layers).zip(&survivors.layers) {
        show::decimal(rt, fresh.append(k, layer.keys(), layer.values()))?;
    }
    Ok(())
}

// The first thing that differs.
fn difference(store: &Store, fresh: &Store) -> &'static [u8] {
    if &store.record[6..] != &fresh.record[6..] {
        b" lengths differ\n"
    } else if store.cells.lent() != fresh.cells.lent() {
        b" cells differ\n"
    } else if store.scales.lent() != fresh.scales.lent() {
        b" scales differ\n"
    } else {
        b" same\n"
    }
}
