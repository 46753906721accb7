// A store with the calls that were made of it.
use crate::calls::{Call, MOST_GIVEN, Words};
use crate::fresh::{self, Survivors};
use crate::show;
use crate::stores::{Store, damage};
use numbers::words::word_to_f32;
use std::io;

// What an output holds before a call.
const UNWRITTEN: u32 = 0xFF80_DEAD;

// The most places of an output.
const MOST_PLACES: usize = 256;

#[derive(Drop)]
pub(crate) struct History {
    store: Store,
    // None once some did not fit.
    survivors: Option<Survivors>,
}

impl History {
    pub(crate) fn new() -> Self {
        History {
            store: Store::new(0xA5),
            survivors: Some(Survivors::new()),
        }
    }

    // Does what a line says, and tells what a call answers and leaves.
    pub(crate) fn play(&mut self, rt: &impl Print, call: Call) -> io::Result<()> {
        match call {
            Call::Open(shape) => {
                let reply = self.store.open(shape);
                if reply == 0 {
                    self.forget();
                }
                self.tell(rt, reply)
            }
            Call::Append {
                layer,
                count,
                numbers,
            } => {
                let reply = self.append(layer, count, numbers);
                self.tell(rt, reply)
            }
            Call::Truncate { layer, positions } => {
                let reply = self.store.truncate(layer, positions);
                if reply == 0 {
                    self.cut(layer, positions);
                }
                self.tell(rt, reply)
            }
            Call::Advance { count } => {
                let reply = self.store.advance(count);
                self.tell(rt, reply)
            }
            Call::CachedLen { layer } => {
                let mut count = 0;
                let reply = host::kv_cached_len(&self.store.record, layer, &mut count);
                show::count(rt, reply, count)
            }
            Call::MemoryBytes => {
                let mut count = 0;
                let reply = host::kv_memory_bytes(&self.store.record, &mut count);
                show::count(rt, reply, count)
            }
            Call::ReadRow {
                layer,
                side,
                head,
                position,
                places,
            } => {
                tell_output(rt, places, |out| {
                    self.store.read_row(layer, side, head, position, out)
                })
            }
            Call::Scores {
                layer,
                head,
                scale,
                places,
                query,
            } => self.scores(rt, layer, head, scale, places, query),
            Call::Sums {
                layer,
                head,
                places,
                weights,
            } => self.sums(rt, layer, head, places, weights),
            Call::Lend { cells, scales } => {
                self.store.cells.lend(cells);
                self.store.scales.lend(scales);
                Ok(())
            }
            Call::DamageRecord { at, word } => {
                damage(&mut self.store.record, at, word);
                Ok(())
            }
            Call::DamageCell { at, byte } => {
                damage(&mut self.store.cells.memory, at, byte);
                Ok(())
            }
            Call::DamageScale { at, word } => {
                damage(&mut self.store.scales.memory, at, word);
                Ok(())
            }
            Call::Compare => match &self.survivors {
                Some(survivors) => fresh::compare(rt, &self.store, survivors),
                None => rt.write_all(b"fresh too large\n"),
            },
        }
    }

    // What a call that may change the store answers and leaves.
    fn tell(&self, rt: &impl Print, reply: u32) -> io::Result<()> {
        println!(rt; "reply {reply}")?;
        show::store(rt, &self.store)
    }

    // Appends the numbers of a line, of which the first `count` are keys.
    fn append(&mut self, layer: u32, count: usize, numbers: Words) -> u32 {
        let mut space = [0; MOST_GIVEN];
        let n = numbers.read(&mut space, |word| word);
        let (keys, values) = space[..n].split_at(count.min(n));
        let reply = self.store.append(layer, keys, values);
        if reply == 0 {
            self.keep(layer, count, keys, values);
        }
        reply
    }

    fn scores(
        &self,
        rt: &impl Print,
        layer: u32,
        head: u32,
        scale: u32,
        places: usize,
        query: Words,
    ) -> io::Result<()> {
        let mut space = [0.0; MOST_GIVEN];
        let n = query.read(&mut space, |word| word_to_f32(word));
        let scale = word_to_f32(scale);
        tell_output(rt, places, |out| {
            self.store.scores(layer, head, &space[..n], scale, out)
        })
    }

    fn sums(
        &self,
        rt: &impl Print,
        layer: u32,
        head: u32,
        places: usize,
        weights: Words,
    ) -> io::Result<()> {
        let mut space = [0.0; MOST_GIVEN];
        let n = weights.read(&mut space, |word| word_to_f32(word));
        tell_output(rt, places, |out| {
            self.store.sums(layer, head, &space[..n], out)
        })
    }

    // Of an empty store none survive.
    fn forget(&mut self) {
        if let Some(survivors) = &mut self.survivors {
            survivors.clear();
        } else {
            self.survivors = Some(Survivors::new());
        }
    }

    // The keys and values of an accepted append survive.
    fn keep(&mut self, layer: u32, count: usize, keys: &[u32], values: &[u32]) {
        if let Some(survivors) = &mut self.survivors
            && !survivors.append(layer, count, keys, values)
        {
            self.survivors = None;
        }
    }

    // Of a truncated layer the first positions survive.
    fn cut(&mut self, layer: u32, positions: u32) {
        let shape = self.store.shape();
        let kept = shape
            .heads
            .saturating_mul(shape.head_size)
            .saturating_mul(positions);
        if let Some(survivors) = &mut self.survivors {
            survivors.truncate(layer, kept as usize);
        }
    }
}

// What a call answers, and what it leaves in an output of as many places as a line says.
fn tell_output<F: Fn(&mut [u32]) -> u32>(rt: &impl Print, places: usize, call: F) -> io::Result<()>
    requires { F.IsAlwaysCallable call }
{
    let mut space = [UNWRITTEN; MOST_PLACES];
    let out = &mut space[..places.min(MOST_PLACES)];
    let reply = call(out);
    show::output(rt, reply, out)
}
