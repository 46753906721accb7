// The calls as C has them: numbers and slices in, the paper's numbers out.
#![tactic(auto)]

pub(crate) mod records;

ghost use Rattle.std.specs.Prelude.{◌≡◌};
ghost use Rattle.numbers.specs.Word.{word, bf16, from_bf16};
ghost use Rattle.numbers.specs.Scale.{scale_of};
ghost use Rattle.numbers.specs.Code.{code8, code4, read8};
ghost use Rattle.groups.specs.Group.{group_reply, pack_into, unpack_into};
ghost use Rattle.shapes.specs.Buffers.{buffers};
ghost use Rattle.store.specs.Calls.{open_of, append_of, truncate_of, advance_of, cached_len_of, memory_bytes_of, read_of, counted};
ghost use Rattle.heads.specs.Calls.{head_scores_of, head_sums_of};
ghost use Rattle.host.specs.Words.{record_from, shape_of, need, need_replied, seen, replied};

use numbers::{codes, scales, words};
use records::{record_of, words_of};
use replies::{Refusal, number, require};
use shapes::{Shape, is_within, need_of};
use store::Record;

// The scale of an INT8 head.
pub fn kv_int8_scale(run: &[u32]) -> f32
    ensures { result ≡ scale_of 127 run.now }
{
    scales::compute_int8_scale(run)
}

// The scale of an INT4 group.
pub fn kv_int4_scale(run: &[u32]) -> f32
    ensures { result ≡ scale_of 7 run.now }
{
    scales::compute_int4_scale(run)
}

// The INT8 code of a number.
pub fn kv_quantize_i8(x: u32, scale: f32) -> u8
    ensures { result ≡ code8 x scale }
{
    codes::quantize_i8(x, scale)
}

// The INT4 code of a number.
pub fn kv_quantize_i4(x: u32, scale: f32) -> u8
    ensures { result ≡ code4 x scale }
{
    codes::quantize_i4(x, scale)
}

// The word that a stored INT8 byte reads as.
pub fn kv_dequantize_i8(code: u8, scale: f32) -> u32
    ensures { result ≡ word (read8 code scale) }
{
    words::f32_to_word(codes::dequantize_i8(code, scale))
}

// Codes 32 numbers into the first 16 bytes, or answers 7.
pub fn kv_pack_i4_group(src: &[u32], scale: f32, dst: &mut [u8]) -> u32
    ensures reply { result ≡ group_reply src.now dst.old }
    ensures bytes { dst.new ≡ pack_into src.now scale dst.old }
{
    number(groups::pack_i4_group(src, scale, dst))
}

// Reads 32 numbers out of the first 16 bytes, or answers 7.
pub fn kv_unpack_i4_group(packed: &[u8], scale: f32, dst: &mut [u32]) -> u32
    ensures reply { result ≡ group_reply dst.old packed.now }
    ensures words { dst.new ≡ unpack_into packed.now scale dst.old }
{
    number(groups::unpack_i4_group(packed, scale, dst))
}

// The BF16 pattern of a word.
pub fn kv_f32_to_bf16(x: u32) -> u16
    ensures { result ≡ bf16 x }
{
    words::f32_to_bf16(x)
}

// The word of a BF16 pattern.
pub fn kv_bf16_to_f32(half: u16) -> u32
    ensures { result ≡ from_bf16 half }
{
    words::bf16_to_f32(half)
}

// The lengths of the two buffers that a shape needs, in `cells` and `scales`.
pub fn kv_need(
    format: u32,
    layers: u32,
    heads: u32,
    head_size: u32,
    capacity: u32,
    cells: &mut usize,
    scales: &mut usize,
) -> u32
    ensures { replied result (need cells.new scales.new)
        ≡ need_replied (shape_of format layers heads head_size capacity) }
{
    let shape = Shape {
        format,
        layers,
        heads,
        head_size,
        capacity,
    };
    let need = need_of(shape);
    *cells = need.cells;
    *scales = need.scales;
    number(require(is_within(shape), Refusal::Shape))
}

// Makes an empty store in buffers of exactly the shape's need.
pub fn kv_open(
    rec: &mut [u32; 134],
    format: u32,
    layers: u32,
    heads: u32,
    head_size: u32,
    capacity: u32,
    cells: &mut [u8],
    scales: &mut [u32],
) -> u32
    ensures { seen result rec.new cells.new scales.new
        ≡ open_of (shape_of format layers heads head_size capacity) (buffers cells.old scales.old) }
{
    let shape = Shape {
        format,
        layers,
        heads,
        head_size,
        capacity,
    };
    let opened = Record::open(shape, cells, scales);
    *rec = words_of(&opened.unwrap_or(Record::not_open()));
    number(opened)
}

// Appends keys and values of n positions to a layer.
pub fn kv_append(
    rec: &mut [u32; 134],
    cells: &mut [u8],
    scales: &mut [u32],
    layer: u32,
    keys: &[u32],
    values: &[u32],
) -> u32
    ensures { seen result rec.new cells.new scales.new
        ≡ append_of (record_from rec.old) (buffers cells.old scales.old) layer keys.now values.now }
{
    let mut record = record_of(rec);
    let reply = record.append(cells, scales, layer, keys, values);
    *rec = words_of(&record);
    number(reply)
}

// Keeps the first `t` positions of a layer.
pub fn kv_truncate(
    rec: &mut [u32; 134],
    cells: &mut [u8],
    scales: &mut [u32],
    layer: u32,
    t: u32,
) -> u32
    ensures { seen result rec.new cells.new scales.new
        ≡ truncate_of (record_from rec.old) (buffers cells.old scales.old) layer t }
{
    let mut record = record_of(rec);
    let reply = record.truncate_to(cells, scales, layer, t);
    *rec = words_of(&record);
    number(reply)
}

// Adds to the sequence number.
pub fn kv_advance(rec: &mut [u32; 134], count: u32) -> u32
    ensures { replied result (record_from rec.new) ≡ advance_of (record_from rec.old) count }
{
    let mut record = record_of(rec);
    let reply = record.advance_seq_len(count);
    *rec = words_of(&record);
    number(reply)
}

// The positions of a layer, in `count`.
pub fn kv_cached_len(rec: &[u32; 134], layer: u32, count: &mut u64) -> u32
    ensures { replied result count.new ≡ cached_len_of (record_from rec.now) layer }
{
    told(record_of(rec).cached_len(layer), count)
}

// The bytes of all rows, in `count`.
pub fn kv_memory_bytes(rec: &[u32; 134], count: &mut u64) -> u32
    ensures { replied result count.new ≡ memory_bytes_of (record_from rec.now) }
{
    told(record_of(rec).memory_bytes(), count)
}

// A count in `count`, 0 where it is refused, beside the reply's number.
fn told(answer: Result<u64, Refusal>, count: &mut u64) -> u32
    ensures { replied result count.new ≡ counted answer }
{
    *count = answer.unwrap_or(0);
    number(answer)
}

// Reads one position of a side and head into `out`.
pub fn kv_read_row(
    rec: &[u32; 134],
    cells: &[u8],
    scales: &[u32],
    layer: u32,
    side: u32,
    head: u32,
    position: u32,
    out: &mut [u32],
) -> u32
    ensures { replied result out.new
        ≡ read_of (record_from rec.now) (buffers cells.now scales.now) layer side head position out.old }
{
    let record = record_of(rec);
    number(record.read_row(cells, scales, layer, side, head, position, out))
}

// Scores as many positions of a head's keys as `out` has places, under a query and a scale.
pub fn kv_scores(
    rec: &[u32; 134],
    cells: &[u8],
    scales: &[u32],
    layer: u32,
    head: u32,
    query: &[f32],
    scale: f32,
    out: &mut [u32],
) -> u32
    ensures { replied result out.new
        ≡ head_scores_of (record_from rec.now) (buffers cells.now scales.now) layer head query.now scale out.old }
{
    number(heads::scores(
        &record_of(rec),
        cells,
        scales,
        layer,
        head,
        query,
        scale,
        out,
    ))
}

// Sums as many positions of a head's values as there are weights.
pub fn kv_sums(
    rec: &[u32; 134],
    cells: &[u8],
    scales: &[u32],
    layer: u32,
    head: u32,
    weights: &[f32],
    out: &mut [u32],
) -> u32
    ensures { replied result out.new
        ≡ head_sums_of (record_from rec.now) (buffers cells.now scales.now) layer head weights.now out.old }
{
    number(heads::sums(&record_of(rec), cells, scales, layer, head, weights, out))
}
