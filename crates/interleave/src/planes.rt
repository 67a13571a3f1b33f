// A reordering as a read of planes out of a layout, or as a store of planes into one: the samples stand in the order of
// the mode, and nothing else.
ghost use Rattle.std.specs.Prelude.{◌≡◌, ◌*◌, ◌<◌, ◌≤◌};
ghost use Rattle.layout.specs.declared.InterleaveMode.TheVariants.{S};
ghost use Rattle.layout.specs.Bands.{bands_in};
ghost use Rattle.interleave.specs.Interleave.{every_band, reorder, reordered_of, reordered_with};
ghost use Rattle.interleave.specs.Internal.OrderLayout.{order_layout};

use crate::Output;
use crate::check::Counts;
use layout::{BlockLayout, InterleaveMode};
use moves::part::read_planes;
use moves::store::store_block;
use refusals::Refusal;

// The layout of samples that stand in the order of a mode.
fn order_layout(mode: InterleaveMode, counts: Counts) -> BlockLayout
    requires { (0 < counts.bands) × (counts.size ≤ 8)
        × (counts.bands * counts.rows * counts.columns * counts.size ≤ 4_294_967_294) }
    ensures { result ≡ order_layout mode counts.bands counts.rows counts.columns counts.size }
{
    let rows = counts.rows as usize;
    let columns = counts.columns as usize;
    let plane = rows * columns * counts.size;
    BlockLayout {
        first: 0,
        apart: plane,
        run_bytes: plane,
        rows,
        columns,
        run_rows: rows,
        run_columns: columns,
        mode,
        bands: counts.bands,
        nbpp: 8 * counts.size as u32,
    }
}

// The bands asked for of `data`, which stands in the order of a mode, in band-sequential order.
pub fn to_planes(
    data: &[u8],
    mode: InterleaveMode,
    counts: Counts,
    asked: Option<&[u32]>,
    out: &mut [u8],
) -> Result<Output, Refusal>
    ensures { reordered_with (reordered_of result) out.new
        ≡ reorder mode S (bands_in asked.entry) counts.rows counts.columns counts.bands counts.size
        «data».now out.old }
{
    let output = counts.check(data.len(), asked, out.len())?;
    if output.bytes != 0 {
        read_planes(data, order_layout(mode, counts), asked, out);
    }
    Ok(output)
}

// All bands of `data`, which stands in band-sequential order, in the order of a mode.
pub fn from_planes(
    data: &[u8],
    mode: InterleaveMode,
    counts: Counts,
    out: &mut [u8],
) -> Result<Output, Refusal>
    ensures { reordered_with (reordered_of result) out.new
        ≡ reorder S mode every_band counts.rows counts.columns counts.bands counts.size
        «data».now out.old }
{
    let output = counts.check(data.len(), None, out.len())?;
    if output.bytes != 0 {
        store_block(out, order_layout(mode, counts), data);
    }
    Ok(output)
}
