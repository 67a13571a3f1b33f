// The samples of a block, put at their places.
ghost use Rattle.std.specs.Prelude.{◌≡◌, ◌+◌, ◌-◌, ◌*◌, ◌≤◌, length};
ghost use Rattle.layout.specs.Internal.Layout.{Sound};
ghost use Rattle.moves.specs.Internal.Stores.{clear_runs, put_block, store_block, Writable};

use crate::block_store::BlockStore;
use crate::part::whole_part;
use crate::spacing::Spacing;
use layout::BlockLayout;

// Clears the bytes of each run of a block.
pub(crate) fn clear_runs(image: &mut [u8], layout: BlockLayout)
    requires sound { Sound layout }
    requires image_holds { layout.first + (layout.bands - 1) * layout.apart + layout.run_bytes ≤ length image.old }
    ensures { image.new ≡ clear_runs layout image.old }
{
    let bands = layout.bands as usize;
    let first = layout.first;
    let apart = layout.apart;
    let t = layout.run_bytes;
    // by number: the last of `chunks_mut(apart)` would have bytes after its run, or too few
    for i in 0..bands {
        let at = first + i * apart;
        image[at..at + t].fill(0);
    }
}

// Puts the samples of a block, area by area.
fn put_block(image: &mut [u8], layout: BlockLayout, samples: &[u8])
    requires { Writable layout samples.now image.old }
    ensures { image.new ≡ put_block layout samples.now image.old }
{
    let part = whole_part(layout.rows, layout.columns);
    let store = BlockStore {
        samples,
        layout,
        places: Spacing::in_image(layout, part),
        planes: Spacing::in_planes(part, layout.rows, layout.columns, layout.sample_bytes()),
    };
    store.all(image)
}

// Stores the samples of a block. At widths that are no byte multiples its runs are cleared first.
pub fn store_block(image: &mut [u8], layout: BlockLayout, data: &[u8])
    requires { Writable layout «data».now image.old }
    ensures { image.new ≡ store_block layout «data».now image.old }
{
    if !layout.is_byte_multiple() {
        clear_runs(image, layout);
    }
    put_block(image, layout, data)
}
