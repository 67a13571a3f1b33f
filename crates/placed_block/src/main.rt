// A block that lies at another byte, and its runs further apart, than in an ordinary image: its layout alone tells the
// movers where.
// Two bands of 2 rows and 3 columns of 12 bits, in the order of P, in runs of 9 bytes, the first at byte 5 and the
// second at byte 21.
#![tactic(auto)]

ghost use Rattle.std.specs.Prelude.{◌≡◌};
ghost use Rattle.placed_block.specs.Placed.{placed_layout};

use layout::{BlockLayout, InterleaveMode};
use moves::part::read_planes;
use moves::store::store_block;
use printing::Hex;

fn placed() -> BlockLayout
    ensures { result ≡ placed_layout }
{
    BlockLayout {
        first: 5,
        apart: 16,
        run_bytes: 9,
        rows: 2,
        columns: 3,
        run_rows: 2,
        run_columns: 3,
        mode: InterleaveMode::P,
        bands: 2,
        nbpp: 12,
    }
}

// The planes of the block: samples of two bytes, with 12 bits.
const PLANES: [u8; 24] = [
    1, 0x11, 1, 0x12, 1, 0x13, 1, 0x21, 1, 0x22, 1, 0x23, 2, 0x11, 2, 0x12, 2, 0x13, 2, 0x21, 2,
    0x22, 2, 0x23,
];

// Stores the planes, and reads bands 1 and 0 of the block.
// A failed write is no error, and tells nobody: the output is compared.
fn main(rt: HostRuntime) {
    let mut file = [0xAAu8; 32];
    store_block(&mut file, placed(), &PLANES);
    let mut out = [0u8; 24];
    read_planes(&file, placed(), Some(&[1, 0]), &mut out);
    let _ = println!(rt; "{}", Hex(&file));
    let _ = println!(rt; "{}", Hex(&out));
}
