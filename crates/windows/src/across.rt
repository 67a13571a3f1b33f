// A rectangle of the picture, block by block.
ghost use Rattle.std.specs.Prelude.{◌≡◌, length};
ghost use Rattle.common.specs.Over.{over};
ghost use Rattle.layout.specs.Bands.{bands_in};
ghost use Rattle.calls.specs.Orders.{window_questions, rectangle};
ghost use Rattle.windows.specs.Internal.Windows.{window_bytes};

use crate::Rectangle;
use crate::cut::cut_of;
use grid::{AcceptedGrid, GridBlock};
use moves::part::{Part, read_part};

// A rectangle of the picture to the front of `out`, band by band, row by row.
pub fn read_rectangle(
    image: &[u8],
    grid: AcceptedGrid,
    area: Rectangle,
    asked: Option<&[u32]>,
    out: &mut [u8],
)
    requires { window_questions grid.grid (length image.now)
        (rectangle area.row area.column area.rows area.columns (bands_in asked)) (length out.old) ≡ 0 }
    ensures { out.new ≡ over out.old 0 (window_bytes grid.grid image.now
        (rectangle area.row area.column area.rows area.columns (bands_in asked.entry))) }
{
    let row = area.row as usize;
    let column = area.column as usize;
    let rows = area.rows as usize;
    let columns = area.columns as usize;
    let block_rows = grid.grid.nppbv as usize;
    let block_columns = grid.grid.nppbh as usize;
    let last_row = (row + rows - 1) / block_rows;
    let first_column = column / block_columns;
    let last_column = (column + columns - 1) / block_columns;
    // by number: blocks stand in no array
    for block_row in row / block_rows..last_row + 1 {
        let down = cut_of(row, rows, block_rows, block_row);
        for block_column in first_column..last_column + 1 {
            let across = cut_of(column, columns, block_columns, block_column);
            let part = Part {
                r: down.from,
                c: across.from,
                rows: down.count,
                columns: across.count,
                to_row: down.to,
                to_column: across.to,
            };
            let block = GridBlock {
                grid,
                row: block_row,
                column: block_column,
            };
            read_part(image, block.layout(), part, asked, rows, columns, out);
        }
    }
}
