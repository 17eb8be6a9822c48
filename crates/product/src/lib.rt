// The two products' tables (document 01, "Product tables and numbers to check"), built in as constants, and a call for each that
// writes it as a table file. None is a default.
#![tactic(auto)]

ghost use Rattle.std.specs.Prelude.{◌≡◌, ◌<◌, ◌≤◌, length};
ghost use Rattle.shapes.specs.Edit.{filled};
ghost use Rattle.machine.specs.Head.{HeadIn, cell_count};
ghost use Rattle.machine.specs.Cell.{next_byte, output_byte};
ghost use Rattle.house.specs.Refusal.{wrote};
ghost use Rattle.house.specs.Table.{table_bytes, file_cells_at};
ghost use Rattle.product.specs.Tables.{product_head, product_cells, written};
ghost use Rattle.product.specs.declared.Product.TheVariants.{FiveLitre, EightLitre};

use house::refusal::Refusal;
use house::table::{FILE_CELLS_AT, put_table_head};
use machine::cell::UNDEFINED;
use machine::head::Head;

// Next state and output of a cell.
#[derive(Clone, Copy)]
struct Entry {
    next: u8,
    output: u8,
}

#[derive(Clone, Copy, Debug, PartialEq, Eq)]
pub enum Product {
    FiveLitre,
    EightLitre,
}

// A cell where the table has nothing.
const NOTHING: Entry = Entry {
    next: UNDEFINED,
    output: UNDEFINED,
};

const FIVE_LITRE: [Entry; 12] = [
    Entry { next: 1, output: 1 },
    Entry { next: 2, output: 3 },
    Entry { next: 0, output: 0 },
    Entry { next: 0, output: 2 },
    Entry { next: 2, output: 3 },
    Entry { next: 1, output: 0 },
    Entry { next: 3, output: 1 },
    Entry { next: 2, output: 0 },
    Entry { next: 0, output: 0 },
    Entry { next: 2, output: 2 },
    NOTHING,
    Entry { next: 1, output: 0 },
];

const EIGHT_LITRE: [Entry; 15] = [
    Entry { next: 1, output: 1 },
    Entry { next: 2, output: 3 },
    Entry { next: 0, output: 0 },
    Entry { next: 0, output: 2 },
    Entry { next: 2, output: 3 },
    Entry { next: 1, output: 0 },
    Entry { next: 3, output: 1 },
    Entry { next: 4, output: 4 },
    Entry { next: 0, output: 0 },
    Entry { next: 2, output: 2 },
    Entry { next: 4, output: 4 },
    Entry { next: 1, output: 0 },
    Entry { next: 4, output: 0 },
    NOTHING,
    Entry { next: 0, output: 0 },
];

impl Product {
    fn head(self) -> Head
        ensures head { result ≡ product_head self }
        ensures known { HeadIn result }
    {
        match self {
            Product::FiveLitre => Head {
                states: 4,
                inputs: 3,
                outputs: 4,
            },
            Product::EightLitre => Head {
                states: 5,
                inputs: 3,
                outputs: 5,
            },
        }
    }

    fn entry(self, cell: usize) -> Entry
        requires { cell < cell_count (product_head self) }
        ensures next { result.next ≡ next_byte (product_cells self) cell }
        ensures output { result.output ≡ output_byte (product_cells self) cell }
    {
        match self {
            Product::FiveLitre => FIVE_LITRE[cell],
            Product::EightLitre => EIGHT_LITRE[cell],
        }
    }
}

// Writes the cells of a product's table where they stand in its file.
fn put_cells(product: Product, out: &mut [u8])
    requires { table_bytes (product_head product) ≤ length out.old }
    ensures { out.new ≡ filled out.old file_cells_at (product_cells product) }
{
    let count = product.head().cells();
    for cell in 0..count {
        let entry = product.entry(cell);
        out[FILE_CELLS_AT + 2 * cell] = entry.next;
        out[FILE_CELLS_AT + 2 * cell + 1] = entry.output;
    }
}

// Writes a product's table as a table file.
fn write_product(product: Product, out: &mut [u8]) -> Result<usize, Refusal>
    ensures { wrote result out.new ≡ written product out.old }
{
    let head = product.head();
    let bytes = FILE_CELLS_AT + 2 * head.cells();
    if out.len() < bytes {
        return Err(Refusal::Short(bytes));
    }
    put_table_head(out, head);
    put_cells(product, out);
    Ok(bytes)
}

// Writes the five-litre table, 30 bytes.
pub fn five_litre(out: &mut [u8]) -> Result<usize, Refusal>
    ensures { wrote result out.new ≡ written FiveLitre out.old }
{
    write_product(Product::FiveLitre, out)
}

// Writes the eight-litre table, 36 bytes.
pub fn eight_litre(out: &mut [u8]) -> Result<usize, Refusal>
    ensures { wrote result out.new ≡ written EightLitre out.old }
{
    write_product(Product::EightLitre, out)
}
