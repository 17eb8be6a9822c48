// The table file (document 01, "House files"): n, k, m, then the cells in rising number, next state before output.
ghost use Rattle.std.specs.Prelude.{◌≡◌, ◌≤◌, length};
ghost use Rattle.shapes.specs.Edit.{filled};
ghost use Rattle.shapes.specs.Refusals.{fine, ruling};
ghost use Rattle.house.specs.File.{version, file_rules};
ghost use Rattle.machine.specs.Head.{HeadIn};
ghost use Rattle.house.specs.Table.{file_cells_at, table_read, table_head_bytes};

use crate::file::{VERSION, check_file, put_file_head};
use crate::refusal::Refusal;
use machine::cell::first_bad;
use machine::head::Head;
use shapes::byte;

// Where the cells of a table file stand.
pub const FILE_CELLS_AT: usize = 6;

// The head of a table, or its refusal, from any bytes; the cells stand from FILE_CELLS_AT on.
pub fn read_table(file: &[u8]) -> Result<Head, Refusal>
    ensures { result ≡ table_read file.now }
{
    check_file(file, VERSION)?;
    read_checked(file)
}

// The same of a file whose first three bytes are right.
fn read_checked(file: &[u8]) -> Result<Head, Refusal>
    requires { ruling (file_rules version file.now) ≡ fine }
    ensures { result ≡ table_read file.now }
{
    if file.len() < FILE_CELLS_AT {
        return Err(Refusal::Size);
    }
    let head = Head::new(byte(file, 3), byte(file, 4), byte(file, 5)).ok_or(Refusal::Size)?;
    if file.len() != FILE_CELLS_AT + 2 * head.cells() {
        return Err(Refusal::Size);
    }
    match first_bad(head, &file[FILE_CELLS_AT..]) {
        Some(cell) => Err(Refusal::Cell(cell)),
        None => Ok(head),
    }
}

// Writes what a table file has before its cells.
pub fn put_table_head(out: &mut [u8], head: Head)
    requires head_in { HeadIn head }
    requires file_cells_at_in_bounds { file_cells_at ≤ length out.old }
    ensures { out.new ≡ filled out.old 0 (table_head_bytes head) }
{
    put_file_head(out, VERSION, 3 + 2 * head.cells());
    out[3] = head.states as u8;
    out[4] = head.inputs as u8;
    out[5] = head.outputs as u8;
}
