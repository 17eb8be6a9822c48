// The boundaries of the house files (document 01, "House files", "Refusal numbers", "Product tables and numbers to check"), through the
// calls that read and write them. One line each: a name, and 0 where the file is taken or the number of its refusal; beside it the
// count of a record that is taken, and the cell of CELL.
#![tactic(auto)]

ghost use Rattle.std.specs.Prelude.{◌≤◌, length};

use house::cases::{put_case, read_record};
use house::file::{REST, VERSION, put_file_head};
use house::refusal::Refusal;
use house::table::read_table;
use std::io;

// Both bytes of an undefined cell.
const UNDEFINED: u8 = 255;

fn print_refusal(rt: &impl Print, name: &str, refusal: Refusal) -> io::Result<()> {
    let number = refusal.number();
    match refusal {
        Refusal::Cell(cell) => println!(rt; "{name} {number} {cell}"),
        _ => println!(rt; "{name} {number}"),
    }
}

// What reading a table file answers.
fn try_table(rt: &impl Print, name: &str, file: &[u8]) -> io::Result<()> {
    match read_table(file) {
        Ok(_) => println!(rt; "{name} 0"),
        Err(refusal) => print_refusal(rt, name, refusal),
    }
}

// What reading a record file answers.
fn try_record(rt: &impl Print, name: &str, file: &[u8]) -> io::Result<()> {
    match read_record(file) {
        Ok(count) => println!(rt; "{name} 0 {count}"),
        Err(refusal) => print_refusal(rt, name, refusal),
    }
}

// A table of so many states, inputs and outputs, whose cells are the zeros of a file of zeros.
fn try_zeros(rt: &impl Print, name: &str, size: [u8; 3], file: &mut [u8]) -> io::Result<()>
    requires { (6 ≤ length file.old) × (length file.old ≤ 65538) }
{
    put_file_head(file, VERSION, file.len() - REST);
    file[REST..6].copy_from_slice(&size);
    try_table(rt, name, file)
}

// A table of two states, one input and one output, whose cell 1 holds two bytes.
fn try_cell(rt: &impl Print, name: &str, next: u8, output: u8) -> io::Result<()> {
    try_table(rt, name, &[1, 0, 7, 2, 1, 1, 0, 0, next, output])
}

// A table of one cell with a version and the low byte of a length field, which are 1 and 5.
fn try_head(rt: &impl Print, name: &str, version: u8, low: u8) -> io::Result<()> {
    try_table(rt, name, &[version, 0, low, 1, 1, 1, 0, 0])
}

// A record of one case of so many steps, which are the zeros of a file of zeros.
fn try_case(rt: &impl Print, name: &str, steps: u8, file: &mut [u8]) -> io::Result<()>
    requires { (4 ≤ length file.old) × (length file.old ≤ 65538) }
{
    put_file_head(file, VERSION, file.len() - REST);
    file[REST] = steps;
    try_record(rt, name, file)
}

// A record of cases of one step each, as many as a file has room for.
fn try_cases(rt: &impl Print, name: &str, file: &mut [u8]) -> io::Result<()>
    requires { (3 ≤ length file.old) × (length file.old ≤ 65538) }
{
    put_file_head(file, VERSION, file.len() - REST);
    for case in file[REST..].chunks_exact_mut(3) {
        put_case(case, 0, &[0], &[0]);
    }
    try_record(rt, name, file)
}

fn try_tables(rt: &impl Print) -> io::Result<()> {
    try_zeros(rt, "n16", [16, 1, 1], &mut [0; 6 + 2 * 16])?;
    try_zeros(rt, "n0", [0, 1, 1], &mut [0; 6])?;
    try_zeros(rt, "n17", [17, 1, 1], &mut [0; 6 + 2 * 17])?;
    // The largest table: 256 cells, and a length field that needs its high byte.
    try_zeros(rt, "n16_k16_m16", [16, 16, 16], &mut [0; 6 + 2 * 256])?;
    try_cell(rt, "next_n_less_1", 1, 0)?;
    try_cell(rt, "next_n", 2, 0)?;
    try_cell(rt, "output_m", 0, 1)?;
    try_cell(rt, "255_with_255", UNDEFINED, UNDEFINED)?;
    try_cell(rt, "255_with_0", UNDEFINED, 0)
}

fn try_heads(rt: &impl Print) -> io::Result<()> {
    try_table(rt, "under_3_bytes", &[1, 0])?;
    try_head(rt, "version_1", 1, 5)?;
    try_head(rt, "version_2", 2, 5)?;
    try_head(rt, "length_field_6", 1, 6)?;
    try_head(rt, "version_2_length_field_6", 2, 6)
}

fn try_records(rt: &impl Print) -> io::Result<()> {
    try_case(rt, "length_64", 64, &mut [0; 4 + 2 * 64])?;
    try_case(rt, "length_65", 65, &mut [0; 4 + 2 * 65])?;
    try_case(rt, "length_0", 0, &mut [0; 4])?;
    // The case ends a byte past the file.
    try_case(rt, "past_the_end", 2, &mut [0; 7])?;
    try_cases(rt, "cases_0", &mut [0; 3])?;
    try_cases(rt, "cases_64", &mut [0; 3 + 3 * 64])?;
    try_cases(rt, "cases_65", &mut [0; 3 + 3 * 65])
}

fn main(rt: HostRuntime) -> io::Result<()> {
    try_tables(&rt)?;
    try_heads(&rt)?;
    try_records(&rt)
}
