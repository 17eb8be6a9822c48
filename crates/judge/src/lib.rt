// The judge (document 01, "The C side"). The bench harness, a C program, calls it by the crate judge_c, which exports it under the same clauses.
#![tactic(auto)]

ghost use Rattle.std.specs.Prelude.{◌≡◌, true, ◌<◌};
ghost use Rattle.shapes.specs.Refusals.{ruling};
ghost use Rattle.machine.specs.Head.{numbers};
ghost use Rattle.machine.specs.Case.{all_good};
ghost use Rattle.house.specs.Refusal.{ruled};
ghost use Rattle.house.specs.Table.{head_in, cells_in};
ghost use Rattle.house.specs.Cases.{cases_in};
ghost use Rattle.diagnosis.specs.Diagnosis.{explains_all};
ghost use Rattle.judge.specs.Judge.{judge_rules, judgement};

use diagnosis::is_missed;
use house::cases::{About, check_cases, read_record};
use house::record::Record;
use house::refusal::Refusal;
use house::table::{FILE_CELLS_AT, read_table};
use machine::replay::Run;
use machine::table::Table;

// What is added to the number of a refusal.
const REFUSED: usize = 16;

// Whether a number's machine reproduces each case of a record.
fn is_explained(table: &Table<'_>, number: usize, record: &Record<'_>) -> bool
    requires number_bound { number < numbers table.now.head }
    requires record_good { all_good table.now.head (cases_in «record».now.bytes.now) ≡ true }
    ensures { result ≡ explains_all table.now.head table.now.cells.now (cases_in «record».now.bytes.now) number }
{
    for case in record.cases() {
        let run = Run {
            table: *table,
            inputs: case.inputs,
            outputs: case.outputs,
        };
        if is_missed(&run, number) {
            return false;
        }
    }
    true
}

// Whether the number's machine reproduces the record, or the first refusal: of the table, of the record, STEP, NUMBER.
fn judgement_of(table: &[u8], record: &[u8], number: u32) -> Result<bool, Refusal>
    ensures { result ≡ ruled (ruling (judge_rules table.now «record».now number)) (explains_all (head_in table.now) (cells_in table.now) (cases_in «record».now) number) }
{
    let head = read_table(table)?;
    let record = Record {
        bytes: record,
        count: read_record(record)?,
    };
    check_cases(head, About { position: 0 }, &record)?;
    let number = number as usize;
    if head.numbers() <= number {
        return Err(Refusal::Number);
    }
    let table = Table {
        head,
        cells: &table[FILE_CELLS_AT..],
    };
    Ok(is_explained(&table, number, &record))
}

// 1 if the number's machine reproduces the record, 0 if not, else 16 plus the refusal.
pub fn judge(table: &[u8], record: &[u8], number: u32) -> u32
    ensures { result ≡ judgement table.now «record».now number }
{
    match judgement_of(table, record, number) {
        Ok(is_reproduced) => u32::from(is_reproduced),
        Err(refusal) => (REFUSED + refusal.number()) as u32,
    }
}
