// The judge for C (document 01, "The C side"): the one function that the bench harness, a C program, calls. bench/judge.h declares it. A static
// library cannot be cited by another crate, so the judge itself is the library `judge`, and its clauses stand here word for word.
#![tactic(auto)]

ghost use Rattle.std.specs.Prelude.{◌≡◌};
ghost use Rattle.judge.specs.Judge.{judgement};

// 1 if the number's machine reproduces the record, 0 if not, else 16 plus the refusal.
#[unsafe(no_mangle)]
pub extern "C" fn judge(table: &[u8], record: &[u8], number: u32) -> u32
    ensures { result ≡ judgement table.now «record».now number }
{
    judge::judge(table, record, number)
}
