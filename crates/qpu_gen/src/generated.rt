//! The text of the generated job.
ghost use Rattle.std.specs.Prelude.{◌≡◌, ◌++◌, ◌≤◌, ◌^◌, Ok, IfOk, OnOk, flat_map, length, string_bytes};
ghost use Rattle.qpu_job.specs.Reading.{job_of};
ghost use Rattle.qpu_gen.specs.Generated.{counted, data_line, generated_job, spaced, uniforms};
ghost use Rattle.qpu_gen.specs.Plan.{generated_plan};

use crate::pieces::{put, put_address, put_number};
use qpu_word::NoMemory;
use std::alloc::Global;

/// How many words of memory count on from the number: 4,096 for each processor.
pub const COUNTED_WORDS: u32 = 49_152;

/// The lines before the data.
const HEAD: &str = "qpujob 1\nmemory 131072\nlimit 100000\n";

/// The program of all processors, and their starts.
const TAIL: &str = "program a
or r0, qpu_num, qpu_num
ldi r1, 0x00004000
nop; mul24 r0, r0, r1
or r1, elem_num, elem_num
shl r1, r1, 2
add r1, r1, r0
add ra0, r1, unif
or rb1, unif, unif
add ra2, r0, unif
ldi r3, 0x00001a00
add rb4, r3, qpu_num
or r3, qpu_num, qpu_num
shl r3, r3, 7
ldi r2, 0x80904000
add rb5, r2, r3
ldi r3, 0x00000100
:loop or t0s, ra0, ra0
ldi r1, 0x00000040
add ra0, ra0, r1; ldtmu0
add r2, r4, rb1
or vw_setup, rb4, rb4
or vpm, r2, r2
or vw_setup, rb5, rb5
or vw_addr, ra2, ra2
or -, vpm_st_wait, vpm_st_wait
sub.setf r3, r3, 1
brr.anynz -, :loop
add ra2, ra2, r1
nop
nop
nop; thrend
nop
nop
endprogram
start 0 a 0
start 1 a 0
start 2 a 0
start 3 a 0
start 4 a 0
start 5 a 0
start 6 a 0
start 7 a 0
start 8 a 0
start 9 a 0
start 10 a 0
start 11 a 0
";

/// Puts the line of the first three words: where the counted words begin, the number, and where the
/// sums go.
#[tactic(auto, using(crate::proofs::Writing::uniforms_put))]
fn put_uniforms(text: &mut String, n: u32) -> Result<(), NoMemory>
    ensures { OnOk result (string_bytes text.new ≡ string_bytes text.old ++ data_line 0 (uniforms n)) }
{
    put_address(text, 0)?;
    put_number(text, 64)?;
    put_number(text, n)?;
    put_number(text, 196_672)?;
    put(text, "\n")
}

/// Puts so many numbers that count on from one, each behind a space.
#[tactic(auto, using(crate::proofs::Writing::counted_none, crate::proofs::Writing::counted_more))]
fn put_counted(text: &mut String, n: u32, words: u32) -> Result<(), NoMemory>
    ensures { OnOk result (string_bytes text.new ≡ string_bytes text.old ++ flat_map spaced (counted n words)) }
{
    for k in 0..words {
        put_number(text, n.wrapping_add(k))?;
    }
    Ok(())
}

/// Puts the line of the counted words.
#[tactic(auto, using(crate::proofs::Writing::data_put))]
fn put_data(text: &mut String, n: u32) -> Result<(), NoMemory>
    ensures { OnOk result (string_bytes text.new ≡ string_bytes text.old ++ data_line 64 (counted n COUNTED_WORDS)) }
{
    put_address(text, 64)?;
    put_counted(text, n, COUNTED_WORDS)?;
    put(text, "\n")
}

/// Puts the whole text.
#[tactic(auto, using(crate::proofs::Writing::job_put))]
fn put_job(text: &mut String, n: u32) -> Result<(), NoMemory>
    ensures { OnOk result (string_bytes text.new ≡ string_bytes text.old ++ generated_job n) }
{
    put(text, HEAD)?;
    put_uniforms(text, n)?;
    put_data(text, n)?;
    put(text, TAIL)
}

/// The text of the generated job of a number: memory of 524,288 bytes, 49,152 words of which count on
/// from the number, and twelve processors, each of which adds the number to 4,096 of these words and
/// stores the sums. It is read as that job. The one error is want of memory.
#[tactic(auto, using(crate::proofs::Reading::generated_read, crate::proofs::Lengths::job_short))]
pub fn job_of(alloc: Global, n: u32) -> Result<String, NoMemory>
    ensures text { IfOk result (λ text. string_bytes text ≡ generated_job n) }
    ensures reads { IfOk result (λ text. job_of (string_bytes text) ≡ Ok (generated_plan n)) }
    ensures short { IfOk result (λ text. length (string_bytes text) ≤ 2 ^ 20) }
{
    let mut text = String::new(alloc);
    put_job(&mut text, n)?;
    Ok(text)
}
