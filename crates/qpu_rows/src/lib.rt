//! Worked rows of the commands, from words and bytes to status and text, over sources and sinks in
//! memory; and of instructions that touch what the processors share. There is nothing here but
//! tests.
#![tactic(auto)]

#[cfg(test)]
mod asking;
#[cfg(test)]
mod asm_command;
#[cfg(test)]
mod assembler;
#[cfg(test)]
mod assembler_faults;
#[cfg(test)]
mod assembler_limits;
#[cfg(test)]
mod assembler_long_lines;
#[cfg(test)]
mod check_command;
#[cfg(test)]
mod cuts;
#[cfg(test)]
mod dis_command;
#[cfg(test)]
mod failing_calls;
#[cfg(test)]
mod hexadecimal;
#[cfg(test)]
mod jobs;
#[cfg(test)]
mod jobs_bytes;
#[cfg(test)]
mod jobs_memory;
#[cfg(test)]
mod jobs_twelve;
#[cfg(test)]
mod jobs_units;
#[cfg(test)]
mod jobs_vpm;
#[cfg(test)]
mod jobs_waits;
#[cfg(test)]
mod refusals;
#[cfg(test)]
mod replays;
#[cfg(test)]
mod rows;
#[cfg(test)]
mod runs;
#[cfg(test)]
mod shared;
#[cfg(test)]
mod shared_rows;
