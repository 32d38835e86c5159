//! What the processors share: memory, the VPM, the mutex, the semaphores, and what each processor
//! has pending there.
#![tactic(auto)]

mod awaiting;
mod cause;
mod committing;
mod did;
mod executing;
mod laws;
mod moving;
mod pending;
mod reading;
mod shared;
mod starting;
mod starts;

pub use cause::Cause;
pub use did::Did;
pub use laws::{canonical_words_have_one_meaning, local_words_touch_their_processor_alone};
pub use shared::Shared;
