/// A processor's start: at word 0 of a program, with the byte address of its uniforms.
#[derive(Clone, Copy, Debug, Default, PartialEq, Eq)]
pub struct Start {
    /// The processor's number, below 12.
    pub q: u32,
    /// The index of its program.
    pub program: u32,
    /// The byte address of its uniforms.
    pub uniforms: u32,
}
