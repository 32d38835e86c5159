use crate::lanes::Lanes;

/// What an instruction reads from the shared parts; what the word doesn't need is 0 or false.
#[derive(Clone, Copy, Debug, PartialEq, Eq)]
pub struct Ins {
    /// The uniform.
    pub uniform: u32,
    /// The VPM vector.
    pub vpm: Lanes,
    /// Whether the processor's own load is pending.
    pub load_busy: bool,
    /// Whether the processor's own store is pending.
    pub store_busy: bool,
    /// The words of a look-up.
    pub loaded: Lanes,
}

/// What an instruction writes outside the registers.
#[derive(Clone, Copy, Debug, PartialEq, Eq)]
pub struct Outs {
    /// A vector for the VPM.
    pub vpm: Option<Lanes>,
    /// A value for the read setup register, file A address 49.
    pub to_read_setup: Option<u32>,
    /// A value for the write setup register, file B address 49.
    pub to_write_setup: Option<u32>,
    /// A new uniforms address, in bytes.
    pub uniform_to: Option<u32>,
    /// The byte address at which a load starts.
    pub load_at: Option<u32>,
    /// The byte address at which a store starts.
    pub store_at: Option<u32>,
    /// The unit of a look-up, 0 or 1; 0 where there is none.
    pub look_unit: u32,
    /// The sixteen byte addresses of a look-up.
    pub look: Option<Lanes>,
}
