// Where the sections of a circuit file stand.

/// Offset and length of each section.
#[derive(Clone, Copy)]
pub struct Directory {
    pub owners: (u32, u32),
    pub tables: (u32, u32),
    pub rows: (u32, u32),
    pub gates: (u32, u32),
    pub outputs: (u32, u32),
}
