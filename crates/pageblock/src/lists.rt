// What a page call is handed.

// The shapes' registers, types and part counts, the parts' lengths, and the patterns of the vertices: any lists at all.
#[derive(Clone, Copy)]
pub struct PageLists<'a> {
    pub registers: &'a [u32],
    pub types: &'a [u8],
    pub counts: &'a [u16],
    pub lens: &'a [u16],
    pub xs: &'a [u64],
    pub ys: &'a [u64],
}
