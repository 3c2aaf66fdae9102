// The elements of slices: numbers of N bytes, the lowest byte first.
pub(crate) trait Element<const N: usize>: Copy {
    fn of(bytes: [u8; N]) -> Self;

    fn bytes(self) -> [u8; N];
}

impl Element<1> for u8 {
    fn of(bytes: [u8; 1]) -> u8 {
        u8::from_le_bytes(bytes)
    }

    fn bytes(self) -> [u8; 1] {
        self.to_le_bytes()
    }
}

impl Element<2> for u16 {
    fn of(bytes: [u8; 2]) -> u16 {
        u16::from_le_bytes(bytes)
    }

    fn bytes(self) -> [u8; 2] {
        self.to_le_bytes()
    }
}

impl Element<4> for u32 {
    fn of(bytes: [u8; 4]) -> u32 {
        u32::from_le_bytes(bytes)
    }

    fn bytes(self) -> [u8; 4] {
        self.to_le_bytes()
    }
}

impl Element<8> for u64 {
    fn of(bytes: [u8; 8]) -> u64 {
        u64::from_le_bytes(bytes)
    }

    fn bytes(self) -> [u8; 8] {
        self.to_le_bytes()
    }
}
