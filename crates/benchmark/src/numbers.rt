//! Numbers that look random and are the same in every run, and checksums.

/// A linear congruential generator.
#[derive(Clone, Copy)]
pub(crate) struct Random {
    state: u64,
}

impl Random {
    pub(crate) fn new(seed: u64) -> Random {
        Random { state: seed }
    }

    // The upper half, since the lowest bits of such a generator soon come again.
    pub(crate) fn next_number(&mut self) -> u32 {
        self.state = self
            .state
            .wrapping_mul(6_364_136_223_846_793_005)
            .wrapping_add(1_442_695_040_888_963_407);
        let [a, b, c, d, ..] = self.state.to_be_bytes();
        u32::from_be_bytes([a, b, c, d])
    }

    pub(crate) fn next_byte(&mut self) -> u8 {
        let [byte, ..] = self.next_number().to_be_bytes();
        byte
    }
}

/// A checksum of numbers in turn (FNV-1a, a number at a time).
#[derive(Clone, Copy)]
pub(crate) struct Checksum {
    pub(crate) value: u64,
}

impl Checksum {
    pub(crate) fn new() -> Checksum {
        Checksum {
            value: 14_695_981_039_346_656_037,
        }
    }

    pub(crate) fn add(&mut self, number: u32) {
        self.value = (self.value ^ u64::from(number)).wrapping_mul(1_099_511_628_211);
    }
}
