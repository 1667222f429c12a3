// What a row is read from and written to.

// So many bytes are given at once. The calls of these numbers fail, where they aren't 0, the write behind so many bytes.
#[derive(Clone, Copy, Drop)]
pub(crate) struct Devices {
    pub(crate) piece: usize,
    pub(crate) read: u32,
    pub(crate) put: u32,
    pub(crate) taken: usize,
}

pub(crate) const SURE: Devices = Devices {
    piece: 4096,
    read: 0,
    put: 0,
    taken: 0,
};

// Pieces of one byte, and this call fails.
pub(crate) fn failing_read(read: u32) -> Devices {
    Devices {
        piece: 1,
        read,
        put: 0,
        taken: 0,
    }
}

// This write fails behind so many bytes.
pub(crate) fn failing_put(put: u32, taken: usize) -> Devices {
    Devices {
        piece: 4096,
        read: 0,
        put,
        taken,
    }
}
